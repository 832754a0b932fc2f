//! A quarter turn over any plane, which is again a plane.
ghost use Rattle.std.proofs.Common.{ap};
ghost use Rattle.std.specs.Prelude.{◌-◌, ◌&&◌};
ghost use Rattle.plane.specs.Picture.{turned as on_side};

use crate::Plane;
use refusal::Refusal;

/// The plane below on its side: (x, y) is its place (width below - 1 - y, x).
#[derive(Drop)]
pub struct Turned<P> {
    pub below: P,
}

impl<P: Plane> Plane for Turned<P> {
    ghost picture = { λ s. on_side (P.Plane.picture s.below) };

    ghost dark = { λ s x y out. ap (λ t. t && (P.Plane.picture s.below).at ((P.Plane.picture s.below).wide - 1 - y) x) out };

    fn width(&self) -> usize {
        self.below.height()
    }

    fn height(&self) -> usize {
        self.below.width()
    }

    fn ask(&self, x: usize, y: usize) -> Result<bool, Refusal> {
        let width = self.below.width();
        if y < width {
            self.below.ask(width - 1 - y, x)
        } else {
            Err(Refusal::Outside)
        }
    }

    fn set(&mut self, x: usize, y: usize, bit: bool) -> Result<(), Refusal> {
        let width = self.below.width();
        if y < width {
            self.below.set(width - 1 - y, x, bit)
        } else {
            Err(Refusal::Outside)
        }
    }
}

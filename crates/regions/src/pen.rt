//! How drawing and text join the plane.
ghost use Rattle.std.specs.Prelude.{◌≡◌};
ghost use Rattle.regions.specs.Pen.{new as new_pen, eraser as eraser_pen};

use raster::operation::Operation;

#[derive(Clone, Copy)]
pub struct Pen {
    /// Joins lines.
    pub drawing: Operation,
    /// Joins the cells of glyphs.
    pub text: Operation,
    /// Whether glyphs are flipped.
    pub reversed: bool,
}

impl Pen {
    /// Source over destination, and plain.
    pub fn new() -> Pen
        ensures { result ≡ new_pen }
    {
        Pen {
            drawing: Operation::Copy,
            text: Operation::Copy,
            reversed: false,
        }
    }

    /// Makes every pixel 0, and plain.
    pub fn eraser() -> Pen
        ensures { result ≡ eraser_pen }
    {
        Pen {
            drawing: Operation::Clear,
            text: Operation::Clear,
            reversed: false,
        }
    }
}

/// Lends a pen for some drawing, and puts back what it was, on every way out.
pub struct PenGuard<'a> {
    pub pen: &'a mut Pen,
    saved: Pen,
}

impl<'a> PenGuard<'a> {
    /// Lends the pen as another one.
    pub fn new(pen: &'a mut Pen, lent: Pen) -> PenGuard<'a>
        ensures saved { result.saved ≡ pen.old }
        ensures lender { result.pen.ghost_name ≡ pen.entry.ghost_name }
        ensures lent { result.pen.now ≡ lent }
    {
        let saved = *pen;
        *pen = lent;
        PenGuard { pen, saved }
    }
}

impl Drop for PenGuard<'_> {
    fn drop(self)
        ensures { self.exit.0.now ≡ self.entry.saved }
    {
        *self.pen = self.saved;
        let PenGuard { pen: _, saved: _ } = self;
    }
}

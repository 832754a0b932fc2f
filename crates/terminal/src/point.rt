//! The pointer's place.
ghost use Rattle.std.specs.Prelude.{◌≡◌, OnErr};
ghost use Rattle.runs.specs.Calls.{Pointed};
ghost use Rattle.terminal.specs.Session.{seen, SameLoans};

use crate::session::Session;
use line::Line;
use plane::Plane;
use refusal::Refusal;
use state::setup::Size;
use state::terminal::Place;

impl<P: Plane, L: Line> Session<'_, '_, '_, '_, '_, '_, P, L> {
    /// Sets the pointer to a place of the plane. That needs no room, since it replies nothing.
    pub fn point(&mut self, x: usize, y: usize) -> Result<(), Refusal>
        ensures pointed { Pointed (seen P.picture L.carried self.old) x y result (seen P.picture L.carried self.new) }
        ensures lent { SameLoans self.old self.new }
        ensures refused { OnErr result (self.new ≡ self.old) }
        ensures plane { self.new.plane ≡ self.old.plane }
        ensures line { self.new.line ≡ self.old.line }
        ensures strokes { self.new.strokes ≡ self.old.strokes }
    {
        self.admit()?;
        // The plane has the terminal's size.
        let Size { width, height } = self.terminal.setup.size;
        if x >= width as usize || y >= height as usize {
            return Err(Refusal::Outside);
        }
        self.terminal.pointer = Place {
            x: x as u16,
            y: y as u16,
        };
        Ok(())
    }
}

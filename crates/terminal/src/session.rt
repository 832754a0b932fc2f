//! A terminal in session: the terminal with all that its calls work on.
ghost use Rattle.std.specs.Prelude.{◌≡◌};
ghost use Rattle.std.specs.Result.{result_err};
ghost use Rattle.runs.specs.Set.{refusal};
ghost use Rattle.terminal.specs.Session.{seen};

use keyboard::stroke::Stroke;
use line::Line;
use plane::Plane;
use queue::Queue;
use refusal::Refusal;
use state::terminal::Terminal;

/// The bytes of a face.
pub const FACE_BYTES: usize = 1520;

/// The terminal, the face of its glyphs, the plane that it draws on, the line to its host, and the strokes that wait.
/// All of it is lent, so that a terminal may go from one plane, line or face to another.
#[derive(Drop)]
pub struct Session<'t, 'f, 'p, 'l, 's, 'q, P, L> {
    pub terminal: &'t mut Terminal,
    pub face: &'f [u8],
    pub plane: &'p mut P,
    pub line: &'l mut L,
    pub strokes: &'s mut Queue<'q, Stroke>,
}

impl<P: Plane, L: Line> Session<'_, '_, '_, '_, '_, '_, P, L> {
    /// What feed, key and point look at first: the plane, the line, the face and the strokes.
    pub(crate) fn admit(&self) -> Result<(), Refusal>
        ensures { result_err result ≡ refusal (seen P.picture L.carried self.now) }
    {
        if !self.terminal.matches(self.plane) {
            return Err(Refusal::PlaneSize);
        }
        if self.line.capacity() < 64 {
            return Err(Refusal::Capacity);
        }
        if self.face.len() != FACE_BYTES {
            return Err(Refusal::Face);
        }
        let places = self.strokes.places();
        if places < 1 || places > 16 {
            return Err(Refusal::Strokes);
        }
        Ok(())
    }
}

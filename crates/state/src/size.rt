//! Whether a plane is one that the terminal draws on.
ghost use Rattle.std.specs.Prelude.{◌≡◌};
ghost use Rattle.state.specs.Size.{same_size};

use crate::terminal::Terminal;
use plane::Plane;

impl Terminal {
    /// Whether the plane has the terminal's size.
    pub fn matches<P: Plane>(&self, plane: &P) -> bool
        ensures { result ≡ same_size self.now (P.picture plane.now) }
    {
        let size = self.setup.size;
        plane.width() == size.width as usize && plane.height() == size.height as usize
    }
}

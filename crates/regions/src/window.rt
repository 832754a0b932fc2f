//! A region with all that belongs to it.
ghost use Rattle.std.specs.Prelude.{◌≡◌};
ghost use Rattle.regions.specs.Window.{new as new_window, home as home_of};
ghost use Rattle.raster.specs.Clear.{cleared};

use crate::area::Area;
use crate::pen::{Pen, PenGuard};
use plane::Plane;
use raster::brush::Brush;
use raster::region::Point;

/// Its area, the active position counted from the area's lower left, whether a wrap is held, and its pen.
#[derive(Clone, Copy)]
pub struct Window {
    pub area: Area,
    pub position: Point,
    pub held: bool,
    pub pen: Pen,
}

// The cell at the top left.
fn home(area: Area) -> Point
    ensures { result ≡ home_of area }
{
    Point {
        x: 0,
        y: (area.region.height - 16) as i16,
    }
}

impl Window {
    /// As it is defined: at home, with a new pen and no wrap held.
    pub fn new(area: Area) -> Window
        ensures { result ≡ new_window area }
    {
        Window {
            area,
            position: home(area),
            held: false,
            pen: Pen::new(),
        }
    }

    /// Makes every pixel of the area 0. The pen is lent for it and is then as it was.
    pub fn erase<P: Plane>(&mut self, plane: &mut P)
        ensures same { self.new ≡ self.old }
        ensures picture { P.picture plane.new ≡ cleared self.old.area.region (P.picture plane.old) }
    {
        let region = self.area.region;
        let guard = PenGuard::new(&mut self.pen, Pen::eraser());
        let operation = guard.pen.drawing;
        Brush { region, operation }.flood(plane);
    }
}

//! One point joined to a plane, inside a region.
ghost use Rattle.std.specs.Prelude.{◌≡◌};
ghost use Rattle.raster.specs.Region.{inside};
ghost use Rattle.raster.specs.Confined.{Confined};
ghost use Rattle.raster.specs.Join.{drawn, joined};

use crate::brush::Brush;
use crate::operation::Operation;
use crate::region::Point;
use plane::Plane;

// Joins the source to the place (u, v), if it lies in the plane.
fn draw<P: Plane>(plane: &mut P, operation: Operation, source: bool, u: usize, v: usize)
    ensures { P.picture plane.new ≡ drawn operation source u v (P.picture plane.old) }
{
    if let Ok(old) = plane.ask(u, v) {
        let _ = plane.set(u, v, operation.combine(source, old));
    }
}

impl Brush {
    /// Joins a source bit to a point, if the point lies in the region.
    pub fn join<P: Plane>(self, plane: &mut P, source: bool, at: Point)
        ensures picture { P.picture plane.new ≡ joined self.region self.operation source at (P.picture plane.old) }
        ensures confined { Confined (inside self.region) (joined self.region self.operation source at) }
    {
        let Some(u) = self.region.columns().place(at.x) else {
            return;
        };
        let Some(v) = self.region.rows().place(at.y) else {
            return;
        };
        draw(plane, self.operation, source, u, v);
    }
}

//! Source 1 joined to every pixel of a rectangle, or of a whole region.
ghost use Rattle.std.specs.Prelude.{◌≡◌};
ghost use Rattle.raster.specs.Region.{inside};
ghost use Rattle.raster.specs.Confined.{Confined};
ghost use Rattle.raster.specs.Fill.{covered, filled, flooded, Clears};

use crate::axis::Places;
use crate::brush::Brush;
use crate::operation::Operation;
use crate::rectangle::Rectangle;
use plane::Plane;
use plane::run::Effect;

// Joins source 1 to the places of the plane in these columns and rows.
fn cover<P: Plane>(plane: &mut P, operation: Operation, columns: Places, rows: Places)
    ensures { P.picture plane.new ≡ covered operation columns rows (P.picture plane.old) }
{
    let effect = Effect {
        zero: operation.combine(true, false),
        one: operation.combine(true, true),
    };
    let left = columns.start as usize;
    let bottom = rows.start as usize;
    for v in bottom..bottom + rows.count as usize {
        plane.join_run(v, left..left + columns.count as usize, effect);
    }
}

impl Brush {
    /// Joins source 1 to the pixels of the rectangle that lie in the region. It visits no other place.
    pub fn fill<P: Plane>(self, plane: &mut P, rectangle: Rectangle)
        ensures picture { P.picture plane.new ≡ filled self.region self.operation rectangle (P.picture plane.old) }
        ensures confined { Confined (inside self.region) (filled self.region self.operation rectangle) }
    {
        let columns = self.region.columns();
        let rows = self.region.rows();
        let columns = columns.span(rectangle.corner.x, rectangle.width);
        let rows = rows.span(rectangle.corner.y, rectangle.height);
        cover(plane, self.operation, columns, rows);
    }

    /// Joins source 1 to every pixel of the region: with the operation `Clear` they all become 0.
    pub fn flood<P: Plane>(self, plane: &mut P)
        ensures picture { P.picture plane.new ≡ flooded self.region self.operation (P.picture plane.old) }
        ensures clears { Clears }
        ensures confined { Confined (inside self.region) (flooded self.region self.operation) }
    {
        let columns = self.region.columns();
        let rows = self.region.rows();
        cover(plane, self.operation, columns.all(), rows.all());
    }
}

//! Every pixel of a region to 0.
ghost use Rattle.std.specs.Prelude.{◌≡◌};
ghost use Rattle.raster.specs.Region.{inside};
ghost use Rattle.raster.specs.Clear.{cleared};
ghost use Rattle.raster.specs.Confined.{Confined};

use crate::brush::Brush;
use crate::operation::Operation;
use crate::region::Region;
use plane::Plane;

/// Clears the region, where it lies in the plane.
pub fn clear<P: Plane>(plane: &mut P, region: Region)
    ensures picture { P.picture plane.new ≡ cleared region (P.picture plane.old) }
    ensures confined { Confined (inside region) (cleared region) }
{
    let operation = Operation::Clear;
    Brush { region, operation }.flood(plane);
}

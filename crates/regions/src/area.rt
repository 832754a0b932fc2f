//! Where a region lies.
ghost use Rattle.std.specs.Prelude.{◌≡◌, ◌+◌, ◌≤◌};

use crate::size::Size;
use raster::rectangle::Rectangle;
use raster::region::Region;

/// A region that lies inside the plane and is at least 16 by 16. No other can be made, so no rule has to look.
#[derive(Clone, Copy)]
pub struct Area {
    pub plane: Size,
    pub region: Region,
    ghost wide: { 16 ≤ region.width },
    ghost high: { 16 ≤ region.height },
    ghost across: { region.left + region.width ≤ plane.width },
    ghost up: { region.bottom + region.height ≤ plane.height },
}

impl Area {
    ghost use Rattle.regions.specs.Area.{whole as whole_of, laid, fitted};

    /// The whole plane.
    pub fn whole(plane: Size) -> Area
        ensures { result ≡ whole_of plane }
    {
        let region = Region {
            left: 0,
            bottom: 0,
            width: plane.width,
            height: plane.height,
        };
        Area { plane, region }
    }

    // The region, where it lies inside the plane and is large enough.
    fn lay(plane: Size, region: Region) -> Option<Area>
        ensures { result ≡ laid plane region }
    {
        let Region {
            left,
            bottom,
            width,
            height,
        } = region;
        if width >= 16
            && height >= 16
            && left as u32 + width as u32 <= plane.width as u32
            && bottom as u32 + height as u32 <= plane.height as u32
        {
            Some(Area { plane, region })
        } else {
            None
        }
    }

    /// The area of a rectangle, counted from the plane's lower left, where it fits.
    pub fn new(plane: Size, rectangle: Rectangle) -> Option<Area>
        ensures { result ≡ fitted plane rectangle }
    {
        let Rectangle {
            corner,
            width,
            height,
        } = rectangle;
        // One test of all four: by `try_from` each would leave at a place of its own.
        if corner.x < 0 || corner.y < 0 || width < 0 || height < 0 {
            return None;
        }
        Area::lay(
            plane,
            Region {
                left: corner.x as u16,
                bottom: corner.y as u16,
                width: width as u16,
                height: height as u16,
            },
        )
    }
}

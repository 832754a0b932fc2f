//! A rectangle of a plane that drawing keeps to, and points counted from its lower left.
ghost use Rattle.std.specs.Prelude.{◌≡◌};
ghost use Rattle.raster.specs.Region.{columns_of, rows_of};

use crate::axis::Axis;

/// Its place and size, counted in the plane.
#[derive(Clone, Copy, PartialEq, Eq, Debug)]
pub struct Region {
    pub left: u16,
    pub bottom: u16,
    pub width: u16,
    pub height: u16,
}

/// A point counted from a region's lower left. It may lie far outside.
#[derive(Clone, Copy, PartialEq, Eq, Debug)]
pub struct Point {
    pub x: i16,
    pub y: i16,
}

impl Region {
    pub(crate) fn columns(self) -> Axis
        ensures { result ≡ columns_of self }
    {
        Axis {
            low: self.left,
            size: self.width,
        }
    }

    pub(crate) fn rows(self) -> Axis
        ensures { result ≡ rows_of self }
    {
        Axis {
            low: self.bottom,
            size: self.height,
        }
    }
}

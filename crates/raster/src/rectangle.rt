//! Rectangles counted from a region's lower left.

use crate::region::Point;

/// Its lower left and its size. With a width or a height below 1 it has no point.
#[derive(Clone, Copy, PartialEq, Eq, Debug)]
pub struct Rectangle {
    pub corner: Point,
    pub width: i16,
    pub height: i16,
}

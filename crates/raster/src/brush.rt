//! How drawing joins its pixels to a plane.
use crate::operation::Operation;
use crate::region::Region;

/// The region that drawing keeps to, and the operation that joins each pixel.
#[derive(Clone, Copy, PartialEq, Eq, Debug)]
pub struct Brush {
    pub region: Region,
    pub operation: Operation,
}

//! A region with what drawing in it needs.
// Not the windows and pens of crate `regions`: their sizes ask more of whoever makes a terminal, and no text is drawn yet.
use raster::operation::Operation;
use raster::region::{Point, Region};

/// How drawing joins its points.
#[derive(Clone, Copy, PartialEq, Eq, Debug)]
pub struct Pen {
    pub drawing: Operation,
}

/// The selected region: its number, its area, the active position counted from its lower left, and its pen.
#[derive(Clone, Copy, PartialEq, Eq, Debug)]
pub struct Window {
    pub number: u8,
    pub area: Region,
    pub position: Point,
    pub pen: Pen,
}

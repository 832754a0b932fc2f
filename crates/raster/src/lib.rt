//! Raster operations, and drawing by them inside a region of any plane.
#![tactic(auto)]

mod axis;
pub mod brush;
pub mod clear;
pub mod fill;
pub mod join;
pub mod line;
pub mod operation;
pub mod rectangle;
pub mod region;

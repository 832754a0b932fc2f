//! The eight regions of a terminal: each has an area inside the plane, an active position and a pen.
#![tactic(auto)]

pub mod area;
pub mod pen;
pub mod regions;
pub mod size;
pub mod slot;
pub mod window;

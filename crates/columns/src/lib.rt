//! The lines of a listing: four numbers, each right-justified in six columns, and LF.
#![tactic(auto)]

pub mod line;
pub mod number;

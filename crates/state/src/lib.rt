//! What a terminal is, and what each host byte does to it and to its picture.
#![tactic(auto)]

pub mod action;
pub mod reading;
pub mod setup;
pub mod size;
pub mod step;
pub mod terminal;
pub mod window;

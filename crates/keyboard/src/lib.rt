//! The keys of the keyboard: the number of each, and the bytes that a stroke of it sends.
#![tactic(auto)]

pub mod codes;
pub mod key;
pub mod modes;
pub mod stroke;

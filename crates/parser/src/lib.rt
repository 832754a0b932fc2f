//! The host's bytes, one at a time, as printable codes, controls and whole escape sequences.
#![tactic(auto)]

pub mod emulation;
pub mod machine;
pub mod parameters;

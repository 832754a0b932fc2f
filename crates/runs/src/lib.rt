//! What the calls mean, and the laws over whole runs of them.
#![tactic(auto)]

pub mod delivery;

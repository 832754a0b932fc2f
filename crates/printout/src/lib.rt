//! The picture as a listing: the call, and the ink of a row that it tells of.
#![tactic(auto)]

pub mod ink;
pub mod listing;

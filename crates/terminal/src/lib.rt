//! The calls of a session: install a terminal, feed it host bytes, strike keys, aim the pointer.
#![tactic(auto)]

mod feed;
pub mod install;
mod key;
mod point;
mod reply;
pub mod session;
mod work;

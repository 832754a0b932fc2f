//! Lines that can be looked at.
use line::Line;
use line::packets::Packets;
use queue::Queue;

pub trait Peek: Line + Drop {
    /// The byte behind `i` others, which stays.
    fn peek(&self, i: usize) -> Option<u8>;
}

// An impl for each: `Line` has no `get`, which both lines have of their own.
impl Peek for Queue<'_, u8> {
    fn peek(&self, i: usize) -> Option<u8> {
        self.get(i)
    }
}

impl Peek for Packets {
    fn peek(&self, i: usize) -> Option<u8> {
        self.get(i)
    }
}

//! A queue of bytes as a line: every place in which no byte waits is room.
ghost use Rattle.line.specs.ByteWire.{byte_wire, byte_lawful};

use crate::Line;
use crate::shortage::Shortage;
use queue::Queue;

impl Line for Queue<'_, u8> {
    ghost carried = { λ s. byte_wire s };

    ghost lawful = { byte_lawful };

    fn room(&self) -> usize {
        Queue::room(self)
    }

    fn capacity(&self) -> usize {
        self.places()
    }

    fn offer(&mut self, bytes: &[u8]) -> Result<(), Shortage> {
        Shortage::check(bytes.len(), Queue::room(self))?;
        for b in bytes {
            self.push(*b).unwrap();
        }
        Ok(())
    }

    fn take(&mut self) -> Option<u8> {
        Queue::take(self)
    }
}

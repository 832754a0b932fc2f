//! A line: bytes that wait in order, a room and a fixed capacity.
#![tactic(auto)]

ghost use Rattle.std.specs.Prelude.{◌≡◌, ◌≤◌, length, take, drop, None, OnErr};
ghost use Rattle.line.specs.Transfer.{Answered, Delivered, Emptied};
ghost use Rattle.line.specs.Wire.{Wire, Lawful};

pub mod bytes;
pub mod packets;
pub mod shortage;

use shortage::Shortage;

/// Bytes that wait, whatever holds them. How much room a take gives back is the line's own affair.
pub trait Line {
    ghost carried: { Self → Wire };

    ghost lawful: { (s : Self) → Lawful (carried s) };

    /// The longest offer that is accepted.
    fn room(&self) -> usize
        ensures { result ≡ (carried self.now).room };

    fn capacity(&self) -> usize
        ensures { result ≡ (carried self.now).capacity };

    /// Accepts all of `bytes`, or none of them if they exceed the room.
    fn offer(&mut self, bytes: &[u8]) -> Result<(), Shortage>
        ensures answered { Answered (carried self.old) bytes.now result (carried self.new) }
        ensures refused { OnErr result (self.new ≡ self.old) };

    /// Takes the first byte.
    fn take(&mut self) -> Option<u8>
        ensures delivered { Delivered (carried self.old) result (carried self.new) }
        ensures none { result ≡ None → self.new ≡ self.old };
}

/// Fills `buffer` from the front with what waits, as far as it fits, and answers the count.
pub fn drain<L: Line>(line: &mut L, buffer: &mut [u8]) -> usize
    ensures emptied { Emptied (L.Line.carried line.old) (length buffer.old) (take result buffer.new) (L.Line.carried line.new) }
    ensures bound { result ≤ length buffer.old }
    ensures rest { drop result buffer.new ≡ drop result buffer.old }
{
    for (count, place) in buffer.iter_mut().enumerate() {
        let Some(byte) = line.take() else {
            return count;
        };
        *place = byte;
    }
    buffer.len()
}

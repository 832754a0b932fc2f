//! A line of a listing, and how it goes into a buffer.
ghost use Rattle.std.specs.Prelude.{◌≡◌, ◌+◌, ◌<◌, ◌≤◌, [], ◌∷◌, ◌++◌, length, take, drop, codes};
ghost use Rattle.columns.specs.Line.{text_of, fields, small, answer};

use crate::number::Number;
use refusal::Refusal;

/// The bytes of a line.
pub const LENGTH: usize = 25;

/// The four numbers of a line, from the left.
#[derive(Clone, Copy, PartialEq, Eq, Debug)]
pub struct Line {
    pub numbers: [Number; 4],
}

impl Line {
    /// Writes the line from `at` on and answers where it ends; refuses where the buffer ends before.
    // At a place of a buffer, and no Vec that grows: a library of this project has no heap.
    pub fn write(&self, buffer: &mut [u8], at: usize) -> Result<usize, Refusal>
        ensures answer { result ≡ answer (length buffer.old) at }
        ensures kept { length buffer.old < at + 25 → buffer.new ≡ buffer.old }
        ensures text { at + 25 ≤ length buffer.old → take (at + 25) buffer.new ≡ take at buffer.old ++ text_of self.now }
        ensures rest { drop (at + 25) buffer.new ≡ drop (at + 25) buffer.old }
        ensures worked { text_of (small 2 4 5 2) ≡ codes "     2     4     5     2\n" }
    {
        if at > buffer.len() || buffer.len() - at < LENGTH {
            return Err(Refusal::Buffer);
        }
        buffer[at..at + LENGTH].copy_from_slice(&text(&self.numbers));
        Ok(at + LENGTH)
    }
}

/// The bytes of a line of the numbers; LF stays last.
fn text(numbers: &[Number; 4]) -> [u8; LENGTH]
    ensures { result ≡ fields numbers.now ++ 10 ∷ [] }
{
    let mut text = [b'\n'; LENGTH];
    for (i, number) in numbers.iter().enumerate() {
        text[6 * i..6 * i + 6].copy_from_slice(&number.columns());
    }
    text
}

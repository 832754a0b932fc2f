//! Why a call is refused: one enum for the whole engine, each case with its number.
#![tactic(auto)]

ghost use Rattle.std.specs.Prelude.{◌≡◌};
ghost use Rattle.refusal.specs.Number.{number_of};

use std::error::Error;
use std::fmt;

#[derive(Clone, Copy, PartialEq, Eq, Debug)]
pub enum Refusal {
    /// A side is no multiple of 8 from 16 to 1,024.
    Size,
    /// The memory is not exactly that of a plane of the size.
    Memory,
    /// The terminator is none of the three.
    Terminator,
    /// The plane's size is not the terminal's.
    PlaneSize,
    /// The line's capacity is below 64 bytes.
    Capacity,
    /// The face is not 1,520 bytes long.
    Face,
    /// The stroke memory has no place, or more than 16.
    Strokes,
    /// A reply of `need` bytes exceeds the line's `room`.
    Full { need: usize, room: usize },
    /// No key has the number.
    Key,
    /// Every place of the stroke memory waits.
    QueueFull,
    /// The place lies outside the plane.
    Outside,
    /// The buffer is shorter than the text.
    Buffer,
}

/// The number that the refusal is reported by.
impl From<Refusal> for u8 {
    ghost from_gives = { λ r n. n ≡ number_of r };

    fn from(refusal: Refusal) -> u8 {
        match refusal {
            Refusal::Size => 1,
            Refusal::Memory => 2,
            Refusal::Terminator => 3,
            Refusal::PlaneSize => 4,
            Refusal::Capacity => 5,
            Refusal::Face => 6,
            Refusal::Strokes => 7,
            Refusal::Full { .. } => 8,
            Refusal::Key => 9,
            Refusal::QueueFull => 10,
            Refusal::Outside => 11,
            Refusal::Buffer => 12,
        }
    }
}

impl Refusal {
    // Texts in a match: a derived Display would repeat the numbers, which `u8::from` has.
    fn reason(&self) -> &'static str {
        match self {
            Refusal::Size => "a side is no multiple of 8 from 16 to 1,024",
            Refusal::Memory => "the memory is not that of the size",
            Refusal::Terminator => "no such terminator",
            Refusal::PlaneSize => "the plane's size is not the terminal's",
            Refusal::Capacity => "the line's capacity is below 64",
            Refusal::Face => "the face is not 1,520 bytes long",
            Refusal::Strokes => "the stroke memory has no place, or more than 16",
            Refusal::Full { .. } => "the reply exceeds the line's room",
            Refusal::Key => "no such key",
            Refusal::QueueFull => "every place for a stroke waits",
            Refusal::Outside => "the place lies outside",
            Refusal::Buffer => "the buffer is shorter than the text",
        }
    }
}

impl fmt::Display for Refusal {
    fn fmt<W: fmt::Write>(&self, f: &mut fmt::Formatter<W>) -> fmt::Result {
        let number = u8::from(*self);
        let reason = self.reason();
        write!(f, "refusal {number}: {reason}")
    }
}

impl Error for Refusal {}

//! The sixteen ways to combine a source bit with a destination bit.
ghost use Rattle.std.specs.Prelude.{◌≡◌, ◌<◌, ◌≤◌, MatchResult};
ghost use Rattle.raster.specs.Operation.{number_of, applied};

use std::error::Error;
use std::fmt;

/// A raster operation. Its number is its truth table: bit 0 is the result for source 1 and destination 1,
/// bit 1 for 1 and 0, bit 2 for 0 and 1, bit 3 for 0 and 0.
#[derive(Clone, Copy, PartialEq, Eq, Debug)]
pub enum Operation {
    Clear,
    And,
    AndReverse,
    Copy,
    AndInverted,
    Keep,
    Xor,
    Or,
    Nor,
    Equivalent,
    Invert,
    OrReverse,
    CopyInverted,
    OrInverted,
    Nand,
    Set,
}

/// The operation's number.
impl From<Operation> for u8 {
    ghost from_gives = { λ o k. k ≡ number_of o };

    fn from(operation: Operation) -> u8 {
        operation as u8
    }
}

/// A number that no operation has: they end with 15.
#[derive(Clone, Copy, PartialEq, Eq, Debug)]
pub struct UnknownOperation(pub u8);

impl TryFrom<u8> for Operation {
    type Error = UnknownOperation;

    ghost try_from_gives = { λ k r. MatchResult r (λ o. number_of o ≡ k) (λ e. (16 ≤ k) × (e.0 ≡ k)) };

    fn try_from(number: u8) -> Result<Operation, UnknownOperation> {
        match number {
            0 => Ok(Operation::Clear),
            1 => Ok(Operation::And),
            2 => Ok(Operation::AndReverse),
            3 => Ok(Operation::Copy),
            4 => Ok(Operation::AndInverted),
            5 => Ok(Operation::Keep),
            6 => Ok(Operation::Xor),
            7 => Ok(Operation::Or),
            8 => Ok(Operation::Nor),
            9 => Ok(Operation::Equivalent),
            10 => Ok(Operation::Invert),
            11 => Ok(Operation::OrReverse),
            12 => Ok(Operation::CopyInverted),
            13 => Ok(Operation::OrInverted),
            14 => Ok(Operation::Nand),
            15 => Ok(Operation::Set),
            _ => Err(UnknownOperation(number)),
        }
    }
}

impl fmt::Display for UnknownOperation {
    fn fmt<W: fmt::Write>(&self, f: &mut fmt::Formatter<W>) -> fmt::Result {
        write!(f, "no raster operation has number {}", self.0)
    }
}

impl Error for UnknownOperation {}

impl Operation {
    /// What becomes of a destination bit.
    pub fn combine(self, source: bool, destination: bool) -> bool
        ensures { result ≡ applied self source destination }
    {
        let place = match (source, destination) {
            (true, true) => 0,
            (true, false) => 1,
            (false, true) => 2,
            (false, false) => 3,
        };
        (u8::from(self) >> place) & 1 == 1
    }
}

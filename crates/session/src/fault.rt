//! Why a script stops.
use hex::FromHexError;
use std::alloc::AllocError;
use std::io;
use thiserror::Error;

#[derive(Clone, Copy, Debug, Error)]
pub enum Fault {
    #[error("no such command")]
    UnknownCommand,
    #[error("a word is missing")]
    MissingWord,
    #[error("a word too many")]
    ExtraWord,
    #[error("no decimal number")]
    BadNumber,
    #[error("no bytes in hexadecimal digits")]
    BadHexadecimal,
    #[error("no such plane")]
    UnknownPlane,
    #[error("no such line")]
    UnknownLine,
    #[error("the stroke memory has 0 to 64 places")]
    TooManyPlaces,
    /// A call, and no install before it was accepted.
    #[error("no terminal stands")]
    NoTerminal,
    #[error("no memory is left")]
    Memory(#[from] AllocError),
    #[error("input or output failed")]
    Transfer,
}

// By hand: the derive would keep the error, whose message the system makes.
impl From<io::Error> for Fault {
    fn from(_: io::Error) -> Fault {
        Fault::Transfer
    }
}

impl From<FromHexError> for Fault {
    fn from(error: FromHexError) -> Fault {
        match error {
            FromHexError::OutOfMemory => Fault::Memory(AllocError),
            _ => Fault::BadHexadecimal,
        }
    }
}

//! The memory of a plane of any make. The plane itself is made over it for each call.
use crate::fault::Fault;
use plane::memory::check_size;
use std::alloc::{AllocError, Global};

#[derive(Clone, Copy)]
pub enum PlaneKind {
    Packed,
    Tiled,
    /// A quarter turn over packed rows of the other size.
    Turned,
    /// Two turns over packed rows.
    TurnedTwice,
}

impl TryFrom<&[u8]> for PlaneKind {
    type Error = Fault;

    fn try_from(word: &[u8]) -> Result<PlaneKind, Fault> {
        match word {
            b"packed" => Ok(PlaneKind::Packed),
            b"tiled" => Ok(PlaneKind::Tiled),
            b"turned" => Ok(PlaneKind::Turned),
            b"turned2" => Ok(PlaneKind::TurnedTwice),
            _ => Err(Fault::UnknownPlane),
        }
    }
}

/// What a plane is to be.
#[derive(Clone, Copy)]
pub struct Shape {
    pub width: usize,
    pub height: usize,
    pub kind: PlaneKind,
}

impl Shape {
    /// How many pixels it has, none where the size is no plane's.
    fn pixels(&self) -> usize {
        check_size(self.width, self.height).map_or(0, |()| self.width.saturating_mul(self.height))
    }
}

// As `PlaneKind`, with the memory that each has: a script names a kind before there is any.
#[derive(Drop)]
pub enum Memory {
    Packed(Vec<u8>),
    Tiled(Vec<u64>),
    Turned(Vec<u8>),
    TurnedTwice(Vec<u8>),
}

#[derive(Drop)]
pub struct Sheet {
    pub width: usize,
    pub height: usize,
    pub memory: Memory,
}

impl Sheet {
    /// Memory of zeros, none where the size is no plane's.
    pub(crate) fn blank(heap: Global, shape: Shape) -> Result<Sheet, AllocError> {
        let bytes = shape.pixels() / 8;
        let memory = match shape.kind {
            PlaneKind::Packed => Memory::Packed(vec![in heap; 0u8; bytes]?),
            PlaneKind::Tiled => Memory::Tiled(vec![in heap; 0u64; bytes / 8]?),
            PlaneKind::Turned => Memory::Turned(vec![in heap; 0u8; bytes]?),
            PlaneKind::TurnedTwice => Memory::TurnedTwice(vec![in heap; 0u8; bytes]?),
        };
        Ok(Sheet {
            width: shape.width,
            height: shape.height,
            memory,
        })
    }
}

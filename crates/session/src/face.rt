//! Faces.
use crate::fault::Fault;
use crate::hexadecimal::bytes_of;
use std::alloc::{AllocError, Global};
use terminal::session::FACE_BYTES;

/// The face of a new terminal: all 255.
pub(crate) fn solid(heap: Global) -> Result<Vec<u8>, AllocError> {
    vec![in heap; 255u8; FACE_BYTES]
}

// A face in which neighbours differ.
fn ramp(heap: Global) -> Result<Vec<u8>, AllocError> {
    (0..FACE_BYTES as u32)
        .map(|i| ((i * 37 + i / 16 * 11) % 256) as u8)
        .collect(heap)
}

/// The face that a word names, or whose bytes it has.
pub(crate) fn face_of(heap: Global, word: &[u8]) -> Result<Vec<u8>, Fault> {
    match word {
        b"solid" => Ok(solid(heap)?),
        b"ramp" => Ok(ramp(heap)?),
        digits => bytes_of(heap, digits),
    }
}

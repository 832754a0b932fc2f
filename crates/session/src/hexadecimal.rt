//! Bytes as hexadecimal digits, two a byte.
use crate::fault::Fault;
use std::alloc::{AllocError, Global};

/// The bytes of a word; no byte is written `-`, since a word has a length.
pub(crate) fn bytes_of(heap: Global, word: &[u8]) -> Result<Vec<u8>, Fault> {
    match word {
        b"-" => Ok(Vec::new(heap)),
        // Looked at first, since `decode` asks for memory before it looks at a digit.
        digits if digits.iter().any(|digit| !digit.is_ascii_hexdigit()) => {
            Err(Fault::BadHexadecimal)
        }
        digits => Ok(hex::decode(heap, digits)?),
    }
}

/// The bytes as a word, `-` where there are none.
pub(crate) fn word_of(heap: Global, bytes: &[u8]) -> Result<String, AllocError> {
    if bytes.is_empty() {
        return String::from_str(heap, "-");
    }
    hex::encode(heap, bytes)
}

//! Pixels that a seed gives, and the pixels of a plane as bytes. Both go by rows from the top, the leftmost pixel in bit 7.
use plane::Plane;
use std::alloc::{AllocError, Global};

/// The numbers of splitmix64.
#[derive(Drop)]
struct Numbers {
    state: u64,
}

impl Iterator for Numbers {
    type Item = u64;

    fn next(&mut self) -> Option<u64> {
        self.state = self.state.wrapping_add(0x9E3779B97F4A7C15);
        let z = self.state;
        let z = (z ^ (z >> 30)).wrapping_mul(0xBF58476D1CE4E5B9);
        let z = (z ^ (z >> 27)).wrapping_mul(0x94D049BB133111EB);
        Some(z ^ (z >> 31))
    }
}

// Gives eight pixels from x on by a number's low byte.
fn ink_byte<P: Plane>(plane: &mut P, x: usize, y: usize, number: u64) {
    for i in 0..8 {
        let _ = plane.set(x.saturating_add(i), y, (number >> (7 - i)) & 1 == 1);
    }
}

fn ink_row<P: Plane>(plane: &mut P, y: usize, numbers: &mut Numbers) {
    for (x, number) in (0..plane.width()).step_by(8).zip(numbers) {
        ink_byte(plane, x, y, number);
    }
}

fn clear_row<P: Plane>(plane: &mut P, y: usize) {
    let width = plane.width();
    plane.fill_run(y, 0..width, false);
}

/// Gives every pixel: the low bytes of the numbers of the seed, or 0 where the seed is 0.
pub(crate) fn put_ink<P: Plane>(plane: &mut P, seed: u64) {
    let mut numbers = Numbers { state: seed };
    for y in (0..plane.height()).rev() {
        if seed == 0 {
            clear_row(plane, y);
        } else {
            ink_row(plane, y, &mut numbers);
        }
    }
}

// The eight pixels from x on.
fn byte_at<P: Plane>(plane: &P, x: usize, y: usize) -> u8 {
    (0..8).fold(0u8, |byte, i| {
        let bit = plane.ask(x.saturating_add(i), y) == Ok(true);
        byte << 1 | u8::from(bit)
    })
}

/// Every pixel.
pub(crate) fn pixels_of<P: Plane>(heap: Global, plane: &P) -> Result<Vec<u8>, AllocError> {
    let mut bytes = Vec::new(heap);
    for y in (0..plane.height()).rev() {
        let row = (0..plane.width()).step_by(8).map(|x| byte_at(plane, x, y));
        bytes.extend(row)?;
    }
    Ok(bytes)
}

//! A plane in packed rows: bytes, the top row first, the leftmost pixel in bit 7.
ghost use Rattle.std.proofs.Common.{refl, sym};
ghost use Rattle.std.proofs.lemmas.List.{get_or_default};
ghost use Rattle.std.specs.Prelude.{◌-◌, ◌≤◌, ◌<◌};
ghost use Rattle.plane.specs.Laws.{downward, blocks_of_rows, bytes_made, byte_tall};
ghost use Rattle.plane.specs.Layout.{rows, made_of_bytes};

use crate::cell::{Cell, places_from_left};
use crate::grid::Grid;

pub type Packed<'a> = Grid<'a, u8>;

impl Cell for u8 {
    ghost number = { λ n. n };

    ghost numbers = { λ m. m };

    ghost layout = { rows };

    ghost made = { made_of_bytes };

    ghost place = { λ i. 7 - i };

    ghost HIGH = { 1 };

    const HIGH: usize = 1;

    fn place(i: usize) -> usize {
        7 - i
    }

    fn places(lo: usize, hi: usize) -> u8 {
        places_from_left(lo, hi)
    }

    fn index(across: u16, up: u16, k: usize, y: usize) -> usize {
        (up as usize - 1 - y) * across as usize + k
    }

    fn number(self) -> u64 {
        self as u64
    }

    fn eight(self, _y: usize) -> u8 {
        self
    }

    fn flipped(self, _y: usize, flips: u8) -> u8 {
        self ^ flips
    }

    ghost tall = { byte_tall };

    ghost order = { downward };

    ghost blocks = { blocks_of_rows };

    ghost makes = { bytes_made };

    ghost as_many = { λ _. refl };

    ghost read = { λ m i c lt. get_or_default m i 0 c lt };

    ghost written = { λ _ _ _. refl };
}

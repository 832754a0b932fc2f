//! A plane in tiles of 8 by 8 pixels, each a number of 64 bits, the lowest row of tiles first.
ghost use Rattle.std.proofs.Common.{refl, sym};
ghost use Rattle.std.proofs.lemmas.List.{get_or_default};
ghost use Rattle.plane.specs.Laws.{upward, blocks_of_tiles, tile_tall};
ghost use Rattle.plane.specs.Layout.{tiles, made_of_tiles};

use crate::cell::{Cell, places_from_left};
use crate::grid::Grid;

pub type Tiled<'a> = Grid<'a, u64>;

impl Cell for u64 {
    ghost number = { λ n. n };

    ghost numbers = { λ m. m };

    ghost layout = { tiles };

    ghost made = { made_of_tiles };

    ghost place = { λ i. i };

    ghost HIGH = { 8 };

    const HIGH: usize = 8;

    fn place(i: usize) -> usize {
        i
    }

    fn places(lo: usize, hi: usize) -> u8 {
        places_from_left(8 - hi, 8 - lo)
    }

    fn index(across: u16, _up: u16, k: usize, y: usize) -> usize {
        y / 8 * across as usize + k
    }

    fn number(self) -> u64 {
        self
    }

    fn eight(self, y: usize) -> u8 {
        ((self >> (8 * (y % 8))) & 255) as u8
    }

    fn flipped(self, y: usize, flips: u8) -> u64 {
        self ^ ((flips as u64) << (8 * (y % 8)))
    }

    ghost tall = { tile_tall };

    ghost order = { upward };

    ghost blocks = { blocks_of_tiles };

    ghost makes = { λ _ _ _. refl };

    ghost as_many = { λ _. refl };

    ghost read = { λ m i c lt. get_or_default m i 0 c lt };

    ghost written = { λ _ _ _. refl };
}

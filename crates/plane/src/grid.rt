//! A plane over a memory of numbers.
ghost use Rattle.std.specs.Prelude.{◌≡◌, ◌*◌, ◌/◌, ◌≤◌, length, if◌then◌else◌};
ghost use Rattle.plane.specs.Layout.{held, held_dark};
ghost use Rattle.plane.specs.Memory.{fits};

use crate::Plane;
use crate::cell::Cell;
use crate::change::{bit_at, put_bit};
use crate::memory::check_memory;
use crate::run::{Effect, Source};
use refusal::Refusal;
use std::ops::Range;

// Whole numbers make the width a multiple of 8, and in tiles the height; the memory has room for them.
#[derive(Drop)]
pub struct Grid<'a, C> {
    pub(crate) memory: &'a mut [C],
    pub(crate) across: u16,
    pub(crate) up: u16,
    ghost room: { across * up ≤ length memory.now },
}

impl<'a, C: Cell> Grid<'a, C> {
    /// The plane on this memory, or one of size 0 by 0 where the memory fails the check.
    pub fn new(memory: &'a mut [C], width: usize, height: usize) -> Grid<'a, C>
        ensures across { result.across ≡ (if fits width height (8 * C.HIGH) (length memory.old) then width / 8 else 0) }
        ensures up { result.up ≡ (if fits width height (8 * C.HIGH) (length memory.old) then height / C.HIGH else 0) }
        ensures memory { result.memory ≡ memory.entry }
        ensures picture { held (C.layout result.across result.up) (C.numbers result.memory.now) ≡ C.made width height (C.numbers memory.old) }
    {
        // A test and no `?`: a plane is made whatever the memory is.
        if check_memory::<C>(width, height, memory.len()).is_err() {
            return Grid {
                memory,
                across: 0,
                up: 0,
            };
        }
        Grid {
            memory,
            across: (width / 8) as u16,
            up: (height / C::HIGH) as u16,
        }
    }
}

impl<C: Cell> Plane for Grid<'_, C> {
    ghost picture = { λ s. held (C.layout s.across s.up) (C.numbers s.memory.now) };

    ghost dark = { λ s x y out. held_dark (C.layout s.across s.up) (C.numbers s.memory.now) x y out };

    fn width(&self) -> usize {
        8 * self.across as usize
    }

    fn height(&self) -> usize {
        C::HIGH * self.up as usize
    }

    fn ask(&self, x: usize, y: usize) -> Result<bool, Refusal> {
        // Memory and sizes first, so that a loop over places looks them up once.
        let memory: &[C] = self.memory;
        let (width, height) = (self.width(), self.height());
        if x < width && y < height {
            Ok(bit_at(memory, self.across, self.up, x, y))
        } else {
            Err(Refusal::Outside)
        }
    }

    fn set(&mut self, x: usize, y: usize, bit: bool) -> Result<(), Refusal> {
        let (width, height) = (self.width(), self.height());
        if x >= width || y >= height {
            return Err(Refusal::Outside);
        }
        put_bit(self.memory, self.across, self.up, x, y, bit);
        Ok(())
    }

    fn join_run(&mut self, y: usize, run: Range<usize>, effect: Effect) -> usize {
        self.change_run(y, run, &effect)
    }

    // Eight by eight where both runs lie alike in their eights, and the source all inside: a test of the runs, which no type knows.
    fn copy_run(&mut self, y: usize, run: Range<usize>, from: Source) -> usize {
        let width = self.width();
        let end = run.end.min(width);
        if run.start < end
            && run.start % 8 == from.x % 8
            && from.x < width
            && from.x + (end - run.start) <= width
            && from.y < self.height()
            && from.y != y
        {
            self.change_run(y, run, &from)
        } else {
            self.copy_places(y, run, from)
        }
    }
}

//! Planes: a width, a height and one bit for each place. (0, 0) is lower left, and 1 is foreground.
#![tactic(auto)]

ghost use Rattle.std.specs.Prelude.{◌≡◌, ℕ, Bool, false, Err};
ghost use Rattle.refusal.specs.declared.Refusal.TheVariants.{Outside};
ghost use Rattle.plane.specs.Picture.{Picture, has, put, asked, answered};
ghost use Rattle.plane.specs.Run.{filled_run, joined_run, copied_run, changes};

mod bits;
pub mod cell;
mod change;
pub mod grid;
pub mod memory;
pub mod packed;
pub mod run;
pub mod tiled;
pub mod turned;

use refusal::Refusal;
use run::{Effect, Source};
use std::ops::Range;

/// One bit for each place of a size that never changes, however it lies in memory.
pub trait Plane {
    ghost picture: { Self → Picture };

    // No bit is set outside the size, so that planes which show the same have equal pictures.
    ghost dark: { (s : Self) (x y : ℕ) → has (picture s) x y ≡ false → (picture s).at x y ≡ false };

    fn width(&self) -> usize
        ensures { result ≡ (picture self.now).wide };

    fn height(&self) -> usize
        ensures { result ≡ (picture self.now).high };

    /// The bit at (x, y).
    fn ask(&self, x: usize, y: usize) -> Result<bool, Refusal>
        ensures { result ≡ asked (picture self.now) x y };

    /// Changes the bit at (x, y) alone.
    fn set(&mut self, x: usize, y: usize, bit: bool) -> Result<(), Refusal>
        ensures value { result ≡ answered (picture self.old) x y }
        ensures picture { picture self.new ≡ put x y bit (picture self.old) }
        ensures same { result ≡ Err Outside → self.new ≡ self.old };

    // The runs below have bodies that serve every plane. One that can do better replaces `join_run` and `copy_run`.

    /// What the effect makes of each bit of the run in row y. Answers how many bits it changed.
    fn join_run(&mut self, y: usize, run: Range<usize>, effect: Effect) -> usize
        ensures picture { picture self.new ≡ joined_run y run.start run.end effect.zero effect.one (picture self.old) }
        ensures count { result ≡ changes y (picture self.old) (picture self.new) }
    {
        let mut count = 0;
        for x in run.start..run.end.min(self.width()) {
            if let Ok(old) = self.ask(x, y) {
                let new = effect.on(old);
                if new != old {
                    let _ = self.set(x, y, new);
                    count += 1;
                }
            }
        }
        count
    }

    /// Puts `bit` all along the run in row y. Answers how many bits it changed.
    fn fill_run(&mut self, y: usize, run: Range<usize>, bit: bool) -> usize
        ensures picture { picture self.new ≡ filled_run y run.start run.end bit (picture self.old) }
        ensures count { result ≡ changes y (picture self.old) (picture self.new) }
    {
        self.join_run(y, run, Effect::to(bit))
    }

    /// The same as `copy_run`, place by place. A faster `copy_run` falls back on it, so no plane replaces it.
    fn copy_places(&mut self, y: usize, run: Range<usize>, from: Source) -> usize
        ensures picture { picture self.new ≡ copied_run y run.start run.end from.y from.x (picture self.old) }
        ensures count { result ≡ changes y (picture self.old) (picture self.new) }
    {
        if from.y == y {
            return 0;
        }
        // Past the width there is no place to change, or none to copy from.
        let width = self.width();
        let room = run.end.min(width).saturating_sub(run.start);
        let len = width.saturating_sub(from.x).min(room);
        let mut count = 0;
        for i in 0..len {
            if let Ok(bit) = self.ask(from.x + i, from.y) {
                let x = run.start + i;
                count += self.fill_run(y, x..x + 1, bit);
            }
        }
        count
    }

    /// Copies to the run in row y what the source's row has from the source's column on. Answers how many bits it changed.
    /// A place with no source stays. So does the row that is its own source: a copy onto itself would depend on the order.
    fn copy_run(&mut self, y: usize, run: Range<usize>, from: Source) -> usize
        ensures picture { picture self.new ≡ copied_run y run.start run.end from.y from.x (picture self.old) }
        ensures count { result ≡ changes y (picture self.old) (picture self.new) }
    {
        self.copy_places(y, run, from)
    }
}

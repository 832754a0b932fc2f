//! Runs of a plane over numbers, changed up to eight places in one step.
ghost use Rattle.std.specs.Prelude.{◌≡◌, ℕ, Bool, false, ◌+◌, ◌-◌, ◌*◌, ◌/◌, ◌%◌, ◌<◌, ◌≤◌, ◌≢◌, length, if◌then◌else◌, min, refl, set, slice_index};
ghost use Rattle.plane.specs.Bits.{bit};
ghost use Rattle.plane.specs.Laws.{steady_source};
ghost use Rattle.plane.specs.Layout.{Layout, shown, held};
ghost use Rattle.plane.specs.Picture.{Picture};
ghost use Rattle.plane.specs.Run.{from_row, mapped, changes, differ};

use crate::Plane;
use crate::bits::bit_of;
use crate::cell::Cell;
use crate::grid::Grid;
use crate::run::{Effect, Source};
use std::ops::Range;

// What is done to each place of a run. Layout and numbers are the cell's own, so each clause spells out what a memory shows.
pub(crate) trait Change {
    // What the bit `old` at column u becomes, in a run that begins at x0, where p is shown.
    ghost becomes: { Self → ℕ → Picture → ℕ → Bool → Bool };

    // Whether a run of row y from x0 to x1 can be changed so, up to eight places in one step.
    ghost fits: { Self → Layout → ℕ → ℕ → ℕ → Type 0 };

    // What is brought to the k-th eight of a row, which is `old`. Only its places in the run count.
    fn brought<C: Cell>(
        &self,
        memory: &[C],
        across: u16,
        up: u16,
        run: &Range<usize>,
        k: usize,
        old: u8,
    ) -> u8
        requires room { across * up ≤ length memory.now }
        requires end { run.now.end ≤ 8 * across }
        requires eight { (run.now.start < 8 * k + 8) × (8 * k < run.now.end) }
        requires fits { (y : ℕ) × fits self.now (C.layout across up) y run.now.start run.now.end }
        ensures { (i : ℕ) → i < 8 → run.now.start ≤ 8 * k + i → 8 * k + i < run.now.end → bit result (C.place i) ≡ becomes self.now run.now.start (shown (C.layout across up) (C.numbers memory.now)) (8 * k + i) (bit old (C.place i)) };

    // What is brought does not hang on what the run has done already.
    ghost steady: { (c : Self) (l : Layout) (y x0 x1 x : ℕ) (p : Picture) → fits c l y x0 x1 → (u : ℕ) (old : Bool) → becomes c x0 (mapped y x0 x (becomes c x0 p) p) u old ≡ becomes c x0 p u old };
}

impl Change for Effect {
    ghost becomes = { λ e _ _ _ old. if old then e.one else e.zero };

    ghost fits = { λ _ _ _ _ _. Unit {0} };

    fn brought<C: Cell>(
        &self,
        _memory: &[C],
        _across: u16,
        _up: u16,
        _run: &Range<usize>,
        _k: usize,
        old: u8,
    ) -> u8 {
        match (self.zero, self.one) {
            (false, false) => 0,
            (false, true) => old,
            (true, false) => old ^ 255,
            (true, true) => 255,
        }
    }

    ghost steady = { λ _ _ _ _ _ _ _ _ _ _. refl };
}

// From another row, all inside, where the run and its source lie alike in their eights.
impl Change for Source {
    ghost becomes = { λ s x0 p. from_row p x0 s.y s.x };

    ghost fits = { λ s l y x0 x1. (s.y < l.high) × (s.y ≢ y) × (x0 % 8 ≡ s.x % 8) × (s.x + (x1 - x0) ≤ l.wide) };

    fn brought<C: Cell>(
        &self,
        memory: &[C],
        across: u16,
        up: u16,
        run: &Range<usize>,
        k: usize,
        _old: u8,
    ) -> u8 {
        eight(memory, across, up, self.y, self.x / 8 + k - run.start / 8)
    }

    ghost steady = { λ s l y x0 x1 x p fits. steady_source p y x0 x s.y s.x fits.1 };
}

// The number of the k-th eight of row y, in a memory that has room for `up` rows of `across` numbers.
fn cell_of<C: Cell>(memory: &[C], across: u16, up: u16, y: usize, k: usize) -> C
    requires room { across * up ≤ length memory.now }
    requires inside { (k < across) × (y < C.HIGH * up) }
    ensures { (x : ℕ) → x / 8 ≡ k → C.number result ≡ slice_index (C.numbers memory.now) ((C.layout across up).cell x y) }
{
    memory[C::index(across, up, k, y)]
}

// The bit at (x, y). From the number itself and not from its eight, which would be two shifts: listings and lines go bit by bit.
pub(crate) fn bit_at<C: Cell>(memory: &[C], across: u16, up: u16, x: usize, y: usize) -> bool
    requires room { across * up ≤ length memory.now }
    requires inside { (x < 8 * across) × (y < C.HIGH * up) }
    ensures bit { result ≡ bit (slice_index (C.numbers memory.now) ((C.layout across up).cell x y)) (8 * (y % C.HIGH) + C.place (x % 8)) }
    ensures shown { result ≡ (shown (C.layout across up) (C.numbers memory.now)).at x y }
{
    let cell = cell_of(memory, across, up, y, x / 8);
    bit_of(cell.number(), 8 * (y % C::HIGH) + C::place(x % 8))
}

// The k-th eight pixels of row y.
fn eight<C: Cell>(memory: &[C], across: u16, up: u16, y: usize, k: usize) -> u8
    requires room { across * up ≤ length memory.now }
    requires inside { (k < across) × (y < C.HIGH * up) }
    ensures bits { (x j : ℕ) → x / 8 ≡ k → j < 8 → bit result j ≡ bit (slice_index (C.numbers memory.now) ((C.layout across up).cell x y)) (8 * (y % C.HIGH) + j) }
    ensures shown { (x : ℕ) → x / 8 ≡ k → bit result (C.place (x % 8)) ≡ (shown (C.layout across up) (C.numbers memory.now)).at x y }
{
    cell_of(memory, across, up, y, k).eight(y)
}

// Flips these bits of row y's eight in one number of the memory.
fn flip<C: Cell>(memory: &mut [C], at: usize, y: usize, flips: u8)
    requires { at < length memory.old }
    ensures length { length memory.new ≡ length memory.old }
    ensures number { (n : ℕ) × (C.numbers memory.new ≡ set (C.numbers memory.old) at n) × ((j : ℕ) → j < 8 → bit n (8 * (y % C.HIGH) + j) ≡ differ (bit (slice_index (C.numbers memory.old) at) (8 * (y % C.HIGH) + j)) (bit flips j)) × ((j : ℕ) → j < 8 * C.HIGH → j / 8 ≢ y % C.HIGH → bit n j ≡ bit (slice_index (C.numbers memory.old) at) j) }
{
    memory[at] = memory[at].flipped(y, flips);
}

// What to flip in an eight, so that its bit at this place, which is `old`, becomes the one that is wanted.
fn flips_to(old: bool, place: usize, wanted: bool) -> u8
    requires { place < 8 }
    ensures here { differ old (bit result place) ≡ wanted }
    ensures others { (j : ℕ) → j < 8 → j ≢ place → bit result j ≡ false }
{
    // No test: where the bits come by chance, it would be foretold wrong at every other pixel.
    u8::from(old != wanted) << place
}

// Changes the bit at (x, y). By itself and not as a run of one place, since lines go bit by bit.
pub(crate) fn put_bit<C: Cell>(
    memory: &mut [C],
    across: u16,
    up: u16,
    x: usize,
    y: usize,
    wanted: bool,
)
    requires room { across * up ≤ length memory.old }
    requires inside { (x < 8 * across) × (y < C.HIGH * up) }
    ensures length { length memory.new ≡ length memory.old }
    ensures picture { shown (C.layout across up) (C.numbers memory.new) ≡ mapped y x (x + 1) (λ _ _. wanted) (shown (C.layout across up) (C.numbers memory.old)) }
{
    let old = bit_at(memory, across, up, x, y);
    let flips = flips_to(old, C::place(x % 8), wanted);
    let at = C::index(across, up, x / 8, y);
    flip(memory, at, y, flips);
}

// Changes this part of the run, which lies in one eight of row y. Its facts are of this run and this memory together, so no type has
// them.
fn change_eight<C: Cell, H: Change>(
    memory: &mut [C],
    across: u16,
    up: u16,
    y: usize,
    run: &Range<usize>,
    part: Range<usize>,
    change: &H,
) -> usize
    requires room { across * up ≤ length memory.old }
    requires row { y < C.HIGH * up }
    requires end { run.now.end ≤ 8 * across }
    requires part { (run.now.start ≤ part.start) × (part.start < part.end) × (part.end ≤ run.now.end) }
    requires eight { part.end ≤ 8 * (part.start / 8) + 8 }
    requires fits { H.fits change.now (C.layout across up) y run.now.start run.now.end }
    ensures length { length memory.new ≡ length memory.old }
    ensures picture { let p = shown (C.layout across up) (C.numbers memory.old) in shown (C.layout across up) (C.numbers memory.new) ≡ mapped y part.start part.end (H.becomes change.now run.now.start p) p }
    ensures count { result ≡ changes y (shown (C.layout across up) (C.numbers memory.old)) (shown (C.layout across up) (C.numbers memory.new)) }
{
    let k = part.start / 8;
    let old = eight(memory, across, up, y, k);
    let places = C::places(part.start % 8, part.end - 8 * k);
    let flips = (old ^ change.brought(memory, across, up, run, k, old)) & places;
    let at = C::index(across, up, k, y);
    flip(memory, at, y, flips);
    flips.count_ones() as usize
}

// Changes a run of row y: the end of its first eight, whole eights, and the start of its last. Three parts, so that the loop over
// whole eights has one mask, and a memory and its sizes by themselves, so that the loop need not look them up.
fn change_row<C: Cell, H: Change>(
    memory: &mut [C],
    across: u16,
    up: u16,
    y: usize,
    run: &Range<usize>,
    change: &H,
) -> usize
    requires room { across * up ≤ length memory.old }
    requires row { y < C.HIGH * up }
    requires run { (run.now.start < run.now.end) × (run.now.end ≤ 8 * across) }
    requires fits { H.fits change.now (C.layout across up) y run.now.start run.now.end }
    ensures length { length memory.new ≡ length memory.old }
    ensures picture { let p = shown (C.layout across up) (C.numbers memory.old) in shown (C.layout across up) (C.numbers memory.new) ≡ mapped y run.now.start run.now.end (H.becomes change.now run.now.start p) p }
    ensures count { result ≡ changes y (shown (C.layout across up) (C.numbers memory.old)) (shown (C.layout across up) (C.numbers memory.new)) }
{
    let first = 8 * (run.start / 8) + 8;
    let mut count = change_eight(
        memory,
        across,
        up,
        y,
        run,
        run.start..run.end.min(first),
        change,
    );
    for k in first / 8..run.end / 8 {
        count += change_eight(memory, across, up, y, run, 8 * k..8 * k + 8, change);
    }
    let last = first.max(8 * (run.end / 8));
    if last < run.end {
        count += change_eight(memory, across, up, y, run, last..run.end, change);
    }
    count
}

impl<C: Cell> Grid<'_, C> {
    /// Changes a run of row y, as far as the width, up to eight places in one step. Answers how many bits it changed.
    pub(crate) fn change_run<H: Change>(&mut self, y: usize, run: Range<usize>, change: &H) -> usize
        requires fits { H.fits change.now (C.layout self.now.across self.now.up) y run.start (min run.end (8 * self.now.across)) }
        ensures picture { let p = held (C.layout self.old.across self.old.up) (C.numbers self.old.memory.now) in held (C.layout self.new.across self.new.up) (C.numbers self.new.memory.now) ≡ mapped y run.start run.end (H.becomes change.now run.start p) p }
        ensures count { result ≡ changes y (held (C.layout self.old.across self.old.up) (C.numbers self.old.memory.now)) (held (C.layout self.new.across self.new.up) (C.numbers self.new.memory.now)) }
    {
        let inside = run.start..run.end.min(self.width());
        if y >= self.height() || inside.start >= inside.end {
            return 0;
        }
        change_row(self.memory, self.across, self.up, y, &inside, change)
    }
}

//! A queue over memory that it is lent, for every kind of element. The oldest element leaves first.
#![tactic(auto)]

ghost use Rattle.std.specs.Prelude.{◌-◌, ◌≤◌, length};

mod calls;
pub mod iter;
mod reads;
pub mod ring;

/// A ring of places, of which `waits` wait from `head` on.
// A slice with two numbers beside it: the memory is lent, and a `VecDeque` would need the heap.
#[derive(Drop)]
pub struct Queue<'a, T> {
    items: &'a mut [T],
    head: usize,
    waits: usize,
    ghost fits: { waits ≤ length items.now },
    // An empty memory has no place, and there the head is 0.
    ghost starts: { head ≤ length items.now - 1 },
}

//! Places in a ring: after the last one comes the first.
ghost use Rattle.std.specs.Prelude.{◌≡◌};
ghost use Rattle.queue.specs.Ring.{place};

/// The place behind `i` others, if the first of them is at `head`.
pub fn place(size: usize, head: usize, i: usize) -> usize
    ensures { result ≡ place size head i }
{
    let before_turn = size.saturating_sub(head);
    if i < before_turn {
        head + i
    } else {
        i - before_turn
    }
}

//! A queue is made, and what waits in it changes.
ghost use Rattle.std.specs.Prelude.{◌≡◌, [], ◌∷◌, ◌++◌, length, drop, if◌then◌else◌, None, Ok, Err, OnErr, is_ok, nat_lt};
ghost use Rattle.queue.specs.Nth.{first};
ghost use Rattle.queue.specs.Waiting.{waiting, places, memory, SameMemory};

use super::Queue;
use super::ring::place;

impl<'a, T: Copy> Queue<'a, T> {
    /// A queue in which nothing waits, whatever the memory holds.
    pub fn new(items: &'a mut [T]) -> Queue<'a, T>
        ensures empty { waiting result ≡ [] }
        ensures places { places result ≡ length items.old }
        ensures memory { memory result ≡ items.entry.ghost_name }
    {
        Queue {
            items,
            head: 0,
            waits: 0,
        }
    }

    /// Puts `x` last, or gives it back if every place waits.
    pub fn push(&mut self, x: T) -> Result<(), T>
        ensures answer { result ≡ (if nat_lt (length (waiting self.old)) (places self.old) then Ok tt else Err x) }
        ensures joins { waiting self.new ≡ (if is_ok result then waiting self.old ++ x ∷ [] else waiting self.old) }
        ensures stays { SameMemory self.old self.new }
        ensures refused { OnErr result (self.new ≡ self.old) }
    {
        let size = self.items.len();
        if self.waits == size {
            return Err(x);
        }
        let at = place(size, self.head, self.waits);
        self.items[at] = x;
        self.waits += 1;
        Ok(())
    }

    /// Takes the oldest element.
    pub fn take(&mut self) -> Option<T>
        ensures first { result ≡ first (waiting self.old) }
        ensures rest { waiting self.new ≡ drop 1 (waiting self.old) }
        ensures stays { SameMemory self.old self.new }
        ensures none { result ≡ None → self.new ≡ self.old }
    {
        let size = self.items.len();
        if self.waits == 0 {
            return None;
        }
        let x = self.items[self.head];
        self.head = place(size, self.head, 1);
        self.waits -= 1;
        Some(x)
    }

    /// Lets all that waits go.
    pub fn clear(&mut self)
        ensures empty { waiting self.new ≡ [] }
        ensures stays { SameMemory self.old self.new }
    {
        self.waits = 0;
    }
}

//! What a queue tells, with nothing taken.
ghost use Rattle.std.specs.Prelude.{◌≡◌, ◌-◌, ◌++◌, length};
ghost use Rattle.queue.specs.Nth.{nth};
ghost use Rattle.queue.specs.Waiting.{waiting, places};

use super::Queue;
use super::ring::place;

impl<T: Copy> Queue<'_, T> {
    /// How many elements wait.
    pub fn len(&self) -> usize
        ensures { result ≡ length (waiting self.now) }
    {
        self.waits
    }

    /// How many places the memory has.
    pub fn places(&self) -> usize
        ensures { result ≡ places self.now }
    {
        self.items.len()
    }

    /// How many places are free.
    pub fn room(&self) -> usize
        ensures { result ≡ places self.now - length (waiting self.now) }
    {
        self.places() - self.len()
    }

    /// The element behind `i` others, which stays.
    pub fn get(&self, i: usize) -> Option<T>
        ensures { result ≡ nth (waiting self.now) i }
    {
        if i >= self.waits {
            return None;
        }
        let items: &[T] = self.items;
        let at = place(items.len(), self.head, i);
        Some(items[at])
    }
}

impl<T> Queue<'_, T> {
    /// What waits in two parts, one after the other: the older one reaches to the last place or to its own end.
    pub fn as_slices(&self) -> (&[T], &[T])
        ensures { result.0.now ++ result.1.now ≡ waiting self.now }
    {
        let items: &[T] = self.items;
        let ahead = &items[self.head..];
        let near = self.waits.min(ahead.len());
        (&ahead[..near], &items[..self.waits - near])
    }
}

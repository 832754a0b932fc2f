//! What waits, one element after the other.
ghost use Rattle.std.specs.Prelude.{◌≡◌, length};
ghost use Rattle.std.specs.Iterator.{at_most};
ghost use Rattle.std.specs.Map.Iter.{TakesFirst, ShowsInOrder, deref};
ghost use Rattle.queue.specs.Waiting.{waiting};

use super::Queue;
use std::iter::FusedIterator;
use std::marker::Model;

// No chain of two slices: seen as one list, an iterator of its own keeps a caller's loop plain.
/// The elements of a queue from the oldest on, all of which stay. Clauses see the list of those that are left.
#[derive(Drop)]
pub struct Iter<'a, T> {
    older: &'a [T],
    newer: &'a [T],
}

impl<'a, T> Model for Iter<'a, T> {
    ghost use Rattle.std.specs.Prelude.{List, ◌++◌};

    ghost Value = { List T };

    ghost view = { λ s. s.older.now ++ s.newer.now };
}

impl<T> Queue<'_, T> {
    /// What waits, the oldest first.
    pub fn iter(&self) -> Iter<'_, T>
        ensures rest { result ≡ waiting self.now }
        ensures runs { ShowsInOrder (deref {X = T}) }
    {
        let (older, newer) = self.as_slices();
        Iter { older, newer }
    }
}

impl<'a, T> Iterator for Iter<'a, T> {
    type Item = &'a T;

    ghost next_gives = { TakesFirst deref };

    ghost remaining = { λ s. at_most (length s) };

    fn next(&mut self) -> Option<&'a T> {
        if let Some((first, rest)) = self.older.split_first() {
            self.older = rest;
            return Some(first);
        }
        let (first, rest) = self.newer.split_first()?;
        self.newer = rest;
        Some(first)
    }
}

impl<'a, T> FusedIterator for Iter<'a, T> {}

impl<'a, 'q, T> IntoIterator for &'a Queue<'q, T> {
    type Item = &'a T;

    type IntoIter = Iter<'a, T>;

    ghost into_iter_gives = { λ q s. (s ≡ waiting q.now) × ShowsInOrder (deref {X = T}) };

    fn into_iter(self) -> Iter<'a, T> {
        self.iter()
    }
}

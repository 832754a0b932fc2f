//! A script: text, a command a line.
ghost use Rattle.std.specs.Prelude.{length};
ghost use Rattle.std.specs.Iterator.{at_most};

use crate::command::Command;
use crate::fault::Fault;
use std::alloc::Global;

// By `splitn` at each line: the type of the closure of a `split` has no name that a field could have.
#[derive(Drop)]
struct Lines<'a> {
    rest: &'a [u8],
    // How many lines were read.
    count: u64,
}

impl<'a> Iterator for Lines<'a> {
    type Item = &'a [u8];

    ghost remaining = { λ s. at_most (length s.rest.now) };

    fn next(&mut self) -> Option<&'a [u8]> {
        let rest = self.rest;
        if rest.is_empty() {
            return None;
        }
        let mut parts = rest.splitn(2, |byte| *byte == b'\n');
        let line = parts.next()?;
        self.rest = parts.next().unwrap_or(&[]);
        self.count = self.count.saturating_add(1);
        Some(line)
    }
}

/// The commands that are left.
#[derive(Drop)]
pub struct Script<'a> {
    heap: Global,
    lines: Lines<'a>,
}

impl<'a> Script<'a> {
    pub(crate) fn new(heap: Global, text: &'a [u8]) -> Script<'a> {
        let lines = Lines {
            rest: text,
            count: 0,
        };
        Script { heap, lines }
    }

    /// The number of the line that was read last, from 1 on.
    pub(crate) fn line(&self) -> u64 {
        self.lines.count
    }
}

impl Iterator for Script<'_> {
    type Item = Result<Command, Fault>;

    ghost remaining = { λ s. at_most (length s.lines.rest.now) };

    fn next(&mut self) -> Option<Result<Command, Fault>> {
        let heap = self.heap;
        self.lines
            .find_map(|line| Command::read(heap, line).transpose())
    }
}

//! The words of a line, parted by spaces.
ghost use Rattle.std.specs.Prelude.{length};
ghost use Rattle.std.specs.Iterator.{at_most};

use crate::fault::Fault;

// By position and not by `split`: the type of its closure has no name that a field could have.
#[derive(Drop)]
pub struct Words<'a> {
    rest: &'a [u8],
}

// A number that no memory counts to is as good as the highest.
fn decimal(word: &[u8]) -> Result<usize, Fault> {
    word.iter().try_fold(0usize, |number, byte| {
        let digit = char::from(*byte).to_digit(10).ok_or(Fault::BadNumber)?;
        Ok(number.saturating_mul(10).saturating_add(digit as usize))
    })
}

impl<'a> Iterator for Words<'a> {
    type Item = &'a [u8];

    ghost remaining = { λ s. at_most (length s.rest.now) };

    fn next(&mut self) -> Option<&'a [u8]> {
        let rest = self.rest;
        let start = rest.iter().position(|byte| *byte != b' ')?;
        let (_, rest) = rest.split_at(start);
        let end = rest.iter().position(|byte| *byte == b' ');
        let (word, rest) = rest.split_at(end.unwrap_or(rest.len()));
        self.rest = rest;
        Some(word)
    }
}

impl<'a> Words<'a> {
    pub(crate) fn new(line: &'a [u8]) -> Words<'a> {
        Words { rest: line }
    }

    pub(crate) fn word(&mut self) -> Result<&'a [u8], Fault> {
        self.next().ok_or(Fault::MissingWord)
    }

    /// What the next word names.
    pub(crate) fn named<T: TryFrom<&'a [u8], Error = Fault>>(&mut self) -> Result<T, Fault> {
        T::try_from(self.word()?)
    }

    pub(crate) fn number(&mut self) -> Result<usize, Fault> {
        decimal(self.word()?)
    }

    /// A number, or 255 for one that is above.
    pub(crate) fn byte(&mut self) -> Result<u8, Fault> {
        Ok(self.number()?.min(255) as u8)
    }

    /// The number that may stand last.
    pub(crate) fn number_or(&mut self, usual: usize) -> Result<usize, Fault> {
        self.next().map_or(Ok(usual), decimal)
    }

    /// That no word is left.
    pub(crate) fn end(&mut self) -> Result<(), Fault> {
        match self.next() {
            Some(_) => Err(Fault::ExtraWord),
            None => Ok(()),
        }
    }
}

//! What is done to the places of a run, neighbouring places of one row.
ghost use Rattle.std.specs.Prelude.{◌≡◌, if◌then◌else◌};

/// What becomes of a bit: 0 becomes `zero`, and 1 becomes `one`.
#[derive(Clone, Copy, PartialEq, Eq, Debug)]
pub struct Effect {
    pub zero: bool,
    pub one: bool,
}

impl Effect {
    /// Each bit becomes this one.
    pub fn to(bit: bool) -> Effect
        ensures zero { result.zero ≡ bit }
        ensures one { result.one ≡ bit }
    {
        Effect {
            zero: bit,
            one: bit,
        }
    }

    /// What this bit becomes.
    pub fn on(self, bit: bool) -> bool
        ensures { result ≡ (if bit then self.one else self.zero) }
    {
        if bit { self.one } else { self.zero }
    }
}

/// Where a run is copied from: its row, and the column where the copy begins.
#[derive(Clone, Copy, PartialEq, Eq, Debug)]
pub struct Source {
    pub y: usize,
    pub x: usize,
}

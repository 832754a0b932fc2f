//! The terminal that is emulated.
ghost use Rattle.std.specs.Prelude.{◌≡◌};
ghost use Rattle.parser.specs.Emulation.{number_of};

/// In the order of the numbers that they are reported by.
#[derive(Clone, Copy, PartialEq, Eq, Debug)]
pub enum Emulation {
    Native = 0,
    Vt52 = 1,
    Vt100 = 2,
    Tek4010 = 3,
}

impl From<Emulation> for u8 {
    ghost from_gives = { λ emulation number. number ≡ number_of emulation };

    fn from(emulation: Emulation) -> u8 {
        emulation as u8
    }
}

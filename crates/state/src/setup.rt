//! What is fixed when a terminal is installed.
ghost use Rattle.std.specs.Prelude.{◌≡◌};
ghost use Rattle.state.specs.Setup.{numbered};

use refusal::Refusal;

/// What ends a report.
#[derive(Clone, Copy, PartialEq, Eq, Debug)]
pub enum Terminator {
    Nothing,
    Cr,
    CrEot,
}

impl TryFrom<u8> for Terminator {
    type Error = Refusal;

    ghost try_from_gives = { λ n r. r ≡ numbered n };

    fn try_from(number: u8) -> Result<Terminator, Refusal> {
        match number {
            0 => Ok(Terminator::Nothing),
            1 => Ok(Terminator::Cr),
            2 => Ok(Terminator::CrEot),
            _ => Err(Refusal::Terminator),
        }
    }
}

/// The size of the plane that the terminal draws on.
// Not `regions::size::Size`, whose sides are from 16 to 1,024: a terminal of any size can be made.
#[derive(Clone, Copy, PartialEq, Eq, Debug)]
pub struct Size {
    pub width: u16,
    pub height: u16,
}

#[derive(Clone, Copy, PartialEq, Eq, Debug)]
pub struct Setup {
    pub size: Size,
    pub terminator: Terminator,
}

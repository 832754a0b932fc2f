//! Installing a terminal.
ghost use Rattle.std.specs.Prelude.{◌≡◌};
ghost use Rattle.runs.specs.Laws.{Agree, Cut, Recall, Spared};
ghost use Rattle.terminal.specs.Install.{installed};

use plane::memory::check_size;
use refusal::Refusal;
use state::setup::{Setup, Size, Terminator};
use state::terminal::Terminal;

/// A new terminal for planes of this size. Terminators are 0 (nothing), 1 (CR) and 2 (CR EOT).
/// Whatever calls follow, the laws hold of them.
pub fn install(width: usize, height: usize, terminator: u8) -> Result<Terminal, Refusal>
    ensures value { result ≡ installed width height terminator }
    ensures agree { Agree }
    ensures cut { Cut }
    ensures recall { Recall }
    ensures spared { Spared }
{
    check_size(width, height)?;
    let terminator = Terminator::try_from(terminator)?;
    let size = Size {
        width: width as u16,
        height: height as u16,
    };
    Ok(Terminal::new(Setup { size, terminator }))
}

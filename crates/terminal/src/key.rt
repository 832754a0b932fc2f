//! A stroke.
ghost use Rattle.std.specs.Prelude.{◌≡◌, length, OnErr};
ghost use Rattle.std.specs.Result.{result_err};
ghost use Rattle.queue.specs.Waiting.{waiting, places};
ghost use Rattle.runs.specs.Calls.{Keyed, own_refusal};
ghost use Rattle.terminal.specs.Session.{seen, SameLoans};

use crate::session::Session;
use keyboard::stroke::Stroke;
use line::Line;
use plane::Plane;
use refusal::Refusal;
use state::terminal::Gin;

impl<P: Plane, L: Line> Session<'_, '_, '_, '_, '_, '_, P, L> {
    // Why a stroke is refused where the set is not: no key has the number, or there is no place to wait.
    fn admit_stroke(&self, number: u8) -> Result<(), Refusal>
        ensures { result_err result ≡ own_refusal self.now.terminal.now number (length (waiting self.now.strokes.now)) (places self.now.strokes.now) }
    {
        let gin = self.terminal.gin != Gin::Off;
        if number > 149 || gin && number > 127 {
            return Err(Refusal::Key);
        }
        if self.terminal.locked && !gin && self.strokes.places() <= self.strokes.len() {
            return Err(Refusal::QueueFull);
        }
        Ok(())
    }

    /// Strikes the key of a number: its bytes go to the host, or it waits where the keyboard is locked.
    pub fn key(&mut self, number: u8) -> Result<(), Refusal>
        ensures keyed { Keyed (seen P.picture L.carried self.old) number result (seen P.picture L.carried self.new) }
        ensures lent { SameLoans self.old self.new }
        ensures refused { OnErr result (self.new ≡ self.old) }
    {
        self.admit()?;
        self.admit_stroke(number)?;
        let stroke = Stroke::try_from(number)?;
        let reading = self.terminal.strike(stroke);
        self.work(reading)?;
        Ok(())
    }
}

//! A delivery of host bytes.
ghost use Rattle.std.specs.Prelude.{◌≡◌, OnErr};
ghost use Rattle.runs.specs.Calls.{Fed};
ghost use Rattle.terminal.specs.Session.{seen, SameLoans};

use crate::session::Session;
use line::Line;
use plane::Plane;
use refusal::Refusal;
use runs::delivery::Delivery;

impl<P: Plane, L: Line> Session<'_, '_, '_, '_, '_, '_, P, L> {
    /// Takes host bytes one by one, until one whose reply finds no room in the line.
    pub fn feed(&mut self, bytes: &[u8]) -> Result<Delivery, Refusal>
        ensures fed { Fed (seen P.picture L.carried self.old) bytes.now result (seen P.picture L.carried self.new) }
        ensures lent { SameLoans self.old self.new }
        ensures refused { OnErr result (self.new ≡ self.old) }
    {
        self.admit()?;
        for (taken, byte) in bytes.iter().enumerate() {
            let reading = self.terminal.read(*byte);
            if let Err(shortage) = self.work(reading) {
                return Ok(Delivery {
                    taken,
                    shortage: Some(shortage),
                });
            }
        }
        Ok(Delivery {
            taken: bytes.len(),
            shortage: None,
        })
    }
}

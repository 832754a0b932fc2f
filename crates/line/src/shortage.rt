//! By how much an offer exceeds the room.
ghost use Rattle.std.specs.Prelude.{◌≡◌, if◌then◌else◌, Ok, Err, nat_lt};
ghost use Rattle.refusal.specs.declared.Refusal.{Refusal};
ghost use Rattle.refusal.specs.declared.Refusal.TheVariants.{Full};

use refusal::Refusal;

/// An offer of `need` bytes that a line's `room` does not hold.
#[derive(Clone, Copy, PartialEq, Eq, Debug)]
pub struct Shortage {
    pub need: usize,
    pub room: usize,
}

impl Shortage {
    /// Refuses what the room does not hold.
    pub fn check(need: usize, room: usize) -> Result<(), Shortage>
        ensures { result ≡ (if nat_lt room need then Err (record { need = need; room = room }) else Ok tt) }
    {
        if need > room {
            return Err(Shortage { need, room });
        }
        Ok(())
    }
}

impl From<Shortage> for Refusal {
    ghost from_gives = { λ s r. r ≡ Full s.need s.room };

    fn from(shortage: Shortage) -> Refusal {
        Refusal::Full {
            need: shortage.need,
            room: shortage.room,
        }
    }
}

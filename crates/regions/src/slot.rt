//! The number of a region.
ghost use Rattle.std.specs.Prelude.{◌≡◌, ◌<◌};

/// A number from 0 to 7.
#[derive(Clone, Copy)]
pub struct Slot {
    pub number: u8,
    ghost few: { number < 8 },
}

impl Slot {
    ghost use Rattle.regions.specs.Slot.{first as slot_zero, slotted};

    /// Region 0, the whole plane.
    pub fn first() -> Slot
        ensures { result ≡ slot_zero }
    {
        Slot { number: 0 }
    }

    // Named, as a constructor is: a TryFrom would want an error that nobody reads.

    /// The region of a number from 0 to 7.
    pub fn new(number: u8) -> Option<Slot>
        ensures { result ≡ slotted number }
    {
        if number < 8 {
            Some(Slot { number })
        } else {
            None
        }
    }
}

//! What a delivery of host bytes came to.
ghost use Rattle.std.specs.Prelude.{◌≡◌};
ghost use Rattle.runs.specs.Delivery.{number_of};

use line::shortage::Shortage;
use refusal::Refusal;

/// How many bytes have worked and, where the delivery stopped before its end, why: the next byte's reply exceeds the line's room.
#[derive(Clone, Copy, PartialEq, Eq, Debug)]
pub struct Delivery {
    pub taken: usize,
    pub shortage: Option<Shortage>,
}

/// The number that it is reported by: 0, or that of a reply without room.
impl From<Delivery> for u8 {
    ghost from_gives = { λ d n. n ≡ number_of d };

    fn from(delivery: Delivery) -> u8 {
        match delivery.shortage {
            None => 0,
            Some(shortage) => u8::from(Refusal::from(shortage)),
        }
    }
}

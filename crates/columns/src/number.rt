//! A number of a listing, and its six columns.
ghost use Rattle.std.specs.Prelude.{◌≡◌, ◌+◌, ◌%◌, ◌&&◌, negsuc, if◌then◌else◌, codes, nat_eq};
ghost use Rattle.columns.specs.Number.{unsigned, signed, columns_of};

/// At most five digits and a sign, so six columns hold it.
#[derive(Clone, Copy, PartialEq, Eq, Debug)]
pub struct Number {
    // A sign beside its magnitude: an i32 would want a bound, so that its text has six columns.
    negative: bool,
    magnitude: u16,
}

impl From<u16> for Number {
    ghost from_gives = { λ n r. r ≡ unsigned n };

    fn from(n: u16) -> Number {
        Number {
            negative: false,
            magnitude: n,
        }
    }
}

impl From<i16> for Number {
    ghost from_gives = { λ n r. r ≡ signed n };

    fn from(n: i16) -> Number {
        Number {
            negative: n < 0,
            magnitude: n.unsigned_abs(),
        }
    }
}

impl Number {
    /// The number's text, right-justified.
    pub fn columns(self) -> [u8; 6]
        ensures text { result ≡ columns_of self }
        ensures worked { columns_of (signed (negsuc 4094)) ≡ codes " -4095" }
    {
        // Digit by digit, and not by itoa, whose text would be copied to its place: that takes five times as long.
        let n = self.magnitude;
        [
            place(self.negative, 0, n / 10_000 != 0),
            place(self.negative, n / 10_000, n / 1_000 != 0),
            place(self.negative, n / 1_000, n / 100 != 0),
            place(self.negative, n / 100, n / 10 != 0),
            place(self.negative, n / 10, true),
            b'0' + (n % 10) as u8,
        ]
    }
}

/// One column: the last digit of `quotient`, or what stands left of the first digit.
/// A minus stands there only directly before it, so `next` says whether the column to the right has a digit.
fn place(negative: bool, quotient: u16, next: bool) -> u8
    ensures { result ≡ (if nat_eq quotient 0 then (if negative && next then 45 else 32) else 48 + quotient % 10) }
{
    if quotient != 0 {
        b'0' + (quotient % 10) as u8
    } else if negative && next {
        b'-'
    } else {
        b' '
    }
}

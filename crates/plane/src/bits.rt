//! One bit of a number.
ghost use Rattle.std.specs.Prelude.{◌≡◌, ◌<◌};
ghost use Rattle.plane.specs.Bits.{bit};

/// Bit k of n.
pub(crate) fn bit_of(n: u64, k: usize) -> bool
    requires { k < 64 }
    ensures { result ≡ bit n k }
{
    (n >> k) & 1 == 1
}

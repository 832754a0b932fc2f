//! Whether memory is that of a plane.
ghost use Rattle.std.specs.Prelude.{◌≡◌, ◌*◌};
ghost use Rattle.plane.specs.Memory.{side, sized, checked};

use crate::cell::Cell;
use refusal::Refusal;

fn is_side(n: usize) -> bool
    ensures { result ≡ side n }
{
    16 <= n && n <= 1024 && n % 8 == 0
}

// Two numbers, as a caller has them: only what passes is a size.
/// Whether both sizes are those of a plane.
pub fn check_size(width: usize, height: usize) -> Result<(), Refusal>
    ensures { result ≡ sized width height }
{
    if is_side(width) && is_side(height) {
        Ok(())
    } else {
        Err(Refusal::Size)
    }
}

/// Whether `len` numbers are exactly the memory of a plane.
pub fn check_memory<C: Cell>(width: usize, height: usize, len: usize) -> Result<(), Refusal>
    ensures { result ≡ checked width height (8 * C.HIGH) len }
{
    check_size(width, height)?;
    if len != width * height / (8 * C::HIGH) {
        return Err(Refusal::Memory);
    }
    Ok(())
}

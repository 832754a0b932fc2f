//! The size of a terminal's plane.
ghost use Rattle.std.specs.Prelude.{◌≡◌, ◌≤◌};

use plane::memory::check_size;
use refusal::Refusal;

/// Both sides are from 16 to 1,024, so that every region of 16 by 16 has a place.
#[derive(Clone, Copy)]
pub struct Size {
    pub width: u16,
    pub height: u16,
    ghost wide: { 16 ≤ width },
    ghost high: { 16 ≤ height },
    ghost narrow: { width ≤ 1024 },
    ghost low: { height ≤ 1024 },
}

impl Size {
    ghost use Rattle.regions.specs.Size.{sized};

    /// The size of planes that have such sides, or the refusal of the memory check.
    pub fn new(width: usize, height: usize) -> Result<Size, Refusal>
        ensures { result ≡ sized width height }
    {
        check_size(width, height)?;
        Ok(Size {
            width: width as u16,
            height: height as u16,
        })
    }
}

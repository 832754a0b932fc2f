//! One axis of a region, and the places that coordinates have on it.
ghost use Rattle.std.specs.Prelude.{◌≡◌, ℕ, ◌+◌, ◌≤◌, ◌&&◌};
ghost use Rattle.raster.specs.Fill.{all_of};
ghost use Rattle.raster.specs.Region.{among, position, same, met};
ghost use Rattle.raster.specs.Rectangle.{before, spans, cut};

/// `size` places from `low` on, counted in the plane. Coordinates count from `low`.
#[derive(Clone, Copy)]
pub(crate) struct Axis {
    pub low: u16,
    pub size: u16,
}

/// Neighbouring places on one axis of a plane.
#[derive(Clone, Copy)]
pub(crate) struct Places {
    pub start: u32,
    pub count: u32,
}

impl Axis {
    /// The place of a coordinate that lies on the axis.
    pub(crate) fn place(self, coordinate: i16) -> Option<usize>
        ensures { (u : ℕ) → (among self.low self.size u && same (position self.low u) coordinate) ≡ met result u }
    {
        // One test, after which both casts prove themselves.
        if coordinate >= 0 && (coordinate as u16) < self.size {
            Some(self.low as usize + coordinate as usize)
        } else {
            None
        }
    }

    pub(crate) fn all(self) -> Places
        ensures { result ≡ all_of self }
    {
        Places {
            start: self.low as u32,
            count: self.size as u32,
        }
    }

    // x brought to 0..=size.
    fn hold(self, x: i32) -> u32
        ensures value { result ≡ cut self.size x }
        ensures most { result ≤ self.size }
    {
        (x.max(0) as u32).min(self.size as u32)
    }

    // The places of the coordinates from x on and before `end`.
    fn clip(self, x: i32, end: i32) -> Places
        ensures picks { (u : ℕ) → (among self.low self.size u && before x end (position self.low u)) ≡ among result.start result.count u }
        ensures within { result.start + result.count ≤ self.low + self.size }
    {
        let first = self.hold(x);
        Places {
            start: self.low as u32 + first,
            count: self.hold(end).saturating_sub(first),
        }
    }

    /// The places of the `len` coordinates from x on.
    pub(crate) fn span(self, x: i16, len: i16) -> Places
        ensures picks { (u : ℕ) → (among self.low self.size u && spans x len (position self.low u)) ≡ among result.start result.count u }
        ensures within { result.start + result.count ≤ self.low + self.size }
    {
        self.clip(x as i32, x as i32 + len as i32)
    }
}

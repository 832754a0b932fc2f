//! Numbers whose bits are pixels, and how they lie in a memory.
ghost use Rattle.std.specs.Prelude.{◌≡◌, ℕ, ◌+◌, ◌-◌, ◌*◌, ◌/◌, ◌%◌, ◌<◌, ◌≤◌, ◌≢◌, ◌&&◌, List, length, get_or, set, if◌then◌else◌, nat_le, nat_lt, slice_index};
ghost use Rattle.plane.specs.Bits.{bit};
ghost use Rattle.plane.specs.Layout.{Layout, Order, Blocks, held, nothing};
ghost use Rattle.plane.specs.Memory.{fits};
ghost use Rattle.plane.specs.Picture.{Picture};
ghost use Rattle.plane.specs.Run.{differ};

/// A number with `HIGH` rows of eight pixels, and how such numbers lie in the memory of a plane.
pub trait Cell: Copy {
    ghost number: { Self → ℕ };

    ghost numbers: { List Self → List ℕ };

    // How s numbers side by side, and r rows of them, lie in a memory.
    ghost layout: { ℕ → ℕ → Layout };

    // The plane of w by h that is made on a memory.
    ghost made: { ℕ → ℕ → List ℕ → Picture };

    // The bit of a row's eight in which the i-th pixel from the left lies.
    ghost place: { ℕ → ℕ };

    ghost HIGH: { ℕ };

    const HIGH: usize;

    fn place(i: usize) -> usize
        requires { i < 8 }
        ensures { result ≡ place i };

    /// The bits of a row's eight in which the pixels from lo on and before hi lie.
    fn places(lo: usize, hi: usize) -> u8
        requires { (lo ≤ hi) × (hi ≤ 8) }
        ensures { (i : ℕ) → i < 8 → bit result (place i) ≡ (nat_le lo i && nat_lt i hi) };

    /// Which number has the k-th eight of row y.
    fn index(across: u16, up: u16, k: usize, y: usize) -> usize
        requires { (k < across) × (y < HIGH * up) }
        ensures { (x : ℕ) → x / 8 ≡ k → (layout across up).cell x y ≡ result };

    /// The number itself.
    fn number(self) -> u64
        ensures { result ≡ number self };

    /// The eight of row y.
    fn eight(self, y: usize) -> u8
        ensures { (j : ℕ) → j < 8 → bit result j ≡ bit (number self) (8 * (y % HIGH) + j) };

    /// The number with these bits of row y's eight flipped.
    fn flipped(self, y: usize, flips: u8) -> Self
        ensures here { (j : ℕ) → j < 8 → bit (number result) (8 * (y % HIGH) + j) ≡ differ (bit (number self) (8 * (y % HIGH) + j)) (bit flips j) }
        ensures others { (j : ℕ) → j < 8 * HIGH → j / 8 ≢ y % HIGH → bit (number result) j ≡ bit (number self) j };

    ghost tall: { (0 < HIGH) × (HIGH ≤ 8) };

    ghost order: { Order place };

    ghost blocks: { (s r : ℕ) → Blocks HIGH place s r (layout s r) };

    ghost makes: { (w h : ℕ) (m : List ℕ) → made w h m ≡ (if fits w h (8 * HIGH) (length m) then held (layout (w / 8) (h / HIGH)) m else nothing) };

    ghost as_many: { (m : List Self) → length (numbers m) ≡ length m };

    ghost read: { (m : List Self) (i : ℕ) (c : Self) → i < length m → slice_index (numbers m) i ≡ number (get_or m i c) };

    ghost written: { (m : List Self) (i : ℕ) (c : Self) → numbers (set m i c) ≡ set (numbers m) i (number c) };
}

// The byte in which the places from lo on and before hi are 1, the first in bit 7.
pub(crate) fn places_from_left(lo: usize, hi: usize) -> u8
    requires { (lo ≤ hi) × (hi ≤ 8) }
    ensures { (i : ℕ) → i < 8 → bit result (7 - i) ≡ (nat_le lo i && nat_lt i hi) }
{
    ((255u16 >> lo) ^ (255u16 >> hi)) as u8
}

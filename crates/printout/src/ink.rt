//! The ink of a row: where it begins and ends, and how much there is.
ghost use Rattle.std.specs.Prelude.{◌≡◌, ◌<◌, IfSome, nat_lt};
ghost use Rattle.plane.specs.Run.{how_many};
ghost use Rattle.printout.specs.Ink.{row, one_more, inked, inked_rows as rows_with_ink};

use plane::Plane;
use state::setup::Size;

/// Where the ink of a row begins and ends, and how many places have it: at least one.
#[derive(Clone, Copy, PartialEq, Eq, Debug)]
pub struct Ink {
    pub first: u16,
    pub last: u16,
    pub count: u16,
}

// The ink with one place more, right of the others.
fn with_place(ink: Option<Ink>, x: u16) -> Ink
    requires { IfSome ink (λ i. i.count < 65535) }
    ensures { result ≡ one_more x ink }
{
    match ink {
        None => Ink {
            first: x,
            last: x,
            count: 1,
        },
        Some(ink) => Ink {
            last: x,
            count: ink.count + 1,
            ..ink
        },
    }
}

// Whether there is ink at (x, y); outside the plane there is none.
fn is_set<P: Plane>(plane: &P, x: u16, y: u16) -> bool
    ensures { result ≡ row (P.picture plane.now) y x }
{
    plane.ask(x as usize, y as usize).unwrap_or(false)
}

// The ink of the first `width` places of row y, if there is any; each place is looked at once. Width and y are numbers: a row
// has no type of its own, and is asked for in two places.
pub(crate) fn ink_of_row<P: Plane>(plane: &P, width: u16, y: u16) -> Option<Ink>
    ensures { result ≡ inked (row (P.picture plane.now) y) width }
{
    // A loop and no fold: that a count fits is known by its invariant alone.
    let mut ink = None;
    for x in 0..width {
        if is_set(plane, x, y) {
            ink = Some(with_place(ink, x));
        }
    }
    ink
}

// Whether the row has ink; it is looked at no further than its first.
fn has_ink<P: Plane>(plane: &P, width: u16, y: u16) -> bool
    ensures { result ≡ nat_lt 0 (how_many (row (P.picture plane.now) y) width) }
{
    (0..width).any(|x| is_set(plane, x, y))
}

// How many rows have ink.
pub(crate) fn inked_rows<P: Plane>(plane: &P, size: Size) -> usize
    ensures { result ≡ rows_with_ink (P.picture plane.now) size }
{
    (0..size.height)
        .filter(|y| has_ink(plane, size.width, *y))
        .count()
}

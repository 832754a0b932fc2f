//! The picture as a listing.
ghost use Rattle.std.specs.Prelude.{◌≡◌, ◌+◌, ◌≤◌, ◌++◌, length, take, drop, IfOk, nat_le};
ghost use Rattle.columns.specs.Line.{text_of};
ghost use Rattle.printout.specs.Ink.{Bounded};
ghost use Rattle.printout.specs.Listing.{row_line as line_of_ink, rows as rows_of, last_line as closing, answer, written};

use crate::ink::{Ink, ink_of_row, inked_rows};
use columns::line::{LENGTH, Line};
use columns::number::Number;
use plane::Plane;
use refusal::Refusal;
use state::setup::Size;
use state::terminal::Terminal;

// The line of a row with ink.
fn row_line(y: u16, ink: Ink) -> Line
    ensures { result ≡ line_of_ink y ink }
{
    let numbers = [
        Number::from(y),
        Number::from(ink.first),
        Number::from(ink.last),
        Number::from(ink.count),
    ];
    Line { numbers }
}

// The last line: the position, the emulation and the region.
fn last_line(terminal: &Terminal) -> Line
    ensures { result ≡ closing terminal.now }
{
    let position = terminal.window.position;
    let emulation = u8::from(terminal.emulation) as u16;
    let region = terminal.window.number as u16;
    let numbers = [
        Number::from(position.x),
        Number::from(position.y),
        Number::from(emulation),
        Number::from(region),
    ];
    Line { numbers }
}

// Writes the lines of the rows with ink, top first.
#[inline(always)]
fn put_rows<P: Plane>(plane: &P, size: Size, buffer: &mut [u8]) -> usize
    requires { length (rows_of (P.picture plane.now) size.width size.height) ≤ length buffer.old }
    ensures end { result ≡ length (rows_of (P.picture plane.now) size.width size.height) }
    ensures text { take result buffer.new ≡ rows_of (P.picture plane.now) size.width size.height }
    ensures rest { drop result buffer.new ≡ drop result buffer.old }
{
    let mut at = 0;
    for y in (0..size.height).rev() {
        if let Some(ink) = ink_of_row(plane, size.width, y) {
            at = row_line(y, ink).write(buffer, at).unwrap();
        }
    }
    at
}

// Whether the listing fits. The rows are counted only where the buffer might not hold one line for each.
fn has_room<P: Plane>(plane: &P, size: Size, room: usize) -> bool
    ensures { result ≡ nat_le (length (rows_of (P.picture plane.now) size.width size.height) + 25) room }
{
    LENGTH * (size.height as usize + 1) <= room || LENGTH * (inked_rows(plane, size) + 1) <= room
}

/// Writes the listing into the buffer and answers its length.
// Within its caller, which knows that the buffer is no part of the plane: else each row looks the plane's size up again.
#[inline(always)]
pub fn listing<P: Plane>(
    terminal: &Terminal,
    plane: &P,
    buffer: &mut [u8],
) -> Result<usize, Refusal>
    ensures value { result ≡ answer terminal.now (P.picture plane.now) (length buffer.old) }
    ensures buffer { buffer.new ≡ written terminal.now (P.picture plane.now) buffer.old }
    ensures within { IfOk result (λ n. n ≤ length buffer.old) }
    ensures bounded { Bounded }
{
    if !terminal.matches(plane) {
        return Err(Refusal::PlaneSize);
    }
    let size = terminal.setup.size;
    if !has_room(plane, size, buffer.len()) {
        return Err(Refusal::Buffer);
    }
    let at = put_rows(plane, size, buffer);
    last_line(terminal).write(buffer, at)
}

//! The state of a terminal as a line of words.
use crate::desk::Station;
use crate::peek::Peek;
use keyboard::stroke::Stroke;
use queue::Queue;
use raster::region::{Point, Region};
use state::terminal::{Gin, Place, Terminal};
use state::window::Window;
use std::fmt;

const REGIONS: u8 = 8;

/// A flag, 0 or 1.
#[derive(Clone, Copy)]
struct Flag(bool);

impl fmt::Display for Flag {
    fn fmt<W: fmt::Write>(&self, f: &mut fmt::Formatter<W>) -> fmt::Result {
        write!(f, "{}", u8::from(self.0))
    }
}

/// The selected region. What text needs is still as in a new terminal: held, text operation, reverse, right column and wrap.
#[derive(Clone, Copy)]
struct Selected(Window);

impl fmt::Display for Selected {
    fn fmt<W: fmt::Write>(&self, f: &mut fmt::Formatter<W>) -> fmt::Result {
        let Window {
            number,
            position,
            pen,
            ..
        } = self.0;
        let Point { x, y } = position;
        let drawing = u8::from(pen.drawing);
        write!(
            f,
            "sel={number} pos={x},{y} held=0 draw={drawing} text=3 rev=0 right=0 wrap=1"
        )
    }
}

/// The modes, the lock and the pointer. Mode 20 and graph mode are still those of a new terminal, and so are the stops: every
/// eighth column from the first on.
#[derive(Clone, Copy)]
struct Modes<'a>(&'a Terminal);

impl fmt::Display for Modes<'_> {
    fn fmt<W: fmt::Write>(&self, f: &mut fmt::Formatter<W>) -> fmt::Result {
        let terminal = self.0;
        let last = Flag(terminal.modes.last_point);
        let cursor = Flag(terminal.modes.keys.cursor_keys);
        let keypad = Flag(terminal.modes.keys.keypad_application);
        let locked = Flag(terminal.locked);
        let Place { x, y } = terminal.pointer;
        let gin = Flag(terminal.gin != Gin::Off);
        write!(
            f,
            "last={last} ckeys={cursor} mode20=0 keypad={keypad} locked={locked} pointer={x},{y}"
        )?;
        write!(
            f,
            " graph=0 gin={gin} stops=80808080808080808080808080808080"
        )
    }
}

/// A region under its number: its area, its position and its pen.
#[derive(Clone, Copy)]
struct Numbered {
    number: u8,
    window: Window,
}

impl fmt::Display for Numbered {
    fn fmt<W: fmt::Write>(&self, f: &mut fmt::Formatter<W>) -> fmt::Result {
        let number = self.number;
        let Region {
            left,
            bottom,
            width,
            height,
        } = self.window.area;
        let Point { x, y } = self.window.position;
        let drawing = u8::from(self.window.pen.drawing);
        write!(
            f,
            "r{number}={left},{bottom},{width},{height}:{x},{y}:0:{drawing},3,0"
        )
    }
}

/// The regions. All but the selected one are still those of a new terminal.
#[derive(Clone, Copy)]
struct Regions<'a>(&'a Terminal);

impl fmt::Display for Regions<'_> {
    fn fmt<W: fmt::Write>(&self, f: &mut fmt::Formatter<W>) -> fmt::Result {
        let selected = self.0.window;
        let other = Terminal::new(self.0.setup).window;
        for number in 0..REGIONS {
            let window = if number == selected.number {
                selected
            } else {
                other
            };
            write!(f, "{} ", Numbered { number, window })?;
        }
        Ok(())
    }
}

/// The numbers of the strokes that wait.
#[derive(Clone, Copy)]
struct Strokes<'a, 'q>(&'a Queue<'q, Stroke>);

impl fmt::Display for Strokes<'_, '_> {
    fn fmt<W: fmt::Write>(&self, f: &mut fmt::Formatter<W>) -> fmt::Result {
        for (i, stroke) in self.0.iter().enumerate() {
            f.write_str(if i == 0 { "" } else { "," })?;
            write!(f, "{}", u8::from(*stroke))?;
        }
        Ok(())
    }
}

/// The bytes that wait in a line, as hexadecimal digits.
#[derive(Drop)]
struct Waiting<'a, L>(&'a L);

/// How many bytes are written at once.
const PART: usize = 32;

impl<L: Peek> Waiting<'_, L> {
    // The digits of the bytes behind `start` others, as far as bytes wait and a part holds them.
    fn digits(&self, start: usize, digits: &mut [u8; 2 * PART]) -> usize {
        let mut count = 0;
        for (i, pair) in digits.chunks_exact_mut(2).enumerate() {
            let Some(byte) = self.0.peek(start.saturating_add(i)) else {
                break;
            };
            let _ = hex::encode_to_slice([byte], pair);
            count = 2 * i + 2;
        }
        count
    }
}

impl<L: Peek> fmt::Display for Waiting<'_, L> {
    fn fmt<W: fmt::Write>(&self, f: &mut fmt::Formatter<W>) -> fmt::Result {
        let mut digits = [0u8; 2 * PART];
        // By place: a bound on `&L: IntoIterator` at each function that takes a line would be longer than `peek`.
        for start in (0..self.0.capacity()).step_by(PART) {
            let count = self.digits(start, &mut digits);
            let part = digits.get(..count).unwrap_or(&[]);
            f.write_str(str::from_utf8(part).unwrap_or(""))?;
            if count < digits.len() {
                break;
            }
        }
        Ok(())
    }
}

/// The state.
impl<L: Peek> fmt::Display for Station<'_, L> {
    fn fmt<W: fmt::Write>(&self, f: &mut fmt::Formatter<W>) -> fmt::Result {
        let emulation = u8::from(self.terminal.emulation);
        let selected = Selected(self.terminal.window);
        let modes = Modes(&self.terminal);
        let regions = Regions(&self.terminal);
        let strokes = Strokes(&self.strokes);
        let waiting = Waiting(&self.line);
        let room = self.line.room();
        write!(f, "emu={emulation} {selected} {modes} {regions}")?;
        write!(f, "strokes={strokes} waiting={waiting} room={room}")
    }
}

//! The state of a terminal.
ghost use Rattle.std.specs.Prelude.{◌≡◌};
ghost use Rattle.state.specs.Terminal.{new as fresh, renewed, home as home_of};

use crate::setup::Setup;
use crate::window::{Pen, Window};
use keyboard::modes::KeyModes;
use parser::emulation::Emulation;
use parser::machine::Parser;
use raster::operation::Operation;
use raster::region::{Point, Region};

/// The modes that sequences set and reset.
#[derive(Clone, Copy, PartialEq, Eq, Debug)]
pub struct Modes {
    /// Whether a line's last point is drawn.
    pub last_point: bool,
    pub keys: KeyModes,
}

/// A place of the plane, counted from its lower left.
#[derive(Clone, Copy, PartialEq, Eq, Debug)]
pub struct Place {
    pub x: u16,
    pub y: u16,
}

/// Graphics input: the host has asked for the pointer's place, and perhaps begun a sequence.
#[derive(Clone, Copy, PartialEq, Eq, Debug)]
pub enum Gin {
    Off,
    On,
    AfterEscape,
}

#[derive(Clone, Copy)]
pub struct Terminal {
    pub setup: Setup,
    pub emulation: Emulation,
    pub modes: Modes,
    pub window: Window,
    /// Whether strokes wait for the host.
    pub locked: bool,
    pub pointer: Place,
    pub gin: Gin,
    pub parser: Parser,
}

// The home position: the cell at the top left of a region. No height that is installed is cut: those end at 1,024.
fn home(height: u16) -> Point
    ensures { result ≡ home_of height }
{
    Point {
        x: 0,
        y: height.saturating_sub(16).min(32767) as i16,
    }
}

impl Terminal {
    /// A new terminal.
    pub fn new(setup: Setup) -> Terminal
        ensures { result ≡ fresh setup }
    {
        let Setup { size, .. } = setup;
        let area = Region {
            left: 0,
            bottom: 0,
            width: size.width,
            height: size.height,
        };
        let position = home(size.height);
        let pen = Pen {
            drawing: Operation::Copy,
        };
        Terminal {
            setup,
            emulation: Emulation::Native,
            modes: Modes {
                last_point: true,
                keys: KeyModes {
                    cursor_keys: false,
                    keypad_application: false,
                },
            },
            window: Window {
                number: 0,
                area,
                position,
                pen,
            },
            locked: false,
            pointer: Place { x: 0, y: 0 },
            gin: Gin::Off,
            parser: Parser::new(),
        }
    }

    /// All new but the pointer and the lock.
    pub fn renew(&mut self)
        ensures { self.new ≡ renewed self.old }
    {
        *self = Terminal {
            locked: self.locked,
            pointer: self.pointer,
            ..Terminal::new(self.setup)
        };
    }
}

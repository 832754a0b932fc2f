//! A terminal that stands, with all that it stands on.
use crate::answer::{print_answer, print_delivery, print_listing, print_pixels, print_size};
use crate::command::Call;
use crate::face::solid;
use crate::fault::Fault;
use crate::ink::put_ink;
use crate::sheet::{Memory, Shape, Sheet};
use keyboard::stroke::Stroke;
use line::Line;
use plane::Plane;
use plane::packed::Packed;
use plane::tiled::Tiled;
use plane::turned::Turned;
use queue::Queue;
use state::terminal::Terminal;
use std::alloc::{AllocError, Global};
use terminal::session::Session;

// As listing has one, over other memory: programs share no crate but the engine's.
/// A terminal with all that a call on it takes but the plane.
#[derive(Drop)]
pub struct Station<'a, L> {
    pub terminal: Terminal,
    pub face: Vec<u8>,
    pub line: L,
    pub strokes: Queue<'a, Stroke>,
}

/// A station with the memory of its plane.
#[derive(Drop)]
pub struct Desk<'a, L> {
    pub station: Station<'a, L>,
    pub sheet: Sheet,
}

impl<'a, L: Line> Station<'a, L> {
    /// The session with a plane.
    fn session<'p, P: Plane>(&mut self, plane: &'p mut P) -> Session<'_, '_, 'p, '_, '_, 'a, P, L> {
        Session {
            terminal: &mut self.terminal,
            face: &self.face,
            plane,
            line: &mut self.line,
            strokes: &mut self.strokes,
        }
    }

    /// Makes a call and prints what it answered.
    fn make<P: Plane>(
        &mut self,
        rt: &HostRuntime,
        plane: &mut P,
        call: &Call,
    ) -> Result<(), Fault> {
        match call {
            Call::Feed { bytes } => print_delivery(rt, self.session(plane).feed(bytes)),
            Call::Key { number } => print_answer(rt, "key", self.session(plane).key(*number)),
            Call::Point { x, y } => print_answer(rt, "point", self.session(plane).point(*x, *y)),
            Call::Ink { seed } => {
                put_ink(plane, *seed);
                println!(rt; "ink")?;
                Ok(())
            }
            Call::Listing { size } => print_listing(rt, &self.terminal, plane, *size),
            Call::Pixels => print_pixels(rt, plane),
            Call::Size => print_size(rt, plane),
        }
    }
}

impl<'a, L: Drop> Desk<'a, L> {
    /// A new terminal's desk, with a solid face and a plane of zeros.
    pub(crate) fn new(
        heap: Global,
        shape: Shape,
        terminal: Terminal,
        line: L,
        strokes: Queue<'a, Stroke>,
    ) -> Result<Desk<'a, L>, AllocError> {
        let station = Station {
            terminal,
            face: solid(heap)?,
            line,
            strokes,
        };
        let sheet = Sheet::blank(heap, shape)?;
        Ok(Desk { station, sheet })
    }
}

impl<L: Line> Desk<'_, L> {
    /// Makes a call on the plane, of whatever make it is.
    // By cases: the planes have four types, and no closure is generic over them.
    pub(crate) fn call(&mut self, rt: &HostRuntime, call: &Call) -> Result<(), Fault> {
        let width = self.sheet.width;
        let height = self.sheet.height;
        let station = &mut self.station;
        match &mut self.sheet.memory {
            Memory::Packed(bytes) => station.make(rt, &mut Packed::new(bytes, width, height), call),
            Memory::Tiled(tiles) => station.make(rt, &mut Tiled::new(tiles, width, height), call),
            Memory::Turned(bytes) => {
                let below = Packed::new(bytes, height, width);
                station.make(rt, &mut Turned { below }, call)
            }
            Memory::TurnedTwice(bytes) => {
                let below = Packed::new(bytes, width, height);
                let below = Turned { below };
                station.make(rt, &mut Turned { below }, call)
            }
        }
    }
}

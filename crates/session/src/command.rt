//! The commands of a script.
use crate::face::face_of;
use crate::fault::Fault;
use crate::hexadecimal::bytes_of;
use crate::sheet::{PlaneKind, Shape};
use crate::words::Words;
use std::alloc::Global;

#[derive(Clone, Copy)]
pub enum LineKind {
    Queue,
    Packet,
}

impl TryFrom<&[u8]> for LineKind {
    type Error = Fault;

    fn try_from(word: &[u8]) -> Result<LineKind, Fault> {
        match word {
            b"queue" => Ok(LineKind::Queue),
            b"packet" => Ok(LineKind::Packet),
            _ => Err(Fault::UnknownLine),
        }
    }
}

/// What an install asks for.
#[derive(Clone, Copy)]
pub struct Plan {
    pub shape: Shape,
    pub terminator: u8,
    pub line: LineKind,
    pub capacity: usize,
    pub places: usize,
}

/// What is done with a plane.
#[derive(Drop)]
pub enum Call {
    Feed { bytes: Vec<u8> },
    Key { number: u8 },
    Point { x: usize, y: usize },
    Ink { seed: u64 },
    Listing { size: usize },
    Pixels,
    /// Told after an exchange of the plane.
    Size,
}

#[derive(Drop)]
pub enum Command {
    Install(Plan),
    Exchange(Shape),
    Face { bytes: Vec<u8> },
    Drain { size: usize },
    State,
    OnPlane(Call),
}

const LISTING_BYTES: usize = 65536;

const MOST_PLACES: usize = 64;

impl Plan {
    fn read(words: &mut Words<'_>) -> Result<Plan, Fault> {
        let width = words.number()?;
        let height = words.number()?;
        let terminator = words.byte()?;
        let kind: PlaneKind = words.named()?;
        let plan = Plan {
            shape: Shape {
                width,
                height,
                kind,
            },
            terminator,
            line: words.named()?,
            capacity: words.number()?,
            places: words.number()?,
        };
        if plan.places > MOST_PLACES {
            return Err(Fault::TooManyPlaces);
        }
        Ok(plan)
    }
}

impl Shape {
    fn read(words: &mut Words<'_>) -> Result<Shape, Fault> {
        Ok(Shape {
            width: words.number()?,
            height: words.number()?,
            kind: words.named()?,
        })
    }
}

impl Call {
    fn read(heap: Global, name: &[u8], words: &mut Words<'_>) -> Result<Call, Fault> {
        Ok(match name {
            b"feed" => Call::Feed {
                bytes: bytes_of(heap, words.word()?)?,
            },
            b"key" => Call::Key {
                number: words.byte()?,
            },
            b"point" => Call::Point {
                x: words.number()?,
                y: words.number()?,
            },
            b"ink" => Call::Ink {
                seed: words.number()? as u64,
            },
            b"listing" => Call::Listing {
                size: words.number_or(LISTING_BYTES)?,
            },
            b"pixels" => Call::Pixels,
            _ => return Err(Fault::UnknownCommand),
        })
    }
}

impl Command {
    // The command that begins with the name.
    fn named(heap: Global, name: &[u8], words: &mut Words<'_>) -> Result<Command, Fault> {
        Ok(match name {
            b"install" => Command::Install(Plan::read(words)?),
            b"plane" => Command::Exchange(Shape::read(words)?),
            b"face" => Command::Face {
                bytes: face_of(heap, words.word()?)?,
            },
            b"drain" => Command::Drain {
                size: words.number()?,
            },
            b"state" => Command::State,
            _ => Command::OnPlane(Call::read(heap, name, words)?),
        })
    }

    /// The command of a line, or none where the line is empty or a comment.
    pub(crate) fn read(heap: Global, line: &[u8]) -> Result<Option<Command>, Fault> {
        if line.starts_with(b"#") {
            return Ok(None);
        }
        let mut words = Words::new(line);
        let Some(name) = words.next() else {
            return Ok(None);
        };
        let command = Command::named(heap, name, &mut words)?;
        words.end()?;
        Ok(Some(command))
    }
}

//! Feeds standard input to a new terminal and prints the listing of its picture.
#![tactic(auto)]

use columns::line::LENGTH;
use keyboard::stroke::Stroke;
use line::drain;
use plane::packed::Packed;
use printout::listing::listing;
use queue::Queue;
use refusal::Refusal;
use runs::delivery::Delivery;
use state::terminal::Terminal;
use std::io::{Read, Write};
use terminal::install::install;
use terminal::session::{FACE_BYTES, Session};

const SIDE: usize = 512;

const PLANE_BYTES: usize = SIDE * SIDE / 8;
/// A line for each row, and the last.
const TEXT_BYTES: usize = LENGTH * (SIDE + 1);

// As session has one, over other memory: programs share no crate but the engine's.
/// A terminal with all that bytes change, and the face that they draw with.
#[derive(Drop)]
struct Player<'a> {
    terminal: Terminal,
    face: Vec<u8>,
    plane: Packed<'a>,
    line: Queue<'a, u8>,
    strokes: Queue<'a, Stroke>,
}

impl Player<'_> {
    fn feed(&mut self, bytes: &[u8]) -> Result<Delivery, Refusal> {
        let mut session = Session {
            terminal: &mut self.terminal,
            face: &self.face,
            plane: &mut self.plane,
            line: &mut self.line,
            strokes: &mut self.strokes,
        };
        session.feed(bytes)
    }

    /// Takes what waits in the line, as far as a reply can be long.
    fn discard(&mut self) {
        let mut replies = [0u8; 64];
        drain(&mut self.line, &mut replies);
    }

    /// Feeds all of the bytes. Nobody reads the replies, so they are drained wherever they fill the line.
    fn feed_all(&mut self, bytes: &[u8]) -> Result<usize, Refusal> {
        let mut rest = bytes;
        // Counted: that a drained line takes the next byte is a law over whole runs, and no clause of feed.
        for _ in 0..bytes.len() {
            let delivery = self.feed(rest)?;
            rest = rest.get(delivery.taken..).unwrap_or(&[]);
            if delivery.shortage.is_none() {
                break;
            }
            self.discard();
        }
        Ok(bytes.len() - rest.len())
    }

    /// Feeds all of standard input, as it comes, and answers how many bytes were taken.
    fn feed_input(&mut self, rt: &HostRuntime) -> anyhow::Result<u64> {
        let mut chunk = vec![in rt.alloc(); 0u8; 4096]?;
        let mut taken = 0u64;
        // Input need not end, so the reads are counted.
        for _ in 0..u64::MAX {
            let count = rt.stdin().read(&mut chunk)?;
            if count == 0 {
                break;
            }
            let bytes = self.feed_all(&chunk[0..count])?;
            taken = taken.saturating_add(bytes as u64);
        }
        Ok(taken)
    }

    /// Prints the listing, and answers how many rows have ink.
    fn print_listing(&self, rt: &HostRuntime) -> anyhow::Result<usize> {
        let mut text = vec![in rt.alloc(); 0u8; TEXT_BYTES]?;
        let length = listing(&self.terminal, &self.plane, &mut text)?;
        rt.stdout().write_all(&text[0..length])?;
        Ok((length / LENGTH).saturating_sub(1))
    }
}

// The whole runtime: with a bound for each thing that is done with it the signature would be longer.
fn run(rt: &HostRuntime) -> anyhow::Result<()> {
    let mut memory = vec![in rt.alloc(); 0u8; PLANE_BYTES]?;
    let mut replies = [0u8; 64];
    let mut places = [Stroke::BLANK; 1];
    let mut player = Player {
        terminal: install(SIDE, SIDE, 0)?,
        face: vec![in rt.alloc(); 255u8; FACE_BYTES]?,
        plane: Packed::new(&mut memory, SIDE, SIDE),
        line: Queue::new(&mut replies),
        strokes: Queue::new(&mut places),
    };
    let taken = player.feed_input(rt)?;
    let rows = player.print_listing(rt)?;
    eprintln!(rt; "{taken} bytes taken, {rows} rows with ink")?;
    Ok(())
}

fn main(rt: HostRuntime) -> anyhow::Result<()> {
    run(&rt)
}

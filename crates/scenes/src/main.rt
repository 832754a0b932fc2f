//! Plays one recording on planes of every make, and calls that are refused, for the gate to compare.
#![tactic(auto)]

use columns::line::LENGTH;
use keyboard::stroke::Stroke;
use line::packets::Packets;
use plane::Plane;
use plane::memory::check_memory;
use plane::packed::Packed;
use plane::tiled::Tiled;
use plane::turned::Turned;
use printout::listing::listing;
use queue::Queue;
use refusal::Refusal;
use state::terminal::Terminal;
use std::io::Write;
use terminal::install::install;
use terminal::session::{FACE_BYTES, Session};

const WIDTH: usize = 48;

const HEIGHT: usize = 24;

/// A frame, a ray far past two edges, one from far below, and a line that a new move cuts off.
const RECORDING: &[u8] =
    b"\x1b:0;0m\x1b:47;0d\x1b:47;23d\x1b:0;23d\x1b:0;0d\x1b:9;3m\x1b:300;90d\x1b:-40;-700m\x1b:30;21d\x1b:5;\x1b:6;19m\x1b:6;15d";

// A number, 0 where the call went through: the expected output has numbers.
fn number<T: Drop>(answer: Result<T, Refusal>) -> u8 {
    answer.err().map_or(0, u8::from)
}

/// Feeds bytes with a face and a line of its own, and answers how many were taken.
fn take<P: Plane>(terminal: &mut Terminal, plane: &mut P, bytes: &[u8]) -> Result<usize, Refusal> {
    let face = [255u8; FACE_BYTES];
    let mut places = [Stroke::BLANK; 1];
    let mut strokes = Queue::new(&mut places);
    let mut line = Packets::new();
    let mut session = Session {
        terminal,
        face: &face,
        plane,
        line: &mut line,
        strokes: &mut strokes,
    };
    let delivery = session.feed(bytes)?;
    Ok(delivery.taken)
}

/// Feeds the recording in two deliveries, cut in the middle of a sequence, and prints the listing.
fn play<P: Plane>(rt: &HostRuntime, name: &str, plane: &mut P) -> anyhow::Result<()> {
    let mut text = vec![in rt.alloc(); 0u8; LENGTH * (HEIGHT + 1)]?;
    let mut terminal = install(WIDTH, HEIGHT, 1)?;
    let first = take(&mut terminal, plane, &RECORDING[0..41])?;
    let second = take(&mut terminal, plane, &RECORDING[41..])?;
    let length = listing(&terminal, plane, &mut text)?;
    println!(rt; "{name} {first} {second}")?;
    rt.stdout().write_all(&text[0..length])?;
    Ok(())
}

fn play_all(rt: &HostRuntime) -> anyhow::Result<()> {
    let mut bytes = vec![in rt.alloc(); 0u8; WIDTH * HEIGHT / 8]?;
    let mut tiles = vec![in rt.alloc(); 0u64; WIDTH * HEIGHT / 64]?;
    play(rt, "packed", &mut Packed::new(&mut bytes, WIDTH, HEIGHT))?;
    play(rt, "tiled", &mut Tiled::new(&mut tiles, WIDTH, HEIGHT))?;
    let mut bytes = vec![in rt.alloc(); 0u8; WIDTH * HEIGHT / 8]?;
    let below = Packed::new(&mut bytes, HEIGHT, WIDTH);
    play(rt, "turned", &mut Turned { below })?;
    let mut tiles = vec![in rt.alloc(); 0u64; WIDTH * HEIGHT / 64]?;
    let below = Turned {
        below: Tiled::new(&mut tiles, WIDTH, HEIGHT),
    };
    play(rt, "turned twice", &mut Turned { below })
}

fn refuse_memory(rt: &HostRuntime) -> anyhow::Result<()> {
    let mut bytes = [0u8; 32];
    println!(rt;
        "sizes {} {}",
        number(check_memory::<u8>(8, 16, 16)),
        number(check_memory::<u64>(16, 20, 5))
    )?;
    println!(rt;
        "memory {} {}",
        number(check_memory::<u8>(16, 16, 31)),
        number(check_memory::<u64>(16, 16, 5))
    )?;
    let plane = Packed::new(&mut bytes, 16, 24);
    println!(rt; "no plane {} by {}", plane.width(), plane.height())?;
    let mut plane = Packed::new(&mut bytes, 16, 16);
    let inside = number(plane.set(15, 15, true));
    println!(rt; "corner {inside} {}", number(plane.ask(15, 15)))?;
    println!(rt;
        "outside {} {}",
        number(plane.ask(16, 0)),
        number(plane.set(0, 16, true))
    )?;
    Ok(())
}

fn refuse_calls(rt: &HostRuntime) -> anyhow::Result<()> {
    let mut bytes = [0u8; 32];
    let mut text = [7u8; 24];
    println!(rt;
        "install {} {} {}",
        number(install(16, 12, 0)),
        number(install(24, 24, 3)),
        number(install(8, 8, 9))
    )?;
    let mut terminal = install(16, 24, 2)?;
    let mut plane = Packed::new(&mut bytes, 16, 16);
    let fed = number(take(&mut terminal, &mut plane, b"\x1b:0;0d"));
    let listed = number(listing(&terminal, &plane, &mut text));
    println!(rt; "another size {fed} {listed}")?;
    let terminal = install(16, 16, 2)?;
    let short = number(listing(&terminal, &plane, &mut text));
    println!(rt; "short buffer {short}, still {} and {}", text[0], text[23])?;
    Ok(())
}

// The whole runtime: with a bound for each thing that is done with it the signature would be longer.
fn run(rt: &HostRuntime) -> anyhow::Result<()> {
    play_all(rt)?;
    refuse_memory(rt)?;
    refuse_calls(rt)
}

fn main(rt: HostRuntime) -> anyhow::Result<()> {
    run(&rt)
}

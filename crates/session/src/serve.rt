//! Serving a script: each install begins a terminal, which takes the commands up to the next.
use crate::command::{Call, Command, LineKind, Plan};
use crate::desk::Desk;
use crate::fault::Fault;
use crate::hexadecimal::word_of;
use crate::peek::Peek;
use crate::script::Script;
use crate::sheet::{Shape, Sheet};
use keyboard::stroke::Stroke;
use line::drain;
use line::packets::Packets;
use queue::Queue;
use state::terminal::Terminal;
use terminal::install::install;

impl<L: Peek> Desk<'_, L> {
    fn print_drain(&mut self, rt: &HostRuntime, size: usize) -> Result<(), Fault> {
        let mut buffer = vec![in rt.alloc(); 0u8; size]?;
        let count = drain(&mut self.station.line, &mut buffer);
        println!(rt; "drain {count} {}", word_of(rt.alloc(), &buffer[0..count])?)?;
        Ok(())
    }

    // Does what a command asks for, and answers with the plan of a new terminal.
    fn obey(&mut self, rt: &HostRuntime, command: Command) -> Result<Option<Plan>, Fault> {
        match command {
            Command::Install(plan) => return Ok(Some(plan)),
            Command::Exchange(shape) => {
                self.sheet = Sheet::blank(rt.alloc(), shape)?;
                self.call(rt, &Call::Size)?;
            }
            Command::Face { bytes } => {
                println!(rt; "face {}", bytes.len())?;
                self.station.face = bytes;
            }
            Command::Drain { size } => self.print_drain(rt, size)?,
            Command::State => println!(rt; "{}", self.station)?,
            Command::OnPlane(call) => self.call(rt, &call)?,
        }
        Ok(None)
    }

    // Tells that the terminal stands, which then has all its memory. Serves until the next install, and answers with its plan,
    // or until the end.
    fn serve(&mut self, rt: &HostRuntime, script: &mut Script<'_>) -> Result<Option<Plan>, Fault> {
        println!(rt; "install 0")?;
        for command in script.by_ref() {
            if let Some(plan) = self.obey(rt, command?)? {
                return Ok(Some(plan));
            }
        }
        Ok(None)
    }
}

// Gives the terminal a line and memory for strokes, and serves.
fn connect(
    rt: &HostRuntime,
    script: &mut Script<'_>,
    terminal: Terminal,
    plan: Plan,
) -> Result<Option<Plan>, Fault> {
    let heap = rt.alloc();
    let mut places = vec![in heap; Stroke::BLANK; plan.places]?;
    let strokes = Queue::new(&mut places);
    match plan.line {
        LineKind::Queue => {
            let mut bytes = vec![in heap; 0u8; plan.capacity]?;
            let line = Queue::new(&mut bytes);
            Desk::new(heap, plan.shape, terminal, line, strokes)?.serve(rt, script)
        }
        LineKind::Packet => {
            Desk::new(heap, plan.shape, terminal, Packets::new(), strokes)?.serve(rt, script)
        }
    }
}

// With no terminal, only an install may follow.
fn next_plan(script: &mut Script<'_>) -> Result<Option<Plan>, Fault> {
    match script.next().transpose()? {
        Some(Command::Install(plan)) => Ok(Some(plan)),
        Some(_) => Err(Fault::NoTerminal),
        None => Ok(None),
    }
}

// Installs a terminal and serves it, or has none to serve where the install is refused. Answers with the next plan.
fn begin(rt: &HostRuntime, script: &mut Script<'_>, plan: Plan) -> Result<Option<Plan>, Fault> {
    let Shape { width, height, .. } = plan.shape;
    match install(width, height, plan.terminator) {
        Ok(terminal) => connect(rt, script, terminal, plan),
        Err(refusal) => {
            println!(rt; "install {}", u8::from(refusal))?;
            next_plan(script)
        }
    }
}

/// Plays the whole script.
pub(crate) fn play(rt: &HostRuntime, script: &mut Script<'_>) -> Result<(), Fault> {
    let mut next = next_plan(script)?;
    // Counted: a measure would want a contract of every function between here and the script.
    for _ in 0..u64::MAX {
        let Some(plan) = next else {
            break;
        };
        next = begin(rt, script, plan)?;
    }
    Ok(())
}

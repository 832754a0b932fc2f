//! Plays a script of calls from standard input and prints what each answered.
#![tactic(auto)]

mod answer;
mod command;
mod desk;
mod face;
mod fault;
mod hexadecimal;
mod ink;
mod peek;
mod script;
mod serve;
mod sheet;
mod status;
mod words;

use fault::Fault;
use std::io::Read;
use std::process::ExitCode;

/// All of standard input.
fn read_input(rt: &HostRuntime) -> Result<Vec<u8>, Fault> {
    let mut text = Vec::new(rt.alloc());
    rt.stdin().read_to_end(&mut text)?;
    Ok(text)
}

fn main(rt: HostRuntime) -> Result<ExitCode, Fault> {
    let text = read_input(&rt)?;
    let mut script = script::Script::new(rt.alloc(), &text);
    if let Err(fault) = serve::play(&rt, &mut script) {
        eprintln!(rt; "line {}: {fault}", script.line())?;
        return Ok(ExitCode::FAILURE);
    }
    Ok(ExitCode::SUCCESS)
}

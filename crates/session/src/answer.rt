//! What a call on a plane answered.
use crate::fault::Fault;
use crate::hexadecimal::word_of;
use crate::ink::pixels_of;
use line::shortage::Shortage;
use plane::Plane;
use printout::listing::listing;
use refusal::Refusal;
use runs::delivery::Delivery;
use state::terminal::Terminal;
use std::io::Write;

// The whole runtime: with a bound for each thing that is done with it the signature would be longer.
pub(crate) fn print_delivery(
    rt: &HostRuntime,
    answer: Result<Delivery, Refusal>,
) -> Result<(), Fault> {
    match answer {
        Ok(Delivery { taken, shortage }) => match shortage {
            None => println!(rt; "feed 0 taken {taken}")?,
            Some(Shortage { need, room }) => {
                println!(rt; "feed 8 taken {taken} need {need} room {room}")?
            }
        },
        Err(refusal) => println!(rt; "feed {}", u8::from(refusal))?,
    }
    Ok(())
}

// Beside `print_delivery`: a delivery tells what it took, in other words.
pub(crate) fn print_answer(
    rt: &HostRuntime,
    name: &str,
    answer: Result<(), Refusal>,
) -> Result<(), Fault> {
    match answer {
        Ok(()) => println!(rt; "{name} 0")?,
        Err(Refusal::Full { need, room }) => println!(rt; "{name} 8 need {need} room {room}")?,
        Err(refusal) => println!(rt; "{name} {}", u8::from(refusal))?,
    }
    Ok(())
}

// Within its caller, as the listing itself is.
#[inline(always)]
pub(crate) fn print_listing<P: Plane>(
    rt: &HostRuntime,
    terminal: &Terminal,
    plane: &P,
    size: usize,
) -> Result<(), Fault> {
    let mut text = vec![in rt.alloc(); 0u8; size]?;
    match listing(terminal, plane, &mut text) {
        Ok(length) => {
            println!(rt; "listing 0 {length}")?;
            rt.stdout().write_all(&text[0..length])?;
        }
        Err(refusal) => println!(rt; "listing {}", u8::from(refusal))?,
    }
    Ok(())
}

pub(crate) fn print_pixels<P: Plane>(rt: &HostRuntime, plane: &P) -> Result<(), Fault> {
    let bytes = pixels_of(rt.alloc(), plane)?;
    println!(rt; "pixels {}", word_of(rt.alloc(), &bytes)?)?;
    Ok(())
}

pub(crate) fn print_size<P: Plane>(rt: &HostRuntime, plane: &P) -> Result<(), Fault> {
    println!(rt; "plane {} {}", plane.width(), plane.height())?;
    Ok(())
}

//! What a byte, a stroke or a place calls for.
ghost use Rattle.std.specs.Prelude.{◌≡◌};
ghost use Rattle.state.specs.Action.{called_for, drawing_of, executed, escaped};

use crate::terminal::Place;
use keyboard::stroke::Stroke;
use parser::machine::Dispatch;
use parser::parameters::Introducer;
use raster::region::Point;

/// What the host asks of the terminal as a whole.
#[derive(Clone, Copy)]
pub enum Control {
    /// Strokes wait from now on.
    Lock,
    /// They go, those that waited first.
    Unlock,
    Acknowledge,
    /// The status and the position.
    Report,
    /// All new, and the plane zero.
    Reset,
}

/// What draws, or moves to draw.
#[derive(Clone, Copy)]
pub enum Drawing {
    Move { to: Point },
    Line { to: Point },
}

/// What happens in graphics input, or begins it.
#[derive(Clone, Copy)]
pub enum GinAction {
    Enter,
    /// A sequence is begun.
    Begin,
    /// A byte is lost, and a begun sequence too.
    Lose,
    Leave,
    /// The pointer's place.
    Report,
    /// A key, and the pointer's place behind it.
    Send(Stroke),
}

/// What becomes of a stroke outside graphics input.
#[derive(Clone, Copy)]
pub enum KeyAction {
    Hold(Stroke),
    Send(Stroke),
}

/// What is to be done, by families.
#[derive(Clone, Copy)]
pub enum Action {
    // A case and no Option around the others: all are told apart in one match.
    Nothing,
    Control(Control),
    Draw(Drawing),
    Gin(GinAction),
    Key(KeyAction),
    Aim(Place),
}

// ESC : with its parameters and its final byte.
fn draws(values: [i16; 8], last: u8) -> Action
    ensures { result ≡ drawing_of values last }
{
    let to = Point {
        x: values[0],
        y: values[1],
    };
    match last {
        b'm' => Action::Draw(Drawing::Move { to }),
        b'd' => Action::Draw(Drawing::Line { to }),
        _ => Action::Nothing,
    }
}

// ESC and one byte.
fn escape(last: u8) -> Action
    ensures { result ≡ escaped last }
{
    match last {
        5 => Action::Control(Control::Report),
        26 => Action::Gin(GinAction::Enter),
        b'c' => Action::Control(Control::Reset),
        _ => Action::Nothing,
    }
}

// A control, or DEL.
fn execute(byte: u8) -> Action
    ensures { result ≡ executed byte }
{
    match byte {
        3 => Action::Control(Control::Acknowledge),
        _ => Action::Nothing,
    }
}

impl Action {
    /// What a dispatch calls for; what no rule lists calls for nothing.
    pub fn of(dispatch: Dispatch) -> Action
        ensures { result ≡ called_for dispatch }
    {
        match dispatch {
            Dispatch::Execute { byte } => execute(byte),
            Dispatch::Escape { last } => escape(last),
            Dispatch::Sequence {
                introducer,
                values,
                last,
            } if introducer == Introducer::Colon => draws(values, last),
            _ => Action::Nothing,
        }
    }
}

//! The machine that takes the host's bytes: its state and one byte make the next state and a dispatch.
ghost use Rattle.std.specs.Prelude.{◌≡◌};
ghost use Rattle.parser.specs.declared.machine.State.TheVariants.{Ground};
ghost use Rattle.parser.specs.declared.machine.Dispatch.TheVariants.{Nothing};
ghost use Rattle.parser.specs.Machine.{parsed};
ghost use Rattle.parser.specs.Parameters.{fresh, stored};
ghost use Rattle.parser.specs.Restart.{Restarts, Ignores};

use crate::emulation::Emulation;
use crate::parameters::{Introducer, Parameters};

/// How far into a sequence the machine is.
#[derive(Clone, Copy, PartialEq, Eq, Debug)]
pub enum State {
    /// Outside a sequence.
    Ground,
    /// After ESC.
    Escape,
    /// After ESC and a byte 32 to 47.
    EscapeIntermediate { first: u8 },
    /// After ESC and `[` or `:`.
    Sequence { list: Parameters },
    /// After the VT52's ESC and `Y`.
    AddressRow,
    /// After that and the row.
    AddressColumn { row: u8 },
}

/// What a byte calls for, once it is parsed.
#[derive(Clone, Copy, PartialEq, Eq, Debug)]
pub enum Dispatch {
    // A case and no Option around the others: all are told apart in one match.
    Nothing,
    /// A byte 32 to 126 outside a sequence.
    Print {
        byte: u8,
    },
    /// A control or DEL.
    Execute {
        byte: u8,
    },
    /// ESC and one byte.
    Escape {
        last: u8,
    },
    /// ESC, a byte 32 to 47 and one more.
    Intermediate {
        first: u8,
        last: u8,
    },
    /// The VT52's direct cursor address, as it came.
    Address {
        row: u8,
        column: u8,
    },
    /// ESC and `[` or `:`, the parameters and the final byte.
    Sequence {
        introducer: Introducer,
        values: [i16; 8],
        last: u8,
    },
}

/// The host's bytes may stop anywhere: the state is all that is kept between two of them.
#[derive(Clone, Copy, PartialEq, Eq, Debug)]
pub struct Parser {
    state: State,
}

impl Parser {
    /// Outside a sequence; the two laws hold of every state that may follow.
    pub fn new() -> Parser
        ensures ground { result.state ≡ Ground }
        ensures restarts { Restarts }
        ensures ignores { Ignores }
    {
        Parser {
            state: State::Ground,
        }
    }

    /// Takes one byte: the state moves on in place, and the dispatch is what is now to be done.
    pub fn step(&mut self, emulation: Emulation, byte: u8) -> Dispatch
        ensures { (self.new.state, result) ≡ parsed emulation self.old.state byte }
    {
        match (&mut self.state, byte) {
            (_, 0 | 128..=255) => Dispatch::Nothing,
            (_, 27) => self.enter(State::Escape),
            (State::Ground, 32..=126) => Dispatch::Print { byte },
            (State::Escape, b'[') => self.begin(Introducer::Bracket),
            (State::Escape, b':') => self.begin(Introducer::Colon),
            (State::Escape, b'Y') if emulation == Emulation::Vt52 => self.enter(State::AddressRow),
            (State::Escape, 32..=47) => self.enter(State::EscapeIntermediate { first: byte }),
            (State::Escape, 48..=126 | 5 | 12 | 26) => self.finish(Dispatch::Escape { last: byte }),
            (&mut State::EscapeIntermediate { first }, 32..=126) => {
                self.finish(Dispatch::Intermediate { first, last: byte })
            }
            (State::AddressRow, 32..=126) => self.enter(State::AddressColumn { row: byte }),
            (&mut State::AddressColumn { row }, 32..=126) => {
                self.finish(Dispatch::Address { row, column: byte })
            }
            (State::Sequence { list }, b'0'..=b'9') => {
                list.digit(byte);
                Dispatch::Nothing
            }
            (State::Sequence { list }, b';') => {
                list.close();
                Dispatch::Nothing
            }
            (State::Sequence { list }, b'-') if list.may_negate() => {
                list.negate();
                Dispatch::Nothing
            }
            (State::Sequence { list }, b'?') if list.may_mark() => self.begin(Introducer::Private),
            (&mut State::Sequence { list }, 64..=126) => self.finish(whole(list, byte)),
            (_, 1..=31 | 127) => self.finish(Dispatch::Execute { byte }),
            (_, _) => self.finish(Dispatch::Nothing),
        }
    }

    /// The sequence goes on in the state.
    fn enter(&mut self, state: State) -> Dispatch
        ensures { (self.new.state ≡ state) × (result ≡ Nothing) }
    {
        self.state = state;
        Dispatch::Nothing
    }

    /// Parameters may follow.
    fn begin(&mut self, introducer: Introducer) -> Dispatch
        ensures { (self.new.state ≡ State.Sequence (fresh introducer)) × (result ≡ Nothing) }
    {
        let list = Parameters::new(introducer);
        self.enter(State::Sequence { list })
    }

    /// The sequence, if any, is over.
    fn finish(&mut self, dispatch: Dispatch) -> Dispatch
        ensures { (self.new.state ≡ Ground) × (result ≡ dispatch) }
    {
        self.state = State::Ground;
        dispatch
    }
}

/// The control sequence that the final byte ends.
fn whole(mut list: Parameters, last: u8) -> Dispatch
    ensures { result ≡ Dispatch.Sequence list.introducer (stored list) last }
{
    list.close();
    Dispatch::Sequence {
        introducer: list.introducer,
        values: list.values,
        last,
    }
}

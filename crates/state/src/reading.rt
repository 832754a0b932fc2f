//! A host byte, a stroke or a place read, before anything has changed.
ghost use Rattle.std.specs.Prelude.{◌≡◌};
ghost use Rattle.state.specs.Reading.{read as read_by, in_gin, struck};

use crate::action::{Action, Control, GinAction, KeyAction};
use crate::terminal::{Gin, Terminal};
use keyboard::stroke::Stroke;
use parser::machine::Parser;

/// What is called for, and the parser as it stands after it.
#[derive(Clone, Copy)]
pub struct Reading {
    pub parser: Parser,
    pub action: Action,
}

// What a byte does in graphics input. `begun` says whether ESC came last: a Gin in its place would bring a case that never comes.
fn gin_action(begun: bool, byte: u8) -> GinAction
    ensures { result ≡ in_gin begun byte }
{
    match byte {
        27 => GinAction::Begin,
        13 | 31 => GinAction::Leave,
        5 if begun => GinAction::Report,
        _ => GinAction::Lose,
    }
}

impl Terminal {
    /// Reads a host byte on a copy of the parser.
    pub fn read(&self, byte: u8) -> Reading
        ensures { result ≡ read_by self.now byte }
    {
        let mut parser = self.parser;
        let action = match (self.gin, byte) {
            // These pass by whatever is begun.
            (_, 0 | 128..=255) => Action::Nothing,
            (_, 17) => Action::Control(Control::Unlock),
            (_, 19) => Action::Control(Control::Lock),
            (Gin::Off, _) => {
                let dispatch = parser.step(self.emulation, byte);
                Action::of(dispatch)
            }
            (Gin::On, _) => Action::Gin(gin_action(false, byte)),
            (Gin::AfterEscape, _) => Action::Gin(gin_action(true, byte)),
        };
        Reading { parser, action }
    }

    /// What a stroke calls for; the parser is left alone.
    pub fn strike(&self, stroke: Stroke) -> Reading
        ensures { result ≡ struck self.now stroke }
    {
        let action = match self.gin {
            Gin::Off if self.locked => Action::Key(KeyAction::Hold(stroke)),
            Gin::Off => Action::Key(KeyAction::Send(stroke)),
            Gin::On | Gin::AfterEscape => Action::Gin(GinAction::Send(stroke)),
        };
        Reading {
            parser: self.parser,
            action,
        }
    }
}

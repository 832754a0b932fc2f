//! A stroke of a key, and the number that stands for it.
ghost use Rattle.std.specs.Prelude.{◌≡◌, ◌≤◌, Some};
ghost use Rattle.keyboard.specs.Stroke.{Numbers, Decodes};

use crate::key::{Direction, FunctionKey, Key, KeypadKey};
use refusal::Refusal;

#[derive(Clone, Copy, PartialEq, Eq, Debug)]
pub struct Stroke {
    pub key: Key,
}

impl Stroke {
    /// What stands in a place before a stroke does.
    pub const BLANK: Stroke = Stroke {
        key: Key::Byte { code: 0 },
    };
}

/// 0 to 127 for a byte, 128 to 131 for an arrow, 132 to 145 for the keypad, 146 to 149 for PF1 to PF4.
impl From<Stroke> for u8 {
    ghost from_gives = { Numbers };

    fn from(stroke: Stroke) -> u8 {
        match stroke.key {
            Key::Byte { code } => code % 128,
            Key::Arrow { direction } => 128 + direction as u8,
            Key::Keypad { key } => 132 + key as u8,
            Key::Function { key } => 146 + key as u8,
        }
    }
}

/// The stroke that has the number, if any has.
impl TryFrom<u8> for Stroke {
    type Error = Refusal;

    ghost try_from_gives = { Decodes };

    fn try_from(number: u8) -> Result<Stroke, Refusal> {
        let key = match number {
            0..=127 => Key::Byte { code: number },
            128..=131 => Key::Arrow {
                direction: Direction::ALL[usize::from(number - 128)],
            },
            132..=145 => Key::Keypad {
                key: KeypadKey::ALL[usize::from(number - 132)],
            },
            146..=149 => Key::Function {
                key: FunctionKey::ALL[usize::from(number - 146)],
            },
            _ => return Err(Refusal::Key),
        };
        Ok(Stroke { key })
    }
}

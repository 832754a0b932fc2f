//! The bytes that a stroke sends.
ghost use Rattle.std.specs.Prelude.{◌≡◌, ◌≤◌, [], ◌∷◌, length};
ghost use Rattle.parser.specs.declared.emulation.Emulation.TheVariants.{Vt52};
ghost use Rattle.keyboard.specs.Codes.{bytes_of, codes_of, Short};
ghost use Rattle.keyboard.specs.Stroke.{stroke_of};
ghost use Rattle.keyboard.specs.declared.key.Key.TheVariants.{Arrow};
ghost use Rattle.keyboard.specs.declared.key.Direction.TheVariants.{Up};

use crate::key::Key;
use crate::modes::KeyModes;
use crate::stroke::Stroke;
use parser::emulation::Emulation;

const ESC: u8 = 27;

/// One to three bytes, in the order in which they are sent.
// No ArrayVec, which is never Copy: whoever was given these bytes may copy them.
#[derive(Clone, Copy, PartialEq, Eq, Debug)]
pub struct Codes {
    bytes: [u8; 3],
    count: u8,
}

impl Codes {
    /// The bytes themselves, without the places behind them.
    pub fn as_slice(&self) -> &[u8]
        ensures bytes { result.now ≡ bytes_of self.now }
        ensures short { length result.now ≤ 3 }
    {
        &self.bytes[..usize::from(self.count.min(3))]
    }
}

// These bytes.
fn sent(bytes: &[u8]) -> Codes
    requires { length bytes.now ≤ 3 }
    ensures { bytes_of result ≡ bytes.now }
{
    let mut places = [0; 3];
    places[..bytes.len()].copy_from_slice(bytes);
    Codes {
        bytes: places,
        count: bytes.len() as u8,
    }
}

impl Stroke {
    /// The bytes of the stroke in the emulation and the modes: a character, or a letter behind its prefix.
    pub fn codes(self, emulation: Emulation, modes: KeyModes) -> Codes
        ensures bytes { bytes_of result ≡ codes_of self emulation modes }
        ensures short { Short }
        ensures worked { codes_of (stroke_of (Arrow Up)) Vt52 modes ≡ 27 ∷ 65 ∷ [] }
    {
        let vt52 = emulation == Emulation::Vt52;
        match self.key {
            Key::Byte { code } => sent(&[code % 128]),
            Key::Arrow { direction } if vt52 => sent(&[ESC, direction.letter()]),
            Key::Arrow { direction } if modes.cursor_keys => sent(&[ESC, b'O', direction.letter()]),
            Key::Arrow { direction } => sent(&[ESC, b'[', direction.letter()]),
            Key::Keypad { key } if !modes.keypad_application => sent(&[key.engraved()]),
            Key::Keypad { key } if vt52 => sent(&[ESC, b'?', key.letter()]),
            Key::Keypad { key } => sent(&[ESC, b'O', key.letter()]),
            Key::Function { key } if vt52 => sent(&[ESC, key.letter()]),
            Key::Function { key } => sent(&[ESC, b'O', key.letter()]),
        }
    }
}

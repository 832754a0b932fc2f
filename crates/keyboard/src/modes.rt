//! The modes that change what a key sends.

#[derive(Clone, Copy, PartialEq, Eq, Debug)]
pub struct KeyModes {
    /// Set, an arrow sends ESC `O` and its letter; reset, ESC `[` and its letter.
    pub cursor_keys: bool,
    /// Set, the keypad sends sequences; reset, the characters engraved.
    pub keypad_application: bool,
}

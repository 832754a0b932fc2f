//! The keys by group, and the letter that ends the sequence of each.
ghost use Rattle.std.specs.Prelude.{◌≡◌};
ghost use Rattle.keyboard.specs.Key.{arrow_letter, keypad_letter, engraved, function_letter};

/// An arrow. Each group's keys stand in the order of their numbers.
#[derive(Clone, Copy, PartialEq, Eq, Debug)]
pub enum Direction {
    Up,
    Down,
    Right,
    Left,
}

#[derive(Clone, Copy, PartialEq, Eq, Debug)]
pub enum KeypadKey {
    Zero,
    One,
    Two,
    Three,
    Four,
    Five,
    Six,
    Seven,
    Eight,
    Nine,
    Minus,
    Comma,
    Period,
    Enter,
}

#[derive(Clone, Copy, PartialEq, Eq, Debug)]
pub enum FunctionKey {
    Pf1,
    Pf2,
    Pf3,
    Pf4,
}

#[derive(Clone, Copy, PartialEq, Eq, Debug)]
pub enum Key {
    /// A key that sends one byte: the low seven bits of the code, whatever the eighth is.
    Byte { code: u8 },
    Arrow { direction: Direction },
    Keypad { key: KeypadKey },
    Function { key: FunctionKey },
}

impl Direction {
    pub(crate) const ALL: [Direction; 4] = [
        Direction::Up,
        Direction::Down,
        Direction::Right,
        Direction::Left,
    ];

    // By group: a cast names its enum, so a trait would want a place from each impl and be longer.
    pub(crate) fn letter(self) -> u8
        ensures { result ≡ arrow_letter self }
    {
        b'A' + self as u8
    }
}

impl KeypadKey {
    pub(crate) const ALL: [KeypadKey; 14] = [
        KeypadKey::Zero,
        KeypadKey::One,
        KeypadKey::Two,
        KeypadKey::Three,
        KeypadKey::Four,
        KeypadKey::Five,
        KeypadKey::Six,
        KeypadKey::Seven,
        KeypadKey::Eight,
        KeypadKey::Nine,
        KeypadKey::Minus,
        KeypadKey::Comma,
        KeypadKey::Period,
        KeypadKey::Enter,
    ];

    /// The character engraved, and CR for ENTER.
    pub(crate) fn engraved(self) -> u8
        ensures { result ≡ engraved self }
    {
        match self {
            KeypadKey::Minus => b'-',
            KeypadKey::Comma => b',',
            KeypadKey::Period => b'.',
            KeypadKey::Enter => b'\r',
            digit => b'0' + digit as u8,
        }
    }

    /// The letter stands 64 codes above the character engraved.
    pub(crate) fn letter(self) -> u8
        ensures { result ≡ keypad_letter self }
    {
        self.engraved() + 64
    }
}

impl FunctionKey {
    pub(crate) const ALL: [FunctionKey; 4] = [
        FunctionKey::Pf1,
        FunctionKey::Pf2,
        FunctionKey::Pf3,
        FunctionKey::Pf4,
    ];

    pub(crate) fn letter(self) -> u8
        ensures { result ≡ function_letter self }
    {
        b'P' + self as u8
    }
}

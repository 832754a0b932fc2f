//! The parameters of a control sequence, as far as they are read.
ghost use Rattle.std.specs.Prelude.{◌≡◌, ◌≤◌, Some};
ghost use Rattle.parser.specs.Parameters.{fresh, extended, value_of, current, grown, negated, closed, may_negate, may_mark};

/// What a control sequence begins with.
#[derive(Clone, Copy, PartialEq, Eq, Debug)]
pub enum Introducer {
    /// ESC and `[`.
    Bracket,
    /// ESC, `[` and `?`.
    Private,
    /// ESC and `:`.
    Colon,
}

/// The parameter that is read, of which a sign or a digit has come.
// A u16, cut where it is used: with the bound as a ghost field each definition of one would hold a proof.
#[derive(Clone, Copy, PartialEq, Eq, Debug)]
pub struct Parameter {
    pub negative: bool,
    pub magnitude: u16,
}

/// The parameters that are whole, and the one that is being read.
#[derive(Clone, Copy, PartialEq, Eq, Debug)]
pub struct Parameters {
    pub introducer: Introducer,
    /// How many are whole, up to 8.
    // Before the values, so that no gap lies between the fields: these bytes are copied for each host byte.
    pub index: u8,
    /// The whole ones; 0 where none is given.
    // Beside a length: the terminal reads a byte on a copy of the parser, and no ArrayVec is Copy.
    pub values: [i16; 8],
    /// None before the parameter's first sign or digit.
    pub reading: Option<Parameter>,
}

impl Parameter {
    /// Before a sign or a digit.
    const BLANK: Parameter = Parameter {
        negative: false,
        magnitude: 0,
    };

    /// The digit joins the magnitude, which stops at 4,095.
    fn extended(self, digit: u8) -> Parameter
        ensures { result ≡ extended self digit }
    {
        let magnitude = self.magnitude.saturating_mul(10);
        Parameter {
            magnitude: magnitude.saturating_add(u16::from(digit)).min(4095),
            ..self
        }
    }

    fn value(self) -> i16
        ensures { result ≡ value_of self }
    {
        let magnitude = self.magnitude.min(4095) as i16;
        if self.negative { -magnitude } else { magnitude }
    }
}

impl Parameters {
    pub(crate) fn new(introducer: Introducer) -> Parameters
        ensures { result ≡ fresh introducer }
    {
        Parameters {
            introducer,
            values: [0; 8],
            index: 0,
            reading: None,
        }
    }

    /// A digit joins the parameter.
    pub(crate) fn digit(&mut self, byte: u8)
        requires { (48 ≤ byte) × (byte ≤ 57) }
        ensures { self.new ≡ grown self.old byte }
    {
        self.reading = Some(self.current().extended(byte - b'0'));
    }

    /// A sign begins the parameter.
    pub(crate) fn negate(&mut self)
        ensures { self.new ≡ negated self.old }
    {
        self.reading = Some(Parameter {
            negative: true,
            ..self.current()
        });
    }

    /// The parameter is whole: it is kept, unless eight are.
    pub(crate) fn close(&mut self)
        ensures { self.new ≡ closed self.old }
    {
        if self.index < 8 {
            self.values[usize::from(self.index)] = self.current().value();
            self.index += 1;
        }
        self.reading = None;
    }

    /// What is read of the parameter.
    fn current(&self) -> Parameter
        ensures { result ≡ current self.now }
    {
        self.reading.unwrap_or(Parameter::BLANK)
    }

    /// A sign stands first in a parameter, and only after ESC and `:`.
    pub(crate) fn may_negate(&self) -> bool
        ensures { result ≡ may_negate self.now }
    {
        self.introducer == Introducer::Colon && self.reading.is_none()
    }

    /// The mark of a private sequence stands directly after ESC and `[`.
    pub(crate) fn may_mark(&self) -> bool
        ensures { result ≡ may_mark self.now }
    {
        self.introducer == Introducer::Bracket && self.index == 0 && self.reading.is_none()
    }
}

ghost use Rattle.std.specs.Prelude.{◌≡◌, ◌&&◌};
ghost use Rattle.std.specs.Char.{is_ascii_digit};
ghost use Rattle.decimal_json.specs.Automaton.{next, repeats, is_whole, needed, integer_from, exponent_from};
ghost use Rattle.decimal_json.specs.Automaton.{fraction_from, digit_of};

/// What the bytes of a number so far end with. Source: RFC 8259 §6.
#[derive(Clone, Copy)]
pub(crate) enum Phase {
    /// Nothing yet.
    Start,
    /// The minus before the integer.
    Minus,
    /// An integer that is one zero.
    Zero,
    /// An integer that begins with another digit.
    Digits,
    /// The decimal point.
    Point,
    /// Digits after the point.
    Fraction,
    /// The letter of the exponent.
    Letter,
    /// The sign of the exponent.
    Sign,
    /// Digits of the exponent.
    Exponent,
}

impl Phase {
    /// Whether each digit leads from the phase to itself.
    pub(crate) fn repeats(self) -> bool
        ensures { result ≡ repeats self }
    {
        matches!(self, Phase::Digits | Phase::Fraction | Phase::Exponent)
    }

    /// Whether the byte is a digit that leads from the phase to itself.
    pub(crate) fn stays(self, byte: u8) -> bool
        ensures { result ≡ (repeats self && is_ascii_digit byte) }
    {
        self.repeats() && byte.is_ascii_digit()
    }

    /// Where this byte leads, or `None` where no number goes on by it.
    #[tactic(auto, using(crate::proofs::Digits::digit_stays))]
    pub(crate) fn next(self, byte: u8) -> Option<Phase>
        ensures { result ≡ next self byte }
    {
        if self.stays(byte) {
            return Some(self);
        }
        match self {
            Phase::Start if byte == b'-' => Some(Phase::Minus),
            Phase::Start | Phase::Minus => integer_from(byte),
            Phase::Zero | Phase::Digits => fraction_from(byte),
            Phase::Point => digit_of(Phase::Fraction, byte),
            Phase::Fraction => exponent_from(byte),
            Phase::Letter if byte == b'-' || byte == b'+' => Some(Phase::Sign),
            Phase::Letter | Phase::Sign | Phase::Exponent => digit_of(Phase::Exponent, byte),
        }
    }

    /// Whether a number may end here.
    pub(crate) fn is_whole(self) -> bool
        ensures { result ≡ is_whole self }
    {
        matches!(
            self,
            Phase::Zero | Phase::Digits | Phase::Fraction | Phase::Exponent
        )
    }

    /// How many bytes at least are still to come.
    pub(crate) fn needed(self) -> usize
        ensures { result ≡ needed self }
    {
        if self.is_whole() { 0 } else { 1 }
    }
}

fn integer_from(byte: u8) -> Option<Phase>
    ensures { result ≡ integer_from byte }
{
    match byte {
        b'0' => Some(Phase::Zero),
        _ => digit_of(Phase::Digits, byte),
    }
}

fn fraction_from(byte: u8) -> Option<Phase>
    ensures { result ≡ fraction_from byte }
{
    match byte {
        b'.' => Some(Phase::Point),
        _ => exponent_from(byte),
    }
}

fn exponent_from(byte: u8) -> Option<Phase>
    ensures { result ≡ exponent_from byte }
{
    match byte {
        b'e' | b'E' => Some(Phase::Letter),
        _ => None,
    }
}

fn digit_of(part: Phase, byte: u8) -> Option<Phase>
    ensures { result ≡ digit_of part byte }
{
    if byte.is_ascii_digit() {
        Some(part)
    } else {
        None
    }
}

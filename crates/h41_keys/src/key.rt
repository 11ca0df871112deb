//! The keys of the keyboard.
use h41_codes::Character;

/// The keys, row by row, in the order of the enum.
const KEYS: [Key; 39] = [
    Key::On,
    Key::User,
    Key::Program,
    Key::Alpha,
    Key::SigmaPlus,
    Key::Reciprocal,
    Key::SquareRoot,
    Key::CommonLogarithm,
    Key::NaturalLogarithm,
    Key::ExchangeXY,
    Key::RollDown,
    Key::Sine,
    Key::Cosine,
    Key::Tangent,
    Key::Shift,
    Key::Execute,
    Key::Store,
    Key::Recall,
    Key::SingleStep,
    Key::Enter,
    Key::ChangeSign,
    Key::EnterExponent,
    Key::Back,
    Key::Minus,
    Key::Seven,
    Key::Eight,
    Key::Nine,
    Key::Plus,
    Key::Four,
    Key::Five,
    Key::Six,
    Key::Times,
    Key::One,
    Key::Two,
    Key::Three,
    Key::Divide,
    Key::Zero,
    Key::Point,
    Key::RunStop,
];

/// The names of the keys in the order of the enum, as decks spell the text that is printed on the keys.
static KEY_NAMES: [&str; 39] = [
    "ON", "USER", "PRGM", "ALPHA", "SIGMA+", "1/X", "SQRT", "LOG", "LN", "X<>Y", "RDN", "SIN",
    "COS", "TAN", "SHIFT", "XEQ", "STO", "RCL", "SST", "ENTER", "CHS", "EEX", "BACK", "-", "7",
    "8", "9", "+", "4", "5", "6", "*", "1", "2", "3", "/", "0", ".", "R/S",
];

/// The codes of the keys in the order of the enum: a hexadecimal digit for the row and one for the column, as microcode
/// reads them.
static KEY_CODES: [u8; 39] = [
    0x01, 0x02, 0x03, 0x04, 0x11, 0x12, 0x13, 0x14, 0x15, 0x21, 0x22, 0x23, 0x24, 0x25, 0x31, 0x32,
    0x33, 0x34, 0x35, 0x41, 0x42, 0x43, 0x44, 0x51, 0x52, 0x53, 0x54, 0x61, 0x62, 0x63, 0x64, 0x71,
    0x72, 0x73, 0x74, 0x81, 0x82, 0x83, 0x84,
];

/// A key, named after the text that is printed on it. Each comment has its name in decks.
#[derive(Clone, Copy, Debug, PartialEq, Eq)]
pub enum Key {
    /// `ON`, at row 0, column 1. The bench does not support this key.
    On,
    /// `USER`, at row 0, column 2. The bench does not support this key.
    User,
    /// `PRGM`, at row 0, column 3.
    Program,
    /// `ALPHA`, at row 0, column 4.
    Alpha,
    /// `SIGMA+`, at row 1, column 1.
    SigmaPlus,
    /// `1/X`, at row 1, column 2.
    Reciprocal,
    /// `SQRT`, at row 1, column 3.
    SquareRoot,
    /// `LOG`, at row 1, column 4.
    CommonLogarithm,
    /// `LN`, at row 1, column 5.
    NaturalLogarithm,
    /// `X<>Y`, at row 2, column 1.
    ExchangeXY,
    /// `RDN`, at row 2, column 2.
    RollDown,
    /// `SIN`, at row 2, column 3.
    Sine,
    /// `COS`, at row 2, column 4.
    Cosine,
    /// `TAN`, at row 2, column 5.
    Tangent,
    /// `SHIFT`, at row 3, column 1.
    Shift,
    /// `XEQ`, at row 3, column 2.
    Execute,
    /// `STO`, at row 3, column 3.
    Store,
    /// `RCL`, at row 3, column 4.
    Recall,
    /// `SST`, at row 3, column 5.
    SingleStep,
    /// `ENTER`, at row 4, column 1.
    Enter,
    /// `CHS`, at row 4, column 2.
    ChangeSign,
    /// `EEX`, at row 4, column 3.
    EnterExponent,
    /// `BACK`, at row 4, column 4.
    Back,
    /// `-`, at row 5, column 1.
    Minus,
    /// `7`, at row 5, column 2.
    Seven,
    /// `8`, at row 5, column 3.
    Eight,
    /// `9`, at row 5, column 4.
    Nine,
    /// `+`, at row 6, column 1.
    Plus,
    /// `4`, at row 6, column 2.
    Four,
    /// `5`, at row 6, column 3.
    Five,
    /// `6`, at row 6, column 4.
    Six,
    /// `*`, at row 7, column 1.
    Times,
    /// `1`, at row 7, column 2.
    One,
    /// `2`, at row 7, column 3.
    Two,
    /// `3`, at row 7, column 4.
    Three,
    /// `/`, at row 8, column 1.
    Divide,
    /// `0`, at row 8, column 2.
    Zero,
    /// `.`, at row 8, column 3.
    Point,
    /// `R/S`, at row 8, column 4.
    RunStop,
}

impl Key {
    ghost use Rattle.std.specs.Prelude.{◌≡◌};
    ghost use Rattle.h41_keys.specs.Keyboard.{code_of, first_named, key_named, name_of};

    /// Returns the key with a name, such as `XEQ`, exactly as decks spell it, or `None` if there is none.
    pub fn named(name: &[u8]) -> Option<Key>
        ensures { result ≡ key_named name.now }
    {
        Self::first_named(&KEYS, name)
    }

    /// Returns the first key of a list that has a name, or `None` if there is none.
    fn first_named(keys: &[Key], name: &[u8]) -> Option<Key>
        ensures { result ≡ first_named keys.now name.now }
    {
        for key in keys {
            if key.name().as_bytes() == name {
                return Some(*key);
            }
        }
        None
    }

    /// Returns the name of the key, as decks spell the text that is printed on it.
    pub fn name(self) -> &'static str
        ensures { result.now ≡ name_of self }
    {
        KEY_NAMES[self as usize]
    }

    /// Returns the code of the key, which microcode reads: a hexadecimal digit for the key's row, 0 to 8, and one for
    /// its column, 1 to 5.
    pub fn code(self) -> u8
        ensures { result ≡ code_of self }
    {
        KEY_CODES[self as usize]
    }
}

/// A decimal digit that a digit key types.
#[derive(Clone, Copy, Debug, PartialEq, Eq)]
pub enum Digit {
    /// `0`, as the key with this digit types it.
    Zero,
    /// `1`, as the key with this digit types it.
    One,
    /// `2`, as the key with this digit types it.
    Two,
    /// `3`, as the key with this digit types it.
    Three,
    /// `4`, as the key with this digit types it.
    Four,
    /// `5`, as the key with this digit types it.
    Five,
    /// `6`, as the key with this digit types it.
    Six,
    /// `7`, as the key with this digit types it.
    Seven,
    /// `8`, as the key with this digit types it.
    Eight,
    /// `9`, as the key with this digit types it.
    Nine,
}

/// The characters of the decimal digits 0 to 9, in this order.
static DIGIT_TEXTS: [&str; 10] = ["0", "1", "2", "3", "4", "5", "6", "7", "8", "9"];

impl Digit {
    ghost use Rattle.std.specs.Prelude.{◌≡◌, ◌<◌, ◌+◌, ◌∷◌, []};
    ghost use Rattle.h41_keys.specs.NumberTyping.{character_of, value_of};

    /// Returns the value of the digit, 0 to 9.
    pub fn value(self) -> u8
        ensures value { result ≡ value_of self }
        ensures bound { result < 10 }
    {
        self as u8
    }

    /// Returns the decimal digit as a text of one character, `0` to `9`.
    pub(crate) fn text(self) -> &'static str
        ensures { result.now ≡ (0x30 + value_of self) ∷ [] }
    {
        DIGIT_TEXTS[self as usize]
    }

    /// Returns the decimal digit as a character of a number entry.
    pub fn character(self) -> Character
        ensures { result ≡ character_of self }
    {
        match self {
            Digit::Zero => Character::Zero,
            Digit::One => Character::One,
            Digit::Two => Character::Two,
            Digit::Three => Character::Three,
            Digit::Four => Character::Four,
            Digit::Five => Character::Five,
            Digit::Six => Character::Six,
            Digit::Seven => Character::Seven,
            Digit::Eight => Character::Eight,
            Digit::Nine => Character::Nine,
        }
    }
}

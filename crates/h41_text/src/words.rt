//! The leading words of program lines, such as `STO` and `GTO`, which precede operands.
ghost use Rattle.std.specs.Prelude.{◌≡◌, ◌≤◌, length};
ghost use Rattle.h41_text.specs.private.Places.{IsPlaced};
ghost use Rattle.h41_text.specs.private.TextParts.{word_of, word_text, with_text};

use crate::names::{branch_name, name_function_name, parameter_function_name, parameter_functions};
use crate::places::{WORD_PLACES, name_hash};
use h41_codes::{Branch, NameFunction, ParameterFunction};

/// The word at the start of a program line with an operand, such as `STO` in `STO 01`.
#[derive(Clone, Copy)]
pub(crate) enum LeadingWord {
    /// A function with a parameter, such as `STO`.
    Function(ParameterFunction),
    /// `GTO` or `XEQ`.
    Branch(Branch),
    /// `W`, which only precedes a name in quotes.
    Wordless,
    /// `XROM`, which precedes the numbers of a module and of its function.
    Module,
}

/// Generates the array of all leading words: `GTO`, `XEQ`, `W`, `XROM`, and the functions with a parameter from their
/// list.
macro_rules! all_words {
    (() $kind:ident $($name:ident => $text:literal,)*) => {
        [
            LeadingWord::Branch(Branch::GoTo),
            LeadingWord::Branch(Branch::Execute),
            LeadingWord::Wordless,
            LeadingWord::Module,
            $(LeadingWord::Function($kind::$name),)*
        ]
    };
}

/// All leading words of program lines, in the order in which `all_words!` lists them.
static WORDS: [LeadingWord; 28] = parameter_functions!(all_words());

impl LeadingWord {
    /// Returns the leading word with this name, for example `STO`, or `None` if there is none.
    pub(crate) fn named(name: &[u8]) -> Option<LeadingWord>
        ensures { result ≡ word_of name.now }
    {
        word_among(&WORDS, &WORD_PLACES, name)
    }

    /// Returns the name of a leading word, for example `STO`.
    fn name(self) -> &'static str
        ensures { result.now ≡ word_text self }
    {
        match self {
            LeadingWord::Function(function) => parameter_function_name(function),
            LeadingWord::Branch(branch) => branch_name(branch),
            LeadingWord::Wordless => name_function_name(NameFunction::Wordless),
            LeadingWord::Module => "XROM",
        }
    }
}

/// Returns the leading word in `words` that has this name, or `None` if there is none. `places` contains, at the index
/// of a name's hash, the index of the word in `words`.
fn word_among(words: &[LeadingWord], places: &[u8], name: &[u8]) -> Option<LeadingWord>
    requires { IsPlaced word_text words.now places.now }
    ensures { result ≡ with_text word_text words.now name.now }
{
    let word = words[usize::from(places[usize::from(name_hash(name))])];
    if word.name().as_bytes() == name {
        Some(word)
    } else {
        None
    }
}

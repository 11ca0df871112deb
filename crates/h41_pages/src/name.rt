//! The name of a function of a plug-in module.

ghost use Rattle.std.specs.Prelude.{◌≡◌, ◌<◌, ◌≤◌, ◌++◌, [], ◌∷◌, length, bytes_eq};

use arrayvec::ArrayVec;
use std::marker::Model;

/// The greatest number of characters, 14, of a function's name. The name of a keystroke function is that of its global
/// label, which can have 14 characters.
pub const NAME_LENGTH: usize = 14;

/// The name of a function. For microcode it has 1 to 11 characters from 20 to 5F; for a keystroke function it is that
/// of its global label, with up to 14 characters of any kind.
#[derive(Debug, Drop)]
pub struct Name {
    characters: ArrayVec<u8, NAME_LENGTH>,
}

impl Model for Name {
    ghost use Rattle.std.specs.Prelude.{ℕ, List};

    ghost Value = { List ℕ };

    ghost view = { λ name. name.characters.items };
}

impl Name {
    /// Returns a function name without characters, to which `push` appends.
    pub(crate) fn new() -> Self
        ensures { result ≡ [] }
    {
        Name {
            characters: ArrayVec::new(),
        }
    }

    /// Appends a character to the name, which must have fewer than 14.
    pub(crate) fn push(&mut self, character: u8)
        requires { length self.old < NAME_LENGTH }
        ensures { self.new ≡ self.old ++ character ∷ [] }
    {
        self.characters.push(character);
    }

    /// Returns the function name with these characters, at most 14.
    pub(crate) fn of(characters: &[u8]) -> Self
        requires { length characters.now ≤ NAME_LENGTH }
        ensures { result ≡ characters.now }
    {
        let mut name = Name::new();
        for character in characters {
            name.push(*character);
        }
        name
    }

    /// Returns the characters of the function name, one byte each.
    pub fn as_bytes(&self) -> &[u8]
        ensures { result.now ≡ self.now }
    {
        self.characters.as_slice()
    }

    /// Returns whether the name consists of exactly these characters, one byte each.
    pub(crate) fn is(&self, characters: &[u8]) -> bool
        ensures { result ≡ bytes_eq self.now characters.now }
    {
        self.as_bytes() == characters
    }
}

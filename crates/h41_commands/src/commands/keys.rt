//! The keys that a `key` command presses.

ghost use Rattle.std.specs.Prelude.{◌≡◌, ◌<◌, ◌++◌, [], ◌∷◌, length};
ghost use Rattle.h41_commands.specs.DeckLines.{key_room};

use h41_keys::Key;
use std::marker::Model;

/// The number of keys for which a `KeyBuffer` has room: 100, because a line of 200 bytes has no more words.
const KEY_ROOM: usize = 100;

/// Room for the keys of one `key` command. A command borrows its keys from it, and each command can use the same room
/// again, so that a command is small.
#[derive(Debug, Drop)]
pub struct KeyBuffer {
    cells: [Key; KEY_ROOM],
    count: usize,
}

impl Model for KeyBuffer {
    ghost use Rattle.std.specs.Prelude.{List, take, ◌≤◌};
    ghost use Rattle.h41_commands.specs.DeckLines.{key_room};
    ghost use Rattle.h41_keys.specs.declared.key.Key.{Key as AnyKey};

    ghost Value = { List AnyKey };

    ghost view = { λ keys. take keys.count keys.cells };

    ghost invariant = { λ keys. keys.count ≤ key_room };
}

impl KeyBuffer {
    /// Returns room without keys.
    pub fn new() -> Self
        ensures { result ≡ [] }
    {
        KeyBuffer {
            cells: [Key::On; KEY_ROOM],
            count: 0,
        }
    }

    /// Removes all keys.
    pub(crate) fn clear(&mut self)
        ensures { self.new ≡ [] }
    {
        self.count = 0;
    }

    /// Appends a key. There must be fewer than 100.
    pub(crate) fn push(&mut self, key: Key)
        requires { length self.old < key_room }
        ensures { self.new ≡ self.old ++ key ∷ [] }
    {
        self.cells[self.count] = key;
        self.count += 1;
    }

    /// Returns the keys, in the order in which they were appended.
    pub(crate) fn pressed(&self) -> PressedKeys<'_>
        ensures { result ≡ self.now }
    {
        PressedKeys {
            keys: &self.cells[..self.count],
        }
    }
}

/// The keys that one `key` command presses, in their order.
#[derive(Debug, Drop)]
pub struct PressedKeys<'a> {
    keys: &'a [Key],
}

impl<'a> Model for PressedKeys<'a> {
    ghost use Rattle.std.specs.Prelude.{List};
    ghost use Rattle.h41_keys.specs.declared.key.Key.{Key as AnyKey};

    ghost Value = { List AnyKey };

    ghost view = { λ pressed. pressed.keys.now };
}

impl<'a> PressedKeys<'a> {
    /// Returns the keys of a `key` command in their order.
    pub fn as_slice(&self) -> &[Key]
        ensures { result.now ≡ self.now }
    {
        self.keys
    }
}

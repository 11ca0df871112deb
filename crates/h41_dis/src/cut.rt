//! Separates a sequence of the HP-41's words into instructions of one or two words.

ghost use Rattle.std.specs.Iterator.{YieldsFirst, item_count};
ghost use Rattle.std.specs.Prelude.{◌≡◌};

use h41_words::{Word, length};

/// An instruction of the HP-41's processor as one or two words: its first word, and its second word if it has two.
#[derive(Clone, Copy)]
pub struct Piece {
    /// The first word of the instruction.
    pub first: Word,
    /// The second word, if the instruction has two and the words do not end before it.
    pub second: Option<Word>,
}

impl Piece {
    ghost use Rattle.h41_dis.specs.Spelling.{piece_length};

    /// Returns the number of words of the instruction, 1 or 2. It is 1 if the instruction has two words, but the words
    /// end before the second.
    pub fn length(&self) -> u16
        ensures { result ≡ piece_length self.now }
    {
        match self.second {
            Some(_) => 2,
            None => 1,
        }
    }
}

/// An iterator over the instructions in a sequence of words, in order. If the words end before the second word of the
/// last instruction, this instruction is returned with its first word only.
#[derive(Drop)]
pub struct Pieces<'a> {
    /// The words that are not read yet, from the next instruction on.
    pub rest: &'a [Word],
}

impl<'a> Pieces<'a> {
    /// Returns an iterator over all instructions in `words`, in order. The first instruction begins at `words[0]`.
    pub fn new(words: &'a [Word]) -> Self
        ensures { result.rest.now ≡ words.now }
    {
        Pieces { rest: words }
    }
}

impl<'a> Iterator for Pieces<'a> {
    ghost use Rattle.h41_dis.specs.Spelling.{pieces};

    type Item = Piece;

    ghost next_gives = { YieldsFirst (λ s. pieces s.rest.now) };

    ghost remaining = { item_count (λ s. pieces s.rest.now) };

    fn next(&mut self) -> Option<Piece> {
        let (first, behind) = self.rest.split_first()?;
        self.rest = behind;
        let mut piece = Piece {
            first: *first,
            second: None,
        };
        if length(*first) == 2 {
            if let Some((second, behind)) = behind.split_first() {
                self.rest = behind;
                piece.second = Some(*second);
            }
        }
        Some(piece)
    }
}

//! Laws of decks. Each law is the contract of a function whose body only calls the laws that it depends on.

ghost use Rattle.h41_deck.specs.Deck.{DeckDeterminesOutcome, DeckDeterminesText, FirstTextIsFront};
ghost use Rattle.h41_deck.specs.Deck.{EndedTextIsDetermined};
ghost use Rattle.h41_deck.specs.MemoryLaws.{MemoryIsNeeded};

use h41_commands::laws::blocks_are_determined;
use h41_debug::laws::{
    presses_are_determined, runs_are_determined, steps_are_determined, traces_are_determined,
};
use h41_program::laws::lists_are_determined;
use h41_xrom::laws::{display_is_determined, load_is_determined};

/// States that a deck determines the text that it prints, and whether this contains a refusal; that the bytes which
/// were read determine the text of the commands whose last line end is in them; and that the replies to the first
/// commands of a deck are a prefix of its text.
pub fn deck_is_determined()
    ensures text { DeckDeterminesText }
    ensures ended { EndedTextIsDetermined }
    ensures outcome { DeckDeterminesOutcome }
    ensures front { FirstTextIsFront }
{
    steps_are_determined();
    load_is_determined();
    blocks_are_determined();
    lists_are_determined();
    presses_are_determined();
    runs_are_determined();
    traces_are_determined();
    display_is_determined();
}

/// States that `OutOfMemory` (21) is reported before any byte of a deck is read, or not at all, if no command of the deck allocates
/// memory and none of its lines opens a block.
pub fn memory_is_needed()
    ensures { MemoryIsNeeded }
{}

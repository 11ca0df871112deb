//! Laws of existence for decks. Each law is the contract of a function whose body only calls the laws that it depends
//! on.

ghost use Rattle.h41_laws_decks.specs.DeckAnswers.{PageBlockSaysOne, ReplyHasOneAnswer};
ghost use Rattle.h41_laws_decks.specs.DeckAnswers.{ViewHasOneText, ProgramBlockMeansOne};
ghost use Rattle.h41_laws_decks.specs.DeckTexts.{AnswersHaveOneList, DeckHasOneText};
ghost use Rattle.h41_laws_decks.specs.WholeBenches.{EachDeckHasOneText, EachFrontHasOneText};
ghost use Rattle.h41_laws_decks.specs.WholeBenches.{FirstTextHasRest, ReplyLeavesWhole};
ghost use Rattle.h41_laws_decks.specs.WholeBenches.{WholeBenchRests};

use h41_asm::laws::{words_are_determined, words_or_fault};
use h41_codes::laws::canonical_is_shortest;
use h41_debug::laws::{presses_are_determined, traces_are_steps};
use h41_deck::laws::deck_is_determined;
use h41_laws_calculator::calculator::{display_has_one_text, load_has_one_outcome};
use h41_laws_calculator::runs::runs_have_one_outcome;
use h41_laws_calculator::states::{
    pages_leave_whole, press_leaves_whole, programs_leave_whole, start_is_whole, step_leaves_whole,
};
use h41_program::laws::{lists_are_determined, one_list};
use h41_text::laws::line_text_round_trip;

/// States that each `show` command has exactly one text or one refusal, in any state of the bench.
pub fn view_has_one_text()
    ensures { ViewHasOneText }
{
    one_list();
    lists_are_determined();
    display_has_one_text();
}

/// States that the lines after `words`, `image` or `asm` define exactly one list of words for the page or one refusal,
/// whatever their values are.
pub fn page_block_says_one()
    ensures { PageBlockSaysOne }
{
    words_or_fault();
    words_are_determined();
}

/// States that the lines after `load` or `program`, bytes or text, mean exactly one program or one refusal, whatever
/// their values are.
pub fn program_block_means_one()
    ensures { ProgramBlockMeansOne }
{
    canonical_is_shortest();
    line_text_round_trip();
}

/// States that each command has exactly one reply, which consists of a new state and an answer. This holds in each
/// state of the bench in which the results that the command depends on exist, for example those of the steps that it
/// makes.
pub fn reply_has_one_answer()
    ensures { ReplyHasOneAnswer }
{
    view_has_one_text();
    page_block_says_one();
    load_has_one_outcome();
    runs_have_one_outcome();
}

/// States that a list of commands has exactly one list of answers (`answers`), and a deck of at most 67,108,864 bytes
/// exactly one text and one end (`text`), if the results that each command depends on exist in the state that the
/// commands before it leave.
pub fn deck_follows_its_replies()
    ensures answers { AnswersHaveOneList }
    ensures text { DeckHasOneText }
{
    reply_has_one_answer();
}

/// States that each command leaves a bench with a well-formed calculator, if the calculator was well-formed before
/// (`leaves`), and that in such a bench all results that a command depends on exist (`rests`).
pub fn replies_leave_whole()
    ensures leaves { ReplyLeavesWhole }
    ensures rests { WholeBenchRests }
{
    step_leaves_whole();
    press_leaves_whole();
    programs_leave_whole();
    start_is_whole();
    pages_leave_whole();
    presses_are_determined();
    traces_are_steps();
    program_block_means_one();
}

/// States that each deck of at most 67,108,864 bytes has exactly one text, and ends in one way, with each size of
/// memory (`text`); that any bytes, even those of a longer deck, have exactly one text of the commands that end in them
/// (`front`); and that the replies to the first commands are a prefix of the deck's text (`rest`).
pub fn deck_has_one_text()
    ensures text { EachDeckHasOneText }
    ensures front { EachFrontHasOneText }
    ensures rest { FirstTextHasRest }
{
    start_is_whole();
    replies_leave_whole();
    deck_follows_its_replies();
    deck_is_determined();
}

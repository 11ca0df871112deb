//! Laws of existence for decks: the texts of `show`, the lines after a command, the replies to commands, and whole
//! decks each have exactly one result.
#![tactic(auto)]

pub mod laws;

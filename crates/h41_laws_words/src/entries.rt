//! The law of table entries. It is the contract of a function with an empty body.

ghost use Rattle.h41_laws_words.specs.DirectivesRead.{NameIsRead, EntryIsRead, FocalIsRead};
ghost use Rattle.h41_laws_words.specs.DirectivesRead.{FunctionIsRead};

/// States that the table of functions of a page reads the words of `NAME`, `ENTRY` and `FOCAL` as the name, the address and the
/// kind of function in the source, and that a function that follows its `NAME` has this name.
pub fn directives_are_read()
    ensures name { NameIsRead }
    ensures entry { EntryIsRead }
    ensures focal { FocalIsRead }
    ensures function { FunctionIsRead }
{}

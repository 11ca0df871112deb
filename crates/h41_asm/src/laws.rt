//! Laws of assembly. Each law is the contract of a function with an empty body.

ghost use Rattle.h41_asm.specs.AssemblyLaws.{HasWordsOrFault, NeverBoth, WordsAreDetermined};

/// States that, for each origin (the address of its first word), a source either has ROM words or has a first error,
/// and never both.
pub fn words_or_fault()
    ensures one_holds { HasWordsOrFault }
    ensures never_both { NeverBoth }
{}

/// States that, for each origin (the address of its first word), a source has at most one list of ROM words.
pub fn words_are_determined()
    ensures { WordsAreDetermined }
{}

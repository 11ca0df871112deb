//! The effect of a key on an open prompt.
use crate::prompt::Prompt;
use h41_codes::Line;

/// What a key does to an open prompt, which waits for the parameter of a function.
#[derive(Clone, Copy, Debug, PartialEq, Eq)]
pub enum PromptStep {
    /// The prompt remains open, with the given function and typed part.
    Becomes(Prompt),
    /// The prompt ends, and no program line was typed.
    Cancels,
    /// The prompt ends, because the parameter is complete. The given program line was typed.
    Types(Line),
    /// The prompt ends, and `GTO . .` was typed.
    GoesToEnd,
}

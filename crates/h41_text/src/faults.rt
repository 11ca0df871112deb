//! The errors of reading a line's text.
use thiserror::Error;

/// The error BadText (41): the text that `read_line` was given is not the text of any program line.
#[derive(Clone, Copy, Debug, PartialEq, Eq, Error)]
#[error("this is the text of no line")]
pub struct BadText;

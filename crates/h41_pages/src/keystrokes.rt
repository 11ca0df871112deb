//! The names of keystroke functions. The low eight bits of each word of a page are a byte of keystroke code.

ghost use Rattle.std.specs.Prelude.{◌≡◌, ◌<◌};
ghost use Rattle.h41_pages.specs.Addresses.{page_size};
ghost use Rattle.h41_pages.specs.KeystrokeCode as spec;
ghost use Rattle.h41_pages.specs.private.Labels as labels;

use crate::image::Image;
use crate::name::Name;
use h41_codes::{Line, decode};

impl Image {
    /// Returns the name of the global label with which the keystroke code at an offset, 0 to 4,095, begins, or `None`
    /// if it begins with anything else.
    pub(crate) fn label_name(&self, offset: usize) -> Option<Name>
        requires { offset < page_size }
        ensures { result ≡ spec.label_name (spec.code_from self.now.words offset) }
    {
        match decode(&self.code()[offset..]) {
            Ok((line, _)) => name_of(&line),
            Err(_) => None,
        }
    }
}

/// Returns the name of a program line, if it is a global label, otherwise `None`.
fn name_of(line: &Line) -> Option<Name>
    ensures { result ≡ labels.name_of line.now }
{
    match line {
        Line::GlobalLabel(_, _, name) => Some(Name::of(name.characters())),
        _ => None,
    }
}

//! Searches for labels in program memory, and their answers, as the label cache stores them.

ghost use Rattle.std.specs.Prelude.{◌≡◌, ◌≤◌, ◌<◌, length, None};
ghost use Rattle.h41_labels.specs.KeptAnswers.{is_same};
ghost use Rattle.h41_labels.specs.private.Slots.{mark_of, name_mark};
ghost use Rattle.h41_labels.specs.declared.search.Search.TheVariants.{Local};

use h41_codes::{Parameter, Text};

/// The lowest number (`Search::mark`) of a search for a global label. The numbers of searches for local labels are
/// lower.
const NAMES: u32 = 0x800000;

/// A search for a label in program memory: for a local label from a position, or for a global label by its name.
#[derive(Clone, Copy, Debug, PartialEq, Eq)]
pub enum Search {
    /// A search for the local label `LBL n`, forward from this position, a byte of program memory counted from 0.
    /// Searches from positions in plug-in pages are not cached.
    Local(u16, Parameter),
    /// A search for the last global label with this name, in all of program memory. A name has at most 15 characters.
    Global(Text<15>),
}

/// A search for a label in program memory with its answer, as the label cache stores it.
#[derive(Clone, Copy, Debug, PartialEq, Eq)]
pub struct KeptAnswer {
    /// The search for a label.
    pub search: Search,
    /// The position of the label, a byte of program memory counted from 0, or `None` if there is no such label.
    pub answer: Option<u16>,
}

impl Default for KeptAnswer {
    ghost is_default = { λ kept. kept ≡ record { search = Local 0 0; answer = None } };

    /// Returns the value of an unused slot of the label cache: a search for `LBL 00` from byte 0 of program memory that
    /// found no label.
    fn default() -> Self {
        KeptAnswer {
            search: Search::Local(0, Parameter::new(0)),
            answer: None,
        }
    }
}

impl Search {
    /// Returns whether another search is the same as this one: for the same local label from the same byte of program
    /// memory, or for the global label with the same name.
    pub(crate) fn is(&self, other: &Self) -> bool
        ensures { result ≡ is_same self.now other.now }
    {
        match (self, other) {
            (Search::Local(at, label), Search::Local(other, same)) => {
                *at == *other && label.number() == same.number()
            }
            (Search::Global(name), Search::Global(other)) => {
                name.characters() == other.characters()
            }
            _ => false,
        }
    }

    /// Returns a number below 2^24 by which searches are compared first. Equal searches have equal numbers; most
    /// different searches have different ones.
    pub(crate) fn mark(&self) -> u32
        ensures { result ≡ mark_of self.now }
    {
        match self {
            Search::Local(at, label) => u32::from(*at) * 128 + u32::from(label.number()),
            Search::Global(name) => NAMES + mark_of_name(name.characters()),
        }
    }
}

/// Returns a number below 2^23 for a name, which is computed from its length and its first and last characters. An
/// empty name has the number 0.
fn mark_of_name(name: &[u8]) -> u32
    requires { length name.now ≤ 15 }
    ensures value { result ≡ name_mark name.now }
    ensures bound { result < 0x800000 }
{
    if name.is_empty() {
        return 0;
    }
    let last = name.len() - 1;
    (name.len() as u32) * 65536 + u32::from(name[0]) * 256 + u32::from(name[last])
}

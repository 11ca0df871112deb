//! The keyboard as the processor sees it.

ghost use Rattle.std.specs.Prelude.{◌≡◌, false};

/// The keyboard as the processor sees it: the code of the last key, and whether a key was pressed.
#[derive(Clone, Copy, Debug, PartialEq, Eq)]
pub struct Keys {
    /// The register KY: the code of the key that was pressed last.
    pub ky: u8,
    /// The key flag: whether a key was pressed since the flag was last cleared.
    pub flag: bool,
}

impl Keys {
    /// Returns the keyboard before any key was pressed: KY is zero and the flag is clear.
    pub fn new() -> Self
        ensures register { result.ky ≡ 0 }
        ensures flag { result.flag ≡ false }
    {
        Keys { ky: 0, flag: false }
    }
}

//! The refusals: those of the calculator, of lines, and of the deck itself, each with its number and name, and the line that
//! prints it. Numbers, names and form are this project's own.

ghost use Rattle.std.specs.Prelude.{◌≡◌};

use h41_commands::LineRefusal;
use h41_nut::WordRefusal;
use h41_pages::{FetchRefusal, ImageRefusal, PlugRefusal, UnplugRefusal};
use h41_xrom::CalculatorRefusal;

mod heading;
mod line;

pub use line::Detail;

/// Why a command was refused, or which error ends a deck (21 to 23). A refused command changes nothing, except that the steps
/// or keys before the refused one remain in effect.
#[derive(Clone, Copy, Debug, PartialEq, Eq)]
pub enum Refusal {
    /// NoSuchPage (01): the page is not 4 to F, or its bank is not 1 to 4.
    NoSuchPage,
    /// Occupied (02): the bank of the page is plugged already.
    Occupied,
    /// NotPlugged (03): the bank of the page is not plugged, or, if the page is to be unplugged, none of its banks is.
    NotPlugged,
    /// The calculator refuses the command: 06 to 18, and 24, for example NotInProfile (13) and Busy (24). SystemRom
    /// (08) and EmptyPage (09) are also reported for an address whose word cannot be read.
    Calculator(CalculatorRefusal),
    /// The lines of the command are refused: 04, 30 to 35, 41 and 50 to 53, for example BadCommand (50). BadImage (04)
    /// is also reported for words that extend beyond their page.
    Line(LineRefusal),
    /// BreakFull (19): 16 other breakpoints are set.
    BreakFull,
    /// NoBreak (20): the breakpoint is not set.
    NoBreak,
    /// OutOfMemory (21): allocation failed.
    OutOfMemory,
    /// ReadFault (22): a read failed, or the input is too long.
    ReadFault,
    /// WriteFault (23): a write failed.
    WriteFault,
}

impl From<CalculatorRefusal> for Refusal {
    ghost use Rattle.std.specs.Prelude.{◌≡◌};
    ghost use Rattle.h41_refusals.specs.declared.refusal.Refusal.TheVariants.{Calculator};

    ghost from_gives = { λ refusal own. own ≡ Calculator refusal };

    fn from(refusal: CalculatorRefusal) -> Self {
        Refusal::Calculator(refusal)
    }
}

impl From<LineRefusal> for Refusal {
    ghost use Rattle.std.specs.Prelude.{◌≡◌};
    ghost use Rattle.h41_refusals.specs.declared.refusal.Refusal.TheVariants.{Line};

    ghost from_gives = { λ refusal own. own ≡ Line refusal };

    fn from(refusal: LineRefusal) -> Self {
        Refusal::Line(refusal)
    }
}

impl From<PlugRefusal> for Refusal {
    ghost use Rattle.std.specs.Prelude.{◌≡◌};
    ghost use Rattle.h41_refusals.specs.Pages.{of_plug};

    ghost from_gives = { λ refusal own. own ≡ of_plug refusal };

    fn from(refusal: PlugRefusal) -> Self {
        match refusal {
            PlugRefusal::NoSuchPage => Refusal::NoSuchPage,
            PlugRefusal::Occupied => Refusal::Occupied,
            PlugRefusal::BadImage => Refusal::Line(LineRefusal::BadImage),
            PlugRefusal::OutOfMemory => Refusal::OutOfMemory,
        }
    }
}

impl From<UnplugRefusal> for Refusal {
    ghost use Rattle.std.specs.Prelude.{◌≡◌};
    ghost use Rattle.h41_refusals.specs.Pages.{of_unplug};

    ghost from_gives = { λ refusal own. own ≡ of_unplug refusal };

    fn from(refusal: UnplugRefusal) -> Self {
        match refusal {
            UnplugRefusal::NoSuchPage => Refusal::NoSuchPage,
            UnplugRefusal::NotPlugged => Refusal::NotPlugged,
        }
    }
}

impl From<ImageRefusal> for Refusal {
    ghost use Rattle.std.specs.Prelude.{◌≡◌};
    ghost use Rattle.h41_refusals.specs.Pages.{of_image};

    ghost from_gives = { λ refusal own. own ≡ of_image refusal };

    fn from(refusal: ImageRefusal) -> Self {
        match refusal {
            ImageRefusal::NoSuchPage => Refusal::NoSuchPage,
            ImageRefusal::NotPlugged => Refusal::NotPlugged,
            ImageRefusal::OutOfMemory => Refusal::OutOfMemory,
        }
    }
}

impl From<FetchRefusal> for Refusal {
    ghost use Rattle.std.specs.Prelude.{◌≡◌};
    ghost use Rattle.h41_refusals.specs.Pages.{of_fetch};

    ghost from_gives = { λ refusal own. own ≡ of_fetch refusal };

    fn from(refusal: FetchRefusal) -> Self {
        Refusal::Calculator(CalculatorRefusal::Word(WordRefusal::from(refusal)))
    }
}

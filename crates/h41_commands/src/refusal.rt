//! Why lines of a deck are refused, whatever the calculator's state is. The numbers are those that decks print.

ghost use Rattle.std.specs.Prelude.{◌≡◌};

use h41_asm::SourceFault;

/// Why lines of a deck are refused: the first line is not a command, or the lines of its block are wrong.
#[derive(Clone, Copy, Debug, PartialEq, Eq)]
pub enum LineRefusal {
    /// BadImage (04): a page of more than 4,096 words or with a word above 3FF (hexadecimal), or bytes that are not the
    /// image of a page.
    BadImage,
    /// An error of an assembler source (30 to 35), with the number, counted from 1, of the line in the block.
    Source(SourceFault, usize),
    /// BadText (41): a line of a `program` block is not the text of a program line. The number is that of the line in
    /// the block, counted from 1.
    BadText(usize),
    /// BadCommand (50): the first word of a line is not a command, or a word of the command is wrong, missing or one
    /// too many.
    BadCommand,
    /// BadNumber (51): a word is not a number, or the number is out of range.
    BadNumber,
    /// NoEnd (52): the deck ends before the `end` of a block.
    NoEnd,
    /// LineTooLong (53): a deck line has more than 200 bytes.
    LineTooLong,
}

impl LineRefusal {
    ghost use Rattle.h41_commands.specs.declared.refusal.LineRefusal.TheVariants.{Source};

    /// Returns the refusal of an `asm` block: `fault` (30 to 35) is the error of the source line with the number
    /// `line`, counted from 1.
    pub fn of_source_line(fault: SourceFault, line: usize) -> Self
        ensures { result ≡ Source fault line }
    {
        LineRefusal::Source(fault, line)
    }
}

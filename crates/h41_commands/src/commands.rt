//! The commands of a deck, as their first deck lines specify them.

ghost use Rattle.std.specs.Prelude.{◌≡◌};

use crate::commands::keys::PressedKeys;
use h41_breakpoints::Location;

pub mod keys;
pub mod number;
pub mod parse;

/// What the block of a command defines: the contents of a page, or a program.
#[derive(Clone, Copy, Debug, PartialEq, Eq)]
pub enum BlockKind {
    /// The contents of a page, from `words`, `image` or `asm`.
    Page(PageKind),
    /// A program, from `load` or `program`.
    Program(ProgramKind),
}

/// What the deck lines are in a block that defines the contents of a page: words, the bytes of an image, or a source.
#[derive(Clone, Copy, Debug, PartialEq, Eq)]
pub enum PageKind {
    /// `words`: words of a page, of 1 to 3 hexadecimal digits each.
    Words,
    /// `image`: the bytes of a page's image, of 2 hexadecimal digits each.
    Image,
    /// `asm`: the source of a page's words, for the assembler.
    Asm,
}

/// What the deck lines are in a block that defines a program: its bytes or its text.
#[derive(Clone, Copy, Debug, PartialEq, Eq)]
pub enum ProgramKind {
    /// `load`: the bytes of a program, of 2 hexadecimal digits each.
    Bytes,
    /// `program`: the text of a program, one program line per deck line.
    Text,
}

impl BlockKind {
    ghost use Rattle.h41_commands.specs.Commands.{kind_of_word};

    /// Returns the kind of the block that a deck line with this first word begins (`words`, `image`, `asm`, `load` or
    /// `program`), or `None` for any other word.
    #[inline(always)]
    #[tactic(auto, unfolding(crate::specs::Commands::kind_of_word))]
    pub(crate) fn of_word(word: &[u8]) -> Option<Self>
        ensures { result ≡ kind_of_word word.now }
    {
        match word {
            b"words" => Some(BlockKind::Page(PageKind::Words)),
            b"image" => Some(BlockKind::Page(PageKind::Image)),
            b"asm" => Some(BlockKind::Page(PageKind::Asm)),
            b"load" => Some(BlockKind::Program(ProgramKind::Bytes)),
            b"program" => Some(BlockKind::Program(ProgramKind::Text)),
            _ => None,
        }
    }
}

/// The kind of command that the first word of a deck line names.
#[derive(Clone, Copy, Debug, PartialEq, Eq)]
pub enum FirstWord {
    /// A command with a block: `words`, `image`, `asm`, `load` or `program`.
    Opening(BlockKind),
    /// A command without a block, such as `step`.
    Plain(PlainKind),
    /// The word names no command: BadCommand (50).
    Unknown,
}

impl FirstWord {
    ghost use Rattle.h41_commands.specs.FirstLines.{first_word};

    /// Returns the kind of command that a word names as the first word of a deck line.
    #[inline(always)]
    pub(crate) fn of_word(word: &[u8]) -> Self
        ensures { result ≡ first_word word.now }
    {
        match BlockKind::of_word(word) {
            Some(kind) => FirstWord::Opening(kind),
            None => match PlainKind::of_word(word) {
                Some(kind) => FirstWord::Plain(kind),
                None => FirstWord::Unknown,
            },
        }
    }
}

/// The commands without a block, named by the first word of their deck line.
#[derive(Clone, Copy, Debug, PartialEq, Eq)]
pub enum PlainKind {
    /// `unplug`: unplugs a page.
    Unplug,
    /// `size`: sets the number of data registers.
    Size,
    /// `reset`: restores the initial state of the calculator, but keeps plugged pages and breakpoints.
    Reset,
    /// `call`: starts a function in microcode.
    Call,
    /// `step`: makes single steps.
    Step,
    /// `run`: makes single steps up to a reason to stop.
    Run,
    /// `trace`: makes single steps and prints a line before each.
    Trace,
    /// `break`: sets a breakpoint.
    Break,
    /// `unbreak`: removes a breakpoint.
    Unbreak,
    /// `list`: prints a listing of words of a page.
    List,
    /// `show`: prints a part of the calculator's state, such as the stack.
    Show,
    /// `key`: presses keys.
    Key,
}

impl PlainKind {
    ghost use Rattle.h41_commands.specs.Commands.{plain_of_word};

    /// Returns the command without a block that a word names as the first word of a deck line, or `None` if it names
    /// none.
    #[inline(always)]
    #[tactic(auto, unfolding(crate::specs::Commands::plain_of_word))]
    pub(crate) fn of_word(word: &[u8]) -> Option<Self>
        ensures { result ≡ plain_of_word word.now }
    {
        match word {
            b"unplug" => Some(PlainKind::Unplug),
            b"size" => Some(PlainKind::Size),
            b"reset" => Some(PlainKind::Reset),
            b"call" => Some(PlainKind::Call),
            b"step" => Some(PlainKind::Step),
            b"run" => Some(PlainKind::Run),
            b"trace" => Some(PlainKind::Trace),
            b"break" => Some(PlainKind::Break),
            b"unbreak" => Some(PlainKind::Unbreak),
            b"list" => Some(PlainKind::List),
            b"show" => Some(PlainKind::Show),
            b"key" => Some(PlainKind::Key),
            _ => None,
        }
    }
}

/// The part of the calculator's state that `show` prints.
#[derive(Clone, Copy, Debug, PartialEq, Eq)]
pub enum View {
    /// `cpu`: the registers and flags of the processor.
    Cpu,
    /// `ram hhh`: the memory register at an address, 000 to FFF.
    Register(u16),
    /// `stack`: the stack registers and LAST X (L).
    Stack,
    /// `flags`: the numbers of the flags that are set.
    Flags,
    /// `alpha`: the text in the ALPHA register.
    Alpha,
    /// `display`: the text of the display.
    Display,
    /// `pos`: the mode, and the position of the calculator.
    Position,
    /// `lines`: the lines of program memory.
    Lines,
    /// `image P [bN]`: the image in bank N of page P, 0 to 15; without `bN` in bank 1. The first value is the page, the second
    /// the bank. Pages 0 to 3, and banks other than 1 to 4, are refused only when the command is executed.
    Image(u8, u8),
    /// `functions`: the functions of the plugged modules.
    Functions,
}

/// A command of a deck, with its operands.
#[derive(Debug, Drop)]
pub enum Command<'a> {
    /// `words P [bN] [rw]`, `image P [bN] [rw]` or `asm P [bN] [rw]`, with a block up to `end`: plugs the contents of the block
    /// into bank N of page P, 0 to 15; without `bN` into bank 1. With `rw` microcode may write to it. Pages 0 to 3, and banks
    /// other than 1 to 4, are refused only when the command is executed.
    Plug {
        /// What the deck lines of the block contain: words, an image or a source.
        kind: PageKind,
        /// The number of the page, 0 to 15, whose bank is plugged.
        page: u8,
        /// The number of the bank, 0 to 9. The numbers 0 and 5 to 9 are refused only when the command is executed.
        bank: u8,
        /// Whether microcode may write to the bank (`rw`).
        writable: bool,
    },
    /// `load` or `program`, with a block up to `end`: loads the program of the block after those in memory.
    Load(ProgramKind),
    /// `unplug P`: unplugs all banks of page P, 0 to 15. Pages 0 to 3 are refused only when the command is executed.
    Unplug(u8),
    /// `size n`: sets the number of data registers, 0 to 9,999. Numbers of at least the size of main memory are refused only when
    /// the command is executed.
    Size(u16),
    /// `reset`: restores the initial state, but keeps plugged pages and breakpoints.
    Reset,
    /// `call hhhh`: starts the function in microcode at the address hhhh, four hexadecimal digits.
    Call(u16),
    /// `step [n]`: makes n single steps, 0 to 9,999,999; without n, one.
    Step(u32),
    /// `run n`: makes single steps, at most n, 0 to 9,999,999, up to the first reason to stop.
    Run(u32),
    /// `trace n`: makes n single steps, 0 to 9,999,999, and prints a line before each.
    Trace(u32),
    /// `break w hhhh`, `break l n` or `break p hhhh`: sets a breakpoint at the word at an address, at the line at a position of
    /// memory, 0 to 9,999, or at the line at an address of a page.
    Break(Location),
    /// `unbreak w hhhh`, `unbreak l n` or `unbreak p hhhh`: removes a breakpoint.
    Unbreak(Location),
    /// `list hhhh n`: prints the listing of n words, 1 to 4,096, of one page, from an address on.
    List {
        /// The address, 0000 to FFFF, of the first word of the listing.
        address: u16,
        /// The number of words of the listing, 1 to 4,096.
        count: u16,
    },
    /// `show WHAT`: prints a part of the calculator's state.
    Show(View),
    /// `key NAME ..`: presses 1 to 98 keys in turn. The keys are in a buffer that the caller of `line_command` lends.
    Key(PressedKeys<'a>),
}

impl Command<'_> {
    ghost use Rattle.h41_commands.specs.Commands.{kind_of};

    /// Returns the kind of the command's block (page or program), or `None` if the command has no block.
    pub fn block_kind(&self) -> Option<BlockKind>
        ensures { result ≡ kind_of self.now }
    {
        match self {
            Command::Plug { kind, .. } => Some(BlockKind::Page(*kind)),
            Command::Load(kind) => Some(BlockKind::Program(*kind)),
            _ => None,
        }
    }
}

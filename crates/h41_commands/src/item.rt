//! The items of a deck: each is a command with its block, or lines that are refused.

ghost use Rattle.std.specs.Prelude.{◌≡◌, false};
ghost use Rattle.h41_commands.specs.private.TakenBlocks.{judgement};
ghost use Rattle.h41_commands.specs.Commands.{kind_of};
ghost use Rattle.h41_commands.specs.Items.{is_open, with_values};

use crate::blocks::Block;
use crate::commands::Command;
use crate::refusal::LineRefusal;

/// A command and its block, as the deck lines specify them. The lines of the block have been read up to `end`.
#[derive(Debug, Drop)]
pub struct GivenCommand {
    /// The command, with its operands.
    pub command: Command<'static>,
    /// The block of the command; it is empty if the command has none.
    pub block: Block,
    ghost own: { block.kind ≡ kind_of command },
    ghost ended: { is_open (with_values (judgement block) command) ≡ false },
}

/// One item of a deck: a command with its block, or the reason why its lines are refused.
#[derive(Debug, Drop)]
pub enum Item {
    /// A command and its block, which the calculator can now execute.
    Given(GivenCommand),
    /// Lines that are refused, with the reason, for example BadCommand (50) if they are not a command.
    Refused(LineRefusal),
}

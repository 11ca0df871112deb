//! The parts of source lines that the first pass of the assembler stores, so that the second pass need not read the
//! lines again.

ghost use Rattle.std.specs.Prelude.{◌≡◌, ◌++◌, OnOk};
ghost use Rattle.h41_asm.specs.private.KeptLines.{kept_lines, kept_names};

use crate::statement::{Form, Statement};
use std::alloc::AllocError;

/// The stored part of a source line for which the assembler writes words.
#[derive(Clone, Copy)]
pub(crate) struct KeptLine {
    /// The number of the source line, counted from 1.
    pub number: usize,
    /// The form of the source line's statement. With the name of a label or the text of a `NAME`, it determines the
    /// words.
    pub form: Form,
}

/// Appends the form of a statement, with the number of its source line, to `lines`, and the statement's name (a label
/// or the text of a `NAME`, or empty) to `names`. A statement without words is not stored. The error means that
/// allocation failed.
#[inline(always)]
pub(crate) fn keep<'a>(
    lines: &mut Vec<KeptLine>,
    names: &mut Vec<&'a [u8]>,
    number: usize,
    statement: &Statement<'a>,
) -> Result<(), AllocError>
    ensures lines { OnOk result
        (lines.new.items ≡ lines.old.items ++ kept_lines number statement.now) }
    ensures names { OnOk result (names.new.items ≡ names.old.items ++ kept_names statement.now) }
{
    if statement.length() > 0 {
        let form = statement.form;
        lines.push(KeptLine { number, form })?;
        names.push(statement.name)?;
    }
    Ok(())
}

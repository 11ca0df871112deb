//! Translates the text of a program, one program line per line of text, into the bytes of the program.

ghost use Rattle.std.specs.Iterator.{YieldsFirstRef, item_count};
ghost use Rattle.std.specs.Prelude.{◌≡◌, ◌++◌, [], IfOk, OnOk};
ghost use Rattle.h41_codes.specs.ByteGrammar.{IsLine, spelling};
ghost use Rattle.h41_commands.specs.private.Contents.{values_in};
ghost use Rattle.h41_program.specs.Lines as lines;
ghost use Rattle.h41_commands.specs.private.ProgramTexts.{IsPacked, PushesLine, null_between};
ghost use Rattle.h41_commands.specs.private.ProgramTexts.{texts_left};
ghost use Rattle.h41_commands.specs.ProgramBlocks.{TextSpells, texts_of};

use crate::refusal::LineRefusal;
use h41_codes::laws::line_has_bytes;
use h41_codes::{LINE_CAPACITY, Line, encode};
use h41_lines::lines::line_end;
use h41_text::{BadText, read_line};
use std::alloc::{AllocError, Global};

/// An iterator over the lines of a program's text, each without its line end (LF).
#[derive(Debug, Drop)]
struct Texts<'a> {
    /// The bytes of the text that are not returned yet.
    rest: &'a [u8],
    /// Whether the last line of the text was returned.
    is_finished: bool,
}

impl<'a> Texts<'a> {
    /// Returns an iterator over all lines of a program's text.
    fn new(text: &'a [u8]) -> Self
        ensures { texts_left result ≡ texts_of text.now }
    {
        Texts {
            rest: text,
            is_finished: false,
        }
    }
}

impl<'a> Iterator for Texts<'a> {
    type Item = &'a [u8];

    ghost next_gives = { YieldsFirstRef texts_left };

    ghost remaining = { item_count texts_left };

    fn next(&mut self) -> Option<&'a [u8]> {
        if self.is_finished {
            return None;
        }
        let text = self.rest;
        match line_end(text) {
            Some(end) => {
                self.rest = &text[end + 1..];
                Some(&text[..end])
            }
            None => {
                self.is_finished = true;
                Some(text)
            }
        }
    }
}

/// The bytes of program lines in sequence, encoded as they are loaded.
#[derive(Debug, Drop)]
struct Packed {
    /// The bytes of the program lines, with a null byte between two numbers.
    bytes: Vec<u8>,
    /// Whether the last program line is a number.
    ends_with_number: bool,
}

impl Packed {
    /// Returns the bytes of a program without lines: none.
    fn new(alloc: Global) -> Self
        ensures { IsPacked [] result }
    {
        Packed {
            bytes: Vec::new(alloc),
            ends_with_number: false,
        }
    }

    /// Appends the bytes of a program line, with a null byte before it if it and the line before it are numbers.
    /// OutOfMemory (21) if allocation failed.
    fn push(&mut self, line: &Line) -> Result<(), AllocError>
        requires { IsLine line.now }
        ensures { OnOk result (PushesLine self.old line.now self.new) }
    {
        let is_number = is_number(line);
        self.bytes
            .extend_from_slice(gap(self.ends_with_number, is_number))?;
        self.push_spelling(line)?;
        self.ends_with_number = is_number;
        Ok(())
    }

    /// Appends the bytes that spell a program line, 1 to 18. OutOfMemory (21) if allocation failed.
    fn push_spelling(&mut self, line: &Line) -> Result<(), AllocError>
        requires { IsLine line.now }
        ensures { OnOk result (self.new.bytes.items ≡ self.old.bytes.items ++ spelling line.now) }
    {
        line_has_bytes();
        let mut out = [0; LINE_CAPACITY];
        let count = encode(*line, &mut out).unwrap_or(0);
        self.bytes.extend_from_slice(&out[..count])
    }
}

/// Returns whether a program line is a number.
fn is_number(line: &Line) -> bool
    ensures { result ≡ lines.is_number line.now }
{
    matches!(line, Line::Number(_))
}

/// Returns the bytes between a program line and the one before it: a null byte if both are numbers, because their
/// digits would run together; otherwise none.
fn gap(ends_with_number: bool, is_number: bool) -> &'static [u8]
    ensures { result.now ≡ null_between ends_with_number is_number }
{
    if ends_with_number && is_number {
        &[0]
    } else {
        &[]
    }
}

/// Returns the bytes of a program: those of its lines, with a null byte between two numbers. If a text line is not the text
/// of a program line, returns BadText (41) with the number of the first such line, counted from 1. Empty lines are skipped.
/// OutOfMemory (21) if allocation failed.
pub fn program_bytes(alloc: Global, text: &[u8]) -> Result<Result<Vec<u8>, LineRefusal>, AllocError>
    ensures { IfOk result (λ made. TextSpells text.now (values_in made)) }
{
    let mut packed = Packed::new(alloc);
    let mut number = 1;
    for line in Texts::new(text) {
        if !line.is_empty() {
            match read_line(line) {
                Ok(line) => packed.push(&line)?,
                Err(BadText) => return Ok(Err(LineRefusal::BadText(number))),
            }
        }
        number += 1;
    }
    Ok(Ok(packed.bytes))
}

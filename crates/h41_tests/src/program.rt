//! Tests of the program with files and streams made for tests: for each command line what is read, printed and
//! reported, and the exit status.

use crate::decks::{DECK, TEXT};
use crate::ends::writer;
use crate::judge::wants;
use h41_deck::FromRead;
use h41_serving::run_program;
use std::alloc::{AllocError, Global};
use std::io::{self, ErrorKind, Read};
use std::process::Abort;
use std::test::Fail;

/// The text of a file or of standard input. Reads fail after `calls` calls.
#[derive(Drop)]
struct Text {
    rest: &'static [u8],
    calls: usize,
}

impl Read for Text {
    fn read(&mut self, buffer: &mut [u8]) -> io::Result<usize> {
        if self.calls == 0 {
            return Err(io::Error::new(ErrorKind::Other, "it is torn"));
        }
        self.calls -= 1;
        let count = self.rest.len().min(buffer.len());
        buffer[..count].copy_from_slice(&self.rest[..count]);
        self.rest = &self.rest[count..];
        Ok(count)
    }
}

/// Returns a file or standard input with the text `of`, whose reads do not fail.
fn sound_text(of: &'static str) -> Text {
    Text {
        rest: of.as_bytes(),
        calls: 1000,
    }
}

/// Opens the test file with this name, or returns the error that there is none.
fn open(name: &str) -> io::Result<Text> {
    match name {
        "deck" => Ok(sound_text(DECK)),
        "source" => Ok(sound_text("LDI 123\nRTN\n")),
        "words" => Ok(sound_text("130 123 3E0")),
        "wrong" => Ok(sound_text("130 123 400")),
        "torn" => Ok(Text {
            rest: b"fly\n",
            calls: 0,
        }),
        _ => Err(io::Error::new(ErrorKind::NotFound, "there is none")),
    }
}

/// A row of a test table: the words after the program's name; how many calls the output and the stream for errors
/// accept; the expected exit status, and what is expected on the output and on the stream for errors. An expected text
/// that ends in `..` needs only to be contained in what is written.
type ProgramRow = (
    &'static [&'static str],
    usize,
    usize,
    u8,
    &'static str,
    &'static str,
);

/// Standard input in these tests: a deck with one command, which is refused.
const INPUT: &str = "fly\n";

/// What the deck in `INPUT` prints.
const REPLY: &str = "! 50 BadCommand\n";

/// What the program reports for a file that does not exist.
const MISSING: &str = "! 22 ReadFault\nbench: none: there is none\n";

/// What the program reports for a wrong value of `--memory`.
const MEMORY: &str = "error: wrong value of --memory: expected 64, 128, 192, 256 or 320\n";

/// What the program reports for a wrong value of `--origin`.
const ORIGIN: &str = "error: wrong value of --origin: expected four hexadecimal digits\n";

/// A part of the usage that help and messages about wrong words contain.
const USAGE: &str = "Usage: bench..";

/// Requires for each row that the program ends with its exit status, and that both output streams have its texts.
fn end(rt: &impl Abort, alloc: Global, rows: &[ProgramRow]) -> Result<(), Fail> {
    for (words, writes, tells, status, printed, message) in rows {
        let mut open_file = |name: &str| open(name);
        let mut file = None;
        let mut input = FromRead::new(sound_text(INPUT));
        let mut output = writer(alloc, 10_000, *writes);
        let mut faults = writer(alloc, 10_000, *tells);
        let given = Ok(strings(alloc, words)?);
        let answered = run_program(
            alloc,
            given,
            &mut open_file,
            &mut file,
            &mut input,
            &mut output,
            &mut faults,
        );
        assert!(rt; answered == *status, "status {answered} of {words:?}");
        wants(rt, printed, is_text(output.taken.as_slice(), printed));
        wants(rt, message, is_text(faults.taken.as_slice(), message));
    }
    Ok(())
}

/// Returns the words of a command line: `/bin/bench`, the program's name, and `words`. `AllocError` if allocation
/// failed.
fn strings(alloc: Global, words: &[&str]) -> Result<Vec<String>, AllocError> {
    let mut all = Vec::new(alloc);
    all.push(String::from_str(alloc, "/bin/bench")?)?;
    for word in words {
        all.push(String::from_str(alloc, word)?)?;
    }
    Ok(all)
}

/// Returns whether the bytes are this text, or, if the text ends in `..`, whether they contain what is before the `..`.
fn is_text(bytes: &[u8], text: &str) -> bool {
    match text.strip_suffix("..") {
        Some(part) => match std::str::from_utf8(bytes) {
            Ok(said) => said.contains(part),
            Err(_) => false,
        },
        None => bytes == text.as_bytes(),
    }
}

#[test]
fn reads_its_input(rt: HostRuntime) -> Result<(), Fail> {
    let rows: [ProgramRow; 8] = [
        (&["run", "deck"], 100, 100, 1, TEXT, ""),
        (&["run", "--memory", "64", "deck"], 100, 100, 1, TEXT, ""),
        (&["run", "-"], 100, 100, 1, REPLY, ""),
        (&["run", "--memory=64", "-"], 100, 100, 1, REPLY, ""),
        (&["asm", "source"], 100, 100, 0, "130\n123\n3E0\n", ""),
        (
            &["asm", "source", "--origin", "9000"],
            100,
            100,
            0,
            "130\n123\n3E0\n",
            "",
        ),
        (&["dis", "words"], 100, 100, 0, "LDI 123\nRTN\n", ""),
        (&["asm", "-"], 100, 100, 1, "! 30 BadLine 1\n", ""),
    ];
    end(&rt, rt.alloc(), &rows)
}

#[test]
fn tells_what_fails(rt: HostRuntime) -> Result<(), Fail> {
    let wrong = "error: word 3 is not a hexadecimal number up to 3FF\n";
    let rows: [ProgramRow; 9] = [
        (&["run", "none"], 100, 100, 3, "", MISSING),
        (&["asm", "none"], 100, 100, 3, "", MISSING),
        (&["run", "none"], 100, 0, 3, "", ""),
        (&["run", "none"], 100, 3, 3, "", "! 22 ReadFault\nbench: "),
        (
            &["run", "torn"],
            100,
            100,
            3,
            "",
            "! 22 ReadFault\nbench: torn: it is torn\n",
        ),
        (&["run", "deck"], 0, 100, 3, "", "! 23 WriteFault\n"),
        (&["run", "torn"], 0, 0, 3, "", ""),
        (&["dis", "wrong"], 100, 100, 2, "", wrong),
        (&["dis", "wrong"], 100, 0, 2, "", ""),
    ];
    end(&rt, rt.alloc(), &rows)
}

#[test]
fn prints_what_is_asked_for(rt: HostRuntime) -> Result<(), Fail> {
    let rows: [ProgramRow; 6] = [
        (&["--help"], 100, 100, 0, USAGE, ""),
        (&["help"], 100, 100, 0, USAGE, ""),
        (&["run", "-h"], 100, 100, 0, USAGE, ""),
        (
            &["--version"],
            100,
            100,
            0,
            "bench 1.0.0, proved with rattle-kit-..",
            "",
        ),
        (&["--help"], 0, 100, 3, "", "! 23 WriteFault\n"),
        (&["-V"], 0, 0, 3, "", ""),
    ];
    end(&rt, rt.alloc(), &rows)
}

#[test]
fn tells_wrong_words(rt: HostRuntime) -> Result<(), Fail> {
    let rows: [ProgramRow; 13] = [
        (&[], 100, 100, 2, "", USAGE),
        (&["walk"], 100, 100, 2, "", USAGE),
        (&["run"], 100, 100, 2, "", USAGE),
        (&["run", "-", "-"], 100, 100, 2, "", USAGE),
        (&["run", "--walk"], 100, 100, 2, "", USAGE),
        (
            &["run", "--memory=64", "--memory=64", "-"],
            100,
            100,
            2,
            "",
            USAGE,
        ),
        (
            &["dis", "--origin", "9000", "-", "--origin", "9000"],
            100,
            100,
            2,
            "",
            USAGE,
        ),
        (
            &["run", "-", "--memory"],
            100,
            100,
            2,
            "",
            "a value is required..",
        ),
        (&["run", "--memory", "65", "-"], 100, 100, 2, "", MEMORY),
        (&["run", "--memory=", "-"], 100, 100, 2, "", MEMORY),
        (&["asm", "--origin", "900", "-"], 100, 100, 2, "", ORIGIN),
        (&["walk"], 100, 0, 3, "", ""),
        (&["run", "--memory", "65", "-"], 100, 1, 3, "", MEMORY),
    ];
    end(&rt, rt.alloc(), &rows)
}

#[test]
fn tells_words_that_cannot_be_had(rt: HostRuntime) {
    let rows = [
        (
            ErrorKind::InvalidData,
            2,
            "error: a word of the command line is not UTF-8\n",
        ),
        (ErrorKind::OutOfMemory, 3, "! 21 OutOfMemory\n"),
    ];
    for (kind, status, message) in rows {
        let mut open_file = |name: &str| open(name);
        let mut file = None;
        let mut input = FromRead::new(sound_text(INPUT));
        let mut output = writer(rt.alloc(), 1, 100);
        let mut faults = writer(rt.alloc(), 1, 100);
        let words = Err(io::Error::from(kind));
        let answered = run_program(
            rt.alloc(),
            words,
            &mut open_file,
            &mut file,
            &mut input,
            &mut output,
            &mut faults,
        );
        assert!(rt; answered == status, "status {answered}");
        wants(
            &rt,
            message,
            faults.taken.as_slice() == message.as_bytes() && output.taken.is_empty(),
        );
    }
}

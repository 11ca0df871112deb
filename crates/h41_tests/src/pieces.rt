//! Tests of decks that a stream delivers in pieces: cut at any byte, ended early, over streams that fail once, and of
//! what is flushed before more is read.

use crate::ends::Long;
use crate::judge::wants;
use crate::watched::{Once, Reader, Writer};
use h41_deck::{Fault, Outcome, run_deck};
use h41_jobs::{Job, MemorySize, Task};
use h41_serving::serve;
use std::alloc::{AllocError, Global};
use std::cell::Cell;
use std::process::Abort;
use std::test::Fail;

/// A deck for tests as the list of its commands, each with the lines of the command and its expected reply.
pub type Commands = &'static [(&'static str, &'static str)];

/// A deck that plugs microcode and executes it step by step.
const STEPPED: [(&str, &str); 4] = [
    ("words 8\n130 123 226 3E0\nend\n", ""),
    ("call 8000\n", ""),
    ("step 2\n", ""),
    ("show cpu\n", CPU),
];

/// The expected reply of `show cpu` in the deck `STEPPED`.
const CPU: &str = "A=00000000000000 B=00000000000000 C=00000000000124\n\
    M=00000000000000 N=00000000000000\nG=00 T=00 ST=0000 P=0 Q=0 PT=P\n\
    PC=8003 CY=0 MODE=HEX RAM=000 KY=00 KF=0\nRTN=00F0 0000 0000 0000\n";

/// A deck that enters a program as text, executes it, shows its bytes, and sets the number of data registers.
const PROGRAM: [(&str, &str); 12] = [
    ("program\nLBL \"T\"\n1\nENTER^\n3\n/\nend\n", ""),
    ("key XEQ ALPHA 9 ALPHA\n", ""),
    ("run 100\n", "ran 6 Idle\n"),
    ("show display\n", "0.3333\n"),
    ("show ram 19B\n", "19B=C000F200541183\n"),
    ("show ram 19A\n", "19A=13430000C00020\n"),
    ("size 319\n", "! 16 NoRoom\n"),
    ("size 320\n", "! 17 SizeTooLarge\n"),
    ("size 0\n", ""),
    ("key RCL 0 0\n", ""),
    ("show display\n", "NONEXISTENT\n"),
    ("show pos\n", "Idle 0000\n"),
];

/// A deck with a program that calls a module's function, which rewrites the program.
const REWRITTEN: [(&str, &str); 6] = [
    (
        "asm 8\nCON 005\nCON 002\nENTRY :H\nENTRY :K\nCON 000\nCON 000\nNAME \"KIT\"\nH: RTN\nNAME \"KILL\"\n\
         K: LDI 19A\nRAM SLCT\nREAD DATA\nR= 9\nLD@R 0\nLD@R 0\nWRIT DATA\nRTN\nend\n",
        "",
    ),
    ("program\nLBL \"T\"\nXROM 05,01\nGTO 01\nLBL 01\nend\n", ""),
    ("key XEQ ALPHA 9 ALPHA\n", ""),
    ("run 100\n", "ran 11 Idle\n"),
    ("show display\n", "NONEXISTENT\n"),
    ("show ram 19A\n", "19A=B2000000C00020\n"),
];

/// A deck of commands that are refused. The last of them is a block without its `end`.
const REFUSED: [(&str, &str); 3] = [
    ("fly\n", "! 50 BadCommand\n"),
    ("run x\n", "! 51 BadNumber\n"),
    ("words 8\n", "! 52 NoEnd\n"),
];

/// The decks that the tests of this module run.
const DECKS: [Commands; 4] = [&STEPPED, &PROGRAM, &REWRITTEN, &REFUSED];

/// Those decks of `DECKS` in which each command is complete.
const ENDED: [Commands; 3] = [&STEPPED, &PROGRAM, &REWRITTEN];

/// Returns the bytes of a deck: the lines of its commands in turn. `AllocError` if allocation failed.
fn lines_of(alloc: Global, deck: Commands) -> Result<Vec<u8>, AllocError> {
    let mut all = Vec::new(alloc);
    for (lines, _) in deck {
        all.extend_from_slice(lines.as_bytes())?;
    }
    Ok(all)
}

/// Returns the expected replies to the commands whose last line end is in the first `read` bytes of a deck.
/// `AllocError` if allocation failed.
fn text_within(alloc: Global, deck: Commands, read: usize) -> Result<Vec<u8>, AllocError> {
    let mut text = Vec::new(alloc);
    let mut end = 0usize;
    for (lines, reply) in deck {
        end = end.saturating_add(lines.len());
        if end <= read {
            text.extend_from_slice(reply.as_bytes())?;
        }
    }
    Ok(text)
}

/// Runs a deck that is delivered in pieces of at most `most` bytes, and returns its outcome and whether it writes
/// exactly `text`.
fn writes(alloc: Global, lines: &[u8], most: usize, text: &[u8]) -> Result<(Outcome, bool), Fault> {
    let mut reader = Reader::new(lines, most, None);
    let mut writer = Writer::new(alloc, 4096, None);
    let outcome = run_deck::<_, _, 320>(alloc, &mut reader, &mut writer)?;
    Ok((outcome, writer.taken.as_slice() == text))
}

#[test]
fn writes_the_same_in_any_pieces(rt: HostRuntime) -> Result<(), Fail> {
    for deck in DECKS {
        let lines = lines_of(rt.alloc(), deck)?;
        let text = text_within(rt.alloc(), deck, usize::MAX)?;
        for most in [1, 2, 7, 4096] {
            let (_, is_whole) = writes(rt.alloc(), &lines, most, &text)?;
            assert!(&rt; is_whole, "by {most}");
        }
    }
    Ok(())
}

/// What the deck `STEPPED` prints if it is cut off: a number of bytes and the text for at most so many bytes, but more
/// than in the row before.
const CUTS: [(usize, &str); 11] = [
    (0, ""),
    (4, "! 50 BadCommand\n"),
    (26, "! 52 NoEnd\n"),
    (28, ""),
    (33, "! 50 BadCommand\n"),
    (36, "! 51 BadNumber\n"),
    (38, ""),
    (41, "! 50 BadCommand\n"),
    (45, ""),
    (52, "! 50 BadCommand\n"),
    (54, CPU),
];

/// Returns what the deck `STEPPED` prints if it is cut off after `cut` bytes.
fn text_after(cut: usize) -> &'static str {
    for (last, text) in CUTS {
        if cut <= last {
            return text;
        }
    }
    ""
}

/// Returns the first `count` bytes of a slice, or all if it has fewer.
fn front(bytes: &[u8], count: usize) -> &[u8] {
    if count < bytes.len() {
        &bytes[..count]
    } else {
        bytes
    }
}

#[test]
fn a_deck_that_is_cut_has_its_own_text(rt: HostRuntime) -> Result<(), Fail> {
    let lines = lines_of(rt.alloc(), &STEPPED)?;
    wants(&rt, "every byte", lines.len() == 54);
    for cut in 0..55 {
        let text = text_after(cut);
        let (outcome, is_own) = writes(rt.alloc(), front(&lines, cut), 3, text.as_bytes())?;
        let ends_so = (outcome == Outcome::Refused) == text.starts_with('!');
        assert!(&rt; ends_so && is_own, "after {cut} bytes");
    }
    Ok(())
}

/// The job of executing a deck from standard input with 320 registers of memory.
const RUN: Job<'static> = Job {
    task: Task::Run {
        memory: MemorySize::Cv,
    },
    file: "-",
};

/// How executing a deck over streams, one call of which may fail, ended.
#[derive(Clone, Copy, Debug, PartialEq, Eq)]
struct Ended {
    /// Whether the line of the I/O error is reported and the exit status is 3.
    is_reported: bool,
    /// Whether exactly the expected replies are written.
    is_whole: bool,
    /// Whether what is written is a prefix of the expected replies.
    is_front: bool,
    /// Whether everything that is written is flushed.
    is_passed_on: bool,
    /// The number of calls of the input stream.
    reads: usize,
    /// The number of writes and flushes of the output stream.
    writes: usize,
}

/// Executes the deck `lines` over two streams, and returns how that ended. `reads` and `writes` are the most bytes per
/// call of each stream and the call that fails, if any; `line` is the expected line of the I/O error, and `text` the
/// expected replies.
fn served(
    alloc: Global,
    lines: &[u8],
    reads: (usize, Option<usize>),
    writes: (usize, Option<(usize, Once)>),
    line: &str,
    text: &[u8],
) -> Ended {
    let mut reader = Reader::new(lines, reads.0, reads.1);
    let mut writer = Writer::new(alloc, writes.0, writes.1);
    let mut faults = Writer::new(alloc, 4096, None);
    let status = serve(alloc, RUN, &mut reader, &mut writer, &mut faults);
    Ended {
        is_reported: status == 3 && faults.taken.as_slice() == line.as_bytes(),
        is_whole: writer.taken.as_slice() == text,
        is_front: text.starts_with(&writer.taken),
        is_passed_on: writer.is_passed_on(),
        reads: reader.calls(),
        writes: writer.calls(),
    }
}

/// A number of calls of a stream that executing a deck in these tests never reaches.
const CALLS: usize = 1000;

#[test]
fn a_read_that_fails_once_ends_the_deck(rt: HostRuntime) -> Result<(), Fail> {
    let lines = lines_of(rt.alloc(), &PROGRAM)?;
    for most in [1usize, 7, 4096] {
        let mut is_over = false;
        for call in 0..CALLS {
            if !is_over {
                let text = text_within(rt.alloc(), &PROGRAM, most.saturating_mul(call))?;
                let reads = (most, Some(call));
                let end = served(
                    rt.alloc(),
                    &lines,
                    reads,
                    (5, None),
                    "! 22 ReadFault\n",
                    &text,
                );
                is_over = end.reads <= call;
                let is_last = end.reads == call.saturating_add(1);
                let is_so = end.is_reported && end.is_whole && end.is_passed_on && is_last;
                assert!(&rt; is_over || is_so, "by {most} at read {call}");
            }
        }
        wants(&rt, "every read", is_over);
    }
    Ok(())
}

#[test]
fn a_write_that_fails_once_ends_the_deck(rt: HostRuntime) -> Result<(), Fail> {
    let lines = lines_of(rt.alloc(), &PROGRAM)?;
    let text = text_within(rt.alloc(), &PROGRAM, usize::MAX)?;
    for once in [Once::Fails, Once::TakesNothing] {
        for most in [1usize, 5, 4096] {
            let mut is_over = false;
            for call in 0..CALLS {
                if !is_over {
                    let writes = (most, Some((call, once)));
                    let end = served(
                        rt.alloc(),
                        &lines,
                        (4096, None),
                        writes,
                        "! 23 WriteFault\n",
                        &text,
                    );
                    is_over = end.writes <= call;
                    let is_last = end.writes == call.saturating_add(1);
                    let is_so = end.is_front && (is_over || end.is_reported && is_last);
                    assert!(&rt; is_so, "by {most} at write {call}");
                }
            }
            wants(&rt, "every write", is_over);
        }
    }
    Ok(())
}

#[test]
fn replies_are_passed_on_before_more_is_read(rt: HostRuntime) -> Result<(), Fail> {
    for deck in ENDED {
        let lines = lines_of(rt.alloc(), deck)?;
        let passed = Cell::new(0);
        let mut reader = Reader::new(&lines, 1, None);
        reader.watch(deck, &passed);
        let mut writer = Writer::new(rt.alloc(), 4096, None);
        writer.tell(&passed);
        let _ = run_deck::<_, _, 320>(rt.alloc(), &mut reader, &mut writer)?;
        wants(&rt, "passed on before each read", reader.was_in_time());
    }
    Ok(())
}

#[test]
fn a_read_costs_one_flush_at_most(rt: HostRuntime) -> Result<(), Fail> {
    for deck in DECKS {
        let lines = lines_of(rt.alloc(), deck)?;
        for most in [1, 2, 7, 4096] {
            let mut reader = Reader::new(&lines, most, None);
            let mut writer = Writer::new(rt.alloc(), 4096, None);
            let _ = run_deck::<_, _, 320>(rt.alloc(), &mut reader, &mut writer)?;
            let most_flushes = reader.calls().saturating_add(1);
            assert!(&rt; writer.flushes() <= most_flushes, "by {most}");
        }
    }
    Ok(())
}

#[test]
fn a_reader_that_never_ends_is_a_fault(rt: HostRuntime) {
    let mut reader = Long {
        before: b"fly\n",
        blanks: usize::MAX,
        after: b"",
        given: 0,
    };
    let mut writer = Writer::new(rt.alloc(), 4096, None);
    let result = run_deck::<_, _, 320>(rt.alloc(), &mut reader, &mut writer);
    wants(&rt, "a fault of reading", result == Err(Fault::ReadFault));
    let read = usize::MAX.saturating_sub(reader.blanks);
    wants(
        &rt,
        "no more than a block beyond",
        read <= 67_108_864 + 4096,
    );
    let text = "! 50 BadCommand\n";
    wants(&rt, text, writer.taken.as_slice() == text.as_bytes());
}

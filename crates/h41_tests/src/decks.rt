//! Tests of decks over streams that deliver and accept a few bytes per call and can fail, and of decks at the limit of
//! a deck's length.

use crate::ends::{Long, reader, writer};
use crate::judge::wants;
use h41_deck::{Fault, FromRead, Outcome, Sink, Source, ToWrite, run_deck};
use std::alloc::Global;
use std::io::{BufWriter, Cursor};
use std::process::Abort;
use std::test::Fail;

/// A deck for tests with two refused commands: `call 9000` and `fly`.
pub const DECK: &str =
    "words 8\n130 123\n226 3E0\nend\ncall 8000\ncall 9000\ntrace 2\nrun 0\nshow cpu\nfly\n";

/// The replies to the commands of the test deck `DECK`.
pub const TEXT: &str = "! 24 Busy\nMicro 8000 LDI 123\nMicro 8002 C=C+1 S&X\nran 0 Limit\n\
    A=00000000000000 B=00000000000000 C=00000000000124\n\
    M=00000000000000 N=00000000000000\nG=00 T=00 ST=0000 P=0 Q=0 PT=P\n\
    PC=8003 CY=0 MODE=HEX RAM=000 KY=00 KF=0\nRTN=00F0 0000 0000 0000\n! 50 BadCommand\n";

#[test]
fn runs_in_pieces(rt: HostRuntime) -> Result<(), Fail> {
    for (reads, writes) in [(1, 1), (2, 3), (7, 1), (100, 100), (1, 100), (100, 1)] {
        let mut reader = reader(DECK, reads, 1000);
        let mut writer = writer(rt.alloc(), writes, 1000);
        let outcome = run_deck::<_, _, 320>(rt.alloc(), &mut reader, &mut writer)?;
        let is_whole = writer.taken.as_slice() == TEXT.as_bytes();
        let holds = outcome == Outcome::Refused && is_whole;
        assert!(rt; holds, "by {reads} and {writes}");
        wants(&rt, "no end fails", !reader.failed() && !writer.failed());
    }
    Ok(())
}

/// The number of bytes of `DECK` up to the end of a command with a reply, and the number of bytes of `TEXT` up to the
/// end of this reply.
const ENDS: [(usize, usize); 5] = [
    (48, 10),
    (56, 50),
    (62, 62),
    (71, TEXT.len() - 16),
    (75, TEXT.len()),
];

/// Returns how many bytes of `TEXT` are replies to the commands whose last line end is in the first `read` bytes of
/// `DECK`.
fn text_within(read: usize) -> usize {
    let mut count = 0;
    for (end, text) in &ENDS {
        if *end <= read {
            count = *text;
        }
    }
    count
}

#[test]
fn stops_at_a_failed_read(rt: HostRuntime) {
    for calls in 0..=DECK.len().div_ceil(7) {
        let mut reader = reader(DECK, 7, calls);
        let mut writer = writer(rt.alloc(), 100, 1000);
        let result = run_deck::<_, _, 320>(rt.alloc(), &mut reader, &mut writer);
        let is_reported = result == Err(Fault::ReadFault) && reader.failed() && !writer.failed();
        let is_front = TEXT.as_bytes().starts_with(&writer.taken);
        let is_all = writer.taken.len() == text_within(7 * calls);
        assert!(rt;
            is_reported && is_front && is_all && writer.is_flushed(),
            "at call {calls}"
        );
    }
}

#[test]
fn stops_at_a_failed_write(rt: HostRuntime) {
    // After `TEXT.len()` writes of one byte each, the flush fails.
    for calls in [0, 1, 9, 10, 100, TEXT.len() - 1, TEXT.len()] {
        let mut reader = reader(DECK, 100, 1000);
        let mut writer = writer(rt.alloc(), 1, calls);
        let result = run_deck::<_, _, 320>(rt.alloc(), &mut reader, &mut writer);
        let is_reported = result == Err(Fault::WriteFault) && writer.failed() && !reader.failed();
        let is_front = TEXT.as_bytes().starts_with(&writer.taken);
        assert!(rt;
            is_reported && is_front && writer.taken.len() == calls,
            "at call {calls}"
        );
    }
}

#[test]
fn stops_where_a_write_takes_nothing(rt: HostRuntime) {
    let mut none = writer(rt.alloc(), 0, 1000);
    let result = run_deck::<_, _, 320>(rt.alloc(), &mut reader(DECK, 100, 1000), &mut none);
    let is_reported = result == Err(Fault::WriteFault) && none.failed();
    wants(
        &rt,
        "a sink that takes nothing",
        is_reported && none.taken.is_empty(),
    );

    // The 20 bytes are the first refusal and the start of the text of `trace`.
    let mut room = [0u8; 20];
    let mut full = ToWrite::new(Cursor::new(room.as_mut_slice()));
    let result = run_deck::<_, _, 320>(rt.alloc(), &mut reader(DECK, 100, 1000), &mut full);
    let is_reported = result == Err(Fault::WriteFault) && full.failed();
    let is_full = full.into_inner().position() == 20;
    let is_front = TEXT.as_bytes().starts_with(&room);
    wants(
        &rt,
        "a sink that is full",
        is_reported && is_full && is_front,
    );
}

/// Requires that a deck ends as expected and prints `text`. The deck consists of the bytes `before`, spaces up to
/// `count` bytes in all, and then the bytes `after`.
fn ends_at_the_bound(
    rt: &impl Abort,
    alloc: Global,
    (before, count, after): (&[u8], usize, &[u8]),
    expected: Result<Outcome, Fault>,
    text: &str,
) {
    wants(rt, "a count", before.len() <= count);
    let mut reader = Long {
        before,
        blanks: count - before.len(),
        after,
        given: 0,
    };
    let mut writer = writer(alloc, 100, 1000);
    let result = run_deck::<_, _, 320>(alloc, &mut reader, &mut writer);
    wants(rt, "how it ends", result == expected);
    wants(rt, text, writer.taken.as_slice() == text.as_bytes());
    wants(rt, "no end fails", !reader.failed() && !writer.failed());
}

#[test]
fn the_longest_deck_is_whole(rt: HostRuntime) {
    let text = "! 50 BadCommand\n! 53 LineTooLong\n";
    let deck: (&[u8], usize, &[u8]) = (b"fly\n", 67_108_864, b"");
    ends_at_the_bound(&rt, rt.alloc(), deck, Ok(Outcome::Refused), text);
}

#[test]
fn a_longer_deck_ends_with_its_last_whole_line(rt: HostRuntime) {
    let text = "! 51 BadNumber\n! 53 LineTooLong\n";
    let deck: (&[u8], usize, &[u8]) = (b"step x\n", 67_108_863, b"\nfly\n");
    ends_at_the_bound(&rt, rt.alloc(), deck, Err(Fault::ReadFault), text);
}

#[test]
fn an_open_block_of_a_longer_deck_prints_nothing(rt: HostRuntime) {
    let deck: (&[u8], usize, &[u8]) = (b"fly\nwords 8\n", 67_108_860, b"\n1\nend\n");
    ends_at_the_bound(
        &rt,
        rt.alloc(),
        deck,
        Err(Fault::ReadFault),
        "! 50 BadCommand\n",
    );
}

#[test]
fn flushes_a_writer_of_std(rt: HostRuntime) -> Result<(), Fail> {
    let inner = Cursor::new([0u8; 20]);
    let mut writer = ToWrite::new(BufWriter::new(rt.alloc(), inner)?);
    run_deck::<_, _, 320>(
        rt.alloc(),
        &mut FromRead::new("fly\n".as_bytes()),
        &mut writer,
    )?;
    wants(&rt, "no end fails", !writer.failed());
    let count = writer.into_inner().get_ref().position();
    wants(&rt, "all is passed on", count == 16);
    Ok(())
}

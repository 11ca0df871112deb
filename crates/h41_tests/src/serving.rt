//! Tests of executing decks, assembling and listing over streams that accept a few bytes per call and fail: the exit
//! status, what is on the output, and what is reported.

use crate::decks::{DECK, TEXT};
use crate::ends::{reader, writer};
use crate::judge::wants;
use h41_jobs::{Job, MemorySize, Task};
use h41_serving::serve;
use std::alloc::Global;
use std::process::Abort;

/// The task of executing a deck with 320 registers of memory.
const RUN: Task = Task::Run {
    memory: MemorySize::Cv,
};

/// The task of assembling a source whose first word is at address 8000.
const ASSEMBLE: Task = Task::Assemble { origin: 0x8000 };

/// The task of listing words, the first of which is at address 8000.
const LIST: Task = Task::List { origin: 0x8000 };

/// A job for a test: the task, its input, and the output that it is expected to have.
#[derive(Clone, Copy)]
struct GivenInput {
    task: Task,
    text: &'static str,
    /// What the job is expected to print if no stream fails.
    output: &'static str,
}

/// A row of a test table: how many calls the input, the output and the stream for errors accept; the expected exit
/// status, number of bytes on the output, and text on the stream for errors. Each write accepts one byte.
type ServedRow = (usize, usize, usize, u8, usize, &'static str);

/// Requires for each row that `serve` returns its exit status, that so many bytes of the expected output are written,
/// and that its text is reported.
fn end(rt: &impl Abort, alloc: Global, input: &GivenInput, rows: &[ServedRow]) {
    let job = Job {
        task: input.task,
        file: "-",
    };
    for (reads, writes, tells, status, count, message) in rows {
        let mut source = reader(input.text, 7, *reads);
        let mut output = writer(alloc, 1, *writes);
        let mut faults = writer(alloc, 1, *tells);
        let answered = serve(alloc, job, &mut source, &mut output, &mut faults);
        assert!(rt; answered == *status, "at {reads}, {writes}, {tells}");
        let is_front = input.output.as_bytes().starts_with(&output.taken);
        wants(rt, "the output", is_front && output.taken.len() == *count);
        wants(rt, message, faults.taken.as_slice() == message.as_bytes());
    }
}

#[test]
fn jobs(rt: HostRuntime) {
    let idle = GivenInput {
        task: RUN,
        text: "# idle\nstep\n",
        output: "",
    };
    end(&rt, rt.alloc(), &idle, &[(1000, 1000, 1000, 0, 0, "")]);

    let deck = GivenInput {
        task: RUN,
        text: DECK,
        output: TEXT,
    };
    let rows = [
        (1000, 1000, 1000, 1, TEXT.len(), ""),
        (3, 1000, 1000, 3, 0, "! 22 ReadFault\n"),
        (1000, 0, 1000, 3, 0, "! 23 WriteFault\n"),
        (1000, 30, 1000, 3, 30, "! 23 WriteFault\n"),
        (0, 0, 1000, 3, 0, "! 23 WriteFault\n"),
        (8, 1000, 1000, 3, 50, "! 22 ReadFault\n"),
        (1000, 30, 5, 3, 30, "! 23 "),
        (3, 1000, 0, 3, 0, ""),
    ];
    end(&rt, rt.alloc(), &deck, &rows);

    let source = GivenInput {
        task: ASSEMBLE,
        text: "LDI 123\nRTN\n",
        output: "130\n123\n3E0\n",
    };
    let rows = [
        (1000, 1000, 1000, 0, 12, ""),
        (1, 1000, 1000, 3, 0, "! 22 ReadFault\n"),
        (1000, 5, 1000, 3, 5, "! 23 WriteFault\n"),
        (1000, 12, 1000, 3, 12, "! 23 WriteFault\n"),
    ];
    end(&rt, rt.alloc(), &source, &rows);

    let list = GivenInput {
        task: LIST,
        text: "130 123 3E0",
        output: "LDI 123\nRTN\n",
    };
    end(&rt, rt.alloc(), &list, &rows);

    let wrong = GivenInput {
        task: LIST,
        text: "3E0 400 123",
        output: "",
    };
    let rows = [
        (1, 1000, 1000, 3, 0, "! 22 ReadFault\n"),
        (1000, 0, 1000, 3, 0, "! 23 WriteFault\n"),
        (1000, 1000, 6, 2, 0, "error:"),
    ];
    end(&rt, rt.alloc(), &wrong, &rows);
}

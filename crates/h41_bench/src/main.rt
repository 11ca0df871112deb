//! The HP-41 bench: runs decks of commands, assembles sources and lists words.
#![tactic(auto)]

use either::Either;
use h41_ends::{FromRead, ToWrite};
use h41_refusals::Fault;
use h41_serving::{run_program, tell};
use std::env;
use std::fs::File;
use std::io::{self, BufWriter};
use std::process::ExitCode;

fn main(rt: HostRuntime) -> ExitCode {
    let mut faults = ToWrite::new(rt.stderr());
    let Ok(output) = BufWriter::new(rt.alloc(), rt.stdout()) else {
        return ExitCode::from(tell(Fault::OutOfMemory, &mut faults));
    };
    let mut output = ToWrite::new(output);
    let mut input = FromRead::new(Either::Left(rt.stdin()));
    let mut open = |file: &str| File::open(&rt, file).map(Either::Right);
    let mut file = None;
    let words = words_of(&rt);
    let status = run_program(
        rt.alloc(),
        words,
        &mut open,
        &mut file,
        &mut input,
        &mut output,
        &mut faults,
    );
    ExitCode::from(status)
}

/// Returns the words of the command line, of which the first is the program's name. The error says that allocation
/// failed or that a word is not UTF-8.
fn words_of(rt: &HostRuntime) -> io::Result<Vec<String>> {
    Ok(env::args(rt)?.collect(rt.alloc())?)
}

//! The program: what it does with the words of its command line, a file or standard input, and its two outputs.

ghost use Rattle.std.specs.Prelude.{◌≡◌, ◌≢◌, ◌≤◌, false, IfErr, IfOk, List, ℕ, map, string_bytes};
ghost use Rattle.std.specs.Fn.{TakesAt};
ghost use Rattle.std.specs.IoError.{error_kind};
ghost use Rattle.h41_ends.specs.Ends.{has_read_failed};
ghost use Rattle.h41_serving.specs.Program.{AnswersPlainly, AnswersWords, DoesJob, EndsAtOnce};
ghost use Rattle.h41_serving.specs.Program.{EndsMistaken, PrintsText, RunsOut, ServesNamed};
ghost use Rattle.h41_serving.specs.Program.{TellsUnopened, mistake_status, no_text, with_own_name};
ghost use Rattle.h41_serving.specs.Tasks.{Tells};

use crate::causes::{NAME, tell_cause};
use crate::serving::{ACCEPTED, FAILED, MISTAKEN, serve, tell, tell_text};
use h41_ends::{FromRead, Sink, Source};
use h41_jobs::{Ending, Job, read_words};
use h41_refusals::Fault;
use std::alloc::{AllocError, Global};
use std::io::{self, ErrorKind, Read};

/// The message if a word of the command line is not UTF-8.
const NO_TEXT: &str = "error: a word of the command line is not UTF-8\n";

/// Does what the words of the command line ask for, of which the first is the program's name, and returns the exit
/// status: that of the deck, source or list; 0 for help and the version; 2 for wrong words; 3 if allocation or a stream
/// failed.
///
/// The program reads the file that the words name, which `open_file` opens, or standard input if the name is `-`. If it
/// opens a file, `file` receives the source over it, as the job leaves it; otherwise `file` does not change. The text,
/// help and the version go to `output`. Messages about wrong words, and I/O errors, go to `faults`. The error flags of
/// the three streams must be clear.
pub fn run_program<O: FnMut(&str) -> io::Result<R>, R: Read + Drop, W: Sink, E: Sink>(
    alloc: Global,
    words: io::Result<Vec<String>>,
    open_file: &mut O,
    file: &mut Option<FromRead<R>>,
    input: &mut FromRead<R>,
    output: &mut W,
    faults: &mut E,
) -> u8
    requires opens { (name : List ℕ) → TakesAt O.FnMut open_file.old name }
    requires input_clear { has_read_failed input.old ≡ false }
    requires output_clear { W.failed output.old ≡ false }
    requires faults_clear { E.failed faults.old ≡ false }
    ensures words { IfOk words (λ all. AnswersWords
        O.FnMut ⟦<FromRead<R> as Source>⟧ W.Sink E.Sink open_file.old open_file.new
        file.old file.new input.old input.new output.old output.new
        faults.old faults.new result
        (with_own_name (map string_bytes all.items))) }
    ensures plainly { IfOk words (λ all. AnswersPlainly
        O.FnMut ⟦<FromRead<R> as Source>⟧ W.Sink E.Sink open_file.old open_file.new
        file.old file.new input.old input.new output.old output.new
        faults.old faults.new result
        (with_own_name (map string_bytes all.items))) }
    ensures no_memory { IfErr words (λ error. error_kind error ≡ ErrorKind.OutOfMemory
        → RunsOut
        O.FnMut ⟦<FromRead<R> as Source>⟧ W.Sink E.Sink open_file.old open_file.new
        file.old file.new input.old input.new output.old output.new
        faults.old faults.new result) }
    ensures no_text { IfErr words (λ error. error_kind error ≢ ErrorKind.OutOfMemory
        → EndsMistaken
        O.FnMut ⟦<FromRead<R> as Source>⟧ W.Sink E.Sink open_file.old open_file.new
        file.old file.new input.old input.new output.old output.new
        faults.old faults.new result no_text) }
    ensures bound { result ≤ 3 }
{
    match words {
        Ok(words) => run_words(
            alloc,
            words.as_slice(),
            open_file,
            file,
            input,
            output,
            faults,
        ),
        Err(error) if error.kind() == ErrorKind::OutOfMemory => tell(Fault::OutOfMemory, faults),
        Err(_) => tell_wrong(NO_TEXT, faults),
    }
}

/// Does what the words of the command line ask for, each of which is UTF-8, and returns the exit status, 0 to 3. The
/// first word is the program's name.
fn run_words<O: FnMut(&str) -> io::Result<R>, R: Read + Drop, W: Sink, E: Sink>(
    alloc: Global,
    words: &[String],
    open_file: &mut O,
    file: &mut Option<FromRead<R>>,
    input: &mut FromRead<R>,
    output: &mut W,
    faults: &mut E,
) -> u8
    requires opens { (name : List ℕ) → TakesAt O.FnMut open_file.old name }
    requires input_clear { has_read_failed input.old ≡ false }
    requires output_clear { W.failed output.old ≡ false }
    requires faults_clear { E.failed faults.old ≡ false }
    ensures words { AnswersWords
        O.FnMut ⟦<FromRead<R> as Source>⟧ W.Sink E.Sink open_file.old open_file.new
        file.old file.new input.old input.new output.old output.new
        faults.old faults.new result
        (with_own_name (map string_bytes words.now)) }
    ensures bound { result ≤ 3 }
{
    let Ok(words) = named(alloc, words) else {
        return tell(Fault::OutOfMemory, faults);
    };
    match read_words(alloc, words.as_slice()) {
        Ok(job) => run_job(alloc, job, open_file, file, input, output, faults),
        Err(ending) => end(&ending, output, faults),
    }
}

/// Returns the words of the command line with `bench` as the first, whatever name the program was started under.
/// OutOfMemory (21) if allocation failed.
fn named(alloc: Global, words: &[String]) -> Result<Vec<&str>, AllocError>
    ensures { IfOk result (λ all. map (λ w. w.now) all.items
        ≡ with_own_name (map string_bytes words.now)) }
{
    let mut named = Vec::new(alloc);
    named.push(NAME)?;
    if let [_, others @ ..] = words {
        for word in others {
            named.push(word.as_str())?;
        }
    }
    Ok(named)
}

/// Ends the program without a task: prints help or the version, or reports wrong words or failed allocation. Returns
/// the exit status, 0, 2 or 3.
fn end<W: Sink, E: Sink>(ending: &Ending, output: &mut W, faults: &mut E) -> u8
    requires output_clear { W.failed output.old ≡ false }
    requires faults_clear { E.failed faults.old ≡ false }
    ensures { EndsAtOnce W.Sink E.Sink output.old output.new faults.old faults.new result
        ending.now }
{
    match ending {
        Ending::Help(text) => print(text.as_str(), output, faults),
        Ending::Mistake(text) => tell_wrong(text.as_str(), faults),
        Ending::OutOfMemory => tell(Fault::OutOfMemory, faults),
    }
}

/// Prints help or the version. Returns the exit status 0, or 3 if the output fails; the failure is reported to
/// `faults`.
fn print<W: Sink, E: Sink>(text: &str, output: &mut W, faults: &mut E) -> u8
    requires output_clear { W.failed output.old ≡ false }
    requires faults_clear { E.failed faults.old ≡ false }
    ensures { PrintsText W.Sink E.Sink output.old output.new faults.old faults.new result text.now }
{
    tell_text(text, output);
    if output.failed() {
        tell(Fault::WriteFault, faults)
    } else {
        ACCEPTED
    }
}

/// Reports what is wrong with the words of the command line. Returns the exit status 2, or 3 if the message cannot be
/// written.
fn tell_wrong<E: Sink>(text: &str, faults: &mut E) -> u8
    requires { E.failed faults.old ≡ false }
    ensures status { result ≡ mistake_status (E.failed faults.new) }
    ensures line { Tells E.Sink faults.old faults.new text.now }
{
    tell_text(text, faults);
    if faults.failed() { FAILED } else { MISTAKEN }
}

/// Does the task of `job` with the file that it names, or with standard input if the name of the file is `-`. If a file
/// is opened, `file` receives the source over it, as the job leaves it. Returns the exit status, 0 to 3.
fn run_job<O: FnMut(&str) -> io::Result<R>, R: Read + Drop, W: Sink, E: Sink>(
    alloc: Global,
    job: Job<'_>,
    open_file: &mut O,
    file: &mut Option<FromRead<R>>,
    input: &mut FromRead<R>,
    output: &mut W,
    faults: &mut E,
) -> u8
    requires opens { (name : List ℕ) → TakesAt O.FnMut open_file.old name }
    requires input_clear { has_read_failed input.old ≡ false }
    requires output_clear { W.failed output.old ≡ false }
    requires faults_clear { E.failed faults.old ≡ false }
    ensures { DoesJob
        O.FnMut ⟦<FromRead<R> as Source>⟧ W.Sink E.Sink open_file.old open_file.new
        file.old file.new input.old input.new output.old output.new
        faults.old faults.new result job.entry }
{
    if job.file == "-" {
        return serve_named(alloc, job, input, output, faults);
    }
    match open_file(job.file) {
        Ok(opened) => {
            let mut source = FromRead::new(opened);
            let status = serve_named(alloc, job, &mut source, output, faults);
            *file = Some(source);
            status
        }
        Err(error) => tell_unopened(job.file, &error, faults),
    }
}

/// Reports that a file cannot be opened, ReadFault (22), with the operating system's message. Returns the exit status
/// 3.
fn tell_unopened<E: Sink>(file: &str, error: &io::Error, faults: &mut E) -> u8
    requires { E.failed faults.old ≡ false }
    ensures status { result ≡ 3 }
    ensures line { TellsUnopened E.Sink faults.old faults.new file.now }
{
    let status = tell(Fault::ReadFault, faults);
    tell_cause(file, error, faults);
    status
}

/// Does the task of `job` with the bytes of `reader`, and reports the operating system's message about the file that
/// `job` names if a read failed. Returns the exit status.
fn serve_named<R: Read, W: Sink, E: Sink>(
    alloc: Global,
    job: Job<'_>,
    reader: &mut FromRead<R>,
    output: &mut W,
    faults: &mut E,
) -> u8
    requires reader_clear { has_read_failed reader.old ≡ false }
    requires output_clear { W.failed output.old ≡ false }
    requires faults_clear { E.failed faults.old ≡ false }
    ensures { ServesNamed ⟦<FromRead<R> as Source>⟧ W.Sink E.Sink reader.old reader.new
        output.old output.new faults.old faults.new result job.entry }
{
    let status = serve(alloc, job, reader, output, faults);
    match reader.error() {
        Some(error) => {
            tell_cause(job.file, error, faults);
            status
        }
        None => status,
    }
}

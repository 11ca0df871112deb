//! Reads the command line: returns what its words ask the program to do, or how the program ends without doing
//! anything.

ghost use Rattle.std.specs.Prelude.{◌≡◌, [], true, false, codes, map, IfOk, IfSome, IfNone};
ghost use Rattle.std.specs.Prelude.{IsErrAnd, option_map};
ghost use Rattle.clap.specs.Words.{App, FailsBy, HasMatchesOf, app_of, fault_of, first_of};
ghost use Rattle.clap.specs.Words.{found_of, new_app, with_subcommand};
ghost use Rattle.clap.specs.Words.{kind_of, rows_of, rule_of};
ghost use Rattle.clap.specs.Words.{subcommand_rows_of};
ghost use Rattle.clap.specs.declared.error.kind.ErrorKind.TheVariants as kind;
ghost use Rattle.h41_jobs.specs.BenchCommand.{bench_app, empty_bench, file_rule, command_in};
ghost use Rattle.h41_jobs.specs.BenchCommand.{has_globals, job_in, memory_asked, memory_in};
ghost use Rattle.h41_jobs.specs.BenchCommand.{option_app, origin_app, origin_asked, origin_in};
ghost use Rattle.h41_jobs.specs.BenchCommand.{origin_rule, option_rule, run_app, task_asked};
ghost use Rattle.h41_jobs.specs.CommandLine.{asks_help, asks_version, asm_file, dis_file};
ghost use Rattle.h41_jobs.specs.CommandLine.{file_to_run, give_memory, gives_twice};
ghost use Rattle.h41_jobs.specs.CommandLine.{gives_wrong_value, is_mistake};
ghost use Rattle.h41_jobs.specs.Ending.{AsksForNoRun, AsksTo, AsksToRun, EndsAtOnce, EndsWith};
ghost use Rattle.h41_jobs.specs.Ending.{GivesJob, GivesJobOf, IsNoHelp, RefusedByKind, SaysMistake};
ghost use Rattle.h41_jobs.specs.Ending.{SaysWrongOption, option_mistake, parts_of, status_of};

use crate::memory::{MemorySize, written_size};
use crate::origin::origin_value;
use clap::error::ErrorKind;
use clap::{Arg, ArgAction, ArgMatches, Command, Error};
use std::alloc::{AllocError, Global};

/// What the program does with the file that the command line names.
#[derive(Clone, Copy, Debug, PartialEq, Eq)]
pub enum Task {
    /// Executes the deck in the file, on a bench with this size of memory (`bench run`).
    Run { memory: MemorySize },
    /// Assembles the source in the file (`bench asm`). The first word is at the address `origin`.
    Assemble { origin: u16 },
    /// Lists the words in the file as instructions (`bench dis`). The first word is at the address `origin`.
    List { origin: u16 },
}

/// What the command line asks for: a task, and the file to do it with.
#[derive(Clone, Copy, Debug, PartialEq, Eq)]
pub struct Job<'a> {
    /// What the program does with the file that `file` names: executes it as a deck, assembles it or lists it.
    pub task: Task,
    /// The name of the file that the program reads; `-` is standard input.
    pub file: &'a str,
}

/// How the program ends if its command line asks for help or the version, is wrong, or cannot be read.
#[derive(Debug, Drop)]
pub enum Ending {
    /// Help or the version was asked for. The text is for standard output.
    Help(String),
    /// The words of the command line are wrong. The text says so and is for standard error.
    Mistake(String),
    /// OutOfMemory (21): allocation failed, for the words of the command line or for a text.
    OutOfMemory,
}

impl Ending {
    /// Returns the exit status of the program: 0 for help and the version, 2 if the words of the command line are
    /// wrong, 3 if allocation failed.
    pub fn status(&self) -> u8
        ensures { result ≡ status_of self.now }
    {
        match self {
            Ending::Help(_) => 0,
            Ending::Mistake(_) => 2,
            Ending::OutOfMemory => 3,
        }
    }
}

/// The address of the first ROM word if `--origin` is not given: 8000 (hexadecimal).
const ORIGIN: u16 = 0x8000;

/// The size of memory if `--memory` is not given: 320 registers.
const MEMORY: MemorySize = MemorySize::Cv;

/// The version of the program, and that of the Rattle kit which proves it, as `rt version` prints it.
const VERSION: &str = "1.0.0, proved with rattle-kit-13f logic dac8208d650f15bf";

/// The message if the value of `--origin` is not four hexadecimal digits.
const WRONG_ORIGIN: &str = "error: wrong value of --origin: expected four hexadecimal digits\n";

/// The message if the value of `--memory` is not 64, 128, 192, 256 or 320.
const WRONG_MEMORY: &str = "error: wrong value of --memory: expected 64, 128, 192, 256 or 320\n";

/// The usage of the program `bench`, as `bench --help` prints it.
const USAGE: &str = "\
bench run [--memory N] FILE
       bench asm [--origin HHHH] FILE
       bench dis [--origin HHHH] FILE";

/// The text that the help of `bench` and of `bench run` prints after the usage.
const DECKS: &str = "\
A deck is a text file of commands, one a line. For example:

    words 8
    130 123 226 3E0
    end
    call 8000
    step 2
    show cpu

  words P [bN] [rw]  fills bank N of page P, 4 to F, with the words up to `end`
  image P [bN] [rw]  likewise with the bytes of an image file, in hexadecimal
  asm P [bN] [rw]  likewise with the words of the source on these lines
  unplug P      unplugs page P with all its banks
  load          loads a keystroke program from the bytes up to `end`
  program       likewise from its text, one program line on each line
  size n        sets the number of data registers
  reset         restores the initial state; pages stay plugged
  call hhhh     starts the function at an address
  key NAME ..   presses keys in turn, by what is printed on them
  step [n]      executes n instructions or program lines, one if n is missing
  run n         the same, but stops earlier if there is a reason, and prints it
  trace n       the same as step, and prints each of them before its execution
  break w hhhh  sets a breakpoint at a word of a function
  break l n     sets one at a program line in memory, by its position
  break p hhhh  sets one at a program line in a page, by its address
  unbreak w hhhh  removes the breakpoint at a word
  unbreak l n   removes the one at a program line in memory
  unbreak p hhhh  removes the one at a program line in a page
  list hhhh n   prints n words from an address on, as instructions
  show cpu      prints the processor
  show ram hhh  prints the register at an address in memory
  show stack    prints the registers T, Z, Y, X and L of the stack
  show flags    prints the numbers of the flags that are set
  show alpha    prints the text of ALPHA
  show display  prints what the display shows
  show pos      prints what runs, a function or a program, and the position
  show lines    prints the lines of program memory
  show image P [bN]  prints the image at page P in hexadecimal
  show functions  prints the functions of plugged modules
  # ...         is a comment if # is the first character of the line

If a command is refused, a line such as `! 24 Busy` is printed, and the deck
continues with the next command.

The program ends with status 0 if nothing was refused, 1 if a refusal was
printed, 2 if the command line is wrong, and 3 if the deck could not be read,
the output could not be written, or an allocation failed.

In the folder of the sources, README.md is the introduction, docs/DECK.md
describes the whole deck language with each refusal and its usual causes,
examples/ has decks to try, and tools/where prints which lines were refused.";

/// The text that the help of `bench asm` prints after the usage.
const SOURCES: &str = "\
A source is a text file of instructions, one a line, in the mnemonics of this
project's table, docs/PROCESSOR.md. A label ends with a colon, a reference to it
begins with one, and a comment begins with a semicolon. For example:

    BACK: LDI 123
          C=C+1 S&X
          JNC :BACK ; until the carry is set
          RTN

Its words are printed, each as three hexadecimal digits on a line of its own. If
the source has an error, a line such as `! 30 BadLine 2` is printed, which gives
the number of the wrong line, and the status is 1.";

/// The text that the help of `bench dis` prints after the usage.
const WORDS: &str = "\
The words are hexadecimal numbers up to 3FF, separated by spaces, tabs and line
ends. For example:

    130 123 226 3E0

They are printed as instructions, one a line. The origin changes none of them,
because a jump is printed with its address or its distance. If something else is
among the words, nothing is listed and the program ends with status 2.";

/// Returns the parser of the command `bench` with its subcommands `run`, `asm` and `dis`. OutOfMemory (21) if
/// allocation failed.
fn bench<'a>(alloc: Global) -> Result<Command<'a>, AllocError>
    ensures { IfOk result (λ command. app_of command ≡ bench_app) }
{
    let with_run = with_task(empty_bench(alloc), run_command(alloc))?;
    let with_assemble = with_task(with_run, assemble_command(alloc))?;
    with_task(with_assemble, list_command(alloc))
}

/// Returns the parser of the command `bench` without its subcommands.
fn empty_bench<'a>(alloc: Global) -> Command<'a>
    ensures { app_of result ≡ empty_bench }
{
    let about = "Runs decks of commands for the HP-41 bench, assembles sources, lists words";
    command_with_help(alloc, "bench", about, USAGE, DECKS)
        .version(VERSION)
        .subcommand_required(true)
}

/// Returns the parser `bench` with `task` as one more subcommand. OutOfMemory (21) if allocation failed, here or when
/// `task` was made.
fn with_task<'a>(
    bench: Command<'a>,
    task: Result<Command<'a>, AllocError>,
) -> Result<Command<'a>, AllocError>
    requires { IfOk task (λ command. has_globals command ≡ false) }
    ensures { (added : App) → IfOk task.entry (λ command. app_of command ≡ added)
        → IfOk result (λ command. app_of command ≡ with_subcommand (app_of bench.entry) added.top) }
{
    bench.subcommand(task?)
}

/// Returns the parser of the subcommand `run`, which executes a deck, with `--memory` and FILE. OutOfMemory (21) if
/// allocation failed.
fn run_command<'a>(alloc: Global) -> Result<Command<'a>, AllocError>
    ensures app { IfOk result (λ command. app_of command ≡ run_app) }
    ensures local { IfOk result (λ command. has_globals command ≡ false) }
{
    let usage = "bench run [--memory N] FILE";
    let help = "The number of registers of memory: 64, 128, 192, 256 or 320 [default: 320]";
    let memory = option_argument(alloc, "memory", "N", help);
    option_command(
        alloc,
        "run",
        "Runs a deck of commands",
        usage,
        DECKS,
        memory,
    )
}

/// Returns the parser of the subcommand `asm`, which assembles a source, with `--origin` and FILE. OutOfMemory (21) if
/// allocation failed.
fn assemble_command<'a>(alloc: Global) -> Result<Command<'a>, AllocError>
    ensures app { IfOk result (λ command. app_of command ≡ origin_app (codes "asm")) }
    ensures local { IfOk result (λ command. has_globals command ≡ false) }
{
    let usage = "bench asm [--origin HHHH] FILE";
    let origin = origin_argument(alloc);
    option_command(alloc, "asm", "Assembles a source", usage, SOURCES, origin)
}

/// Returns the parser of the subcommand `dis`, which lists words as instructions, with `--origin` and FILE. OutOfMemory
/// (21) if allocation failed.
fn list_command<'a>(alloc: Global) -> Result<Command<'a>, AllocError>
    ensures app { IfOk result (λ command. app_of command ≡ origin_app (codes "dis")) }
    ensures local { IfOk result (λ command. has_globals command ≡ false) }
{
    let usage = "bench dis [--origin HHHH] FILE";
    let origin = origin_argument(alloc);
    option_command(
        alloc,
        "dis",
        "Lists words as instructions",
        usage,
        WORDS,
        origin,
    )
}

/// Returns the parser of a subcommand with one option, `option`, and the argument FILE. Its help prints `about`, which
/// says what the subcommand does, then `usage`, then `text`. OutOfMemory (21) if allocation failed.
fn option_command<'a>(
    alloc: Global,
    name: &'a str,
    about: &'a str,
    usage: &'a str,
    text: &'a str,
    option: Arg<'a>,
) -> Result<Command<'a>, AllocError>
    requires { option.global ≡ false }
    ensures app { IfOk result
        (λ command. app_of command ≡ option_app name.now (rule_of option.entry)) }
    ensures local { IfOk result (λ command. has_globals command ≡ false) }
{
    command_with_help(alloc, name, about, usage, text)
        .arg(option)?
        .arg(file_argument(alloc))
}

/// Returns the parser of a command without arguments. Its help prints `about`, which says what the command does, then
/// `usage`, then `text`.
fn command_with_help<'a>(
    alloc: Global,
    name: &'a str,
    about: &'a str,
    usage: &'a str,
    text: &'a str,
) -> Command<'a>
    ensures app { app_of result ≡ new_app name.now }
    ensures local { has_globals result ≡ false }
{
    Command::new(alloc, name)
        .about(about)
        .override_usage(usage)
        .after_help(text)
}

/// Returns the option `--origin`, whose value is the address of the first word.
fn origin_argument<'a>(alloc: Global) -> Arg<'a>
    ensures rule { rule_of result ≡ origin_rule }
    ensures local { result.global ≡ false }
{
    let help = "The address of the first word, four hexadecimal digits [default: 8000]";
    option_argument(alloc, "origin", "HHHH", help)
}

/// Returns the option `--name` with one value. Help prints `value`, the name of the value, and `help`, what the option
/// is for.
fn option_argument<'a>(alloc: Global, name: &'a str, value: &'a str, help: &'a str) -> Arg<'a>
    ensures rule { rule_of result ≡ option_rule name.now }
    ensures local { result.global ≡ false }
{
    Arg::new(alloc, name)
        .long(name)
        .value_name(value)
        .help(help)
        .action(ArgAction::Set)
}

/// Returns the required argument FILE: the name of the file to read, or `-` for standard input.
fn file_argument<'a>(alloc: Global) -> Arg<'a>
    ensures rule { rule_of result ≡ file_rule }
    ensures local { result.global ≡ false }
{
    Arg::new(alloc, "FILE")
        .help("The file to read, or - for standard input")
        .required(true)
        .action(ArgAction::Set)
}

/// Parses the words of the command line as the command `bench`, and returns the arguments that they contain. The error
/// says why they are refused, or that help or the version is asked for.
fn matched<'a>(alloc: Global, words: &'a [&'a str]) -> Result<ArgMatches<'a>, Error>
    ensures kinds { FailsBy (fault_of bench_app (map (λ w. w.now) words.now)) result }
    ensures matches { IfOk result (HasMatchesOf bench_app (map (λ w. w.now) words.now)) }
{
    bench(alloc)?.try_get_matches_from(words)
}

/// Returns the task and the file in the arguments of `bench`, or `None` if the value of `--memory` or `--origin` is
/// wrong.
fn job_of<'a>(matches: &ArgMatches<'a>) -> Option<Job<'a>>
    ensures { option_map parts_of result ≡ job_in (subcommand_rows_of matches.now) }
{
    let (name, command) = matches.subcommand()?;
    let task = task_of(name, command)?;
    let file = value_of(command, "FILE")?;
    Some(Job { task, file })
}

/// Returns the task of the subcommand `name`: `run`, `asm` or `dis`. `None` if the value of its option, `--memory` or
/// `--origin`, is wrong.
fn task_of(name: &str, command: &ArgMatches<'_>) -> Option<Task>
    ensures { result ≡ task_asked name.now (memory_in command.now) (origin_in command.now) }
{
    match name {
        "run" => Some(Task::Run {
            memory: memory_of(command)?,
        }),
        "asm" => Some(Task::Assemble {
            origin: origin_of(command)?,
        }),
        "dis" => Some(Task::List {
            origin: origin_of(command)?,
        }),
        _ => None,
    }
}

/// Returns the value of a subcommand's argument or option with this name, or `None` if it is not given.
fn value_of<'a>(command: &ArgMatches<'a>, name: &str) -> Option<&'a str>
    ensures { option_map (λ text. text.now) result
        ≡ first_of name.now (rows_of (found_of command.now)) }
{
    command.get_str(name)
}

/// Returns the size of memory that `--memory` asks for: 320 registers if it is not given. `None` if its value is not
/// 64, 128, 192, 256 or 320.
fn memory_of(command: &ArgMatches<'_>) -> Option<MemorySize>
    ensures { result ≡ memory_asked (memory_in command.now) }
{
    match value_of(command, "memory") {
        Some(text) => written_size(text),
        None => Some(MEMORY),
    }
}

/// Returns the address of the first word that `--origin` asks for: 8000 (hexadecimal) if it is not given. `None` if its
/// value does not have four hexadecimal digits.
fn origin_of(command: &ArgMatches<'_>) -> Option<u16>
    ensures { result ≡ origin_asked (origin_in command.now) }
{
    match value_of(command, "origin") {
        Some(digits) => origin_value(digits),
        None => Some(ORIGIN),
    }
}

/// Returns the task and the file in the arguments of `bench`, or the ending with the message if the value of `--memory`
/// or `--origin` is wrong.
fn job_or_mistake<'a>(alloc: Global, matches: &ArgMatches<'a>) -> Result<Job<'a>, Ending>
    ensures job { GivesJob (job_in (subcommand_rows_of matches.now)) result }
    ensures option { IfNone (job_in (subcommand_rows_of matches.now))
        (IsErrAnd result
        (SaysMistake (option_mistake (command_in (subcommand_rows_of matches.now))))) }
{
    match job_of(matches) {
        Some(job) => Ok(job),
        None => Err(wrong_option(alloc, matches.subcommand_name())),
    }
}

/// Returns the ending with the message that the value of the option of this subcommand is wrong, or `OutOfMemory` (21)
/// if allocation failed.
fn wrong_option(alloc: Global, command: Option<&str>) -> Ending
    ensures status { EndsWith 2 result }
    ensures text { SaysMistake (option_mistake (option_map (λ name. name.now) command.entry))
        result }
{
    match String::from_str(alloc, wrong_option_text(command)) {
        Ok(text) => Ending::Mistake(text),
        Err(_) => Ending::OutOfMemory,
    }
}

/// Returns the message that the value of a subcommand's option is wrong: of `--memory` for `run`, and of `--origin`
/// otherwise.
fn wrong_option_text(command: Option<&str>) -> &'static str
    ensures { result.now ≡ option_mistake (option_map (λ name. name.now) command.entry) }
{
    match command {
        Some("run") => WRONG_MEMORY,
        _ => WRONG_ORIGIN,
    }
}

/// Returns how the program ends if parsing the command line did not succeed: with help or the version if the words ask
/// for it, otherwise with the message of `error`, or with `OutOfMemory` (21) if allocation failed.
fn make_ending(alloc: Global, error: Error) -> Ending
    ensures memory { kind_of error ≡ kind.OutOfMemory → result ≡ Ending.OutOfMemory }
    ensures help { kind_of error ≡ kind.DisplayHelp → EndsWith 0 result }
    ensures version { kind_of error ≡ kind.DisplayVersion → EndsWith 0 result }
    ensures mistake { IsNoHelp (kind_of error) → EndsWith 2 result }
{
    if error.kind() == ErrorKind::OutOfMemory {
        return Ending::OutOfMemory;
    }
    match format!(in alloc; "{error}") {
        Ok(text) if error.use_stderr() => Ending::Mistake(text),
        Ok(text) => Ending::Help(text),
        Err(_) => Ending::OutOfMemory,
    }
}

/// Reads the words of the command line, of which the first is the program's name, and returns the task and the file
/// that they ask for: `run FILE` with an optional `--memory N`, or `asm FILE` or `dis FILE` with an optional
/// `--origin HHHH`. FILE is `-` or does not begin with a hyphen, or `--` is before or after it.
///
/// # Errors
///
/// `Help` (exit status 0) if help or the version is asked for, `Mistake` (exit status 2) if the words are wrong, and
/// `OutOfMemory` (exit status 3) if allocation failed.
pub fn read_words<'a>(alloc: Global, words: &'a [&'a str]) -> Result<Job<'a>, Ending>
    ensures run { IfSome (file_to_run (map (λ w. w.now) words.now)) (AsksToRun result) }
    ensures no_run { give_memory (map (λ w. w.now) words.now) ≡ false
        → IfNone (file_to_run (map (λ w. w.now) words.now)) (AsksForNoRun result) }
    ensures asm { IfSome (asm_file words.now) (AsksTo result (Task.Assemble 0x8000)) }
    ensures dis { IfSome (dis_file words.now) (AsksTo result (Task.List 0x8000)) }
    ensures help { asks_help (map (λ w. w.now) words.now) ≡ true → EndsAtOnce 0 result }
    ensures version { asks_version (map (λ w. w.now) words.now) ≡ true → EndsAtOnce 0 result }
    ensures mistake { is_mistake (map (λ w. w.now) words.now) ≡ true → EndsAtOnce 2 result }
    ensures twice { gives_twice (map (λ w. w.now) words.now) ≡ true → EndsAtOnce 2 result }
    ensures value { gives_wrong_value (map (λ w. w.now) words.now) ≡ true → EndsAtOnce 2 result }

    // If a parse refuses the words, the status is that of its error's kind: 0 for help and the version, and 2 for any other. If
    // it accepts them, the job is that of the command, the FILE and the option in them, and a wrong option ends the program.
    ensures refused { RefusedByKind (map (λ w. w.now) words.now) result }
    ensures job { GivesJobOf (map (λ w. w.now) words.now) result }
    ensures option { SaysWrongOption (map (λ w. w.now) words.now) result }
{
    match matched(alloc, words) {
        Ok(matches) => job_or_mistake(alloc, &matches),
        Err(error) => Err(make_ending(alloc, error)),
    }
}

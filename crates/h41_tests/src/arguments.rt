//! Tests of the words of the command line: what they ask for, and which of them are refused.

use crate::judge::wants;
use h41_jobs::{MemorySize, Task, read_words, text_of};
use std::alloc::Global;
use std::process::Abort;
use std::test::Fail;

#[test]
fn runs_a_file(rt: HostRuntime) -> Result<(), Fail> {
    let memory = MemorySize::Cv;
    for file in ["deck.txt", "-", "help", "run", ""] {
        match read_words(rt.alloc(), &["bench", "run", file]) {
            Ok(job) => wants(
                &rt,
                file,
                job.task == Task::Run { memory } && job.file == file,
            ),
            Err(_) => wants(&rt, file, false),
        }
    }
    Ok(())
}

#[test]
fn takes_a_size_of_memory(rt: HostRuntime) {
    let rows: [(&[&str], MemorySize); 7] = [
        (&["bench", "run", "--memory", "64", "f"], MemorySize::BareC),
        (
            &["bench", "run", "f", "--memory", "128"],
            MemorySize::OneModule,
        ),
        (
            &["bench", "run", "--memory=192", "f"],
            MemorySize::TwoModules,
        ),
        (
            &["bench", "run", "f", "--memory=256"],
            MemorySize::ThreeModules,
        ),
        (&["bench", "run", "--memory=320", "--", "f"], MemorySize::Cv),
        (&["bench", "run", "--", "f"], MemorySize::Cv),
        (&["bench", "run", "f", "--"], MemorySize::Cv),
    ];
    for (words, memory) in rows {
        takes(&rt, rt.alloc(), words, Task::Run { memory }, "f");
    }
}

#[test]
fn refuses_a_size_of_memory(rt: HostRuntime) {
    for text in [
        "", "0", "63", "65", "100", "319", "321", "064", "+64", "64 ", "C", "six",
    ] {
        is_mistake(&rt, rt.alloc(), &["bench", "run", "--memory", text, "f"]);
    }
    let rows: [&[&str]; 7] = [
        &["bench", "run", "--memory", "64"],
        &["bench", "run", "f", "--memory"],
        &["bench", "run", "--memory=", "f"],
        &["bench", "run", "--memory=64", "f", "--memory=64"],
        &["bench", "run", "--memory", "64", "f", "g"],
        &["bench", "asm", "--memory", "64", "f"],
        &["bench", "--memory", "64", "run", "f"],
    ];
    for words in rows {
        is_mistake(&rt, rt.alloc(), words);
    }
}

#[test]
fn takes_an_origin(rt: HostRuntime) {
    let rows: [(&[&str], u16); 7] = [
        (&["bench", "asm", "f"], 0x8000),
        (&["bench", "asm", "--origin", "9aF0", "f"], 0x9AF0),
        (&["bench", "asm", "f", "--origin", "0000"], 0),
        (&["bench", "asm", "--origin=FFFF", "f"], 0xFFFF),
        (&["bench", "asm", "f", "--origin=9000"], 0x9000),
        (&["bench", "asm", "--origin=9000", "--", "f"], 0x9000),
        (&["bench", "asm", "--", "f"], 0x8000),
    ];
    for (words, origin) in rows {
        takes(&rt, rt.alloc(), words, Task::Assemble { origin }, "f");
    }
    let words = ["bench", "dis", "-", "--origin", "C000"];
    takes(&rt, rt.alloc(), &words, Task::List { origin: 0xC000 }, "-");
}

/// Requires that the words of the command line ask for this task with this file.
fn takes<'a>(rt: &impl Abort, alloc: Global, words: &'a [&'a str], task: Task, file: &str) {
    let holds = match read_words(alloc, words) {
        Ok(job) => job.task == task && job.file == file,
        Err(_) => false,
    };
    assert!(rt; holds, "at {words:?}");
}

#[test]
fn refuses_an_origin(rt: HostRuntime) {
    for digits in ["900", "09000", "+900", "900G", "", " 900", "0x90"] {
        is_mistake(&rt, rt.alloc(), &["bench", "dis", "--origin", digits, "f"]);
    }
    is_mistake(&rt, rt.alloc(), &["bench", "asm", "--origin"]);
}

/// Requires that `read_words` refuses these words of the command line: it returns an ending with exit status 2.
fn is_mistake<'a>(rt: &impl Abort, alloc: Global, words: &'a [&'a str]) {
    let holds = match read_words(alloc, words) {
        Ok(_) => false,
        Err(ending) => ending.status() == 2,
    };
    assert!(rt; holds, "at {words:?}");
}

/// Requires that `read_words` finds nothing to execute in these words of the command line: it returns an ending with
/// this exit status and the usage of `bench`.
fn ends<'a>(rt: &impl Abort, alloc: Global, words: &'a [&'a str], status: u8) {
    tells(rt, alloc, words, status, "Usage: bench");
}

/// Requires that `read_words` finds nothing to execute in these words of the command line: it returns an ending with
/// this exit status and a text that contains `part`.
fn tells<'a>(rt: &impl Abort, alloc: Global, words: &'a [&'a str], status: u8, part: &str) {
    let holds = match read_words(alloc, words) {
        Ok(_) => false,
        Err(ending) => ending.status() == status && text_of(&ending).contains(part),
    };
    assert!(rt; holds, "at {words:?}");
}

#[test]
fn prints_help(rt: HostRuntime) {
    for words in [["bench", "help"], ["bench", "--help"], ["bench", "-h"]] {
        ends(&rt, rt.alloc(), &words, 0);
    }
    for command in ["run", "asm", "dis"] {
        for words in [[command, "--help"], [command, "-h"], ["help", command]] {
            ends(&rt, rt.alloc(), &["bench", words[0], words[1]], 0);
        }
    }
}

#[test]
fn tells_the_version(rt: HostRuntime) {
    for word in ["--version", "-V"] {
        let words = ["bench", word];
        tells(
            &rt,
            rt.alloc(),
            &words,
            0,
            "bench 1.0.0, proved with rattle-kit-",
        );
    }
    ends(&rt, rt.alloc(), &["bench", "run", "--version"], 2);
}

#[test]
fn refuses_other_words(rt: HostRuntime) {
    ends(&rt, rt.alloc(), &[], 2);
    ends(&rt, rt.alloc(), &["bench"], 2);
    for word in ["run", "walk", "-", "--", "-x", "--run"] {
        ends(&rt, rt.alloc(), &["bench", word], 2);
    }
    for words in [
        ["run", "-x"],
        ["run", "--walk"],
        ["help", "walk"],
        ["walk", "a"],
    ] {
        ends(&rt, rt.alloc(), &["bench", words[0], words[1]], 2);
    }
    for command in ["asm", "dis"] {
        ends(&rt, rt.alloc(), &["bench", command], 2);
        ends(&rt, rt.alloc(), &["bench", command, "--origin", "9000"], 2);
        ends(
            &rt,
            rt.alloc(),
            &["bench", command, "--origin=9000", "--origin=9000", "a"],
            2,
        );
        ends(
            &rt,
            rt.alloc(),
            &["bench", command, "a", "--origin=9000", "b"],
            2,
        );
    }
    ends(&rt, rt.alloc(), &["bench", "run", "a", "--origin=9000"], 2);
    ends(&rt, rt.alloc(), &["bench", "run", "a", "b"], 2);
    ends(&rt, rt.alloc(), &["bench", "run", "--", "a", "b"], 2);
}

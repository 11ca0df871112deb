//! Tests of a deck with memories of several sizes: where the registers end, how many there are in the initial state,
//! and how much room there is for programs.

ghost use Rattle.std.specs.Prelude.{◌≤◌};

use crate::ends::{reader, writer};
use crate::judge::wants;
use h41_deck::{Outcome, run_deck};
use std::alloc::{AllocError, Global};
use std::process::Abort;
use std::test::Fail;

/// The expected results of the test deck with one size of memory.
struct Size {
    registers: u16,
    /// The expected digits of register c in the initial state.
    start: &'static str,
    /// The number of registers that are free for programs in the initial state.
    free: u16,
    /// The address of the last register of memory.
    last: u16,
    /// The address after the last register of memory.
    above: u16,
    /// The number of data registers for a program that counts through all of them.
    counted: u16,
    /// The number with which the program that counts through the data registers begins.
    limit: &'static str,
    /// The expected digits of the last data register after the program has counted through all of them.
    register: &'static str,
    /// The number of steps that the program needs to count through the data registers.
    steps: u16,
}

/// The expected results of the test deck with each size of memory that is tested.
static SIZES: [Size; 9] = [
    Size {
        registers: 64,
        start: "0FA001690EF0EE",
        free: 46,
        last: 0x0FF,
        above: 0x100,
        counted: 61,
        limit: "0.060",
        register: "06006000000001",
        steps: 245,
    },
    Size {
        registers: 65,
        start: "0FB001690F00EF",
        free: 47,
        last: 0x100,
        above: 0x101,
        counted: 62,
        limit: "0.061",
        register: "06106100000001",
        steps: 249,
    },
    Size {
        registers: 100,
        start: "11E00169113112",
        free: 82,
        last: 0x123,
        above: 0x124,
        counted: 97,
        limit: "0.096",
        register: "09609600000001",
        steps: 389,
    },
    Size {
        registers: 101,
        start: "0CC001690C10C0",
        free: 0,
        last: 0x124,
        above: 0x125,
        counted: 98,
        limit: "0.097",
        register: "09709700000001",
        steps: 393,
    },
    Size {
        registers: 128,
        start: "0E7001690DC0DB",
        free: 27,
        last: 0x13F,
        above: 0x140,
        counted: 125,
        limit: "0.124",
        register: "01241240000002",
        steps: 501,
    },
    Size {
        registers: 192,
        start: "1270016911C11B",
        free: 91,
        last: 0x17F,
        above: 0x180,
        counted: 189,
        limit: "0.188",
        register: "01881880000002",
        steps: 757,
    },
    Size {
        registers: 256,
        start: "1670016915C15B",
        free: 155,
        last: 0x1BF,
        above: 0x1C0,
        counted: 253,
        limit: "0.252",
        register: "02522520000002",
        steps: 1013,
    },
    Size {
        registers: 319,
        start: "1A60016919B19A",
        free: 218,
        last: 0x1FE,
        above: 0x1FF,
        counted: 316,
        limit: "0.315",
        register: "03153150000002",
        steps: 1265,
    },
    Size {
        registers: 320,
        start: "1A70016919C19B",
        free: 219,
        last: 0x1FF,
        above: 0x200,
        counted: 317,
        limit: "0.316",
        register: "03163160000002",
        steps: 1269,
    },
];

/// Returns the byte of the program line `RCL 05`, 25 (hexadecimal), `count` times, as lines for the command `load`.
/// `AllocError` if allocation failed.
fn recalls(alloc: Global, count: u16) -> Result<String, AllocError> {
    let mut lines = String::new(alloc);
    for byte in 0..count {
        lines.push_str(if byte % 90 == 89 { "25\n" } else { "25" })?;
    }
    Ok(lines)
}

/// Returns the test deck for a size of memory: commands about the initial state, the limits of memory, its data
/// registers, and its room for programs. `AllocError` if allocation failed.
fn deck_of(alloc: Global, size: &Size) -> Result<String, AllocError> {
    let Size {
        registers,
        last,
        above,
        counted,
        limit,
        ..
    } = size;
    let most = registers.saturating_sub(1);
    let room = registers.saturating_mul(7).saturating_sub(3);
    let full = recalls(alloc, room)?;
    let more = recalls(alloc, room.saturating_add(1))?;
    format!(in alloc;
        "show ram 00D\nkey PRGM\nshow display\nkey PRGM\nsize {most}\nsize {registers}\n\
        words 8\n130 {last:03X} 270 2F0 130 {above:03X} 270 2F0 3E0\nend\ncall 8000\nstep 7\n\
        show ram {last:03X}\nshow ram {above:03X}\n\
        size {counted}\nprogram\n{limit}\nLBL 01\nSTO IND X\nISG X\nGTO 01\nSTOP\nCLRG\nend\n\
        key R/S\nrun 9999\nshow ram {last:03X}\nstep\nshow ram {last:03X}\nshow ram 0C3\n\
        reset\nshow ram 00D\nsize 0\nload\n{full}\nend\nsize 1\nshow ram 0C0\nshow ram {last:03X}\n\
        reset\nsize 0\nload\n{more}\nend\n"
    )
}

/// Returns what the test deck for a size of memory is expected to print. `AllocError` if allocation failed.
fn text_of(alloc: Global, size: &Size) -> Result<String, AllocError> {
    let Size {
        start,
        free,
        last,
        above,
        register,
        steps,
        ..
    } = size;
    format!(in alloc;
        "00D={start}\n00 REG {free}\n! 17 SizeTooLarge\n\
        {last:03X}=00000000000{last:03X}\n{above:03X}=00000000000000\n\
        ran {steps} Idle\n{last:03X}={register}\n{last:03X}=00000000000000\n0C3=00000000000000\n\
        00D={start}\n! 16 NoRoom\n0C0=25252525C00020\n{last:03X}=25252525252525\n! 16 NoRoom\n"
    )
}

/// Requires that the test deck prints what is expected with `REGS` registers of memory.
fn answers<const REGS: usize>(rt: &impl Abort, alloc: Global, size: &Size) -> Result<(), Fail>
    requires at_least { 64 ≤ REGS }
    requires at_most { REGS ≤ 320 }
{
    let deck = deck_of(alloc, size)?;
    let text = text_of(alloc, size)?;
    let mut reader = reader(deck.as_str(), 4096, 1000);
    let mut writer = writer(alloc, 4096, 1000);
    let outcome = run_deck::<_, _, REGS>(alloc, &mut reader, &mut writer);
    let is_reported = outcome == Ok(Outcome::Refused);
    assert!(rt;
        is_reported && writer.taken.as_slice() == text.as_bytes(),
        "at {REGS}"
    );
    Ok(())
}

#[test]
fn every_size(rt: HostRuntime) -> Result<(), Fail> {
    for size in &SIZES {
        match size.registers {
            64 => answers::<64>(&rt, rt.alloc(), size)?,
            65 => answers::<65>(&rt, rt.alloc(), size)?,
            100 => answers::<100>(&rt, rt.alloc(), size)?,
            101 => answers::<101>(&rt, rt.alloc(), size)?,
            128 => answers::<128>(&rt, rt.alloc(), size)?,
            192 => answers::<192>(&rt, rt.alloc(), size)?,
            256 => answers::<256>(&rt, rt.alloc(), size)?,
            319 => answers::<319>(&rt, rt.alloc(), size)?,
            320 => answers::<320>(&rt, rt.alloc(), size)?,
            _ => wants(&rt, "a size", false),
        }
    }
    Ok(())
}

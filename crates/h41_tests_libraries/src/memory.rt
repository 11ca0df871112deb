//! Tests of h41_ram: memory in the initial state, its registers, flags and ALPHA.

use crate::judge::wants;
use h41_digits::Reg;
use h41_ram::{Ram, StatusRegister, flags};
use std::test::Fail;

#[test]
fn memory_at_the_start(rt: HostRuntime) {
    let ram = Ram::<320>::new();
    let rows = [
        (
            "register c",
            ram.status_register(StatusRegister::C).to_u64(),
            0x1A_7001_6919_C19B,
        ),
        (
            "register d",
            ram.status_register(StatusRegister::D).to_u64(),
            0x2C04_8000,
        ),
        (
            "the last register of programs",
            ram.read(0x19B).to_u64(),
            0xC0_0020,
        ),
        ("the curtain", u64::from(ram.curtain()), 0x19C),
        (
            "the register of .END.",
            u64::from(ram.end_register()),
            0x19B,
        ),
    ];
    for (name, found, wanted) in rows {
        wants(&rt, name, found == wanted);
    }
    for flag in 0..56 {
        let is_set = [
            flags::AUDIO_ENABLE,
            flags::DECIMAL_POINT,
            flags::DIGIT_GROUPING,
            flags::DIGITS_4,
            flags::FIXED,
        ]
        .contains(&flag);
        assert!(rt; ram.flag(flag) == is_set, "flag {flag}");
    }
    wants(&rt, "memory is sound", ram.is_sound());
}

#[test]
fn small_memory_at_the_start(rt: HostRuntime) {
    let bare = Ram::<64>::new();
    let rows = [
        (
            "register c",
            bare.status_register(StatusRegister::C).to_u64(),
            0xFA_0016_90EF_0EE,
        ),
        (
            "the last register of programs",
            bare.read(0x0EE).to_u64(),
            0xC0_0020,
        ),
        (
            "the curtain of 100",
            u64::from(Ram::<100>::new().curtain()),
            0x0C0 + 100 - 17,
        ),
        (
            "the curtain of 101",
            u64::from(Ram::<101>::new().curtain()),
            0x0C1,
        ),
    ];
    for (name, found, wanted) in rows {
        wants(&rt, name, found == wanted);
    }
}

#[test]
fn registers_flags_and_alpha(rt: HostRuntime) -> Result<(), Fail> {
    let mut ram = Ram::<64>::new();
    let register = Reg::from_u64(0x12_3456_789A_BCDE).ok_or("14 digits")?;
    for address in [0x000, 0x00F, 0x010, 0x0BF, 0x0C0, 0x0FF, 0x100, 0xFFFF] {
        ram.write(address, register);
    }
    let rows = [
        (0x000, true),
        (0x00F, true),
        (0x010, false),
        (0x0BF, false),
        (0x0C0, true),
        (0x0FF, true),
        (0x100, false),
        (0xFFFF, false),
    ];
    for (address, exists) in rows {
        let is_written = ram.read(address) == register;
        assert!(rt; is_written == exists, "{address:03X}");
    }
    ram.set_flag(55, true);
    ram.set_flag(flags::AUDIO_ENABLE, false);
    ram.set_status_register(StatusRegister::P, register);
    ram.set_alpha(*b"ABCDEFGHIJKLMNOPQRSTUVWX");
    let rows = [
        (
            "register d",
            ram.status_register(StatusRegister::D).to_u64(),
            0x0C04_8001,
        ),
        (
            "the front of ALPHA",
            ram.status_register(StatusRegister::P).to_u64(),
            0x12_3456_7841_4243,
        ),
        (
            "its end",
            ram.status_register(StatusRegister::M).to_u64(),
            0x52_5354_5556_5758,
        ),
    ];
    for (name, found, wanted) in rows {
        wants(&rt, name, found == wanted);
    }
    wants(&rt, "ALPHA", ram.alpha() == *b"ABCDEFGHIJKLMNOPQRSTUVWX");
    ram.set_status_register(StatusRegister::C, Reg::zero());
    wants(&rt, "memory is not sound", !ram.is_sound());
    Ok(())
}

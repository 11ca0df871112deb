//! Tests of h41_focal and h41_labels: labels in the cache are found as if there were no cache.

ghost use Rattle.std.specs.Prelude.{◌<◌};

use crate::judge::wants;
use h41_codes::{Function, Line, Parameter, decode};
use h41_digits::Reg;
use h41_focal::laws::kept_answers_stay_right;
use h41_focal::{Focal, Machine};
use h41_labels::LabelCache;
use h41_pages::Pages;
use h41_positions::{Position, next};
use h41_program::load;
use h41_ram::{Ram, StatusRegister};
use std::marker::Model;
use std::test::Fail;

/// Memory and the state of keystroke execution, with a label cache. Each label in the cache is where a search finds it,
/// or the dirty flag of memory is set.
#[derive(Drop)]
struct Kept {
    machine: Machine<320>,
}

impl Model for Kept {
    ghost use Rattle.h41_positions.specs.LabelledMachine.{AreRight, LabelledMachine};

    ghost Value = { LabelledMachine };

    ghost view = { λ kept. kept.machine };

    ghost invariant = { λ kept. AreRight kept.machine };
}

/// What a test does to the machine of a calculator.
enum Act {
    /// Executes the program line at the calculator's position.
    Step,
    /// Executes the line at the beginning of the bytes as if it were typed.
    Type(&'static [u8]),
    /// Writes the number into the register at an address, as a function in microcode does, and moves the program on to
    /// the next line.
    Write(u16, u64),
}

impl Kept {
    /// Returns a machine in its initial state with the programs in `bytes` loaded, or `None` if they cannot be loaded.
    fn with(bytes: &[u8]) -> Option<Self> {
        let mut ram = Ram::<320>::new();
        if !ram.is_sound() || load(&mut ram, bytes).is_err() {
            return None;
        }
        let focal = Focal::new();
        let machine = Machine { ram, focal };
        Some(Kept { machine })
    }

    /// Does `act` to the machine, and returns whether it was not refused.
    fn does(&mut self, pages: &Pages, act: &Act) -> bool {
        match act {
            Act::Step => self.machine.step(pages).is_ok(),
            Act::Type(bytes) => self.machine.key(pages, &line(bytes)).is_ok(),
            Act::Write(address, digits) => match Reg::from_u64(*digits) {
                Some(register) => {
                    self.writes(*address, register);
                    self.passes(pages)
                }
                None => false,
            },
        }
    }

    /// Writes `register` into memory at an address.
    fn writes(&mut self, address: u16, register: Reg) {
        kept_answers_stay_right();
        self.machine.ram.write(address, register);
    }

    /// Writes the register at an address back unchanged, which sets the dirty flag of memory.
    fn writes_again(&mut self, address: u16) {
        let register = self.machine.ram.read(address);
        self.writes(address, register);
    }

    /// Moves the program on to the next line, as a line does that calls a function in microcode. Returns whether there is
    /// a line at the position.
    fn passes(&mut self, pages: &Pages) -> bool {
        let Machine { ram, focal } = &mut self.machine;
        if !ram.is_sound() {
            return false;
        }
        match next(ram, pages, focal.position) {
            Ok(position) => {
                focal.go_to(position);
                true
            }
            Err(_) => false,
        }
    }

    /// Returns whether the calculator's position is this byte of program memory.
    fn is_at(&self, byte: u16) -> bool {
        self.machine.focal.position == Position::Memory(byte)
    }

    /// Returns what the label cache contains for the search for a local label from byte `at` of program memory: the
    /// position of the label, or that there is none. `None` if the search is not cached. `label` must be below 128.
    fn kept(&self, at: u16, label: u8) -> Option<Option<u16>>
        requires { label < 128 }
    {
        self.machine
            .focal
            .cache()
            .kept_local(at, Parameter::new(label))
    }
}

/// Returns the program line at the beginning of the bytes, or STOP if they do not begin with one.
fn line(bytes: &[u8]) -> Line {
    match decode(bytes) {
        Ok((line, _)) => line,
        Err(_) => Line::Plain(Function::Stop),
    }
}

/// Returns whether two machines have equal registers, positions, return addresses and stack lift, whatever their label
/// caches contain.
fn agree(kept: &Kept, other: &Kept) -> bool {
    let (one, two) = (&kept.machine, &other.machine);
    for address in 0..0x200 {
        if one.ram.read(address) != two.ram.read(address) {
            return false;
        }
    }
    one.focal.position == two.focal.position
        && one.focal.is_at_line_00 == two.focal.is_at_line_00
        && one.focal.returns.as_slice() == two.focal.returns.as_slice()
        && one.focal.lift == two.focal.lift
}

/// Test rows: a name, the bytes of programs, and what is done to a machine with them, each with the expected position
/// in program memory afterwards.
static ROWS: [(&str, &[u8], &[(Act, u16)]); 3] = [
    (
        "a loop",
        // 1.003, STO 01, LBL 01, ISG 01, GTO 01, RCL 01
        &[
            0x11, 0x1A, 0x10, 0x10, 0x13, 0x31, 0x02, 0x96, 0x01, 0xB2, 0x00, 0x21,
        ],
        &[
            (Act::Step, 5),
            (Act::Step, 6),
            (Act::Step, 7),
            (Act::Step, 9),
            (Act::Step, 6),
            (Act::Step, 7),
            (Act::Step, 9),
            (Act::Step, 6),
            (Act::Step, 7),
            (Act::Step, 11),
            (Act::Step, 18),
        ],
    ),
    (
        "a label that is written over",
        // LBL "T", XROM 05,01, GTO 01, LBL 01
        &[0xC0, 0x00, 0xF2, 0x00, 0x54, 0xA1, 0x41, 0xB2, 0x00, 0x02],
        &[
            (Act::Type(&[0xD0, 0x00, 0x01]), 9),
            (Act::Type(&[0x1D, 0xF1, 0x54]), 0),
            (Act::Step, 5),
            (Act::Write(0x19A, 0xB2_0000_00C0_0020), 7),
            (Act::Step, 7),
            (Act::Type(&[0xD0, 0x00, 0x01]), 7),
            (Act::Type(&[0x1D, 0xF1, 0x54]), 0),
            (Act::Type(&[0xD0, 0x00, 0x01]), 0),
        ],
    ),
    (
        "two programs",
        // LBL "T", GTO 01, LBL 01, END, LBL 01, LBL "T", GTO 01
        &[
            0xC0, 0x00, 0xF2, 0x00, 0x54, 0xB2, 0x00, 0x02, 0xC0, 0x00, 0x0D, 0x02, 0xC0, 0x00,
            0xF2, 0x00, 0x54, 0xB2, 0x00,
        ],
        &[
            (Act::Step, 5),
            (Act::Step, 7),
            (Act::Type(&[0x1E, 0xF1, 0x54]), 12),
            (Act::Step, 17),
            (Act::Step, 11),
            (Act::Step, 12),
            (Act::Step, 17),
            (Act::Step, 11),
        ],
    ),
];

#[test]
fn forgotten_before_each_step(rt: HostRuntime) -> Result<(), Fail> {
    let pages = Pages::new(rt.alloc())?;
    for (name, bytes, acts) in &ROWS {
        let mut kept = Kept::with(bytes).ok_or("the row's program")?;
        let mut other = Kept::with(bytes).ok_or("the row's program")?;
        for (act, position) in *acts {
            // Writing register c sets the dirty flag, so that the next line empties the cache.
            other.writes_again(StatusRegister::C.address());
            let is_done = kept.does(&pages, act);
            assert!(rt; is_done == other.does(&pages, act), "{name}");
            wants(&rt, name, kept.is_at(*position));
            wants(&rt, name, agree(&kept, &other));
        }
    }
    Ok(())
}

#[test]
fn what_has_a_search_forgotten(rt: HostRuntime) -> Result<(), Fail> {
    let pages = Pages::new(rt.alloc())?;
    // LBL 02, STO 00, GTO 02
    let mut kept = Kept::with(&[0x03, 0x30, 0xB3, 0x00]).ok_or("a program")?;
    let steps = [(1, None), (2, None), (0, Some(Some(0))), (1, Some(Some(0)))];
    for (position, answer) in steps {
        wants(&rt, "a step", kept.does(&pages, &Act::Step));
        wants(&rt, "its position", kept.is_at(position));
        wants(&rt, "what is kept", kept.kept(4, 2) == answer);
    }
    // STO 00 stores zero in R00.
    wants(&rt, "a store", kept.does(&pages, &Act::Step));
    wants(&rt, "the label behind it", kept.kept(4, 2) == Some(Some(0)));
    wants(&rt, "a jump", kept.does(&pages, &Act::Step));
    wants(&rt, "to the same label", kept.is_at(0));
    // The register 19B, which contains the program, is written.
    kept.writes_again(0x19B);
    wants(&rt, "a line", kept.does(&pages, &Act::Step));
    wants(&rt, "none is kept", kept.kept(4, 2) == None);
    Ok(())
}

#[test]
fn the_oldest_of_64_drops_out(rt: HostRuntime) {
    let ram = Ram::<320>::new();
    let mut cache = LabelCache::new();
    wants(&rt, "memory is sound", ram.is_sound());
    for label in 0..64 {
        cache.local(&ram, 0, Parameter::new(label));
    }
    let first = Parameter::new(0);
    let second = Parameter::new(1);
    wants(
        &rt,
        "all are kept",
        cache.kept_local(0, first) == Some(None),
    );
    cache.local(&ram, 0, first);
    cache.local(&ram, 0, Parameter::new(64));
    wants(&rt, "the oldest", cache.kept_local(0, first) == None);
    wants(&rt, "the next", cache.kept_local(0, second) == Some(None));
    wants(&rt, "another position", cache.kept_local(1, second) == None);
    wants(
        &rt,
        "the newest",
        cache.kept_local(0, Parameter::new(64)) == Some(None),
    );
}

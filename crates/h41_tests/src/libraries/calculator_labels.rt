//! Tests of h41_xrom and h41_debug: which labels the cache of a calculator contains.

use crate::judge::wants;
use h41_codes::Parameter;
use h41_debug::{Bench, Stop};
use h41_keys::Key;
use std::process::Abort;
use std::test::Fail;

/// Returns what the label cache contains for the search for LBL 02 that the program's GTO 02 starts, from byte 4 of
/// program memory: the position of the label, or that there is none. `None` if the search is not cached.
fn kept(bench: &Bench<320>) -> Option<Option<u16>> {
    let label = Parameter::new(2);
    bench.calculator().focal().cache().kept_local(4, label)
}

/// Requires that the next `lines` program lines can be executed one by one, and that the cache contains LBL 02 at byte
/// 0 after each.
fn keeps(rt: &impl Abort, bench: &mut Bench<320>, lines: usize) {
    for _line in 0..lines {
        wants(rt, "a line", bench.step().is_ok());
        wants(rt, "the label behind it", kept(bench) == Some(Some(0)));
    }
}

#[test]
fn a_calculator_keeps_its_searches(rt: HostRuntime) -> Result<(), Fail> {
    let mut bench = Bench::<320>::new(rt.alloc())?;
    // LBL 02, STO 00, GTO 02
    let program = [0x03, 0x30, 0xB3, 0x00];
    let loaded = bench.calculator_mut().load(&program).is_ok();
    wants(&rt, "a program", loaded);
    wants(&rt, "its label and its store", bench.steps(2).is_ok());
    wants(&rt, "none is kept yet", kept(&bench) == None);
    // The jump, the label, and STO 00, which stores zero in R00.
    keeps(&rt, &mut bench, 3);
    wants(&rt, "a key", bench.press(&[Key::Enter]).is_ok());
    wants(&rt, "what it keeps", kept(&bench) == Some(Some(0)));
    wants(&rt, "R/S", bench.press(&[Key::RunStop]).is_ok());
    let (lines, stop) = bench.run(100);
    wants(&rt, "a run", lines == 100 && stop == Stop::Limit);
    wants(&rt, "what it keeps", kept(&bench) == Some(Some(0)));
    keeps(&rt, &mut bench, 3);
    Ok(())
}

#[test]
fn a_calculator_forgets_with_its_program(rt: HostRuntime) -> Result<(), Fail> {
    let mut bench = Bench::<320>::new(rt.alloc())?;
    // LBL 02, STO 00, GTO 02
    let program = [0x03, 0x30, 0xB3, 0x00];
    let loaded = bench.calculator_mut().load(&program).is_ok();
    wants(&rt, "a program", loaded);
    wants(&rt, "its lines", bench.steps(3).is_ok());
    wants(&rt, "the label", kept(&bench) == Some(Some(0)));
    let moved = bench.calculator_mut().set_size(50).is_ok();
    wants(&rt, "another size", moved);
    wants(&rt, "a line behind it", bench.step().is_ok());
    wants(&rt, "none is kept", kept(&bench) == None);
    wants(&rt, "its lines", bench.steps(2).is_ok());
    wants(&rt, "the label again", kept(&bench) == Some(Some(0)));
    bench.calculator_mut().reset();
    wants(&rt, "none at the start", kept(&bench) == None);
    Ok(())
}

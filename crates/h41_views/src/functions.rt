//! The functions of modules, as `show functions` prints them.

ghost use Rattle.std.specs.Prelude.{◌≡◌, ◌<◌, ◌++◌, IfOk, OnOk};
ghost use Rattle.h41_lines.specs.Characters.{characters_text, two_digits};
ghost use Rattle.h41_pages.specs.FunctionTables.{functions};
ghost use Rattle.h41_views.specs.PageViews as spec;

use h41_lines::characters::character_text;
use h41_pages::{ModuleFunction, Name, Pages};
use std::alloc::{AllocError, Global};

/// Returns a line for each function of the plugged modules: `XROM`, the number of the module and the number of the
/// function in it, as two decimal digits each with a comma between them, and the name of the function, or `-` if it has
/// none. OutOfMemory (21) if allocation failed.
pub fn functions_text(alloc: Global, pages: &Pages) -> Result<Vec<u8>, AllocError>
    ensures { IfOk result (λ text. text.items ≡ spec.functions_text (functions pages.now)) }
{
    let functions = pages.functions(alloc)?;
    let mut text = Vec::new(alloc);
    for function in &functions {
        push_function(&mut text, function)?;
    }
    Ok(text)
}

/// Appends the line of a module's function: `XROM`, the number of the module, a comma, the number of the function in
/// it, a space, its name and LF. Each number has two decimal digits. OutOfMemory (21) if allocation failed.
#[tactic(auto, unfolding(crate::specs::PageViews::function_line))]
fn push_function(text: &mut Vec<u8>, function: &ModuleFunction) -> Result<(), AllocError>
    ensures { OnOk result (text.new.items ≡ text.old.items ++ spec.function_line function.now) }
{
    text.extend_from_slice(b"XROM ")?;
    push_number(text, function.number)?;
    text.extend_from_slice(b",")?;
    push_number(text, function.entry)?;
    text.extend_from_slice(b" ")?;
    push_name(text, &function.name)?;
    text.extend_from_slice(b"\n")
}

/// Appends a number below 100 as two decimal digits. OutOfMemory (21) if allocation failed.
fn push_number(text: &mut Vec<u8>, number: u8) -> Result<(), AllocError>
    ensures { OnOk result (text.new.items ≡ text.old.items ++ two_digits number) }
{
    text.extend_from_slice(&[b'0' + number / 10, b'0' + number % 10])
}

/// Appends the name of a function as it is printed, or `-` if the function has none. OutOfMemory (21) if allocation
/// failed.
fn push_name(text: &mut Vec<u8>, name: &Option<Name>) -> Result<(), AllocError>
    ensures { OnOk result (text.new.items ≡ text.old.items ++ spec.name_text name.now) }
{
    match name {
        None => text.extend_from_slice(b"-"),
        Some(name) => push_printed(text, name.as_bytes()),
    }
}

/// Appends the printed texts of characters of the HP-41. OutOfMemory (21) if allocation failed.
fn push_printed(text: &mut Vec<u8>, characters: &[u8]) -> Result<(), AllocError>
    ensures { OnOk result (text.new.items ≡ text.old.items ++ characters_text characters.now) }
{
    for character in characters {
        text.extend_from_slice(character_text(*character).as_str().as_bytes())?;
    }
    Ok(())
}

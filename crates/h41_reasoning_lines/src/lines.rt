//! Laws of runs of program lines. Each law is the contract of a function whose body only calls the laws on which it is
//! based.

ghost use Rattle.h41_reasoning_lines.specs.LineRounds.{LineRunsJoin};
ghost use Rattle.h41_reasoning_lines.specs.Loads.{FirstLoadedIsProgram, LoadedIsProgram};
ghost use Rattle.h41_reasoning_lines.specs.Loads.{PartsArePrograms};

use h41_program::laws::{changes_are_read, lists_are_determined};

/// States that two runs of program lines, of which the second begins at the end of the first, are one run.
pub fn line_runs_join()
    ensures { LineRunsJoin }
{}

/// States that memory has the lines of bytes as a program, followed by `.END.`, after the bytes were loaded (`loaded`),
/// and that the program begins at position 0, which the load returns, if memory had no program lines before (`first`).
/// Lines of memory are a program if an END is before them, or nothing (`parts`).
pub fn loaded_lines_are_program()
    ensures loaded { LoadedIsProgram }
    ensures first { FirstLoadedIsProgram }
    ensures parts { PartsArePrograms }
{
    changes_are_read();
    lists_are_determined();
}

//! A run as functions for a page in a browser: `tools/build_page.py` makes a WebAssembly module of them.
//!
//! The texts of a kind come as one slice of bytes, with the length of each text. A call opens a session of its own and keeps
//! nothing of it.
#![tactic(auto)]

mod outcome;
mod run;
mod steps;
mod texts;

ghost use Rattle.sq_page_c.specs.Outcome.{IsOutcome, IsSteps};
ghost use Rattle.sq_page_c.specs.Shown.{IsShown};
ghost use Rattle.sq_page_c.specs.Texts.{pieces};
ghost use Rattle.sq_run.specs.Answer.{answered};

use outcome::put;
use run::outcome_of_run;
use std::alloc::Global;
use steps::outcome_of_steps;
use texts::run_texts;

/// Runs a script on schemas and modules, and puts the report, or the line of a refusal, in a room.
///
/// It answers 0 with the report, 3 with the line of a refusal, and 4 if memory ran out. It answers 6 if the
/// number of rows is out of bounds. It answers 10 if the room is too small for the text and a zero. `count`
/// is the length of the text in any case.
#[unsafe(no_mangle)]
pub extern "C" fn sq_page_run(
    alloc: Global,
    schemas: &[u8],
    schema_lengths: &[usize],
    modules: &[u8],
    module_lengths: &[usize],
    script: &[u8],
    row_numbers: u64,
    room: &mut [u8],
    count: &mut usize,
) -> i32
    ensures { IsShown (IsOutcome (answered (pieces schema_lengths.now schemas.now)
        (pieces module_lengths.now modules.now) script.now row_numbers)) room.old room.new count.new result }
{
    let given = run_texts(alloc, schemas, schema_lengths, modules, module_lengths);
    let outcome = outcome_of_run(alloc, &given, script, row_numbers);
    put(&outcome, room, count).code()
}

/// Puts a page that steps through the same run in a room, as `trace_page` of sq_show makes it. Without their
/// notes the lines of its steps are the report. It answers as `sq_page_run` does.
#[unsafe(no_mangle)]
pub extern "C" fn sq_page_steps(
    alloc: Global,
    schemas: &[u8],
    schema_lengths: &[usize],
    modules: &[u8],
    module_lengths: &[usize],
    script: &[u8],
    row_numbers: u64,
    room: &mut [u8],
    count: &mut usize,
) -> i32
    ensures { IsShown (IsSteps (answered (pieces schema_lengths.now schemas.now)
        (pieces module_lengths.now modules.now) script.now row_numbers)) room.old room.new count.new result }
{
    let given = run_texts(alloc, schemas, schema_lengths, modules, module_lengths);
    let outcome = outcome_of_steps(alloc, &given, script, row_numbers);
    put(&outcome, room, count).code()
}

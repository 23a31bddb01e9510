//! Runs, step by step.

ghost use Rattle.std.specs.Prelude.{◌≤◌, IfSome, List};
ghost use Rattle.sq_meaning.specs.Report.{Bytes};
ghost use Rattle.sq_page_c.specs.Outcome.{IsSteps};
ghost use Rattle.sq_page_c.specs.Texts.{AreTexts};
ghost use Rattle.sq_run.specs.Answer.{answered};
ghost use Rattle.sq_run.specs.Texts.{texts};

use crate::outcome::{Outcome, outcome_of_stop, without_text};
use crate::texts::RunTexts;
use sq_exchange::Answer;
use sq_heap::HeapStore;
use sq_run::Limits;
use sq_show::{TraceOptions, open_session, read_script, trace_page};
use sq_store::MOST_ROW_NUMBERS;
use std::alloc::Global;

/// The page that steps through a run of these texts.
pub(crate) fn outcome_of_steps(
    alloc: Global,
    given: &Option<RunTexts>,
    script: &[u8],
    row_numbers: u64,
) -> Outcome
    ensures { (schemas modules : List Bytes) → IfSome given.now (AreTexts schemas modules)
        → IsSteps (answered schemas modules script.now row_numbers) result }
{
    let Some(given) = given else {
        return without_text(alloc, Answer::NoMemory);
    };
    if row_numbers > MOST_ROW_NUMBERS {
        return without_text(alloc, Answer::BadValue);
    }
    let schemas = given.schemas.as_slice();
    let modules = given.modules.as_slice();
    page_of(alloc, schemas, modules, script, Limits { row_numbers })
}

/// The page of a run, or the refusal of a text.
fn page_of(
    alloc: Global,
    schemas: &[Vec<u8>],
    modules: &[Vec<u8>],
    script: &[u8],
    limits: Limits,
) -> Outcome
    requires { limits.row_numbers ≤ MOST_ROW_NUMBERS }
    ensures { IsSteps
        (answered (texts schemas.now) (texts modules.now) script.now limits.row_numbers) result }
{
    let options = TraceOptions {
        tables: false,
        stop: false,
    };
    let mut session = match open_session::<HeapStore>(alloc, schemas, modules, limits) {
        Ok(session) => session,
        Err(fault) => return outcome_of_stop(alloc, fault),
    };
    match read_script(alloc, &session, script) {
        Ok(actions) => match trace_page(alloc, &mut session, actions.as_slice(), options) {
            Ok(text) => Outcome {
                answer: Answer::Done,
                text,
            },
            Err(_) => without_text(alloc, Answer::NoMemory),
        },
        Err(fault) => outcome_of_stop(alloc, fault),
    }
}

//! Runs, and what they report.

ghost use Rattle.std.specs.Prelude.{◌≤◌, IfSome, List};
ghost use Rattle.sq_meaning.specs.Report.{Bytes};
ghost use Rattle.sq_page_c.specs.Outcome.{IsOutcome};
ghost use Rattle.sq_page_c.specs.Texts.{AreTexts};
ghost use Rattle.sq_run.specs.Answer.{answered};
ghost use Rattle.sq_run.specs.Texts.{texts};

use crate::outcome::{Outcome, outcome_of_stop, without_text};
use crate::texts::RunTexts;
use sq_exchange::Answer;
use sq_heap::HeapStore;
use sq_run::{Limits, OutOf, run};
use sq_store::MOST_ROW_NUMBERS;
use std::alloc::Global;

/// Runs the script on these texts, and makes the outcome.
pub(crate) fn outcome_of_run(
    alloc: Global,
    given: &Option<RunTexts>,
    script: &[u8],
    row_numbers: u64,
) -> Outcome
    ensures { (schemas modules : List Bytes) → IfSome given.now (AreTexts schemas modules)
        → IsOutcome (answered schemas modules script.now row_numbers) result }
{
    let Some(given) = given else {
        return without_text(alloc, Answer::NoMemory);
    };
    if row_numbers > MOST_ROW_NUMBERS {
        return without_text(alloc, Answer::BadValue);
    }
    let schemas = given.schemas.as_slice();
    let modules = given.modules.as_slice();
    report_of(alloc, schemas, modules, script, Limits { row_numbers })
}

/// The report of a run, or the refusal of a text.
#[tactic(auto, using(crate::proofs::Says::says_report, crate::proofs::Says::says_refused))]
fn report_of(
    alloc: Global,
    schemas: &[Vec<u8>],
    modules: &[Vec<u8>],
    script: &[u8],
    limits: Limits,
) -> Outcome
    requires { limits.row_numbers ≤ MOST_ROW_NUMBERS }
    ensures { IsOutcome
        (answered (texts schemas.now) (texts modules.now) script.now limits.row_numbers) result }
{
    let mut out = OutOf::new(Vec::new(alloc));
    let ended = run::<HeapStore, OutOf<Vec<u8>>>(alloc, schemas, modules, script, limits, &mut out);
    let report = out.into_writer();
    match ended {
        Ok(()) => Outcome {
            answer: Answer::Done,
            text: report,
        },
        Err(fault) => {
            drop(report);
            outcome_of_stop(alloc, fault)
        }
    }
}

//! A caller of `run`: it runs a script in memory and answers the report.
#![tactic(auto)]

ghost use Rattle.std.specs.Prelude.{ℕ, List, [], Option, Some, Ok, Err, IfErr, IfOk};
ghost use Rattle.sq_run.specs.Texts.{texts};
ghost use Rattle.sq_run.specs.Answer.{answered};
ghost use Rattle.sq_run.specs.Answers.{Answers};

use sq_heap::HeapStore;
use sq_run::{Limits, OutOf, RunFault, run};
use std::alloc::Global;

/// The report of a script, as a `Vec`. Where memory runs out for it, the fault is `Write`, since a
/// `Vec` then takes no more.
pub fn report_of(
    alloc: Global,
    schemas: &[Vec<u8>],
    modules: &[Vec<u8>],
    script: &[u8],
) -> Result<Vec<u8>, RunFault>
    // What is answered is what the texts come to: the table machine's report, or the first refusal.
    ensures report { IfOk result (λ report. Answers
        (answered (texts schemas.now) (texts modules.now) script.now 1000000)
        (Some []) (Some report.items) (Ok tt)) }
    ensures fault { IfErr result (λ fault. (taken : Option (List ℕ)) × Answers
        (answered (texts schemas.now) (texts modules.now) script.now 1000000)
        (Some []) taken (Err fault)) }
{
    let mut out = OutOf::new(Vec::new(alloc));
    let limits = Limits {
        row_numbers: 1_000_000,
    };
    match run::<HeapStore, _>(alloc, schemas, modules, script, limits, &mut out) {
        Ok(()) => Ok(out.into_writer()),
        Err(fault) => {
            drop(out);
            Err(fault)
        }
    }
}

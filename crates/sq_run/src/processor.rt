//! The entry of a run: its contract says what is written and refused by the
//! definitions of the language alone.

ghost use Rattle.std.specs.Prelude.{◌≡◌, ◌≤◌, false, IfErr, IfOk, OnOk};
ghost use Rattle.sq_run.specs.Answer.{answered};
ghost use Rattle.sq_perform.specs.Stop.{is_write};
ghost use Rattle.sq_perform.specs.Texts.{texts};
ghost use Rattle.sq_run.specs.Answers.{Answers};
ghost use Rattle.sq_run.specs.Faulty.{FaultsAnswer42000};
ghost use Rattle.sq_run.specs.Lawful.{Lawful};
ghost use Rattle.sq_run.specs.Trees.{TellsOfTrees};

use sq_perform::{Limits, Out, RunFault};
use sq_store::{MOST_ROW_NUMBERS, Store};
use std::alloc::Global;

/// Reads schema, module and script texts, makes the script's calls in memory, and writes the report.
///
/// Schemas come first, then modules, then the script, and all texts of a kind are parsed before any is
/// checked for what it means. The first refusal is answered, and nothing is written before all are
/// accepted.
pub fn run<S: Store, W: Out>(
    alloc: Global,
    schemas: &[Vec<u8>],
    modules: &[Vec<u8>],
    script: &[u8],
    limits: Limits,
    out: &mut W,
) -> Result<(), RunFault>
    requires numbers { limits.row_numbers ≤ MOST_ROW_NUMBERS }
    requires open_out { W.failed out.old ≡ false }

    // What is answered and written is what the definitions say of the texts: `Ok` wrote the report, a refusal is the first
    // refusal, by its name, at its line and column, and wrote nothing. Where the output failed it had taken the first
    // bytes of the report; where memory ran out, the report of the first items was written.
    ensures answers { Answers
        (answered (texts schemas.now) (texts modules.now) script.now limits.row_numbers)
        (W.taken out.old) (W.taken out.new) result }

    // The output has failed exactly where there is an output fault.
    ensures still { OnOk result (W.failed out.new ≡ false) }
    ensures failed { IfErr result (λ fault. W.failed out.new ≡ is_write fault) }

    // What the answer says of trees: accepted texts spell those of the machine, no text spells two, one that is refused for
    // how it is spelled has none, or only deeper ones, and none goes on with a token that is `Unexpected`.
    ensures trees { TellsOfTrees limits.row_numbers (texts schemas.now) (texts modules.now) script.now }

    // The machine of accepted texts keeps constraints, privileges and what else `Lawful` asks of it.
    ensures laws { IfOk (answered (texts schemas.now) (texts modules.now) script.now limits.row_numbers)
        (λ task. Lawful task.machine) }

    // Each call answers 42000 exactly where the rules find a fault in the statement of its procedure.
    ensures faults { OnOk result (IfOk
        (answered (texts schemas.now) (texts modules.now) script.now limits.row_numbers) FaultsAnswer42000) }
{
    sq_perform::run::<S, W>(alloc, schemas, modules, script, limits, out)
}

//! A request, from its files to the report on standard output.
ghost use Rattle.std.specs.Prelude.{◌≡◌, ◌≤◌, length, IfErr};
ghost use Rattle.sqmod.specs.declared.fault.Fault.TheVariants.{Output};
ghost use Rattle.sqmod.specs.Request as spec;

use crate::fault::Fault;
use crate::texts::{Texts, read_texts};
use sq_heap::HeapStore;
use sq_run::{Limits, OutOf, RunFault, run};
use sq_store::MOST_ROW_NUMBERS;
use sq_words::{Request, Source};
use std::alloc::Global;
use std::io::{self, BufWriter, Write};
use std::rt::Files;

/// Reads a request's files, runs the script and writes the report to standard output.
pub(crate) fn run_request<R: Files + Print + AllocGlobal>(
    rt: &R,
    request: &Request<'_>,
) -> Result<(), Fault>
    requires { request.now.row_numbers ≤ MOST_ROW_NUMBERS }
    ensures { IfErr result (spec.NamesFile request.now) }
{
    let texts = read_texts(rt, request)?;
    let limits = Limits {
        row_numbers: request.row_numbers,
    };
    let ended = report_of_texts(rt, &texts, limits);
    drop(texts);
    ended
}

/// Runs a script and writes the report to standard output.
fn report_of_texts<R: Print + AllocGlobal>(
    rt: &R,
    texts: &Texts,
    limits: Limits,
) -> Result<(), Fault>
    requires { limits.row_numbers ≤ MOST_ROW_NUMBERS }
    ensures { IfErr result
        (spec.NamesOneOf (length texts.now.schemas.items) (length texts.now.modules.items)) }
{
    let Ok(mut writer) = BufWriter::new(rt.alloc(), io::writer(rt)) else {
        return Err(Fault::NoMemory(0));
    };
    let ran = run_texts(rt.alloc(), texts, limits, &mut writer);
    let flushed = flush(&mut writer);
    ending_of(ran, flushed)
}

/// Flushes a writer.
pub(crate) fn flush<W: Write>(writer: &mut W) -> Result<(), Fault>
    ensures { IfErr result (λ fault. fault ≡ Output) }
{
    match writer.flush() {
        Ok(()) => Ok(()),
        Err(_) => Err(Fault::Output),
    }
}

/// Gives the end of a request, by its run and the flush after it. A refusal has written nothing and stays.
/// After any other run a flush that fails takes precedence, since lines are then missing.
fn ending_of(ran: Result<(), Fault>, flushed: Result<(), Fault>) -> Result<(), Fault>
    ensures { result ≡ spec.ended_with ran flushed }
{
    match ran {
        Err(Fault::Refused(_, _)) => ran,
        _ => flushed.and(ran),
    }
}

/// Runs the script of these texts, and writes to a writer.
#[tactic(auto, using(crate::proofs::Named::names_one))]
pub(crate) fn run_texts<W: Write>(
    alloc: Global,
    texts: &Texts,
    limits: Limits,
    writer: &mut W,
) -> Result<(), Fault>
    requires { limits.row_numbers ≤ MOST_ROW_NUMBERS }
    ensures { IfErr result
        (spec.NamesOneOf (length texts.now.schemas.items) (length texts.now.modules.items)) }
{
    let mut out = OutOf::new(writer);
    let ran = run::<HeapStore, OutOf<&mut W>>(
        alloc,
        texts.schemas.as_slice(),
        texts.modules.as_slice(),
        texts.script.as_slice(),
        limits,
        &mut out,
    );
    match ran {
        Ok(()) => Ok(()),
        Err(fault) => Err(fault_of(fault)),
    }
}

/// Makes the program's fault for a fault of a run.
pub(crate) fn fault_of(fault: RunFault) -> Fault
    ensures { result ≡ spec.fault_of fault }
{
    match fault {
        RunFault::SchemaRefused(refusal) => Fault::Refused(Source::Schema(refusal.text), refusal),
        RunFault::ModuleRefused(refusal) => Fault::Refused(Source::Module(refusal.text), refusal),
        RunFault::ScriptRefused(refusal) => Fault::Refused(Source::Script, refusal),
        RunFault::Write(_) => Fault::Output,
        RunFault::NoMemory(items) => Fault::NoMemory(items),
    }
}

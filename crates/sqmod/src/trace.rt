//! `sqmod trace`: a run, and the notes on each of its calls, on standard output.
ghost use Rattle.std.specs.Prelude.{◌≡◌, ◌≤◌, ℕ, length, IfErr};
ghost use Rattle.sqmod.specs.Request as spec;

use crate::fault::{FAILED, Fault};
use crate::report;
use crate::request::{fault_of, flush};
use crate::texts::{Texts, read_texts};
use sq_heap::HeapStore;
use sq_perform::{open_session, read_script};
use sq_run::{Limits, OutOf};
use sq_show::{Session, TraceFault, TraceOptions, trace_all, trace_page};
use sq_store::MOST_ROW_NUMBERS;
use sq_words::TraceRequest;
use std::alloc::Global;
use std::fs;
use std::io::{self, BufWriter, Write};
use std::rt::Files;

/// The status if a trace stops at a call that fails.
const STOPPED: u8 = 5;

/// A run that was traced: whether it stopped at a call that failed, and the page that steps through it, if
/// one is asked for.
#[derive(Drop)]
struct TracedRun {
    stopped: bool,
    page: Vec<u8>,
}

/// Runs a script as `run` does, and writes the report with notes on each call. Gives the status to end with.
pub(crate) fn status_of_trace<R: Files + Print + Eprint + AllocGlobal>(
    rt: &R,
    request: &TraceRequest<'_>,
) -> u8
    requires { request.now.run.row_numbers ≤ MOST_ROW_NUMBERS }
{
    match trace_request(rt, request) {
        Ok(traced) => status_of_traced(rt, request, &traced),
        Err(fault) => report(rt, &request.run, fault),
    }
}

/// Writes the page, if one is asked for, and gives the status to end with.
fn status_of_traced<R: Files + Eprint>(
    rt: &R,
    request: &TraceRequest<'_>,
    traced: &TracedRun,
) -> u8 {
    if let Some(file) = request.html
        && fs::write(rt, file, traced.page.as_slice()).is_err()
    {
        let _ = eprintln!(rt; "sqmod: {file}: cannot be written");
        return FAILED;
    }
    if traced.stopped { STOPPED } else { 0 }
}

/// Reads a request's files, and traces the run.
fn trace_request<R: Files + Print + AllocGlobal>(
    rt: &R,
    request: &TraceRequest<'_>,
) -> Result<TracedRun, Fault>
    requires { request.now.run.row_numbers ≤ MOST_ROW_NUMBERS }
    ensures { IfErr result (spec.NamesFile request.now.run) }
{
    let texts = read_texts(rt, &request.run)?;
    let ended = trace_of_texts(rt, request, &texts);
    drop(texts);
    ended
}

/// Traces a run to standard output.
fn trace_of_texts<R: Print + AllocGlobal>(
    rt: &R,
    request: &TraceRequest<'_>,
    texts: &Texts,
) -> Result<TracedRun, Fault>
    requires { request.now.run.row_numbers ≤ MOST_ROW_NUMBERS }
    ensures { IfErr result
        (spec.NamesOneOf (length texts.now.schemas.items) (length texts.now.modules.items)) }
{
    let Ok(mut writer) = BufWriter::new(rt.alloc(), io::writer(rt)) else {
        return Err(Fault::NoMemory(0));
    };
    let traced = trace_texts(rt.alloc(), request, texts, &mut writer);
    let flushed = flush(&mut writer);
    match ending_of(traced, flushed) {
        Ok(stopped) => page_of_texts(rt.alloc(), request, texts, stopped.is_some()),
        Err(fault) => Err(fault),
    }
}

/// Gives the end of a trace with the flush after it. A refusal wrote nothing and stays. After any other end a
/// flush that fails takes precedence, since lines are then missing.
fn ending_of(
    traced: Result<Option<usize>, Fault>,
    flushed: Result<(), Fault>,
) -> Result<Option<usize>, Fault>
    ensures { result ≡ spec.trace_ended_with traced flushed }
{
    match traced {
        Err(Fault::Refused(_, _)) => traced,
        _ => flushed.and(traced),
    }
}

/// Traces a run of texts.
#[tactic(auto, using(crate::proofs::Named::checked_one))]
fn trace_texts<W: Write>(
    alloc: Global,
    request: &TraceRequest<'_>,
    texts: &Texts,
    writer: &mut W,
) -> Result<Option<usize>, Fault>
    requires { request.now.run.row_numbers ≤ MOST_ROW_NUMBERS }
    ensures { IfErr result
        (spec.NamesOneOf (length texts.now.schemas.items) (length texts.now.modules.items)) }
{
    let limits = Limits {
        row_numbers: request.run.row_numbers,
    };
    let opened = open_session::<HeapStore>(
        alloc,
        texts.schemas.as_slice(),
        texts.modules.as_slice(),
        limits,
    );
    match opened {
        Ok(mut session) => trace_script(
            alloc,
            &mut session,
            texts.script.as_slice(),
            options_of(request),
            writer,
        ),
        Err(fault) => Err(fault_of(fault)),
    }
}

fn options_of(request: &TraceRequest<'_>) -> TraceOptions {
    TraceOptions {
        tables: request.tables,
        stop: request.stop,
    }
}

/// Reads a script, and traces what it asks a session for.
#[tactic(auto, using(crate::proofs::Named::script_one))]
fn trace_script<W: Write>(
    alloc: Global,
    session: &mut Session<HeapStore>,
    script: &[u8],
    options: TraceOptions,
    writer: &mut W,
) -> Result<Option<usize>, Fault>
    ensures { (schemas modules : ℕ) → IfErr result (spec.NamesOneOf schemas modules) }
{
    match read_script(alloc, session, script) {
        Ok(actions) => {
            let mut out = OutOf::new(writer);
            match trace_all(alloc, session, actions.as_slice(), options, &mut out) {
                Ok(stopped) => Ok(stopped),
                Err(TraceFault::NoMemory(done)) => Err(Fault::NoMemory(done)),
                Err(TraceFault::Output) => Err(Fault::Output),
            }
        }
        Err(fault) => Err(fault_of(fault)),
    }
}

/// Runs the script once more for the page, if one is asked for.
fn page_of_texts(
    alloc: Global,
    request: &TraceRequest<'_>,
    texts: &Texts,
    stopped: bool,
) -> Result<TracedRun, Fault>
    requires { request.now.run.row_numbers ≤ MOST_ROW_NUMBERS }
    ensures { IfErr result
        (spec.NamesOneOf (length texts.now.schemas.items) (length texts.now.modules.items)) }
{
    if request.html.is_none() {
        let page = Vec::new(alloc);
        return Ok(TracedRun { stopped, page });
    }
    match page_texts(alloc, request, texts) {
        Ok(page) => Ok(TracedRun { stopped, page }),
        Err(fault) => Err(fault),
    }
}

/// The page of a run of texts.
#[tactic(auto, using(crate::proofs::Named::checked_one))]
fn page_texts(alloc: Global, request: &TraceRequest<'_>, texts: &Texts) -> Result<Vec<u8>, Fault>
    requires { request.now.run.row_numbers ≤ MOST_ROW_NUMBERS }
    ensures { IfErr result
        (spec.NamesOneOf (length texts.now.schemas.items) (length texts.now.modules.items)) }
{
    let limits = Limits {
        row_numbers: request.run.row_numbers,
    };
    let opened = open_session::<HeapStore>(
        alloc,
        texts.schemas.as_slice(),
        texts.modules.as_slice(),
        limits,
    );
    match opened {
        Ok(mut session) => page_script(
            alloc,
            &mut session,
            texts.script.as_slice(),
            options_of(request),
        ),
        Err(fault) => Err(fault_of(fault)),
    }
}

/// The page of what a script asks a session for.
#[tactic(auto, using(crate::proofs::Named::script_one))]
fn page_script(
    alloc: Global,
    session: &mut Session<HeapStore>,
    script: &[u8],
    options: TraceOptions,
) -> Result<Vec<u8>, Fault>
    ensures { (schemas modules : ℕ) → IfErr result (spec.NamesOneOf schemas modules) }
{
    match read_script(alloc, session, script) {
        Ok(actions) => match trace_page(alloc, session, actions.as_slice(), options) {
            Ok(page) => Ok(page),
            Err(_) => Err(Fault::NoMemory(actions.len())),
        },
        Err(fault) => Err(fault_of(fault)),
    }
}

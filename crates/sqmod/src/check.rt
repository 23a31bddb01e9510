//! Remarks on schema and module texts, and on a script, on standard output.
ghost use Rattle.std.specs.Prelude.{◌≡◌, IfErr, IfOk, length};
ghost use Rattle.sq_perform.specs.Checked.{AreCheckedTexts};
ghost use Rattle.sq_perform.specs.Texts.{texts};
ghost use Rattle.sqmod.specs.Request.{NamesOneOf};

use crate::fault::{FAULTY, Fault, REFUSED};
use crate::refusals::{Told, write_refused};
use crate::remarks::write_checked;
use crate::request::fault_of;
use crate::texts::{Sources, read_sources};
use crate::{refuse_for_memory, report_checked, report_of_file};
use sq_advice::Form;
use sq_heap::HeapStore;
use sq_perform::{Checked, Limits, Refusal, RunFault, check, open_session, read_script};
use sq_words::{CheckRequest, Source, TextsRequest, USUAL_ROW_NUMBERS};
use std::alloc::Global;
use std::rt::Files;
use std::{fs, str};

/// The texts of a check, and how it is said what is to be said of them.
#[derive(Clone, Copy)]
pub(crate) struct Checking<'a> {
    pub(crate) request: &'a TextsRequest<'a>,
    pub(crate) sources: &'a Sources,
    pub(crate) script: Option<Script<'a>>,
    pub(crate) form: Form,
    /// It is said, too, how the rows of tables are found.
    pub(crate) ways: bool,
}

/// A script's file and text.
#[derive(Clone, Copy)]
pub(crate) struct Script<'a> {
    pub(crate) file: &'a str,
    pub(crate) text: &'a [u8],
}

/// Reads the files, checks their texts, prints what is to be said of them, and gives the status to end with.
pub(crate) fn status_of_check<R: Files + Print + Eprint + AllocGlobal>(
    rt: &R,
    asked: &CheckRequest<'_>,
) -> u8 {
    let request = &asked.texts;
    match read_sources(rt, request.schemas.as_slice(), request.modules.as_slice()) {
        Ok(sources) => {
            let status = status_of_files(rt, asked, &sources);
            drop(sources);
            status
        }
        Err(fault) => report_checked(rt, request, fault),
    }
}

/// Reads the script, if there is one, and gives the status of the check.
fn status_of_files<'a, R: Files + Print + Eprint + AllocGlobal>(
    rt: &R,
    asked: &'a CheckRequest<'a>,
    sources: &'a Sources,
) -> u8 {
    match asked.script {
        Some(file) => status_of_script(rt, asked, sources, file),
        None => status_of_texts(rt, rt.alloc(), &checking_of(asked, sources, None)),
    }
}

/// Reads the script, and gives the status of the check.
fn status_of_script<'a, R: Files + Print + Eprint + AllocGlobal>(
    rt: &R,
    asked: &'a CheckRequest<'a>,
    sources: &'a Sources,
    file: &'a str,
) -> u8 {
    match fs::read(rt, file) {
        Ok(text) => {
            let status = status_over(rt, asked, sources, file, text.as_slice());
            drop(text);
            status
        }
        Err(_) => report_of_file(rt, file, Fault::Unread(Source::Script)),
    }
}

/// Gives the status of the check of texts and a script.
fn status_over<'a, R: Print + Eprint + AllocGlobal>(
    rt: &R,
    asked: &'a CheckRequest<'a>,
    sources: &'a Sources,
    file: &'a str,
    text: &'a [u8],
) -> u8 {
    let script = Some(Script { file, text });
    let checking = checking_of(asked, sources, script);
    status_of_texts(rt, rt.alloc(), &checking)
}

fn checking_of<'a>(
    asked: &'a CheckRequest<'a>,
    sources: &'a Sources,
    script: Option<Script<'a>>,
) -> Checking<'a> {
    Checking {
        request: &asked.texts,
        sources,
        script,
        form: form_of(asked),
        ways: asked.ways,
    }
}

fn form_of(asked: &CheckRequest<'_>) -> Form {
    if asked.json {
        Form::Json
    } else if asked.quiet {
        Form::Quiet
    } else {
        Form::Words
    }
}

/// Checks texts, prints what is to be said of them, and gives the status to end with.
pub(crate) fn status_of_texts<R: Print + Eprint>(
    rt: &R,
    alloc: Global,
    checking: &Checking<'_>,
) -> u8 {
    match check_sources(alloc, checking.sources) {
        Ok(checked) => {
            let status = status_of_checked(rt, alloc, checking, &checked);
            drop(checked);
            status
        }
        Err(fault) => status_of_fault(rt, alloc, checking, fault),
    }
}

/// Prints what is to be said of texts that are not refused, and of the script.
fn status_of_checked<R: Print + Eprint>(
    rt: &R,
    alloc: Global,
    checking: &Checking<'_>,
    checked: &Checked,
) -> u8 {
    let mut out = Vec::new(alloc);
    if write_checked(&mut out, alloc, checking, checking.sources, checked).is_err() {
        return refuse_for_memory(rt);
    }
    if rt.write_all(out.as_slice()).is_err() {
        return report_of_file(rt, "", Fault::Output);
    }
    drop(out);
    match fault_of_script(alloc, checking) {
        Some(fault) => status_of_fault(rt, alloc, checking, fault),
        None => status_by_faults(checked),
    }
}

fn status_by_faults(checked: &Checked) -> u8 {
    if checked.has_fault() { FAULTY } else { 0 }
}

/// Finds the fault that keeps the script from running over texts that are not refused, if one does.
fn fault_of_script(alloc: Global, checking: &Checking<'_>) -> Option<Fault> {
    let script = checking.script?;
    match refuse_script(alloc, checking.sources, script.text) {
        Ok(()) => None,
        Err(fault) => Some(fault_of(fault)),
    }
}

fn refuse_script(alloc: Global, sources: &Sources, script: &[u8]) -> Result<(), RunFault> {
    let limits = Limits {
        row_numbers: USUAL_ROW_NUMBERS,
    };
    let session = open_session::<HeapStore>(
        alloc,
        sources.schemas.as_slice(),
        sources.modules.as_slice(),
        limits,
    )?;
    let answer = read_script(alloc, &session, script);
    drop(session);
    match answer {
        Ok(actions) => {
            drop(actions);
            Ok(())
        }
        Err(fault) => Err(fault),
    }
}

/// Says why texts are not checked, and gives the status for it.
fn status_of_fault<R: Print + Eprint>(
    rt: &R,
    alloc: Global,
    checking: &Checking<'_>,
    fault: Fault,
) -> u8 {
    match fault {
        Fault::Refused(source, refusal) => {
            status_of_refusal(rt, alloc, checking, source, refusal)
        }
        _ => report_of_file(rt, "", fault),
    }
}

/// Prints the refusal of a text, every other error of the texts, and what is to be said of what has none.
fn status_of_refusal<R: Print + Eprint>(
    rt: &R,
    alloc: Global,
    checking: &Checking<'_>,
    source: Source,
    refusal: Refusal,
) -> u8 {
    let mut told = Told::new(alloc);
    if write_refused(&mut told, alloc, checking, source, refusal).is_err() {
        return refuse_for_memory(rt);
    }
    let refusals = str::from_utf8(told.refusals.as_slice()).unwrap_or("");
    let printed = match checking.form {
        Form::Json => rt.print(refusals),
        _ => {
            let _ = rt.eprint(refusals);
            Ok(())
        }
    };
    if printed.is_err() || rt.write_all(told.judged.as_slice()).is_err() {
        return report_of_file(rt, "", Fault::Output);
    }
    REFUSED
}

/// Checks the schemas and modules of a request.
#[tactic(auto, using(crate::proofs::Named::checked_one))]
pub(crate) fn check_sources(alloc: Global, sources: &Sources) -> Result<Checked, Fault>
    ensures checked { IfOk result
        (AreCheckedTexts (texts sources.now.schemas.items) (texts sources.now.modules.items)) }
    ensures names { IfErr result
        (NamesOneOf (length sources.now.schemas.items) (length sources.now.modules.items)) }
{
    match check(
        alloc,
        sources.schemas.as_slice(),
        sources.modules.as_slice(),
    ) {
        Ok(checked) => Ok(checked),
        Err(fault) => Err(fault_of(fault)),
    }
}

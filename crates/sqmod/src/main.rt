//! The program `sqmod`. It reads a command line and the files that it names, and runs the script or says what
//! is wrong with the modules. It ends with a status. If a file, a text or a word is refused, it says so on
//! standard error.
#![tactic(auto)]

ghost use Rattle.std.specs.Prelude.{◌≡◌, ◌≤◌};
ghost use Rattle.sqmod.specs.Fault.{status_of};
ghost use Rattle.sqmod.specs.Request.{NamesCheckedFile, NamesFile};

mod bind;
mod check;
mod explain;
mod fault;
mod judged;
mod kept;
mod meanings;
mod new;
mod refusals;
mod remarks;
mod request;
mod shell;
mod suite;
mod texts;
mod trace;

use bind::status_of_bind;
use check::status_of_check;
use explain::{status_of_explain, status_of_print};
use fault::{Fault, NO_MEMORY, REFUSED};
use new::status_of_new;
use shell::{Typed, status_of_shell};
use sq_bindings::Host;
use sq_store::MOST_ROW_NUMBERS;
use sq_words::{Answer, Request, Task, TextsRequest, read_task};
use std::process::ExitCode;
use std::rt::{Env, Files};
use std::{env, io};
use suite::status_of_test;
use trace::status_of_trace;

fn main(rt: HostRuntime) -> ExitCode {
    ExitCode::from(status(&rt))
}

/// Does what the command line asks and gives the status to end with.
fn status<R: Env + Files + Print + Eprint + Input + Typed + AllocGlobal + Clone + Drop>(
    rt: &R,
) -> u8 {
    match words(rt) {
        Ok(words) => status_of_words(rt, words.as_slice()),
        Err(error) => refuse_unreadable_words(rt, &error),
    }
}

/// The words of the command line, the program's name first.
fn words<R: Env + AllocGlobal>(rt: &R) -> io::Result<Vec<String>> {
    let words = env::args(rt)?.collect(rt.alloc())?;
    Ok(words)
}

fn status_of_words<R: Files + Print + Eprint + Input + Typed + AllocGlobal + Clone + Drop>(
    rt: &R,
    words: &[String],
) -> u8 {
    match read_task(rt.alloc(), words) {
        Ok(Task::Run(request)) => status_of_request(rt, &request),
        Ok(Task::Check(request)) => status_of_check(rt, &request),
        Ok(Task::Trace(request)) => status_of_trace(rt, &request),
        Ok(Task::Shell(request)) => status_of_shell(rt, &request),
        Ok(Task::Explain(request)) => status_of_explain(rt, request),
        Ok(Task::Test(request)) => status_of_test(rt, &request),
        Ok(Task::BindC(request)) => status_of_bind(rt, Host::C, &request),
        Ok(Task::BindCobol(request)) => status_of_bind(rt, Host::Cobol, &request),
        Ok(Task::New(request)) => status_of_new(rt, request),
        Err(answer) => status_of_answer(rt, words, &answer),
    }
}

/// Prints what is said in place of a task: help or the version, if they are asked for, or a refusal.
fn status_of_answer<R: Print + Eprint>(rt: &R, words: &[String], answer: &Answer) -> u8 {
    if answer.is_asked_for(words) {
        return status_of_print(rt, rt.print(answer));
    }
    refuse_words(rt, answer)
}

fn status_of_request<R: Files + Print + Eprint + AllocGlobal>(rt: &R, request: &Request<'_>) -> u8
    requires { request.now.row_numbers ≤ MOST_ROW_NUMBERS }
{
    match request::run_request(rt, request) {
        Ok(()) => 0,
        Err(fault) => report(rt, request, fault),
    }
}

/// Says why the words are refused. If memory ran out, no item was done.
fn refuse_words<R: Eprint>(rt: &R, answer: &Answer) -> u8 {
    if answer.is_want_of_memory() {
        return refuse_for_memory(rt);
    }
    let _ = rt.eprint(answer);
    REFUSED
}

/// Says that the words could not be read: one is not UTF-8, or memory ran out.
fn refuse_unreadable_words<R: Eprint>(rt: &R, error: &io::Error) -> u8 {
    if error.kind() == io::ErrorKind::OutOfMemory {
        return refuse_for_memory(rt);
    }
    let _ = eprintln!(rt; "error: a word is not UTF-8");
    REFUSED
}

fn refuse_for_memory<R: Eprint>(rt: &R) -> u8 {
    let _ = eprintln!(rt; "sqmod: want of memory after 0 items");
    NO_MEMORY
}

/// Says what went wrong with a run and gives the status for it.
fn report<R: Eprint>(rt: &R, request: &Request<'_>, fault: Fault) -> u8
    requires { NamesFile request.now fault }
    ensures { result ≡ status_of fault }
{
    let file = match fault {
        Fault::Unread(source) | Fault::Refused(source, _) => request.file(source),
        Fault::Output | Fault::NoMemory(_) => "",
    };
    report_of_file(rt, file, fault)
}

/// Says what went wrong with a check and gives the status for it.
fn report_checked<R: Eprint>(rt: &R, request: &TextsRequest<'_>, fault: Fault) -> u8
    requires { NamesCheckedFile request.now fault }
    ensures { result ≡ status_of fault }
{
    let file = match fault {
        Fault::Unread(source) | Fault::Refused(source, _) => request.file(source),
        Fault::Output | Fault::NoMemory(_) => "",
    };
    report_of_file(rt, file, fault)
}

/// Says what went wrong, and with which file, if it is with one.
fn report_of_file<R: Eprint>(rt: &R, file: &str, fault: Fault) -> u8
    ensures { result ≡ status_of fault }
{
    let _ = match fault {
        Fault::Unread(_) => eprintln!(rt; "sqmod: {file}: cannot be read"),
        Fault::Refused(_, refusal) => {
            let line = refusal.line;
            let column = refusal.column;
            let what = refusal.what;
            eprintln!(rt; "sqmod: {file}:{line}:{column}: {what}")
        }
        Fault::Output => eprintln!(rt; "sqmod: output fault"),
        Fault::NoMemory(items) => eprintln!(rt; "sqmod: want of memory after {items} items"),
    };
    fault.status()
}

//! Reads the words of a command line: makes the task of what `clap` found in them.
ghost use Rattle.std.specs.Prelude.{◌≡◌, ◌≤◌, IfOk, map, string_bytes};
ghost use Rattle.clap.specs.Words.{FailsBy, fault_of, found_of, rows_of};
ghost use Rattle.sq_words.specs.Command.{sqmod};
ghost use Rattle.sq_words.specs.Reading as spec;
ghost use Rattle.sq_words.specs.Task.{IsLimited};

use crate::answer::Answer;
use crate::command::sqmod_command;
use crate::task::{
    CheckRequest, ExplainRequest, NewRequest, Request, ShellRequest, Task, TestRequest,
    TextsRequest, TraceRequest, USUAL_ROW_NUMBERS,
};
use clap::{ArgMatches, Error};
use sq_store::MOST_ROW_NUMBERS;
use std::alloc::{AllocError, Global};

/// Reads `sqmod run [--schema F]... [--module F]... --script F [--rows N]`,
/// `sqmod check [--schema F]... [--module F]... [--script F] [--quiet] [--json] [--ways]`,
/// `sqmod trace [--schema F]... [--module F]... --script F [--rows N] [--tables] [--stop] [--html F]`,
/// `sqmod shell [--schema F]... [--module F]... [--rows N]`, `sqmod explain [NAME]`,
/// `sqmod test FOLDER... [--filter GLOB]... [--shard K/N] [--junit F] [--list] [--update]`,
/// `sqmod bind-c --module F...`, `sqmod bind-cobol --module F...` or `sqmod new FOLDER`.
pub fn read_task<'a>(alloc: Global, words: &'a [String]) -> Result<Task<'a>, Answer>
    ensures refused { FailsBy (fault_of sqmod (map string_bytes words.now)) result }
    ensures asked { IfOk result (spec.AskFor (map string_bytes words.now)) }
    ensures limited { IfOk result IsLimited }
{
    match task_of_words(alloc, words) {
        Ok(task) => Ok(task),
        Err(error) => Err(Answer::new(error)),
    }
}

/// Makes the task that the words ask for, or the error with which `clap` ends.
fn task_of_words<'a>(alloc: Global, words: &'a [String]) -> Result<Task<'a>, Error>
    ensures refused { FailsBy (fault_of sqmod (map string_bytes words.now)) result }
    ensures asked { IfOk result (spec.AskFor (map string_bytes words.now)) }
    ensures limited { IfOk result IsLimited }
{
    let command = sqmod_command(alloc)?;
    let matches = command.try_get_matches_from(words)?;
    let (name, given) = matches.subcommand().unwrap();
    Ok(task_of(alloc, name, given)?)
}

/// Makes the task of a subcommand, by the values that it was given.
fn task_of<'a>(alloc: Global, name: &str, given: &ArgMatches<'a>) -> Result<Task<'a>, AllocError>
    requires { spec.IsGiven name.now (rows_of (found_of given.now)) }
    ensures made { IfOk result (spec.MakesTask name.now (rows_of (found_of given.now))) }
    ensures limited { IfOk result IsLimited }
{
    match name {
        "run" => Ok(Task::Run(request_of(alloc, given)?)),
        "check" => Ok(Task::Check(check_request_of(alloc, given)?)),
        "trace" => Ok(Task::Trace(trace_request_of(alloc, given)?)),
        "shell" => Ok(Task::Shell(shell_request_of(alloc, given)?)),
        _ => other_task_of(alloc, name, given),
    }
}

/// Makes the task of a subcommand that runs no script.
fn other_task_of<'a>(
    alloc: Global,
    name: &str,
    given: &ArgMatches<'a>,
) -> Result<Task<'a>, AllocError>
    requires { spec.IsOther name.now (rows_of (found_of given.now)) }
    ensures made { IfOk result (spec.MakesTask name.now (rows_of (found_of given.now))) }
    ensures limited { IfOk result IsLimited }
{
    match name {
        "test" => Ok(Task::Test(test_request_of(alloc, given)?)),
        "bind-c" => Ok(Task::BindC(texts_request_of(alloc, given)?)),
        "bind-cobol" => Ok(Task::BindCobol(texts_request_of(alloc, given)?)),
        "new" => Ok(Task::New(new_request_of(given))),
        _ => Ok(Task::Explain(explain_request_of(given))),
    }
}

/// The request that `run` makes of what it was given.
fn request_of<'a>(alloc: Global, run: &ArgMatches<'a>) -> Result<Request<'a>, AllocError>
    requires { spec.IsRun (rows_of (found_of run.now)) }
    ensures made { IfOk result (spec.Makes (rows_of (found_of run.now))) }
    ensures limited { IfOk result (λ request. request.row_numbers ≤ MOST_ROW_NUMBERS) }
{
    Ok(Request {
        schemas: files(alloc, run, "schema")?,
        modules: files(alloc, run, "module")?,
        script: run.get_str("script").unwrap(),
        row_numbers: row_numbers(run),
    })
}

/// The request that `check` makes of what it was given.
fn check_request_of<'a>(
    alloc: Global,
    check: &ArgMatches<'a>,
) -> Result<CheckRequest<'a>, AllocError>
    ensures { IfOk result (spec.MakesCheck (rows_of (found_of check.now))) }
{
    Ok(CheckRequest {
        texts: texts_request_of(alloc, check)?,
        script: check.get_str("script"),
        quiet: check.get_flag("quiet"),
        json: check.get_flag("json"),
        ways: check.get_flag("ways"),
    })
}

/// The request that `trace` makes of what it was given.
fn trace_request_of<'a>(
    alloc: Global,
    trace: &ArgMatches<'a>,
) -> Result<TraceRequest<'a>, AllocError>
    requires { spec.IsRun (rows_of (found_of trace.now)) }
    ensures made { IfOk result (spec.MakesTrace (rows_of (found_of trace.now))) }
    ensures limited { IfOk result (λ request. request.run.row_numbers ≤ MOST_ROW_NUMBERS) }
{
    Ok(TraceRequest {
        run: request_of(alloc, trace)?,
        tables: trace.get_flag("tables"),
        stop: trace.get_flag("stop"),
        html: trace.get_str("html"),
    })
}

/// The request that `shell` makes of what it was given.
fn shell_request_of<'a>(
    alloc: Global,
    shell: &ArgMatches<'a>,
) -> Result<ShellRequest<'a>, AllocError>
    requires { spec.HasRowNumbers (rows_of (found_of shell.now)) }
    ensures made { IfOk result (spec.MakesShell (rows_of (found_of shell.now))) }
    ensures limited { IfOk result (λ request. request.row_numbers ≤ MOST_ROW_NUMBERS) }
{
    Ok(ShellRequest {
        texts: texts_request_of(alloc, shell)?,
        row_numbers: row_numbers(shell),
    })
}

/// The schemas and modules that a subcommand was given; what binds modules is given no schemas.
fn texts_request_of<'a>(
    alloc: Global,
    given: &ArgMatches<'a>,
) -> Result<TextsRequest<'a>, AllocError>
    ensures { IfOk result (spec.MakesTexts (rows_of (found_of given.now))) }
{
    Ok(TextsRequest {
        schemas: files(alloc, given, "schema")?,
        modules: files(alloc, given, "module")?,
    })
}

/// The request that `explain` makes of what it was given.
fn explain_request_of<'a>(explain: &ArgMatches<'a>) -> ExplainRequest<'a>
    ensures { spec.MakesExplain (rows_of (found_of explain.now)) result }
{
    ExplainRequest {
        name: explain.get_str("name"),
    }
}

/// The request that `test` makes of what it was given.
fn test_request_of<'a>(alloc: Global, test: &ArgMatches<'a>) -> Result<TestRequest<'a>, AllocError>
    ensures { IfOk result (spec.MakesTest (rows_of (found_of test.now))) }
{
    Ok(TestRequest {
        folders: files(alloc, test, "folder")?,
        filters: files(alloc, test, "filter")?,
        shard: test.get_str("shard"),
        junit: test.get_str("junit"),
        list: test.get_flag("list"),
        update: test.get_flag("update"),
    })
}

/// The request that `new` makes of what it was given.
fn new_request_of<'a>(new: &ArgMatches<'a>) -> NewRequest<'a>
    requires { spec.HasFolder (rows_of (found_of new.now)) }
    ensures { spec.MakesNew (rows_of (found_of new.now)) result }
{
    NewRequest {
        folder: new.get_str("folder").unwrap(),
    }
}

/// The files given by an option, in the order of the words.
fn files<'a>(alloc: Global, run: &ArgMatches<'a>, option: &str) -> Result<Vec<&'a str>, AllocError>
    ensures { IfOk result (λ files. map (λ file. file.now) files.items
        ≡ spec.files_of option.now (rows_of (found_of run.now))) }
{
    match run.get_strs(option) {
        Some(files) => Vec::from_slice(alloc, files),
        None => Ok(Vec::new(alloc)),
    }
}

/// How many row numbers each table has.
fn row_numbers(run: &ArgMatches<'_>) -> u64
    requires { spec.HasRowNumbers (rows_of (found_of run.now)) }
    ensures given { result ≡ spec.row_numbers_of (rows_of (found_of run.now)) }
    ensures limited { result ≤ MOST_ROW_NUMBERS }
{
    run.get_one::<u64>("rows").unwrap_or(USUAL_ROW_NUMBERS)
}

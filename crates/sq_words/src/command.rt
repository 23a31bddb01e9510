//! The command `sqmod` and its subcommands, as `clap` is told of them.
ghost use Rattle.std.specs.Prelude.{◌≡◌, IfOk, false};
ghost use Rattle.clap.specs.Words.{app_of};
ghost use Rattle.clap.specs.declared.builder.command.Command.TheViews.{out-Command as fields_of};
ghost use Rattle.sq_words.specs.Command as spec;

use crate::options::{
    files_option, filter_option, flag_option, folder_argument, folders_argument, modules_option,
    name_argument, rows_option, script_option, value_option,
};
use clap::Command;
use std::alloc::{AllocError, Global};

/// The version, which the file VERSION at the top of the repository names, too. After it come the commit,
/// whose zeros `tools/install.sh` replaces, and the logic of the kit that proves the program.
const VERSION: &str =
    "0.1.0 (commit 0000000000000000000000000000000000000000, proved with dac8208d650f15bf)";

/// Makes the command with all its subcommands.
pub(crate) fn sqmod_command<'a>(alloc: Global) -> Result<Command<'a>, AllocError>
    ensures app { IfOk result (λ command. app_of command ≡ spec.sqmod) }
{
    let header = bind_command(
        alloc,
        "bind-c",
        "Prints a header for C with a function for each procedure",
    )?;
    let copybook = bind_command(
        alloc,
        "bind-cobol",
        "Prints a copybook for COBOL with a paragraph for each procedure",
    )?;
    let new = new_command(alloc)?;
    told_command(alloc)?
        .subcommand(header)?
        .subcommand(copybook)?
        .subcommand(new)
}

/// The command with those, `explain` and `test`.
fn told_command<'a>(alloc: Global) -> Result<Command<'a>, AllocError>
    ensures app { IfOk result (λ command. app_of command ≡ spec.told) }
{
    let explain = explain_command(alloc)?;
    let test = test_command(alloc)?;
    shown_command(alloc)?.subcommand(explain)?.subcommand(test)
}

/// The command with the subcommands that read schemas and modules.
fn shown_command<'a>(alloc: Global) -> Result<Command<'a>, AllocError>
    ensures app { IfOk result (λ command. app_of command ≡ spec.shown) }
{
    let trace = trace_command(alloc)?;
    let shell = shell_command(alloc)?;
    files_command(alloc)?.subcommand(trace)?.subcommand(shell)
}

/// The command with `run` and `check`.
fn files_command<'a>(alloc: Global) -> Result<Command<'a>, AllocError>
    ensures app { IfOk result (λ command. app_of command ≡ spec.of_files) }
{
    let run = run_command(alloc)?;
    let check = check_command(alloc)?;
    Command::new(alloc, "sqmod")
        .about("Processes SQL-92 schemas and modules, and runs a script of procedure calls")
        .version(VERSION)
        .subcommand_required(true)
        .subcommand(run)?
        .subcommand(check)
}

fn run_command<'a>(alloc: Global) -> Result<Command<'a>, AllocError>
    ensures app { IfOk result (λ command. app_of command ≡ spec.run) }
    ensures local { IfOk result (λ command. (fields_of command).has_globals ≡ false) }
{
    Command::new(alloc, "run")
        .about("Runs a script")
        .arg(files_option(alloc, "schema", "A file with schemas"))?
        .arg(files_option(alloc, "module", "A file with a module"))?
        .arg(script_option(alloc))?
        .arg(rows_option(alloc))
}

fn check_command<'a>(alloc: Global) -> Result<Command<'a>, AllocError>
    ensures app { IfOk result (λ command. app_of command ≡ spec.check) }
    ensures local { IfOk result (λ command. (fields_of command).has_globals ≡ false) }
{
    let ways = flag_option(alloc, "ways", "Says how the rows of tables are found");
    checking_command(alloc)?
        .arg(flag_option(alloc, "quiet", "Says nothing but refusals and faults"))?
        .arg(flag_option(alloc, "json", "Prints an object of JSON for each line"))?
        .arg(ways)
}

/// The command `check` with the options that name files.
fn checking_command<'a>(alloc: Global) -> Result<Command<'a>, AllocError>
    ensures app { IfOk result (λ command. app_of command ≡ spec.checking) }
    ensures local { IfOk result (λ command. (fields_of command).has_globals ≡ false) }
{
    let script = value_option(alloc, "script", "F", "A file with a script");
    Command::new(alloc, "check")
        .about("Says what is wrong in texts, and which cursors and views are updatable")
        .arg(files_option(alloc, "schema", "A file with schemas"))?
        .arg(files_option(alloc, "module", "A file with a module"))?
        .arg(script)
}

/// Makes the command `trace`.
fn trace_command<'a>(alloc: Global) -> Result<Command<'a>, AllocError>
    ensures app { IfOk result (λ command. app_of command ≡ spec.trace) }
    ensures local { IfOk result (λ command. (fields_of command).has_globals ≡ false) }
{
    tracing_command(alloc)?
        .arg(flag_option(alloc, "tables", "Shows each table that a call changed"))?
        .arg(flag_option(
            alloc,
            "stop",
            "Ends at the first call that fails, with status 5",
        ))?
        .arg(value_option(
            alloc,
            "html",
            "F",
            "A file for a page that steps through the run",
        ))
}

/// The command `trace` with the options that `run` has.
fn tracing_command<'a>(alloc: Global) -> Result<Command<'a>, AllocError>
    ensures app { IfOk result (λ command. app_of command ≡ spec.tracing) }
    ensures local { IfOk result (λ command. (fields_of command).has_globals ≡ false) }
{
    Command::new(alloc, "trace")
        .about("Runs a script, and says beside the report what each call did, and why it failed")
        .arg(files_option(alloc, "schema", "A file with schemas"))?
        .arg(files_option(alloc, "module", "A file with a module"))?
        .arg(script_option(alloc))?
        .arg(rows_option(alloc))
}

/// Makes the command `shell`.
fn shell_command<'a>(alloc: Global) -> Result<Command<'a>, AllocError>
    ensures app { IfOk result (λ command. app_of command ≡ spec.shell) }
    ensures local { IfOk result (λ command. (fields_of command).has_globals ≡ false) }
{
    Command::new(alloc, "shell")
        .about("Makes the calls that are typed, and writes what each one answers")
        .arg(files_option(alloc, "schema", "A file with schemas"))?
        .arg(files_option(alloc, "module", "A file with a module"))?
        .arg(rows_option(alloc))
}

fn explain_command<'a>(alloc: Global) -> Result<Command<'a>, AllocError>
    ensures app { IfOk result (λ command. app_of command ≡ spec.explain) }
    ensures local { IfOk result (λ command. (fields_of command).has_globals ≡ false) }
{
    Command::new(alloc, "explain")
        .about("Explains a status, a refusal or a fault, or lists their names")
        .arg(name_argument(alloc))
}

fn test_command<'a>(alloc: Global) -> Result<Command<'a>, AllocError>
    ensures app { IfOk result (λ command. app_of command ≡ spec.test) }
    ensures local { IfOk result (λ command. (fields_of command).has_globals ≡ false) }
{
    selecting_command(alloc)?
        .arg(value_option(
            alloc,
            "junit",
            "F",
            "A file for JUnit's XML; - is standard output",
        ))?
        .arg(flag_option(
            alloc,
            "list",
            "Prints the names of the cases, and runs none",
        ))?
        .arg(flag_option(
            alloc,
            "update",
            "Writes what came in place of what was wanted",
        ))
}

/// The command `test` with the options that say which cases are meant.
fn selecting_command<'a>(alloc: Global) -> Result<Command<'a>, AllocError>
    ensures app { IfOk result (λ command. app_of command ≡ spec.selecting) }
    ensures local { IfOk result (λ command. (fields_of command).has_globals ≡ false) }
{
    Command::new(alloc, "test")
        .about("Runs the cases below folders, and says which come to what they want")
        .arg(folders_argument(alloc))?
        .arg(filter_option(alloc))?
        .arg(value_option(
            alloc,
            "shard",
            "K/N",
            "Only each N-th case, from the K-th on",
        ))
}

/// A command that prints what binds modules to a host's language.
fn bind_command<'a>(alloc: Global, name: &'a str, about: &'a str) -> Result<Command<'a>, AllocError>
    ensures app { IfOk result (λ command. app_of command ≡ spec.bind name.entry.now) }
    ensures local { IfOk result (λ command. (fields_of command).has_globals ≡ false) }
{
    Command::new(alloc, name)
        .about(about)
        .arg(modules_option(alloc))
}

/// Makes the command `new`.
fn new_command<'a>(alloc: Global) -> Result<Command<'a>, AllocError>
    ensures app { IfOk result (λ command. app_of command ≡ spec.new) }
    ensures local { IfOk result (λ command. (fields_of command).has_globals ≡ false) }
{
    Command::new(alloc, "new")
        .about("Writes a schema, a module and a script to begin with")
        .arg(folder_argument(alloc))
}

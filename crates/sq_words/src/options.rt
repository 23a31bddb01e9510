//! The options and arguments of the subcommands.
ghost use Rattle.std.specs.Prelude.{◌≡◌, codes, false};
ghost use Rattle.clap.specs.Words.{rule_of};
ghost use Rattle.clap.specs.declared.builder.value_parser.ValueParser.TheVariants.{Unsigned};
ghost use Rattle.sq_words.specs.Command as spec;

use clap::builder::ValueParser;
use clap::{Arg, ArgAction, value_parser};
use sq_store::MOST_ROW_NUMBERS;
use std::alloc::Global;

/// An option `--NAME VALUE`.
pub(crate) fn value_option<'a>(
    alloc: Global,
    name: &'a str,
    value: &'a str,
    help: &'a str,
) -> Arg<'a>
    ensures rule { rule_of result ≡ spec.value_rule name.entry.now }
    ensures local { result.global ≡ false }
{
    Arg::new(alloc, name)
        .long(name)
        .value_name(value)
        .help(help)
        .action(ArgAction::Set)
}

/// An option that has no value.
pub(crate) fn flag_option<'a>(alloc: Global, name: &'a str, help: &'a str) -> Arg<'a>
    ensures rule { rule_of result ≡ spec.flag_rule name.entry.now }
    ensures local { result.global ≡ false }
{
    Arg::new(alloc, name)
        .long(name)
        .help(help)
        .action(ArgAction::SetTrue)
}

/// An option that may be given again and again.
pub(crate) fn files_option<'a>(alloc: Global, name: &'a str, help: &'a str) -> Arg<'a>
    ensures rule { rule_of result ≡ spec.files_rule name.entry.now }
    ensures local { result.global ≡ false }
{
    value_option(alloc, name, "F", help).action(ArgAction::Append)
}

/// The option for modules of which one must be given.
pub(crate) fn modules_option<'a>(alloc: Global) -> Arg<'a>
    ensures rule { rule_of result ≡ spec.modules_rule }
    ensures local { result.global ≡ false }
{
    files_option(alloc, "module", "A file with a module").required(true)
}

/// An option that may be given again and again.
pub(crate) fn filter_option<'a>(alloc: Global) -> Arg<'a>
    ensures rule { rule_of result ≡ spec.files_rule (codes "filter") }
    ensures local { result.global ≡ false }
{
    value_option(alloc, "filter", "GLOB", "Only cases with such a name").action(ArgAction::Append)
}

/// Makes the option for a script.
pub(crate) fn script_option<'a>(alloc: Global) -> Arg<'a>
    ensures rule { rule_of result ≡ spec.script_rule }
    ensures local { result.global ≡ false }
{
    value_option(alloc, "script", "F", "The file with the script").required(true)
}

/// Makes the option for the number of row numbers.
pub(crate) fn rows_option<'a>(alloc: Global) -> Arg<'a>
    ensures rule { rule_of result ≡ spec.rows_rule }
    ensures local { result.global ≡ false }
{
    let help = "The row numbers of each table, 1000000 when omitted";
    value_option(alloc, "rows", "N", help).value_parser(row_numbers_parser())
}

fn row_numbers_parser<'a>() -> ValueParser<'a>
    ensures { result ≡ Unsigned 1 MOST_ROW_NUMBERS }
{
    value_parser!(u64).range(1..=MOST_ROW_NUMBERS as i64)
}

pub(crate) fn folders_argument<'a>(alloc: Global) -> Arg<'a>
    ensures rule { rule_of result ≡ spec.folders_rule }
    ensures local { result.global ≡ false }
{
    Arg::new(alloc, "folder")
        .value_name("FOLDER")
        .help("A folder with cases in it, at any depth")
        .required(true)
        .action(ArgAction::Append)
}

pub(crate) fn name_argument<'a>(alloc: Global) -> Arg<'a>
    ensures rule { rule_of result ≡ spec.name_rule }
    ensures local { result.global ≡ false }
{
    Arg::new(alloc, "name")
        .value_name("NAME")
        .help("An SQLSTATE, or a name that sqmod prints")
        .action(ArgAction::Set)
}

pub(crate) fn folder_argument<'a>(alloc: Global) -> Arg<'a>
    ensures rule { rule_of result ≡ spec.folder_rule }
    ensures local { result.global ≡ false }
{
    Arg::new(alloc, "folder")
        .value_name("FOLDER")
        .help("The folder to make")
        .required(true)
        .action(ArgAction::Set)
}

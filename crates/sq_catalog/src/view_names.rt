//! The names of a view's columns (ISO/IEC 9075:1992, 11.19).

ghost use Rattle.std.specs.Prelude.{◌≡◌, IfOk, length, map};
ghost use Rattle.std.specs.List.{filter_map};
ghost use Rattle.std.specs.Option.{option_map};
ghost use Rattle.sq_meaning.specs.Spelled as meaning;
ghost use Rattle.sq_meaning.specs.Schema.{has_name_twice};
ghost use Rattle.sq_meaning.specs.declared.refusal.SchemaFault.TheVariants.{NameTwice};
ghost use Rattle.sq_binding.specs.Seen.{column_of};
ghost use Rattle.sq_binding.specs.ElementOutcome.{refused_if};
ghost use Rattle.sq_binding.specs.CreateView as spec;
ghost use Rattle.sq_catalog.specs.Fault.{Makes, Passes};
ghost use Rattle.sq_catalog.specs.View.{names_for, names_of_query, names_or};

use crate::fault::ElementFault;
use crate::written::{add_name, names_of};
use indexmap::IndexSet;
use sq_bound::ResultColumn;
use sq_items::Items;
use sq_lex::Name;
use sq_meaning::SchemaFault;
use sq_tree::CommaList;
use std::alloc::{AllocError, Global};

/// The names that a view's column list gives, none of them twice.
pub(crate) fn listed_names(
    alloc: Global,
    columns: &Option<CommaList<Name>>,
) -> Result<Option<Items<Name>>, ElementFault>
    ensures listed { IfOk result (λ names. names ≡ option_map meaning.listed columns.now) }
    ensures exact { Passes (refused_if NameTwice (spec.lists_twice columns.now)) result }
{
    match columns {
        None => Ok(None),
        Some(list) => {
            let names = distinct_names(alloc, names_of(alloc, list)?)?;
            Ok(Some(names))
        }
    }
}

/// The names, if none of them is there twice.
fn distinct_names(alloc: Global, names: Items<Name>) -> Result<Items<Name>, ElementFault>
    ensures names { IfOk result (λ them. them ≡ names) }
    ensures exact { Passes (refused_if NameTwice (has_name_twice names)) result }
{
    match check_distinct(alloc, names.as_slice()) {
        Ok(()) => Ok(names),
        Err(fault) => {
            drop(names);
            Err(fault)
        }
    }
}

/// No name is there twice.
fn check_distinct(alloc: Global, names: &[Name]) -> Result<(), ElementFault>
    ensures { Passes (refused_if NameTwice (has_name_twice names.now)) result }
{
    let mut seen = IndexSet::new(alloc);
    for name in names {
        match add_name(&mut seen, *name) {
            Ok(()) => {}
            Err(fault) => return Err(fault),
        }
    }
    Ok(())
}

/// The names of a view's columns: those listed, or those of the query's columns.
pub(crate) fn column_names(
    alloc: Global,
    listed: Option<Items<Name>>,
    columns: &[ResultColumn],
) -> Result<Items<Name>, ElementFault>
    ensures names { IfOk result
        (λ names. map (λ n. Some n) names ≡ names_or listed (map (λ c. c.name) columns.now)) }
    ensures count { IfOk result (λ names. length names ≡ length columns.now) }
    ensures exact { Makes (λ names. names) (names_for listed (map column_of columns.now)) result }
{
    match listed {
        Some(names) => as_many(names, columns),
        None => query_names(alloc, columns),
    }
}

/// The names, if there are as many as columns; else `BadView`.
fn as_many(names: Items<Name>, columns: &[ResultColumn]) -> Result<Items<Name>, ElementFault>
    ensures names { IfOk result (λ them. them ≡ names) }
    ensures count { IfOk result (λ them. length them ≡ length columns.now) }
    ensures exact { Makes (λ them. them) (spec.as_many (map column_of columns.now) names) result }
{
    if names.len() == columns.len() {
        return Ok(names);
    }
    drop(names);
    Err(ElementFault::Refused(SchemaFault::BadView))
}

/// The names of a query's columns: none twice, and none missing.
fn query_names(alloc: Global, columns: &[ResultColumn]) -> Result<Items<Name>, ElementFault>
    ensures names { IfOk result (λ names. map (λ n. Some n) names ≡ map (λ c. c.name) columns.now) }
    ensures count { IfOk result (λ names. length names ≡ length columns.now) }
    ensures exact { Makes (λ names. names) (names_of_query (map column_of columns.now)) result }
{
    let names = own_names(alloc, columns)?;
    match distinct_names(alloc, names) {
        Ok(names) => as_many(names, columns),
        Err(fault) => Err(fault),
    }
}

/// The names that columns have.
fn own_names(alloc: Global, columns: &[ResultColumn]) -> Result<Items<Name>, AllocError>
    ensures { IfOk result (λ names. names ≡ filter_map (λ c. c.name) columns.now) }
{
    let mut names = Items::new(alloc);
    for column in columns {
        if let Some(name) = column.name {
            names.push(name)?;
        }
    }
    Ok(names)
}

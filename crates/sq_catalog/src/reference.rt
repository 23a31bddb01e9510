//! References of a table definition, and the tables and columns that they name (ISO/IEC 9075:1992, 11.8).

ghost use Rattle.std.specs.Prelude.{◌≡◌, [], true, length, map, IfOk, IfSome, OnOk};
ghost use Rattle.std.specs.List.{All, AllZip, list_any};
ghost use Rattle.sq_bound.specs.Names.{are_positions, option_all};
ghost use Rattle.sq_meaning.specs.Words.{is_some_and};
ghost use Rattle.sq_binding.specs.Key as key;
ghost use Rattle.sq_binding.specs.ElementOutcome as outcome;
ghost use Rattle.sq_binding.specs.Position as position;
ghost use Rattle.sq_binding.specs.Reference as definition;
ghost use Rattle.sq_catalog.specs.Exact.{declared, name_in, names_in as column_names};
ghost use Rattle.sq_catalog.specs.Fault.{Makes};
ghost use Rattle.sq_catalog.specs.Keys.{StandAt};
ghost use Rattle.sq_catalog.specs.Reference.{HasOwnKinds, IsFound, IsFoundAs, IsMeant, constraint_lent, constraints_lent, entries_seen, found_seen, names_in, reference_seen, target_width};
ghost use Rattle.sq_catalog.specs.References.{AreListed};
ghost use Rattle.sq_catalog.specs.Stored.{IsStored};
ghost use Rattle.sq_catalog.specs.Written.{column_count, names_at};

use crate::catalog::{Catalog, FullName, full_name};
use crate::fault::ElementFault;
use crate::key::is_bad_list;
use crate::written::{NamedColumns, WrittenReference, names_of, require_room};
use sq_bound::{TableDesc, pair_of};
use sq_items::Items;
use sq_lex::Name;
use sq_meaning::SchemaFault;
use sq_tree::References;
use std::alloc::Global;

/// A reference whose table and columns are found.
#[derive(Drop)]
pub(crate) struct FoundReference<'t> {
    pub columns: Items<usize>,
    /// The table or view that is referenced, none where it is the table that is being defined.
    pub earlier: Option<&'t TableDesc>,
    /// The columns that are listed, none where the primary key is meant.
    pub listed: Option<Items<usize>>,
}

/// The table that is being defined, as far as its references need it.
#[derive(Clone, Copy)]
pub(crate) struct OwnTable<'a> {
    pub user: Name,
    pub full_name: FullName,
    pub columns: &'a NamedColumns,
}

/// The references with their columns found.
pub(crate) fn references_of<'t>(
    catalog: &'t Catalog,
    own: &OwnTable<'_>,
    written: &[WrittenReference<'_>],
) -> Result<Vec<FoundReference<'t>>, ElementFault>
    ensures found { IfOk result
        (λ found. All (IsFound catalog.now.bases (column_count own.now.columns.now)) found.items) }
    ensures named { IfOk result
        (λ found. AllZip (IsFoundAs catalog.now own.now.user own.now.full_name (names_at own.now.columns.now))
        (constraints_lent written.now) found.items) }
    ensures exact { Makes (λ found. map found_seen found.items) (outcome.each
        (definition.found_reference (declared catalog.now) own.now.user (name_in own.now.full_name)
        (names_at own.now.columns.now)) (map reference_seen written.now)) result }
{
    let mut references = Vec::new(catalog.alloc());
    match add_found(catalog, own, written, &mut references) {
        Ok(()) => Ok(references),
        Err(fault) => {
            drop(references);
            Err(fault)
        }
    }
}

fn add_found<'t>(
    catalog: &'t Catalog,
    own: &OwnTable<'_>,
    written: &[WrittenReference<'_>],
    references: &mut Vec<FoundReference<'t>>,
) -> Result<(), ElementFault>
    requires none { references.old.items ≡ [] }
    ensures found { OnOk result
        (All (IsFound catalog.now.bases (column_count own.now.columns.now)) references.new.items) }
    ensures named { OnOk result
        (AllZip (λ w. IsFoundAs catalog.now own.now.user own.now.full_name (names_at own.now.columns.now)
        (constraint_lent w)) written.now references.new.items) }
    ensures exact { Makes (λ _. map found_seen references.new.items) (outcome.each
        (definition.found_reference (declared catalog.now) own.now.user (name_in own.now.full_name)
        (names_at own.now.columns.now)) (map reference_seen written.now)) result }
{
    for reference in written {
        let found = found_reference(catalog, own, reference)?;
        require_room(references.push(found).is_ok())?;
    }
    Ok(())
}

fn found_reference<'t>(
    catalog: &'t Catalog,
    own: &OwnTable<'_>,
    reference: &WrittenReference<'_>,
) -> Result<FoundReference<'t>, ElementFault>
    ensures found { IfOk result (IsFound catalog.now.bases (column_count own.now.columns.now)) }
    ensures named { IfOk result
        (IsFoundAs catalog.now own.now.user own.now.full_name (names_at own.now.columns.now)
        (constraint_lent reference.now)) }
    ensures exact { Makes found_seen (definition.found_reference (declared catalog.now) own.now.user
        (name_in own.now.full_name) (names_at own.now.columns.now) (reference_seen reference.now)) result }
{
    let earlier = earlier_table(catalog, own, full_name(own.user, reference.to.table))?;
    let columns = own
        .columns
        .positions(catalog.alloc(), reference.columns.as_slice());
    let listed = listed_columns(catalog.alloc(), own, earlier, reference.to);
    let (columns, listed) = pair_of(columns, listed)?;
    Ok(FoundReference {
        columns,
        earlier,
        listed,
    })
}

/// The table or view of a name, none where it is the one that is being defined.
fn earlier_table<'t>(
    catalog: &'t Catalog,
    own: &OwnTable<'_>,
    name: FullName,
) -> Result<Option<&'t TableDesc>, ElementFault>
    ensures stored { IfOk result (λ earlier. IfSome earlier (λ table. IsStored catalog.now.bases table.now)) }
    ensures meant { IfOk result (IsMeant catalog.now own.now.full_name name) }
    ensures kinds { IfOk result (λ earlier. IfSome earlier (λ table. HasOwnKinds table.now)) }
    ensures exact { Makes entries_seen
        (definition.earlier_table (declared catalog.now) (name_in own.now.full_name) (name_in name)) result }
{
    if own.full_name == name {
        return Ok(None);
    }
    match catalog.entry(&name) {
        Some((_, table)) => Ok(Some(table)),
        None => Err(ElementFault::Refused(SchemaFault::UnknownName)),
    }
}

/// The positions of the columns that a reference lists, in the table that it names.
fn listed_columns(
    alloc: Global,
    own: &OwnTable<'_>,
    earlier: Option<&TableDesc>,
    to: &References,
) -> Result<Option<Items<usize>>, ElementFault>
    ensures within { IfOk result
        (λ listed. option_all (are_positions (target_width (column_count own.now.columns.now) earlier.entry))
        listed ≡ true) }
    ensures named { IfOk result
        (AreListed (names_in (names_at own.now.columns.now) earlier.entry) to.now.columns) }
    ensures exact { Makes (λ listed. listed)
        (definition.positions_listed (names_in (names_at own.now.columns.now) earlier.entry) to.now.columns)
        result }
{
    match &to.columns {
        Some(list) => {
            let names = names_of(alloc, list)?;
            match positions_in(alloc, own, earlier, names.as_slice()) {
                Ok(positions) => Ok(Some(positions)),
                Err(fault) => Err(fault),
            }
        }
        None => Ok(None),
    }
}

/// The positions of names among the columns of the table that a reference names.
fn positions_in(
    alloc: Global,
    own: &OwnTable<'_>,
    earlier: Option<&TableDesc>,
    names: &[Name],
) -> Result<Items<usize>, ElementFault>
    ensures within { IfOk result
        (λ positions. are_positions (target_width (column_count own.now.columns.now) earlier.entry)
        positions ≡ true) }
    ensures named { IfOk result (StandAt (names_in (names_at own.now.columns.now) earlier.entry) names.now) }
    ensures exact { Makes (λ positions. positions)
        (position.positions_of (names_in (names_at own.now.columns.now) earlier.entry) names.now) result }
{
    match earlier {
        None => own.columns.positions(alloc, names),
        Some(table) => positions_of(alloc, table, names),
    }
}

/// The positions of columns of a table.
fn positions_of(
    alloc: Global,
    table: &TableDesc,
    names: &[Name],
) -> Result<Items<usize>, ElementFault>
    ensures within { IfOk result (λ positions. are_positions (length table.now.columns) positions ≡ true) }
    ensures named { IfOk result (StandAt (column_names table.now.columns) names.now) }
    ensures exact { Makes (λ positions. positions)
        (position.positions_of (column_names table.now.columns) names.now) result }
{
    let mut positions = Items::new(alloc);
    for name in names {
        match table.column(*name) {
            Some(position) => positions.push(position)?,
            None => return Err(ElementFault::Refused(SchemaFault::UnknownName)),
        }
    }
    Ok(positions)
}

/// Whether a list of a reference has a column twice or more than 6.
pub(crate) fn have_bad_list(references: &[FoundReference<'_>]) -> bool
    ensures { result ≡ list_any (λ r. definition.has_bad_list (found_seen r)) references.now }
{
    references.iter().any(|reference| has_bad_list(reference))
}

fn has_bad_list(reference: &FoundReference<'_>) -> bool
    ensures { result ≡ definition.has_bad_list (found_seen reference.now) }
{
    is_bad_list(reference.columns.as_slice()) || is_badly_listed(&reference.listed)
}

/// Whether columns are listed, with one twice or more than 6.
fn is_badly_listed(listed: &Option<Items<usize>>) -> bool
    ensures { result ≡ is_some_and key.is_bad_list listed.now }
{
    match listed {
        Some(listed) => is_bad_list(listed.as_slice()),
        None => false,
    }
}

//! References that are bound: to a key, with paired columns (ISO/IEC 9075:1992, 11.8).

ghost use Rattle.std.specs.Prelude.{◌≡◌, ◌+◌, [], nat_eq, slice_get, ◌==◌, ◌&&◌, IsTrue, ℕ, true, length, map, Some, IfErr, IfOk, OnOk};
ghost use Rattle.std.specs.List.{All, AllZip, list_all, list_any, zip};
ghost use Rattle.sq_bound.specs.Names.{are_positions};
ghost use Rattle.sq_bound.specs.WellFormed.{kinds_of_columns};
ghost use Rattle.sq_binding.specs.Reference as definition;
ghost use Rattle.sq_catalog.specs.Exact.{declared};
ghost use Rattle.sq_catalog.specs.Fault.{Makes, Stops};
ghost use Rattle.sq_catalog.specs.Reference.{AddsBound, IsBound, IsFound, IsKeyReferenced, IsPairAdded, IsReferenceMade, RefersTo, entries_seen, found_seen, is_to, key_seen, keys_with, may_reference_at, names_in, own_seen, reference_with, references_made, target_seen};
ghost use Rattle.sq_catalog.specs.References.{IsToKey, are_listed, paired_with};
ghost use Rattle.sq_catalog.specs.declared.fault.ElementFault.TheVariants.{NoMemory};

use crate::catalog::{Catalog, FullName};
use crate::fault::ElementFault;
use crate::privilege::Privilege;
use crate::reference::FoundReference;
use crate::referenced::{BAD_REFERENCE, ReferencedKey, referenced_key, target_of};
use crate::target::{OwnKeys, Target};
use sq_bound::{Column, Reference, TableDesc};
use sq_items::Items;
use sq_lex::Name;
use sq_value::Kind;
use std::alloc::Global;

/// The references of a table, each to a key of a base table and of its kinds.
#[derive(Drop)]
pub(crate) struct BoundReferences {
    pub references: Items<Reference>,
    /// Whether the user holds REFERENCES on each column that is referenced of another table.
    pub are_permitted: bool,
}

/// The references that a table definition of a user writes.
pub(crate) fn bound_references<'a>(
    catalog: &Catalog,
    user: Name,
    own: OwnKeys<'a>,
    found: &'a [FoundReference<'a>],
) -> Result<BoundReferences, ElementFault>
    requires { All (IsFound own.before.now (length own.columns.now)) found.now }
    ensures exact { Makes (λ bound. (bound.references, bound.are_permitted)) (references_made
        (definition.bound_reference (declared catalog.now) user (own_seen own.entry))
        (map found_seen found.now)) result }
    ensures refer { IfOk result
        (λ bound. list_all (is_to (keys_with own.entry.before.now own.entry.keys.now.columns)
        (length own.entry.columns.now)) bound.references ≡ true) }
    ensures found { IfOk result
        (λ bound. AllZip (IsBound own.entry.before.now own.entry.keys.now.columns own.entry.keys.now.primary)
        found.now bound.references) }
{
    let mut bound = BoundReferences {
        references: Items::new(catalog.alloc()),
        are_permitted: true,
    };
    match bound.add_all(catalog, user, own, found) {
        Ok(()) => Ok(bound),
        Err(fault) => {
            drop(bound);
            Err(fault)
        }
    }
}

impl BoundReferences {
    fn add_all<'a>(
        &mut self,
        catalog: &Catalog,
        user: Name,
        own: OwnKeys<'a>,
        found: &'a [FoundReference<'a>],
    ) -> Result<(), ElementFault>
        requires found { All (IsFound own.before.now (length own.columns.now)) found.now }
        requires bound { list_all
            (is_to (keys_with own.before.now own.keys.now.columns) (length own.columns.now))
            self.old.references ≡ true }
        requires none { self.old.references ≡ [] }
        requires permitted { self.old.are_permitted ≡ true }
        ensures exact { Makes (λ _. (self.new.references, self.new.are_permitted)) (references_made
            (definition.bound_reference (declared catalog.now) user (own_seen own.entry))
            (map found_seen found.now)) result }
        ensures refer { OnOk result
            (list_all (is_to (keys_with own.entry.before.now own.entry.keys.now.columns)
            (length own.entry.columns.now)) self.new.references ≡ true) }
        ensures found { OnOk result
            (AllZip (IsBound own.entry.before.now own.entry.keys.now.columns own.entry.keys.now.primary)
            found.now self.new.references) }
    {
        for reference in found {
            self.add(catalog, user, own, reference)?;
        }
        Ok(())
    }

    fn add<'a>(
        &mut self,
        catalog: &Catalog,
        user: Name,
        own: OwnKeys<'a>,
        reference: &'a FoundReference<'a>,
    ) -> Result<(), ElementFault>
        requires found { IsFound own.before.now (length own.columns.now) reference.now }
        requires bound { list_all
            (is_to (keys_with own.before.now own.keys.now.columns) (length own.columns.now))
            self.old.references ≡ true }
        ensures refer { OnOk result
            (list_all (is_to (keys_with own.entry.before.now own.entry.keys.now.columns)
            (length own.entry.columns.now)) self.new.references ≡ true) }
        ensures found { OnOk result
            (AddsBound own.entry.before.now own.entry.keys.now.columns own.entry.keys.now.primary
            reference.now self.old.references self.new.references) }
        ensures made { OnOk result (IsReferenceMade
            (definition.bound_reference (declared catalog.now) user (own_seen own.entry)
            (found_seen reference.now))
            self.old self.new) }
        ensures stops { IfErr result (Stops
            (definition.bound_reference (declared catalog.now) user (own_seen own.entry)
            (found_seen reference.now))) }
    {
        let (bound, is_permitted) = checked_reference(catalog, user, own, reference)?;
        self.references.push(bound)?;
        self.are_permitted = self.are_permitted && is_permitted;
        Ok(())
    }
}

/// A reference, and whether the user may make it.
fn checked_reference<'a>(
    catalog: &Catalog,
    user: Name,
    own: OwnKeys<'a>,
    reference: &'a FoundReference<'a>,
) -> Result<(Reference, bool), ElementFault>
    requires { IsFound own.before.now (length own.columns.now) reference.now }
    ensures refer { IfOk result (λ made. is_to (keys_with own.entry.before.now own.entry.keys.now.columns)
        (length own.entry.columns.now) made.0 ≡ true) }
    ensures found { IfOk result (λ made. IsBound own.entry.before.now own.entry.keys.now.columns
        own.entry.keys.now.primary reference.now made.0) }
    ensures exact { Makes reference_with (definition.bound_reference (declared catalog.now) user
        (own_seen own.entry) (found_seen reference.now)) result }
{
    let target = target_of(own, reference.earlier)?;
    let key = referenced_key(target, &reference.listed)?;
    let is_permitted = may_reference(catalog, user, reference.earlier, key.listed);
    match bound_reference(catalog.alloc(), own, reference, target, key) {
        Ok(bound) => Ok((bound, is_permitted)),
        Err(fault) => Err(fault),
    }
}

/// Whether a user may reference columns of an earlier table, or of the one that is being defined.
fn may_reference(
    catalog: &Catalog,
    user: Name,
    earlier: Option<&TableDesc>,
    columns: &[usize],
) -> bool
    ensures { result ≡ definition.may_reference (declared catalog.now) user (entries_seen earlier.entry)
        (definition.names_at (names_in [] earlier.entry) columns.now) }
{
    match earlier {
        Some(table) => holds_references(catalog, user, table, columns),
        None => true,
    }
}

/// Whether a user holds REFERENCES on columns of a table.
fn holds_references(catalog: &Catalog, user: Name, table: &TableDesc, columns: &[usize]) -> bool
    ensures { result ≡ list_all (may_reference_at (declared catalog.now) user table.now) columns.now }
{
    columns
        .iter()
        .all(|column| holds_reference(catalog, user, table, *column))
}

/// Whether a user holds REFERENCES on the column at a position, if there is one.
fn holds_reference(catalog: &Catalog, user: Name, table: &TableDesc, column: usize) -> bool
    ensures { result ≡ may_reference_at (declared catalog.now) user table.now column }
{
    let name = FullName {
        user: table.user,
        name: table.name,
    };
    match table.columns.as_slice().get(column) {
        Some(column) => {
            let privilege = Privilege::References(column.name);
            catalog.may(false, user, &name, &privilege)
        }
        None => true,
    }
}

fn bound_reference<'a>(
    alloc: Global,
    own: OwnKeys<'a>,
    reference: &'a FoundReference<'a>,
    target: Target<'a>,
    key: ReferencedKey<'a>,
) -> Result<Reference, ElementFault>
    requires own { are_positions (length own.columns.now) reference.now.columns ≡ true }
    requires listed { are_positions (length target.columns.now) key.listed.now ≡ true }
    requires same { are_listed key.listed.now key.columns.now ≡ true }
    requires key { IsKeyReferenced target.keys.now target.primary reference.now.listed key }
    ensures refers { IfOk result (RefersTo reference.now.columns target.entry key.entry) }
    ensures by_key { IfOk result (λ bound. are_positions (length own.entry.columns.now) bound.by_key ≡ true) }
    ensures to_key { IfOk result (IsToKey target.entry.keys.now target.entry.primary reference.now.listed) }
    ensures exact { Makes (λ bound. bound) (definition.paired_reference (own_seen own.entry).kinds
        reference.now.columns (target_seen target.entry) (key_seen key.entry)) result }
{
    let columns = reference.columns.as_slice();
    if !pair_well(own.columns, columns, target.columns, key.listed) {
        return Err(BAD_REFERENCE);
    }
    reference_to(alloc, target.place, key, columns)
}

/// The reference of columns to a key.
fn reference_to<'a>(
    alloc: Global,
    table: usize,
    key: ReferencedKey<'a>,
    columns: &'a [usize],
) -> Result<Reference, ElementFault>
    requires pairs { length key.listed.now ≡ length columns.now }
    requires same { are_listed key.listed.now key.columns.now ≡ true }
    ensures place { IfOk result (λ bound. (bound.table ≡ table) × (bound.key ≡ key.entry.place)) }
    ensures columns { IfOk result (λ bound. bound.columns ≡ columns.now) }
    ensures paired { IfOk result (λ bound. length bound.by_key ≡ length key.entry.columns.now) }
    ensures positions { IfOk result
        (λ bound. (width : ℕ) → are_positions width columns.now ≡ true → are_positions width bound.by_key
        ≡ true) }
    ensures by_key { IfOk result
        (λ bound. map (paired_with key.entry.listed.now columns.now) key.entry.columns.now
        ≡ map (λ own. Some own) bound.by_key) }
    ensures memory { IfErr result (λ fault. fault ≡ NoMemory) }
{
    Ok(Reference {
        columns: Items::from_slice(alloc, columns)?,
        table,
        key: key.place,
        by_key: in_key_order(alloc, key.columns, key.listed, columns)?,
    })
}

/// Whether there are as many columns on both sides, and each two paired ones are both numbers or both texts.
fn pair_well(own: &[Column], columns: &[usize], target: &[Column], listed: &[usize]) -> bool
    ensures well { result ≡ (length columns.now == length listed.now
        && list_all (definition.are_paired (kinds_of_columns own.now) (kinds_of_columns target.now))
        (zip columns.now listed.now)) }
    ensures long { IsTrue result → length listed.now ≡ length columns.now }
{
    columns.len() == listed.len() && kinds_agree(own, columns, target, listed)
}

/// Whether each two paired columns are both numbers or both texts.
fn kinds_agree(own: &[Column], columns: &[usize], target: &[Column], listed: &[usize]) -> bool
    requires pairs { length columns.now ≡ length listed.now }
    ensures { result ≡ list_all
        (definition.are_paired (kinds_of_columns own.now) (kinds_of_columns target.now))
        (zip columns.now listed.now) }
{
    for (pair, column) in columns.iter().enumerate() {
        let referencing = kind_at(own, *column);
        let referenced = kind_at(target, listed[pair]);
        if !are_of_one_sort(referencing, referenced) {
            return false;
        }
    }
    true
}

/// The kind of the column at a position, if there is one.
fn kind_at(columns: &[Column], position: usize) -> Option<Kind>
    ensures { result ≡ slice_get (kinds_of_columns columns.now) position }
{
    match columns.get(position) {
        Some(column) => Some(column.kind),
        None => None,
    }
}

/// Whether both are there, and are numbers or texts.
fn are_of_one_sort(own: Option<Kind>, target: Option<Kind>) -> bool
    ensures { result ≡ definition.are_of_one_sort own target }
{
    match (own, target) {
        (Some(own), Some(target)) => is_number(own) == is_number(target),
        _ => false,
    }
}

fn is_number(kind: Kind) -> bool
    ensures { result ≡ definition.is_numeric kind }
{
    matches!(kind, Kind::Num(_))
}

/// For each column of the key, the column that is paired with it.
fn in_key_order(
    alloc: Global,
    key: &[usize],
    listed: &[usize],
    columns: &[usize],
) -> Result<Items<usize>, ElementFault>
    requires pairs { length listed.now ≡ length columns.now }
    requires same { are_listed listed.now key.now ≡ true }
    ensures paired { IfOk result (λ ordered. length ordered ≡ length key.now) }
    ensures positions { IfOk result
        (λ ordered. (width : ℕ) → are_positions width columns.now ≡ true → are_positions width ordered
        ≡ true) }
    ensures memory { IfErr result (λ fault. fault ≡ NoMemory) }
    ensures by_key { IfOk result
        (λ ordered. map (paired_with listed.now columns.now) key.now ≡ map (λ own. Some own) ordered) }
{
    let mut ordered = Items::new(alloc);
    for key_column in key {
        push_paired(&mut ordered, *key_column, listed, columns)?;
    }
    Ok(ordered)
}

/// Adds the column that is paired with a column of the key.
fn push_paired(
    ordered: &mut Items<usize>,
    key_column: usize,
    listed: &[usize],
    columns: &[usize],
) -> Result<(), ElementFault>
    requires pairs { length listed.now ≡ length columns.now }
    requires listed { list_any (λ other. nat_eq other key_column) listed.now ≡ true }
    ensures paired { OnOk result (length ordered.new ≡ length ordered.old + 1) }
    ensures memory { IfErr result (λ fault. fault ≡ NoMemory) }
    ensures positions { OnOk result
        ((width : ℕ) → are_positions width columns.now ≡ true → are_positions width
        ordered.old ≡ true → are_positions width ordered.new ≡ true) }
    ensures pair { OnOk result
        (IsPairAdded (paired_with listed.now columns.now key_column) ordered.old ordered.new) }
{
    for (pair, other) in listed.iter().enumerate() {
        if *other == key_column {
            ordered.push(columns[pair])?;
            return Ok(());
        }
    }
    unreachable!()
}

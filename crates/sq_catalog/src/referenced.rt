//! The table and the key that a reference is to (ISO/IEC 9075:1992, 11.8).

ghost use Rattle.std.specs.Prelude.{◌≡◌, ◌<◌, nat_eq, true, length, None, Some, IfOk, IfSome};
ghost use Rattle.std.specs.List.{list_any};
ghost use Rattle.sq_store.specs.Keys.{keys_at};
ghost use Rattle.sq_bound.specs.Names.{are_positions, option_all};
ghost use Rattle.sq_bound.specs.Fits.{IsBase};
ghost use Rattle.sq_meaning.specs.declared.refusal.SchemaFault.TheVariants as refusal;
ghost use Rattle.sq_binding.specs.ElementOutcome as outcome;
ghost use Rattle.sq_binding.specs.Reference as definition;
ghost use Rattle.sq_catalog.specs.Exact.{names_in as column_names};
ghost use Rattle.sq_catalog.specs.Fault.{Makes};
ghost use Rattle.sq_catalog.specs.Reference.{HasOwnKinds, IsKeyReferenced, IsTarget, IsTargetBody, entries_seen, key_seen, keys_with, names_in, own_seen, target_seen, target_width};
ghost use Rattle.sq_catalog.specs.References.{are_listed, is_key_of};
ghost use Rattle.sq_catalog.specs.Stored.{IsStored};

use crate::fault::ElementFault;
use crate::target::{OwnKeys, Target};
use sq_bound::{BaseTable, Column, TableBody, TableDesc};
use sq_items::Items;
use sq_meaning::SchemaFault;

pub(crate) const BAD_REFERENCE: ElementFault = ElementFault::Refused(SchemaFault::BadReference);

/// The table that a reference is to, which is a base table.
pub(crate) fn target_of<'a>(
    own: OwnKeys<'a>,
    earlier: Option<&'a TableDesc>,
) -> Result<Target<'a>, ElementFault>
    requires stored { IfSome earlier (λ table. IsStored own.before.now table.now) }
    requires kinds { IfSome earlier (λ table. HasOwnKinds table.now) }
    ensures exact { Makes target_seen
        (definition.referenced_table (own_seen own.entry) (entries_seen earlier.entry)) result }
    ensures keys { IfOk result (λ target. keys_at (keys_with own.entry.before.now own.entry.keys.now.columns)
        target.place ≡ target.keys.now) }
    ensures columns { IfOk result
        (λ target. length target.columns.now ≡ target_width (length own.entry.columns.now) earlier.entry) }
    ensures found { IfOk result
        (λ target. IsTarget own.entry.before.now own.entry.keys.now.columns own.entry.keys.now.primary
        earlier.entry
        target.place target.keys.now target.primary) }
    ensures names { IfOk result (λ target. column_names target.columns.now
        ≡ names_in (column_names own.entry.columns.now) earlier.entry) }
{
    match earlier {
        None => Ok(Target {
            place: own.before.len(),
            columns: own.columns,
            keys: own.keys.columns.as_slice(),
            primary: own.keys.primary,
        }),
        Some(table) => base_target(own, table),
    }
}

fn base_target<'a>(own: OwnKeys<'a>, table: &'a TableDesc) -> Result<Target<'a>, ElementFault>
    requires stored { IsStored own.before.now table.now }
    requires kinds { HasOwnKinds table.now }
    ensures exact { Makes target_seen
        (definition.referenced_table (own_seen own.entry) (entries_seen (Some table.entry))) result }
    ensures keys { IfOk result (λ target. keys_at (keys_with own.entry.before.now own.entry.keys.now.columns)
        target.place ≡ target.keys.now) }
    ensures columns { IfOk result (λ target. length target.columns.now ≡ length table.now.columns) }
    ensures found { IfOk result
        (λ target. IsTargetBody table.now.body target.place target.keys.now target.primary) }
    ensures names { IfOk result (λ target. column_names target.columns.now
        ≡ column_names table.now.columns) }
{
    match &table.body {
        TableBody::Base(base) => { Ok(stored_target(own, table.columns.as_slice(), base.get())) }
        TableBody::View(_) => Err(BAD_REFERENCE),
    }
}

/// A stored base table with these columns.
#[tactic(auto, using(crate::proofs::Growth::Stored::earlier_keys))]
fn stored_target<'a>(own: OwnKeys<'a>, columns: &'a [Column], base: &'a BaseTable) -> Target<'a>
    requires stored { IsBase own.before.now base.now }
    requires width { length columns.now ≡ length base.now.columns }
    ensures keys { keys_at (keys_with own.entry.before.now own.entry.keys.now.columns) result.place
        ≡ result.keys.now }
    ensures columns { result.columns.now ≡ columns.now }
    ensures place { result.place ≡ base.now.place }
    ensures held { result.keys.now ≡ base.now.keys }
    ensures primary { result.primary ≡ base.now.primary_key }
{
    Target {
        place: base.place,
        columns,
        keys: base.keys.as_slice(),
        primary: base.primary_key,
    }
}

/// The key that a reference is to: its place among the table's keys, its columns, and the same columns in the order in
/// which they are paired.
#[derive(Clone, Copy)]
pub(crate) struct ReferencedKey<'a> {
    pub place: usize,
    pub columns: &'a [usize],
    pub listed: &'a [usize],
}

/// The key that a reference is to: the one of the columns that are listed, else the primary one.
pub(crate) fn referenced_key<'a>(
    target: Target<'a>,
    listed: &'a Option<Items<usize>>,
) -> Result<ReferencedKey<'a>, ElementFault>
    requires { option_all (are_positions (length target.columns.now)) listed.now ≡ true }
    ensures place { IfOk result (λ key. key.place < length target.entry.keys.now) }
    ensures listed { IfOk result
        (λ key. are_positions (length target.entry.columns.now) key.listed.now ≡ true) }
    ensures same { IfOk result (λ key. are_listed key.listed.now key.columns.now ≡ true) }
    ensures key { IfOk result (IsKeyReferenced target.entry.keys.now target.entry.primary listed.now) }
    ensures exact { Makes key_seen (outcome.or_fault refusal.BadReference
        (definition.referenced_key (target_seen target.entry) listed.now)) result }
{
    match listed {
        Some(listed) => listed_key(target, listed.as_slice()),
        None => primary_key(target),
    }
}

/// The key that has the columns that are listed.
fn listed_key<'a>(
    target: Target<'a>,
    listed: &'a [usize],
) -> Result<ReferencedKey<'a>, ElementFault>
    ensures place { IfOk result (λ key. key.place < length target.entry.keys.now) }
    ensures listed { IfOk result (λ key. key.listed.now ≡ listed.now) }
    ensures same { IfOk result (λ key. are_listed key.listed.now key.columns.now ≡ true) }
    ensures key { IfOk result (IsKeyReferenced target.entry.keys.now target.entry.primary (Some listed.now)) }
    ensures exact { Makes key_seen (outcome.or_fault refusal.BadReference
        (definition.key_listed target.entry.keys.now listed.now)) result }
{
    for (place, key) in target.keys.iter().enumerate() {
        let columns = key.as_slice();
        if are_the_same(columns, listed) {
            return Ok(ReferencedKey {
                place,
                columns,
                listed,
            });
        }
    }
    Err(BAD_REFERENCE)
}

/// The primary key, if the table has one.
#[tactic(auto, using(crate::proofs::OneByOne::Listed::all_among))]
fn primary_key(target: Target<'_>) -> Result<ReferencedKey<'_>, ElementFault>
    ensures place { IfOk result (λ key. key.place < length target.entry.keys.now) }
    ensures listed { IfOk result
        (λ key. are_positions (length target.entry.columns.now) key.listed.now ≡ true) }
    ensures same { IfOk result (λ key. are_listed key.listed.now key.columns.now ≡ true) }
    ensures key { IfOk result (IsKeyReferenced target.entry.keys.now target.entry.primary None) }
    ensures exact { Makes key_seen (outcome.or_fault refusal.BadReference
        (definition.primary_key (target_seen target.entry))) result }
{
    let Some(place) = target.primary else {
        return Err(BAD_REFERENCE);
    };
    let columns = target.keys[place].as_slice();
    Ok(ReferencedKey {
        place,
        columns,
        listed: columns,
    })
}

/// Whether a key and a list have the same columns, in any order.
fn are_the_same(key: &[usize], listed: &[usize]) -> bool
    ensures listed { result ≡ true → are_listed listed.now key.now ≡ true }
    ensures same { result ≡ is_key_of listed.now key.now }
{
    are_all_listed(key, listed) && are_all_listed(listed, key)
}

/// Whether each column of a list is among those of another.
fn are_all_listed(key: &[usize], listed: &[usize]) -> bool
    ensures { result ≡ are_listed listed.now key.now }
{
    key.iter().all(|column| is_among(listed, *column))
}

fn is_among(listed: &[usize], column: usize) -> bool
    ensures { result ≡ list_any (λ other. nat_eq other column) listed.now }
{
    listed.contains(&column)
}

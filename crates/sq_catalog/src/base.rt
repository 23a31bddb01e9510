//! The base table of a table definition (ISO/IEC 9075:1992, 11.3 to 11.9).

ghost use Rattle.std.specs.Prelude.{◌≡◌, ◌||◌, IfOk, OnOk, length, map, nat_lt, true, vec_len};
ghost use Rattle.std.specs.List.{list_all, list_any};
ghost use Rattle.sq_value.specs.Domain.{kind_of};
ghost use Rattle.sq_meaning.specs.declared.refusal.SchemaFault.TheVariants as refusal;
ghost use Rattle.sq_bound.specs.Names.{are_positions, option_all};
ghost use Rattle.sq_bound.specs.NotNull.{are_not_null};
ghost use Rattle.sq_bound.specs.WellFormed.{kinds_of_columns};
ghost use Rattle.sq_binding.specs.Seen.{cond_seen};
ghost use Rattle.sq_binding.specs.Key.{has_nullable, is_bad_list, is_nullable_at};
ghost use Rattle.sq_binding.specs.ElementOutcome.{and_then, refused_if as asked};
ghost use Rattle.sq_binding.specs.Reference as reference;
ghost use Rattle.sq_binding.specs.Table as spec;
ghost use Rattle.sq_binding.specs.Names.{descriptor_of};
ghost use Rattle.sq_catalog.specs.Base.{IsMadeOf};
ghost use Rattle.sq_catalog.specs.Checks.{AreChecksOf};
ghost use Rattle.sq_catalog.specs.Columns.{AreBaseColumnsOf, AreColumnsOf};
ghost use Rattle.sq_catalog.specs.Draft.{AreDraftColumns, IsBaseFor, IsDraftFor, IsDraftOf, draft_seen};
ghost use Rattle.sq_catalog.specs.Exact.{base_declared, declared, name_in};
ghost use Rattle.sq_catalog.specs.Fault.{Makes, Passes};
ghost use Rattle.sq_catalog.specs.Reference.{found_seen};
ghost use Rattle.sq_catalog.specs.Stored.{AreChecksAt, IsNext};
ghost use Rattle.sq_catalog.specs.Table.{AreChecksMade, base_made, held_declared, parts_made, rest_asked, typed_definitions, typed_kinds, typed_seen, written_not_null};
ghost use Rattle.sq_catalog.specs.Written.{conditions_lent};

use crate::bound_reference::{BoundReferences, bound_references};
use crate::catalog::{Catalog, FullName};
use crate::check::{CheckedTable, bound_checks};
use crate::column::{base_columns, columns_of};
use crate::description::describe_base;
use crate::draft::Draft;
use crate::fault::{ElementFault, refused_if};
use crate::reference::have_bad_list;
use crate::target::OwnKeys;
use crate::typed::TypedColumn;
use crate::written::is_not_null;
use sq_bound::{BaseColumn, BaseTable, BoundCond, Column, Names, Shared, TableDesc, pair_of};
use sq_items::Items;
use sq_lex::Name;
use sq_meaning::SchemaFault;
use std::alloc::{AllocError, Global};

/// The greatest number of columns of a table (own rule).
const MOST_COLUMNS: usize = 64;

impl Catalog {
    /// The table of a draft.
    pub(crate) fn table_of(
        &self,
        user: Name,
        name: &FullName,
        draft: &Draft<'_>,
    ) -> Result<(TableDesc, Shared<BaseTable>), ElementFault>
        requires draft { IsDraftFor self.now.bases user name.now draft.now }
        ensures own { OnOk result (name.now.user ≡ user) }
        ensures next { IfOk result (λ new. IsNext self.now.bases name.now new.0 new.1) }
        ensures columns { IfOk result
            (λ new. AreColumnsOf (typed_definitions draft.now.columns.items) new.0.columns) }
        ensures base { IfOk result
            (λ new. IsBaseFor self.now.bases draft.now new.0.columns new.1) }
        ensures checks { IfOk result
            (λ new. AreChecksOf name.now new.0.columns (conditions_lent draft.now.written.checks.items)
            new.1.checks) }
        ensures exact { Makes (λ new. base_declared name.now new.0.columns new.1) (spec.drafted_table
            (declared self.now) user draft.now.definition.now (draft_seen draft.now)) result }
    {
        let columns = columns_of(self.alloc(), draft.columns.as_slice())?;
        match (&*self).checked_base(user, name, columns.as_slice(), &*draft) {
            Ok(base) => describe_base(self.alloc(), name, columns, base),
            Err(fault) => {
                drop(columns);
                Err(fault)
            }
        }
    }

    /// What the rows of a table that may be created hold and obey.
    fn checked_base<'x>(
        &'x self,
        user: Name,
        name: &FullName,
        columns: &'x [Column],
        draft: &'x Draft<'_>,
    ) -> Result<BaseTable, ElementFault>
        requires draft { IsDraftFor self.now.bases user name.now draft.now }
        requires columns { AreDraftColumns draft.now columns.now }
        ensures own { OnOk result (name.now.user ≡ user) }
        ensures base { IfOk result (IsBaseFor self.now.bases draft.now columns.now) }
        ensures checks { IfOk result
            (λ base. AreChecksAt (length self.now.bases) (kinds_of_columns columns.now) base.checks) }
        ensures checks_are { IfOk result
            (λ base. AreChecksOf name.now columns.now (conditions_lent draft.now.written.checks.items)
            base.checks) }
        ensures exact { Makes (base_declared name.now columns.now) (spec.drafted_table
            (declared self.now) user draft.now.definition.now (draft_seen draft.now)) result }
    {
        draft.check_keys()?;
        let (base, may_reference) = self.base_of(user, name, columns, draft)?;
        match self.check_rest(user, name, &base, may_reference) {
            Ok(()) => Ok(base),
            Err(fault) => {
                drop(base);
                Err(fault)
            }
        }
    }

    /// What the rows of the table hold and obey, and whether the user may make its references.
    fn base_of<'x>(
        &'x self,
        user: Name,
        name: &FullName,
        columns: &'x [Column],
        draft: &'x Draft<'_>,
    ) -> Result<(BaseTable, bool), ElementFault>
        requires draft { IsDraftFor self.now.bases user name.now draft.now }
        requires columns { AreDraftColumns draft.now columns.now }
        requires known_keys { list_all
            (are_not_null (written_not_null draft.now.columns.items)) draft.now.keys.columns ≡ true }
        ensures base { IfOk result (λ made. IsBaseFor self.now.bases draft.now columns.now made.0) }
        ensures checks { IfOk result
            (λ made. AreChecksMade user name.now columns.now
            (conditions_lent draft.now.written.checks.items) made.0.checks) }
        ensures exact { Makes (λ made. (base_declared name.now columns.now made.0, made.1)) (base_made
            (declared self.now) user draft.now.definition.now (draft_seen draft.now)) result }
    {
        let place = self.next_base();
        let own = OwnKeys {
            before: self.bases(),
            columns,
            keys: &draft.keys,
        };
        let bound = bound_references(self, user, own, draft.references.as_slice());
        let table = CheckedTable {
            user,
            name,
            place,
            columns,
        };
        let parts = base_parts(self.alloc(), &table, draft);
        let (bound, parts) = pair_of(bound, parts)?;
        Ok(assemble_base(place, draft.keys.primary, bound, parts))
    }

    /// The privileges, the number of columns, the place of the table, and how many there are.
    fn check_rest(
        &self,
        user: Name,
        name: &FullName,
        base: &BaseTable,
        may_reference: bool,
    ) -> Result<(), ElementFault>
        ensures own { OnOk result (name.now.user ≡ user) }
        ensures exact { Passes (rest_asked (declared self.now) user (name_in name.now)
            (length base.now.columns) may_reference) result }
    {
        refused_if(!may_reference, SchemaFault::PrivilegeMissing)?;
        let is_wide = base.columns.len() > MOST_COLUMNS;
        refused_if(is_wide, SchemaFault::TooManyColumns)?;
        self.check_place(user, name)
    }
}

/// What the rows of a table hold and obey, but for its references.
#[derive(Drop)]
struct BaseParts {
    columns: Items<BaseColumn>,
    keys: Items<Items<usize>>,
    checks: Items<BoundCond>,
}

/// What the rows of the table of a draft hold and obey, but for its references.
fn base_parts(
    alloc: Global,
    table: &CheckedTable<'_>,
    draft: &Draft<'_>,
) -> Result<BaseParts, ElementFault>
    ensures count { IfOk result (λ parts. length parts.columns ≡ vec_len draft.now.written.columns) }
    ensures columns { IfOk result
        (λ parts. AreBaseColumnsOf (typed_definitions draft.now.columns.items) parts.columns) }
    ensures kinds { IfOk result
        (λ parts. map (λ c. kind_of c.domain) parts.columns ≡ typed_kinds draft.now.columns.items) }
    ensures not_null { IfOk result
        (λ parts. map (λ c. c.not_null) parts.columns ≡ written_not_null draft.now.columns.items) }
    ensures keys { IfOk result (λ parts. parts.keys ≡ draft.now.keys.columns) }
    ensures checks { IfOk result
        (λ parts. AreChecksMade table.now.user table.now.name.now table.now.columns.now
        (conditions_lent draft.now.written.checks.items) parts.checks) }
    ensures exact { Makes (λ parts. (
      map cond_seen parts.checks,
      held_declared draft.now.columns.items parts.columns,
    )) (parts_made table.now.user
        (name_in table.now.name.now) (map descriptor_of table.now.columns.now)
        (conditions_lent draft.now.written.checks.items)
        (map typed_seen draft.now.columns.items)) result }
{
    let checks = bound_checks(alloc, table, draft.written.checks.as_slice());
    let columns = base_columns(alloc, draft.columns.as_slice());
    let (checks, columns) = pair_of(checks, columns)?;
    match copied_keys(alloc, draft.keys.columns.as_slice()) {
        Ok(keys) => Ok(BaseParts {
            columns,
            keys,
            checks,
        }),
        Err(error) => {
            drop(checks);
            drop(columns);
            Err(ElementFault::from(error))
        }
    }
}

/// Makes a base table of its parts, and says whether the user may make its references.
fn assemble_base(
    place: usize,
    primary_key: Option<usize>,
    bound: BoundReferences,
    parts: BaseParts,
) -> (BaseTable, bool)
    requires keys { list_all (are_positions (length parts.columns)) parts.keys ≡ true }
    requires known_keys { list_all (are_not_null (map (λ c. c.not_null) parts.columns)) parts.keys ≡ true }
    requires primary { option_all (λ key. nat_lt key (length parts.keys)) primary_key ≡ true }
    requires references { list_all (λ r. are_positions (length parts.columns) r.by_key) bound.references
        ≡ true }
    ensures place { result.0.place ≡ place }
    ensures parts { IsMadeOf parts result.0 }
    ensures primary { result.0.primary_key ≡ primary_key }
    ensures references { (result.0.references ≡ bound.references) × (result.1 ≡ bound.are_permitted) }
{
    let BoundReferences {
        references,
        are_permitted,
    } = bound;
    let BaseParts {
        columns,
        keys,
        checks,
    } = parts;
    let base = BaseTable {
        place,
        columns,
        keys,
        primary_key,
        references,
        checks,
    };
    (base, are_permitted)
}

impl Draft<'_> {
    /// The keys are in order, and the lists of the references. (That each column of a key is NOT NULL is an own rule.)
    fn check_keys(&self) -> Result<(), ElementFault>
        requires { IsDraftOf self.now }
        ensures known { OnOk result
            (list_all (are_not_null (written_not_null self.now.columns.items)) self.now.keys.columns ≡ true) }
        ensures exact { Passes (and_then (asked refusal.NullableKey
            (list_any (has_nullable (map typed_seen self.now.columns.items)) self.now.keys.columns))
            (λ _. asked refusal.BadKey (spec.has_bad_lists self.now.definition.now (draft_seen self.now))))
            result }
    {
        let is_nullable = have_nullable(self.columns.as_slice(), self.keys.columns.as_slice());
        refused_if(is_nullable, SchemaFault::NullableKey)?;
        refused_if(self.has_bad_list(), SchemaFault::BadKey)
    }

    /// Whether there are two primary keys, or a list of a key or reference has a column twice or more than 6.
    fn has_bad_list(&self) -> bool
        ensures { result ≡ ((self.now.keys.has_two_primary || list_any is_bad_list self.now.keys.columns)
            || list_any (λ r. reference.has_bad_list (found_seen r)) self.now.references.items) }
    {
        self.keys.are_bad() || have_bad_list(self.references.as_slice())
    }
}

/// Whether a key has a column that is not declared NOT NULL.
fn have_nullable(columns: &[TypedColumn<'_>], keys: &[Items<usize>]) -> bool
    ensures { result ≡ list_any (has_nullable (map typed_seen columns.now)) keys.now }
{
    keys.iter().any(|key| has_nullable(columns, key.as_slice()))
}

fn has_nullable(columns: &[TypedColumn<'_>], key: &[usize]) -> bool
    ensures { result ≡ has_nullable (map typed_seen columns.now) key.now }
{
    key.iter().any(|column| is_nullable_at(columns, *column))
}

fn is_nullable_at(columns: &[TypedColumn<'_>], position: usize) -> bool
    ensures { result ≡ is_nullable_at (map typed_seen columns.now) position }
{
    match columns.get(position) {
        Some(column) => !is_not_null(column.definition),
        None => true,
    }
}

fn copied_keys(alloc: Global, keys: &[Items<usize>]) -> Result<Items<Items<usize>>, AllocError>
    ensures { IfOk result (λ copies. copies ≡ keys.now) }
{
    let mut copies = Items::new(alloc);
    for key in keys {
        copies.push(Items::from_slice(alloc, key.as_slice())?)?;
    }
    Ok(copies)
}

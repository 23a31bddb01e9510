//! The rows that an insert statement makes (ISO/IEC 9075:1992, 13.8).

ghost use Rattle.std.specs.Prelude.{◌≡◌, ◌<◌, ◌∷◌, ℕ, [], length, nat_eq, true, vec_len, IfErr, IfOk, IfSome, List, Some};
ghost use Rattle.std.specs.List.{AllByRecursion, position};
ghost use Rattle.std.specs.Option.{option_copied};
ghost use Rattle.sq_value.specs.Domain.{IsInDomain};
ghost use Rattle.sq_value.specs.declared.domain.Kind.{Kind};
ghost use Rattle.sq_value.specs.declared.value.Value.{Value as AnyValue};
ghost use Rattle.sq_meaning.specs.Status.{Outcome, each};
ghost use Rattle.sq_meaning.specs.WellFormed.{AreRowsOf};
ghost use Rattle.sq_bound.specs.Fits.{IsColumnOf, IsRowIn};
ghost use Rattle.sq_bound.specs.WellFormed.{IsSelect, kinds_of_select};
ghost use Rattle.sq_bound.specs.declared.condition.TablePlace.{TablePlace};
ghost use Rattle.sq_expression.specs.Fault.{Meets, MeetsAs, rows_in};
ghost use Rattle.sq_query.specs.MayRead.{MayEnd, MayRead};
ghost use Rattle.sq_query.specs.Needed.{FindsSelect};
ghost use Rattle.sq_change.specs.Changed.{FitTable, are_insertions, new_rows_in};
ghost use Rattle.sq_change.specs.Given.{AreStorable, AreStored, FitColumns, IsStoredFor, MayGive, all_given};
ghost use Rattle.sq_change.specs.Made.{Shown, or_default, row_completed, row_stored, seen_by, value_at, values_given};
ghost use Rattle.sq_change.specs.Made.{rows_found, rows_given, rows_made};
ghost use Rattle.sq_change.specs.Statement.{IsShown, KeepsTables};

use crate::setting::Setting;
use crate::storing::{assign_value, stored_value};
use sq_bound::{
    BaseColumn, BaseTable, BoundExpr, BoundInsert, BoundSpecification, ColumnDefault, InsertedRows,
    Names, ObjectColumn,
};
use sq_expression::{Failure, Fault};
use sq_items::Items;
use sq_query::specification_rows;
use sq_store::{Change, Meter, Store};
use sq_value::{Row, Value};
use std::alloc::Global;

/// The values that an insert statement gives, row by row.
#[derive(Drop)]
pub(crate) enum GivenRows {
    /// Those of VALUES.
    One(Row),
    /// Those of a query.
    Several(Vec<Row>),
}

/// The new rows of an insert statement. All that is given is stored before any row gets its defaults.
pub(crate) fn new_rows<N: Names, S: Store>(
    setting: &Setting<'_, N, S>,
    insert: &BoundInsert,
    table: &BaseTable,
    meter: &mut Meter,
) -> Result<Vec<Change>, Fault>
    requires columns { AllByRecursion (IsColumnOf table.now) insert.now.columns }
    requires given { MayGive (N.base_tables setting.now.names.now) (N.view_queries setting.now.names.now)
        (N.column_kinds setting.now.names.now)
        (S.content_now setting.now.store.now) setting.now.user setting.now.parameters.now
        insert.now.columns insert.now.source }
    requires kept { KeepsTables (N.base_tables setting.now.names.now) (S.content_now setting.now.store.now)
        (S.key_columns setting.now.store.now) }
    ensures made { let seen = seen_by (N.view_queries setting.now.names.now)
        (S.content_now setting.now.store.now) setting.now.user
        setting.now.parameters.now in (shown : Shown) → IsShown seen shown
        → MeetsAs new_rows_in result (rows_made shown seen table.now insert.now.columns insert.now.source) }
    ensures insertions { IfOk result (λ changes. are_insertions changes.items ≡ true) }
    ensures fit { IfOk result (λ changes. FitTable table.now changes.items) }
    ensures some { IfOk result (λ changes. 0 < vec_len changes) }
    ensures right { IfErr result MayEnd }
{
    let given = given_rows(setting, insert, meter)?;
    completed_rows(setting, table, insert.columns.as_slice(), given)
}

/// The values that are given, row by row. The rows of a query are all computed before any is stored.
fn given_rows<N: Names, S: Store>(
    setting: &Setting<'_, N, S>,
    insert: &BoundInsert,
    meter: &mut Meter,
) -> Result<GivenRows, Fault>
    requires given { MayGive (N.base_tables setting.now.names.now) (N.view_queries setting.now.names.now)
        (N.column_kinds setting.now.names.now)
        (S.content_now setting.now.store.now) setting.now.user setting.now.parameters.now
        insert.now.columns insert.now.source }
    requires kept { KeepsTables (N.base_tables setting.now.names.now) (S.content_now setting.now.store.now)
        (S.key_columns setting.now.store.now) }
    ensures made { let seen = seen_by (N.view_queries setting.now.names.now)
        (S.content_now setting.now.store.now) setting.now.user
        setting.now.parameters.now in (shown : Shown) → IsShown seen shown
        → MeetsAs all_given result (rows_given shown seen insert.now.columns insert.now.source) }
    ensures some { IfOk result (λ given. 0 < length (all_given given)) }
    ensures stored { IfOk result (λ given. AllByRecursion (AreStored insert.now.columns) (all_given given)) }
    ensures right { IfErr result MayEnd }
{
    let columns = insert.columns.as_slice();
    match &insert.source {
        InsertedRows::Values(values) => {
            let row = given_values(setting, columns, values.as_slice())?;
            Ok(GivenRows::One(row))
        }
        InsertedRows::Query(query) => {
            let rows = rows_found(setting, query, meter)?;
            let stored = stored_rows(setting.alloc, columns, rows.as_slice())?;
            Ok(GivenRows::Several(stored))
        }
    }
}

/// The values of VALUES, each stored before the next is evaluated.
fn given_values<N: Names, S: Store>(
    setting: &Setting<'_, N, S>,
    columns: &[ObjectColumn],
    values: &[BoundExpr],
) -> Result<Row, Fault>
    requires { AreStorable columns.now values.now setting.now.parameters.now setting.now.user }
    ensures meant { (shown : Shown)
        → Meets result (values_given shown (seen_by (N.view_queries setting.now.names.now)
        (S.content_now setting.now.store.now) setting.now.user setting.now.parameters.now)
        columns.now values.now) }
    ensures stored { IfOk result (AreStored columns.now) }
    ensures right { IfErr result MayEnd }
{
    let mut row = Items::from_vec(Vec::with_capacity(setting.alloc, columns.len())?);
    for (column, value) in columns.iter().zip(values) {
        row.push(stored_value(setting, *column, value, None)?)?;
    }
    Ok(row)
}

/// The rows of a query, at least one.
fn rows_found<N: Names, S: Store>(
    setting: &Setting<'_, N, S>,
    query: &BoundSpecification,
    meter: &mut Meter,
) -> Result<Vec<Row>, Fault>
    requires finds { FindsSelect (N.base_tables setting.now.names.now)
        (N.column_kinds setting.now.names.now) query.now }
    requires kept { KeepsTables (N.base_tables setting.now.names.now) (S.content_now setting.now.store.now)
        (S.key_columns setting.now.store.now) }
    ensures found { let seen = seen_by (N.view_queries setting.now.names.now)
        (S.content_now setting.now.store.now) setting.now.user
        setting.now.parameters.now in (parameters : List Kind) (shown : Shown)
        → MayRead (N.base_tables setting.now.names.now) (N.view_queries setting.now.names.now)
        (N.column_kinds setting.now.names.now)
        (S.content_now setting.now.store.now) setting.now.user setting.now.parameters.now parameters shown
        → IsSelect (N.column_kinds setting.now.names.now) parameters [] query.now
        → MeetsAs rows_in result (rows_found shown seen query.now) }
    ensures some { IfOk result (λ rows. 0 < vec_len rows) }
    ensures kinds { (parameters : List Kind) (tables : TablePlace → Outcome (List (List AnyValue)))
        → MayRead (N.base_tables setting.now.names.now) (N.view_queries setting.now.names.now)
        (N.column_kinds setting.now.names.now)
        (S.content_now setting.now.store.now) setting.now.user setting.now.parameters.now parameters tables
        → IsSelect (N.column_kinds setting.now.names.now) parameters [] query.now
        → IfOk result (λ rows. AreRowsOf (kinds_of_select query.now) rows.items) }
    ensures right { (parameters : List Kind) (tables : TablePlace → Outcome (List (List AnyValue)))
        → MayRead (N.base_tables setting.now.names.now) (N.view_queries setting.now.names.now)
        (N.column_kinds setting.now.names.now)
        (S.content_now setting.now.store.now) setting.now.user setting.now.parameters.now parameters tables
        → IsSelect (N.column_kinds setting.now.names.now) parameters [] query.now → IfErr result MayEnd }
{
    let rows = specification_rows(
        setting.alloc,
        setting.names,
        query,
        setting.store,
        setting.inputs(),
        meter,
    )?;
    if rows.is_empty() {
        return Err(Fault::Status(Failure::NoData));
    }
    Ok(rows)
}

/// Rows as the columns store them.
fn stored_rows(alloc: Global, columns: &[ObjectColumn], rows: &[Row]) -> Result<Vec<Row>, Fault>
    requires { AllByRecursion (FitColumns columns.now) rows.now }
    ensures meant { MeetsAs rows_in result (each (row_stored columns.now) rows.now) }
    ensures count { IfOk result (λ stored. vec_len stored ≡ length rows.now) }
    ensures stored { IfOk result (λ stored. AllByRecursion (AreStored columns.now) stored.items) }
    ensures right { IfErr result MayEnd }
{
    let mut stored = Vec::with_capacity(alloc, rows.len())?;
    for row in rows {
        stored.push(stored_row(alloc, columns, row.as_slice())?)?;
    }
    Ok(stored)
}

/// A row as the columns store it.
fn stored_row(alloc: Global, columns: &[ObjectColumn], row: &[Value]) -> Result<Row, Fault>
    requires { FitColumns columns.now row.now }
    ensures meant { Meets result (row_stored columns.now row.now) }
    ensures stored { IfOk result (AreStored columns.now) }
    ensures right { IfErr result MayEnd }
{
    let mut stored = Items::from_vec(Vec::with_capacity(alloc, columns.len())?);
    for (column, value) in columns.iter().zip(row) {
        stored.push(assign_value(alloc, column.domain, value)?)?;
    }
    Ok(stored)
}

/// The new rows, with a value for each column of the table.
fn completed_rows<N: Names, S: Store>(
    setting: &Setting<'_, N, S>,
    table: &BaseTable,
    columns: &[ObjectColumn],
    given: GivenRows,
) -> Result<Vec<Change>, Fault>
    requires columns { AllByRecursion (IsColumnOf table.now) columns.now }
    requires stored { AllByRecursion (AreStored columns.now) (all_given given) }
    ensures meant { MeetsAs new_rows_in result
        (each (row_completed setting.now.user table.now columns.now) (all_given given)) }
    ensures insertions { IfOk result (λ changes. are_insertions changes.items ≡ true) }
    ensures fit { IfOk result (λ changes. FitTable table.now changes.items) }
    ensures length { IfOk result (λ changes. vec_len changes ≡ length (all_given given)) }
    ensures right { IfErr result MayEnd }
{
    match given {
        GivenRows::One(row) => only_completed(setting, table, columns, row),
        GivenRows::Several(rows) => {
            let changes = each_completed(setting, table, columns, rows.as_slice());
            drop(rows);
            changes
        }
    }
}

/// The only new row.
fn only_completed<N: Names, S: Store>(
    setting: &Setting<'_, N, S>,
    table: &BaseTable,
    columns: &[ObjectColumn],
    given: Row,
) -> Result<Vec<Change>, Fault>
    requires columns { AllByRecursion (IsColumnOf table.now) columns.now }
    requires stored { AreStored columns.now given }
    ensures meant { MeetsAs new_rows_in result
        (each (row_completed setting.now.user table.now columns.now) (given ∷ [])) }
    ensures insertions { IfOk result (λ changes. are_insertions changes.items ≡ true) }
    ensures fit { IfOk result (λ changes. FitTable table.now changes.items) }
    ensures length { IfOk result (λ changes. vec_len changes ≡ 1) }
    ensures right { IfErr result MayEnd }
{
    let row = completed_row(setting, table, columns, given)?;
    let mut changes = Vec::with_capacity(setting.alloc, 1)?;
    changes.push(Change::Insert(row))?;
    Ok(changes)
}

/// A new row of values that are given. They are the row itself if they are for all columns of the table, in their order.
fn completed_row<N: Names, S: Store>(
    setting: &Setting<'_, N, S>,
    table: &BaseTable,
    columns: &[ObjectColumn],
    given: Row,
) -> Result<Row, Fault>
    requires columns { AllByRecursion (IsColumnOf table.now) columns.now }
    requires stored { AreStored columns.now given }
    ensures meant { Meets result (row_completed setting.now.user table.now columns.now given) }
    ensures wide { IfOk result (λ row. length row ≡ length table.now.columns) }
    ensures in_domains { IfOk result (IsRowIn table.now.columns) }
    ensures right { IfErr result MayEnd }
{
    let width = table.columns.len();
    if given.len() == width && are_in_order(columns, width) {
        return Ok(given);
    }
    let row = new_row(setting, table, columns, given.as_slice());
    drop(given);
    row
}

/// Whether a list names each of the first columns of a table at the column's own place.
fn are_in_order(columns: &[ObjectColumn], count: usize) -> bool
    ensures { result ≡ true → (place : ℕ) → place < count
        → position (λ column. nat_eq column.position place) columns.now ≡ Some place }
{
    for place in 0..count {
        if !is_at(columns, place) {
            return false;
        }
    }
    true
}

/// Whether a list names the column at a place at that place.
fn is_at(columns: &[ObjectColumn], place: usize) -> bool
    ensures { result ≡ true
        → position (λ column. nat_eq column.position place) columns.now ≡ Some place }
{
    match listed_at(columns, place) {
        Some(listed) => listed == place,
        None => false,
    }
}

/// Several new rows.
fn each_completed<N: Names, S: Store>(
    setting: &Setting<'_, N, S>,
    table: &BaseTable,
    columns: &[ObjectColumn],
    given: &[Row],
) -> Result<Vec<Change>, Fault>
    requires columns { AllByRecursion (IsColumnOf table.now) columns.now }
    requires stored { AllByRecursion (AreStored columns.now) given.now }
    ensures meant { MeetsAs new_rows_in result
        (each (row_completed setting.now.user table.now columns.now) given.now) }
    ensures insertions { IfOk result (λ changes. are_insertions changes.items ≡ true) }
    ensures fit { IfOk result (λ changes. FitTable table.now changes.items) }
    ensures length { IfOk result (λ changes. vec_len changes ≡ length given.now) }
    ensures right { IfErr result MayEnd }
{
    let mut changes = Vec::with_capacity(setting.alloc, given.len())?;
    for values in given {
        let row = new_row(setting, table, columns, values.as_slice())?;
        changes.push(Change::Insert(row))?;
    }
    Ok(changes)
}

/// A new row: each column has the value that is given for it, or else its default.
fn new_row<N: Names, S: Store>(
    setting: &Setting<'_, N, S>,
    table: &BaseTable,
    columns: &[ObjectColumn],
    given: &[Value],
) -> Result<Row, Fault>
    requires columns { AllByRecursion (IsColumnOf table.now) columns.now }
    requires stored { AreStored columns.now given.now }
    ensures meant { Meets result (row_completed setting.now.user table.now columns.now given.now) }
    ensures wide { IfOk result (λ row. length row ≡ length table.now.columns) }
    ensures in_domains { IfOk result (IsRowIn table.now.columns) }
    ensures right { IfErr result MayEnd }
{
    let own = table.columns.as_slice();
    let mut row = Items::from_vec(Vec::with_capacity(setting.alloc, own.len())?);
    for (place, column) in own.iter().enumerate() {
        let given = given_at(columns, given, place);
        row.push(value_or_default(setting, column, given)?)?;
    }
    Ok(row)
}

/// The value that is given for the column at a place.
fn given_at<'a>(columns: &[ObjectColumn], given: &'a [Value], place: usize) -> Option<&'a Value>
    requires { AreStored columns.now given.now }
    ensures stored { IfSome result (λ value. IsStoredFor columns.now place value.now) }
    ensures given { option_copied result ≡ value_at columns.now given.now place }
{
    let listed = listed_at(columns, place)?;
    Some(&given[listed])
}

/// The position in the list of the column at a place.
fn listed_at(columns: &[ObjectColumn], place: usize) -> Option<usize>
    ensures { result ≡ position (λ column. nat_eq column.position place) columns.now }
{
    columns.iter().position(|column| column.position == place)
}

/// The value that is given, or the column's default (11.5). USER is the caller.
fn value_or_default<N: Names, S: Store>(
    setting: &Setting<'_, N, S>,
    column: &BaseColumn,
    given: Option<&Value>,
) -> Result<Value, Fault>
    requires { IfSome given (λ value. IsInDomain column.now.domain value.now) }
    ensures meant { Meets result (or_default setting.now.user column.now (option_copied given.entry)) }
    ensures in_domain { IfOk result (IsInDomain column.now.domain) }
    ensures right { IfErr result MayEnd }
{
    if let Some(value) = given {
        return Ok(value.copy(setting.alloc)?);
    }
    match &column.default {
        ColumnDefault::Value(value) => Ok(value.copy(setting.alloc)?),
        ColumnDefault::User => {
            let user = setting.value(&BoundExpr::User, None)?;
            assign_value(setting.alloc, column.domain, &user)
        }
    }
}

//! Tables that may be changed (ISO/IEC 9075:1992, 7.9; own rule).

ghost use Rattle.std.specs.Prelude.{◌≡◌, IfOk, map, slice_get};
ghost use Rattle.sq_meaning.specs.Spelled.{table_of};
ghost use Rattle.sq_binding.specs.Changeable as spec;
ghost use Rattle.sq_binder.specs.Binds.{Binds};
ghost use Rattle.sq_binder.specs.Scope.{column_of, item_of};
ghost use Rattle.sq_binder.specs.Changeable.{changed_of, columns_at_leaf, table_name};
ghost use Rattle.sq_binder.specs.Names.{IsUnder, user_names};

use crate::names::ChangeableTables;
use crate::under::UnderTable;
use crate::{FromItem, ItemColumn, NamedTable, Stop};
use sq_bound::{Column, TablePlace};
use sq_items::Items;
use sq_lex::Name;
use sq_meaning::BindingFault;
use sq_tree::TableName;
use std::alloc::{AllocError, Global};

/// A table that may be changed, by its owner and its name, and the rows and columns under it.
#[derive(Clone, Copy)]
pub struct ChangedTable<'a> {
    pub user: Name,
    pub name: Name,
    pub correlation: Option<Name>,
    pub table: NamedTable<'a>,
    pub under: UnderTable<'a>,
}

/// The table of a name that a text of this user spells, if it exists and may be changed.
/// The fault is `UnknownTable` if the name means no table, and `NotUpdatable` if the rows
/// of the table may not be changed.
pub fn changed_table<T: ChangeableTables>(
    tables: &T,
    own: Name,
    written: TableName,
) -> Result<ChangedTable<'_>, Stop>
    ensures binds { Binds changed_of (spec.changed_table
        (user_names own (T.named tables.now) (T.changes tables.now)) (table_of own written)) result }
    ensures under { IfOk result
        (λ t. IsUnder (T.changes tables.now) (table_name t) t.under.leaf.now) }
{
    let user = written.schema.unwrap_or(own);
    let name = written.table;
    let Some(table) = tables.table(user, name) else {
        return Err(Stop::about(BindingFault::UnknownTable, name));
    };
    let Some(under) = tables.beneath(user, name) else {
        return Err(Stop::about(BindingFault::NotUpdatable, name));
    };
    Ok(ChangedTable {
        user,
        name,
        correlation: None,
        table,
        under,
    })
}

/// The table as an item, each column at its position in the base table.
pub fn item_at_leaf(alloc: Global, table: &ChangedTable<'_>) -> Result<FromItem, AllocError>
    ensures { IfOk result (λ item. item_of item ≡ spec.item_at_leaf (changed_of table.now)) }
{
    let columns = columns_at_leaf(alloc, table.under.columns, table.table.columns)?;
    Ok(FromItem {
        place: TablePlace::Base(table.base()),
        user: table.user,
        name: table.name,
        correlation: table.correlation,
        columns,
    })
}

/// The columns of a table, each at its position in the base table.
fn columns_at_leaf(
    alloc: Global,
    under: &[Column],
    columns: &[Column],
) -> Result<Items<ItemColumn>, AllocError>
    ensures { IfOk result (λ items. map column_of items ≡ columns_at_leaf under.now columns.now) }
{
    let mut items = Items::new(alloc);
    for (position, own) in under.iter().enumerate() {
        let Some(column) = column_at(columns, position) else {
            return Ok(items);
        };
        items.push(ItemColumn {
            name: column.name,
            position: own.leaf_column,
            kind: column.kind,
        })?;
    }
    Ok(items)
}

/// The column at a position, if there is one.
fn column_at(columns: &[Column], position: usize) -> Option<Column>
    ensures { result ≡ slice_get columns.now position }
{
    columns.get(position).copied()
}

impl ChangedTable<'_> {
    /// The place of the base table.
    pub fn base(&self) -> usize
        ensures { result ≡ self.now.under.leaf.now.table.place }
    {
        self.under.leaf.get().table.get().place
    }
}

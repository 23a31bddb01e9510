//! Tables and views that are added to a catalog (ISO/IEC 9075:1992, 11.3 and 11.19).

ghost use Rattle.std.specs.Prelude.{◌≡◌, ◌∷◌, ◌++◌, [], IfErr, IfOk, None, OnErr, OnOk, map};
ghost use Rattle.std.specs.Map.{keys_of};
ghost use Rattle.sq_store.specs.Keys.{keys_of as keys_given};
ghost use Rattle.sq_bound.specs.Fits.{keys_of_bases};
ghost use Rattle.sq_binding.specs.Table.{with_base};
ghost use Rattle.sq_catalog.specs.Catalog.{Adds, Gains, IsNewName, table_number};
ghost use Rattle.sq_catalog.specs.Exact.{base_declared, declared, with_view_entry};
ghost use Rattle.sq_catalog.specs.declared.fault.ElementFault.TheVariants.{NoMemory};
ghost use Rattle.sq_catalog.specs.Stored.{IsNext, IsNextView, query_in, seen};
ghost use Rattle.sq_catalog.specs.Views.{AddsViews, GainsViews};

use crate::catalog::{Catalog, FullName};
use crate::fault::ElementFault;
use indexmap::IndexMap;
use sq_bound::{BaseTable, Shared, TableDesc};
use sq_items::Items;
use std::alloc::{AllocError, Global};

impl Catalog {
    /// Adds a base table of a new name behind the others, and the table as names see it.
    pub(crate) fn add_base(
        &mut self,
        name: FullName,
        table: TableDesc,
        base: Shared<BaseTable>,
    ) -> Result<(), ElementFault>
        requires new { IsNewName self.old name }
        requires next { IsNext self.old.bases name table base }
        ensures tables { OnOk result (Adds self.old self.new (name ∷ []) (table.columns ∷ []) (base ∷ [])) }
        ensures views { OnOk result (GainsViews self.old self.new []) }
        ensures exact { OnOk result
            (declared self.new ≡ with_base (declared self.old) (base_declared name table.columns base)) }
        ensures memory { IfErr result (λ fault. fault ≡ NoMemory) }
    {
        insert_with_keys(
            self.alloc,
            &mut self.bases,
            &mut self.base_tables,
            &mut self.keys,
            name,
            table,
            base,
        )
    }

    /// Adds a view of a new name behind the others.
    pub(crate) fn add_view(&mut self, name: FullName, table: TableDesc) -> Result<(), ElementFault>
        requires new { table_number self.old.view_names name.user name.name ≡ None }
        requires next { IsNextView self.old name table }
        ensures tables { Gains self.old self.new [] [] }
        ensures kept { (self.new.tables ≡ self.old.tables) × (self.new.columns ≡ self.old.columns) }
        ensures views { OnOk result
            (AddsViews self.old self.new (name ∷ []) (seen table ∷ []) (query_in table.body)) }
        ensures exact { OnOk result (declared self.new ≡ with_view_entry (declared self.old) name table) }
        ensures memory { IfErr result (λ fault. fault ≡ NoMemory) }
    {
        insert_table(&mut self.views, name, table)
    }
}

/// Adds a base table as `insert_base` does, and the columns of its keys behind those of the others.
#[tactic(auto, using(crate::proofs::Growth::Stored::keyed_added))]
fn insert_with_keys(
    alloc: Global,
    tables: &mut IndexMap<FullName, TableDesc>,
    bases: &mut Vec<Shared<BaseTable>>,
    keys: &mut Vec<Vec<Vec<usize>>>,
    name: FullName,
    table: TableDesc,
    base: Shared<BaseTable>,
) -> Result<(), ElementFault>
    requires new { table_number (keys_of tables.old.entries) name.user name.name ≡ None }
    requires keyed { keys_given keys.old.items ≡ keys_of_bases bases.old.items }
    ensures names { OnOk result (keys_of tables.new.entries ≡ keys_of tables.old.entries ++ name ∷ []) }
    ensures added { OnOk result (tables.new.entries ≡ tables.old.entries ++ (name, table) ∷ []) }
    ensures bases { OnOk result (bases.new.items ≡ bases.old.items ++ base ∷ []) }
    ensures unchanged { OnErr result
        ((tables.new.entries ≡ tables.old.entries) × (bases.new.items ≡ bases.old.items)) }
    ensures keyed { keys_given keys.new.items ≡ keys_of_bases bases.new.items }
    ensures memory { IfErr result (λ fault. fault ≡ NoMemory) }
{
    match key_columns(alloc, base.get().keys.as_slice()) {
        Ok(columns) => insert_with(tables, bases, keys, name, table, base, columns),
        Err(_) => {
            drop(base);
            drop(table);
            Err(ElementFault::NoMemory)
        }
    }
}

/// Adds a base table as `insert_base` does, and the columns of its keys.
fn insert_with(
    tables: &mut IndexMap<FullName, TableDesc>,
    bases: &mut Vec<Shared<BaseTable>>,
    keys: &mut Vec<Vec<Vec<usize>>>,
    name: FullName,
    table: TableDesc,
    base: Shared<BaseTable>,
    columns: Vec<Vec<usize>>,
) -> Result<(), ElementFault>
    requires { table_number (keys_of tables.old.entries) name.user name.name ≡ None }
    ensures names { OnOk result (keys_of tables.new.entries ≡ keys_of tables.old.entries ++ name ∷ []) }
    ensures added { OnOk result (tables.new.entries ≡ tables.old.entries ++ (name, table) ∷ []) }
    ensures bases { OnOk result (bases.new.items ≡ bases.old.items ++ base ∷ []) }
    ensures keys { OnOk result (keys.new.items ≡ keys.old.items ++ columns ∷ []) }
    ensures unchanged { OnErr result
        ((tables.new.entries ≡ tables.old.entries) × (bases.new.items ≡ bases.old.items)) }
    ensures unkeyed { OnErr result (keys.new.items ≡ keys.old.items) }
    ensures memory { IfErr result (λ fault. fault ≡ NoMemory) }
{
    if keys.push(columns).is_err() {
        drop(base);
        drop(table);
        return Err(ElementFault::NoMemory);
    }
    let inserted = insert_base(tables, bases, name, table, base);
    if inserted.is_err() {
        drop(keys.pop());
    }
    inserted
}

/// Adds a base table behind the others, and the table as names see it under a new name: both, or out of memory neither.
fn insert_base(
    tables: &mut IndexMap<FullName, TableDesc>,
    bases: &mut Vec<Shared<BaseTable>>,
    name: FullName,
    table: TableDesc,
    base: Shared<BaseTable>,
) -> Result<(), ElementFault>
    requires { table_number (keys_of tables.old.entries) name.user name.name ≡ None }
    ensures names { OnOk result (keys_of tables.new.entries ≡ keys_of tables.old.entries ++ name ∷ []) }
    ensures added { OnOk result (tables.new.entries ≡ tables.old.entries ++ (name, table) ∷ []) }
    ensures bases { OnOk result (bases.new.items ≡ bases.old.items ++ base ∷ []) }
    ensures unchanged { OnErr result
        ((tables.new.entries ≡ tables.old.entries) × (bases.new.items ≡ bases.old.items)) }
    ensures memory { IfErr result (λ fault. fault ≡ NoMemory) }
{
    if bases.push(base).is_err() {
        drop(table);
        return Err(ElementFault::NoMemory);
    }
    let inserted = insert_table(tables, name, table);
    if inserted.is_err() {
        drop(bases.pop());
    }
    inserted
}

/// Adds a table or view of a new name.
fn insert_table(
    tables: &mut IndexMap<FullName, TableDesc>,
    name: FullName,
    table: TableDesc,
) -> Result<(), ElementFault>
    requires { table_number (keys_of tables.old.entries) name.user name.name ≡ None }
    ensures names { OnOk result (keys_of tables.new.entries ≡ keys_of tables.old.entries ++ name ∷ []) }
    ensures added { OnOk result (tables.new.entries ≡ tables.old.entries ++ (name, table) ∷ []) }
    ensures unchanged { OnErr result (tables.new.entries ≡ tables.old.entries) }
    ensures memory { IfErr result (λ fault. fault ≡ NoMemory) }
{
    match tables.insert(name, table) {
        Ok(before) => {
            drop(before);
            Ok(())
        }
        Err(error) => {
            drop(error);
            Err(ElementFault::NoMemory)
        }
    }
}

/// The columns of each key.
fn key_columns(alloc: Global, keys: &[Items<usize>]) -> Result<Vec<Vec<usize>>, AllocError>
    ensures { IfOk result (λ columns. map (λ key. key.items) columns.items ≡ keys.now) }
{
    let mut columns = Vec::new(alloc);
    for key in keys {
        columns.push(Vec::from_slice(alloc, key.as_slice())?)?;
    }
    Ok(columns)
}

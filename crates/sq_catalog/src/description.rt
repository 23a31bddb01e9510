//! A base table as names see it, whose rows are those of its leaf.

ghost use Rattle.std.specs.Prelude.{◌≡◌, [], IfErr, IfOk};
ghost use Rattle.sq_catalog.specs.Stored.{AreOverBase, IsDescribed};
ghost use Rattle.sq_catalog.specs.declared.fault.ElementFault.TheVariants.{NoMemory};

use crate::catalog::FullName;
use crate::fault::ElementFault;
use sq_bound::{BaseTable, Column, Leaf, Shared, TableBody, TableDesc, pair_of};
use sq_items::Items;
use std::alloc::{AllocError, Global};

/// The base table as names see it, whose rows are those of its leaf, and the base table itself.
pub(crate) fn describe_base(
    alloc: Global,
    name: &FullName,
    columns: Items<Column>,
    base: BaseTable,
) -> Result<(TableDesc, Shared<BaseTable>), ElementFault>
    requires columns { AreOverBase base columns }
    ensures base { IfOk result (λ new. new.1 ≡ base) }
    ensures table { IfOk result (λ new. IsDescribed name.now base columns new.0) }
    ensures memory { IfErr result (λ fault. fault ≡ NoMemory) }
{
    match table_and_base(alloc, name, columns, base) {
        Ok(table) => Ok(table),
        Err(error) => Err(ElementFault::from(error)),
    }
}

fn table_and_base(
    alloc: Global,
    name: &FullName,
    columns: Items<Column>,
    base: BaseTable,
) -> Result<(TableDesc, Shared<BaseTable>), AllocError>
    requires columns { AreOverBase base columns }
    ensures base { IfOk result (λ new. new.1 ≡ base) }
    ensures table { IfOk result (λ new. IsDescribed name.now base columns new.0) }
{
    let (columns, base) = pair_of(Ok(columns), Shared::new(alloc, base))?;
    let table = table_over(alloc, name, columns, &base);
    let (base, table) = pair_of(Ok(base), table)?;
    Ok((table, base))
}

/// A base table as names see it.
fn table_over(
    alloc: Global,
    name: &FullName,
    columns: Items<Column>,
    base: &Shared<BaseTable>,
) -> Result<TableDesc, AllocError>
    requires columns { AreOverBase base.now columns }
    ensures { IfOk result (IsDescribed name.now base.now columns) }
{
    match owners(alloc, base) {
        Ok((base, leaf)) => Ok(base_table(name, columns, base, leaf)),
        Err(error) => {
            drop(columns);
            Err(error)
        }
    }
}

fn base_table(
    name: &FullName,
    columns: Items<Column>,
    base: Shared<BaseTable>,
    leaf: Shared<Leaf>,
) -> TableDesc
    requires leaf { leaf.table ≡ base }
    requires conditions { leaf.conditions ≡ [] }
    requires demanded { leaf.demanded ≡ 0 }
    requires columns { AreOverBase leaf.table columns }
    ensures { IsDescribed name.now base columns result }
{
    TableDesc {
        user: name.user,
        name: name.name,
        columns,
        body: TableBody::Base(base),
        leaf: Some(leaf),
    }
}

/// A further owner of a base table, and what is under it.
fn owners(
    alloc: Global,
    base: &Shared<BaseTable>,
) -> Result<(Shared<BaseTable>, Shared<Leaf>), AllocError>
    ensures owners { IfOk result (λ owners. (owners.0 ≡ base.now) × (owners.1.table ≡ base.now)) }
    ensures conditions { IfOk result (λ owners. owners.1.conditions ≡ []) }
    ensures demanded { IfOk result (λ owners. owners.1.demanded ≡ 0) }
{
    pair_of(base.share(), base_leaf(alloc, base))
}

/// What is under a base table: itself.
fn base_leaf(alloc: Global, base: &Shared<BaseTable>) -> Result<Shared<Leaf>, AllocError>
    ensures table { IfOk result (λ leaf. leaf.table ≡ base.now) }
    ensures conditions { IfOk result (λ leaf. leaf.conditions ≡ []) }
    ensures demanded { IfOk result (λ leaf. leaf.demanded ≡ 0) }
{
    let table = base.share()?;
    Shared::new(
        alloc,
        Leaf {
            table,
            conditions: Items::new(alloc),
            demanded: 0,
            is_quiet: true,
        },
    )
}

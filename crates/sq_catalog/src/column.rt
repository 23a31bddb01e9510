//! Columns of a table definition, as names see them and as their table holds them (ISO/IEC 9075:1992, 11.4 and 11.5).

ghost use Rattle.std.specs.Prelude.{◌≡◌, ◌≤◌, length, map, Err, IfOk, Ok};
ghost use Rattle.sq_value.specs.Domain.{IsDomain, domain_length, kind_of};
ghost use Rattle.sq_meaning.specs.Assignment.{assigned};
ghost use Rattle.sq_meaning.specs.Target.{places_of};
ghost use Rattle.sq_tree.specs.declared.schema.DefaultValue.TheVariants as default;
ghost use Rattle.sq_meaning.specs.declared.refusal.SchemaFault.TheVariants as refusal;
ghost use Rattle.sq_bound.specs.Default.{DefaultIsIn};
ghost use Rattle.sq_bound.specs.declared.names.ColumnDefault.TheVariants.{User as user};
ghost use Rattle.sq_binding.specs.Column as definition;
ghost use Rattle.sq_binding.specs.ElementOutcome.{each};
ghost use Rattle.sq_binding.specs.Table.{typed_descriptor};
ghost use Rattle.sq_binding.specs.Names.{descriptor_of};
ghost use Rattle.sq_catalog.specs.Columns.{AreBaseColumnsOf, AreColumnsOf, IsDefaultOf, IsStoredAs};
ghost use Rattle.sq_catalog.specs.Exact.{column_declared};
ghost use Rattle.sq_catalog.specs.Fault.{Makes};
ghost use Rattle.sq_catalog.specs.declared.fault.ElementFault.TheVariants.{Refused};
ghost use Rattle.sq_catalog.specs.Stored.{AreColumnsOver};
ghost use Rattle.sq_catalog.specs.Table.{held_declared, typed_definitions, typed_kinds, typed_seen, written_not_null};
ghost use Rattle.sq_catalog.specs.Written.{is_written_not_null};

use crate::fault::ElementFault;
use crate::typed::TypedColumn;
use crate::written::is_not_null;
use sq_binder::{signed_value, text_value};
use sq_bound::{BaseColumn, Column, ColumnDefault, fits_kind};
use sq_items::Items;
use sq_meaning::SchemaFault;
use sq_tree::DefaultValue;
use sq_value::{Domain, StoreFault, Value, store};
use std::alloc::{AllocError, Global};

/// The length of USER (own rule).
const USER_LENGTH: u16 = 18;

/// The columns as queries see them.
pub(crate) fn columns_of(
    alloc: Global,
    typed: &[TypedColumn<'_>],
) -> Result<Items<Column>, AllocError>
    ensures over { IfOk result (AreColumnsOver (typed_kinds typed.now) (typed_kinds typed.now)) }
    ensures written { IfOk result (AreColumnsOf (typed_definitions typed.now)) }
    ensures exact { IfOk result
        (λ columns. map descriptor_of columns ≡ map (λ c. typed_descriptor (typed_seen c)) typed.now) }
    ensures places { IfOk result (λ columns. map (λ c. c.leaf_column) columns ≡ places_of columns) }
{
    let mut columns = Items::new(alloc);
    for (position, column) in typed.iter().enumerate() {
        columns.push(Column {
            name: column.definition.name,
            kind: column.domain.kind(),
            leaf_column: position,
        })?;
    }
    Ok(columns)
}

/// The columns as the table holds them.
pub(crate) fn base_columns(
    alloc: Global,
    typed: &[TypedColumn<'_>],
) -> Result<Items<BaseColumn>, ElementFault>
    ensures count { IfOk result (λ columns. length columns ≡ length typed.now) }
    ensures kinds { IfOk result (λ columns. map (λ c. kind_of c.domain) columns ≡ typed_kinds typed.now) }
    ensures not_null { IfOk result (λ columns. map (λ c. c.not_null) columns ≡ written_not_null typed.now) }
    ensures written { IfOk result (AreBaseColumnsOf (typed_definitions typed.now)) }
    ensures exact { Makes (held_declared typed.now)
        (each definition.declared_column (map typed_seen typed.now)) result }
{
    let mut columns = Items::new(alloc);
    for column in typed {
        let held = base_column(alloc, column)?;
        columns.push(held)?;
    }
    Ok(columns)
}

fn base_column(alloc: Global, typed: &TypedColumn<'_>) -> Result<BaseColumn, ElementFault>
    ensures domain { IfOk result (λ column. column.domain ≡ typed.now.domain) }
    ensures not_null { IfOk result
        (λ column. column.not_null ≡ is_written_not_null typed.now.definition.now) }
    ensures default { IfOk result
        (λ column. IsDefaultOf typed.now.domain typed.now.definition.now.default column.default) }
    ensures exact { Makes (λ column. column_declared (typed.now.definition.now.name, column))
        (definition.declared_column (typed_seen typed.now)) result }
{
    match default_of(alloc, &typed.definition.default, typed.domain) {
        Ok(default) => Ok(BaseColumn {
            domain: typed.domain,
            not_null: is_not_null(typed.definition),
            default,
        }),
        Err(fault) => Err(fault),
    }
}

fn bad_default<T>() -> Result<T, ElementFault>
    ensures { result ≡ Err (Refused refusal.BadDefault) }
{
    Err(ElementFault::Refused(SchemaFault::BadDefault))
}

/// The default of a column of the domain (11.5).
fn default_of(
    alloc: Global,
    written: &Option<DefaultValue>,
    domain: Domain,
) -> Result<ColumnDefault, ElementFault>
    requires { IsDomain domain }
    ensures in_domain { IfOk result (DefaultIsIn domain) }
    ensures written { IfOk result (IsDefaultOf domain written.now) }
    ensures exact { Makes (λ default. default) (definition.default_of domain written.now) result }
{
    match written {
        None => Ok(ColumnDefault::Value(Value::Null)),
        Some(DefaultValue::Null) => Ok(ColumnDefault::Value(Value::Null)),
        Some(DefaultValue::User) => user_default(domain),
        Some(DefaultValue::Number(signed)) => {
            stored_default(alloc, Value::Num(signed_value(*signed)), domain)
        }
        Some(DefaultValue::Text(characters)) => {
            stored_default(alloc, text_value(alloc, characters)?, domain)
        }
    }
}

fn user_default(domain: Domain) -> Result<ColumnDefault, ElementFault>
    ensures in_domain { IfOk result (DefaultIsIn domain) }
    ensures written { IfOk result (λ default. (default ≡ user) × (18 ≤ domain_length domain)) }
    ensures exact { Makes (λ default. default) (definition.default_written domain default.User) result }
{
    match domain {
        Domain::Char(length) | Domain::VarChar(length) if length >= USER_LENGTH => {
            Ok(ColumnDefault::User)
        }
        _ => bad_default(),
    }
}

/// A value as the domain stores it.
fn stored_default(
    alloc: Global,
    value: Value,
    domain: Domain,
) -> Result<ColumnDefault, ElementFault>
    requires { IsDomain domain }
    ensures in_domain { IfOk result (DefaultIsIn domain) }
    ensures stored { IfOk result (IsStoredAs domain value) }
    ensures exact { Makes (λ default. default) (definition.stored (assigned domain value)) result }
{
    if !fits_kind(domain, &value) {
        drop(value);
        return bad_default();
    }
    match store(alloc, &value, domain) {
        Ok(stored) => Ok(ColumnDefault::Value(stored)),
        Err(StoreFault::NoMemory) => Err(ElementFault::NoMemory),
        Err(StoreFault::Range) => bad_default(),
        Err(StoreFault::TooLong) => bad_default(),
    }
}

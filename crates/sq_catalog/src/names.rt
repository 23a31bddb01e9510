//! Lists of names.

ghost use Rattle.std.specs.Prelude.{◌≡◌, IfOk};
ghost use Rattle.sq_meaning.specs.Spelled.{listed};
ghost use Rattle.sq_meaning.specs.Schema.{has_name_twice, is_among};
ghost use Rattle.sq_meaning.specs.SchemaRefusal.{has_unknown};
ghost use Rattle.sq_catalog.specs.Exact.{names_in};

use sq_bound::Column;
use sq_items::Items;
use sq_lex::Name;
use sq_tree::CommaList;
use std::alloc::{AllocError, Global};

/// The names of columns.
pub(crate) fn column_names(alloc: Global, columns: &[Column]) -> Result<Items<Name>, AllocError>
    ensures { IfOk result (λ names. names ≡ names_in columns.now) }
{
    let mut names = Items::new(alloc);
    for column in columns {
        names.push(column.name)?;
    }
    Ok(names)
}

pub(crate) fn is_among(names: &[Name], name: Name) -> bool
    ensures { result ≡ is_among names.now name }
{
    names.iter().any(|other| name == *other)
}

/// Whether a list of columns names one that is not among these.
pub(crate) fn lists_unknown(columns: &[Name], list: &CommaList<Name>) -> bool
    ensures { result ≡ has_unknown columns.now (listed list.now) }
{
    !is_among(columns, list.first) || has_unknown(columns, list.rest.as_slice())
}

fn has_unknown(columns: &[Name], names: &[Name]) -> bool
    ensures { result ≡ has_unknown columns.now names.now }
{
    names.iter().any(|name| !is_among(columns, *name))
}

/// Whether a list has a name twice.
pub(crate) fn lists_twice(list: &CommaList<Name>) -> bool
    ensures { result ≡ has_name_twice (listed list.now) }
{
    let rest = list.rest.as_slice();
    is_among(rest, list.first) || has_name_twice(rest)
}

pub(crate) fn has_name_twice(names: &[Name]) -> bool
    ensures { result ≡ has_name_twice names.now }
{
    for (number, name) in names.iter().enumerate() {
        if is_among(&names[number + 1..], *name) {
            return true;
        }
    }
    false
}

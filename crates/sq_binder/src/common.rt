//! The columns to which both sides of UNION are brought (ISO/IEC 9075:1992, 7.10).

ghost use Rattle.std.specs.Prelude.{◌≡◌, length, map};
ghost use Rattle.std.specs.List.{zip};
ghost use Rattle.std.specs.Result.{result_ok};
ghost use Rattle.sq_meaning.specs.Kind.{common_kind};
ghost use Rattle.sq_meaning.specs.SortKeys.{common_name};
ghost use Rattle.sq_binding.specs.QueryExpression as spec;
ghost use Rattle.sq_binding.specs.Seen.{column_of};
ghost use Rattle.sq_binder.specs.Binds.{Binds};
ghost use Rattle.sq_binder.specs.Found.{Finds};
ghost use Rattle.sq_binder.specs.InTurn.{in_turn};
ghost use Rattle.sq_binder.specs.Query.{column_in_common, sides_seen};

use crate::in_turn::grow_list;
use crate::{Counts, Found, Stop, bring_nothing};
use sq_bound::ResultColumn;
use sq_items::Items;
use sq_lex::Name;
use sq_meaning::BindingFault;
use sq_value::Kind;
use std::alloc::Global;

/// The columns of a UNION of sides with these columns.
pub fn common_columns(
    alloc: Global,
    left: &[ResultColumn],
    right: &[ResultColumn],
    before: Counts,
) -> Result<Found<Items<ResultColumn>>, Stop>
    ensures { Finds (map column_of) (spec.common_columns (map column_of left.now) (map column_of right.now))
        before result }
{
    if left.len() != right.len() {
        return Err(Stop::broken(BindingFault::CountMismatch));
    }
    let columns = columns_in_turn(alloc, left, right)?;
    Ok(bring_nothing(alloc, columns, before))
}

/// The columns of sides that have as many columns.
fn columns_in_turn(
    alloc: Global,
    left: &[ResultColumn],
    right: &[ResultColumn],
) -> Result<Items<ResultColumn>, Stop>
    requires { length left.now ≡ length right.now }
    ensures { Binds (map column_of) (in_turn column_in_common (map sides_seen (zip left.now right.now)))
        result }
{
    let mut columns = Items::new(alloc);
    for (position, column) in left.iter().enumerate() {
        let next = common_column(column, &right[position]);
        match grow_list(columns, next) {
            Ok(more) => columns = more,
            Err(stop) => return Err(stop),
        }
    }
    Ok(columns)
}

/// The column to which a column of each side is brought. It keeps its name if both sides have the same one.
fn common_column(left: &ResultColumn, right: &ResultColumn) -> Result<ResultColumn, Stop>
    ensures { Binds column_of (column_in_common (sides_seen (left.now, right.now))) result }
{
    match common_kind(left.kind, right.kind) {
        Some(kind) => Ok(ResultColumn {
            name: common_name(left.name, right.name),
            kind,
        }),
        None => Err(Stop::broken(BindingFault::KindMismatch)),
    }
}

/// The kind of the column: with a varying side it is varying.
fn common_kind(left: Kind, right: Kind) -> Option<Kind>
    ensures { result ≡ result_ok (common_kind left right) }
{
    match (left, right) {
        (Kind::Num(left), Kind::Num(right)) => Some(Kind::Num(left.max(right))),
        (Kind::Chars(left), Kind::Chars(right)) => Some(Kind::Chars(left.max(right))),
        (Kind::Chars(left) | Kind::Vary(left), Kind::Chars(right) | Kind::Vary(right)) => {
            Some(Kind::Vary(left.max(right)))
        }
        _ => None,
    }
}

fn common_name(left: Option<Name>, right: Option<Name>) -> Option<Name>
    ensures { result ≡ common_name left right }
{
    let left = left?;
    let right = right?;
    if left == right { Some(left) } else { None }
}

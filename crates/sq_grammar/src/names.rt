//! Names of tables and columns, parameters, signed numbers and lists of columns.

ghost use Rattle.std.specs.Prelude.{◌≡◌, ◌<◌, ◌≤◌, length, OnOk, OnSome, IfOk};
ghost use Rattle.sq_grammar.specs.Names as spec;
ghost use Rattle.sq_grammar.specs.Reading.{comma_separated, name};
ghost use Rattle.sq_grammar.specs.Reads.{Reads};

use crate::list::comma_list;
use crate::reader::Reader;
use crate::stop::Stop;
use sq_lex::{Name, Symbol, Word};
use sq_tree::{ColumnReference, CommaList, Indicator, Parameter, Sign, SignedNumber, TableName};
use std::alloc::Global;

fn name_behind_dot(tokens: &mut Reader<'_>) -> Result<Option<Name>, Stop>
    ensures value { Reads (spec.name_behind_dot tokens.old) result tokens.new }
    ensures no_longer { OnOk result (length tokens.new ≤ length tokens.old) }
{
    if !tokens.eat(Symbol::Dot) {
        return Ok(None);
    }
    let name = tokens.name()?;
    Ok(Some(name))
}

/// The name of a table, with or without its schema (ISO/IEC 9075:1992, 5.4).
#[tactic(auto, unfolding(crate::specs::Names::table_name))]
pub fn table_name(tokens: &mut Reader<'_>) -> Result<TableName, Stop>
    ensures value { Reads (spec.table_name tokens.old) result tokens.new }
    ensures shorter { OnOk result (length tokens.new < length tokens.old) }
{
    let first = tokens.name()?;
    match name_behind_dot(tokens)? {
        Some(table) => Ok(TableName {
            schema: Some(first),
            table,
        }),
        None => Ok(TableName {
            schema: None,
            table: first,
        }),
    }
}

/// A column reference whose first name is read already.
#[tactic(auto, unfolding(crate::specs::Names::column_from))]
pub fn column_from(tokens: &mut Reader<'_>, first: Name) -> Result<ColumnReference, Stop>
    ensures value { Reads (spec.column_from first tokens.old) result tokens.new }
    ensures no_longer { OnOk result (length tokens.new ≤ length tokens.old) }
{
    let Some(second) = name_behind_dot(tokens)? else {
        return Ok(ColumnReference {
            qualifier: None,
            column: first,
        });
    };
    let (qualifier, column) = match name_behind_dot(tokens)? {
        Some(third) => (
            TableName {
                schema: Some(first),
                table: second,
            },
            third,
        ),
        None => (
            TableName {
                schema: None,
                table: first,
            },
            second,
        ),
    };
    Ok(ColumnReference {
        qualifier: Some(qualifier),
        column,
    })
}

/// A column, with or without its table (ISO/IEC 9075:1992, 6.4).
#[tactic(auto, unfolding(crate::specs::Names::column_reference))]
pub fn column_reference(tokens: &mut Reader<'_>) -> Result<ColumnReference, Stop>
    ensures value { Reads (spec.column_reference tokens.old) result tokens.new }
    ensures shorter { OnOk result (length tokens.new < length tokens.old) }
{
    let first = tokens.name()?;
    column_from(tokens, first)
}

#[tactic(auto, unfolding(crate::specs::Names::indicator))]
fn indicator(tokens: &mut Reader<'_>) -> Result<Option<Indicator>, Stop>
    ensures value { Reads (spec.indicator tokens.old) result tokens.new }
    ensures no_longer { OnOk result (length tokens.new ≤ length tokens.old) }
{
    if tokens.eat_word(Word::Indicator) {
        tokens.expect(Symbol::Colon)?;
        let name = tokens.name()?;
        return Ok(Some(Indicator { word: true, name }));
    }
    if !tokens.eat(Symbol::Colon) {
        return Ok(None);
    }
    let name = tokens.name()?;
    Ok(Some(Indicator { word: false, name }))
}

/// A parameter whose colon is read already.
#[tactic(auto, unfolding(crate::specs::Names::parameter_from))]
pub fn parameter_from(tokens: &mut Reader<'_>) -> Result<Parameter, Stop>
    ensures value { Reads (spec.parameter_from tokens.old) result tokens.new }
    ensures shorter { OnOk result (length tokens.new < length tokens.old) }
{
    let name = tokens.name()?;
    let indicator = indicator(tokens)?;
    Ok(Parameter { name, indicator })
}

/// A parameter, with or without its indicator (ISO/IEC 9075:1992, 6.2).
#[tactic(auto, unfolding(crate::specs::Names::parameter))]
pub fn parameter(tokens: &mut Reader<'_>) -> Result<Parameter, Stop>
    ensures value { Reads (spec.parameter tokens.old) result tokens.new }
    ensures shorter { OnOk result (length tokens.new < length tokens.old) }
{
    tokens.expect(Symbol::Colon)?;
    parameter_from(tokens)
}

/// A plus or a minus, if one comes.
pub fn sign_if_any(tokens: &mut Reader<'_>) -> Option<Sign>
    ensures value { spec.sign_if_any tokens.old ≡ Ok (result, tokens.new) }
    ensures shorter { OnSome result (length tokens.new < length tokens.old) }
    ensures no_longer { length tokens.new ≤ length tokens.old }
{
    if tokens.eat(Symbol::Plus) {
        return Some(Sign::Plus);
    }
    if tokens.eat(Symbol::Minus) {
        return Some(Sign::Minus);
    }
    None
}

/// A number, with or without a sign (ISO/IEC 9075:1992, 5.3).
#[tactic(auto, unfolding(crate::specs::Names::signed_number))]
pub fn signed_number(tokens: &mut Reader<'_>) -> Result<SignedNumber, Stop>
    ensures value { Reads (spec.signed_number tokens.old) result tokens.new }
    ensures shorter { OnOk result (length tokens.new < length tokens.old) }
{
    let sign = sign_if_any(tokens);
    let number = tokens.number()?;
    Ok(SignedNumber { sign, number })
}

fn names(alloc: Global, tokens: &mut Reader<'_>) -> Result<CommaList<Name>, Stop>
    ensures value { Reads (comma_separated name tokens.old) result tokens.new }
    ensures shorter { OnOk result (length tokens.new < length tokens.old) }
{
    comma_list(alloc, tokens, |tokens| tokens.name())
}

/// A list of columns whose opening bracket is read already.
#[tactic(auto, unfolding(crate::specs::Names::columns_from))]
fn columns_from(alloc: Global, tokens: &mut Reader<'_>) -> Result<CommaList<Name>, Stop>
    ensures value { Reads (spec.columns_from tokens.old) result tokens.new }
    ensures shorter { OnOk result (length tokens.new < length tokens.old) }
{
    let columns = names(alloc, tokens)?;
    tokens.expect(Symbol::Close)?;
    Ok(columns)
}

/// A list of columns in brackets (ISO/IEC 9075:1992, 11.7).
#[tactic(auto, unfolding(crate::specs::Names::columns))]
pub fn columns(alloc: Global, tokens: &mut Reader<'_>) -> Result<CommaList<Name>, Stop>
    ensures value { Reads (spec.columns tokens.old) result tokens.new }
    ensures shorter { OnOk result (length tokens.new < length tokens.old) }
{
    tokens.expect(Symbol::Open)?;
    columns_from(alloc, tokens)
}

/// A list of columns in brackets, or `None` if no bracket comes.
#[tactic(auto, unfolding(crate::specs::Names::columns_if_any))]
pub fn columns_if_any(
    alloc: Global,
    tokens: &mut Reader<'_>,
) -> Result<Option<CommaList<Name>>, Stop>
    ensures value { Reads (spec.columns_if_any tokens.old) result tokens.new }
    ensures no_longer { OnOk result (length tokens.new ≤ length tokens.old) }
{
    if !tokens.eat(Symbol::Open) {
        return Ok(None);
    }
    let columns = columns_from(alloc, tokens)?;
    Ok(Some(columns))
}

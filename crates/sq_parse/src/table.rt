//! Table definitions: columns, defaults and constraints. Each rule begins after the words that it has in common with
//! others; they are read already.

ghost use Rattle.std.specs.Prelude.{◌<◌, ◌≤◌, length, IfOk, OnOk, OnSome};
ghost use Rattle.sq_grammar.specs.Reading.{all, comma_separated};
ghost use Rattle.sq_grammar.specs.Reads.{Reads};
ghost use Rattle.sq_grammar.specs.Schema as spec;

use sq_grammar::{
    Reader, Stop, columns, columns_if_any, comma_list, data_type, items, signed_number, table_name,
};
use sq_items::Items;
use sq_lex::{Name, Symbol, Word};
use sq_phrase::inner_cond;
use sq_tree::{
    ColumnConstraint, ColumnDefinition, CommaList, Cond, DefaultValue, ForeignKey, References,
    TableDefinition, TableElement,
};
use std::alloc::Global;

/// `table [ "(" columns ")" ]`, after REFERENCES.
#[tactic(auto, unfolding(sq_grammar::specs::Schema::references_from))]
fn references_from(alloc: Global, tokens: &mut Reader<'_>) -> Result<References, Stop>
    ensures value { Reads (spec.references_from tokens.old) result tokens.new }
    ensures shorter { OnOk result (length tokens.new < length tokens.old) }
{
    let table = table_name(tokens)?;
    let columns = columns_if_any(alloc, tokens)?;
    Ok(References { table, columns })
}

/// The value after DEFAULT.
#[tactic(auto, unfolding(sq_grammar::specs::Schema::default_value))]
fn default_value(alloc: Global, tokens: &mut Reader<'_>) -> Result<DefaultValue, Stop>
    ensures value { Reads (spec.default_value tokens.old) result tokens.new }
    ensures no_longer { OnOk result (length tokens.new ≤ length tokens.old) }
{
    if tokens.eat_word(Word::User) {
        return Ok(DefaultValue::User);
    }
    if tokens.eat_word(Word::Null) {
        return Ok(DefaultValue::Null);
    }
    if let Some(characters) = tokens.text_if_any(alloc)? {
        return Ok(DefaultValue::Text(characters));
    }
    let number = signed_number(tokens)?;
    Ok(DefaultValue::Number(number))
}

/// `[ DEFAULT value ]`.
#[tactic(auto, unfolding(sq_grammar::specs::Schema::default_clause))]
fn default_clause(alloc: Global, tokens: &mut Reader<'_>) -> Result<Option<DefaultValue>, Stop>
    ensures value { Reads (spec.default_clause tokens.old) result tokens.new }
    ensures no_longer { OnOk result (length tokens.new ≤ length tokens.old) }
{
    if !tokens.eat_word(Word::Default) {
        return Ok(None);
    }
    let value = default_value(alloc, tokens)?;
    Ok(Some(value))
}

/// `"(" condition ")"` after CHECK; its bracket is one of the `left` that may be opened.
#[tactic(auto, unfolding(sq_grammar::specs::Schema::check))]
fn check(alloc: Global, tokens: &mut Reader<'_>, left: usize) -> Result<Cond, Stop>
    requires { 0 < left }
    ensures value { Reads (spec.check left tokens.old) result tokens.new }
    ensures no_longer { OnOk result (length tokens.new ≤ length tokens.old) }
{
    tokens.expect(Symbol::Open)?;
    let cond = inner_cond(alloc, tokens, left)?;
    match tokens.expect(Symbol::Close) {
        Ok(()) => Ok(cond),
        Err(stop) => {
            drop(cond);
            Err(stop)
        }
    }
}

/// A column constraint, if one comes.
#[tactic(auto, unfolding(sq_grammar::specs::Schema::column_constraint))]
fn column_constraint(
    alloc: Global,
    tokens: &mut Reader<'_>,
    left: usize,
) -> Result<Option<ColumnConstraint>, Stop>
    requires { 0 < left }
    ensures value { Reads (spec.column_constraint left tokens.old) result tokens.new }
    ensures shorter { IfOk result (λ item. OnSome item (length tokens.new < length tokens.old)) }
    ensures no_longer { OnOk result (length tokens.new ≤ length tokens.old) }
{
    if tokens.eat_word(Word::Not) {
        tokens.expect_word(Word::Null)?;
        return Ok(Some(ColumnConstraint::NotNull));
    }
    if tokens.eat_word(Word::Unique) {
        return Ok(Some(ColumnConstraint::Unique));
    }
    if tokens.eat_word(Word::Primary) {
        tokens.expect_word(Word::Key)?;
        return Ok(Some(ColumnConstraint::PrimaryKey));
    }
    if tokens.eat_word(Word::References) {
        let references = references_from(alloc, tokens)?;
        return Ok(Some(ColumnConstraint::References(references)));
    }
    if tokens.eat_word(Word::Check) {
        let cond = check(alloc, tokens, left)?;
        return Ok(Some(ColumnConstraint::Check(cond)));
    }
    Ok(None)
}

/// The constraints of one column.
fn column_constraints(
    alloc: Global,
    tokens: &mut Reader<'_>,
    left: usize,
) -> Result<Items<ColumnConstraint>, Stop>
    requires { 0 < left }
    ensures value { Reads (all (spec.column_constraint left) tokens.old) result tokens.new }
    ensures no_longer { OnOk result (length tokens.new ≤ length tokens.old) }
{
    items(
        alloc,
        tokens,
        |tokens| column_constraint(alloc, tokens, left),
    )
}

/// A column definition whose name is read already.
#[tactic(auto, unfolding(sq_grammar::specs::Schema::column_definition))]
fn column_definition(
    alloc: Global,
    tokens: &mut Reader<'_>,
    left: usize,
    name: Name,
) -> Result<ColumnDefinition, Stop>
    requires { 0 < left }
    ensures value { Reads (spec.column_definition left name tokens.old) result tokens.new }
    ensures no_longer { OnOk result (length tokens.new ≤ length tokens.old) }
{
    let data_type = data_type(tokens)?;
    let default = default_clause(alloc, tokens)?;
    match column_constraints(alloc, tokens, left) {
        Ok(constraints) => Ok(ColumnDefinition {
            name,
            data_type,
            default,
            constraints,
        }),
        Err(stop) => {
            drop(default);
            Err(stop)
        }
    }
}

/// A foreign key, after FOREIGN.
#[tactic(auto, unfolding(sq_grammar::specs::Schema::foreign_key, sq_grammar::specs::Schema::references))]
fn foreign_key(alloc: Global, tokens: &mut Reader<'_>) -> Result<ForeignKey, Stop>
    ensures value { Reads (spec.foreign_key tokens.old) result tokens.new }
    ensures no_longer { OnOk result (length tokens.new ≤ length tokens.old) }
{
    tokens.expect_word(Word::Key)?;
    let columns = columns(alloc, tokens)?;
    if let Err(stop) = tokens.expect_word(Word::References) {
        drop(columns);
        return Err(stop);
    }
    match references_from(alloc, tokens) {
        Ok(references) => Ok(ForeignKey {
            columns,
            references,
        }),
        Err(stop) => {
            drop(columns);
            Err(stop)
        }
    }
}

/// A table constraint.
#[tactic(auto, unfolding(sq_grammar::specs::Schema::table_constraint))]
fn table_constraint(
    alloc: Global,
    tokens: &mut Reader<'_>,
    left: usize,
) -> Result<TableElement, Stop>
    requires { 0 < left }
    ensures value { Reads (spec.table_constraint left tokens.old) result tokens.new }
    ensures shorter { OnOk result (length tokens.new < length tokens.old) }
{
    if tokens.eat_word(Word::Unique) {
        let columns = columns(alloc, tokens)?;
        return Ok(TableElement::Unique(columns));
    }
    if tokens.eat_word(Word::Primary) {
        tokens.expect_word(Word::Key)?;
        let columns = columns(alloc, tokens)?;
        return Ok(TableElement::PrimaryKey(columns));
    }
    if tokens.eat_word(Word::Foreign) {
        let key = foreign_key(alloc, tokens)?;
        return Ok(TableElement::ForeignKey(key));
    }
    tokens.expect_word(Word::Check)?;
    let cond = check(alloc, tokens, left)?;
    Ok(TableElement::Check(cond))
}

/// A column definition or a table constraint.
#[tactic(auto, unfolding(sq_grammar::specs::Schema::table_element))]
fn table_element(alloc: Global, tokens: &mut Reader<'_>, left: usize) -> Result<TableElement, Stop>
    requires { 0 < left }
    ensures value { Reads (spec.table_element left tokens.old) result tokens.new }
    ensures shorter { OnOk result (length tokens.new < length tokens.old) }
{
    match tokens.name_if_any() {
        Some(name) => {
            let column = column_definition(alloc, tokens, left, name)?;
            Ok(TableElement::Column(column))
        }
        None => table_constraint(alloc, tokens, left),
    }
}

/// The columns and constraints of a table, with commas between them.
fn table_elements(
    alloc: Global,
    tokens: &mut Reader<'_>,
    left: usize,
) -> Result<CommaList<TableElement>, Stop>
    requires { 0 < left }
    ensures value { Reads (comma_separated (spec.table_element left) tokens.old) result tokens.new }
    ensures shorter { OnOk result (length tokens.new < length tokens.old) }
{
    comma_list(alloc, tokens, |tokens| table_element(alloc, tokens, left))
}

/// A table definition, after CREATE TABLE; `left` brackets may be opened inside its own.
#[tactic(auto, unfolding(sq_grammar::specs::Schema::table_definition))]
pub fn table_definition(
    alloc: Global,
    tokens: &mut Reader<'_>,
    left: usize,
) -> Result<TableDefinition, Stop>
    requires { 0 < left }
    ensures value { Reads (spec.table_definition left tokens.old) result tokens.new }
    ensures shorter { OnOk result (length tokens.new < length tokens.old) }
{
    let name = table_name(tokens)?;
    tokens.expect(Symbol::Open)?;
    let elements = table_elements(alloc, tokens, left)?;
    match tokens.expect(Symbol::Close) {
        Ok(()) => Ok(TableDefinition { name, elements }),
        Err(stop) => {
            drop(elements);
            Err(stop)
        }
    }
}

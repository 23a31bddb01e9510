//! Schema texts: schemas and their elements, which are tables, views and grants.

ghost use Rattle.std.specs.Prelude.{◌≡◌, ◌<◌, ◌≤◌, ◌-◌, length, IfOk, OnOk, OnSome};
ghost use Rattle.sq_grammar.specs.declared.brackets.TheConstants.{MAX_DEPTH};
ghost use Rattle.sq_grammar.specs.Reading.{all, whole};
ghost use Rattle.sq_grammar.specs.Reads.{Reads};
ghost use Rattle.sq_grammar.specs.Schema as spec;

use crate::grant::grant;
use crate::table::table_definition;
use crate::view::view_definition;
use sq_grammar::{Reader, Stop, items};
use sq_items::Items;
use sq_lex::{Symbol, Word};
use sq_tree::{SchemaDefinition, SchemaElement, SchemaText};
use std::alloc::Global;

/// Whether CREATE TABLE or CREATE VIEW comes next.
fn sees_created(tokens: &Reader<'_>) -> bool
    ensures { result ≡ spec.sees_created tokens.now }
{
    let table = tokens.sees_word_after(Word::Table);
    let view = tokens.sees_word_after(Word::View);
    tokens.sees_word(Word::Create) && (table || view)
}

/// A table or a view, from CREATE on.
#[tactic(auto, unfolding(sq_grammar::specs::Schema::created))]
fn created(
    alloc: Global,
    tokens: &mut Reader<'_>,
    left: usize,
) -> Result<Option<SchemaElement>, Stop>
    requires some { 1 < left }
    requires small { left ≤ MAX_DEPTH }
    ensures value { Reads (spec.created left (left - 1) tokens.old) result tokens.new }
    ensures shorter { OnOk result (length tokens.new < length tokens.old) }
{
    tokens.expect_word(Word::Create)?;
    if tokens.eat_word(Word::Table) {
        let table = table_definition(alloc, tokens, left - 1)?;
        return Ok(Some(SchemaElement::Table(table)));
    }
    tokens.expect_word(Word::View)?;
    let view = view_definition(alloc, tokens, left)?;
    Ok(Some(SchemaElement::View(view)))
}

/// A table, a view or a grant, if one comes.
#[tactic(auto, unfolding(sq_grammar::specs::Schema::element))]
fn element(
    alloc: Global,
    tokens: &mut Reader<'_>,
    left: usize,
) -> Result<Option<SchemaElement>, Stop>
    requires some { 1 < left }
    requires small { left ≤ MAX_DEPTH }
    ensures value { Reads (spec.element left (left - 1) tokens.old) result tokens.new }
    ensures shorter { IfOk result (λ item. OnSome item (length tokens.new < length tokens.old)) }
    ensures no_longer { OnOk result (length tokens.new ≤ length tokens.old) }
{
    if tokens.eat_word(Word::Grant) {
        let grant = grant(alloc, tokens)?;
        return Ok(Some(SchemaElement::Grant(grant)));
    }
    if sees_created(tokens) {
        return created(alloc, tokens, left);
    }
    Ok(None)
}

/// The elements of one schema.
fn elements(
    alloc: Global,
    tokens: &mut Reader<'_>,
    left: usize,
) -> Result<Items<SchemaElement>, Stop>
    requires some { 1 < left }
    requires small { left ≤ MAX_DEPTH }
    ensures value { Reads (all (spec.element left (left - 1)) tokens.old) result tokens.new }
    ensures no_longer { OnOk result (length tokens.new ≤ length tokens.old) }
{
    items(alloc, tokens, |tokens| element(alloc, tokens, left))
}

/// A schema definition, after CREATE.
#[tactic(auto, unfolding(sq_grammar::specs::Schema::schema_definition))]
fn schema_definition(
    alloc: Global,
    tokens: &mut Reader<'_>,
    left: usize,
) -> Result<SchemaDefinition, Stop>
    requires some { 1 < left }
    requires small { left ≤ MAX_DEPTH }
    ensures value { Reads (spec.schema_definition left (left - 1) tokens.old) result tokens.new }
    ensures shorter { OnOk result (length tokens.new < length tokens.old) }
{
    tokens.expect_word(Word::Schema)?;
    tokens.expect_word(Word::Authorization)?;
    let authorization = tokens.name()?;
    let elements = elements(alloc, tokens, left)?;
    let semicolon = tokens.eat(Symbol::Semicolon);
    Ok(SchemaDefinition {
        authorization,
        elements,
        semicolon,
    })
}

/// A schema definition, from CREATE on, if one comes.
fn next_definition(
    alloc: Global,
    tokens: &mut Reader<'_>,
    left: usize,
) -> Result<Option<SchemaDefinition>, Stop>
    requires some { 1 < left }
    requires small { left ≤ MAX_DEPTH }
    ensures value { Reads (spec.next_definition left (left - 1) tokens.old) result tokens.new }
    ensures shorter { IfOk result (λ item. OnSome item (length tokens.new < length tokens.old)) }
    ensures no_longer { OnOk result (length tokens.new ≤ length tokens.old) }
{
    if !tokens.eat_word(Word::Create) {
        return Ok(None);
    }
    let definition = schema_definition(alloc, tokens, left)?;
    Ok(Some(definition))
}

/// The schema definitions after the first one.
fn more_definitions(
    alloc: Global,
    tokens: &mut Reader<'_>,
    left: usize,
) -> Result<Items<SchemaDefinition>, Stop>
    requires some { 1 < left }
    requires small { left ≤ MAX_DEPTH }
    ensures value { Reads (all (spec.next_definition left (left - 1)) tokens.old) result tokens.new }
    ensures no_longer { OnOk result (length tokens.new ≤ length tokens.old) }
{
    items(alloc, tokens, |tokens| next_definition(alloc, tokens, left))
}

/// All of a schema text.
#[tactic(auto, unfolding(sq_grammar::specs::Schema::schema_text))]
pub fn whole_schema(alloc: Global, tokens: &mut Reader<'_>, left: usize) -> Result<SchemaText, Stop>
    requires some { 1 < left }
    requires small { left ≤ MAX_DEPTH }
    ensures { Reads (whole (spec.schema_text left (left - 1)) tokens.old) result tokens.new }
{
    tokens.expect_word(Word::Create)?;
    let first = schema_definition(alloc, tokens, left)?;
    match more_definitions(alloc, tokens, left) {
        Ok(rest) => tokens.end(SchemaText { first, rest }),
        Err(stop) => {
            drop(first);
            Err(stop)
        }
    }
}

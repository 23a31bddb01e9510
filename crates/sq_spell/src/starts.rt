//! The beginnings of the parts of a text: the number of the first token of each, from 0, up to `usize::MAX`.
//!
//! Schemas, elements and items count from 0, too. Past the last one, the answer is the beginning that the next one
//! would have.

ghost use Rattle.std.specs.Prelude.{◌≡◌, min, length};
ghost use Rattle.sq_tree.specs.Starts as spec;

use crate::tree::{Tree, token_count};
use sq_tree::{ModuleText, SchemaDefinition, SchemaText, ScriptText};

/// `CREATE SCHEMA AUTHORIZATION name`.
const SCHEMA_HEAD_TOKENS: usize = 4;

/// `MODULE name LANGUAGE name AUTHORIZATION name`.
const MODULE_HEAD_TOKENS: usize = 6;

/// How many tokens the first parts have.
#[tactic(auto, using(std::proofs::lemmas::List::take_min))]
fn tokens_of_first<T: Tree>(count: usize, parts: &[T]) -> usize
    ensures { result ≡ min (length (spec.tokens_of_first T.tokens count parts.now)) usize.MAX }
{
    let first = &parts[..count.min(parts.len())];
    token_count(&first)
}

/// The number of tokens of a schema before one of its elements.
fn before_element(schema: &SchemaDefinition, element: usize) -> usize
    ensures { result ≡ min (spec.before_element schema.now element) usize.MAX }
{
    tokens_of_first(element, schema.elements.as_slice()).saturating_add(SCHEMA_HEAD_TOKENS)
}

/// The first token of a schema.
#[tactic(auto, using(crate::proofs::Parts::none_of_first, crate::proofs::Parts::one_and_more))]
pub fn schema_start(text: &SchemaText, schema: usize) -> usize
    ensures { result ≡ min (spec.schema_start text.now schema) usize.MAX }
{
    if schema == 0 {
        return 0;
    }
    token_count(&text.first).saturating_add(tokens_of_first(schema - 1, text.rest.as_slice()))
}

/// The first token of an element of a schema. If there is no such schema, it is the number of the text's tokens.
#[tactic(auto, using(crate::proofs::Parts::none_of_first, crate::proofs::Parts::before_later, crate::proofs::Parts::before_past))]
pub fn schema_element_start(text: &SchemaText, schema: usize, element: usize) -> usize
    ensures { result ≡ min (spec.schema_element_start text.now schema element) usize.MAX }
{
    if schema == 0 {
        return before_element(&text.first, element);
    }
    let start = schema_start(text, schema);
    match text.rest.as_slice().get(schema - 1) {
        Some(schema) => start.saturating_add(before_element(schema, element)),
        None => start,
    }
}

/// The first token of a cursor or a procedure.
pub fn module_item_start(text: &ModuleText, item: usize) -> usize
    ensures { result ≡ min (spec.module_item_start text.now item) usize.MAX }
{
    tokens_of_first(item, text.items.as_slice()).saturating_add(MODULE_HEAD_TOKENS)
}

/// The first token of an item of a script.
pub fn script_item_start(text: &ScriptText, item: usize) -> usize
    ensures { result ≡ min (spec.script_item_start text.now item) usize.MAX }
{
    tokens_of_first(item, text.items.as_slice())
}

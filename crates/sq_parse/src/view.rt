//! View definitions, after CREATE VIEW.

ghost use Rattle.std.specs.Prelude.{◌<◌, ◌≤◌, length, OnOk};
ghost use Rattle.sq_grammar.specs.declared.brackets.TheConstants.{MAX_DEPTH};
ghost use Rattle.sq_grammar.specs.Reads.{Reads};
ghost use Rattle.sq_grammar.specs.Schema as spec;

use sq_grammar::{Reader, Stop, columns_if_any, table_name};
use sq_lex::Word;
use sq_phrase::query_specification;
use sq_tree::ViewDefinition;
use std::alloc::Global;

/// `[ WITH CHECK OPTION ]`.
#[tactic(auto, unfolding(sq_grammar::specs::Schema::check_option))]
fn check_option(tokens: &mut Reader<'_>) -> Result<bool, Stop>
    ensures value { Reads (spec.check_option tokens.old) result tokens.new }
    ensures no_longer { OnOk result (length tokens.new ≤ length tokens.old) }
{
    if !tokens.eat_word(Word::With) {
        return Ok(false);
    }
    tokens.expect_word(Word::Check)?;
    tokens.expect_word(Word::Option)?;
    Ok(true)
}

/// A view definition, after CREATE VIEW.
#[tactic(auto, unfolding(sq_grammar::specs::Schema::view_definition))]
pub fn view_definition(
    alloc: Global,
    tokens: &mut Reader<'_>,
    left: usize,
) -> Result<ViewDefinition, Stop>
    requires { left ≤ MAX_DEPTH }
    ensures value { Reads (spec.view_definition left tokens.old) result tokens.new }
    ensures shorter { OnOk result (length tokens.new < length tokens.old) }
{
    let name = table_name(tokens)?;
    let columns = columns_if_any(alloc, tokens)?;
    if let Err(stop) = tokens.expect_word(Word::As) {
        drop(columns);
        return Err(stop);
    }
    let query = match query_specification(alloc, tokens, left) {
        Ok(query) => query,
        Err(stop) => {
            drop(columns);
            return Err(stop);
        }
    };
    match check_option(tokens) {
        Ok(check_option) => Ok(ViewDefinition {
            name,
            columns,
            query,
            check_option,
        }),
        Err(stop) => {
            drop(columns);
            drop(query);
            Err(stop)
        }
    }
}

//! Grants, after GRANT: the privileges, the table, and the users who get them.

ghost use Rattle.std.specs.Prelude.{◌<◌, ◌≤◌, length, OnOk};
ghost use Rattle.sq_grammar.specs.Reading.{comma_separated};
ghost use Rattle.sq_grammar.specs.Reads.{Reads};
ghost use Rattle.sq_grammar.specs.Schema as spec;

use sq_grammar::{Reader, Stop, columns_if_any, comma_list, table_name};
use sq_lex::Word;
use sq_tree::{Action, CommaList, GrantStatement, Grantee, Privileges};
use std::alloc::Global;

/// A privilege that a grant names, with its columns.
#[tactic(auto, unfolding(sq_grammar::specs::Schema::action))]
fn action(alloc: Global, tokens: &mut Reader<'_>) -> Result<Action, Stop>
    ensures value { Reads (spec.action tokens.old) result tokens.new }
    ensures shorter { OnOk result (length tokens.new < length tokens.old) }
{
    if tokens.eat_word(Word::Select) {
        return Ok(Action::Select);
    }
    if tokens.eat_word(Word::Insert) {
        return Ok(Action::Insert);
    }
    if tokens.eat_word(Word::Delete) {
        return Ok(Action::Delete);
    }
    if tokens.eat_word(Word::Update) {
        let columns = columns_if_any(alloc, tokens)?;
        return Ok(Action::Update(columns));
    }
    tokens.expect_word(Word::References)?;
    let columns = columns_if_any(alloc, tokens)?;
    Ok(Action::References(columns))
}

/// The privileges that a grant names, with commas between them.
fn actions(alloc: Global, tokens: &mut Reader<'_>) -> Result<CommaList<Action>, Stop>
    ensures value { Reads (comma_separated spec.action tokens.old) result tokens.new }
    ensures shorter { OnOk result (length tokens.new < length tokens.old) }
{
    comma_list(alloc, tokens, |tokens| action(alloc, tokens))
}

/// `ALL PRIVILEGES`, or a list of privileges.
#[tactic(auto, unfolding(sq_grammar::specs::Schema::privileges))]
fn privileges(alloc: Global, tokens: &mut Reader<'_>) -> Result<Privileges, Stop>
    ensures value { Reads (spec.privileges tokens.old) result tokens.new }
    ensures shorter { OnOk result (length tokens.new < length tokens.old) }
{
    if tokens.eat_word(Word::All) {
        tokens.expect_word(Word::Privileges)?;
        return Ok(Privileges::All);
    }
    let actions = actions(alloc, tokens)?;
    Ok(Privileges::Actions(actions))
}

/// `PUBLIC`, or a user.
#[tactic(auto, unfolding(sq_grammar::specs::Schema::grantee))]
fn grantee(tokens: &mut Reader<'_>) -> Result<Grantee, Stop>
    ensures value { Reads (spec.grantee tokens.old) result tokens.new }
    ensures shorter { OnOk result (length tokens.new < length tokens.old) }
{
    if tokens.eat_word(Word::Public) {
        return Ok(Grantee::Public);
    }
    let name = tokens.name()?;
    Ok(Grantee::User(name))
}

/// The users to whom a grant gives its privileges, with commas between them.
fn grantees(alloc: Global, tokens: &mut Reader<'_>) -> Result<CommaList<Grantee>, Stop>
    ensures value { Reads (comma_separated spec.grantee tokens.old) result tokens.new }
    ensures shorter { OnOk result (length tokens.new < length tokens.old) }
{
    comma_list(alloc, tokens, grantee)
}

/// `[ WITH GRANT OPTION ]`.
#[tactic(auto, unfolding(sq_grammar::specs::Schema::grant_option))]
fn grant_option(tokens: &mut Reader<'_>) -> Result<bool, Stop>
    ensures value { Reads (spec.grant_option tokens.old) result tokens.new }
    ensures no_longer { OnOk result (length tokens.new ≤ length tokens.old) }
{
    if !tokens.eat_word(Word::With) {
        return Ok(false);
    }
    tokens.expect_word(Word::Grant)?;
    tokens.expect_word(Word::Option)?;
    Ok(true)
}

/// A grant, after GRANT.
#[tactic(auto, unfolding(sq_grammar::specs::Schema::grant))]
pub fn grant(alloc: Global, tokens: &mut Reader<'_>) -> Result<GrantStatement, Stop>
    ensures value { Reads (spec.grant tokens.old) result tokens.new }
    ensures shorter { OnOk result (length tokens.new < length tokens.old) }
{
    let privileges = privileges(alloc, tokens)?;
    if let Err(stop) = tokens.expect_word(Word::On) {
        drop(privileges);
        return Err(stop);
    }
    let table_word = tokens.eat_word(Word::Table);
    let table = match table_name(tokens) {
        Ok(table) => table,
        Err(stop) => {
            drop(privileges);
            return Err(stop);
        }
    };
    if let Err(stop) = tokens.expect_word(Word::To) {
        drop(privileges);
        return Err(stop);
    }
    let grantees = match grantees(alloc, tokens) {
        Ok(grantees) => grantees,
        Err(stop) => {
            drop(privileges);
            return Err(stop);
        }
    };
    match grant_option(tokens) {
        Ok(grant_option) => Ok(GrantStatement {
            privileges,
            table_word,
            table,
            grantees,
            grant_option,
        }),
        Err(stop) => {
            drop(privileges);
            drop(grantees);
            Err(stop)
        }
    }
}

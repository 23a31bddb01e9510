//! The statements of a procedure. In each rule `left` brackets may be open at once, and a statement's first word is
//! read already.

ghost use Rattle.std.specs.Prelude.{◌≡◌, ◌<◌, ◌≤◌, length, OnOk, OnSome};
ghost use Rattle.sq_grammar.specs.declared.brackets.TheConstants.{MAX_DEPTH};
ghost use Rattle.sq_grammar.specs.Expr as expressions;
ghost use Rattle.sq_grammar.specs.Names.{parameter};
ghost use Rattle.sq_grammar.specs.Reading.{comma_separated, one_if_any};
ghost use Rattle.sq_grammar.specs.Reads.{Reads};
ghost use Rattle.sq_grammar.specs.Statement as spec;

use sq_grammar::{
    Reader, Stop, Verb, columns_if_any, comma_list, parameter, signed_number, table_name,
};
use sq_lex::{Lexeme, Symbol, Word};
use sq_phrase::{
    cond, expr, inner_expr, quantifier_if_any, query_specification, select_list, table_expression,
};
use sq_tree::{
    Assignment, CommaList, Delete, Fetch, FetchFrom, Insert, InsertSource, NewValue, Orientation,
    Parameter, Position, Select, Statement, Update, Where,
};
use std::alloc::Global;

#[tactic(auto, unfolding(sq_grammar::specs::Statement::position))]
fn position(tokens: &mut Reader<'_>) -> Result<Position, Stop>
    ensures value { Reads (spec.position tokens.old) result tokens.new }
    ensures shorter { OnOk result (length tokens.new < length tokens.old) }
{
    if tokens.eat(Symbol::Colon) {
        let name = tokens.name()?;
        return Ok(Position::Parameter(name));
    }
    let number = signed_number(tokens)?;
    Ok(Position::Number(number))
}

fn orientation_of(lexeme: &Lexeme) -> Option<Orientation>
    ensures { result ≡ spec.orientation_of lexeme.now }
{
    match lexeme {
        Lexeme::Word(Word::Next) => Some(Orientation::Next),
        Lexeme::Word(Word::Prior) => Some(Orientation::Prior),
        Lexeme::Word(Word::First) => Some(Orientation::First),
        Lexeme::Word(Word::Last) => Some(Orientation::Last),
        _ => None,
    }
}

/// NEXT, PRIOR, FIRST or LAST, if one comes next.
#[tactic(auto, unfolding(sq_grammar::specs::Reading::one_if_any))]
fn orientation_word(tokens: &mut Reader<'_>) -> Option<Orientation>
    ensures value { one_if_any spec.orientation_of tokens.old ≡ Ok (result, tokens.new) }
    ensures no_longer { length tokens.new ≤ length tokens.old }
{
    let orientation = orientation_of(tokens.first()?)?;
    tokens.skip();
    Some(orientation)
}

#[tactic(auto, unfolding(sq_grammar::specs::Statement::orientation))]
fn orientation(tokens: &mut Reader<'_>) -> Result<Option<Orientation>, Stop>
    ensures value { Reads (spec.orientation tokens.old) result tokens.new }
    ensures no_longer { OnOk result (length tokens.new ≤ length tokens.old) }
{
    if let Some(orientation) = orientation_word(tokens) {
        return Ok(Some(orientation));
    }
    if tokens.eat_word(Word::Absolute) {
        let position = position(tokens)?;
        return Ok(Some(Orientation::Absolute(position)));
    }
    if tokens.eat_word(Word::Relative) {
        let position = position(tokens)?;
        return Ok(Some(Orientation::Relative(position)));
    }
    Ok(None)
}

#[tactic(auto, unfolding(sq_grammar::specs::Statement::fetch_from))]
fn fetch_from(tokens: &mut Reader<'_>) -> Result<Option<FetchFrom>, Stop>
    ensures value { Reads (spec.fetch_from tokens.old) result tokens.new }
    ensures no_longer { OnOk result (length tokens.new ≤ length tokens.old) }
{
    if let Some(orientation) = orientation(tokens)? {
        tokens.expect_word(Word::From)?;
        return Ok(Some(FetchFrom {
            orientation: Some(orientation),
        }));
    }
    if tokens.eat_word(Word::From) {
        return Ok(Some(FetchFrom { orientation: None }));
    }
    Ok(None)
}

fn targets(alloc: Global, tokens: &mut Reader<'_>) -> Result<CommaList<Parameter>, Stop>
    ensures value { Reads (comma_separated parameter tokens.old) result tokens.new }
    ensures shorter { OnOk result (length tokens.new < length tokens.old) }
{
    comma_list(alloc, tokens, |tokens| parameter(tokens))
}

#[tactic(auto, unfolding(sq_grammar::specs::Statement::fetch))]
fn fetch(alloc: Global, tokens: &mut Reader<'_>) -> Result<Fetch, Stop>
    ensures value { Reads (spec.fetch tokens.old) result tokens.new }
    ensures shorter { OnOk result (length tokens.new < length tokens.old) }
{
    let from = fetch_from(tokens)?;
    let cursor = tokens.name()?;
    tokens.expect_word(Word::Into)?;
    let targets = targets(alloc, tokens)?;
    Ok(Fetch {
        from,
        cursor,
        targets,
    })
}

#[tactic(auto, unfolding(sq_grammar::specs::Statement::target))]
fn target(alloc: Global, tokens: &mut Reader<'_>, left: usize) -> Result<Option<Where>, Stop>
    ensures value { Reads (spec.target left tokens.old) result tokens.new }
    ensures no_longer { OnOk result (length tokens.new ≤ length tokens.old) }
{
    if !tokens.eat_word(Word::Where) {
        return Ok(None);
    }
    if tokens.eat_word(Word::Current) {
        tokens.expect_word(Word::Of)?;
        let cursor = tokens.name()?;
        return Ok(Some(Where::CurrentOf(cursor)));
    }
    let cond = cond(alloc, tokens, left)?;
    Ok(Some(Where::Condition(cond)))
}

#[tactic(auto, unfolding(sq_grammar::specs::Statement::select))]
fn select(alloc: Global, tokens: &mut Reader<'_>, left: usize) -> Result<Select, Stop>
    requires { left ≤ MAX_DEPTH }
    ensures value { Reads (spec.select left tokens.old) result tokens.new }
    ensures shorter { OnOk result (length tokens.new < length tokens.old) }
{
    let quantifier = quantifier_if_any(tokens);
    let list = select_list(alloc, tokens, left)?;
    if let Err(stop) = tokens.expect_word(Word::Into) {
        drop(list);
        return Err(stop);
    }
    let targets = match targets(alloc, tokens) {
        Ok(targets) => targets,
        Err(stop) => {
            drop(list);
            return Err(stop);
        }
    };
    match table_expression(alloc, tokens, left) {
        Ok(table) => Ok(Select {
            quantifier,
            list,
            targets,
            table,
        }),
        Err(stop) => {
            drop(list);
            drop(targets);
            Err(stop)
        }
    }
}

/// A value of a VALUES list, whose bracket is one of the `left` that could be opened before it.
#[tactic(auto, unfolding(sq_grammar::specs::Statement::new_value))]
fn listed_value(alloc: Global, tokens: &mut Reader<'_>, left: usize) -> Result<NewValue, Stop>
    requires { 0 < left }
    ensures value { Reads (spec.new_value (expressions.inside left) tokens.old) result tokens.new }
    ensures shorter { OnOk result (length tokens.new < length tokens.old) }
{
    if tokens.eat_word(Word::Null) {
        return Ok(NewValue::Null);
    }
    let value = inner_expr(alloc, tokens, left)?;
    Ok(NewValue::Expr(value))
}

fn listed_values(
    alloc: Global,
    tokens: &mut Reader<'_>,
    left: usize,
) -> Result<CommaList<NewValue>, Stop>
    requires { 0 < left }
    ensures value { Reads (comma_separated (spec.new_value (expressions.inside left)) tokens.old) result tokens.new }
    ensures shorter { OnOk result (length tokens.new < length tokens.old) }
{
    comma_list(alloc, tokens, |tokens| listed_value(alloc, tokens, left))
}

#[tactic(auto, unfolding(sq_grammar::specs::Statement::insert_source))]
fn insert_source(alloc: Global, tokens: &mut Reader<'_>, left: usize) -> Result<InsertSource, Stop>
    requires some { 0 < left }
    requires small { left ≤ MAX_DEPTH }
    ensures value { Reads (spec.insert_source left tokens.old) result tokens.new }
    ensures shorter { OnOk result (length tokens.new < length tokens.old) }
{
    if tokens.eat_word(Word::Values) {
        tokens.expect(Symbol::Open)?;
        let values = listed_values(alloc, tokens, left)?;
        return match tokens.expect(Symbol::Close) {
            Ok(()) => Ok(InsertSource::Values(values)),
            Err(stop) => {
                drop(values);
                Err(stop)
            }
        };
    }
    let query = query_specification(alloc, tokens, left)?;
    Ok(InsertSource::Query(query))
}

#[tactic(auto, unfolding(sq_grammar::specs::Statement::insert))]
fn insert(alloc: Global, tokens: &mut Reader<'_>, left: usize) -> Result<Insert, Stop>
    requires some { 0 < left }
    requires small { left ≤ MAX_DEPTH }
    ensures value { Reads (spec.insert left tokens.old) result tokens.new }
    ensures shorter { OnOk result (length tokens.new < length tokens.old) }
{
    tokens.expect_word(Word::Into)?;
    let table = table_name(tokens)?;
    let columns = columns_if_any(alloc, tokens)?;
    match insert_source(alloc, tokens, left) {
        Ok(source) => Ok(Insert {
            table,
            columns,
            source,
        }),
        Err(stop) => {
            drop(columns);
            Err(stop)
        }
    }
}

#[tactic(auto, unfolding(sq_grammar::specs::Statement::new_value))]
fn new_value(alloc: Global, tokens: &mut Reader<'_>, left: usize) -> Result<NewValue, Stop>
    ensures value { Reads (spec.new_value (expressions.expr left) tokens.old) result tokens.new }
    ensures shorter { OnOk result (length tokens.new < length tokens.old) }
{
    if tokens.eat_word(Word::Null) {
        return Ok(NewValue::Null);
    }
    let value = expr(alloc, tokens, left)?;
    Ok(NewValue::Expr(value))
}

#[tactic(auto, unfolding(sq_grammar::specs::Statement::assignment))]
fn assignment(alloc: Global, tokens: &mut Reader<'_>, left: usize) -> Result<Assignment, Stop>
    ensures value { Reads (spec.assignment left tokens.old) result tokens.new }
    ensures shorter { OnOk result (length tokens.new < length tokens.old) }
{
    let column = tokens.name()?;
    tokens.expect(Symbol::Equal)?;
    let value = new_value(alloc, tokens, left)?;
    Ok(Assignment { column, value })
}

fn assignments(
    alloc: Global,
    tokens: &mut Reader<'_>,
    left: usize,
) -> Result<CommaList<Assignment>, Stop>
    ensures value { Reads (comma_separated (spec.assignment left) tokens.old) result tokens.new }
    ensures shorter { OnOk result (length tokens.new < length tokens.old) }
{
    comma_list(alloc, tokens, |tokens| assignment(alloc, tokens, left))
}

#[tactic(auto, unfolding(sq_grammar::specs::Statement::update))]
fn update(alloc: Global, tokens: &mut Reader<'_>, left: usize) -> Result<Update, Stop>
    ensures value { Reads (spec.update left tokens.old) result tokens.new }
    ensures shorter { OnOk result (length tokens.new < length tokens.old) }
{
    let table = table_name(tokens)?;
    tokens.expect_word(Word::Set)?;
    let assignments = assignments(alloc, tokens, left)?;
    match target(alloc, tokens, left) {
        Ok(target) => Ok(Update {
            table,
            assignments,
            target,
        }),
        Err(stop) => {
            drop(assignments);
            Err(stop)
        }
    }
}

#[tactic(auto, unfolding(sq_grammar::specs::Statement::delete))]
fn delete(alloc: Global, tokens: &mut Reader<'_>, left: usize) -> Result<Delete, Stop>
    ensures value { Reads (spec.delete left tokens.old) result tokens.new }
    ensures shorter { OnOk result (length tokens.new < length tokens.old) }
{
    tokens.expect_word(Word::From)?;
    let table = table_name(tokens)?;
    let target = target(alloc, tokens, left)?;
    Ok(Delete { table, target })
}

fn verb_of(lexeme: &Lexeme) -> Option<Verb>
    ensures { result ≡ spec.verb_of lexeme.now }
{
    match lexeme {
        Lexeme::Word(Word::Open) => Some(Verb::Open),
        Lexeme::Word(Word::Fetch) => Some(Verb::Fetch),
        Lexeme::Word(Word::Close) => Some(Verb::Close),
        Lexeme::Word(Word::Select) => Some(Verb::Select),
        Lexeme::Word(Word::Insert) => Some(Verb::Insert),
        Lexeme::Word(Word::Update) => Some(Verb::Update),
        Lexeme::Word(Word::Delete) => Some(Verb::Delete),
        Lexeme::Word(Word::Commit) => Some(Verb::Commit),
        Lexeme::Word(Word::Rollback) => Some(Verb::Rollback),
        _ => None,
    }
}

#[tactic(auto, unfolding(sq_grammar::specs::Reading::one_if_any))]
fn verb_if_any(tokens: &mut Reader<'_>) -> Option<Verb>
    ensures value { one_if_any spec.verb_of tokens.old ≡ Ok (result, tokens.new) }
    ensures shorter { OnSome result (length tokens.new < length tokens.old) }
{
    let verb = verb_of(tokens.first()?)?;
    tokens.skip();
    Some(verb)
}

/// A statement with its first word.
#[tactic(auto, unfolding(sq_grammar::specs::Statement::statement))]
pub fn statement(alloc: Global, tokens: &mut Reader<'_>, left: usize) -> Result<Statement, Stop>
    requires some { 0 < left }
    requires small { left ≤ MAX_DEPTH }
    ensures value { Reads (spec.statement left tokens.old) result tokens.new }
    ensures shorter { OnOk result (length tokens.new < length tokens.old) }
{
    let Some(verb) = verb_if_any(tokens) else {
        return Err(tokens.stop());
    };
    match verb {
        Verb::Open => Ok(Statement::Open(tokens.name()?)),
        Verb::Fetch => Ok(Statement::Fetch(fetch(alloc, tokens)?)),
        Verb::Close => Ok(Statement::Close(tokens.name()?)),
        Verb::Select => Ok(Statement::Select(select(alloc, tokens, left)?)),
        Verb::Insert => Ok(Statement::Insert(insert(alloc, tokens, left)?)),
        Verb::Update => Ok(Statement::Update(update(alloc, tokens, left)?)),
        Verb::Delete => Ok(Statement::Delete(delete(alloc, tokens, left)?)),
        Verb::Commit => Ok(Statement::Commit(tokens.eat_word(Word::Work))),
        Verb::Rollback => Ok(Statement::Rollback(tokens.eat_word(Word::Work))),
    }
}

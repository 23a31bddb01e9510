//! The first rule by which a query is not updatable (ISO/IEC 9075:1992, 7.9 and 13.1). An own rule is that no WHERE has a
//! subquery.

ghost use Rattle.std.specs.Prelude.{◌≡◌, ◌++◌, ◌∷◌, [], true, IfOk, Some, map, not, option_to_list};
ghost use Rattle.std.specs.List.{list_any};
ghost use Rattle.std.specs.Option.{option_map};
ghost use Rattle.sq_meaning.specs.Environment.{same_name};
ghost use Rattle.sq_meaning.specs.Spelled.{listed, query_of, query_term_of};
ghost use Rattle.sq_meaning.specs.Words.{is_some_and};
ghost use Rattle.sq_check.specs.Rule as spec;

use indexmap::IndexSet;
use sq_binder::{is_distinct, name_of};
use sq_lex::{Lexeme, Name, Word};
use sq_spell::write_tokens;
use sq_tree::{
    CommaList, Cond, Cursor, Expr, Query, QuerySpecification, QueryTerm, SelectList,
    TableExpression,
};
use std::alloc::{AllocError, Global};
use thiserror::Error;

/// A rule by which a cursor or a view is not updatable. If several hold, the answer is the first in this order.
#[derive(Clone, Copy, Debug, PartialEq, Eq, Error)]
pub enum Rule {
    #[error("INSENSITIVE")]
    Insensitive,
    #[error("SCROLL")]
    Scroll,
    #[error("ORDER BY")]
    OrderBy,
    #[error("UNION")]
    Union,
    #[error("DISTINCT")]
    Distinct,
    /// FROM names more than one table.
    #[error("more than one table")]
    SeveralTables,
    /// An item of the select list is no column, or a column occurs twice.
    #[error("select list")]
    SelectItems,
    /// WHERE has a subquery.
    #[error("subquery")]
    Subquery,
    #[error("GROUP BY")]
    GroupBy,
    #[error("HAVING")]
    Having,
    /// Nothing of its own text; it is over a view that is not updatable.
    #[error("over a view that is not updatable")]
    OverView,
}

/// For a cursor that is not updatable, the first rule by which it isn't.
#[tactic(auto, using(crate::proofs::Sole::rule_by))]
pub(crate) fn cursor_rule(alloc: Global, cursor: &Cursor) -> Result<Rule, AllocError>
    ensures { IfOk result (spec.IsRuleOf cursor.now) }
{
    let sole = sole_specification(&cursor.query);
    match rule_beside(alloc, cursor, sole) {
        Ok(rule) => Ok(rule),
        Err(error) => Err(error),
    }
}

/// The first rule of a cursor whose query is this specification, or a UNION.
fn rule_beside(
    alloc: Global,
    cursor: &Cursor,
    sole: Option<&QuerySpecification>,
) -> Result<Rule, AllocError>
    ensures { IfOk result (λ rule. rule ≡ spec.cursor_rule cursor.now (option_map (λ q. q.now) sole.entry)) }
{
    if cursor.insensitive {
        return Ok(Rule::Insensitive);
    }
    if cursor.scroll {
        return Ok(Rule::Scroll);
    }
    if cursor.order_by.is_some() {
        return Ok(Rule::OrderBy);
    }
    match sole {
        Some(query) => query_rule(alloc, query),
        None => Ok(Rule::Union),
    }
}

/// The query specification that a query is, brackets around it or not. `None` of a UNION.
#[cycle(sole_specification)]
fn sole_specification(query: &Query) -> Option<&QuerySpecification>
    ensures { spec.IsSole (λ own. query_of own query.now) (option_map (λ q. q.now) result) }
{
    if query.rest.is_empty() {
        sole_term(&query.first)
    } else {
        None
    }
}

#[cycle(sole_specification)]
fn sole_term(term: &QueryTerm) -> Option<&QuerySpecification>
    ensures { spec.IsSole (λ own. query_term_of own term.now) (option_map (λ q. q.now) result) }
{
    match term {
        QueryTerm::Specification(query) => Some(query),
        QueryTerm::Bracketed(query) => sole_specification(query.get()),
    }
}

/// For a query specification that is not updatable, the first rule by which it isn't.
pub(crate) fn query_rule(alloc: Global, query: &QuerySpecification) -> Result<Rule, AllocError>
    ensures { IfOk result (λ rule. rule ≡ spec.query_rule query.now) }
{
    match text_rule(alloc, query)? {
        Some(rule) => Ok(rule),
        None => Ok(Rule::OverView),
    }
}

/// The first rule that the text of a query breaks, if any.
fn text_rule(alloc: Global, query: &QuerySpecification) -> Result<Option<Rule>, AllocError>
    ensures { IfOk result (λ rule. rule ≡ spec.text_rule query.now) }
{
    if is_distinct(query.quantifier) {
        return Ok(Some(Rule::Distinct));
    }
    if query.table.from.rest.len() != 0 {
        return Ok(Some(Rule::SeveralTables));
    }
    if !shows_columns(alloc, &query.list)? {
        return Ok(Some(Rule::SelectItems));
    }
    clause_rule(alloc, &query.table)
}

/// The first rule after FROM.
fn clause_rule(alloc: Global, table: &TableExpression) -> Result<Option<Rule>, AllocError>
    ensures { IfOk result (λ rule. rule ≡ spec.clause_rule table.now) }
{
    if has_subquery_where(alloc, &table.where_clause)? {
        return Ok(Some(Rule::Subquery));
    }
    if table.group_by.is_some() {
        return Ok(Some(Rule::GroupBy));
    }
    if table.having.is_some() {
        return Ok(Some(Rule::Having));
    }
    Ok(None)
}

/// Whether a condition, if there is one, has a subquery.
fn has_subquery_where(alloc: Global, condition: &Option<Cond>) -> Result<bool, AllocError>
    ensures { IfOk result (λ has. has ≡ is_some_and spec.has_subquery condition.now) }
{
    match condition {
        Some(condition) => has_subquery(alloc, condition),
        None => Ok(false),
    }
}

fn has_subquery(alloc: Global, condition: &Cond) -> Result<bool, AllocError>
    ensures { IfOk result (λ has. has ≡ spec.has_subquery condition.now) }
{
    let lexemes = write_tokens(alloc, condition)?;
    let has = has_select(lexemes.as_slice());
    drop(lexemes);
    Ok(has)
}

fn has_select(lexemes: &[Lexeme]) -> bool
    ensures { result ≡ list_any spec.is_select lexemes.now }
{
    lexemes.iter().any(|lexeme| is_select(lexeme))
}

fn is_select(lexeme: &Lexeme) -> bool
    ensures { result ≡ spec.is_select lexeme.now }
{
    match lexeme {
        Lexeme::Word(word) => word.is(Word::Select),
        _ => false,
    }
}

/// Whether a select list is columns alone, each once.
fn shows_columns(alloc: Global, list: &SelectList) -> Result<bool, AllocError>
    ensures { IfOk result (λ shows. shows ≡ spec.shows_columns list.now) }
{
    match list {
        SelectList::Star => Ok(true),
        SelectList::Items(list) => {
            let mut names = IndexSet::new(alloc);
            let are = are_columns(&mut names, list);
            drop(names);
            are
        }
    }
}

fn are_columns(names: &mut IndexSet<Name>, list: &CommaList<Expr>) -> Result<bool, AllocError>
    ensures { IfOk result
        (λ are. are ≡ spec.are_new_columns names.old.keys (map spec.column_of (listed list.now))) }
{
    if is_new_column(names, &list.first)? {
        are_new_columns(names, list.rest.as_slice())
    } else {
        Ok(false)
    }
}

/// Whether each item is a column, of another name than these and the ones before it; the names are added.
fn are_new_columns(names: &mut IndexSet<Name>, items: &[Expr]) -> Result<bool, AllocError>
    ensures { IfOk result (λ are. are ≡ spec.are_new_columns names.old.keys (map spec.column_of items.now)) }
{
    for item in items {
        if !is_new_column(names, item)? {
            return Ok(false);
        }
    }
    Ok(true)
}

/// Whether a select item is a column of another name than these; the name is added.
fn is_new_column(names: &mut IndexSet<Name>, item: &Expr) -> Result<bool, AllocError>
    ensures answer { IfOk result
        (λ is. is ≡ is_some_and (λ name. not (list_any (same_name name) names.old.keys))
        (spec.column_of item.now)) }
    ensures keys { IfOk result
        (λ is. is ≡ true → names.new.keys ≡ names.old.keys ++ option_to_list (spec.column_of item.now)) }
{
    match name_of(item) {
        Some(name) => is_new(names, name),
        None => Ok(false),
    }
}

/// Adds a name and returns whether it was new.
fn is_new(names: &mut IndexSet<Name>, name: Name) -> Result<bool, AllocError>
    ensures answer { IfOk result (λ is. is ≡ not (list_any (same_name name) names.old.keys)) }
    ensures keys { IfOk result (λ is. is ≡ true → names.new.keys ≡ names.old.keys ++ name ∷ []) }
{
    match names.insert_full(name) {
        Ok((_, is_new)) => Ok(is_new),
        Err(_) => Err(AllocError),
    }
}

//! Query specifications.

ghost use Rattle.std.specs.Prelude.{◌≡◌, ◌<◌, ◌≤◌, ◌+◌, length, IfOk, OnOk, OnSome};
ghost use Rattle.sq_grammar.specs.declared.brackets.TheConstants.{MAX_DEPTH};
ghost use Rattle.sq_grammar.specs.Cond as conditions;
ghost use Rattle.sq_grammar.specs.Cond.{must_be_cond};
ghost use Rattle.sq_grammar.specs.Expr as expressions;
ghost use Rattle.sq_phrase.specs.Nests.{Nests};
ghost use Rattle.sq_grammar.specs.Names.{column_reference};
ghost use Rattle.sq_grammar.specs.Reading.{comma_separated};
ghost use Rattle.sq_grammar.specs.Reads.{Reads};
ghost use Rattle.sq_grammar.specs.Select as spec;

use crate::condition::{Grammar, inner};
use crate::expression::{inner_expr, quantifier_if_any};
use sq_grammar::{CondOrExpr, Reader, Stop, column_reference, comma_list, table_name};
use sq_lex::{Symbol, Word};
use sq_tree::{
    ColumnReference, CommaList, Cond, Correlation, Expr, QuerySpecification, SelectList,
    TableExpression, TableReference,
};
use std::alloc::Global;

#[tactic(auto, unfolding(sq_grammar::specs::Select::correlation))]
fn correlation(tokens: &mut Reader<'_>) -> Result<Option<Correlation>, Stop>
    ensures value { Reads (spec.correlation tokens.old) result tokens.new }
    ensures no_longer { OnOk result (length tokens.new ≤ length tokens.old) }
{
    if tokens.eat_word(Word::As) {
        let name = tokens.name()?;
        return Ok(Some(Correlation {
            as_word: true,
            name,
        }));
    }
    match tokens.name_if_any() {
        Some(name) => Ok(Some(Correlation {
            as_word: false,
            name,
        })),
        None => Ok(None),
    }
}

#[tactic(auto, unfolding(sq_grammar::specs::Select::table_reference))]
fn table_reference(tokens: &mut Reader<'_>) -> Result<TableReference, Stop>
    ensures value { Reads (spec.table_reference tokens.old) result tokens.new }
    ensures shorter { OnOk result (length tokens.new < length tokens.old) }
{
    let table = table_name(tokens)?;
    let correlation = correlation(tokens)?;
    Ok(TableReference { table, correlation })
}

fn tables(alloc: Global, tokens: &mut Reader<'_>) -> Result<CommaList<TableReference>, Stop>
    ensures value { Reads (comma_separated spec.table_reference tokens.old) result tokens.new }
    ensures shorter { OnOk result (length tokens.new < length tokens.old) }
{
    comma_list(alloc, tokens, table_reference)
}

#[tactic(auto, unfolding(sq_grammar::specs::Select::from_clause))]
fn from_clause(alloc: Global, tokens: &mut Reader<'_>) -> Result<CommaList<TableReference>, Stop>
    ensures value { Reads (spec.from_clause tokens.old) result tokens.new }
    ensures shorter { OnOk result (length tokens.new < length tokens.old) }
{
    tokens.expect_word(Word::From)?;
    tables(alloc, tokens)
}

fn grouping_columns(
    alloc: Global,
    tokens: &mut Reader<'_>,
) -> Result<CommaList<ColumnReference>, Stop>
    ensures value { Reads (comma_separated column_reference tokens.old) result tokens.new }
    ensures shorter { OnOk result (length tokens.new < length tokens.old) }
{
    comma_list(alloc, tokens, |tokens| column_reference(tokens))
}

#[tactic(auto, unfolding(sq_grammar::specs::Select::group_by, sq_grammar::specs::Select::by_columns))]
fn group_by(
    alloc: Global,
    tokens: &mut Reader<'_>,
) -> Result<Option<CommaList<ColumnReference>>, Stop>
    ensures value { Reads (spec.group_by tokens.old) result tokens.new }
    ensures no_longer { OnOk result (length tokens.new ≤ length tokens.old) }
{
    if !tokens.eat_word(Word::Group) {
        return Ok(None);
    }
    tokens.expect_word(Word::By)?;
    let columns = grouping_columns(alloc, tokens)?;
    Ok(Some(columns))
}

impl<F: Fn(Global, &mut Reader<'_>, usize) -> Result<CondOrExpr<Cond>, Stop>> Grammar<F> {
    /// A list of expressions after a bracket.
    pub fn inner_exprs(&self, tokens: &mut Reader<'_>) -> Result<CommaList<Expr>, Stop>
        requires { 0 < self.now.left }
        ensures value { Reads (comma_separated (expressions.inside self.now.left) tokens.old) result tokens.new }
        ensures shorter { OnOk result (length tokens.new < length tokens.old) }
    {
        let (alloc, left) = (self.alloc, self.left);
        comma_list(alloc, tokens, |tokens| inner_expr(alloc, tokens, left))
    }

    #[tactic(auto, unfolding(sq_grammar::specs::Select::select_list))]
    fn select_list(&self, tokens: &mut Reader<'_>) -> Result<SelectList, Stop>
        requires { 0 < self.now.left }
        ensures value { Reads
            (spec.select_list (expressions.inside self.now.left) tokens.old) result tokens.new }
        ensures shorter { OnOk result (length tokens.new < length tokens.old) }
    {
        if tokens.eat(Symbol::Star) {
            return Ok(SelectList::Star);
        }
        let items = self.inner_exprs(tokens)?;
        Ok(SelectList::Items(items))
    }

    fn where_clause(&self, tokens: &mut Reader<'_>) -> Result<Option<Cond>, Stop>
        requires nests { Nests conditions.inside self.now.left (F.pre self.now.inner)
            (F.post self.now.inner) }
        requires some { 0 < self.now.left }
        ensures value { Reads
            (spec.where_clause (must_be_cond (conditions.inside self.now.left)) tokens.old) result
            tokens.new }
        ensures no_longer { OnOk result (length tokens.new ≤ length tokens.old) }
    {
        if !tokens.eat_word(Word::Where) {
            return Ok(None);
        }
        let cond = self.inner_cond(tokens)?;
        Ok(Some(cond))
    }

    fn having_clause(&self, tokens: &mut Reader<'_>) -> Result<Option<Cond>, Stop>
        requires nests { Nests conditions.inside self.now.left (F.pre self.now.inner)
            (F.post self.now.inner) }
        requires some { 0 < self.now.left }
        ensures value { Reads
            (spec.having_clause (must_be_cond (conditions.inside self.now.left)) tokens.old) result
            tokens.new }
        ensures no_longer { OnOk result (length tokens.new ≤ length tokens.old) }
    {
        if !tokens.eat_word(Word::Having) {
            return Ok(None);
        }
        let cond = self.inner_cond(tokens)?;
        Ok(Some(cond))
    }

    #[tactic(auto, unfolding(sq_grammar::specs::Select::table_expression))]
    fn table_expression(&self, tokens: &mut Reader<'_>) -> Result<TableExpression, Stop>
        requires nests { Nests conditions.inside self.now.left (F.pre self.now.inner)
            (F.post self.now.inner) }
        requires some { 0 < self.now.left }
        ensures value { Reads
            (spec.table_expression (must_be_cond (conditions.inside self.now.left)) tokens.old) result
            tokens.new }
        ensures shorter { OnOk result (length tokens.new < length tokens.old) }
    {
        let from = from_clause(self.alloc, tokens)?;
        let where_clause = match self.where_clause(tokens) {
            Ok(where_clause) => where_clause,
            Err(stop) => {
                drop(from);
                return Err(stop);
            }
        };
        let group_by = match group_by(self.alloc, tokens) {
            Ok(group_by) => group_by,
            Err(stop) => {
                drop(from);
                drop(where_clause);
                return Err(stop);
            }
        };
        match self.having_clause(tokens) {
            Ok(having) => Ok(TableExpression {
                from,
                where_clause,
                group_by,
                having,
            }),
            Err(stop) => {
                drop(from);
                drop(where_clause);
                drop(group_by);
                Err(stop)
            }
        }
    }

    /// A query specification after a bracket.
    #[tactic(auto, unfolding(sq_grammar::specs::Select::specification))]
    pub fn inner_query(&self, tokens: &mut Reader<'_>) -> Result<QuerySpecification, Stop>
        requires nests { Nests conditions.inside self.now.left (F.pre self.now.inner)
            (F.post self.now.inner) }
        requires some { 0 < self.now.left }
        ensures value { Reads
            (conditions.inner_query self.now.left (conditions.inside self.now.left) tokens.old) result
            tokens.new }
        ensures shorter { OnOk result (length tokens.new < length tokens.old) }
    {
        tokens.expect_word(Word::Select)?;
        let quantifier = quantifier_if_any(tokens);
        let list = self.select_list(tokens)?;
        match self.table_expression(tokens) {
            Ok(table) => Ok(QuerySpecification {
                quantifier,
                list,
                table,
            }),
            Err(stop) => {
                drop(list);
                Err(stop)
            }
        }
    }

    /// `"(" specification ")"`.
    #[tactic(auto, unfolding(sq_grammar::specs::Cond::subquery))]
    pub fn subquery(&self, tokens: &mut Reader<'_>) -> Result<QuerySpecification, Stop>
        requires { Nests conditions.inside self.now.left (F.pre self.now.inner) (F.post self.now.inner) }
        ensures value { Reads
            (conditions.subquery self.now.left (conditions.inside self.now.left) tokens.old) result
            tokens.new }
        ensures shorter { OnOk result (length tokens.new < length tokens.old) }
    {
        tokens.open(self.left)?;
        let query = self.inner_query(tokens)?;
        match tokens.expect(Symbol::Close) {
            Ok(()) => Ok(query),
            Err(stop) => {
                drop(query);
                Err(stop)
            }
        }
    }
}

/// A select list in which `left` brackets may be open at once (ISO/IEC 9075:1992, 7.9).
///
/// It is read as after a bracket that is one of `left + 1`, so each rule is written once.
pub fn select_list(alloc: Global, tokens: &mut Reader<'_>, left: usize) -> Result<SelectList, Stop>
    requires { left ≤ MAX_DEPTH }
    ensures value { Reads (spec.select_list (expressions.expr left) tokens.old) result tokens.new }
    ensures shorter { OnOk result (length tokens.new < length tokens.old) }
{
    Grammar {
        alloc,
        left: left + 1,
        inner,
    }
    .select_list(tokens)
}

/// A table expression in which `left` brackets may be open at once (ISO/IEC 9075:1992, 7.3), read as a select list is.
pub fn table_expression(
    alloc: Global,
    tokens: &mut Reader<'_>,
    left: usize,
) -> Result<TableExpression, Stop>
    requires { left ≤ MAX_DEPTH }
    ensures value { Reads (spec.table_expression (conditions.cond left) tokens.old) result tokens.new }
    ensures shorter { OnOk result (length tokens.new < length tokens.old) }
{
    Grammar {
        alloc,
        left: left + 1,
        inner,
    }
    .table_expression(tokens)
}

/// A query specification in which `left` brackets may be open at once (ISO/IEC 9075:1992, 7.9), read as a select list is.
pub fn query_specification(
    alloc: Global,
    tokens: &mut Reader<'_>,
    left: usize,
) -> Result<QuerySpecification, Stop>
    requires { left ≤ MAX_DEPTH }
    ensures value { Reads (conditions.query_specification left tokens.old) result tokens.new }
    ensures shorter { OnOk result (length tokens.new < length tokens.old) }
{
    Grammar {
        alloc,
        left: left + 1,
        inner,
    }
    .inner_query(tokens)
}

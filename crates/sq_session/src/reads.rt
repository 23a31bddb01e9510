//! Whether the conditions of a target read a column that an UPDATE assigns to.

ghost use Rattle.std.specs.Prelude.{◌≡◌, ◌||◌, [], false};
ghost use Rattle.std.specs.List.{list_any};
ghost use Rattle.std.specs.Option.{option_map};
ghost use Rattle.sq_bound.specs.Condition.{cond_of, conj_of, predicate_of};
ghost use Rattle.sq_bound.specs.Expression.{expr_of};
ghost use Rattle.sq_query.specs.Target.{conditions_of};
ghost use Rattle.sq_session.specs.Reads.{AreUnread, cond_reads, escape_reads, expr_reads, is_assigned, one_reads};

use sq_bound::{
    BoundAssignment, BoundCond, BoundConj, BoundExpr, Operation, Predicate, Shared, Target,
};

/// Whether a condition of the target, or of the views in between, reads a column that is assigned to.
#[tactic(auto, using(crate::proofs::Walks::Assigned::own_reads, crate::proofs::Walks::Unread::unread))]
pub(crate) fn target_reads(target: &Target, assignments: &[BoundAssignment]) -> bool
    ensures reads { result ≡ one_reads assignments.now (conditions_of target.now) }
    ensures unread { result ≡ false → AreUnread assignments.now (conditions_of target.now) }
{
    let views = one_reads(target.leaf.get().conditions.as_slice(), assignments);
    match &target.condition {
        Some(condition) => views || cond_reads(condition, assignments),
        None => views,
    }
}

/// Whether one of the conditions reads a column that is assigned to.
fn one_reads(conditions: &[Shared<BoundCond>], assignments: &[BoundAssignment]) -> bool
    ensures { result ≡ one_reads assignments.now conditions.now }
{
    conditions
        .iter()
        .any(|condition| cond_reads(condition.get(), assignments))
}

/// Whether a condition reads a column that is assigned to.
#[cycle(cond_reads)]
fn cond_reads(condition: &BoundCond, assignments: &[BoundAssignment]) -> bool
    ensures { result ≡ cond_reads assignments.now (cond_of [] condition.now) }
{
    for term in condition.terms.as_slice() {
        if term_reads(term, assignments) {
            return true;
        }
    }
    false
}

#[cycle(cond_reads)]
fn term_reads(term: &BoundConj, assignments: &[BoundAssignment]) -> bool
    ensures { result ≡ cond_reads assignments.now (conj_of [] term.now) }
{
    for test in term.tests.as_slice() {
        if predicate_reads(&test.predicate, assignments) {
            return true;
        }
    }
    false
}

/// Whether a predicate reads a column that is assigned to; with a subquery it is taken to read every column.
#[cycle(cond_reads)]
#[tactic(auto, using(crate::proofs::Walks::Assigned::predicate_levels))]
fn predicate_reads(predicate: &Predicate, assignments: &[BoundAssignment]) -> bool
    ensures { result ≡ cond_reads assignments.now (predicate_of [] predicate.now) }
{
    match predicate {
        Predicate::Compare(_, left, right) => either_reads(left, right, assignments),
        Predicate::Between(_, operand, low, high) => {
            either_reads(operand, low, assignments) || expr_reads(high, assignments)
        }
        Predicate::InList(_, operand, list) => {
            expr_reads(operand, assignments) || any_reads(list.as_slice(), assignments)
        }
        Predicate::Like(_, text, pattern, escape) => {
            either_reads(text, pattern, assignments) || escape_reads(escape, assignments)
        }
        Predicate::Null(_, operand) => expr_reads(operand, assignments),
        Predicate::Bracketed(condition) => cond_reads(condition.get(), assignments),
        Predicate::CompareQuery(..) | Predicate::InQuery(..) | Predicate::Exists(_) => true,
    }
}

fn either_reads(left: &BoundExpr, right: &BoundExpr, assignments: &[BoundAssignment]) -> bool
    ensures { result
        ≡ (expr_reads assignments.now (expr_of [] left.now) || expr_reads assignments.now
        (expr_of [] right.now)) }
{
    expr_reads(left, assignments) || expr_reads(right, assignments)
}

fn any_reads(exprs: &[BoundExpr], assignments: &[BoundAssignment]) -> bool
    ensures { result ≡ list_any (λ e. expr_reads assignments.now (expr_of [] e)) exprs.now }
{
    exprs.iter().any(|expr| expr_reads(expr, assignments))
}

fn escape_reads(escape: &Option<BoundExpr>, assignments: &[BoundAssignment]) -> bool
    ensures { result ≡ escape_reads assignments.now (option_map (expr_of []) escape.now) }
{
    match escape {
        Some(escape) => expr_reads(escape, assignments),
        None => false,
    }
}

/// Whether an expression reads a column that is assigned to. A condition on rows has no set function.
#[cycle(expr_reads)]
#[tactic(auto, using(crate::proofs::Walks::Assigned::expr_levels))]
fn expr_reads(expr: &BoundExpr, assignments: &[BoundAssignment]) -> bool
    ensures { result ≡ expr_reads assignments.now (expr_of [] expr.now) }
{
    match expr {
        BoundExpr::Column(place) => is_assigned(place.column, assignments),
        BoundExpr::Literal(_)
        | BoundExpr::Parameter(_)
        | BoundExpr::User
        | BoundExpr::SetFunction(_) => false,
        BoundExpr::Signed(_, operand) => expr_reads(operand.get(), assignments),
        BoundExpr::Operations(first, rest) => {
            expr_reads(first.get(), assignments) || operands_read(rest.as_slice(), assignments)
        }
    }
}

#[cycle(expr_reads)]
fn operands_read(operations: &[Operation], assignments: &[BoundAssignment]) -> bool
    ensures { result ≡ list_any (λ o. expr_reads assignments.now (expr_of [] o.operand)) operations.now }
{
    for operation in operations {
        if expr_reads(&operation.operand, assignments) {
            return true;
        }
    }
    false
}

fn is_assigned(position: usize, assignments: &[BoundAssignment]) -> bool
    ensures { result ≡ is_assigned assignments.now position }
{
    assignments
        .iter()
        .any(|assignment| assignment.column.position == position)
}

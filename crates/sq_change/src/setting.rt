//! The inputs of a statement.

ghost use Rattle.std.specs.Prelude.{◌≡◌, List, IfErr};
ghost use Rattle.std.specs.Option.{option_copied};
ghost use Rattle.sq_value.specs.declared.domain.Kind.{Kind};
ghost use Rattle.sq_value.specs.declared.value.Value.{Value as AnyValue};
ghost use Rattle.sq_meaning.specs.Status.{Outcome};
ghost use Rattle.sq_bound.specs.declared.condition.TablePlace.{TablePlace};
ghost use Rattle.sq_query.specs.MayRead.{MayEnd, MayRead};
ghost use Rattle.sq_query.specs.Needed.{FindsCond};
ghost use Rattle.sq_query.specs.Row.{line_of, HasValueOn, IsOnRow, truth_on_row};
ghost use Rattle.sq_expression.specs.Fault.{Meets};

use sq_bound::{BoundCond, BoundExpr, Names};
use sq_expression::Fault;
use sq_lex::Name;
use sq_query::{Inputs, truth_of, value_of};
use sq_store::Store;
use sq_value::{Row, Truth, Value};
use std::alloc::Global;

/// Everything that a statement reads: the meaning of names, the tables as they are before it, and its inputs.
#[derive(Drop)]
pub struct Setting<'a, N: Names, S: Store> {
    pub alloc: Global,
    pub names: &'a N,
    pub store: &'a S,
    pub user: Name,
    pub parameters: &'a [Value],
}

impl<'a, N: Names, S: Store> Setting<'a, N, S> {
    /// The setting of these parts.
    pub fn new(
        alloc: Global,
        names: &'a N,
        store: &'a S,
        user: Name,
        parameters: &'a [Value],
    ) -> Setting<'a, N, S>
        ensures names { result.names.now ≡ names.now }
        ensures store { result.store.now ≡ store.now }
        ensures user { result.user ≡ user }
        ensures parameters { result.parameters.now ≡ parameters.now }
    {
        Setting {
            alloc,
            names,
            store,
            user,
            parameters,
        }
    }

    /// The user and the parameters' values.
    pub fn inputs(&self) -> Inputs<'a>
        ensures user { result.user ≡ self.now.user }
        ensures parameters { result.parameters.now ≡ self.now.parameters.now }
    {
        Inputs {
            user: self.user,
            parameters: self.parameters,
        }
    }

    /// The value of an expression, which may read a row of a base table.
    pub fn value(&self, expr: &BoundExpr, row: Option<&Row>) -> Result<Value, Fault>
        ensures { HasValueOn result expr.now
            (line_of (option_copied row.entry)) self.now.parameters.now self.now.user }
    {
        value_of(self.alloc, expr, row, self.inputs())
    }

    /// Whether a condition holds of a row of a base table.
    pub fn truth(&self, condition: &BoundCond, row: &Row) -> Result<Truth, Fault>
        requires { FindsCond (N.base_tables self.now.names.now)
            (N.column_kinds self.now.names.now) condition.now }
        ensures truth { (parameters : List Kind) (tables : TablePlace → Outcome (List (List AnyValue)))
            → MayRead (N.base_tables self.now.names.now) (N.view_queries self.now.names.now)
            (N.column_kinds self.now.names.now)
            (S.content_now self.now.store.now) self.now.user self.now.parameters.now parameters tables
            → IsOnRow (N.column_kinds self.now.names.now) parameters row.now condition.now
            → Meets result (truth_on_row tables self.now.parameters.now self.now.user row.now condition.now) }
        ensures right { (parameters : List Kind) (tables : TablePlace → Outcome (List (List AnyValue)))
            → MayRead (N.base_tables self.now.names.now) (N.view_queries self.now.names.now)
            (N.column_kinds self.now.names.now)
            (S.content_now self.now.store.now) self.now.user self.now.parameters.now parameters tables
            → IsOnRow (N.column_kinds self.now.names.now) parameters row.now condition.now
            → IfErr result MayEnd }
    {
        truth_of(
            self.alloc,
            self.names,
            condition,
            row,
            self.store,
            self.inputs(),
        )
    }
}

//! The spelling of statements.

ghost use Rattle.sq_tree.specs.Statement as spec;

use crate::names::Columns;
use crate::row::IfWritten;
use crate::sink::Sink;
use crate::tree::Tree;
use sq_lex::{Symbol, Word};
use sq_tree::{
    Assignment, Delete, Fetch, FetchFrom, Insert, InsertSource, NewValue, Orientation, Position,
    Select, Statement, Update, Where,
};

impl Tree for Statement {
    ghost tokens = { spec.statement_tokens };

    fn walk<S: Sink>(&self, sink: &mut S) -> Result<(), S::Stop> {
        match self {
            Statement::Open(cursor) => (Word::Open, *cursor).walk(sink),
            Statement::Fetch(fetch) => fetch.walk(sink),
            Statement::Close(cursor) => (Word::Close, *cursor).walk(sink),
            Statement::Select(select) => select.walk(sink),
            Statement::Insert(insert) => insert.walk(sink),
            Statement::Update(update) => update.walk(sink),
            Statement::Delete(delete) => delete.walk(sink),
            Statement::Commit(work) => (Word::Commit, IfWritten(*work, Word::Work)).walk(sink),
            Statement::Rollback(work) => (Word::Rollback, IfWritten(*work, Word::Work)).walk(sink),
        }
    }
}

impl Tree for Fetch {
    ghost tokens = { spec.fetch_tokens };

    fn walk<S: Sink>(&self, sink: &mut S) -> Result<(), S::Stop> {
        let into = (Word::Into, &self.targets);
        (Word::Fetch, &self.from, self.cursor, into).walk(sink)
    }
}

impl Tree for FetchFrom {
    ghost tokens = { spec.fetch_from_tokens };

    fn walk<S: Sink>(&self, sink: &mut S) -> Result<(), S::Stop> {
        (&self.orientation, Word::From).walk(sink)
    }
}

impl Tree for Orientation {
    ghost tokens = { spec.orientation_tokens };

    fn walk<S: Sink>(&self, sink: &mut S) -> Result<(), S::Stop> {
        match self {
            Orientation::Next => Word::Next.walk(sink),
            Orientation::Prior => Word::Prior.walk(sink),
            Orientation::First => Word::First.walk(sink),
            Orientation::Last => Word::Last.walk(sink),
            Orientation::Absolute(position) => (Word::Absolute, position).walk(sink),
            Orientation::Relative(position) => (Word::Relative, position).walk(sink),
        }
    }
}

impl Tree for Position {
    ghost tokens = { spec.position_tokens };

    fn walk<S: Sink>(&self, sink: &mut S) -> Result<(), S::Stop> {
        match self {
            Position::Number(number) => number.walk(sink),
            Position::Parameter(name) => (Symbol::Colon, *name).walk(sink),
        }
    }
}

impl Tree for Select {
    ghost tokens = { spec.select_tokens };

    fn walk<S: Sink>(&self, sink: &mut S) -> Result<(), S::Stop> {
        let into = (Word::Into, &self.targets, &self.table);
        (Word::Select, &self.quantifier, &self.list, into).walk(sink)
    }
}

impl Tree for Insert {
    ghost tokens = { spec.insert_tokens };

    fn walk<S: Sink>(&self, sink: &mut S) -> Result<(), S::Stop> {
        (
            Word::Insert,
            Word::Into,
            &self.table,
            (Columns(&self.columns), &self.source),
        )
            .walk(sink)
    }
}

impl Tree for InsertSource {
    ghost tokens = { spec.insert_source_tokens };

    fn walk<S: Sink>(&self, sink: &mut S) -> Result<(), S::Stop> {
        match self {
            InsertSource::Values(values) => {
                (Word::Values, Symbol::Open, values, Symbol::Close).walk(sink)
            }
            InsertSource::Query(query) => query.walk(sink),
        }
    }
}

impl Tree for NewValue {
    ghost tokens = { spec.new_value_tokens };

    fn walk<S: Sink>(&self, sink: &mut S) -> Result<(), S::Stop> {
        match self {
            NewValue::Expr(expr) => expr.walk(sink),
            NewValue::Null => Word::Null.walk(sink),
        }
    }
}

impl Tree for Update {
    ghost tokens = { spec.update_tokens };

    fn walk<S: Sink>(&self, sink: &mut S) -> Result<(), S::Stop> {
        let set = (Word::Set, &self.assignments);
        (Word::Update, &self.table, set, &self.target).walk(sink)
    }
}

impl Tree for Assignment {
    ghost tokens = { spec.assignment_tokens };

    fn walk<S: Sink>(&self, sink: &mut S) -> Result<(), S::Stop> {
        (self.column, Symbol::Equal, &self.value).walk(sink)
    }
}

impl Tree for Delete {
    ghost tokens = { spec.delete_tokens };

    fn walk<S: Sink>(&self, sink: &mut S) -> Result<(), S::Stop> {
        (Word::Delete, Word::From, &self.table, &self.target).walk(sink)
    }
}

impl Tree for Where {
    ghost tokens = { spec.target_tokens };

    fn walk<S: Sink>(&self, sink: &mut S) -> Result<(), S::Stop> {
        match self {
            Where::Condition(cond) => (Word::Where, cond).walk(sink),
            Where::CurrentOf(cursor) => {
                (Word::Where, Word::Current, Word::Of, *cursor).walk(sink)
            }
        }
    }
}

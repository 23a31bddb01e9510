//! The spelling of schema texts.

ghost use Rattle.sq_tree.specs.Schema as spec;

use crate::names::Columns;
use crate::row::IfWritten;
use crate::sink::Sink;
use crate::tree::Tree;
use sq_lex::{Symbol, Word};
use sq_tree::{
    Action, ColumnConstraint, ColumnDefinition, DefaultValue, ForeignKey, GrantStatement, Grantee,
    Privileges, References, SchemaDefinition, SchemaElement, SchemaText, TableDefinition,
    TableElement, ViewDefinition,
};

impl Tree for SchemaText {
    ghost tokens = { spec.schema_tokens };

    fn walk<S: Sink>(&self, sink: &mut S) -> Result<(), S::Stop> {
        (&self.first, &self.rest).walk(sink)
    }
}

impl Tree for SchemaDefinition {
    ghost tokens = { spec.schema_definition_tokens };

    fn walk<S: Sink>(&self, sink: &mut S) -> Result<(), S::Stop> {
        let head = (Word::Authorization, self.authorization);
        let end = IfWritten(self.semicolon, Symbol::Semicolon);
        (Word::Create, Word::Schema, head, (&self.elements, end)).walk(sink)
    }
}

impl Tree for SchemaElement {
    ghost tokens = { spec.schema_element_tokens };

    fn walk<S: Sink>(&self, sink: &mut S) -> Result<(), S::Stop> {
        match self {
            SchemaElement::Table(table) => table.walk(sink),
            SchemaElement::View(view) => view.walk(sink),
            SchemaElement::Grant(grant) => grant.walk(sink),
        }
    }
}

impl Tree for TableDefinition {
    ghost tokens = { spec.table_definition_tokens };

    fn walk<S: Sink>(&self, sink: &mut S) -> Result<(), S::Stop> {
        let elements = (Symbol::Open, &self.elements, Symbol::Close);
        (Word::Create, Word::Table, &self.name, elements).walk(sink)
    }
}

impl Tree for TableElement {
    ghost tokens = { spec.table_element_tokens };

    fn walk<S: Sink>(&self, sink: &mut S) -> Result<(), S::Stop> {
        match self {
            TableElement::Column(column) => column.walk(sink),
            TableElement::Unique(columns) => {
                (Word::Unique, Symbol::Open, columns, Symbol::Close).walk(sink)
            }
            TableElement::PrimaryKey(columns) => {
                let columns = (Symbol::Open, columns, Symbol::Close);
                (Word::Primary, Word::Key, columns).walk(sink)
            }
            TableElement::ForeignKey(key) => key.walk(sink),
            TableElement::Check(cond) => {
                (Word::Check, Symbol::Open, cond, Symbol::Close).walk(sink)
            }
        }
    }
}

impl Tree for ForeignKey {
    ghost tokens = { spec.foreign_key_tokens };

    fn walk<S: Sink>(&self, sink: &mut S) -> Result<(), S::Stop> {
        let columns = (Symbol::Open, &self.columns, Symbol::Close, &self.references);
        (Word::Foreign, Word::Key, columns).walk(sink)
    }
}

impl Tree for References {
    ghost tokens = { spec.references_tokens };

    fn walk<S: Sink>(&self, sink: &mut S) -> Result<(), S::Stop> {
        (Word::References, &self.table, Columns(&self.columns)).walk(sink)
    }
}

impl Tree for ColumnDefinition {
    ghost tokens = { spec.column_definition_tokens };

    fn walk<S: Sink>(&self, sink: &mut S) -> Result<(), S::Stop> {
        (self.name, &self.data_type, &self.default, &self.constraints).walk(sink)
    }
}

/// The word DEFAULT and the value after it.
impl Tree for DefaultValue {
    ghost tokens = { spec.default_clause_tokens };

    fn walk<S: Sink>(&self, sink: &mut S) -> Result<(), S::Stop> {
        Word::Default.walk(sink)?;
        match self {
            DefaultValue::Number(number) => number.walk(sink),
            DefaultValue::Text(characters) => sink.text(characters),
            DefaultValue::User => Word::User.walk(sink),
            DefaultValue::Null => Word::Null.walk(sink),
        }
    }
}

impl Tree for ColumnConstraint {
    ghost tokens = { spec.column_constraint_tokens };

    fn walk<S: Sink>(&self, sink: &mut S) -> Result<(), S::Stop> {
        match self {
            ColumnConstraint::NotNull => (Word::Not, Word::Null).walk(sink),
            ColumnConstraint::Unique => Word::Unique.walk(sink),
            ColumnConstraint::PrimaryKey => (Word::Primary, Word::Key).walk(sink),
            ColumnConstraint::References(references) => references.walk(sink),
            ColumnConstraint::Check(cond) => {
                (Word::Check, Symbol::Open, cond, Symbol::Close).walk(sink)
            }
        }
    }
}

impl Tree for ViewDefinition {
    ghost tokens = { spec.view_definition_tokens };

    fn walk<S: Sink>(&self, sink: &mut S) -> Result<(), S::Stop> {
        let option = (Word::With, Word::Check, Word::Option);
        let query = (Word::As, &self.query, IfWritten(self.check_option, option));
        let name = (&self.name, Columns(&self.columns), query);
        (Word::Create, Word::View, name).walk(sink)
    }
}

impl Tree for GrantStatement {
    ghost tokens = { spec.grant_tokens };

    fn walk<S: Sink>(&self, sink: &mut S) -> Result<(), S::Stop> {
        let option = (Word::With, Word::Grant, Word::Option);
        let to = (
            Word::To,
            &self.grantees,
            IfWritten(self.grant_option, option),
        );
        let table = (IfWritten(self.table_word, Word::Table), &self.table, to);
        (Word::Grant, &self.privileges, Word::On, table).walk(sink)
    }
}

impl Tree for Privileges {
    ghost tokens = { spec.privileges_tokens };

    fn walk<S: Sink>(&self, sink: &mut S) -> Result<(), S::Stop> {
        match self {
            Privileges::All => (Word::All, Word::Privileges).walk(sink),
            Privileges::Actions(actions) => actions.walk(sink),
        }
    }
}

impl Tree for Action {
    ghost tokens = { spec.action_tokens };

    fn walk<S: Sink>(&self, sink: &mut S) -> Result<(), S::Stop> {
        match self {
            Action::Select => Word::Select.walk(sink),
            Action::Insert => Word::Insert.walk(sink),
            Action::Delete => Word::Delete.walk(sink),
            Action::Update(columns) => (Word::Update, Columns(columns)).walk(sink),
            Action::References(columns) => (Word::References, Columns(columns)).walk(sink),
        }
    }
}

impl Tree for Grantee {
    ghost tokens = { spec.grantee_tokens };

    fn walk<S: Sink>(&self, sink: &mut S) -> Result<(), S::Stop> {
        match self {
            Grantee::Public => Word::Public.walk(sink),
            Grantee::User(name) => name.walk(sink),
        }
    }
}

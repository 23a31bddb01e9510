//! The spelling of names and parameters.

ghost use Rattle.sq_tree.specs.Tree.{optional};
ghost use Rattle.sq_tree.specs.Names as spec;

use crate::row::IfWritten;
use crate::sink::Sink;
use crate::tree::Tree;
use sq_lex::{Lexeme, Name, Symbol, Word};
use sq_tree::{ColumnReference, CommaList, Indicator, Parameter, TableName};

impl Tree for Name {
    ghost tokens = { spec.name_tokens };

    fn walk<S: Sink>(&self, sink: &mut S) -> Result<(), S::Stop> {
        sink.take(Lexeme::Name(*self))
    }
}

impl Tree for TableName {
    ghost tokens = { spec.table_name_tokens };

    fn walk<S: Sink>(&self, sink: &mut S) -> Result<(), S::Stop> {
        match self.schema {
            Some(schema) => (schema, Symbol::Dot, self.table).walk(sink),
            None => self.table.walk(sink),
        }
    }
}

impl Tree for ColumnReference {
    ghost tokens = { spec.column_reference_tokens };

    #[tactic(auto, using(std::proofs::lemmas::Grind::common_steps))]
    fn walk<S: Sink>(&self, sink: &mut S) -> Result<(), S::Stop> {
        match &self.qualifier {
            Some(qualifier) => (qualifier, Symbol::Dot, self.column).walk(sink),
            None => self.column.walk(sink),
        }
    }
}

impl Tree for Indicator {
    ghost tokens = { spec.indicator_tokens };

    fn walk<S: Sink>(&self, sink: &mut S) -> Result<(), S::Stop> {
        let word = IfWritten(self.word, Word::Indicator);
        (word, Symbol::Colon, self.name).walk(sink)
    }
}

impl Tree for Parameter {
    ghost tokens = { spec.parameter_tokens };

    fn walk<S: Sink>(&self, sink: &mut S) -> Result<(), S::Stop> {
        (Symbol::Colon, self.name, &self.indicator).walk(sink)
    }
}

/// A list of columns in brackets, if there is one.
#[derive(Clone, Copy)]
pub struct Columns<'a>(pub &'a Option<CommaList<Name>>);

impl Tree for Columns<'_> {
    ghost tokens = { λ columns. optional spec.columns_tokens columns.0.now };

    fn walk<S: Sink>(&self, sink: &mut S) -> Result<(), S::Stop> {
        match self.0 {
            Some(columns) => (Symbol::Open, columns, Symbol::Close).walk(sink),
            None => Ok(()),
        }
    }
}

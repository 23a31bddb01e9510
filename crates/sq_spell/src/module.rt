//! The spelling of module texts.

ghost use Rattle.sq_tree.specs.Module as spec;

use crate::row::{Behind, IfWritten};
use crate::sink::Sink;
use crate::tree::Tree;
use sq_lex::{Symbol, Word};
use sq_tree::{
    BareDeclaration, Cursor, Declaration, Declarations, ModuleItem, ModuleText, Procedure,
    SortDirection, SortKey, SortSpecification,
};

impl Tree for ModuleText {
    ghost tokens = { spec.module_tokens };

    fn walk<S: Sink>(&self, sink: &mut S) -> Result<(), S::Stop> {
        let authorization = (Word::Authorization, self.authorization, &self.items);
        let language = (Word::Language, self.language, authorization);
        (Word::Module, self.name, language).walk(sink)
    }
}

impl Tree for ModuleItem {
    ghost tokens = { spec.module_item_tokens };

    fn walk<S: Sink>(&self, sink: &mut S) -> Result<(), S::Stop> {
        match self {
            ModuleItem::Cursor(cursor) => cursor.walk(sink),
            ModuleItem::Procedure(procedure) => procedure.walk(sink),
        }
    }
}

impl Tree for Cursor {
    ghost tokens = { spec.cursor_tokens };

    fn walk<S: Sink>(&self, sink: &mut S) -> Result<(), S::Stop> {
        let order_by = Behind((Word::Order, Word::By), &self.order_by);
        let end = IfWritten(self.semicolon, Symbol::Semicolon);
        let query = (Word::Cursor, Word::For, &self.query, (order_by, end));
        let insensitive = IfWritten(self.insensitive, Word::Insensitive);
        let kind = (insensitive, IfWritten(self.scroll, Word::Scroll), query);
        (Word::Declare, self.name, kind).walk(sink)
    }
}

impl Tree for SortSpecification {
    ghost tokens = { spec.sort_specification_tokens };

    fn walk<S: Sink>(&self, sink: &mut S) -> Result<(), S::Stop> {
        match self.key {
            SortKey::Column(name) => (name, &self.direction).walk(sink),
            SortKey::Position(number) => (number, &self.direction).walk(sink),
        }
    }
}

impl Tree for SortDirection {
    ghost tokens = { spec.direction_tokens };

    fn walk<S: Sink>(&self, sink: &mut S) -> Result<(), S::Stop> {
        let word = match self {
            SortDirection::Asc => Word::Asc,
            SortDirection::Desc => Word::Desc,
        };
        word.walk(sink)
    }
}

impl Tree for Procedure {
    ghost tokens = { spec.procedure_tokens };

    fn walk<S: Sink>(&self, sink: &mut S) -> Result<(), S::Stop> {
        let statement = (Symbol::Semicolon, &self.statement, Symbol::Semicolon);
        (Word::Procedure, self.name, &self.declarations, statement).walk(sink)
    }
}

impl Tree for Declarations {
    ghost tokens = { spec.declarations_tokens };

    fn walk<S: Sink>(&self, sink: &mut S) -> Result<(), S::Stop> {
        match self {
            Declarations::Bracketed(declarations) => {
                (Symbol::Open, declarations, Symbol::Close).walk(sink)
            }
            Declarations::Bare(first, rest) => (first, rest).walk(sink),
        }
    }
}

impl Tree for BareDeclaration {
    ghost tokens = { spec.bare_declaration_tokens };

    fn walk<S: Sink>(&self, sink: &mut S) -> Result<(), S::Stop> {
        (IfWritten(self.comma, Symbol::Comma), &self.declaration).walk(sink)
    }
}

impl Tree for Declaration {
    ghost tokens = { spec.declaration_tokens };

    fn walk<S: Sink>(&self, sink: &mut S) -> Result<(), S::Stop> {
        match self {
            Declaration::Parameter(name, data_type) => {
                (Symbol::Colon, *name, data_type).walk(sink)
            }
            Declaration::Sqlcode => Word::Sqlcode.walk(sink),
            Declaration::Sqlstate => Word::Sqlstate.walk(sink),
        }
    }
}

//! The spelling of script texts.

ghost use Rattle.std.specs.Prelude.{◌≡◌, fold, OnOk};
ghost use Rattle.sq_tree.specs.Script as spec;

use crate::sink::Sink;
use crate::tree::Tree;
use sq_lex::{Name, Symbol, Word};
use sq_tree::{Argument, Arguments, ScriptItem, ScriptText};

impl Tree for ScriptText {
    ghost tokens = { spec.script_tokens };

    fn walk<S: Sink>(&self, sink: &mut S) -> Result<(), S::Stop> {
        self.items.walk(sink)
    }
}

/// An item and the semicolon after it.
impl Tree for ScriptItem {
    ghost tokens = { spec.ended_item_tokens };

    fn walk<S: Sink>(&self, sink: &mut S) -> Result<(), S::Stop> {
        walk_item(self, sink)?;
        Symbol::Semicolon.walk(sink)
    }
}

impl Tree for Arguments {
    ghost tokens = { spec.arguments_tokens };

    fn walk<S: Sink>(&self, sink: &mut S) -> Result<(), S::Stop> {
        match self {
            Arguments::Unwritten => Ok(()),
            Arguments::Empty => (Symbol::Open, Symbol::Close).walk(sink),
            Arguments::Listed(arguments) => (Symbol::Open, arguments, Symbol::Close).walk(sink),
        }
    }
}

impl Tree for Argument {
    ghost tokens = { spec.argument_tokens };

    fn walk<S: Sink>(&self, sink: &mut S) -> Result<(), S::Stop> {
        match self {
            Argument::Number(number) => number.walk(sink),
            Argument::Text(characters) => sink.text(characters),
            Argument::Null => Symbol::Star.walk(sink),
        }
    }
}

/// Writes an item without the semicolon.
#[tactic(auto, using(std::proofs::lemmas::Grind::common_steps))]
fn walk_item<S: Sink>(item: &ScriptItem, sink: &mut S) -> Result<(), S::Stop>
    ensures { OnOk result (sink.new ≡ fold S.after sink.old (spec.script_item_tokens item.now)) }
{
    match item {
        ScriptItem::Call {
            module,
            procedure,
            arguments,
        } => {
            let called = (*module, Symbol::Dot, *procedure, arguments);
            (Name::new(b"CALL"), called).walk(sink)
        }
        ScriptItem::Table { schema, table } => {
            (Word::Table, *schema, Symbol::Dot, *table).walk(sink)
        }
    }
}

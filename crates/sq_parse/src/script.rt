//! Script texts.

ghost use Rattle.std.specs.Prelude.{◌≡◌, ◌<◌, ◌≤◌, length, IfOk, OnOk, OnSome};
ghost use Rattle.sq_grammar.specs.Reading.{all, comma_separated, one_if_any, whole};
ghost use Rattle.sq_grammar.specs.Reads.{Reads};
ghost use Rattle.sq_grammar.specs.Script as spec;

use sq_grammar::{Reader, Stop, comma_list, items, signed_number};
use sq_items::Items;
use sq_lex::{Lexeme, Name, Symbol, Word};
use sq_tree::{Argument, Arguments, CommaList, ScriptItem, ScriptText};
use std::alloc::Global;

#[tactic(auto, unfolding(sq_grammar::specs::Script::argument))]
fn argument(alloc: Global, tokens: &mut Reader<'_>) -> Result<Argument, Stop>
    ensures value { Reads (spec.argument tokens.old) result tokens.new }
    ensures shorter { OnOk result (length tokens.new < length tokens.old) }
{
    if tokens.eat(Symbol::Star) {
        return Ok(Argument::Null);
    }
    if let Some(characters) = tokens.text_if_any(alloc)? {
        return Ok(Argument::Text(characters));
    }
    let number = signed_number(tokens)?;
    Ok(Argument::Number(number))
}

fn listed_arguments(alloc: Global, tokens: &mut Reader<'_>) -> Result<CommaList<Argument>, Stop>
    ensures value { Reads (comma_separated spec.argument tokens.old) result tokens.new }
    ensures shorter { OnOk result (length tokens.new < length tokens.old) }
{
    comma_list(alloc, tokens, |tokens| argument(alloc, tokens))
}

#[tactic(auto, unfolding(sq_grammar::specs::Script::arguments))]
fn arguments(alloc: Global, tokens: &mut Reader<'_>) -> Result<Arguments, Stop>
    ensures value { Reads (spec.arguments tokens.old) result tokens.new }
    ensures no_longer { OnOk result (length tokens.new ≤ length tokens.old) }
{
    if !tokens.eat(Symbol::Open) {
        return Ok(Arguments::Unwritten);
    }
    if tokens.eat(Symbol::Close) {
        return Ok(Arguments::Empty);
    }
    let arguments = listed_arguments(alloc, tokens)?;
    match tokens.expect(Symbol::Close) {
        Ok(()) => Ok(Arguments::Listed(arguments)),
        Err(stop) => {
            drop(arguments);
            Err(stop)
        }
    }
}

#[tactic(auto, unfolding(sq_grammar::specs::Script::two_names))]
fn two_names(tokens: &mut Reader<'_>) -> Result<(Name, Name), Stop>
    ensures value { Reads (spec.two_names tokens.old) result tokens.new }
    ensures shorter { OnOk result (length tokens.new < length tokens.old) }
{
    let first = tokens.name()?;
    tokens.expect(Symbol::Dot)?;
    let second = tokens.name()?;
    Ok((first, second))
}

fn is_call(lexeme: &Lexeme) -> bool
    ensures { result ≡ spec.is_call lexeme.now }
{
    match lexeme {
        Lexeme::Name(name) => name.codes() == b"CALL".as_slice(),
        _ => false,
    }
}

/// Takes the name CALL if it comes next.
#[tactic(auto, unfolding(sq_grammar::specs::Reading::one_if_any))]
fn call_if_any(tokens: &mut Reader<'_>) -> Option<()>
    ensures value { one_if_any spec.call_word tokens.old ≡ Ok (result, tokens.new) }
    ensures no_longer { length tokens.new ≤ length tokens.old }
{
    if !is_call(tokens.first()?) {
        return None;
    }
    tokens.skip();
    Some(())
}

#[tactic(auto, unfolding(sq_grammar::specs::Script::item))]
fn item(alloc: Global, tokens: &mut Reader<'_>) -> Result<Option<ScriptItem>, Stop>
    ensures value { Reads (spec.item tokens.old) result tokens.new }
    ensures shorter { IfOk result (λ item. OnSome item (length tokens.new < length tokens.old)) }
    ensures no_longer { OnOk result (length tokens.new ≤ length tokens.old) }
{
    if tokens.eat_word(Word::Table) {
        let (schema, table) = two_names(tokens)?;
        tokens.expect(Symbol::Semicolon)?;
        return Ok(Some(ScriptItem::Table { schema, table }));
    }
    if call_if_any(tokens).is_none() {
        return Ok(None);
    }
    let (module, procedure) = two_names(tokens)?;
    let arguments = arguments(alloc, tokens)?;
    match tokens.expect(Symbol::Semicolon) {
        Ok(()) => Ok(Some(ScriptItem::Call {
            module,
            procedure,
            arguments,
        })),
        Err(stop) => {
            drop(arguments);
            Err(stop)
        }
    }
}

fn all_items(alloc: Global, tokens: &mut Reader<'_>) -> Result<Items<ScriptItem>, Stop>
    ensures value { Reads (all spec.item tokens.old) result tokens.new }
    ensures no_longer { OnOk result (length tokens.new ≤ length tokens.old) }
{
    items(alloc, tokens, |tokens| item(alloc, tokens))
}

/// All of a script text.
#[tactic(auto, unfolding(sq_grammar::specs::Script::script_text))]
pub fn whole_script(alloc: Global, tokens: &mut Reader<'_>) -> Result<ScriptText, Stop>
    ensures { Reads (whole spec.script_text tokens.old) result tokens.new }
{
    let items = all_items(alloc, tokens)?;
    tokens.end(ScriptText { items })
}

//! Lists with commas, over a function that reads an item. If an item stops, a `match` and not `?` ends the list, so that
//! the proof has a name for the stop.

ghost use Rattle.std.specs.Prelude.{◌≡◌, ◌<◌, ◌≤◌, Option, length, OnOk};
ghost use Rattle.sq_grammar.specs.List.{Advances, AdvancesIfAny, Follows};
ghost use Rattle.sq_grammar.specs.Reading.{Parser, all, behind, comma, comma_separated};
ghost use Rattle.sq_grammar.specs.Reads.{Reads};

use crate::reader::Reader;
use crate::stop::Stop;
use sq_items::Items;
use sq_lex::Symbol;
use sq_tree::CommaList;
use std::alloc::Global;

/// Items, each after a comma.
#[tactic(auto, using(crate::proofs::Reading::Many::loops))]
fn more<T: Drop, P: Fn(&mut Reader<'_>) -> Result<T, Stop>>(
    alloc: Global,
    tokens: &mut Reader<'_>,
    item: &P,
) -> Result<Items<T>, Stop>
    requires { Advances (P.pre item.now) (P.post item.now) }
    ensures value { (parser : Parser T) → Follows parser (P.post item.now)
        → Reads (all (behind comma parser) tokens.old) result tokens.new }
    ensures no_longer { OnOk result (length tokens.new ≤ length tokens.old) }
{
    let mut items = Items::new(alloc);
    while tokens.eat(Symbol::Comma) {
        match item(tokens) {
            Ok(next) => items.push(next)?,
            Err(stop) => return Err(stop),
        }
    }
    Ok(items)
}

/// One item or more, with commas between.
pub fn comma_list<T: Drop, P: Fn(&mut Reader<'_>) -> Result<T, Stop>>(
    alloc: Global,
    tokens: &mut Reader<'_>,
    item: P,
) -> Result<CommaList<T>, Stop>
    requires { Advances (P.pre item) (P.post item) }
    ensures value { (parser : Parser T) → Follows parser (P.post item)
        → Reads (comma_separated parser tokens.old) result tokens.new }
    ensures shorter { OnOk result (length tokens.new < length tokens.old) }
{
    let first = match item(tokens) {
        Ok(first) => first,
        Err(stop) => return Err(stop),
    };
    match more(alloc, tokens, &item) {
        Ok(rest) => Ok(CommaList { first, rest }),
        Err(stop) => Err(stop),
    }
}

/// Items, one after the other, until no more comes.
#[tactic(auto, using(crate::proofs::Reading::Many::loops))]
pub fn items<T: Drop, P: Fn(&mut Reader<'_>) -> Result<Option<T>, Stop>>(
    alloc: Global,
    tokens: &mut Reader<'_>,
    item: P,
) -> Result<Items<T>, Stop>
    requires { AdvancesIfAny (P.pre item) (P.post item) }
    ensures value { (parser : Parser (Option T)) → Follows parser (P.post item)
        → Reads (all parser tokens.old) result tokens.new }
    ensures no_longer { OnOk result (length tokens.new ≤ length tokens.old) }
{
    let mut items = Items::new(alloc);
    loop {
        match item(tokens) {
            Ok(Some(next)) => items.push(next)?,
            Ok(None) => return Ok(items),
            Err(stop) => return Err(stop),
        }
    }
}

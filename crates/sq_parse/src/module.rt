//! Module texts. In each rule `left` brackets may be open at once.

ghost use Rattle.std.specs.Prelude.{◌≡◌, ◌<◌, ◌≤◌, length, IfOk, OnOk, OnSome};
ghost use Rattle.sq_grammar.specs.declared.brackets.TheConstants.{MAX_DEPTH};
ghost use Rattle.sq_grammar.specs.Module as spec;
ghost use Rattle.sq_grammar.specs.Reading.{all, comma_separated, whole};
ghost use Rattle.sq_grammar.specs.Reads.{Reads};

use crate::statement::statement;
use sq_grammar::{Reader, Stop, comma_list, data_type, items};
use sq_items::Items;
use sq_lex::{Symbol, Word};
use sq_phrase::query;
use sq_tree::{
    BareDeclaration, CommaList, Cursor, Declaration, Declarations, ModuleItem, ModuleText,
    Procedure, Query, SortDirection, SortKey, SortSpecification,
};
use std::alloc::Global;

#[tactic(auto, unfolding(sq_grammar::specs::Module::declaration_if_any))]
fn declaration_if_any(tokens: &mut Reader<'_>) -> Result<Option<Declaration>, Stop>
    ensures value { Reads (spec.declaration_if_any tokens.old) result tokens.new }
    ensures shorter { IfOk result (λ item. OnSome item (length tokens.new < length tokens.old)) }
    ensures no_longer { OnOk result (length tokens.new ≤ length tokens.old) }
{
    if tokens.eat(Symbol::Colon) {
        let name = tokens.name()?;
        let data_type = data_type(tokens)?;
        return Ok(Some(Declaration::Parameter(name, data_type)));
    }
    if tokens.eat_word(Word::Sqlcode) {
        return Ok(Some(Declaration::Sqlcode));
    }
    if tokens.eat_word(Word::Sqlstate) {
        return Ok(Some(Declaration::Sqlstate));
    }
    Ok(None)
}

#[tactic(auto, unfolding(sq_grammar::specs::Module::declaration))]
fn declaration(tokens: &mut Reader<'_>) -> Result<Declaration, Stop>
    ensures value { Reads (spec.declaration tokens.old) result tokens.new }
    ensures shorter { OnOk result (length tokens.new < length tokens.old) }
{
    match declaration_if_any(tokens)? {
        Some(declaration) => Ok(declaration),
        None => Err(tokens.stop()),
    }
}

/// `[ "," ] declaration`, if it comes.
#[tactic(auto, unfolding(sq_grammar::specs::Module::bare_declaration))]
fn bare_declaration(tokens: &mut Reader<'_>) -> Result<Option<BareDeclaration>, Stop>
    ensures value { Reads (spec.bare_declaration tokens.old) result tokens.new }
    ensures shorter { IfOk result (λ item. OnSome item (length tokens.new < length tokens.old)) }
    ensures no_longer { OnOk result (length tokens.new ≤ length tokens.old) }
{
    if tokens.eat(Symbol::Comma) {
        let declaration = declaration(tokens)?;
        return Ok(Some(BareDeclaration {
            comma: true,
            declaration,
        }));
    }
    match declaration_if_any(tokens)? {
        Some(declaration) => Ok(Some(BareDeclaration {
            comma: false,
            declaration,
        })),
        None => Ok(None),
    }
}

fn bracketed_declarations(
    alloc: Global,
    tokens: &mut Reader<'_>,
) -> Result<CommaList<Declaration>, Stop>
    ensures value { Reads (comma_separated spec.declaration tokens.old) result tokens.new }
    ensures shorter { OnOk result (length tokens.new < length tokens.old) }
{
    comma_list(alloc, tokens, declaration)
}

fn bare_declarations(alloc: Global, tokens: &mut Reader<'_>) -> Result<Items<BareDeclaration>, Stop>
    ensures value { Reads (all spec.bare_declaration tokens.old) result tokens.new }
    ensures no_longer { OnOk result (length tokens.new ≤ length tokens.old) }
{
    items(alloc, tokens, bare_declaration)
}

#[tactic(auto, unfolding(sq_grammar::specs::Module::declarations))]
fn declarations(alloc: Global, tokens: &mut Reader<'_>) -> Result<Declarations, Stop>
    ensures value { Reads (spec.declarations tokens.old) result tokens.new }
    ensures shorter { OnOk result (length tokens.new < length tokens.old) }
{
    if tokens.eat(Symbol::Open) {
        let declarations = bracketed_declarations(alloc, tokens)?;
        return match tokens.expect(Symbol::Close) {
            Ok(()) => Ok(Declarations::Bracketed(declarations)),
            Err(stop) => {
                drop(declarations);
                Err(stop)
            }
        };
    }
    let first = declaration(tokens)?;
    let rest = bare_declarations(alloc, tokens)?;
    Ok(Declarations::Bare(first, rest))
}

/// A procedure whose first word is read already.
#[tactic(auto, unfolding(sq_grammar::specs::Module::procedure))]
fn procedure(alloc: Global, tokens: &mut Reader<'_>, left: usize) -> Result<Procedure, Stop>
    requires some { 0 < left }
    requires small { left ≤ MAX_DEPTH }
    ensures value { Reads (spec.procedure left tokens.old) result tokens.new }
    ensures shorter { OnOk result (length tokens.new < length tokens.old) }
{
    let name = tokens.name()?;
    let declarations = declarations(alloc, tokens)?;
    if let Err(stop) = tokens.expect(Symbol::Semicolon) {
        drop(declarations);
        return Err(stop);
    }
    let statement = match statement(alloc, tokens, left) {
        Ok(statement) => statement,
        Err(stop) => {
            drop(declarations);
            return Err(stop);
        }
    };
    match tokens.expect(Symbol::Semicolon) {
        Ok(()) => Ok(Procedure {
            name,
            declarations,
            statement,
        }),
        Err(stop) => {
            drop(declarations);
            drop(statement);
            Err(stop)
        }
    }
}

#[tactic(auto, unfolding(sq_grammar::specs::Module::sort_key))]
fn sort_key(tokens: &mut Reader<'_>) -> Result<SortKey, Stop>
    ensures value { Reads (spec.sort_key tokens.old) result tokens.new }
    ensures shorter { OnOk result (length tokens.new < length tokens.old) }
{
    if let Some(number) = tokens.number_if_any() {
        return Ok(SortKey::Position(number));
    }
    let name = tokens.name()?;
    Ok(SortKey::Column(name))
}

fn direction_if_any(tokens: &mut Reader<'_>) -> Option<SortDirection>
    ensures value { spec.direction_if_any tokens.old ≡ Ok (result, tokens.new) }
    ensures no_longer { length tokens.new ≤ length tokens.old }
{
    if tokens.eat_word(Word::Asc) {
        return Some(SortDirection::Asc);
    }
    if tokens.eat_word(Word::Desc) {
        return Some(SortDirection::Desc);
    }
    None
}

#[tactic(auto, unfolding(sq_grammar::specs::Module::sort_specification))]
fn sort_specification(tokens: &mut Reader<'_>) -> Result<SortSpecification, Stop>
    ensures value { Reads (spec.sort_specification tokens.old) result tokens.new }
    ensures shorter { OnOk result (length tokens.new < length tokens.old) }
{
    let key = sort_key(tokens)?;
    let direction = direction_if_any(tokens);
    Ok(SortSpecification { key, direction })
}

fn sorts(alloc: Global, tokens: &mut Reader<'_>) -> Result<CommaList<SortSpecification>, Stop>
    ensures value { Reads (comma_separated spec.sort_specification tokens.old) result tokens.new }
    ensures shorter { OnOk result (length tokens.new < length tokens.old) }
{
    comma_list(alloc, tokens, sort_specification)
}

#[tactic(auto, unfolding(sq_grammar::specs::Module::order_by, sq_grammar::specs::Module::by_sorts))]
fn order_by(
    alloc: Global,
    tokens: &mut Reader<'_>,
) -> Result<Option<CommaList<SortSpecification>>, Stop>
    ensures value { Reads (spec.order_by tokens.old) result tokens.new }
    ensures no_longer { OnOk result (length tokens.new ≤ length tokens.old) }
{
    if !tokens.eat_word(Word::Order) {
        return Ok(None);
    }
    tokens.expect_word(Word::By)?;
    let sorts = sorts(alloc, tokens)?;
    Ok(Some(sorts))
}

#[tactic(auto, unfolding(sq_grammar::specs::Module::ordered_query))]
fn ordered_query(
    alloc: Global,
    tokens: &mut Reader<'_>,
    left: usize,
) -> Result<(Query, Option<CommaList<SortSpecification>>), Stop>
    requires { left ≤ MAX_DEPTH }
    ensures value { Reads (spec.ordered_query left tokens.old) result tokens.new }
    ensures shorter { OnOk result (length tokens.new < length tokens.old) }
{
    let query = query(alloc, tokens, left)?;
    match order_by(alloc, tokens) {
        Ok(order_by) => Ok((query, order_by)),
        Err(stop) => {
            drop(query);
            Err(stop)
        }
    }
}

/// A cursor whose first word is read already.
#[tactic(auto, unfolding(sq_grammar::specs::Module::cursor))]
fn cursor(alloc: Global, tokens: &mut Reader<'_>, left: usize) -> Result<Cursor, Stop>
    requires { left ≤ MAX_DEPTH }
    ensures value { Reads (spec.cursor left tokens.old) result tokens.new }
    ensures shorter { OnOk result (length tokens.new < length tokens.old) }
{
    let name = tokens.name()?;
    let insensitive = tokens.eat_word(Word::Insensitive);
    let scroll = tokens.eat_word(Word::Scroll);
    tokens.expect_word(Word::Cursor)?;
    tokens.expect_word(Word::For)?;
    let (query, order_by) = ordered_query(alloc, tokens, left)?;
    let semicolon = tokens.eat(Symbol::Semicolon);
    Ok(Cursor {
        name,
        insensitive,
        scroll,
        query,
        order_by,
        semicolon,
    })
}

/// A cursor or a procedure, if one comes.
#[tactic(auto, unfolding(sq_grammar::specs::Module::item))]
fn item(alloc: Global, tokens: &mut Reader<'_>, left: usize) -> Result<Option<ModuleItem>, Stop>
    requires some { 0 < left }
    requires small { left ≤ MAX_DEPTH }
    ensures value { Reads (spec.item left tokens.old) result tokens.new }
    ensures shorter { IfOk result (λ item. OnSome item (length tokens.new < length tokens.old)) }
    ensures no_longer { OnOk result (length tokens.new ≤ length tokens.old) }
{
    if tokens.eat_word(Word::Declare) {
        let cursor = cursor(alloc, tokens, left)?;
        return Ok(Some(ModuleItem::Cursor(cursor)));
    }
    if tokens.eat_word(Word::Procedure) {
        let procedure = procedure(alloc, tokens, left)?;
        return Ok(Some(ModuleItem::Procedure(procedure)));
    }
    Ok(None)
}

fn all_items(alloc: Global, tokens: &mut Reader<'_>, left: usize) -> Result<Items<ModuleItem>, Stop>
    requires some { 0 < left }
    requires small { left ≤ MAX_DEPTH }
    ensures value { Reads (all (spec.item left) tokens.old) result tokens.new }
    ensures no_longer { OnOk result (length tokens.new ≤ length tokens.old) }
{
    items(alloc, tokens, |tokens| item(alloc, tokens, left))
}

#[tactic(auto, unfolding(sq_grammar::specs::Module::module_text))]
fn module_text(alloc: Global, tokens: &mut Reader<'_>, left: usize) -> Result<ModuleText, Stop>
    requires some { 0 < left }
    requires small { left ≤ MAX_DEPTH }
    ensures { Reads (spec.module_text left tokens.old) result tokens.new }
{
    tokens.expect_word(Word::Module)?;
    let name = tokens.name()?;
    tokens.expect_word(Word::Language)?;
    let language = tokens.name()?;
    tokens.expect_word(Word::Authorization)?;
    let authorization = tokens.name()?;
    let items = all_items(alloc, tokens, left)?;
    Ok(ModuleText {
        name,
        language,
        authorization,
        items,
    })
}

/// All of a module text.
pub fn whole_module(alloc: Global, tokens: &mut Reader<'_>, left: usize) -> Result<ModuleText, Stop>
    requires some { 0 < left }
    requires small { left ≤ MAX_DEPTH }
    ensures { Reads (whole (spec.module_text left) tokens.old) result tokens.new }
{
    let text = module_text(alloc, tokens, left)?;
    tokens.end(text)
}

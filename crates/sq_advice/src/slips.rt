//! Doubts about a module: a parameter that no statement uses, a cursor that is never fetched, and a target
//! without an indicator for a column that may be null.

use crate::advice::Advice;
use crate::element::{begins_at, element_of};
use crate::item::Part;
use crate::kind::TextKind;
use crate::meaning::{Module, place_of};
use crate::names::{
    index_after, index_before, is_name, is_parameter, is_symbol, is_type, is_word, name_at,
};
use crate::nullable::{lacks_indicator, targets_of};
use crate::text::Text;
use indexmap::IndexSet;
use sq_lex::{Name, Symbol, Token, Word};
use std::alloc::{AllocError, Global};

/// A doubt about a part of a module.
#[derive(Clone, Copy, Debug, PartialEq, Eq)]
pub enum Doubt {
    /// No statement uses the parameter.
    UnusedParameter,
    /// No procedure fetches from the cursor.
    NeverFetched,
    /// A null may come into the target, and no indicator is given.
    NoIndicator,
}

/// A doubt about a part of a module, and the words about it.
#[derive(Drop)]
pub struct Slip {
    pub doubt: Doubt,
    pub part: Part,
    /// The first byte of the part.
    pub start: usize,
    /// The parameter or the cursor.
    pub name: Name,
    pub advice: Advice,
}

/// The doubts about a module, in the order of its text.
pub fn slips_of(alloc: Global, module: &Module<'_, '_>) -> Result<Vec<Slip>, AllocError> {
    let mut slips = Vec::new(alloc);
    let tokens = module.source.tokens.as_slice();
    let Some(owner) = name_at(tokens, 1) else {
        return Ok(slips);
    };
    let fetched = list_fetched(alloc, tokens)?;
    for index in 0..tokens.len() {
        if is_part(module, index) {
            add_slips(alloc, module, owner, index, &fetched, &mut slips)?;
        }
    }
    drop(fetched);
    Ok(slips)
}

/// Whether a cursor or a procedure without an error begins at the token of this number.
fn is_part(module: &Module<'_, '_>, index: usize) -> bool {
    match module.source.tokens.get(index) {
        Some(token) => {
            begins_at(TextKind::Module, module.source.tokens.as_slice(), index)
                && !module.source.is_passed(token.start)
        }
        None => false,
    }
}

/// The cursors that some procedure fetches from.
fn list_fetched(alloc: Global, tokens: &[Token]) -> Result<IndexSet<Name>, AllocError> {
    let mut fetched = IndexSet::new(alloc);
    for index in 0..tokens.len() {
        if let Some(name) = fetched_cursor_at(tokens, index) {
            fetched.insert(name)?;
        }
    }
    Ok(fetched)
}

/// The cursor whose name in a FETCH is the token of this number.
fn fetched_cursor_at(tokens: &[Token], index: usize) -> Option<Name> {
    let is_behind = is_word(tokens, index_before(index), Word::From)
        || is_word(tokens, index_before(index), Word::Fetch);
    if is_behind && is_word(tokens, index_after(index), Word::Into) {
        name_at(tokens, index)
    } else {
        None
    }
}

/// Adds what may be wrong with the part that begins at the token of this number.
fn add_slips(
    alloc: Global,
    module: &Module<'_, '_>,
    owner: Name,
    first: usize,
    fetched: &IndexSet<Name>,
    slips: &mut Vec<Slip>,
) -> Result<(), AllocError> {
    let part = element_of(TextKind::Module, module.source.tokens.as_slice(), first);
    let Some(name) = name_at(part, 1) else {
        return Ok(());
    };
    let named = Part { owner, name };
    if !is_word(part, 0, Word::Declare) {
        add_unused(alloc, module, &named, part, slips)?;
        return add_unindicated(alloc, module, &named, part, slips);
    }
    if !fetched.contains(&name) {
        slips.push(slip_at(alloc, module, &named, part, 1, Doubt::NeverFetched)?)?;
    }
    Ok(())
}

/// Adds each parameter of a procedure that no statement uses.
fn add_unused(
    alloc: Global,
    module: &Module<'_, '_>,
    named: &Part,
    part: &[Token],
    slips: &mut Vec<Slip>,
) -> Result<(), AllocError> {
    let opened = find_opened(module, part);
    for index in 0..part.len() {
        add_if_unused(alloc, module, named, part, opened, index, slips)?;
    }
    Ok(())
}

/// Adds the parameter that is declared at the token of this number, if it is one that is not used.
fn add_if_unused(
    alloc: Global,
    module: &Module<'_, '_>,
    named: &Part,
    part: &[Token],
    opened: &[Token],
    index: usize,
    slips: &mut Vec<Slip>,
) -> Result<(), AllocError> {
    if !is_unused(part, opened, index) {
        return Ok(());
    }
    let slip = slip_at(alloc, module, named, part, index, Doubt::UnusedParameter)?;
    slips.push(slip)?;
    Ok(())
}

/// Adds each target of a procedure into which a null may come, and that has no indicator.
fn add_unindicated(
    alloc: Global,
    module: &Module<'_, '_>,
    named: &Part,
    part: &[Token],
    slips: &mut Vec<Slip>,
) -> Result<(), AllocError> {
    let (into, end) = targets_of(part);
    for index in into..end {
        if lacks_indicator(module, part, into, index) {
            slips.push(slip_at(alloc, module, named, part, index, Doubt::NoIndicator)?)?;
        }
    }
    Ok(())
}

/// Whether a parameter is declared at the token of this number that neither the procedure nor the cursor that it opens uses.
fn is_unused(part: &[Token], opened: &[Token], index: usize) -> bool {
    match name_at(part, index) {
        Some(name) => is_declared(part, index) && !uses(part, name) && !uses(opened, name),
        None => false,
    }
}

/// Whether a parameter is declared at the token of this number.
fn is_declared(part: &[Token], index: usize) -> bool {
    is_parameter(part, index) && is_type(part, index_after(index))
}

/// Whether these tokens have a parameter of this name that they do not declare there.
fn uses(tokens: &[Token], name: Name) -> bool {
    (0..tokens.len()).any(|index| {
        is_name(tokens, index, name)
            && is_parameter(tokens, index)
            && !is_type(tokens, index_after(index))
    })
}

/// Finds the declaration of the cursor that a procedure opens; no tokens if it opens none.
fn find_opened<'m>(module: &'m Module<'_, '_>, part: &[Token]) -> &'m [Token] {
    let open = (0..part.len()).find(|index| is_word(part, *index, Word::Open));
    match name_at(part, index_after(open.unwrap_or(part.len()))) {
        Some(cursor) => module.declaration_of(cursor),
        None => &[],
    }
}

/// Makes the warning at a name of a part.
fn slip_at(
    alloc: Global,
    module: &Module<'_, '_>,
    named: &Part,
    part: &[Token],
    index: usize,
    doubt: Doubt,
) -> Result<Slip, AllocError> {
    let name = name_at(part, index).unwrap_or(named.name);
    let (start, length) = place_of(module.source.text.bytes, part.get(index));
    let first = place_of(module.source.text.bytes, part.first()).0;
    Ok(Slip {
        doubt,
        part: *named,
        start: first,
        name,
        advice: Advice {
            start,
            length,
            found: Vec::new(alloc),
            expected: Vec::new(alloc),
            hint: hint_on(alloc, module, part, name, doubt)?,
        },
    })
}

/// Makes the hint on a doubt: the name without a colon in the procedure, or in the cursor that it opens; or
/// how to fetch.
fn hint_on(
    alloc: Global,
    module: &Module<'_, '_>,
    part: &[Token],
    name: Name,
    doubt: Doubt,
) -> Result<Vec<u8>, AllocError> {
    let mut words = Vec::new(alloc);
    match doubt {
        Doubt::UnusedParameter => {}
        Doubt::NeverFetched => {
            words.extend_from_slice(b"FETCH is the statement of a procedure of its own")?;
            return Ok(words);
        }
        Doubt::NoIndicator => {
            words.extend_from_slice(b"a null answers 22002 here: write an indicator, as INTO :")?;
            words.extend_from_slice(name.codes())?;
            words.extend_from_slice(b" INDICATOR :N")?;
            return Ok(words);
        }
    }
    let opened = find_opened(module, part);
    if let Some(token) = find_bare(part, name).or(find_bare(opened, name)) {
        add_bare(&mut words, alloc, &module.source.text, token, name)?;
    }
    Ok(words)
}

/// Adds that a name without a colon is a column.
fn add_bare(
    words: &mut Vec<u8>,
    alloc: Global,
    text: &Text<'_>,
    token: &Token,
    name: Name,
) -> Result<(), AllocError> {
    let place = text.place(token.start);
    let says = format!(in alloc;
        " at {}:{} is a column: the parameter is :",
        place.line, place.column
    )?;
    words.extend_from_slice(name.codes())?;
    words.extend_from_slice(says.as_bytes())?;
    words.extend_from_slice(name.codes())
}

/// Finds the first token that is a name without a colon, after the name of the part.
fn find_bare(tokens: &[Token], name: Name) -> Option<&Token> {
    let found = (0..tokens.len()).find(|index| is_bare(tokens, *index, name));
    tokens.get(found?)
}

fn is_bare(tokens: &[Token], index: usize, name: Name) -> bool {
    index > 1
        && is_name(tokens, index, name)
        && !is_symbol(tokens, index_before(index), Symbol::Colon)
        && !is_symbol(tokens, index_before(index), Symbol::Dot)
        && !is_set(tokens, index)
}

/// Whether a column is set at the token of this number, which a parameter cannot be.
fn is_set(tokens: &[Token], index: usize) -> bool {
    is_symbol(tokens, index_after(index), Symbol::Equal) && !is_compared(tokens, index)
}

/// Whether a comparison may begin at the token of this number: it is not after SET or a comma.
fn is_compared(tokens: &[Token], index: usize) -> bool {
    !is_word(tokens, index_before(index), Word::Set)
        && !is_symbol(tokens, index_before(index), Symbol::Comma)
}

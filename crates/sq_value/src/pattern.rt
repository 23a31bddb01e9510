//! LIKE.

ghost use Rattle.std.specs.Prelude.{◌≡◌, ◌<◌, ◌+◌, ◌-◌, [], ◌&&◌, ◌||◌, ◌∷◌, ℕ, List, length, slice_index, slice_index_or, MatchResult, IsTrue, ◌↔◌, Ok, Err, false};
ghost use Rattle.std.specs.Option.{option_copied};
ghost use Rattle.sq_value.specs.Pattern.{liked, one_code, may_be_escaped, is_escape, plain, pattern_items, cut_as_read, can_be_cut, CanBeCut};
ghost use Rattle.sq_value.specs.private.Pattern.{takes, AreCuts, AreCutsAsRead};

use crate::fault::LikeFault;
use crate::text::Text;
use crate::truth::Truth;
use crate::value::Value;

/// An item of a pattern.
#[derive(Clone, Copy)]
pub enum Item {
    /// Any run of codes, also none.
    AnyRun,
    /// Any one code.
    AnyOne,
    /// This code.
    This(u8),
}

/// LIKE (ISO/IEC 9075:1992, 8.5): whether the text fits the pattern, without padding.
///
/// It is unknown if an operand is null, before any fault. `EscapeLength` comes next, if the escape character is no text
/// of one code. Then comes `EscapeSequence`, if the escape character is before a code other than `%`, `_` and itself, or
/// at the pattern's end.
///
/// It takes time bounded by the product of the two lengths, and no memory.
pub fn like(text: &Value, pattern: &Value, escape: Option<&Value>) -> Result<Truth, LikeFault>
    ensures answer { result ≡ liked text.now pattern.now (option_copied escape.entry) }
    ensures cutting { (items : List Item) (codes : List ℕ) → IsTrue (can_be_cut items codes)
        ↔ CanBeCut items codes }
{
    liked(text, pattern, escape)
}

fn liked(text: &Value, pattern: &Value, escape: Option<&Value>) -> Result<Truth, LikeFault>
    ensures { result ≡ liked text.now pattern.now (option_copied escape.entry) }
{
    let (Value::Chars(text), Value::Chars(pattern)) = (text, pattern) else {
        return Ok(Truth::Unknown);
    };
    match escape {
        None => matched(text, pattern, None),
        Some(Value::Chars(escape)) => {
            let code = one_code(escape.codes())?;
            matched(text, pattern, Some(code))
        }
        Some(_) => Ok(Truth::Unknown),
    }
}

/// The only code of an escape character.
fn one_code(codes: &[u8]) -> Result<u8, LikeFault>
    ensures { MatchResult result (λ code. one_code codes.now ≡ Ok (Some code))
        (λ fault. one_code codes.now ≡ Err fault) }
{
    match codes {
        [code] => Ok(*code),
        _ => Err(LikeFault::EscapeLength),
    }
}

/// Whether the text can be cut by the pattern's items.
fn matched(text: &Text, pattern: &Text, escape: Option<u8>) -> Result<Truth, LikeFault>
    ensures { result ≡ cut_as_read text.now (pattern_items escape pattern.now) }
{
    let text = text.codes();
    let mut places = [false; 241];
    let cuts = &mut places[..text.len() + 1];
    cut_by_items(pattern.codes(), escape, text, cuts)?;
    Ok(Truth::from(cuts[0]))
}

/// Sets, for each place of the text, whether the rest of the text from there on can be cut by the pattern's items.
fn cut_by_items(
    pattern: &[u8],
    escape: Option<u8>,
    text: &[u8],
    cuts: &mut [bool],
) -> Result<(), LikeFault>
    requires { length cuts.old ≡ length text.now + 1 }
    ensures { MatchResult result (λ _. AreCutsAsRead (pattern_items escape pattern.now) text.now cuts.new)
        (λ fault. pattern_items escape pattern.now ≡ Err fault) }
{
    let Some((code, rest)) = pattern.split_first() else {
        cut_by_nothing(cuts);
        return Ok(());
    };
    if !is_escape(escape, *code) {
        cut_by_items(rest, escape, text, cuts)?;
        put_before(plain(*code), text, cuts);
        return Ok(());
    }
    match rest.split_first() {
        Some((escaped, rest)) if may_be_escaped(escape, *escaped) => {
            cut_by_items(rest, escape, text, cuts)?;
            put_before(Item::This(*escaped), text, cuts);
            Ok(())
        }
        _ => Err(LikeFault::EscapeSequence),
    }
}

/// The item of a code that is not escaped.
fn plain(code: u8) -> Item
    ensures { result ≡ plain code }
{
    match code {
        b'%' => Item::AnyRun,
        b'_' => Item::AnyOne,
        _ => Item::This(code),
    }
}

fn is_escape(escape: Option<u8>, code: u8) -> bool
    ensures { result ≡ is_escape escape code }
{
    match escape {
        Some(escape) => code == escape,
        None => false,
    }
}

fn may_be_escaped(escape: Option<u8>, code: u8) -> bool
    ensures { result ≡ may_be_escaped escape code }
{
    code == b'%' || code == b'_' || is_escape(escape, code)
}

/// Without items only the text's end can be cut.
fn cut_by_nothing(cuts: &mut [bool])
    requires { 0 < length cuts.old }
    ensures { (text : List ℕ) → length cuts.old ≡ length text + 1 → AreCuts [] text cuts.new }
{
    for cut in cuts.iter_mut() {
        *cut = false;
    }
    let end = cuts.len() - 1;
    cuts[end] = true;
}

/// Puts one item more before the items by which the text was cut.
fn put_before(item: Item, text: &[u8], cuts: &mut [bool])
    requires { length cuts.old ≡ length text.now + 1 }
    ensures { (items : List Item) → AreCuts items text.now cuts.old
        → AreCuts (item ∷ items) text.now cuts.new }
{
    match item {
        Item::AnyRun => put_any_run(cuts),
        _ => put_one_code(item, text, cuts),
    }
}

/// A run ends at once, or takes the code here and goes on.
fn put_any_run(cuts: &mut [bool])
    requires { 0 < length cuts.old }
    ensures same_end { slice_index_or cuts.new (length cuts.old - 1) false
        ≡ slice_index_or cuts.old (length cuts.old - 1) false }
    ensures each { (k : ℕ) → k + 1 < length cuts.old
        → slice_index_or cuts.new k false
        ≡ (slice_index_or cuts.old k false || slice_index_or cuts.new (k + 1) false) }
{
    for place in (0..cuts.len() - 1).rev() {
        cuts[place] = cuts[place] || cuts[place + 1];
    }
}

/// Takes one code here, if one fits.
fn put_one_code(item: Item, text: &[u8], cuts: &mut [bool])
    requires { length cuts.old ≡ length text.now + 1 }
    ensures no_end { slice_index_or cuts.new (length text.now) false ≡ false }
    ensures each { (k : ℕ) → k < length text.now
        → slice_index_or cuts.new k false
        ≡ (takes item (slice_index text.now k) && slice_index_or cuts.old (k + 1) false) }
{
    for place in 0..text.len() {
        cuts[place] = item.takes(text[place]) && cuts[place + 1];
    }
    cuts[text.len()] = false;
}

impl Item {
    /// Whether an item of one code takes this one.
    fn takes(self, code: u8) -> bool
        ensures { result ≡ takes self code }
    {
        match self {
            Item::AnyRun => false,
            Item::AnyOne => true,
            Item::This(this) => code == this,
        }
    }
}

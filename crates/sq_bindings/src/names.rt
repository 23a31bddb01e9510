//! The names of modules, procedures and parameters in C and in COBOL.
ghost use Rattle.std.specs.Prelude.{◌≡◌, IfOk, bytes_eq, map, nat_eq};
ghost use Rattle.std.specs.List.{ends_with, list_any};
ghost use Rattle.sq_bindings.specs.Names as spec;

use sq_lex::Name;
use std::alloc::{AllocError, Global};

/// Whether a text is one of some words.
fn is_among(words: &[&[u8]], text: &[u8]) -> bool
    ensures { result ≡ spec.is_among (spec.listed words.now) text.now }
{
    has_word(words, text)
}

fn has_word(words: &[&[u8]], text: &[u8]) -> bool
    ensures { result ≡ list_any (λ word. bytes_eq word.now text.now) words.now }
{
    words.iter().any(|word| *word == text)
}

/// Whether a text ends with one of some words.
fn ends_with_any(words: &[&[u8]], text: &[u8]) -> bool
    ensures { result ≡ spec.ends_with_any (spec.listed words.now) text.now }
{
    has_end(words, text)
}

fn has_end(words: &[&[u8]], text: &[u8]) -> bool
    ensures { result ≡ list_any (λ word. ends_with nat_eq text.now word.now) words.now }
{
    words.iter().any(|word| text.ends_with(word))
}

/// The ends of the names that the parts of a parameter have in C, and the end of a name that was in use.
const C_ENDS: [&[u8]; 3] = [b"_", b"_length", b"_size"];

/// The ends of the names in COBOL of the parts of a parameter and the group of a module, and of a name that
/// was in use.
const COBOL_ENDS: [&[u8]; 5] = [b"-", b"-SQL", b"-LENGTH", b"-DIGITS", b"-MODULE"];

/// How the names of sqmod.h begin, and of the copybook.
const C_START: &[u8] = b"sqmod_";

const COBOL_START: &[u8] = b"SQMOD-";

/// The end of a name that is in use.
const C_ESCAPE: &[u8] = b"_";

const COBOL_ESCAPE: &[u8] = b"-SQL";

fn is_used_in_c(words: &[&[u8]], text: &[u8]) -> bool
    ensures { result ≡ spec.is_used_in_c (spec.listed words.now) text.now }
{
    is_among(words, text) || text.starts_with(C_START)
}

fn is_used_in_cobol(words: &[&[u8]], text: &[u8]) -> bool
    ensures { result ≡ spec.is_used_in_cobol (spec.listed words.now) text.now }
{
    is_among(words, text) || text.starts_with(COBOL_START) || ends_with_any(&COBOL_ENDS, text)
}

/// Puts an escape after a name that is in use.
fn escape_if_used(mut name: Vec<u8>, is_used: bool, escape: &[u8]) -> Result<Vec<u8>, AllocError>
    ensures { IfOk result (λ text. text.items ≡ spec.escaped name.items is_used escape.now) }
{
    if is_used {
        name.extend_from_slice(escape)?;
    }
    Ok(name)
}

fn lower(alloc: Global, codes: &[u8]) -> Result<Vec<u8>, AllocError>
    ensures { IfOk result (λ text. text.items ≡ spec.lower codes.now) }
{
    codes
        .iter()
        .map(|code| code.to_ascii_lowercase())
        .collect(alloc)
}

/// Makes the name of a parameter in C.
pub(crate) fn c_parameter(alloc: Global, words: &[&[u8]], name: Name) -> Result<Vec<u8>, AllocError>
    ensures { IfOk result (λ text. text.items ≡ spec.c_parameter (spec.listed words.now) name) }
{
    let text = lower(alloc, name.codes())?;
    let is_used = is_used_in_c(words, text.as_slice()) || ends_with_any(&C_ENDS, text.as_slice());
    escape_if_used(text, is_used, C_ESCAPE)
}

/// Makes the name of the function of a procedure in C.
#[tactic(auto, using(std::proofs::lemmas::Grind::common_steps))]
pub(crate) fn c_function(
    alloc: Global,
    words: &[&[u8]],
    owner: Name,
    procedure: Name,
) -> Result<Vec<u8>, AllocError>
    ensures { IfOk result (λ text. text.items ≡ spec.c_function (spec.listed words.now) owner procedure) }
{
    let mut text = lower(alloc, owner.codes())?;
    let rest = lower(alloc, procedure.codes())?;
    text.push(b'_')?;
    text.extend_from_slice(rest.as_slice())?;
    let is_used = is_used_in_c(words, text.as_slice());
    escape_if_used(text, is_used, C_ESCAPE)
}

/// A letter of a name in COBOL.
fn cobol_code(code: u8) -> u8
    ensures { result ≡ spec.cobol_code code }
{
    if code == b'_' { b'-' } else { code }
}

fn hyphenate(alloc: Global, codes: &[u8]) -> Result<Vec<u8>, AllocError>
    ensures { IfOk result (λ text. text.items ≡ map spec.cobol_code codes.now) }
{
    codes.iter().map(|code| cobol_code(*code)).collect(alloc)
}

/// Makes a name in COBOL.
pub(crate) fn cobol_name(alloc: Global, words: &[&[u8]], name: Name) -> Result<Vec<u8>, AllocError>
    ensures { IfOk result (λ text. text.items ≡ spec.cobol_name (spec.listed words.now) name) }
{
    let text = hyphenate(alloc, name.codes())?;
    let is_used = is_used_in_cobol(words, text.as_slice());
    escape_if_used(text, is_used, COBOL_ESCAPE)
}

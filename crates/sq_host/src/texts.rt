//! Texts that are kept, and lines that are made of faults.

ghost use Rattle.std.specs.Prelude.{◌≡◌, [], ◌∷◌, ◌++◌, IfOk, OnErr};
ghost use Rattle.sq_exchange.specs.declared.answer.Answer.TheVariants.{Done, NoMemory};
ghost use Rattle.sq_host.specs.Told.{fault_words, rule_name};
ghost use Rattle.sq_run.specs.Opens.{IsOfTexts};
ghost use Rattle.sq_run.specs.Texts as spec;

use sq_exchange::Answer;
use sq_meaning::BindingFault;
use sq_run::{Fault, Refusal, RunFault};
use std::alloc::{AllocError, Global};

/// Adds a copy of a text.
pub(crate) fn add_text(alloc: Global, texts: &mut Vec<Vec<u8>>, text: &[u8]) -> Answer
    ensures answer { ¬ (result ≡ NoMemory) → result ≡ Done }
    ensures added { result ≡ Done → spec.texts texts.new.items ≡ spec.texts texts.old.items ++ text.now ∷ [] }
    ensures none { ¬ (result ≡ Done) → spec.texts texts.new.items ≡ spec.texts texts.old.items }
{
    match push_copy(alloc, texts, text) {
        Ok(()) => Answer::Done,
        Err(_) => Answer::NoMemory,
    }
}

fn push_copy(alloc: Global, texts: &mut Vec<Vec<u8>>, text: &[u8]) -> Result<(), AllocError>
    ensures added { IfOk result
        (λ _. spec.texts texts.new.items ≡ spec.texts texts.old.items ++ text.now ∷ []) }
    ensures none { OnErr result (spec.texts texts.new.items ≡ spec.texts texts.old.items) }
{
    let text = Vec::from_slice(alloc, text)?;
    texts.push(text)?;
    Ok(())
}

/// The line of a refusal: the kind of the text and its number among those, from 1, the place, and the name.
pub(crate) fn line_of(alloc: Global, fault: RunFault) -> Result<Vec<u8>, AllocError>
    ensures { IfOk result (λ _. IsOfTexts fault) }
{
    match fault {
        RunFault::SchemaRefused(refusal) => line_with(alloc, "schema", refusal),
        RunFault::ModuleRefused(refusal) => line_with(alloc, "module", refusal),
        RunFault::ScriptRefused(refusal) => line_with(alloc, "script", refusal),
        RunFault::Write(_) | RunFault::NoMemory(_) => Err(AllocError),
    }
}

fn line_with(alloc: Global, kind: &str, refusal: Refusal) -> Result<Vec<u8>, AllocError> {
    let text = refusal.text as u128 + 1;
    let line = refusal.line;
    let column = refusal.column;
    let what = refusal.what;
    let line = format!(in alloc; "{kind} {text}:{line}:{column}: {what}")?;
    Vec::from_slice(alloc, line.as_bytes())
}

/// Makes the words of a fault: the name of its rule, and after a blank the name that it is about, if there is
/// one.
pub(crate) fn words_of(alloc: Global, fault: Fault) -> Result<Vec<u8>, AllocError>
    ensures { IfOk result (λ words. words.items ≡ fault_words fault) }
{
    let mut words = Vec::from_slice(alloc, rule_name(fault.rule))?;
    if let Some(about) = fault.about {
        words.push(b' ')?;
        words.extend_from_slice(about.codes())?;
    }
    Ok(words)
}

fn rule_name(rule: BindingFault) -> &'static [u8]
    ensures { result.now ≡ rule_name rule }
{
    match rule {
        BindingFault::UnknownTable => b"UnknownTable",
        BindingFault::UnknownColumn => b"UnknownColumn",
        BindingFault::AmbiguousName => b"AmbiguousName",
        BindingFault::KindMismatch => b"KindMismatch",
        BindingFault::LimitExceeded => b"LimitExceeded",
        BindingFault::MisplacedSetFunction => b"MisplacedSetFunction",
        BindingFault::UngroupedColumn => b"UngroupedColumn",
        BindingFault::CountMismatch => b"CountMismatch",
        BindingFault::BadSortKey => b"BadSortKey",
        BindingFault::UnknownParameter => b"UnknownParameter",
        BindingFault::BadIndicator => b"BadIndicator",
        BindingFault::TargetTwice => b"TargetTwice",
        BindingFault::NotUpdatable => b"NotUpdatable",
        BindingFault::ColumnTwice => b"ColumnTwice",
        BindingFault::UnknownCursor => b"UnknownCursor",
        BindingFault::BadOrientation => b"BadOrientation",
        BindingFault::PrivilegeMissing => b"PrivilegeMissing",
    }
}

//! Texts in which elements with an error are passed over, and the judgement on the rest.

ghost use Rattle.std.specs.Prelude.{◌≡◌, IfOk, IfSome};
ghost use Rattle.sq_perform.specs.Texts.{texts};
ghost use Rattle.sqmod.specs.Judged as spec;

use crate::check::{Checking, check_sources};
use crate::fault::Fault;
use crate::refusals::{is_of_tokens, write_refusal};
use crate::texts::Sources;
use sq_advice::{TextKind, Why, offset_of, pass_over};
use sq_perform::{Checked, Refusal, RefusalName};
use sq_words::Source;
use std::alloc::{AllocError, Global};

/// How many errors are passed over, at most.
const MOST: usize = 1000;

/// The rest of texts after elements with an error are passed over, and the lines about it.
#[derive(Drop)]
pub(crate) struct Judged {
    pub(crate) left: Sources,
    pub(crate) checked: Checked,
}

/// Passes over the refused parts of texts, one after the other, and adds each refusal for the meaning of a
/// text. Then it checks the rest. It answers nothing if the head of a text cannot be mended so.
#[tactic(auto, using(crate::proofs::Left::is_judged))]
pub(crate) fn judge(
    out: &mut Vec<u8>,
    alloc: Global,
    checking: &Checking<'_>,
) -> Result<Option<Judged>, AllocError>
    ensures { IfOk result (λ answer. IfSome answer (spec.IsJudged checking.now.sources.now)) }
{
    let mut left = copy_sources(alloc, checking.sources)?;
    for _ in 0..MOST {
        match check_sources(alloc, &left) {
            Ok(checked) => return Ok(Some(Judged { left, checked })),
            Err(fault) => {
                if !is_passed(out, alloc, checking, &mut left, fault)? {
                    return Ok(None);
                }
            }
        }
    }
    Ok(None)
}

/// Passes over what is refused, and says whether that can be done.
fn is_passed(
    out: &mut Vec<u8>,
    alloc: Global,
    checking: &Checking<'_>,
    left: &mut Sources,
    fault: Fault,
) -> Result<bool, AllocError>
    ensures { (all : _) → spec.AreSourcesLeft all left.old → spec.AreSourcesLeft all left.new }
{
    let Fault::Refused(source, refusal) = fault else {
        return Err(AllocError);
    };
    if !is_of_tokens(refusal.what) {
        write_refusal(out, alloc, checking, left, source, refusal)?;
    }
    match source {
        Source::Schema(index) => {
            pass_in(alloc, TextKind::Schema, &mut left.schemas, index, refusal)
        }
        Source::Module(index) => {
            pass_in(alloc, TextKind::Module, &mut left.modules, index, refusal)
        }
        Source::Script => Ok(false),
    }
}

/// Passes over what is refused of one of several texts, and says whether that can be done.
fn pass_in(
    alloc: Global,
    kind: TextKind,
    all: &mut Vec<Vec<u8>>,
    index: usize,
    refusal: Refusal,
) -> Result<bool, AllocError>
    ensures { (before : _) → spec.AreLeft before (texts all.old.items)
        → spec.AreLeft before (texts all.new.items) }
{
    if index >= all.len() {
        return Ok(false);
    }
    let text = all[index].as_slice();
    let at = offset_of(text, refusal.line, refusal.column);
    match pass_over(alloc, kind, text, at, why(refusal.what))? {
        Some(left) => {
            all[index] = left;
            Ok(true)
        }
        None => Ok(false),
    }
}

/// Tells whether a piece that is no token is refused, or a token, or an element.
fn why(what: RefusalName) -> Why {
    match what {
        RefusalName::Lexical(_) => Why::NoToken,
        RefusalName::Unexpected | RefusalName::TooDeep => Why::Token,
        _ => Why::Element,
    }
}

/// Copies texts.
fn copy_sources(alloc: Global, sources: &Sources) -> Result<Sources, AllocError>
    ensures { IfOk result (spec.AreSourcesLeft sources.now) }
{
    let schemas = copy_texts(alloc, sources.schemas.as_slice())?;
    match copy_texts(alloc, sources.modules.as_slice()) {
        Ok(modules) => Ok(Sources { schemas, modules }),
        Err(error) => {
            drop(schemas);
            Err(error)
        }
    }
}

fn copy_texts(alloc: Global, all: &[Vec<u8>]) -> Result<Vec<Vec<u8>>, AllocError>
    ensures { IfOk result (λ copy. texts copy.items ≡ texts all.now) }
{
    let mut copy = Vec::new(alloc);
    for text in all {
        copy.push(Vec::from_slice(alloc, text.as_slice())?)?;
    }
    Ok(copy)
}

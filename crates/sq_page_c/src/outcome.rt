//! The outcome of a run, and how it is put in a room.

ghost use Rattle.std.specs.Prelude.{◌≡◌, length, OnOk};
ghost use Rattle.sq_exchange.specs.Room.{with_text};
ghost use Rattle.sq_page_c.specs.Outcome.{IsOfStop};
ghost use Rattle.sq_page_c.specs.Shown.{answer_in};
ghost use Rattle.sq_run.specs.Opens.{IsOfTexts};

use sq_exchange::{Answer, put_text};
use sq_run::{Refusal, RunFault};
use std::alloc::{AllocError, Global};

/// The answer to a page, and the text that it is about: the report or the page, or the line of a refusal.
#[derive(Drop)]
pub(crate) struct Outcome {
    pub(crate) answer: Answer,
    pub(crate) text: Vec<u8>,
}

/// An outcome without a text.
pub(crate) fn without_text(alloc: Global, answer: Answer) -> Outcome
    ensures { result.answer ≡ answer }
{
    Outcome {
        answer,
        text: Vec::new(alloc),
    }
}

/// Makes the outcome of a run that stopped: the line of the refusal, or that memory ran out.
pub(crate) fn outcome_of_stop(alloc: Global, fault: RunFault) -> Outcome
    ensures { IsOfStop fault result.answer }
{
    match line_of(alloc, fault) {
        Ok(text) => Outcome {
            answer: Answer::Refused,
            text,
        },
        Err(_) => without_text(alloc, Answer::NoMemory),
    }
}

/// The line of a refusal.
fn line_of(alloc: Global, fault: RunFault) -> Result<Vec<u8>, AllocError>
    ensures { OnOk result (IsOfTexts fault) }
{
    match fault {
        RunFault::SchemaRefused(refusal) => line_with(alloc, "schema", refusal),
        RunFault::ModuleRefused(refusal) => line_with(alloc, "module", refusal),
        RunFault::ScriptRefused(refusal) => line_with(alloc, "script", refusal),
        RunFault::Write(_) | RunFault::NoMemory(_) => Err(AllocError),
    }
}

/// The kind of the text and its number among those, from 1, the place, and the name.
fn line_with(alloc: Global, kind: &str, refusal: Refusal) -> Result<Vec<u8>, AllocError> {
    let text = refusal.text as u128 + 1;
    let line = refusal.line;
    let column = refusal.column;
    let what = refusal.what;
    let line = format!(in alloc; "{kind} {text}:{line}:{column}: {what}")?;
    Vec::from_slice(alloc, line.as_bytes())
}

/// Puts an outcome's text in a room, and gives its answer, or that the room is too small.
pub(crate) fn put(outcome: &Outcome, room: &mut [u8], count: &mut usize) -> Answer
    ensures answer { result ≡ answer_in outcome.now room.old }
    ensures room { room.new ≡ with_text outcome.now.text.items room.old }
    ensures count { count.new ≡ length outcome.now.text.items }
{
    match put_text(outcome.text.as_slice(), room, count) {
        Answer::Done => outcome.answer,
        other => other,
    }
}

//! Scripts read part by part, so that the tokens and the tree of no more than a part are kept at once.

ghost use Rattle.std.specs.Prelude.{◌≡◌, ◌<◌, ◌≤◌, ◌++◌, All, IfOk, IfSome, List, length, take, true};
ghost use Rattle.sq_perform.specs.Asked.{AreAsked};
ghost use Rattle.sq_perform.specs.Lines.{AreLines};
ghost use Rattle.sq_perform.specs.Steps.{IsPrepared};
ghost use Rattle.sq_perform.specs.declared.action.Action.{Action as AnyAction};

use crate::action::Action;
use crate::prepare::actions_at_once;
use crate::texts::TextFault;
use sq_session::Session;
use sq_store::Store;
use std::alloc::{AllocError, Global};

/// A part has more bytes than this, unless it is the last one.
const LEAST_PART: usize = 65_536;

/// What the items of a script ask a session for, where the session takes each of its parts; `None` where it does not.
pub(crate) fn actions_by_parts<S: Store>(
    alloc: Global,
    session: &Session<S>,
    script: &[u8],
) -> Result<Option<Vec<Action>>, AllocError>
    ensures asked { IfOk result
        (λ found. IfSome found (λ actions. AreAsked session.now script.now actions.items)) }
    ensures prepared { IfOk result
        (λ found. IfSome found (λ actions. All (IsPrepared session.now) actions.items)) }
{
    let mut actions = Vec::new(alloc);
    let mut at = 0;
    while at < script.len() {
        let size = part_size(&script[at..]);
        if !add_part(alloc, session, &script[at..at + size], &mut actions)? {
            return Ok(None);
        }
        at += size;
    }
    Ok(Some(actions))
}

/// Adds what the items of a part ask for, and answers whether the session takes them.
fn add_part<S: Store>(
    alloc: Global,
    session: &Session<S>,
    part: &[u8],
    actions: &mut Vec<Action>,
) -> Result<bool, AllocError>
    ensures { IfOk result (λ taken. taken ≡ true → (more : List AnyAction)
        × AreAsked session.now part.now more × All (IsPrepared session.now) more
        × (actions.new.items ≡ actions.old.items ++ more)) }
{
    match actions_at_once(alloc, session, part) {
        Ok(mut more) => {
            actions.append(&mut more)?;
            Ok(true)
        }
        Err(TextFault::Refused(_)) => Ok(false),
        Err(TextFault::NoMemory) => Err(AllocError),
    }
}

/// How many bytes the first part of a text has. It ends with the first line that ends an item, from some bytes on.
fn part_size(text: &[u8]) -> usize
    requires some { 0 < length text.now }
    ensures within { (0 < result) × (result ≤ length text.now) }
    ensures lines { result < length text.now → AreLines (take result text.now) }
{
    for at in LEAST_PART..text.len() {
        if text[at] == b'\n' && ends_item(&text[..at]) {
            return at + 1;
        }
    }
    text.len()
}

/// Whether the last character of a line, but for CR, is a semicolon.
fn ends_item(line: &[u8]) -> bool {
    match line {
        [.., b';'] | [.., b';', b'\r'] => true,
        _ => false,
    }
}

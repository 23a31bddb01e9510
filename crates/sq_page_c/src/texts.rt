//! Texts that come one after the other.

ghost use Rattle.std.specs.Prelude.{◌≡◌, ◌++◌, ◌∷◌, [], IfOk, IfSome, OnOk};
ghost use Rattle.sq_page_c.specs.Texts.{AreTexts, pieces};
ghost use Rattle.sq_run.specs.Texts.{texts};

use std::alloc::{AllocError, Global};

/// The schemas and modules of a run.
#[derive(Drop)]
pub(crate) struct RunTexts {
    pub(crate) schemas: Vec<Vec<u8>>,
    pub(crate) modules: Vec<Vec<u8>>,
}

/// The schemas and modules of these lengths; none if memory runs out.
pub(crate) fn run_texts(
    alloc: Global,
    schemas: &[u8],
    schema_lengths: &[usize],
    modules: &[u8],
    module_lengths: &[usize],
) -> Option<RunTexts>
    ensures { IfSome result (AreTexts (pieces schema_lengths.now schemas.now)
        (pieces module_lengths.now modules.now)) }
{
    let Ok(schemas) = texts_of(alloc, schemas, schema_lengths) else {
        return None;
    };
    match texts_of(alloc, modules, module_lengths) {
        Ok(modules) => Some(RunTexts { schemas, modules }),
        Err(_) => {
            drop(schemas);
            None
        }
    }
}

/// Cuts bytes into the texts of these lengths, one after the other.
#[tactic(auto, using(std::proofs::lemmas::List::take_min, std::proofs::lemmas::List::drop_min))]
pub(crate) fn texts_of(
    alloc: Global,
    bytes: &[u8],
    lengths: &[usize],
) -> Result<Vec<Vec<u8>>, AllocError>
    ensures { IfOk result (λ found. texts found.items ≡ pieces lengths.now bytes.now) }
{
    let mut found = Vec::new(alloc);
    let mut left = bytes;
    for length in lengths {
        let (text, rest) = left.split_at((*length).min(left.len()));
        add_text(alloc, &mut found, text)?;
        left = rest;
    }
    Ok(found)
}

fn add_text(alloc: Global, found: &mut Vec<Vec<u8>>, text: &[u8]) -> Result<(), AllocError>
    ensures { OnOk result (texts found.new.items ≡ texts found.old.items ++ (text.now ∷ [])) }
{
    let text = Vec::from_slice(alloc, text)?;
    found.push(text)?;
    Ok(())
}

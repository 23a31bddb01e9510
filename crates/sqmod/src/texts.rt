//! The files of a request.
ghost use Rattle.std.specs.Prelude.{◌≡◌, ◌<◌, ◌+◌, length, IfErr, IfOk, OnOk};
ghost use Rattle.sqmod.specs.Request.{AreTexts, NamesFile, NamesOneOf};

use crate::fault::Fault;
use sq_words::{Request, Source};
use std::rt::Files;
use std::{fs, io};

/// The texts of a request, in the order of its files.
#[derive(Drop)]
pub(crate) struct Texts {
    pub(crate) schemas: Vec<Vec<u8>>,
    pub(crate) modules: Vec<Vec<u8>>,
    pub(crate) script: Vec<u8>,
}

/// The texts of schemas and modules, in the order of their files.
#[derive(Drop)]
pub(crate) struct Sources {
    pub(crate) schemas: Vec<Vec<u8>>,
    pub(crate) modules: Vec<Vec<u8>>,
}

/// Reads all files: schemas, modules, then the script.
pub(crate) fn read_texts<R: Files + AllocGlobal>(
    rt: &R,
    request: &Request<'_>,
) -> Result<Texts, Fault>
    ensures texts { IfOk result (AreTexts request.now) }
    ensures names { IfErr result (NamesFile request.now) }
{
    let sources = read_sources(rt, request.schemas.as_slice(), request.modules.as_slice())?;
    match fs::read(rt, request.script) {
        Ok(script) => Ok(Texts {
            schemas: sources.schemas,
            modules: sources.modules,
            script,
        }),
        Err(_) => {
            drop(sources);
            Err(Fault::Unread(Source::Script))
        }
    }
}

/// Reads files of schemas, then of modules.
pub(crate) fn read_sources<R: Files + AllocGlobal>(
    rt: &R,
    schemas: &[&str],
    modules: &[&str],
) -> Result<Sources, Fault>
    ensures schemas { IfOk result (λ s. length s.schemas.items ≡ length schemas.now) }
    ensures modules { IfOk result (λ s. length s.modules.items ≡ length modules.now) }
    ensures names { IfErr result (NamesOneOf (length schemas.now) (length modules.now)) }
{
    let schemas = match read_all(rt, schemas) {
        Ok(schemas) => schemas,
        Err(index) => return Err(Fault::Unread(Source::Schema(index))),
    };
    match read_all(rt, modules) {
        Ok(modules) => Ok(Sources { schemas, modules }),
        Err(index) => {
            drop(schemas);
            Err(Fault::Unread(Source::Module(index)))
        }
    }
}

/// Reads files in order. An error is the index of the first that can't be read, for any cause.
fn read_all<R: Files + AllocGlobal>(rt: &R, files: &[&str]) -> Result<Vec<Vec<u8>>, usize>
    ensures texts { IfOk result (λ texts. length texts.items ≡ length files.now) }
    ensures index { IfErr result (λ index. index < length files.now) }
{
    let mut texts = Vec::new(rt.alloc());
    for (index, file) in files.iter().enumerate() {
        if add_text(rt, file, &mut texts).is_err() {
            drop(texts);
            return Err(index);
        }
    }
    Ok(texts)
}

/// Adds the text of a file.
fn add_text<R: Files + AllocGlobal>(rt: &R, file: &str, texts: &mut Vec<Vec<u8>>) -> io::Result<()>
    ensures { OnOk result (length texts.new.items ≡ length texts.old.items + 1) }
{
    let text = fs::read(rt, file)?;
    texts.push(text)?;
    Ok(())
}

//! Prints the text that binds modules to a host's language on standard output.
ghost use Rattle.std.specs.Prelude.{◌≡◌, IfErr, IfOk, length};
ghost use Rattle.sq_perform.specs.Texts.{AllSpell, SpellsTree, texts};
ghost use Rattle.sq_tree.specs.Module.{module_tokens, module_depth};
ghost use Rattle.sqmod.specs.Bind.{Binds};
ghost use Rattle.sqmod.specs.declared.fault.Fault.TheVariants.{NoMemory};
ghost use Rattle.sqmod.specs.Request.{NamesCheckedFile, NamesOneOf};

use crate::fault::Fault;
use crate::report_checked;
use crate::request::fault_of;
use crate::texts::{Sources, read_sources};
use sq_bindings::{Host, Language, bind_modules, language_of, passes_of, words_in_use};
use sq_lex::lex;
use sq_parse::parse_module;
use sq_perform::check;
use sq_tree::ModuleText;
use sq_words::TextsRequest;
use std::alloc::{AllocError, Global};
use std::io::{self, Write};
use std::rt::Files;

/// Reads the modules, prints what binds them to a host's language, and gives the status to end with.
pub(crate) fn status_of_bind<R: Files + Print + Eprint + AllocGlobal>(
    rt: &R,
    host: Host,
    request: &TextsRequest<'_>,
) -> u8 {
    match read_and_bind(rt, host, request) {
        Ok(text) => status_of_text(rt, request, text.as_slice()),
        Err(fault) => report_checked(rt, request, fault),
    }
}

fn status_of_text<R: Print + Eprint>(rt: &R, request: &TextsRequest<'_>, text: &[u8]) -> u8 {
    match print_text(rt, text) {
        Ok(()) => 0,
        Err(_) => report_checked(rt, request, Fault::Output),
    }
}

fn print_text<R: Print>(rt: &R, text: &[u8]) -> io::Result<()> {
    let mut writer = io::writer(rt);
    writer.write_all(text)?;
    writer.flush()
}

/// Reads the modules of a request and binds them to a host's language. They are refused as a run refuses
/// them.
fn read_and_bind<R: Files + AllocGlobal>(
    rt: &R,
    host: Host,
    request: &TextsRequest<'_>,
) -> Result<Vec<u8>, Fault>
    ensures { IfErr result (NamesCheckedFile request.now) }
{
    let sources = read_sources(rt, request.schemas.as_slice(), request.modules.as_slice())?;
    let answer = bind_to(rt.alloc(), host, &sources);
    drop(sources);
    answer
}

/// Binds modules to a host's language, by its templates, which keep off the words that are in use there.
fn bind_to(alloc: Global, host: Host, sources: &Sources) -> Result<Vec<u8>, Fault>
    ensures { IfErr result
        (NamesOneOf (length sources.now.schemas.items) (length sources.now.modules.items)) }
{
    match words_in_use(alloc, host) {
        Ok(words) => {
            let answer = bind_with_words(alloc, host, words.as_slice(), sources);
            drop(words);
            answer
        }
        Err(_) => Err(Fault::NoMemory(0)),
    }
}

fn bind_with_words(
    alloc: Global,
    host: Host,
    words: &[&[u8]],
    sources: &Sources,
) -> Result<Vec<u8>, Fault>
    ensures { IfErr result
        (NamesOneOf (length sources.now.schemas.items) (length sources.now.modules.items)) }
{
    match passes_of(alloc, host) {
        Ok(passes) => {
            let language = language_of(host, words, passes.as_slice());
            let answer = bind_sources(alloc, &language, sources);
            drop(passes);
            answer
        }
        Err(_) => Err(Fault::NoMemory(0)),
    }
}

/// Refuses the modules as a run without schemas does, and binds them.
#[tactic(auto, using(crate::proofs::Named::checked_one))]
fn bind_sources(alloc: Global, language: &Language<'_>, sources: &Sources) -> Result<Vec<u8>, Fault>
    ensures bound { IfOk result (Binds language.now (texts sources.now.modules.items)) }
    ensures names { IfErr result
        (NamesOneOf (length sources.now.schemas.items) (length sources.now.modules.items)) }
{
    match check(
        alloc,
        sources.schemas.as_slice(),
        sources.modules.as_slice(),
    ) {
        Ok(checked) => {
            drop(checked);
            bind_module_texts(alloc, language, sources.modules.as_slice())
        }
        Err(fault) => Err(fault_of(fault)),
    }
}

fn bind_module_texts(
    alloc: Global,
    language: &Language<'_>,
    modules: &[Vec<u8>],
) -> Result<Vec<u8>, Fault>
    ensures bound { IfOk result (Binds language.now (texts modules.now)) }
    ensures memory { IfErr result (λ fault. fault ≡ NoMemory 0) }
{
    match bind_texts(alloc, language, modules) {
        Ok(text) => Ok(text),
        Err(_) => Err(Fault::NoMemory(0)),
    }
}

/// Binds module texts, none of which is refused.
fn bind_texts(
    alloc: Global,
    language: &Language<'_>,
    modules: &[Vec<u8>],
) -> Result<Vec<u8>, AllocError>
    ensures { IfOk result (Binds language.now (texts modules.now)) }
{
    let trees = trees_of(alloc, modules)?;
    let text = bind_modules(alloc, language, trees.as_slice());
    drop(trees);
    text
}

/// Reads the trees of module texts, none of which is refused, so that memory alone can fail.
fn trees_of(alloc: Global, modules: &[Vec<u8>]) -> Result<Vec<ModuleText>, AllocError>
    ensures { IfOk result (λ trees. AllSpell module_tokens module_depth (texts modules.now) trees.items) }
{
    let mut trees = Vec::new(alloc);
    for text in modules {
        let tree = tree_of(alloc, text.as_slice())?;
        trees.push(tree)?;
    }
    Ok(trees)
}

fn tree_of(alloc: Global, text: &[u8]) -> Result<ModuleText, AllocError>
    ensures { IfOk result (SpellsTree module_tokens module_depth text.now) }
{
    match lex(alloc, text) {
        Ok(tokens) => match parse_module(alloc, tokens.as_slice()) {
            Ok(tree) => Ok(tree),
            Err(_) => Err(AllocError),
        },
        Err(_) => Err(AllocError),
    }
}

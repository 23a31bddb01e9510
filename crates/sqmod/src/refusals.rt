//! The refusals of texts that are checked, each with the token at its place, those that may be there, and a
//! hint.
use crate::check::Checking;
use crate::judged::{Judged, judge};
use crate::meanings::meaning_of;
use crate::remarks::{module_of, schemas_of, write_checked};
use crate::texts::Sources;
use sq_advice::{
    Advice, Form, Item, Schemas, Text, TextKind, Trouble, Weight, advice_on_schema, troubles_of,
    write_item,
};
use sq_perform::{ModuleFault, Refusal, RefusalName};
use sq_words::{Source, TextsRequest};
use std::alloc::{AllocError, Global};

/// The lines about texts of which one is refused.
#[derive(Drop)]
pub(crate) struct Told {
    /// The refusals.
    pub(crate) refusals: Vec<u8>,
    /// The lines about the elements without an error.
    pub(crate) judged: Vec<u8>,
}

impl Told {
    /// No lines.
    pub(crate) fn new(alloc: Global) -> Told {
        Told {
            refusals: Vec::new(alloc),
            judged: Vec::new(alloc),
        }
    }
}

/// Adds the refusal of a text first, then every other error of the texts, and the lines about the elements
/// without one.
pub(crate) fn write_refused(
    told: &mut Told,
    alloc: Global,
    checking: &Checking<'_>,
    source: Source,
    refusal: Refusal,
) -> Result<(), AllocError> {
    let is_script = matches!(source, Source::Script);
    if checking.form == Form::Lines || is_script && !is_of_tokens(refusal.what) {
        write_refusal(
            &mut told.refusals,
            alloc,
            checking,
            checking.sources,
            source,
            refusal,
        )?;
    }
    if checking.form == Form::Lines {
        return Ok(());
    }
    let mut meant = Vec::new(alloc);
    if !is_script {
        write_judged(&mut meant, &mut told.judged, alloc, checking)?;
    }
    if !is_of_tokens(refusal.what) {
        told.refusals.extend_from_slice(meant.as_slice())?;
    }
    write_all_troubles(&mut told.refusals, alloc, checking)?;
    if is_of_tokens(refusal.what) {
        told.refusals.extend_from_slice(meant.as_slice())?;
    }
    Ok(())
}

/// Adds the refusals of texts for their meaning. Then it adds the lines about the rest, after they and other
/// errors are passed over.
fn write_judged(
    refusals: &mut Vec<u8>,
    out: &mut Vec<u8>,
    alloc: Global,
    checking: &Checking<'_>,
) -> Result<(), AllocError> {
    let Some(judged) = judge(refusals, alloc, checking)? else {
        return Ok(());
    };
    let written = write_left(
        out,
        alloc,
        checking.request,
        checking.sources,
        checking.form,
        checking.ways,
        &judged,
    );
    drop(judged);
    written
}

/// Adds the lines about the rest of the texts.
fn write_left<'a>(
    out: &mut Vec<u8>,
    alloc: Global,
    request: &'a TextsRequest<'a>,
    sources: &'a Sources,
    form: Form,
    ways: bool,
    judged: &'a Judged,
) -> Result<(), AllocError> {
    let checking = Checking {
        request,
        sources,
        script: None,
        form,
        ways,
    };
    write_checked(out, alloc, &checking, &judged.left, &judged.checked)
}

/// Adds every error in the tokens and the grammar of the texts.
fn write_all_troubles(
    out: &mut Vec<u8>,
    alloc: Global,
    checking: &Checking<'_>,
) -> Result<(), AllocError> {
    let request = checking.request;
    let sources = checking.sources;
    for (file, text) in request.schemas.iter().zip(sources.schemas.as_slice()) {
        write_troubles(
            out,
            alloc,
            checking.form,
            TextKind::Schema,
            file,
            text.as_slice(),
        )?;
    }
    for (file, text) in request.modules.iter().zip(sources.modules.as_slice()) {
        write_troubles(
            out,
            alloc,
            checking.form,
            TextKind::Module,
            file,
            text.as_slice(),
        )?;
    }
    match checking.script {
        Some(script) => write_troubles(
            out,
            alloc,
            checking.form,
            TextKind::Script,
            script.file,
            script.text,
        ),
        None => Ok(()),
    }
}

/// Whether a text is refused for its tokens or its grammar.
pub(crate) fn is_of_tokens(what: RefusalName) -> bool {
    matches!(
        what,
        RefusalName::Lexical(_)
            | RefusalName::Unexpected
            | RefusalName::TooDeep
            | RefusalName::EndOfText
    )
}

/// The name of the file of one of the texts, and the text.
pub(crate) fn text_of<'a>(checking: &Checking<'a>, source: Source) -> Option<(&'a str, &'a [u8])> {
    let request = checking.request;
    let sources = checking.sources;
    match source {
        Source::Schema(index) => {
            text_at(
                request.schemas.as_slice(),
                sources.schemas.as_slice(),
                index,
            )
        }
        Source::Module(index) => {
            text_at(
                request.modules.as_slice(),
                sources.modules.as_slice(),
                index,
            )
        }
        Source::Script => match checking.script {
            Some(script) => Some((script.file, script.text)),
            None => None,
        },
    }
}

fn text_at<'a>(
    files: &'a [&'a str],
    texts: &'a [Vec<u8>],
    index: usize,
) -> Option<(&'a str, &'a [u8])> {
    let file = files.get(index)?;
    let text = texts.get(index)?;
    Some((*file, text.as_slice()))
}

/// Adds a refusal of a text for its meaning, with advice by the rest of the texts.
pub(crate) fn write_refusal(
    out: &mut Vec<u8>,
    alloc: Global,
    checking: &Checking<'_>,
    left: &Sources,
    source: Source,
    refusal: Refusal,
) -> Result<(), AllocError> {
    let Some((file, bytes)) = text_of(checking, source) else {
        return Ok(());
    };
    let text = Text::new(alloc, bytes)?;
    let says = format!(in alloc; "{}", refusal.what)?;
    let meaning = meaning_of(says.as_str(), part_of(source));
    let advice = match advise(alloc, checking, left, source, refusal)? {
        Some(advice) => advice,
        None => Advice::at(alloc, bytes, text.byte_at(refusal.line, refusal.column)),
    };
    let advice = advice.explain(meaning.as_bytes())?;
    let beside = Some(&advice);
    let item = Item {
        weight: Weight::Refusal,
        file,
        text: &text,
        line: refusal.line,
        column: refusal.column,
        part: None,
        says: says.as_str(),
        advice: beside,
    };
    write_item(out, alloc, &item, checking.form)
}

/// Makes the advice on the name that a refusal is about, if one is found.
fn advise(
    alloc: Global,
    checking: &Checking<'_>,
    left: &Sources,
    source: Source,
    refusal: Refusal,
) -> Result<Option<Advice>, AllocError> {
    let schemas = schemas_of(alloc, checking, left)?;
    match (source, refusal.what) {
        (Source::Schema(index), RefusalName::Schema(name)) => advice_on_schema(
            alloc,
            &schemas,
            index,
            refusal.line,
            refusal.column,
            name.fault,
        ),
        (Source::Module(index), RefusalName::Module(fault)) => advise_on_module(
            alloc, checking, left, &schemas, index, refusal, fault,
        ),
        _ => Ok(None),
    }
}

/// Makes the advice on the name that a refusal of a module is about.
fn advise_on_module(
    alloc: Global,
    checking: &Checking<'_>,
    left: &Sources,
    schemas: &Schemas<'_>,
    index: usize,
    refusal: Refusal,
    fault: ModuleFault,
) -> Result<Option<Advice>, AllocError> {
    match module_of(alloc, checking, left, schemas, index)? {
        Some(module) => {
            let advice = module.advice_on_refusal(alloc, refusal.line, refusal.column, fault);
            drop(module);
            advice
        }
        None => Ok(None),
    }
}

/// Names the texts of a kind as the entries of `explain` do.
fn part_of(source: Source) -> &'static str {
    match source {
        Source::Schema(_) => "schema",
        Source::Module(_) => "module",
        Source::Script => "script",
    }
}

/// Adds each error in the tokens and the grammar of a text.
fn write_troubles(
    out: &mut Vec<u8>,
    alloc: Global,
    form: Form,
    kind: TextKind,
    file: &str,
    text: &[u8],
) -> Result<(), AllocError> {
    let troubles = troubles_of(alloc, kind, text)?;
    for trouble in troubles.as_slice() {
        write_trouble(out, alloc, form, file, text, trouble)?;
    }
    Ok(())
}

fn write_trouble(
    out: &mut Vec<u8>,
    alloc: Global,
    form: Form,
    file: &str,
    text: &[u8],
    trouble: &Trouble,
) -> Result<(), AllocError> {
    let lines = Text::new(alloc, text)?;
    let place = lines.place(trouble.advice.start);
    let says = format!(in alloc; "{}", trouble.what)?;
    let beside = Some(&trouble.advice);
    let item = Item {
        weight: Weight::Refusal,
        file,
        text: &lines,
        line: place.line,
        column: place.column,
        part: None,
        says: says.as_str(),
        advice: beside,
    };
    write_item(out, alloc, &item, form)
}

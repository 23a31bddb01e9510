//! Remarks on texts that are not refused: faults, whether cursors and views are updatable, and warnings.
use crate::check::Checking;
use crate::meanings::meaning_of;
use crate::texts::Sources;
use sq_advice::{
    Advice, Doubt, Form, Item, Module, Part, Schemas, Slip, Source, Weight, slips_of, write_item,
};
use sq_heap::HeapStore;
use sq_lex::Name;
use sq_perform::{Checked, Limits, Note, Remark, open_session};
use sq_show::{Session, write_ways};
use sq_words::USUAL_ROW_NUMBERS;
use std::alloc::{AllocError, Global};
use std::str;

/// Adds the lines about the rest of each text.
pub(crate) fn write_checked<'a>(
    out: &mut Vec<u8>,
    alloc: Global,
    checking: &Checking<'a>,
    left: &'a Sources,
    checked: &Checked,
) -> Result<(), AllocError> {
    let schemas = schemas_of(alloc, checking, left)?;
    for (source, notes) in schemas.texts.iter().zip(checked.schemas.as_slice()) {
        write_remarks(out, alloc, checking.form, source, notes.as_slice())?;
    }
    match session_of(alloc, checking, left)? {
        Some(session) => {
            let found = Some(&session);
            let written = write_modules(out, alloc, checking, left, &schemas, checked, found);
            drop(session);
            written
        }
        None => write_modules(out, alloc, checking, left, &schemas, checked, None),
    }
}

/// Opens a session of the rest of the texts, if it is to be said how the rows of tables are found.
fn session_of(
    alloc: Global,
    checking: &Checking<'_>,
    left: &Sources,
) -> Result<Option<Session<HeapStore>>, AllocError> {
    if !checking.ways {
        return Ok(None);
    }
    let limits = Limits {
        row_numbers: USUAL_ROW_NUMBERS,
    };
    let schemas = left.schemas.as_slice();
    match open_session::<HeapStore>(alloc, schemas, left.modules.as_slice(), limits) {
        Ok(session) => Ok(Some(session)),
        Err(_) => Err(AllocError),
    }
}

/// Adds the lines about each module.
fn write_modules<'a>(
    out: &mut Vec<u8>,
    alloc: Global,
    checking: &Checking<'a>,
    left: &'a Sources,
    schemas: &Schemas<'a>,
    checked: &Checked,
    session: Option<&Session<HeapStore>>,
) -> Result<(), AllocError> {
    let form = checking.form;
    for (index, notes) in checked.modules.iter().enumerate() {
        if let Some(module) = module_of(alloc, checking, left, schemas, index)? {
            let written = write_notes(out, alloc, form, &module, notes.as_slice(), session);
            drop(module);
            written?;
        }
    }
    Ok(())
}

/// Reads the rest of the schemas of a check.
pub(crate) fn schemas_of<'a>(
    alloc: Global,
    checking: &Checking<'a>,
    left: &'a Sources,
) -> Result<Schemas<'a>, AllocError> {
    let mut texts = Vec::new(alloc);
    for (index, file) in checking.request.schemas.iter().enumerate() {
        let bytes = bytes_at(checking.sources.schemas.as_slice(), index);
        let rest = bytes_at(left.schemas.as_slice(), index);
        texts.push(Source::new(alloc, file, bytes, rest)?)?;
    }
    Schemas::new(alloc, texts)
}

/// Reads the rest of a module of a check.
pub(crate) fn module_of<'a, 's>(
    alloc: Global,
    checking: &Checking<'a>,
    left: &'a Sources,
    schemas: &'s Schemas<'a>,
    index: usize,
) -> Result<Option<Module<'a, 's>>, AllocError> {
    let Some(file) = checking.request.modules.get(index) else {
        return Ok(None);
    };
    let bytes = bytes_at(checking.sources.modules.as_slice(), index);
    let rest = bytes_at(left.modules.as_slice(), index);
    let source = Source::new(alloc, file, bytes, rest)?;
    Ok(Some(Module::new(alloc, schemas, source)?))
}

fn bytes_at(texts: &[Vec<u8>], index: usize) -> &[u8] {
    match texts.get(index) {
        Some(text) => text.as_slice(),
        None => &[],
    }
}

/// Adds the lines about the views of a schema.
fn write_remarks(
    out: &mut Vec<u8>,
    alloc: Global,
    form: Form,
    source: &Source<'_>,
    notes: &[Note],
) -> Result<(), AllocError> {
    for note in notes {
        if let Some(remark) = note.remark {
            write_remark(out, alloc, form, source, note, remark)?;
        }
    }
    Ok(())
}

/// Adds the lines about a module's parts, and then the warnings.
fn write_notes(
    out: &mut Vec<u8>,
    alloc: Global,
    form: Form,
    module: &Module<'_, '_>,
    notes: &[Note],
    session: Option<&Session<HeapStore>>,
) -> Result<(), AllocError> {
    for note in notes {
        match note.remark {
            Some(Remark::Fault(_)) => write_fault(out, alloc, form, module, note)?,
            Some(remark) => write_remark(out, alloc, form, &module.source, note, remark)?,
            None => write_ways_of(out, alloc, form, &module.source, note, session)?,
        }
    }
    match form {
        Form::Words | Form::Json => write_slips(out, alloc, form, module),
        Form::Quiet | Form::Lines => Ok(()),
    }
}

/// Adds whether a cursor or a view is updatable.
fn write_remark(
    out: &mut Vec<u8>,
    alloc: Global,
    form: Form,
    source: &Source<'_>,
    note: &Note,
    remark: Remark,
) -> Result<(), AllocError> {
    let says = match remark {
        Remark::NotUpdatable(rule) => format!(in alloc; "not updatable: {rule}")?,
        _ => format!(in alloc; "updatable")?,
    };
    write_said(out, alloc, form, source, note, says.as_str())
}

/// Adds what is said of a part.
fn write_said(
    out: &mut Vec<u8>,
    alloc: Global,
    form: Form,
    source: &Source<'_>,
    note: &Note,
    says: &str,
) -> Result<(), AllocError> {
    let part = Some(part_of(note));
    let beside: Option<&Advice> = None;
    let item = Item {
        weight: Weight::Remark,
        file: source.file,
        text: &source.text,
        line: note.line,
        column: note.column,
        part,
        says,
        advice: beside,
    };
    write_item(out, alloc, &item, form)
}

/// Adds how the rows of each table are found that a procedure reads, if that is asked for.
fn write_ways_of(
    out: &mut Vec<u8>,
    alloc: Global,
    form: Form,
    source: &Source<'_>,
    note: &Note,
    session: Option<&Session<HeapStore>>,
) -> Result<(), AllocError> {
    let Some(session) = session else {
        return Ok(());
    };
    let mut lines = Vec::new(alloc);
    write_ways(alloc, session, note.owner, note.name, &mut lines)?;
    for says in str::from_utf8(lines.as_slice()).unwrap_or("").lines() {
        write_said(out, alloc, form, source, note, says)?;
    }
    Ok(())
}

fn part_of(note: &Note) -> Part {
    Part {
        owner: note.owner,
        name: note.name,
    }
}

/// Adds the fault of a cursor or a procedure.
fn write_fault(
    out: &mut Vec<u8>,
    alloc: Global,
    form: Form,
    module: &Module<'_, '_>,
    note: &Note,
) -> Result<(), AllocError> {
    let Some(Remark::Fault(fault)) = note.remark else {
        return Ok(());
    };
    let rule = fault.rule;
    let says = match fault.about {
        Some(about) => format!(in alloc; "{rule:?} {}", name_text(&about))?,
        None => format!(in alloc; "{rule:?}")?,
    };
    let name = format!(in alloc; "{rule:?}")?;
    let meaning = meaning_of(name.as_str(), "statement");
    let advice = module
        .advice(alloc, note.line, note.column, rule, fault.about)?
        .explain(meaning.as_bytes())?;
    let part = Some(part_of(note));
    let beside = Some(&advice);
    let item = Item {
        weight: Weight::Fault,
        file: module.source.file,
        text: &module.source.text,
        line: note.line,
        column: note.column,
        part,
        says: says.as_str(),
        advice: beside,
    };
    write_item(out, alloc, &item, form)
}

/// Adds what may be wrong with a module's parts.
fn write_slips(
    out: &mut Vec<u8>,
    alloc: Global,
    form: Form,
    module: &Module<'_, '_>,
) -> Result<(), AllocError> {
    let slips = slips_of(alloc, module)?;
    for slip in slips.as_slice() {
        write_slip(out, alloc, form, module, slip)?;
    }
    Ok(())
}

fn write_slip(
    out: &mut Vec<u8>,
    alloc: Global,
    form: Form,
    module: &Module<'_, '_>,
    slip: &Slip,
) -> Result<(), AllocError> {
    let place = module.source.text.place(slip.start);
    let says = match slip.doubt {
        Doubt::UnusedParameter => {
            format!(in alloc; "parameter {} is never used", name_text(&slip.name))?
        }
        Doubt::NeverFetched => format!(in alloc; "the cursor is never fetched")?,
        Doubt::NoIndicator => {
            format!(in alloc;
                "parameter {} has no indicator for a null",
                name_text(&slip.name)
            )?
        }
    };
    let part = Some(slip.part);
    let beside = Some(&slip.advice);
    let item = Item {
        weight: Weight::Warning,
        file: module.source.file,
        text: &module.source.text,
        line: place.line,
        column: place.column,
        part,
        says: says.as_str(),
        advice: beside,
    };
    write_item(out, alloc, &item, form)
}

/// A name as a text; its characters are letters, digits and underscores.
fn name_text(name: &Name) -> &str {
    str::from_utf8(name.codes()).unwrap_or("")
}

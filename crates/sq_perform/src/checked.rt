//! What is to be said of schema and module texts, with their calls left out.
ghost use Rattle.std.specs.Prelude.{◌≡◌, ◌^◌, ◌<◌, ◌+◌, ◌-◌, IfErr, IfOk, IsOk, List, length, map};
ghost use Rattle.std.specs.List.{AllByRecursion, list_any};
ghost use Rattle.sq_lex.specs.Position.{position};
ghost use Rattle.sq_catalog.specs.Catalog.{known};
ghost use Rattle.sq_check.specs.Schemas.{text_marks};
ghost use Rattle.sq_lex.specs.Reading.{reading};
ghost use Rattle.sq_meaning.specs.Report.{Bytes};
ghost use Rattle.sq_tree.specs.Schema.{schema_tokens, schema_depth};
ghost use Rattle.sq_tree.specs.Module.{module_tokens, module_depth};
ghost use Rattle.sq_perform.specs.Checked as spec;
ghost use Rattle.sq_perform.specs.Checked.{IsRead};
ghost use Rattle.sq_perform.specs.Fault.{IsModuleFault, IsOpeningFault, IsSchemaFault, SomeRefused};
ghost use Rattle.sq_perform.specs.Read.{module_rule, schema_rule};
ghost use Rattle.sq_perform.specs.Refused.{AreDeclared};
ghost use Rattle.sq_perform.specs.Texts.{AllSpell, texts};
ghost use Rattle.sq_perform.specs.declared.fault.Fault.TheVariants.{NoMemory};

use crate::prepare::{build_catalog, module_fault, refused_module, schema_fault};
use crate::refusal::RunFault;
use crate::texts::{TextFault, read_all};
use sq_catalog::Catalog;
use sq_check::{Mark, Remark, check_modules, check_schemas};
use sq_items::Items;
use sq_lex::{LexError, Name, Position, Token, lex};
use sq_session::SessionFault;
use sq_tree::{ModuleText, SchemaText};
use std::alloc::{AllocError, Global};

/// A part of a text, and what is to be said of it: a cursor or a procedure of a module, or a view of a schema.
#[derive(Clone, Copy, Debug)]
pub struct Note {
    /// The line of the first token, from 1; a line ends with LF.
    pub line: usize,
    /// The column of the first token, from 1, in bytes.
    pub column: usize,
    /// The module that the part is in, or the user whose schema it is in.
    pub owner: Name,
    pub name: Name,
    /// The remark on the part; `None` for a procedure whose statement has no fault.
    pub remark: Option<Remark>,
}

/// The remarks on each text of a kind, in their order.
pub type Notes = Vec<Items<Note>>;

/// The remarks on schema and module texts.
#[derive(Drop)]
pub struct Checked {
    pub schemas: Notes,
    pub modules: Notes,
}

/// What the schema texts define, and what is to be said of them.
#[derive(Drop)]
struct Definitions {
    catalog: Catalog,
    notes: Notes,
}

impl Checked {
    /// Whether a procedure or a cursor has a fault.
    pub fn has_fault(&self) -> bool
        ensures { result ≡ spec.has_fault self.now }
    {
        are_faulty(self.schemas.as_slice()) || are_faulty(self.modules.as_slice())
    }
}

fn are_faulty(texts: &[Items<Note>]) -> bool
    ensures { result ≡ list_any (list_any spec.is_faulty) texts.now }
{
    texts.iter().any(|notes| is_faulty(notes.as_slice()))
}

fn is_faulty(notes: &[Note]) -> bool
    ensures { result ≡ list_any spec.is_faulty notes.now }
{
    notes.iter().any(|note| is_fault(note))
}

fn is_fault(note: &Note) -> bool
    ensures { result ≡ spec.is_faulty note.now }
{
    matches!(note.remark, Some(Remark::Fault(_)))
}

/// Reads schema and module texts and binds their names as `run` does, and makes no call: for each cursor, procedure and view what
/// is to be said of it, at its first token. The first refusal is answered, as by `run`.
pub fn check(alloc: Global, schemas: &[Vec<u8>], modules: &[Vec<u8>]) -> Result<Checked, RunFault>
    // What is said of the trees that the texts spell. A procedure has the fault that it has where the modules are bound, and one
    // of which nothing is said is bound as it is written, so none is left out. Something is said of each cursor and each view.
    ensures checked { IfOk result (spec.AreCheckedTexts (texts schemas.now) (texts modules.now)) }

    // What `run` says of a refusal of a schema or a module.
    ensures refused { IfErr result (IsOpeningFault (texts schemas.now) (texts modules.now)) }
{
    match read_definitions(alloc, schemas) {
        Ok(described) => check_over(alloc, described, modules),
        Err(fault) => Err(schema_fault(fault)),
    }
}

/// What is to be said of module texts, over what the schemas define.
#[tactic(auto, using(crate::proofs::Noted::are_checked))]
fn check_over(
    alloc: Global,
    described: Definitions,
    modules: &[Vec<u8>],
) -> Result<Checked, RunFault>
    ensures checked { (all : List Bytes) → spec.SchemasAreChecked all described.catalog described.notes.items
        → IfOk result (spec.AreCheckedTexts all (texts modules.now)) }
    ensures refused { (all : List Bytes) → AreDeclared all
        → IfErr result (IsOpeningFault all (texts modules.now)) }
{
    let Definitions { catalog, notes } = described;
    let answer = checked_modules(alloc, &catalog, modules);
    drop(catalog);
    match answer {
        Ok(modules) => Ok(Checked {
            schemas: notes,
            modules,
        }),
        Err(fault) => {
            drop(notes);
            Err(module_fault(fault))
        }
    }
}

/// The catalog that the schema texts define, and the notes about them.
fn read_definitions(alloc: Global, schemas: &[Vec<u8>]) -> Result<Definitions, TextFault>
    ensures declared { IfOk result (λ _. AreDeclared (texts schemas.now)) }
    ensures checked { IfOk result (λ d. spec.SchemasAreChecked (texts schemas.now) d.catalog d.notes.items) }
    ensures refused { IfErr result (SomeRefused schema_rule schema_tokens schema_depth (texts schemas.now)) }
    ensures first { IfErr result (IsSchemaFault (texts schemas.now)) }
{
    let trees = read_all::<SchemaText>(alloc, schemas)?;
    let answer = described_by(alloc, schemas, trees.as_slice());
    drop(trees);
    answer
}

#[tactic(auto, using(crate::proofs::Noted::schemas_are, crate::proofs::Opened::declared_by))]
fn described_by(
    alloc: Global,
    schemas: &[Vec<u8>],
    trees: &[SchemaText],
) -> Result<Definitions, TextFault>
    requires spelled { AllSpell schema_tokens schema_depth (texts schemas.now) trees.now }
    ensures declared { IfOk result (λ _. AreDeclared (texts schemas.now)) }
    ensures checked { IfOk result (λ d. spec.SchemasAreChecked (texts schemas.now) d.catalog d.notes.items) }
    ensures refused { IfErr result (SomeRefused schema_rule schema_tokens schema_depth (texts schemas.now)) }
    ensures first { IfErr result (IsSchemaFault (texts schemas.now)) }
{
    let catalog = build_catalog(alloc, schemas, trees)?;
    match schema_notes(alloc, &catalog, schemas, trees) {
        Ok(notes) => Ok(Definitions { catalog, notes }),
        Err(_) => {
            drop(catalog);
            Err(TextFault::NoMemory)
        }
    }
}

/// What is to be said of the views of schemas.
fn schema_notes(
    alloc: Global,
    catalog: &Catalog,
    schemas: &[Vec<u8>],
    trees: &[SchemaText],
) -> Result<Notes, AllocError>
    requires spelled { AllSpell schema_tokens schema_depth (texts schemas.now) trees.now }
    ensures { IfOk result
        (λ notes. spec.AreAllNotes (texts schemas.now)
        (map (text_marks (known catalog.now)) trees.now) notes.items) }
{
    let marks = check_schemas(alloc, catalog, trees)?;
    let notes = all_notes(alloc, schemas, marks.as_slice());
    drop(marks);
    notes
}

/// What is to be said of the cursors and procedures of module texts.
fn checked_modules(
    alloc: Global,
    catalog: &Catalog,
    modules: &[Vec<u8>],
) -> Result<Notes, TextFault>
    ensures checked { IfOk result
        (λ notes. spec.ModulesAreChecked catalog.now (texts modules.now) notes.items) }
    ensures refused { IfErr result (SomeRefused module_rule module_tokens module_depth (texts modules.now)) }
    ensures first { IfErr result (IsModuleFault (texts modules.now)) }
{
    let trees = read_all::<ModuleText>(alloc, modules)?;
    let answer = module_notes(alloc, catalog, modules, trees.as_slice());
    drop(trees);
    answer
}

fn module_notes(
    alloc: Global,
    catalog: &Catalog,
    modules: &[Vec<u8>],
    trees: &[ModuleText],
) -> Result<Notes, TextFault>
    requires spelled { AllSpell module_tokens module_depth (texts modules.now) trees.now }
    ensures checked { IfOk result
        (λ notes. spec.ModulesAreChecked catalog.now (texts modules.now) notes.items) }
    ensures refused { IfErr result (SomeRefused module_rule module_tokens module_depth (texts modules.now)) }
    ensures first { IfErr result (IsModuleFault (texts modules.now)) }
{
    match check_modules(alloc, catalog, trees) {
        Ok(marks) => marked_notes(alloc, modules, marks),
        Err(SessionFault::NoMemory) => Err(TextFault::NoMemory),
        Err(SessionFault::Refused(refusal)) => Err(refused_module(alloc, modules, trees, refusal)),
    }
}

fn marked_notes(alloc: Global, all: &[Vec<u8>], marks: Vec<Items<Mark>>) -> Result<Notes, TextFault>
    requires read { AllByRecursion IsRead (texts all.now) }
    requires count { length marks.items ≡ length all.now }
    ensures notes { IfOk result (λ notes. spec.AreAllNotes (texts all.now) marks.items notes.items) }
    ensures memory { IfErr result (λ fault. fault ≡ NoMemory) }
{
    let notes = all_notes(alloc, all, marks.as_slice());
    drop(marks);
    match notes {
        Ok(notes) => Ok(notes),
        Err(_) => Err(TextFault::NoMemory),
    }
}

/// The marks of each text with their lines and columns.
fn all_notes(alloc: Global, all: &[Vec<u8>], marks: &[Items<Mark>]) -> Result<Notes, AllocError>
    requires read { AllByRecursion IsRead (texts all.now) }
    requires count { length marks.now ≡ length all.now }
    ensures { IfOk result (λ notes. spec.AreAllNotes (texts all.now) marks.now notes.items) }
{
    let mut notes = Vec::new(alloc);
    for (number, text) in all.iter().enumerate() {
        notes.push(text_notes(alloc, text.as_slice(), marks[number].as_slice())?)?;
    }
    Ok(notes)
}

/// The marks of a text with their lines and columns.
#[tactic(auto, using(crate::proofs::Noted::are_notes))]
fn text_notes(alloc: Global, text: &[u8], marks: &[Mark]) -> Result<Items<Note>, AllocError>
    requires { IsOk (reading text.now) }
    ensures { IfOk result (spec.AreNotes text.now marks.now) }
{
    match lex(alloc, text) {
        Ok(tokens) => {
            let notes = notes_at(alloc, text, tokens.as_slice(), marks);
            drop(tokens);
            notes
        }
        Err(LexError::NoMemory) => Err(AllocError),
        Err(LexError::Fault(_)) => unreachable!(),
    }
}

/// The marks with the positions of their tokens. As these rise, the text is walked through once.
fn notes_at(
    alloc: Global,
    text: &[u8],
    tokens: &[Token],
    marks: &[Mark],
) -> Result<Items<Note>, AllocError>
    ensures { IfOk result (λ notes. notes ≡ map (spec.note_at text.now tokens.now) marks.now) }
{
    let mut notes = Items::new(alloc);
    let mut byte = 0;
    let mut place = Position::of(text, 0);
    for mark in marks {
        let start = start_of(tokens, mark.token);
        place = move_position(text, byte, place, start);
        byte = start;
        notes.push(note_of(mark, place))?;
    }
    Ok(notes)
}

/// The first byte of the token with this number, or 0 where there is no such token.
fn start_of(tokens: &[Token], number: usize) -> usize
    ensures { result ≡ spec.start_of tokens.now number }
{
    match tokens.get(number) {
        Some(token) => token.start,
        None => 0,
    }
}

fn note_of(mark: &Mark, place: Position) -> Note
    ensures { result ≡ spec.note mark.now place }
{
    Note {
        line: place.line,
        column: place.column,
        owner: mark.owner,
        name: mark.name,
        remark: mark.remark,
    }
}

/// The position of a byte, from that of another one.
fn move_position(text: &[u8], from: usize, place: Position, to: usize) -> Position
    requires { place ≡ position text.now from }
    ensures { result ≡ position text.now to }
{
    if from > to || to >= text.len() {
        return Position::of(text, to);
    }
    advance(place, Position::of(&text[from..], to - from))
}

/// The position `by` after `from`; `by` counts from the start of a text.
fn advance(from: Position, by: Position) -> Position
    requires byte { from.byte + by.byte < 2 ^ 64 }
    requires line { from.line + (by.line - 1) < 2 ^ 64 }
    requires column { from.column + (by.column - 1) < 2 ^ 64 }
    ensures { result ≡ spec.further from by }
{
    Position {
        byte: from.byte + by.byte,
        line: from.line + by.line.saturating_sub(1),
        column: if by.line == 1 {
            from.column + by.column.saturating_sub(1)
        } else {
            by.column
        },
    }
}

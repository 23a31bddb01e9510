//! The host that a handle leads to: texts, and the session that they open.
ghost use Rattle.std.specs.Prelude.{◌≡◌, [], ◌∷◌, ◌++◌, Ok, Some, IfErr, IfOk, IsSome};
ghost use Rattle.sq_exchange.specs.Answer.{IsWhy};
ghost use Rattle.sq_exchange.specs.declared.answer.Answer.TheVariants.{AlreadyOpen, BadValue, Done, NoMemory, Refused};
ghost use Rattle.sq_host.specs.Asked.{and_then, set_answer};
ghost use Rattle.sq_run.specs.Opens.{IsOfTexts};
ghost use Rattle.sq_run.specs.Texts.{texts};
ghost use Rattle.sq_host.specs.Calls.{Called, RefusedOrNoMemory, number_named, procedure_named, taken};

use crate::texts::{add_text, line_of};
use sq_exchange::{Answer, name_of};
use sq_heap::HeapStore;
use sq_items::Items;
use sq_lex::Name;
use sq_run::{Limits, Processor, RunFault};
use sq_show::LastCall;
use sq_store::MOST_ROW_NUMBERS;
use sq_value::{Row, Value};
use std::alloc::Global;
use std::mem::replace;

/// Texts, and after they are opened a processor. With it go the values for the next call, the last call with
/// its answer, and the rows of a table that is read.
#[derive(Drop)]
pub struct Host {
    pub schemas: Vec<Vec<u8>>,
    pub modules: Vec<Vec<u8>>,
    /// The line of the last refusal.
    pub line: Vec<u8>,
    pub processor: Option<Processor<HeapStore>>,
    pub values: Vec<Value>,
    /// The call that was made last, from when one was made until one is refused.
    pub last: Option<LastCall>,
    /// The rows that are still to come, the next one last.
    pub rows: Vec<Row>,
    /// The row whose values are the outputs, until the next call or row.
    pub row: Option<Row>,
}

impl Host {
    ghost use Rattle.sq_host.specs.Calls.{AreRefused, IsOf, IsOutOfBounds, MayOpen, opened, unopened};
    ghost use Rattle.sq_host.specs.Changes.{with_value};

    /// Makes a host without texts.
    pub(crate) fn new(alloc: Global) -> Host {
        Host {
            schemas: Vec::new(alloc),
            modules: Vec::new(alloc),
            line: Vec::new(alloc),
            processor: None,
            values: Vec::new(alloc),
            last: None,
            rows: Vec::new(alloc),
            row: None,
        }
    }

    /// Adds a schema text.
    pub(crate) fn add_schema(&mut self, alloc: Global, text: &[u8]) -> Answer
        ensures answer { ¬ (result ≡ NoMemory) → result ≡ set_answer (unopened self.old.processor) }
        ensures added { result ≡ Done
            → texts self.new.schemas.items ≡ texts self.old.schemas.items ++ text.now ∷ [] }
        ensures none { ¬ (result ≡ Done) → texts self.new.schemas.items ≡ texts self.old.schemas.items }
        ensures modules { self.new.modules ≡ self.old.modules }
        ensures processor { self.new.processor ≡ self.old.processor }
    {
        if self.processor.is_some() {
            return Answer::AlreadyOpen;
        }
        add_text(alloc, &mut self.schemas, text)
    }

    /// Adds a module text.
    pub(crate) fn add_module(&mut self, alloc: Global, text: &[u8]) -> Answer
        ensures answer { ¬ (result ≡ NoMemory) → result ≡ set_answer (unopened self.old.processor) }
        ensures added { result ≡ Done
            → texts self.new.modules.items ≡ texts self.old.modules.items ++ text.now ∷ [] }
        ensures none { ¬ (result ≡ Done) → texts self.new.modules.items ≡ texts self.old.modules.items }
        ensures schemas { self.new.schemas ≡ self.old.schemas }
        ensures processor { self.new.processor ≡ self.old.processor }
    {
        if self.processor.is_some() {
            return Answer::AlreadyOpen;
        }
        add_text(alloc, &mut self.modules, text)
    }

    /// Opens a processor of the texts, in which a table has this many row numbers.
    pub(crate) fn open(&mut self, alloc: Global, row_numbers: u64) -> Answer
        ensures opened { result ≡ Done
            → IsOf row_numbers (texts self.old.schemas.items) (texts self.old.modules.items)
            self.new.processor }
        ensures refused { result ≡ Refused
            → AreRefused row_numbers (texts self.old.schemas.items) (texts self.old.modules.items) }
        ensures already { result ≡ AlreadyOpen → IsSome self.old.processor }
        ensures numbers { result ≡ BadValue → IsOutOfBounds row_numbers }
        ensures otherwise { MayOpen result }
        ensures none { ¬ (result ≡ Done) → self.new.processor ≡ self.old.processor }
    {
        if self.processor.is_some() {
            return Answer::AlreadyOpen;
        }
        if row_numbers == 0 || MOST_ROW_NUMBERS < row_numbers {
            return Answer::BadValue;
        }
        let limits = Limits { row_numbers };
        match Processor::open(
            alloc,
            self.schemas.as_slice(),
            self.modules.as_slice(),
            limits,
        ) {
            Ok(processor) => {
                self.processor = Some(processor);
                Answer::Done
            }
            Err(fault) => self.refuse(alloc, fault),
        }
    }

    /// Keeps the line of a refusal.
    fn refuse(&mut self, alloc: Global, fault: RunFault) -> Answer
        ensures refused { result ≡ Refused → IsOfTexts fault }
        ensures otherwise { RefusedOrNoMemory result }
        ensures processor { self.new.processor ≡ self.old.processor }
    {
        match line_of(alloc, fault) {
            Ok(line) => {
                self.line = line;
                Answer::Refused
            }
            Err(_) => Answer::NoMemory,
        }
    }

    /// The number of the procedure of this module and name.
    pub(crate) fn procedure(
        &self,
        alloc: Global,
        module: &[u8],
        name: &[u8],
    ) -> Result<usize, Answer>
        ensures number { IfOk result
            (λ number. and_then (procedure_named «module».now name.now) (opened self.now.processor)
            ≡ Ok number) }
        ensures refused { IfErr result
            (IsWhy (and_then (procedure_named «module».now name.now) (opened self.now.processor))) }
    {
        match &self.processor {
            Some(processor) => procedure_in(alloc, processor, module, name),
            None => Err(Answer::NotOpen),
        }
    }

    /// Adds a value for the next call, if there is one.
    pub(crate) fn add(&mut self, value: Result<Value, Answer>) -> Answer
        ensures answer { ¬ (result ≡ NoMemory) → result ≡ set_answer value }
        ensures values { result ≡ Done → self.new.values.items ≡ with_value self.old.values.items value }
        ensures none { ¬ (result ≡ Done) → self.new.values.items ≡ self.old.values.items }
    {
        match value {
            Ok(value) => match self.values.push(value) {
                Ok(()) => Answer::Done,
                Err(_) => Answer::NoMemory,
            },
            Err(answer) => answer,
        }
    }

    /// Drops the values that were added since the last call.
    pub(crate) fn drop_values(&mut self, alloc: Global)
        ensures { self.new.values.items ≡ [] }
    {
        drop(replace(&mut self.values, Vec::new(alloc)));
    }

    /// Calls a procedure with the values that were added since the last call, which are then gone.
    pub(crate) fn call(&mut self, alloc: Global, procedure: usize) -> Answer
        ensures answer { ¬ (result ≡ NoMemory)
            → result ≡ set_answer
            (and_then (taken procedure self.old.values.items) (opened self.old.processor)) }
        ensures called { result ≡ Done
            → Called self.old.processor procedure self.old.values.items self.new.last self.new.processor }
        ensures none { ¬ (result ≡ Done) → self.new.processor ≡ self.old.processor }
        ensures values { self.new.values.items ≡ [] }
    {
        self.last = None;
        self.row = None;
        let values = Items::from_vec(replace(&mut self.values, Vec::new(alloc)));
        match &mut self.processor {
            Some(processor) => call_for(alloc, processor, procedure, values, &mut self.last),
            None => {
                drop(values);
                Answer::NotOpen
            }
        }
    }
}

/// The number of the procedure of a processor whose module and name these texts spell.
fn procedure_in(
    alloc: Global,
    processor: &Processor<HeapStore>,
    module: &[u8],
    name: &[u8],
) -> Result<usize, Answer>
    ensures number { IfOk result (λ number. procedure_named «module».now name.now processor.now ≡ Ok number) }
    ensures refused { IfErr result (IsWhy (procedure_named «module».now name.now processor.now)) }
{
    match name_of(alloc, module) {
        Ok(module) => procedure_of(alloc, processor, module, name),
        Err(answer) => Err(answer),
    }
}

/// The number of the procedure of this module whose name a text spells.
fn procedure_of(
    alloc: Global,
    processor: &Processor<HeapStore>,
    module: Name,
    name: &[u8],
) -> Result<usize, Answer>
    ensures number { IfOk result (λ number. number_named name.now processor.now «module» ≡ Ok number) }
    ensures refused { IfErr result (IsWhy (number_named name.now processor.now «module»)) }
{
    match name_of(alloc, name) {
        Ok(name) => processor.procedure(module, name).ok_or(Answer::Unknown),
        Err(answer) => Err(answer),
    }
}

/// Calls a procedure, if there is one of this number and the values fit it, and keeps the call with its reply.
fn call_for(
    alloc: Global,
    processor: &mut Processor<HeapStore>,
    procedure: usize,
    values: Row,
    kept: &mut Option<LastCall>,
) -> Answer
    ensures answer { ¬ (result ≡ NoMemory) → result ≡ set_answer (taken procedure values processor.old) }
    ensures called { result ≡ Done
        → Called (Some processor.old) procedure values kept.new (Some processor.new) }
    ensures none { ¬ (result ≡ Done) → processor.new ≡ processor.old }
{
    if !processor.fits(procedure, values.as_slice()) {
        drop(values);
        return Answer::BadArguments;
    }
    match processor.call(alloc, procedure, values.as_slice()) {
        Ok(reply) => {
            *kept = Some(LastCall {
                procedure,
                values,
                reply,
            });
            Answer::Done
        }
        Err(_) => {
            drop(values);
            Answer::NoMemory
        }
    }
}

//! The rows of a base table.

ghost use Rattle.std.specs.Prelude.{◌≡◌, ◌++◌, Ok, IfErr, IfOk, option_to_list, reverse};
ghost use Rattle.sq_exchange.specs.Answer.{IsWhy};
ghost use Rattle.sq_exchange.specs.declared.answer.Answer.TheVariants.{Done, NoMemory};
ghost use Rattle.sq_host.specs.Asked.{and_then, set_answer};
ghost use Rattle.sq_host.specs.Calls.{last_of, opened, rows_called, rows_in, rows_named, values_in};

use crate::host::Host;
use sq_exchange::{Answer, name_of};
use sq_heap::HeapStore;
use sq_lex::Name;
use sq_run::{Processor, TableRows};
use sq_value::{Row, copy_row};
use std::alloc::{AllocError, Global};

impl Host {
    /// Begins with the rows of the base table of this user and name, as they are now.
    pub(crate) fn read_table(&mut self, alloc: Global, user: &[u8], name: &[u8]) -> Answer
        ensures answer { ¬ (result ≡ NoMemory)
            → result ≡ set_answer (and_then (rows_named user.now name.now) (opened self.old.processor)) }
        ensures rows { result ≡ Done
            → and_then (rows_named user.now name.now) (opened self.old.processor)
            ≡ Ok (reverse self.new.rows.items) }
        ensures none { ¬ (result ≡ Done) → self.new.rows ≡ self.old.rows }
        ensures processor { self.new.processor ≡ self.old.processor }
    {
        match rows_of(alloc, &self.processor, user, name) {
            Ok(rows) => {
                self.rows = rows;
                self.row = None;
                Answer::Done
            }
            Err(answer) => answer,
        }
    }

    /// Goes on to the next row.
    #[tactic(auto, using(crate::proofs::Rows::last_added))]
    pub(crate) fn next_row(&mut self) -> Answer
        ensures answer { result ≡ set_answer (last_of self.old.rows.items) }
        ensures rows { self.old.rows.items ≡ self.new.rows.items ++ option_to_list self.new.row }
        ensures processor { self.new.processor ≡ self.old.processor }
    {
        self.row = self.rows.pop();
        if self.row.is_some() {
            Answer::Done
        } else {
            Answer::NoRow
        }
    }
}

/// Copies of the rows of a base table, the first one last.
fn rows_of(
    alloc: Global,
    processor: &Option<Processor<HeapStore>>,
    user: &[u8],
    name: &[u8],
) -> Result<Vec<Row>, Answer>
    ensures rows { IfOk result
        (λ rows. and_then (rows_named user.now name.now) (opened processor.now) ≡ Ok (reverse rows.items)) }
    ensures refused { IfErr result (IsWhy (and_then (rows_named user.now name.now) (opened processor.now))) }
{
    match processor {
        Some(processor) => rows_of_named(alloc, processor, user, name),
        None => Err(Answer::NotOpen),
    }
}

/// Copies of the rows of the base table of a processor whose owner and name these texts spell.
fn rows_of_named(
    alloc: Global,
    processor: &Processor<HeapStore>,
    user: &[u8],
    name: &[u8],
) -> Result<Vec<Row>, Answer>
    ensures rows { IfOk result
        (λ rows. rows_named user.now name.now processor.now ≡ Ok (reverse rows.items)) }
    ensures refused { IfErr result (IsWhy (rows_named user.now name.now processor.now)) }
{
    match name_of(alloc, user) {
        Ok(user) => rows_of_user(alloc, processor, user, name),
        Err(answer) => Err(answer),
    }
}

/// Copies of the rows of the base table of this owner whose name a text spells.
fn rows_of_user(
    alloc: Global,
    processor: &Processor<HeapStore>,
    user: Name,
    name: &[u8],
) -> Result<Vec<Row>, Answer>
    ensures rows { IfOk result (λ rows. rows_called name.now processor.now user ≡ Ok (reverse rows.items)) }
    ensures refused { IfErr result (IsWhy (rows_called name.now processor.now user)) }
{
    match name_of(alloc, name) {
        Ok(name) => rows_of_table(alloc, processor, user, name),
        Err(answer) => Err(answer),
    }
}

/// Copies of the rows of the base table of this owner and name.
fn rows_of_table(
    alloc: Global,
    processor: &Processor<HeapStore>,
    user: Name,
    name: Name,
) -> Result<Vec<Row>, Answer>
    ensures rows { IfOk result (λ rows. rows_in user processor.now name ≡ Ok (reverse rows.items)) }
    ensures refused { IfErr result (IsWhy (rows_in user processor.now name)) }
{
    match processor.rows(user, name) {
        Some(rows) => copy_reversed(alloc, rows).map_err(|_| Answer::NoMemory),
        None => Err(Answer::Unknown),
    }
}

/// Copies of the rows that are still to come, the first one last.
fn copy_reversed(alloc: Global, rows: TableRows<'_, HeapStore>) -> Result<Vec<Row>, AllocError>
    ensures { IfOk result (λ copies. reverse copies.items ≡ values_in rows.entry) }
{
    let mut copies = copy_rows(alloc, rows)?;
    copies.as_mut_slice().reverse();
    Ok(copies)
}

/// Copies of the rows that are still to come.
fn copy_rows(alloc: Global, mut rows: TableRows<'_, HeapStore>) -> Result<Vec<Row>, AllocError>
    ensures { IfOk result (λ copies. copies.items ≡ values_in rows.entry) }
{
    let mut copies = Vec::new(alloc);
    while let Some((_, row)) = rows.next() {
        copies.push(copy_row(alloc, row.as_slice())?)?;
    }
    Ok(copies)
}

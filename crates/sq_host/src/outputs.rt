//! The values that the last call set, or the values of a row of a table.

ghost use Rattle.std.specs.Prelude.{◌≡◌, Ok, Err, position, IfErr, IfOk};
ghost use Rattle.sq_meaning.specs.Environment.{same_name};
ghost use Rattle.sq_exchange.specs.Answer.{IsWhy};
ghost use Rattle.sq_host.specs.Outputs as spec;

use crate::host::Host;
use sq_exchange::{Answer, digits_of, kind_of, name_of, number_of, text_of};
use sq_lex::Name;
use sq_meaning::Status;
use sq_run::Output;
use sq_value::{Decimal, Value};
use std::alloc::Global;

/// The position of the parameter of a name.
fn position_of(outputs: &[Output], name: Name) -> Option<usize>
    ensures { result ≡ position (λ o. same_name o.name name) outputs.now }
{
    outputs.iter().position(|output| output.name == name)
}

impl Host {
    /// The status of the last call.
    pub(crate) fn status(&self) -> Result<Status, Answer>
        ensures { result ≡ spec.status_of self.now }
    {
        match &self.last {
            Some(last) => Ok(last.reply.status),
            None => Err(Answer::Unknown),
        }
    }

    /// How many values there are.
    pub(crate) fn count(&self) -> Result<usize, Answer>
        ensures { result ≡ spec.count self.now }
    {
        match &self.row {
            Some(row) => Ok(row.len()),
            None => match &self.last {
                Some(last) => Ok(last.reply.outputs.len()),
                None => Err(Answer::Unknown),
            },
        }
    }

    /// The parameters that the last call set; none while a row is read.
    fn outputs(&self) -> &[Output]
        ensures { result.now ≡ spec.outputs self.now }
    {
        match &self.row {
            Some(_) => &[],
            None => match &self.last {
                Some(last) => last.reply.outputs.as_slice(),
                None => &[],
            },
        }
    }

    /// The name of a parameter that the last call set.
    pub(crate) fn name(&self, place: usize) -> Result<Name, Answer>
        ensures { result ≡ spec.name_at self.now place }
    {
        match self.outputs().get(place) {
            Some(output) => Ok(output.name),
            None => Err(Answer::Unknown),
        }
    }

    /// The place of the parameter with the name that a text spells.
    pub(crate) fn place(&self, alloc: Global, name: &[u8]) -> Result<usize, Answer>
        ensures place { IfOk result (λ place. spec.place_of self.now name.now ≡ Ok place) }
        ensures refused { IfErr result (IsWhy (spec.place_of self.now name.now)) }
    {
        match name_of(alloc, name) {
            Ok(name) => self.place_named(name),
            Err(answer) => Err(answer),
        }
    }

    fn place_named(&self, name: Name) -> Result<usize, Answer>
        ensures { result ≡ spec.place_named self.now name }
    {
        match position_of(self.outputs(), name) {
            Some(place) => Ok(place),
            None => Err(Answer::Unknown),
        }
    }

    /// A value, by its place.
    fn value(&self, place: usize) -> Result<&Value, Answer>
        ensures value { IfOk result (λ value. spec.value_at self.now place ≡ Ok value.now) }
        ensures none { IfErr result (λ answer. spec.value_at self.now place ≡ Err answer) }
    {
        match &self.row {
            Some(row) => match row.as_slice().get(place) {
                Some(value) => Ok(value),
                None => Err(Answer::Unknown),
            },
            None => match self.outputs().get(place) {
                Some(output) => Ok(&output.value),
                None => Err(Answer::Unknown),
            },
        }
    }

    /// The kind of a value.
    pub(crate) fn kind(&self, place: usize) -> Result<i32, Answer>
        ensures { result ≡ spec.kind_at self.now place }
    {
        match self.value(place) {
            Ok(value) => Ok(kind_of(value)),
            Err(answer) => Err(answer),
        }
    }

    /// A value that is a number.
    pub(crate) fn number(&self, place: usize) -> Result<Decimal, Answer>
        ensures { result ≡ spec.number_at self.now place }
    {
        match self.value(place) {
            Ok(value) => number_of(value),
            Err(answer) => Err(answer),
        }
    }

    /// The digits of a value that is a number.
    pub(crate) fn digits(&self, alloc: Global, place: usize) -> Result<Vec<u8>, Answer>
        ensures digits { IfOk result (λ digits. spec.digits_at self.now place ≡ Ok digits.items) }
        ensures refused { IfErr result (IsWhy (spec.digits_at self.now place)) }
    {
        match self.value(place) {
            Ok(value) => digits_of(alloc, value),
            Err(answer) => Err(answer),
        }
    }

    /// The codes of a value that is a text.
    pub(crate) fn text(&self, place: usize) -> Result<&[u8], Answer>
        ensures codes { IfOk result (λ codes. spec.text_at self.now place ≡ Ok codes.now) }
        ensures refused { IfErr result (λ answer. spec.text_at self.now place ≡ Err answer) }
    {
        match self.value(place) {
            Ok(value) => text_of(value),
            Err(answer) => Err(answer),
        }
    }
}

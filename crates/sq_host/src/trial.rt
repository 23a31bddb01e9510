//! Trials of a call before it is made, and its cause after.

ghost use Rattle.std.specs.Prelude.{◌≡◌, Ok, Some, false, IfErr, IfOk, replicate};
ghost use Rattle.sq_value.specs.declared.value.Value.TheVariants.{Null};
ghost use Rattle.sq_exchange.specs.Answer.{IsWhy};
ghost use Rattle.sq_host.specs.Asked.{and_then};
ghost use Rattle.sq_host.specs.Calls.{is_faulty, opened, place_for, taken};
ghost use Rattle.sq_host.specs.Told.{IsCauseIn, IsFaultIn, caused};
ghost use Rattle.sq_host.specs.Unfit.{unfit_at, unfit_in};
ghost use Rattle.sq_run.specs.Processor.{takes};

use crate::host::Host;
use crate::texts::words_of;
use sq_exchange::Answer;
use sq_heap::HeapStore;
use sq_run::Processor;
use sq_value::Value;
use std::alloc::{AllocError, Global};

impl Host {
    /// Tells the fault for which a procedure answers 42000; no words if it has none.
    pub(crate) fn why(&self, alloc: Global, procedure: usize) -> Result<Vec<u8>, Answer>
        ensures told { IfOk result (λ words. IsFaultIn procedure self.now.processor words.items) }
        ensures refused { IfErr result (IsWhy (is_faulty procedure self.now.processor)) }
    {
        let Some(processor) = &self.processor else {
            return Err(Answer::NotOpen);
        };
        match processor.fault(procedure) {
            Some(fault) => words_of(alloc, fault).map_err(|_| Answer::NoMemory),
            None => Ok(Vec::new(alloc)),
        }
    }

    /// Tells why the last call did not end with 00000; no words if it did.
    pub(crate) fn cause(&self, alloc: Global) -> Result<Vec<u8>, Answer>
        ensures told { IfOk result (λ words. IsCauseIn self.now.processor self.now.last words.items) }
        ensures refused { IfErr result (IsWhy (caused self.now.processor self.now.last)) }
    {
        let Some(processor) = &self.processor else {
            return Err(Answer::NotOpen);
        };
        let Some(last) = &self.last else {
            return Err(Answer::Unknown);
        };
        let mut words = Vec::new(alloc);
        match last.write_why(alloc, processor.session(), &mut words) {
            Ok(()) => Ok(words),
            Err(_) => {
                drop(words);
                Err(Answer::NoMemory)
            }
        }
    }

    /// Finds the place of the first value that doesn't fit its parameter; none if the values fit. If the
    /// procedure doesn't exist, or has more or fewer parameters than values, it answers how many values there
    /// are.
    #[tactic(auto, using(crate::proofs::Places::none_unfit_at))]
    pub(crate) fn find_unfit(
        &self,
        alloc: Global,
        procedure: usize,
    ) -> Result<Option<usize>, Answer>
        ensures place { IfOk result (λ place.
            and_then (unfit_in procedure self.now.values.items) (opened self.now.processor) ≡ Ok place) }
        ensures taken { IfOk result (λ place.
            and_then (taken procedure self.now.values.items) (opened self.now.processor) ≡ place_for place) }
        ensures refused { IfErr result
            (IsWhy (and_then (taken procedure self.now.values.items) (opened self.now.processor))) }
        ensures none { IfErr result
            (IsWhy (and_then (unfit_in procedure self.now.values.items) (opened self.now.processor))) }
    {
        let Some(processor) = &self.processor else {
            return Err(Answer::NotOpen);
        };
        let values = self.values.as_slice();
        if processor.fits(procedure, values) {
            return Ok(None);
        }
        match find_first_unfit(alloc, processor, procedure, values) {
            Ok(place) => Ok(Some(place)),
            Err(_) => Err(Answer::NoMemory),
        }
    }
}

/// Finds the place of the first value that doesn't fit. Each place after the one that is tried has a null,
/// since null fits each parameter.
fn find_first_unfit(
    alloc: Global,
    processor: &Processor<HeapStore>,
    procedure: usize,
    values: &[Value],
) -> Result<usize, AllocError>
    requires { takes processor.now.program procedure values.now ≡ false }
    ensures { IfOk result (λ place. unfit_at processor.now.program procedure values.now ≡ Some place) }
{
    let mut tried = nulls(alloc, values.len())?;
    if !processor.fits(procedure, tried.as_slice()) {
        return Ok(values.len());
    }
    for (place, value) in values.iter().enumerate() {
        tried[place] = value.copy(alloc)?;
        if !processor.fits(procedure, tried.as_slice()) {
            return Ok(place);
        }
    }
    Ok(values.len())
}

/// So many nulls.
fn nulls(alloc: Global, count: usize) -> Result<Vec<Value>, AllocError>
    ensures { IfOk result (λ values. values.items ≡ replicate count Null) }
{
    let mut values = Vec::with_capacity(alloc, count)?;
    for _ in 0..count {
        values.push(Value::Null)?;
    }
    Ok(values)
}

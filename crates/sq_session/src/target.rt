//! Targets: the parameters that get the values of a row (ISO/IEC 9075:1992, 9.1).

ghost use Rattle.std.specs.Prelude.{◌≡◌, ◌<◌, ◌^◌, ◌++◌, ◌∷◌, [], true, ◌+◌, length, nat_eq, position, unsigned_abs, IfOk, IfSome, OnOk};
ghost use Rattle.std.specs.Option.{option_map};
ghost use Rattle.sq_value.specs.Domain.{FitsKind};
ghost use Rattle.sq_bound.specs.Fits.{are_parameters};
ghost use Rattle.sq_meaning.specs.Status.{and_then};
ghost use Rattle.sq_meaning.specs.Machine.{single_row};
ghost use Rattle.sq_meaning.specs.Parameter.{integer_value};
ghost use Rattle.sq_expression.specs.Fault.{Meets};
ghost use Rattle.sq_session.specs.Retrieved.{values_of};
ghost use Rattle.sq_session.specs.Step.{EndsRight, ending};
ghost use Rattle.sq_session.specs.Target.{AreSetAlike, IsSet, MayTake, MayTakeRows, domain_at, joined, null_set, outputs_from, row_reply, row_set, set_behind, set_reply, set_to, target_set, value_set};

use crate::called::Called;
use crate::reply::{Done, Output};
use crate::retrieved::RetrievedRow;
use smallvec::SmallVec;
use sq_bound::{BoundSelect, ParameterDesc};
use sq_expression::{Failure, Fault};
use sq_items::Items;
use sq_meaning::Status;
use sq_value::{Decimal, RetrieveFault, Retrieved, Row, Value, retrieve};
use std::alloc::{AllocError, Global};
use std::marker::Model;
use std::mem;

/// A parameter's place, and its new value.
#[derive(Drop)]
struct Assignment {
    parameter: usize,
    value: Value,
}

/// The filler of places that hold no assignment yet.
impl Default for Assignment {
    fn default() -> Assignment {
        Assignment {
            parameter: 0,
            value: Value::Null,
        }
    }
}

/// A list of assignments, four of them in place. Contracts see it as its elements in order.
#[derive(Drop)]
struct AssignmentList {
    elements: SmallVec<Assignment, 4>,
}

impl Model for AssignmentList {
    ghost use Rattle.std.specs.Prelude.{List};
    ghost use Rattle.sq_session.specs.declared.target.Assignment.{Assignment as AnyAssignment};

    ghost Value = { List AnyAssignment };

    ghost view = { λ list. list.elements.items };
}

impl AssignmentList {
    fn new(alloc: Global) -> AssignmentList
        ensures { result ≡ [] }
    {
        AssignmentList {
            elements: SmallVec::new(alloc),
        }
    }

    fn push(&mut self, assignment: Assignment) -> Result<(), AllocError>
        ensures { OnOk result (self.new ≡ self.old ++ assignment ∷ []) }
    {
        self.elements.push(assignment)?;
        Ok(())
    }
}

/// What targets and their indicators are set to, and whether a text was cut.
#[derive(Drop)]
struct Assignments {
    list: AssignmentList,
    is_cut: bool,
}

/// Sets the targets from a row, from left to right. Where one ends with a status, none is set.
#[tactic(auto, using(crate::proofs::Calls::Ending::set_right))]
pub(crate) fn row_retrieved(
    called: &Called<'_>,
    targets: &[sq_bound::Output],
    row: &RetrievedRow<'_>,
) -> Result<Done, Fault>
    requires targets { are_parameters (length called.now.procedure.now.parameters) targets.now ≡ true }
    requires row { MayTake called.now.procedure.now.parameters targets.now (values_of row.now) }
    ensures reply { Meets result
        (row_reply called.now.procedure.now.parameters targets.now (values_of row.now)) }
    ensures right { IfSome (ending result) EndsRight }
{
    match assignments_of(called, targets, row) {
        Ok(assignments) => Ok(make_done(called, assignments)?),
        Err(Fault::Status(failure)) => Ok(Done::without_outputs(called.alloc, failure.status())),
        Err(Fault::NoMemory) => Err(Fault::NoMemory),
    }
}

/// Sets the targets of a select statement from the only row.
pub(crate) fn only_row_retrieved(
    called: &Called<'_>,
    select: &BoundSelect,
    rows: &[Row],
) -> Result<Done, Fault>
    requires targets { are_parameters (length called.now.procedure.now.parameters) select.now.outputs ≡ true }
    requires rows { MayTakeRows called.now.procedure.now.parameters select.now.outputs rows.now }
    ensures reply { Meets result
        (and_then (single_row rows.now) (row_reply called.now.procedure.now.parameters select.now.outputs)) }
    ensures right { IfSome (ending result) EndsRight }
{
    match rows {
        [] => Err(Fault::Status(Failure::NoData)),
        [row] => {
            let row = RetrievedRow::whole(row.as_slice());
            row_retrieved(called, select.outputs.as_slice(), &row)
        }
        _ => Err(Fault::Status(Failure::CardinalityViolation)),
    }
}

/// The targets and their indicators, in the order in which the parameters are declared.
fn make_done(called: &Called<'_>, assignments: Assignments) -> Result<Done, AllocError>
    ensures { IfOk result (λ d. d ≡ set_reply called.now.procedure.now.parameters assignments) }
{
    let Assignments { list, is_cut } = assignments;
    let parameters = called.procedure.parameters.as_slice();
    let outputs = outputs_of(called.alloc, parameters, list)?;
    Ok(Done {
        status: if is_cut {
            Status::TextTruncated
        } else {
            Status::SuccessfulCompletion
        },
        outputs,
    })
}

fn outputs_of(
    alloc: Global,
    parameters: &[ParameterDesc],
    assignments: AssignmentList,
) -> Result<Items<Output>, AllocError>
    ensures { IfOk result (λ outputs. outputs ≡ outputs_from 0 assignments parameters.now) }
{
    let AssignmentList { mut elements } = assignments;
    let outputs = outputs_taken(alloc, parameters, elements.as_mut_slice());
    drop(elements);
    outputs
}

/// The parameters that are set, with the values that are taken from their assignments.
fn outputs_taken(
    alloc: Global,
    parameters: &[ParameterDesc],
    assignments: &mut [Assignment],
) -> Result<Items<Output>, AllocError>
    ensures { IfOk result (λ outputs. outputs ≡ outputs_from 0 assignments.old parameters.now) }
{
    let mut outputs = Items::from_vec(Vec::with_capacity(alloc, assignments.len())?);
    for (place, parameter) in parameters.iter().enumerate() {
        if let Some(value) = value_taken(assignments, place) {
            outputs.push(Output {
                name: parameter.name,
                value,
            })?;
        }
    }
    Ok(outputs)
}

/// The value that a parameter is set to, if any; it is taken from the assignments.
fn value_taken(assignments: &mut [Assignment], place: usize) -> Option<Value>
    ensures value { result ≡ option_map (λ a. a.value) (set_to assignments.old place) }
    ensures others { AreSetAlike (place + 1) assignments.old assignments.new }
{
    let number = first_to(assignments, place)?;
    Some(mem::replace(&mut assignments[number].value, Value::Null))
}

/// The position of the first assignment to a parameter.
fn first_to(assignments: &[Assignment], place: usize) -> Option<usize>
    ensures number { result ≡ position (λ a. nat_eq a.parameter place) assignments.now }
    ensures within { IfSome result (λ number. number < length assignments.now) }
{
    assignments
        .iter()
        .position(|assignment| assignment.parameter == place)
}

/// The assignments to the targets and their indicators, from left to right.
#[tactic(auto, using(crate::proofs::Parameters::Targets::target_there))]
fn assignments_of(
    called: &Called<'_>,
    targets: &[sq_bound::Output],
    row: &RetrievedRow<'_>,
) -> Result<Assignments, Fault>
    requires targets { are_parameters (length called.now.procedure.now.parameters) targets.now ≡ true }
    requires row { MayTake called.now.procedure.now.parameters targets.now (values_of row.now) }
    ensures { Meets result (row_set called.now.procedure.now.parameters targets.now (values_of row.now)) }
{
    let mut assignments = Assignments {
        list: AssignmentList::new(called.alloc),
        is_cut: false,
    };
    let parameters = called.procedure.parameters.as_slice();
    for (place, target) in targets.iter().enumerate() {
        match assignments.set(called.alloc, parameters, *target, row.value(place)) {
            Ok(()) => {}
            Err(fault) => {
                drop(assignments);
                return Err(fault);
            }
        }
    }
    Ok(assignments)
}

impl Assignments {
    /// Sets a target and its indicator.
    #[tactic(auto, using(crate::proofs::Parameters::Targets::domain_is, crate::proofs::Parameters::Taken::fits_known))]
    fn set(
        &mut self,
        alloc: Global,
        parameters: &[ParameterDesc],
        target: sq_bound::Output,
        value: &Value,
    ) -> Result<(), Fault>
        requires there { target.parameter < length parameters.now }
        requires fits { FitsKind (domain_at parameters.now target.parameter) value.now }
        ensures { IsSet result (set_behind self.old (target_set parameters.now target value.now)) self.new }
    {
        let parameter = parameters[target.parameter];
        if let Value::Null = value {
            return self.set_null(target);
        }
        match retrieve(alloc, value, parameter.domain) {
            Ok(retrieved) => Ok(self.set_retrieved(target, retrieved)?),
            Err(RetrieveFault::Range) => Err(Fault::Status(Failure::NumericValueOutOfRange)),
            Err(RetrieveFault::NoMemory) => Err(Fault::NoMemory),
        }
    }

    /// Sets a target to null, and its indicator to -1; without an indicator, null cannot be retrieved.
    fn set_null(&mut self, target: sq_bound::Output) -> Result<(), Fault>
        ensures { IsSet result (set_behind self.old (null_set target)) self.new }
    {
        let Some(indicator) = target.indicator else {
            return Err(Fault::Status(Failure::NullWithoutIndicator));
        };
        self.add(target.parameter, Value::Null)?;
        Ok(self.add(indicator, make_whole(-1))?)
    }

    /// Sets a target to a value, and its indicator to the length of the text before it was cut, else to 0.
    fn set_retrieved(
        &mut self,
        target: sq_bound::Output,
        retrieved: Retrieved,
    ) -> Result<(), AllocError>
        ensures { OnOk result (self.new ≡ joined self.old (value_set target retrieved)) }
    {
        let Retrieved { value, uncut } = retrieved;
        self.add(target.parameter, value)?;
        if uncut.is_some() {
            self.is_cut = true;
        }
        match target.indicator {
            Some(indicator) => self.add(indicator, make_whole(uncut.unwrap_or(0) as i64)),
            None => Ok(()),
        }
    }

    fn add(&mut self, parameter: usize, value: Value) -> Result<(), AllocError>
        ensures { OnOk result
            (self.new ≡ record self.old {
              list = self.old.list
                  ++ record { parameter = parameter; value = value } ∷ [];
            }) }
    {
        self.list.push(Assignment { parameter, value })
    }
}

/// The value of a whole number.
fn make_whole(number: i64) -> Value
    requires { unsigned_abs number < 10 ^ 18 }
    ensures { result ≡ integer_value number }
{
    Value::Num(Decimal::new(number, 0))
}

//! The rows of the tables that a statement reads.

ghost use Rattle.std.specs.Prelude.{⊤, Ok};
ghost use Rattle.sq_meaning.specs.Status.{and_then};
ghost use Rattle.sq_expression.specs.Fault.{MeetsAs};
ghost use Rattle.sq_expression.specs.Frame.{lent, table_rows};
ghost use Rattle.sq_expression.specs.Group.{rows_of_line};
ghost use Rattle.sq_expression.specs.Index.{HasRowsBut};
ghost use Rattle.sq_expression.specs.Table.{base_there, view_there};

use crate::context::Context;
use crate::fault::{Failure, Fault};
use sq_bound::TablePlace;
use sq_value::Row;
use std::alloc::Global;

/// The rows of a base table.
#[derive(Drop)]
pub struct BaseRows<'a> {
    pub place: usize,
    pub rows: Vec<&'a Row>,
}

/// The rows of a view, or the status that its query ended with.
#[derive(Drop)]
pub struct ViewRows {
    pub place: usize,
    pub rows: Vec<Row>,
    pub failure: Option<Failure>,
}

/// The rows of a table or view.
pub fn rows_at<'a>(place: TablePlace, context: &Context<'a>) -> Result<Vec<&'a Row>, Fault>
    ensures { MeetsAs rows_of_line result (table_rows context.now place) }
{
    match place {
        TablePlace::Base(place) => base_rows_at(place, context),
        TablePlace::View(place) => view_rows_at(place, context),
    }
}

fn base_rows_at<'a>(place: usize, context: &Context<'a>) -> Result<Vec<&'a Row>, Fault>
    ensures { MeetsAs rows_of_line result
        (and_then (base_there context.now place) (λ base. Ok (lent base.rows.items))) }
{
    let base = base_at(place, context)?;
    Ok(Vec::from_slice(context.alloc, base.rows.as_slice())?)
}

fn view_rows_at<'a>(place: usize, context: &Context<'a>) -> Result<Vec<&'a Row>, Fault>
    ensures { MeetsAs rows_of_line result
        (and_then (view_there context.now place) (λ view. Ok view.rows.items)) }
{
    view_at(place, context)?.lend(context.alloc)
}

/// No rows of a table or view, but the status that the view's query ended with.
pub fn no_rows_at<'a>(place: TablePlace, context: &Context<'a>) -> Result<Vec<&'a Row>, Fault>
    ensures { HasRowsBut (λ row. ⊤) result (table_rows context.now place) }
{
    match place {
        TablePlace::Base(place) => no_base_rows(place, context),
        TablePlace::View(place) => no_view_rows(place, context),
    }
}

fn no_base_rows<'a>(place: usize, context: &Context<'a>) -> Result<Vec<&'a Row>, Fault>
    ensures { HasRowsBut (λ row. ⊤) result
        (and_then (base_there context.now place) (λ base. Ok (lent base.rows.items))) }
{
    base_at(place, context)?;
    Ok(Vec::new(context.alloc))
}

fn no_view_rows<'a>(place: usize, context: &Context<'a>) -> Result<Vec<&'a Row>, Fault>
    ensures { HasRowsBut (λ row. ⊤) result
        (and_then (view_there context.now place) (λ view. Ok view.rows.items)) }
{
    view_at(place, context)?;
    Ok(Vec::new(context.alloc))
}

fn base_at<'a>(place: usize, context: &Context<'a>) -> Result<&'a BaseRows<'a>, Fault>
    ensures { MeetsAs (λ base. base.now) result (base_there context.now place) }
{
    match context.bases.iter().find(|base| base.place == place) {
        Some(base) => Ok(base),
        None => Err(Fault::NOT_WELL_FORMED),
    }
}

/// The rows of a view, or the status that its query ended with.
fn view_at<'a>(place: usize, context: &Context<'a>) -> Result<&'a ViewRows, Fault>
    ensures { MeetsAs (λ view. view.now) result (view_there context.now place) }
{
    match context.views.iter().find(|view| view.place == place) {
        Some(view) => match view.failure {
            None => Ok(view),
            Some(failure) => Err(Fault::Status(failure)),
        },
        None => Err(Fault::NOT_WELL_FORMED),
    }
}

impl ViewRows {
    fn lend(&self, alloc: Global) -> Result<Vec<&Row>, Fault>
        ensures { MeetsAs rows_of_line result (Ok self.now.rows.items) }
    {
        let mut rows = Vec::with_capacity(alloc, self.rows.len())?;
        for row in self.rows.as_slice() {
            rows.push(row)?;
        }
        Ok(rows)
    }
}

//! Why a call did not end with 00000: the constraint and the row, the cursor and where it stands, the fault of the statement.
//!
//! A call that fails changes no table, and a FETCH that fails stays on the row that it reached. So a cause is found anew, after the call,
//! from the session as it is then: calls pay nothing for it. What a cause says is a definition (`specs/Cause.antt`); that it is the first of
//! several is promised of NOT NULL, and of check options and CHECKs that end with a status.
#![tactic(auto)]

mod breach;
mod cause;
mod changing;
mod clause;
mod constraint;
mod cursor;
mod key_breach;
mod made;
mod no_row;
mod option_breach;
mod put;
mod query_cause;
mod query_rows;
mod query_value;
mod reference_breach;
mod row_breach;
mod row_end;
mod select;
mod set_value;
mod target;
mod target_end;
mod told;
mod value;

pub use cause::{
    Breach, Cause, Clause, ClauseCause, CursorCause, Demand, Given, ItemFault, NoRowCause,
    OptionBreach, QueryCause, Referring, RowEnd, RowPut, SelectCause, TargetCause, TargetFault,
    ValueCause, ValueFault,
};
pub use made::number_meant;
pub use told::why;

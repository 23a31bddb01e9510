//! Where a query ends with a status: in which clause, and on which line of the product of its tables (ISO/IEC 9075:1992,
//! 7.4 to 7.9).
#![tactic(auto)]

mod by_key;
mod ending;
mod ends;
mod functions;
mod grouped;
mod groups;
mod inside;
mod kept;
mod needed;
mod number;
mod read;
mod shown;
mod walk;

pub use ending::query_end;
pub use ends::{Clause, ClauseEnd, QueryEnd};
pub use inside::{InnerEnd, inner_end};
pub use number::row_number;

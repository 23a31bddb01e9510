//! Values of SQL and their operations (ISO/IEC 9075:1992, clauses 4, 6, 8 and 9): exact numbers, texts, truths,
//! domains, storing and retrieving, LIKE, set functions and keys.
#![tactic(auto)]

mod comparison;
mod decimal;
mod domain;
mod fault;
mod hashing;
mod key;
mod pattern;
mod retrieving;
mod set_functions;
mod spelling;
mod storing;
mod text;
mod truth;
mod value;
mod wide;

pub use decimal::Decimal;
pub use domain::{Domain, Kind};
pub use fault::{ArithmeticFault, LikeFault, ReadFault, RetrieveFault, StoreFault};
pub use hashing::hash_columns;
pub use key::Key;
pub use pattern::like;
pub use retrieving::{Retrieved, retrieve};
pub use set_functions::{avg, greatest, least, sum};
pub use storing::{start_value, store};
pub use text::Text;
pub use truth::Truth;
pub use value::{Row, Value, copy_row};

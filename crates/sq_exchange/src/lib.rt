//! Answers as codes, values, names and texts in rooms, as programs in other languages hand them in and get
//! them back.
#![tactic(auto)]

mod answer;
mod name;
mod number;
mod room;
mod value;

pub use answer::{Answer, answer_text};
pub use name::name_of;
pub use number::{number_value, spelled_value};
pub use room::put_text;
pub use value::{digits_of, kind_of, number_of, text_of, text_value};

/// The version of the sources, which the file VERSION has, too.
pub const VERSION: &str = "0.1.0";

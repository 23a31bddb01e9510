//! Advice beside the lines of `check`, by the tokens of the texts: the token at which a text is refused, the
//! tokens that may be there, a hint, and the place of the next error.
#![tactic(auto)]

mod advice;
mod blame;
mod element;
mod excerpt;
mod expected;
mod grouped;
mod hint;
mod hints;
mod item;
mod json;
mod kind;
mod lexical;
mod line;
mod meaning;
mod names;
mod near;
mod need;
mod nullable;
mod offset;
mod pass;
mod passed;
mod privilege;
mod refused;
mod refused_part;
mod schemas;
mod slips;
mod source;
mod spelled;
mod stands;
mod table;
mod text;
mod typed;

pub use advice::{Advice, Trouble, What};
pub use blame::advice_on_schema;
pub use item::{Form, Item, Part, Weight, write_item};
pub use kind::TextKind;
pub use meaning::Module;
pub use offset::offset_of;
pub use pass::troubles_of;
pub use passed::{Piece, Why, pass_over};
pub use schemas::Schemas;
pub use slips::{Doubt, Slip, slips_of};
pub use source::Source;
pub use text::Text;

//! What is shown of a run beside its report.
//!
//! - The words of a cause: why a call did not end with 00000 (`sq_cause`).
//! - A trace: to the lines of the report come lines that say what each call was, why it failed, what it changed and where its
//!   cursor stands. These begin with two blanks and `--`, and the report is what is left without them. And a page that steps through a run.
//! - A shell: where an item ends that is typed, what a session does with one after the other, and what the session has.
#![tactic(auto)]

mod breach_words;
mod call_words;
mod changes;
mod clause_words;
mod cursors;
mod item;
mod json;
mod last;
mod listing;
mod look;
mod mark;
mod notes;
mod option_words;
mod page;
mod place;
mod query_words;
mod shell;
mod table;
mod template;
mod touched;
mod trace;
mod value_words;
mod view;
mod ways;
mod words;

pub use item::item_size;
pub use last::LastCall;
pub use listing::{write_cursors, write_procedures, write_procedures_of, write_tables};
pub use page::trace_page;
pub use place::{Place, place_in};
pub use shell::Shell;
pub use sq_perform::{open_session, read_script};
pub use sq_session::Session;
pub use trace::{TraceFault, TraceOptions, trace_action, trace_all};
pub use view::write_view;
pub use ways::write_ways;
pub use words::write_cause;

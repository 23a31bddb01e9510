//! A run: schema, module and script texts in, the report of a session out.
#![tactic(auto)]

mod action;
mod checked;
mod fault;
mod items;
mod limits;
mod long_script;
mod perform;
mod prepare;
mod refusal;
mod report;
mod texts;

pub use action::{Action, CallAction, ShowAction};
pub use checked::{Checked, Note, Notes, check};
pub use limits::Limits;
pub use perform::{perform as perform_action, run};
pub use prepare::{open_session, read_script};
pub use refusal::{Refusal, RefusalName, RunFault};
pub use report::{write_call, write_table, write_value};
pub use sq_catalog::RefusalName as SchemaRefusalName;
pub use sq_check::{Remark, Rule};
pub use sq_lex::LexFaultKind;
pub use sq_meaning::ModuleFault;
pub use sq_out::{Out, OutFault, OutOf};

//! Sessions for programs in other languages, as `sq_host_c` offers them to C.
//!
//! A program keeps a `Handle` and hands it in with each call. A handle leads to a `Host`: texts, and from
//! when they are opened a session. Nothing is global, so hosts don't know of each other.
#![tactic(auto)]

mod apart;
mod asked;
mod calls;
mod handle;
mod host;
mod kept;
mod outputs;
mod set;
mod table;
mod texts;
mod trial;

pub use handle::Handle;

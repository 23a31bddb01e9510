//! Hints at tokens that a text may not have: features that docs/LANGUAGE.md leaves out, the habits of
//! docs/COMING_FROM.md, and forms of old modules. If several fit, the first is given.

mod anywhere;
mod modules;
mod queries;
mod schemas;
mod scripts;
mod types;

pub(crate) use anywhere::ANYWHERE;
pub(crate) use modules::MODULES;
pub(crate) use queries::QUERIES;
pub(crate) use schemas::SCHEMAS;
pub(crate) use scripts::SCRIPTS;
pub(crate) use types::TYPES;

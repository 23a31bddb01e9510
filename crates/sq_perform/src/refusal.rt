//! Why a run stops before its end.
use sq_lex::LexFaultKind;
use sq_meaning::ModuleFault;
use thiserror::Error;

/// Why a run stops before its end.
#[derive(Clone, Copy, Debug, PartialEq, Eq, Error)]
pub enum RunFault {
    /// A schema text is refused. Nothing was written.
    #[error("schema refused: {0}")]
    SchemaRefused(Refusal),
    /// A module text is refused. Nothing was written.
    #[error("module refused: {0}")]
    ModuleRefused(Refusal),
    /// The script is refused. Nothing was written.
    #[error("script refused: {0}")]
    ScriptRefused(Refusal),
    /// The output failed, after it took this many bytes of the report.
    #[error("output fault after {0} bytes")]
    Write(u128),
    /// Memory ran out. The lines of this many script items were written, and no others.
    #[error("want of memory after {0} items")]
    NoMemory(usize),
}

/// The refusal of a text: its name, and its place.
#[derive(Clone, Copy, Debug, PartialEq, Eq, Error)]
#[error("{what}")]
pub struct Refusal {
    /// The text's index among the texts of its kind, from 0.
    pub text: usize,
    /// The line of the token that is refused, from 1; a line ends with LF.
    pub line: usize,
    /// The column of the token that is refused, from 1, in bytes.
    pub column: usize,
    pub what: RefusalName,
}

/// The name of a refusal, which is what it prints.
#[derive(Clone, Copy, Debug, PartialEq, Eq, Error)]
pub enum RefusalName {
    /// The bytes are no tokens.
    #[error("{0:?}")]
    Lexical(LexFaultKind),
    /// The first token that cannot follow the tokens before it in any text of the grammar.
    #[error("Unexpected")]
    Unexpected,
    /// An opening bracket where 32 are open.
    #[error("TooDeep")]
    TooDeep,
    /// The text ends where no text of the grammar does.
    #[error("EndOfText")]
    EndOfText,
    /// A schema or one of its elements can't be defined.
    #[error("{0}")]
    Schema(sq_catalog::RefusalName),
    /// A module, or one of its cursors or procedures, breaks a rule for which the text is refused and not just the call.
    #[error("{0:?}")]
    Module(ModuleFault),
    /// A call of a procedure that no module has.
    #[error("UnknownProcedure")]
    UnknownProcedure,
    /// A base table that no schema has.
    #[error("UnknownTable")]
    UnknownTable,
    /// Too few or too many values for the procedure's named parameters, or one that its parameter can't hold.
    #[error("BadArguments")]
    BadArguments,
}

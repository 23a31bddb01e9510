//! The kinds of texts, and why one is refused for its grammar.

ghost use Rattle.std.specs.Prelude.{◌≡◌, ◌-◌, IfOk};
ghost use Rattle.sq_lex.specs.Token.{lexemes};
ghost use Rattle.sq_grammar.specs.declared.brackets.TheConstants.{MAX_DEPTH};
ghost use Rattle.sq_grammar.specs.Module.{module_text};
ghost use Rattle.sq_grammar.specs.Schema.{schema_text};
ghost use Rattle.sq_grammar.specs.Script.{script_text};
ghost use Rattle.sq_parse.specs.Refusal.{parsed};
ghost use Rattle.sq_advice.specs.Expected as spec;

use sq_lex::Token;
use sq_parse::{ParseError, parse_module, parse_schema, parse_script};
use std::alloc::{AllocError, Global};

/// The kind of a text.
#[derive(Clone, Copy, Debug, PartialEq, Eq)]
pub enum TextKind {
    Schema,
    Module,
    Script,
}

/// Why a text of these tokens is refused for its grammar, if it is.
#[tactic(auto, unfolding(crate::specs::Expected::refusal_of))]
pub(crate) fn refusal_of(
    alloc: Global,
    kind: TextKind,
    tokens: &[Token],
) -> Result<Option<ParseError>, AllocError>
    ensures { IfOk result (λ refusal. refusal ≡ spec.refusal_of kind (lexemes tokens.now)) }
{
    match kind {
        TextKind::Schema => schema_refusal(alloc, tokens),
        TextKind::Module => module_refusal(alloc, tokens),
        TextKind::Script => script_refusal(alloc, tokens),
    }
}

fn schema_refusal(alloc: Global, tokens: &[Token]) -> Result<Option<ParseError>, AllocError>
    ensures { IfOk result (λ refusal. refusal
        ≡ spec.error_of (parsed (schema_text MAX_DEPTH (MAX_DEPTH - 1)) (lexemes tokens.now))) }
{
    match parse_schema(alloc, tokens) {
        Ok(tree) => {
            drop(tree);
            Ok(None)
        }
        Err(ParseError::NoMemory) => Err(AllocError),
        Err(refusal) => Ok(Some(refusal)),
    }
}

fn module_refusal(alloc: Global, tokens: &[Token]) -> Result<Option<ParseError>, AllocError>
    ensures { IfOk result (λ refusal. refusal
        ≡ spec.error_of (parsed (module_text MAX_DEPTH) (lexemes tokens.now))) }
{
    match parse_module(alloc, tokens) {
        Ok(tree) => {
            drop(tree);
            Ok(None)
        }
        Err(ParseError::NoMemory) => Err(AllocError),
        Err(refusal) => Ok(Some(refusal)),
    }
}

fn script_refusal(alloc: Global, tokens: &[Token]) -> Result<Option<ParseError>, AllocError>
    ensures { IfOk result (λ refusal. refusal ≡ spec.error_of (parsed script_text (lexemes tokens.now))) }
{
    match parse_script(alloc, tokens) {
        Ok(tree) => {
            drop(tree);
            Ok(None)
        }
        Err(ParseError::NoMemory) => Err(AllocError),
        Err(refusal) => Ok(Some(refusal)),
    }
}

//! The three kinds of texts.

ghost use Rattle.std.specs.Prelude.{◌≡◌, ◌≤◌, ◌-◌, IfErr, IfOk};
ghost use Rattle.sq_lex.specs.Token.{lexemes};
ghost use Rattle.sq_grammar.specs.declared.brackets.TheConstants.{MAX_DEPTH};
ghost use Rattle.sq_grammar.specs.Module.{module_text};
ghost use Rattle.sq_grammar.specs.Schema.{schema_text};
ghost use Rattle.sq_grammar.specs.Script.{script_text};
ghost use Rattle.sq_tree.specs.Module.{module_tokens, module_depth};
ghost use Rattle.sq_tree.specs.Schema.{schema_tokens, schema_depth};
ghost use Rattle.sq_tree.specs.Script.{script_tokens, script_depth};
ghost use Rattle.sq_parse.specs.Refusal.{Answers, HasNoTree, IsOnlyTree, IsRefusal, parsed};

use crate::error::{ParseError, refusal};
use crate::module::whole_module;
use crate::schema::whole_schema;
use crate::script::whole_script;
use sq_grammar::{MAX_DEPTH, Reader};
use sq_lex::Token;
use sq_tree::{ModuleText, SchemaText, ScriptText};
use std::alloc::Global;

/// The tree of a script text: items, each with a semicolon after it (own rule).
pub fn parse_script(alloc: Global, tokens: &[Token]) -> Result<ScriptText, ParseError>
    ensures parsed { Answers (parsed script_text (lexemes tokens.now)) result }
    ensures spelled { IfOk result (λ tree. lexemes tokens.now ≡ script_tokens tree) }
    ensures shallow { IfOk result (λ tree. script_depth tree ≤ MAX_DEPTH) }
    ensures only { IfOk result (IsOnlyTree script_tokens (lexemes tokens.now)) }
    ensures refused { IfErr result (IsRefusal (lexemes tokens.now)) }
    ensures no_tree { IfErr result (HasNoTree script_tokens script_depth (lexemes tokens.now)) }
{
    match whole_script(alloc, &mut Reader::new(tokens)) {
        Ok(tree) => Ok(tree),
        Err(stop) => Err(refusal(tokens, stop)),
    }
}

/// The tree of a module text (ISO/IEC 9075:1992, 12.1).
pub fn parse_module(alloc: Global, tokens: &[Token]) -> Result<ModuleText, ParseError>
    ensures parsed { Answers (parsed (module_text MAX_DEPTH) (lexemes tokens.now)) result }
    ensures spelled { IfOk result (λ tree. lexemes tokens.now ≡ module_tokens tree) }
    ensures shallow { IfOk result (λ tree. module_depth tree ≤ MAX_DEPTH) }
    ensures only { IfOk result (IsOnlyTree module_tokens (lexemes tokens.now)) }
    ensures refused { IfErr result (IsRefusal (lexemes tokens.now)) }
    ensures no_tree { IfErr result (HasNoTree module_tokens module_depth (lexemes tokens.now)) }
{
    match whole_module(alloc, &mut Reader::new(tokens), MAX_DEPTH) {
        Ok(tree) => Ok(tree),
        Err(stop) => Err(refusal(tokens, stop)),
    }
}

/// The tree of a schema text: one schema definition or more (ISO/IEC 9075:1992, 11.1).
pub fn parse_schema(alloc: Global, tokens: &[Token]) -> Result<SchemaText, ParseError>
    ensures parsed { Answers (parsed (schema_text MAX_DEPTH (MAX_DEPTH - 1)) (lexemes tokens.now)) result }
    ensures spelled { IfOk result (λ tree. lexemes tokens.now ≡ schema_tokens tree) }
    ensures shallow { IfOk result (λ tree. schema_depth tree ≤ MAX_DEPTH) }
    ensures only { IfOk result (IsOnlyTree schema_tokens (lexemes tokens.now)) }
    ensures refused { IfErr result (IsRefusal (lexemes tokens.now)) }
    ensures no_tree { IfErr result (HasNoTree schema_tokens schema_depth (lexemes tokens.now)) }
{
    match whole_schema(alloc, &mut Reader::new(tokens), MAX_DEPTH) {
        Ok(tree) => Ok(tree),
        Err(stop) => Err(refusal(tokens, stop)),
    }
}

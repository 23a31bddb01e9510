//! Reading texts: from bytes to trees, and from a token's number to its position.
ghost use Rattle.std.specs.Prelude.{◌≡◌, ◌<◌, ◌≤◌, length, Ok, IfErr, IfOk, IsOk};
ghost use Rattle.sq_lex.specs.Reading.{reading};
ghost use Rattle.sq_lex.specs.Token.{lexemes};
ghost use Rattle.sq_grammar.specs.declared.brackets.TheConstants.{MAX_DEPTH};
ghost use Rattle.sq_parse.specs.Refusal.{Answers, HasNoTree, parsed};
ghost use Rattle.sq_tree.specs.Schema.{schema_tokens, schema_depth};
ghost use Rattle.sq_tree.specs.Module.{module_tokens, module_depth};
ghost use Rattle.sq_tree.specs.Script.{script_tokens, script_depth};
ghost use Rattle.sq_perform.specs.Fault as spec;
ghost use Rattle.sq_perform.specs.Fault.{IsOfSpelling, IsPlacedAmong, IsPlacedIfAny, IsRefusalIfAny, IsRefusedText, IsUnread, SomeRefused};
ghost use Rattle.sq_perform.specs.Read.{module_rule, refusal_of, schema_rule, script_rule};
ghost use Rattle.sq_perform.specs.declared.fault.Fault.TheVariants.{Refused};
ghost use Rattle.sq_perform.specs.Refusal.{Meaning, matter};
ghost use Rattle.sq_perform.specs.Texts.{AllSpell, SomeTrees, SpellsTree, texts};

use crate::fault::Fault;
use crate::refusal::{Refusal, RefusalName};
use sq_lex::{LexError, Position, Token, lex};
use sq_parse::{ParseError, parse_module, parse_schema, parse_script};
use sq_tree::{ModuleText, SchemaText, ScriptText};
use std::alloc::Global;

/// Why a text is not taken.
pub(crate) type TextFault = Fault<Refusal>;

/// A kind of texts, named by the type of its trees.
pub(crate) trait TextTree: Drop {
    ghost use Rattle.std.specs.Prelude.{List, ℕ};
    ghost use Rattle.sq_grammar.specs.Reading.{Parser};
    ghost use Rattle.sq_lex.specs.declared.lexeme.Lexeme.{Lexeme};

    /// The rule of the grammar.
    ghost rule: { Parser Self };

    /// The list of a tree's tokens.
    ghost tokens: { Self → List Lexeme };

    /// The greatest number of round brackets that are open at once.
    ghost depth: { Self → ℕ };

    /// The tree of a text's tokens.
    fn parse(alloc: Global, source: &[Token]) -> Result<Self, ParseError>
        ensures parsed { Answers (parsed rule (lexemes source.now)) result }
        ensures spelled { IfOk result (λ tree. lexemes source.now ≡ tokens tree) }
        ensures shallow { IfOk result (λ tree. depth tree ≤ MAX_DEPTH) }
        ensures no_tree { IfErr result (HasNoTree tokens depth (lexemes source.now)) };
}

impl TextTree for SchemaText {
    ghost rule = { schema_rule };

    ghost tokens = { schema_tokens };

    ghost depth = { schema_depth };

    fn parse(alloc: Global, source: &[Token]) -> Result<SchemaText, ParseError> {
        parse_schema(alloc, source)
    }
}

impl TextTree for ModuleText {
    ghost rule = { module_rule };

    ghost tokens = { module_tokens };

    ghost depth = { module_depth };

    fn parse(alloc: Global, source: &[Token]) -> Result<ModuleText, ParseError> {
        parse_module(alloc, source)
    }
}

impl TextTree for ScriptText {
    ghost rule = { script_rule };

    ghost tokens = { script_tokens };

    ghost depth = { script_depth };

    fn parse(alloc: Global, source: &[Token]) -> Result<ScriptText, ParseError> {
        parse_script(alloc, source)
    }
}

/// The trees of all texts of a kind, or why the first that has none is not taken.
pub(crate) fn read_all<T: TextTree>(alloc: Global, all: &[Vec<u8>]) -> Result<Vec<T>, TextFault>
    ensures spelled { IfOk result (λ trees. AllSpell T.tokens T.depth (texts all.now) trees.items) }
    ensures refused { IfErr result (SomeRefused T.rule T.tokens T.depth (texts all.now)) }
    ensures spelling { IfErr result IsOfSpelling }
{
    let mut trees = Vec::new(alloc);
    for (number, text) in all.iter().enumerate() {
        match read_text(alloc, number, text.as_slice()) {
            Ok(tree) => trees.push(tree)?,
            Err(fault) => {
                drop(trees);
                return Err(fault);
            }
        }
    }
    Ok(trees)
}

/// The tree of the text of this number among its kind.
pub(crate) fn read_text<T: TextTree>(
    alloc: Global,
    number: usize,
    text: &[u8],
) -> Result<T, TextFault>
    ensures spelled { IfOk result (SpellsTree T.tokens T.depth text.now) }
    ensures refused { IfErr result (IsRefusedText T.rule number T.tokens T.depth text.now) }
{
    let tokens = tokens_of(alloc, number, text)?;
    match T::parse(alloc, tokens.as_slice()) {
        Ok(tree) => Ok(tree),
        Err(fault) => Err(parse_fault(text, tokens.as_slice(), number, fault)),
    }
}

fn tokens_of(alloc: Global, number: usize, text: &[u8]) -> Result<Vec<Token>, TextFault>
    ensures read { IfOk result (λ tokens. reading text.now ≡ Ok tokens.items) }
    ensures unread { IfErr result (IsUnread number text.now) }
{
    match lex(alloc, text) {
        Ok(tokens) => Ok(tokens),
        Err(LexError::NoMemory) => Err(TextFault::NoMemory),
        Err(LexError::Fault(fault)) => Err(TextFault::Refused(Refusal {
            text: number,
            line: fault.line,
            column: fault.column,
            what: RefusalName::Lexical(fault.kind),
        })),
    }
}

/// What a parse's fault means for a text. A text that ends too early is refused at its last token.
fn parse_fault(text: &[u8], tokens: &[Token], number: usize, fault: ParseError) -> TextFault
    ensures { result ≡ spec.parse_fault number text.now tokens.now fault }
{
    match fault {
        ParseError::NoMemory => TextFault::NoMemory,
        ParseError::Unexpected(token) => {
            refused_at(text, tokens, number, token, RefusalName::Unexpected)
        }
        ParseError::TooDeep(token) => refused_at(text, tokens, number, token, RefusalName::TooDeep),
        ParseError::EndOfText => {
            let last = tokens.len().saturating_sub(1);
            refused_at(text, tokens, number, last, RefusalName::EndOfText)
        }
    }
}

/// A refusal at a token, or at the start of a text that has no such token.
fn refused_at(
    text: &[u8],
    tokens: &[Token],
    number: usize,
    token: usize,
    what: RefusalName,
) -> TextFault
    ensures { result ≡ Refused (refusal_of number text.now tokens.now token what) }
{
    let start = match tokens.get(token) {
        Some(token) => token.start,
        None => 0,
    };
    let Position { line, column, .. } = Position::of(text, start);
    TextFault::Refused(Refusal {
        text: number,
        line,
        column,
        what,
    })
}

/// A refusal of the text of this number among those of a kind, for what it says, at a token.
pub(crate) fn refused_text<T: TextTree>(
    alloc: Global,
    all: &[Vec<u8>],
    number: usize,
    token: usize,
    what: RefusalName,
) -> TextFault
    requires spelled { SomeTrees T.tokens T.depth (texts all.now) }
    requires there { number < length all.now }
    requires meaning { matter what ≡ Meaning }
    ensures refused { SomeRefused T.rule T.tokens T.depth (texts all.now) result }
    ensures what { IsRefusalIfAny number what result }
    ensures placed { IsPlacedAmong (texts all.now) number token result }
{
    refused_again(alloc, all[number].as_slice(), number, token, what)
}

/// A refusal for what a text says, at a token. No tokens are kept once a text has its tree, so they are read once more.
#[tactic(auto, using(crate::proofs::Taken::placed_again, crate::proofs::Taken::named_again))]
pub(crate) fn refused_again(
    alloc: Global,
    text: &[u8],
    number: usize,
    token: usize,
    what: RefusalName,
) -> TextFault
    requires { IsOk (reading text.now) }
    ensures what { IsRefusalIfAny number what result }
    ensures placed { IsPlacedIfAny text.now token result }
{
    match lex(alloc, text) {
        Ok(tokens) => refused_at(text, tokens.as_slice(), number, token, what),
        Err(LexError::NoMemory) => TextFault::NoMemory,
        Err(LexError::Fault(_)) => unreachable!(),
    }
}

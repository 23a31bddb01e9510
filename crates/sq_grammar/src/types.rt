//! Data types.

ghost use Rattle.std.specs.Prelude.{◌≡◌, ◌<◌, ◌≤◌, length, OnOk, OnSome};
ghost use Rattle.sq_grammar.specs.DataType as spec;
ghost use Rattle.sq_grammar.specs.Reading.{behind, comma, number, one_if_any};
ghost use Rattle.sq_grammar.specs.Reads.{Reads};

use crate::TypeWord;
use crate::reader::Reader;
use crate::stop::Stop;
use sq_lex::{Lexeme, Number, Symbol, Word};
use sq_tree::{CharacterWord, DataType, ExactWord, Precision, VaryingWord};

fn scale(tokens: &mut Reader<'_>) -> Result<Option<Number>, Stop>
    ensures value { Reads (behind comma number tokens.old) result tokens.new }
    ensures no_longer { OnOk result (length tokens.new ≤ length tokens.old) }
{
    if !tokens.eat(Symbol::Comma) {
        return Ok(None);
    }
    let scale = tokens.number()?;
    Ok(Some(scale))
}

#[tactic(auto, unfolding(crate::specs::DataType::precision_from))]
fn precision_from(tokens: &mut Reader<'_>) -> Result<Precision, Stop>
    ensures value { Reads (spec.precision_from tokens.old) result tokens.new }
    ensures no_longer { OnOk result (length tokens.new ≤ length tokens.old) }
{
    let precision = tokens.number()?;
    let scale = scale(tokens)?;
    tokens.expect(Symbol::Close)?;
    Ok(Precision { precision, scale })
}

#[tactic(auto, unfolding(crate::specs::DataType::precision))]
fn precision(tokens: &mut Reader<'_>) -> Result<Option<Precision>, Stop>
    ensures value { Reads (spec.precision tokens.old) result tokens.new }
    ensures no_longer { OnOk result (length tokens.new ≤ length tokens.old) }
{
    if !tokens.eat(Symbol::Open) {
        return Ok(None);
    }
    let precision = precision_from(tokens)?;
    Ok(Some(precision))
}

#[tactic(auto, unfolding(crate::specs::DataType::length_from))]
fn length_from(tokens: &mut Reader<'_>) -> Result<Number, Stop>
    ensures value { Reads (spec.length_from tokens.old) result tokens.new }
    ensures no_longer { OnOk result (length tokens.new ≤ length tokens.old) }
{
    let length = tokens.number()?;
    tokens.expect(Symbol::Close)?;
    Ok(length)
}

#[tactic(auto, unfolding(crate::specs::DataType::length_in))]
fn length_in(tokens: &mut Reader<'_>) -> Result<Number, Stop>
    ensures value { Reads (spec.length_in tokens.old) result tokens.new }
    ensures no_longer { OnOk result (length tokens.new ≤ length tokens.old) }
{
    tokens.expect(Symbol::Open)?;
    length_from(tokens)
}

#[tactic(auto, unfolding(crate::specs::DataType::length_if_any))]
fn length_if_any(tokens: &mut Reader<'_>) -> Result<Option<Number>, Stop>
    ensures value { Reads (spec.length_if_any tokens.old) result tokens.new }
    ensures no_longer { OnOk result (length tokens.new ≤ length tokens.old) }
{
    if !tokens.eat(Symbol::Open) {
        return Ok(None);
    }
    let length = length_from(tokens)?;
    Ok(Some(length))
}

fn varying_of(word: CharacterWord) -> VaryingWord
    ensures { result ≡ spec.varying_of word }
{
    match word {
        CharacterWord::Character => VaryingWord::CharacterVarying,
        CharacterWord::Char => VaryingWord::CharVarying,
    }
}

/// The type whose first word, CHARACTER or CHAR, is read already.
#[tactic(auto, unfolding(crate::specs::DataType::character_type))]
fn character_type(tokens: &mut Reader<'_>, word: CharacterWord) -> Result<DataType, Stop>
    ensures value { Reads (spec.character_type word tokens.old) result tokens.new }
    ensures no_longer { OnOk result (length tokens.new ≤ length tokens.old) }
{
    if tokens.eat_word(Word::Varying) {
        let length = length_in(tokens)?;
        return Ok(DataType::Varying(varying_of(word), length));
    }
    let length = length_if_any(tokens)?;
    Ok(DataType::Character(word, length))
}

fn type_word_of(lexeme: &Lexeme) -> Option<TypeWord>
    ensures { result ≡ spec.type_word_of lexeme.now }
{
    match lexeme {
        Lexeme::Word(Word::Smallint) => Some(TypeWord::Smallint),
        Lexeme::Word(Word::Integer) => Some(TypeWord::Integer),
        Lexeme::Word(Word::Int) => Some(TypeWord::Int),
        Lexeme::Word(Word::Numeric) => Some(TypeWord::Exact(ExactWord::Numeric)),
        Lexeme::Word(Word::Decimal) => Some(TypeWord::Exact(ExactWord::Decimal)),
        Lexeme::Word(Word::Dec) => Some(TypeWord::Exact(ExactWord::Dec)),
        Lexeme::Word(Word::Character) => Some(TypeWord::Character(CharacterWord::Character)),
        Lexeme::Word(Word::Char) => Some(TypeWord::Character(CharacterWord::Char)),
        Lexeme::Word(Word::Varchar) => Some(TypeWord::Varchar),
        _ => None,
    }
}

#[tactic(auto, unfolding(crate::specs::Reading::one_if_any))]
fn type_word_if_any(tokens: &mut Reader<'_>) -> Option<TypeWord>
    ensures value { one_if_any spec.type_word_of tokens.old ≡ Ok (result, tokens.new) }
    ensures shorter { OnSome result (length tokens.new < length tokens.old) }
{
    let word = type_word_of(tokens.first()?)?;
    tokens.skip();
    Some(word)
}

/// A data type (ISO/IEC 9075:1992, 6.1).
#[tactic(auto, unfolding(crate::specs::DataType::data_type))]
pub fn data_type(tokens: &mut Reader<'_>) -> Result<DataType, Stop>
    ensures value { Reads (spec.data_type tokens.old) result tokens.new }
    ensures shorter { OnOk result (length tokens.new < length tokens.old) }
{
    match type_word_if_any(tokens) {
        Some(TypeWord::Smallint) => Ok(DataType::Smallint),
        Some(TypeWord::Integer) => Ok(DataType::Integer),
        Some(TypeWord::Int) => Ok(DataType::Int),
        Some(TypeWord::Exact(word)) => {
            let precision = precision(tokens)?;
            Ok(DataType::Exact(word, precision))
        }
        Some(TypeWord::Character(word)) => character_type(tokens, word),
        Some(TypeWord::Varchar) => {
            let length = length_in(tokens)?;
            Ok(DataType::Varying(VaryingWord::Varchar, length))
        }
        None => Err(tokens.stop()),
    }
}

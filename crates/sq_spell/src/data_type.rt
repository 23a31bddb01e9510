//! The spelling of data types.

ghost use Rattle.sq_tree.specs.DataType as spec;

use crate::row::Behind;
use crate::sink::Sink;
use crate::tree::Tree;
use sq_lex::{Symbol, Word};
use sq_tree::{CharacterWord, DataType, ExactWord, Precision, VaryingWord};

impl Tree for DataType {
    ghost tokens = { spec.data_type_tokens };

    fn walk<S: Sink>(&self, sink: &mut S) -> Result<(), S::Stop> {
        match self {
            DataType::Smallint => Word::Smallint.walk(sink),
            DataType::Integer => Word::Integer.walk(sink),
            DataType::Int => Word::Int.walk(sink),
            DataType::Exact(name, precision) => (name, precision).walk(sink),
            DataType::Character(name, Some(length)) => {
                (name, Symbol::Open, *length, Symbol::Close).walk(sink)
            }
            DataType::Character(name, None) => name.walk(sink),
            DataType::Varying(name, length) => {
                (name, Symbol::Open, *length, Symbol::Close).walk(sink)
            }
        }
    }
}

impl Tree for ExactWord {
    ghost tokens = { spec.exact_word_tokens };

    fn walk<S: Sink>(&self, sink: &mut S) -> Result<(), S::Stop> {
        let word = match self {
            ExactWord::Numeric => Word::Numeric,
            ExactWord::Decimal => Word::Decimal,
            ExactWord::Dec => Word::Dec,
        };
        word.walk(sink)
    }
}

impl Tree for CharacterWord {
    ghost tokens = { spec.character_word_tokens };

    fn walk<S: Sink>(&self, sink: &mut S) -> Result<(), S::Stop> {
        let word = match self {
            CharacterWord::Character => Word::Character,
            CharacterWord::Char => Word::Char,
        };
        word.walk(sink)
    }
}

impl Tree for VaryingWord {
    ghost tokens = { spec.varying_word_tokens };

    fn walk<S: Sink>(&self, sink: &mut S) -> Result<(), S::Stop> {
        match self {
            VaryingWord::CharacterVarying => (Word::Character, Word::Varying).walk(sink),
            VaryingWord::CharVarying => (Word::Char, Word::Varying).walk(sink),
            VaryingWord::Varchar => Word::Varchar.walk(sink),
        }
    }
}

impl Tree for Precision {
    ghost tokens = { spec.precision_tokens };

    fn walk<S: Sink>(&self, sink: &mut S) -> Result<(), S::Stop> {
        let scale = Behind(Symbol::Comma, &self.scale);
        (Symbol::Open, self.precision, scale, Symbol::Close).walk(sink)
    }
}

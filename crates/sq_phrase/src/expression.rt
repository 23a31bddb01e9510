//! Value expressions, over a parser of the text after a bracket, so that each rule is proved by itself.

ghost use Rattle.std.specs.Prelude.{◌≡◌, ◌<◌, ◌≤◌, length, IfOk, OnOk, OnSome};
ghost use Rattle.sq_grammar.specs.Expr as spec;
ghost use Rattle.sq_phrase.specs.Nests.{Nests};
ghost use Rattle.sq_grammar.specs.Reading.{all, one_if_any};
ghost use Rattle.sq_grammar.specs.Reads.{Reads};

use sq_grammar::{Reader, Stop, column_from, parameter_from, sign_if_any};
use sq_items::{Boxed, Items};
use sq_lex::{Lexeme, Name, Symbol, Word};
use sq_tree::{Added, Expr, Factor, Primary, Scaled, SetFunction, SetQuantifier, Term, TimesSign};
use std::alloc::Global;

fn times_if_any(tokens: &mut Reader<'_>) -> Option<TimesSign>
    ensures value { spec.times_if_any tokens.old ≡ Ok (result, tokens.new) }
    ensures shorter { OnSome result (length tokens.new < length tokens.old) }
    ensures no_longer { length tokens.new ≤ length tokens.old }
{
    if tokens.eat(Symbol::Star) {
        return Some(TimesSign::Times);
    }
    if tokens.eat(Symbol::Slash) {
        return Some(TimesSign::Over);
    }
    None
}

/// ALL or DISTINCT, if one comes (ISO/IEC 9075:1992, 6.5).
pub fn quantifier_if_any(tokens: &mut Reader<'_>) -> Option<SetQuantifier>
    ensures value { spec.quantifier_if_any tokens.old ≡ Ok (result, tokens.new) }
    ensures no_longer { length tokens.new ≤ length tokens.old }
{
    if tokens.eat_word(Word::All) {
        return Some(SetQuantifier::All);
    }
    if tokens.eat_word(Word::Distinct) {
        return Some(SetQuantifier::Distinct);
    }
    None
}

fn function_of(lexeme: &Lexeme) -> Option<SetFunction>
    ensures { result ≡ spec.function_of lexeme.now }
{
    match lexeme {
        Lexeme::Word(Word::Count) => Some(SetFunction::Count),
        Lexeme::Word(Word::Sum) => Some(SetFunction::Sum),
        Lexeme::Word(Word::Avg) => Some(SetFunction::Avg),
        Lexeme::Word(Word::Min) => Some(SetFunction::Min),
        Lexeme::Word(Word::Max) => Some(SetFunction::Max),
        _ => None,
    }
}

#[tactic(auto, unfolding(sq_grammar::specs::Reading::one_if_any))]
fn function_if_any(tokens: &mut Reader<'_>) -> Option<SetFunction>
    ensures value { one_if_any spec.function_of tokens.old ≡ Ok (result, tokens.new) }
    ensures no_longer { length tokens.new ≤ length tokens.old }
{
    let function = function_of(tokens.first()?)?;
    tokens.skip();
    Some(function)
}

fn star_of(tokens: &mut Reader<'_>, function: SetFunction) -> bool
    ensures value { spec.star_of function tokens.old ≡ Ok (result, tokens.new) }
    ensures no_longer { length tokens.new ≤ length tokens.old }
{
    match function {
        SetFunction::Count => tokens.eat(Symbol::Star),
        _ => false,
    }
}

/// The primary of a column whose first name is read already.
fn column(tokens: &mut Reader<'_>, first: Name) -> Result<Primary, Stop>
    ensures value { Reads (spec.column first tokens.old) result tokens.new }
    ensures no_longer { OnOk result (length tokens.new ≤ length tokens.old) }
{
    let column = column_from(tokens, first)?;
    Ok(Primary::Column(column))
}

/// The rules of expressions.
#[derive(Clone, Copy)]
pub struct Grammar<F> {
    pub alloc: Global,
    /// How many brackets may still be opened.
    pub left: usize,
    /// Reads an expression after a bracket, which is one of these.
    pub inner: F,
}

impl<F: Fn(Global, &mut Reader<'_>, usize) -> Result<Expr, Stop>> Grammar<F> {
    #[tactic(auto, unfolding(sq_grammar::specs::Expr::set_function))]
    fn set_function(&self, tokens: &mut Reader<'_>, function: SetFunction) -> Result<Primary, Stop>
        requires { Nests spec.inside self.now.left (F.pre self.now.inner) (F.post self.now.inner) }
        ensures value { Reads
            (spec.set_function self.now.left (spec.inside self.now.left) function tokens.old) result
            tokens.new }
        ensures shorter { OnOk result (length tokens.new < length tokens.old) }
    {
        tokens.open(self.left)?;
        if star_of(tokens, function) {
            tokens.expect(Symbol::Close)?;
            return Ok(Primary::CountRows);
        }
        let quantifier = quantifier_if_any(tokens);
        let argument = (self.inner)(self.alloc, tokens, self.left)?;
        if let Err(stop) = tokens.expect(Symbol::Close) {
            drop(argument);
            return Err(stop);
        }
        let argument = Boxed::new(self.alloc, argument)?;
        Ok(Primary::SetFunction(function, quantifier, argument))
    }

    #[tactic(auto, unfolding(sq_grammar::specs::Expr::bracketed))]
    fn bracketed(&self, tokens: &mut Reader<'_>) -> Result<Primary, Stop>
        requires { Nests spec.inside self.now.left (F.pre self.now.inner) (F.post self.now.inner) }
        ensures value { Reads
            (spec.bracketed self.now.left (spec.inside self.now.left) tokens.old) result tokens.new }
        ensures shorter { OnOk result (length tokens.new < length tokens.old) }
    {
        tokens.open(self.left)?;
        let inner = (self.inner)(self.alloc, tokens, self.left)?;
        if let Err(stop) = tokens.expect(Symbol::Close) {
            drop(inner);
            return Err(stop);
        }
        let inner = Boxed::new(self.alloc, inner)?;
        Ok(Primary::Bracketed(inner))
    }

    #[tactic(auto, unfolding(sq_grammar::specs::Expr::primary_at))]
    fn primary(&self, tokens: &mut Reader<'_>) -> Result<Primary, Stop>
        requires { Nests spec.inside self.now.left (F.pre self.now.inner) (F.post self.now.inner) }
        ensures value { Reads
            (spec.primary_at self.now.left (spec.inside self.now.left) tokens.old) result tokens.new }
        ensures shorter { OnOk result (length tokens.new < length tokens.old) }
    {
        match tokens.first() {
            Some(Lexeme::Number(number)) => {
                tokens.skip();
                Ok(Primary::Number(*number))
            }
            Some(Lexeme::Text(characters)) => {
                tokens.skip();
                let characters = characters.get().copy(self.alloc)?;
                Ok(Primary::Text(characters))
            }
            Some(Lexeme::Name(name)) => {
                tokens.skip();
                column(tokens, *name)
            }
            Some(Lexeme::Word(_)) => self.word_primary(tokens),
            Some(Lexeme::Symbol(_)) => self.symbol_primary(tokens),
            None => Err(tokens.stop()),
        }
    }

    /// A primary that begins with a symbol.
    fn symbol_primary(&self, tokens: &mut Reader<'_>) -> Result<Primary, Stop>
        requires { Nests spec.inside self.now.left (F.pre self.now.inner) (F.post self.now.inner) }
        ensures value { Reads
            (spec.symbol_primary self.now.left (spec.inside self.now.left) tokens.old) result tokens.new }
        ensures shorter { OnOk result (length tokens.new < length tokens.old) }
    {
        if tokens.eat(Symbol::Colon) {
            let parameter = parameter_from(tokens)?;
            return Ok(Primary::Parameter(parameter));
        }
        self.word_primary(tokens)
    }

    /// A primary that begins with a reserved word or a bracket.
    fn word_primary(&self, tokens: &mut Reader<'_>) -> Result<Primary, Stop>
        requires { Nests spec.inside self.now.left (F.pre self.now.inner) (F.post self.now.inner) }
        ensures value { Reads
            (spec.word_primary self.now.left (spec.inside self.now.left) tokens.old) result tokens.new }
        ensures shorter { OnOk result (length tokens.new < length tokens.old) }
    {
        if tokens.eat_word(Word::User) {
            return Ok(Primary::User);
        }
        match function_if_any(tokens) {
            Some(function) => self.set_function(tokens, function),
            None => self.bracketed(tokens),
        }
    }

    #[tactic(auto, unfolding(sq_grammar::specs::Expr::factor))]
    fn factor(&self, tokens: &mut Reader<'_>) -> Result<Factor, Stop>
        requires { Nests spec.inside self.now.left (F.pre self.now.inner) (F.post self.now.inner) }
        ensures value { Reads
            (spec.factor self.now.left (spec.inside self.now.left) tokens.old) result tokens.new }
        ensures shorter { OnOk result (length tokens.new < length tokens.old) }
    {
        let sign = sign_if_any(tokens);
        let primary = self.primary(tokens)?;
        Ok(Factor { sign, primary })
    }

    #[tactic(auto, unfolding(sq_grammar::specs::Expr::scaled_factor))]
    fn scaled(&self, tokens: &mut Reader<'_>) -> Result<Option<Scaled>, Stop>
        requires { Nests spec.inside self.now.left (F.pre self.now.inner) (F.post self.now.inner) }
        ensures value { Reads
            (spec.scaled_factor self.now.left (spec.inside self.now.left) tokens.old) result tokens.new }
        ensures shorter { IfOk result (λ item. OnSome item (length tokens.new < length tokens.old)) }
        ensures no_longer { OnOk result (length tokens.new ≤ length tokens.old) }
    {
        let Some(sign) = times_if_any(tokens) else {
            return Ok(None);
        };
        let factor = self.factor(tokens)?;
        Ok(Some(Scaled { sign, factor }))
    }

    #[tactic(auto, using(sq_grammar::proofs::Reading::Many::loops))]
    fn all_scaled(&self, tokens: &mut Reader<'_>) -> Result<Items<Scaled>, Stop>
        requires { Nests spec.inside self.now.left (F.pre self.now.inner) (F.post self.now.inner) }
        ensures value { Reads
            (all (spec.scaled_factor self.now.left (spec.inside self.now.left)) tokens.old) result tokens.new }
        ensures no_longer { OnOk result (length tokens.new ≤ length tokens.old) }
    {
        let mut items = Items::new(self.alloc);
        while let Some(item) = self.scaled(tokens)? {
            items.push(item)?;
        }
        Ok(items)
    }

    #[tactic(auto, unfolding(sq_grammar::specs::Expr::term))]
    fn term(&self, tokens: &mut Reader<'_>) -> Result<Term, Stop>
        requires { Nests spec.inside self.now.left (F.pre self.now.inner) (F.post self.now.inner) }
        ensures value { Reads
            (spec.term self.now.left (spec.inside self.now.left) tokens.old) result tokens.new }
        ensures shorter { OnOk result (length tokens.new < length tokens.old) }
    {
        let first = self.factor(tokens)?;
        match self.all_scaled(tokens) {
            Ok(rest) => Ok(Term { first, rest }),
            Err(stop) => {
                drop(first);
                Err(stop)
            }
        }
    }

    #[tactic(auto, unfolding(sq_grammar::specs::Expr::added_term))]
    fn added(&self, tokens: &mut Reader<'_>) -> Result<Option<Added>, Stop>
        requires { Nests spec.inside self.now.left (F.pre self.now.inner) (F.post self.now.inner) }
        ensures value { Reads
            (spec.added_term self.now.left (spec.inside self.now.left) tokens.old) result tokens.new }
        ensures shorter { IfOk result (λ item. OnSome item (length tokens.new < length tokens.old)) }
        ensures no_longer { OnOk result (length tokens.new ≤ length tokens.old) }
    {
        let Some(sign) = sign_if_any(tokens) else {
            return Ok(None);
        };
        let term = self.term(tokens)?;
        Ok(Some(Added { sign, term }))
    }

    #[tactic(auto, using(sq_grammar::proofs::Reading::Many::loops))]
    fn all_added(&self, tokens: &mut Reader<'_>) -> Result<Items<Added>, Stop>
        requires { Nests spec.inside self.now.left (F.pre self.now.inner) (F.post self.now.inner) }
        ensures value { Reads
            (all (spec.added_term self.now.left (spec.inside self.now.left)) tokens.old) result tokens.new }
        ensures no_longer { OnOk result (length tokens.new ≤ length tokens.old) }
    {
        let mut items = Items::new(self.alloc);
        while let Some(item) = self.added(tokens)? {
            items.push(item)?;
        }
        Ok(items)
    }

    #[tactic(auto, unfolding(sq_grammar::specs::Expr::level))]
    fn expr(&self, tokens: &mut Reader<'_>) -> Result<Expr, Stop>
        requires { Nests spec.inside self.now.left (F.pre self.now.inner) (F.post self.now.inner) }
        ensures value { Reads
            (spec.level self.now.left (spec.inside self.now.left) tokens.old) result tokens.new }
        ensures shorter { OnOk result (length tokens.new < length tokens.old) }
    {
        let first = self.term(tokens)?;
        match self.all_added(tokens) {
            Ok(rest) => Ok(Expr { first, rest }),
            Err(stop) => {
                drop(first);
                Err(stop)
            }
        }
    }

    #[tactic(auto, unfolding(sq_grammar::specs::Expr::level_from))]
    fn expr_from(&self, tokens: &mut Reader<'_>, primary: Primary) -> Result<Expr, Stop>
        requires { Nests spec.inside self.now.left (F.pre self.now.inner) (F.post self.now.inner) }
        ensures value { Reads
            (spec.level_from self.now.left (spec.inside self.now.left) primary tokens.old) result tokens.new }
        ensures no_longer { OnOk result (length tokens.new ≤ length tokens.old) }
    {
        let rest = match self.all_scaled(tokens) {
            Ok(rest) => rest,
            Err(stop) => {
                drop(primary);
                return Err(stop);
            }
        };
        let first = Factor {
            sign: None,
            primary,
        };
        let first = Term { first, rest };
        match self.all_added(tokens) {
            Ok(rest) => Ok(Expr { first, rest }),
            Err(stop) => {
                drop(first);
                Err(stop)
            }
        }
    }
}

/// An expression after a bracket, which is one of the `left` that could be opened before it.
pub fn inner_expr(alloc: Global, tokens: &mut Reader<'_>, left: usize) -> Result<Expr, Stop>
    requires { 0 < left }
    ensures value { Reads (spec.inside left tokens.old) result tokens.new }
    ensures shorter { OnOk result (length tokens.new < length tokens.old) }
{
    Grammar {
        alloc,
        left: left - 1,
        inner: inner_expr,
    }
    .expr(tokens)
}

/// An expression in which `left` brackets may be open at once (ISO/IEC 9075:1992, 6.11).
pub fn expr(alloc: Global, tokens: &mut Reader<'_>, left: usize) -> Result<Expr, Stop>
    ensures value { Reads (spec.expr left tokens.old) result tokens.new }
    ensures shorter { OnOk result (length tokens.new < length tokens.old) }
{
    Grammar {
        alloc,
        left,
        inner: inner_expr,
    }
    .expr(tokens)
}

/// The rest of an expression whose first primary is read already.
pub fn expr_from(
    alloc: Global,
    tokens: &mut Reader<'_>,
    left: usize,
    primary: Primary,
) -> Result<Expr, Stop>
    ensures value { Reads (spec.expr_from left primary tokens.old) result tokens.new }
    ensures no_longer { OnOk result (length tokens.new ≤ length tokens.old) }
{
    Grammar {
        alloc,
        left,
        inner: inner_expr,
    }
    .expr_from(tokens, primary)
}

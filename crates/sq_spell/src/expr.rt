//! The spelling of value expressions.

ghost use Rattle.std.specs.Prelude.{◌≡◌, ◌∷◌, [], ◌++◌, fold, OnOk};
ghost use Rattle.sq_lex.specs.declared.lexeme.Lexeme.TheVariants as lexeme;
ghost use Rattle.sq_lex.specs.declared.symbol.Symbol.TheVariants as symbol;
ghost use Rattle.sq_tree.specs.Expr as spec;

use crate::sink::Sink;
use crate::tree::Tree;
use sq_lex::{Symbol, Word};
use sq_tree::{
    Added, Expr, Factor, Primary, Scaled, SetFunction, SetQuantifier, Sign, SignedNumber, Term,
    TimesSign,
};

impl Tree for Sign {
    ghost tokens = { λ part. spec.sign_token part ∷ [] };

    fn walk<S: Sink>(&self, sink: &mut S) -> Result<(), S::Stop> {
        let symbol = match self {
            Sign::Plus => Symbol::Plus,
            Sign::Minus => Symbol::Minus,
        };
        symbol.walk(sink)
    }
}

impl Tree for TimesSign {
    ghost tokens = { λ part. spec.times_token part ∷ [] };

    fn walk<S: Sink>(&self, sink: &mut S) -> Result<(), S::Stop> {
        let symbol = match self {
            TimesSign::Times => Symbol::Star,
            TimesSign::Over => Symbol::Slash,
        };
        symbol.walk(sink)
    }
}

impl Tree for SetQuantifier {
    ghost tokens = { λ part. spec.quantifier_token part ∷ [] };

    fn walk<S: Sink>(&self, sink: &mut S) -> Result<(), S::Stop> {
        let word = match self {
            SetQuantifier::All => Word::All,
            SetQuantifier::Distinct => Word::Distinct,
        };
        word.walk(sink)
    }
}

impl Tree for SetFunction {
    ghost tokens = { λ part. spec.function_token part ∷ [] };

    fn walk<S: Sink>(&self, sink: &mut S) -> Result<(), S::Stop> {
        let word = match self {
            SetFunction::Count => Word::Count,
            SetFunction::Sum => Word::Sum,
            SetFunction::Avg => Word::Avg,
            SetFunction::Min => Word::Min,
            SetFunction::Max => Word::Max,
        };
        word.walk(sink)
    }
}

impl Tree for SignedNumber {
    ghost tokens = { spec.signed_number_tokens };

    fn walk<S: Sink>(&self, sink: &mut S) -> Result<(), S::Stop> {
        (&self.sign, self.number).walk(sink)
    }
}

impl Tree for Expr {
    ghost tokens = { spec.expr_tokens };

    #[cycle(walk_expr)]
    #[tactic(auto, using(sq_tree::proofs::ExprLaws::expr_tokens_levels, std::proofs::lemmas::Grind::common_steps))]
    fn walk<S: Sink>(&self, sink: &mut S) -> Result<(), S::Stop> {
        self.first.walk(sink)?;
        for added in self.rest.as_slice() {
            added.walk(sink)?;
        }
        Ok(())
    }
}

impl Tree for Added {
    ghost tokens = { spec.added_tokens };

    #[cycle(walk_expr)]
    #[tactic(auto, using(sq_tree::proofs::ExprLaws::expr_tokens_levels, std::proofs::lemmas::Grind::common_steps))]
    fn walk<S: Sink>(&self, sink: &mut S) -> Result<(), S::Stop> {
        self.sign.walk(sink)?;
        self.term.walk(sink)
    }
}

impl Tree for Term {
    ghost tokens = { spec.term_tokens };

    #[cycle(walk_expr)]
    #[tactic(auto, using(sq_tree::proofs::ExprLaws::expr_tokens_levels, std::proofs::lemmas::Grind::common_steps))]
    fn walk<S: Sink>(&self, sink: &mut S) -> Result<(), S::Stop> {
        self.first.walk(sink)?;
        for scaled in self.rest.as_slice() {
            scaled.walk(sink)?;
        }
        Ok(())
    }
}

impl Tree for Scaled {
    ghost tokens = { spec.scaled_tokens };

    #[cycle(walk_expr)]
    #[tactic(auto, using(sq_tree::proofs::ExprLaws::expr_tokens_levels, std::proofs::lemmas::Grind::common_steps))]
    fn walk<S: Sink>(&self, sink: &mut S) -> Result<(), S::Stop> {
        self.sign.walk(sink)?;
        self.factor.walk(sink)
    }
}

impl Tree for Factor {
    ghost tokens = { spec.factor_tokens };

    #[cycle(walk_expr)]
    #[tactic(auto, using(sq_tree::proofs::ExprLaws::expr_tokens_levels, std::proofs::lemmas::Grind::common_steps))]
    fn walk<S: Sink>(&self, sink: &mut S) -> Result<(), S::Stop> {
        self.sign.walk(sink)?;
        self.primary.walk(sink)
    }
}

impl Tree for Primary {
    ghost tokens = { spec.primary_tokens };

    #[cycle(walk_expr)]
    #[tactic(auto, using(sq_tree::proofs::ExprLaws::expr_tokens_levels, std::proofs::lemmas::Grind::common_steps))]
    fn walk<S: Sink>(&self, sink: &mut S) -> Result<(), S::Stop> {
        match self {
            Primary::Number(number) => number.walk(sink),
            Primary::Text(characters) => sink.text(characters),
            Primary::Parameter(parameter) => parameter.walk(sink),
            Primary::User => Word::User.walk(sink),
            Primary::Column(column) => column.walk(sink),
            Primary::CountRows => {
                (Word::Count, Symbol::Open, Symbol::Star, Symbol::Close).walk(sink)
            }
            Primary::SetFunction(function, quantifier, expr) => {
                (function, Symbol::Open, quantifier).walk(sink)?;
                walk_closed(expr.get(), sink)
            }
            Primary::Bracketed(expr) => {
                Symbol::Open.walk(sink)?;
                walk_closed(expr.get(), sink)
            }
        }
    }
}

/// Writes an expression and the closing bracket after it.
#[cycle(walk_expr)]
#[tactic(auto, using(sq_tree::proofs::ExprLaws::expr_tokens_levels, std::proofs::lemmas::Grind::common_steps))]
fn walk_closed<S: Sink>(expr: &Expr, sink: &mut S) -> Result<(), S::Stop>
    ensures { OnOk result (sink.new
        ≡ fold S.after sink.old (spec.expr_tokens expr.now ++ lexeme.Symbol symbol.Close ∷ [])) }
{
    expr.walk(sink)?;
    Symbol::Close.walk(sink)
}

//! A value that is lent from its place, or made.

ghost use Rattle.std.specs.Prelude.{◌≡◌, IfOk};

use sq_value::Value;
use std::alloc::{AllocError, Global};
use std::marker::Model;

/// The value of an expression, as which contracts see it.
#[derive(Drop)]
pub struct Evaluated<'a> {
    lent: Option<&'a Value>,
    /// The value if none is lent.
    made: Value,
}

impl<'a> Model for Evaluated<'a> {
    ghost use Rattle.sq_value.specs.declared.value.Value.{Value as AnyValue};
    ghost use Rattle.sq_expression.specs.Evaluated.{evaluated};

    ghost Value = { AnyValue };

    ghost view = { λ v. evaluated v.lent v.made };
}

impl<'a> Evaluated<'a> {
    /// A value lent from its place.
    pub(crate) fn lent(value: &'a Value) -> Evaluated<'a>
        ensures { result ≡ value.now }
    {
        Evaluated {
            lent: Some(value),
            made: Value::Null,
        }
    }

    /// A value that was computed.
    pub(crate) fn made(value: Value) -> Evaluated<'a>
        ensures { result ≡ value }
    {
        Evaluated {
            lent: None,
            made: value,
        }
    }

    /// Lends the value.
    pub fn get(&self) -> &Value
        ensures { result.now ≡ self.now }
    {
        match self.lent {
            Some(value) => value,
            None => &self.made,
        }
    }

    /// The value itself, or a copy if it was lent.
    pub(crate) fn into_value(self, alloc: Global) -> Result<Value, AllocError>
        ensures { IfOk result (λ value. value ≡ self.entry) }
    {
        let Evaluated { lent, made } = self;
        match lent {
            Some(value) => value.copy(alloc),
            None => Ok(made),
        }
    }
}

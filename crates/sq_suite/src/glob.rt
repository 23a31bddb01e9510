//! Patterns of names.
ghost use Rattle.std.specs.Prelude.{◌≡◌};
ghost use Rattle.sq_suite.specs.Glob as spec;

/// Whether a text matches a pattern, in which `*` stands for any bytes, also for none, and `?` for any one.
pub fn matches(pattern: &[u8], text: &[u8]) -> bool
    ensures { result ≡ spec.matches pattern.now text.now }
{
    match pattern {
        [] => text.is_empty(),
        [b'*', rest @ ..] => match text {
            [] => matches(rest, text),
            [_, others @ ..] => matches(rest, text) || matches(pattern, others),
        },
        [sign, rest @ ..] => match text {
            [] => false,
            [byte, others @ ..] => (*sign == b'?' || *sign == *byte) && matches(rest, others),
        },
    }
}

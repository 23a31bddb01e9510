//! Lists of columns without duplicates (ISO/IEC 9075:1992, 7.9 and 11.7).

ghost use Rattle.std.specs.Prelude.{◌≡◌};
ghost use Rattle.sq_meaning.specs.Target.{are_distinct};

/// Whether no column occurs twice.
pub fn are_distinct(columns: &[usize]) -> bool
    ensures { result ≡ are_distinct columns.now }
{
    match columns {
        [] => true,
        [column, others @ ..] => !others.contains(column) && are_distinct(others),
    }
}

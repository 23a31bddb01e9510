//! A column of a table definition with its domain.

ghost use Rattle.std.specs.Prelude.{◌≡◌, Some};
ghost use Rattle.sq_value.specs.Domain.{IsDomain};
ghost use Rattle.sq_meaning.specs.Spelled as meaning;
ghost use Rattle.sq_bound.specs.Parameter.{IsDomain-prop};

use sq_tree::ColumnDefinition;
use sq_value::Domain;

/// A column of a definition, and its domain.
#[derive(Clone, Copy)]
pub(crate) struct TypedColumn<'t> {
    pub definition: &'t ColumnDefinition,
    pub domain: Domain,
    ghost is_domain: { IsDomain domain } by { IsDomain-prop domain },
    ghost of_type: { meaning.domain_of definition.now.data_type ≡ Some domain },
}

//! The meanings of column references: FROM items in scopes, the nearest first (ISO/IEC 9075:1992, 6.3 and 6.4).

ghost use Rattle.std.specs.Prelude.{◌≡◌, ◌∷◌, [], Ok, map};
ghost use Rattle.std.specs.List.{list_any, position};
ghost use Rattle.std.specs.Option.{option_map};
ghost use Rattle.sq_meaning.specs.Environment.{column_in, names_item, same_name};
ghost use Rattle.sq_bound.specs.Expression.{place_meant};
ghost use Rattle.sq_binding.specs.Scope as spec;
ghost use Rattle.sq_binder.specs.Binds.{Binds};
ghost use Rattle.sq_binder.specs.Scope.{column_of, declared_of, found_at, found_of, grouping_of, has_none_around, item_of, only, parameters_in, scope_of, scope_over, scopes_in, scopes_of, with_fit};

use crate::column::{FoundColumn, ItemColumn};
use crate::stop::Stop;
use sq_bound::{ParameterDesc, Place, TablePlace};
use sq_items::Items;
use sq_lex::Name;
use sq_meaning::BindingFault;
use sq_tree::{ColumnReference, TableName};
use std::alloc::Global;

/// An item of a FROM clause, and the place of its table.
#[derive(Drop)]
pub struct FromItem {
    pub place: TablePlace,
    /// The owner and the name of its table.
    pub user: Name,
    pub name: Name,
    pub correlation: Option<Name>,
    pub columns: Items<ItemColumn>,
}

/// The FROM items of a query, and the scope of the query around it.
#[derive(Clone, Copy)]
pub struct Scope<'a> {
    pub items: &'a [FromItem],
    /// The grouping columns, if other columns of this query may not occur outside set functions.
    pub grouping: Option<&'a [Place]>,
    pub outer: Option<&'a Scope<'a>>,
}

/// The environment of a text: the user, the parameters, and the scope of the nearest query around it.
#[derive(Clone, Copy)]
pub struct Environment<'a> {
    pub alloc: Global,
    pub user: Name,
    pub parameters: &'a [ParameterDesc],
    pub scope: Option<Scope<'a>>,
}

/// The position of the column of a name.
fn position_of(columns: &[ItemColumn], name: Name) -> Option<usize>
    ensures { result ≡ position (λ column. same_name column.name name) columns.now }
{
    columns.iter().position(|column| column.name == name)
}

impl FromItem {
    /// Whether the qualifier names the item: by its correlation name or, if it has none, by its table's name, with or
    /// without the owner.
    fn is_named(&self, qualifier: Option<TableName>) -> bool
        ensures { result ≡ names_item qualifier (spec.item_named (item_of self.now)) }
    {
        let Some(qualifier) = qualifier else {
            return true;
        };
        match (self.correlation, qualifier.schema) {
            (Some(correlation), None) => qualifier.table == correlation,
            (Some(_), Some(_)) => false,
            (None, None) => qualifier.table == self.name,
            (None, Some(user)) => user == self.user && qualifier.table == self.name,
        }
    }

    /// The column that the reference fits, by its number.
    #[tactic(auto, using(crate::proofs::OneByOne::Positions::seen))]
    fn column(&self, reference: &ColumnReference) -> Option<usize>
        ensures { result ≡ column_in reference.now (spec.item_named (item_of self.now)) }
    {
        if self.is_named(reference.qualifier) {
            position_of(self.columns.as_slice(), reference.column)
        } else {
            None
        }
    }
}

impl Scope<'_> {
    /// The numbers of the only item that a reference fits, and of its column there, if it fits one.
    fn only_fit(&self, reference: &ColumnReference) -> Result<Option<(usize, usize)>, Stop>
        ensures { Binds (λ fit. fit) (only (spec.fits reference.now (scope_of self.now))) result }
    {
        let mut found = None;
        for (number, item) in self.items.iter().enumerate() {
            match with_fit(found, number, item.column(reference), reference.column) {
                Ok(next) => found = next,
                Err(stop) => return Err(stop),
            }
        }
        Ok(found)
    }

    /// The column of these numbers.
    fn column_numbered(&self, item: usize, column: usize) -> Option<ItemColumn>
        ensures { option_map column_of result ≡ spec.column_numbered (scope_of self.now) (item, column) }
    {
        match self.items.get(item) {
            Some(item) => item.columns.as_slice().get(column).copied(),
            None => None,
        }
    }

    /// Whether the column is among the grouping columns, if there are any.
    #[tactic(auto, using(crate::proofs::OneByOne::Positions::seen))]
    fn is_grouped(&self, item: usize, column: usize) -> bool
        ensures { result ≡ spec.is_grouped (scope_of self.now).grouping item column }
    {
        match self.grouping {
            None => true,
            Some(places) => is_among(places, item, column),
        }
    }

    /// The column of these numbers, as one that a reference means.
    fn found(&self, item: usize, column: usize) -> Result<FoundColumn, Stop>
        ensures { Binds found_of
            (found_at (scope_of self.now) (has_none_around self.now) (item, column)) result }
    {
        match self.column_numbered(item, column) {
            Some(column) => Ok(FoundColumn {
                depth: 0,
                item,
                column,
                is_grouped: self.is_grouped(item, column.position),
                is_outermost: self.outer.is_none(),
            }),
            None => Err(Stop::broken(BindingFault::UnknownColumn)),
        }
    }

    /// The column of the nearest scope in which an item fits the reference.
    fn column(&self, reference: &ColumnReference) -> Result<FoundColumn, Stop>
        ensures { Binds found_of (spec.column_meant reference.now (scopes_of self.now)) result }
    {
        let fit = self.only_fit(reference)?;
        match (fit, self.outer) {
            (Some((item, column)), _) => self.found(item, column),
            (None, Some(outer)) => {
                let found = outer.column(reference)?;
                further_out(found)
            }
            (None, None) => Err(Stop::about(BindingFault::UnknownColumn, reference.column)),
        }
    }
}

/// The column that fits among the items so far or in a further one. One in each makes the name ambiguous.
fn with_fit(
    found: Option<(usize, usize)>,
    number: usize,
    column: Option<usize>,
    name: Name,
) -> Result<Option<(usize, usize)>, Stop>
    ensures { Binds (λ fit. fit) (with_fit found number column) result }
{
    match (found, column) {
        (found, None) => Ok(found),
        (None, Some(column)) => Ok(Some((number, column))),
        (Some(_), Some(_)) => Err(Stop::about(BindingFault::AmbiguousName, name)),
    }
}

/// A column that is found in the scope around, as it is seen from within.
fn further_out(found: FoundColumn) -> Result<FoundColumn, Stop>
    ensures { Binds found_of (Ok (spec.further_out (found_of found))) result }
{
    match found.depth.checked_add(1) {
        Some(depth) => Ok(FoundColumn { depth, ..found }),
        None => Err(Stop::NoMemory),
    }
}

/// Whether the column is among the places in its own query.
fn is_among(places: &[Place], item: usize, column: usize) -> bool
    ensures { result ≡ list_any (λ place. spec.is_here item column (place_meant place)) places.now }
{
    places.iter().any(|place| is_here(place, item, column))
}

/// Whether a place is in its own query, at this item and column.
fn is_here(place: &Place, item: usize, column: usize) -> bool
    ensures { result ≡ spec.is_here item column (place_meant place.now) }
{
    place.depth == 0 && place.item == item && place.column == column
}

impl<'a> Environment<'a> {
    /// Outside all queries.
    pub fn new(alloc: Global, user: Name, parameters: &'a [ParameterDesc]) -> Environment<'a>
        ensures scopes { scopes_in result ≡ [] }
        ensures parameters { parameters_in result ≡ map declared_of parameters.now }
        ensures user { result.user ≡ user }
    {
        Environment {
            alloc,
            user,
            parameters,
            scope: None,
        }
    }

    /// The scope of a query over these items, in the scopes that are here.
    pub fn scope_over<'s>(
        &'s self,
        items: &'s [FromItem],
        grouping: Option<&'s [Place]>,
    ) -> Scope<'s>
        ensures { scopes_of result ≡ scope_over items.now grouping.entry ∷ scopes_in self.now }
    {
        Scope {
            items,
            grouping,
            outer: self.scope.as_ref(),
        }
    }

    /// The surroundings of a text in a query of this scope.
    pub fn within<'s>(&'s self, scope: Scope<'s>) -> Environment<'s>
        ensures scopes { scopes_in result ≡ scopes_of scope.entry }
        ensures parameters { parameters_in result ≡ parameters_in self.now }
        ensures user { result.user ≡ self.now.user }
    {
        Environment {
            alloc: self.alloc,
            user: self.user,
            parameters: self.parameters,
            scope: Some(scope),
        }
    }

    /// The column of the nearest scope in which an item fits the reference.
    pub fn column(&self, reference: &ColumnReference) -> Result<FoundColumn, Stop>
        ensures { Binds found_of (spec.column_meant reference.now (scopes_in self.now)) result }
    {
        match &self.scope {
            Some(scope) => scope.column(reference),
            None => Err(Stop::about(BindingFault::UnknownColumn, reference.column)),
        }
    }
}

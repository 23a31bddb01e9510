//! A view as names see it: its columns, its query, and what is under an updatable one (ISO/IEC 9075:1992, 11.19).

ghost use Rattle.std.specs.Prelude.{◌≡◌, ◌≤◌, ◌&&◌, Bool, if◌then◌else◌, [], length, map, IfOk, List, None, Some, slice_get};
ghost use Rattle.std.specs.List.{AllZip};
ghost use Rattle.std.specs.Option.{IsSomeAnd};
ghost use Rattle.sq_lex.specs.declared.name.Name.{Name as AnyName};
ghost use Rattle.sq_value.specs.declared.domain.Kind.{Kind};
ghost use Rattle.sq_bound.specs.Fits.{IsBase};
ghost use Rattle.sq_bound.specs.Names.{option_all};
ghost use Rattle.sq_bound.specs.Quiet.{are_quiet_conds, is_quiet_cond};
ghost use Rattle.sq_bound.specs.WellFormed.{IsLeaf, IsSelect, IsTarget, IsUpdatable, TableKinds, base_kinds, kinds_of_columns, kinds_of_results, kinds_of_select, place_of};
ghost use Rattle.sq_bound.specs.declared.condition.TablePlace.TheVariants.{View as ViewAt};
ghost use Rattle.sq_catalog.specs.Exact.{declared};
ghost use Rattle.sq_bound.specs.declared.query.UpdatableQuery.{UpdatableQuery as AnyUpdatable};
ghost use Rattle.sq_catalog.specs.Catalog.{column_kinds};
ghost use Rattle.sq_catalog.specs.Stored.{AreColumnsOver, IsBoundOver, IsNextView};
ghost use Rattle.sq_catalog.specs.View.{IsAbove, IsOverQuery, IsViewWith, conditions_with};

use crate::catalog::{Catalog, FullName};
use sq_binder::BoundView;
use sq_bound::{
    BoundCond, BoundSpecification, Column, Leaf, ResultColumn, Shared, TableBody, TableDesc,
    Target, UpdatableQuery, View, pair_of,
};
use sq_items::Items;
use sq_lex::Name;
use std::alloc::{AllocError, Global};

impl Catalog {
    /// The view as names see it.
    pub(crate) fn described_view(
        &self,
        name: &FullName,
        check_option: bool,
        names: Items<Name>,
        bound: BoundView,
    ) -> Result<TableDesc, AllocError>
        requires bound { IsBoundOver self.now bound.query bound.updatable }
        requires names { length names ≡ length (kinds_of_select bound.query) }
        ensures next { IfOk result (IsNextView self.now name.now) }
        ensures placed { IfOk result
            (λ view. place_of view.body ≡ ViewAt (length (declared self.now).views)) }
        ensures made { IfOk result (IsViewWith names bound.query) }
        ensures over { IfOk result (IsOverQuery check_option bound.updatable) }
    {
        let BoundView {
            query,
            updatable,
            ..
        } = bound;
        let described = match updatable {
            None => self.plain_view(name, names.as_slice(), query),
            Some((_, over)) => {
                self.updatable_view(name, check_option, names.as_slice(), query, over)
            }
        };
        drop(names);
        described
    }

    /// A view that is not updatable.
    fn plain_view(
        &self,
        name: &FullName,
        names: &[Name],
        query: BoundSpecification,
    ) -> Result<TableDesc, AllocError>
        requires query { IsSelect (column_kinds self.now) [] [] query }
        requires names { length names.now ≡ length (kinds_of_select query) }
        ensures next { IfOk result (IsNextView self.now name.now) }
        ensures placed { IfOk result
            (λ view. place_of view.body ≡ ViewAt (length (declared self.now).views)) }
        ensures made { IfOk result (IsViewWith names.now query) }
        ensures leaf { IfOk result (λ view. view.leaf ≡ None) }
    {
        let columns = view_columns(self.alloc(), names, query.columns.as_slice());
        let (query, columns) = pair_of(Ok(query), columns)?;
        Ok(TableDesc {
            user: name.user,
            name: name.name,
            columns,
            body: TableBody::View(View {
                place: self.next_view(),
                query,
            }),
            leaf: None,
        })
    }

    /// A view over rows of a base table.
    fn updatable_view(
        &self,
        name: &FullName,
        check_option: bool,
        names: &[Name],
        query: BoundSpecification,
        over: UpdatableQuery,
    ) -> Result<TableDesc, AllocError>
        requires query { IsSelect (column_kinds self.now) [] [] query }
        requires names { length names.now ≡ length (kinds_of_select query) }
        requires base { IsBase self.now.bases over.target.leaf.table }
        requires target { IsUpdatable (column_kinds self.now) [] (kinds_of_select query) over }
        ensures next { IfOk result (IsNextView self.now name.now) }
        ensures placed { IfOk result
            (λ view. place_of view.body ≡ ViewAt (length (declared self.now).views)) }
        ensures made { IfOk result (IsViewWith names.now query) }
        ensures over { IfOk result (λ view. IsSomeAnd view.leaf (IsAbove check_option over view.columns)) }
    {
        match view_columns(self.alloc(), names, query.columns.as_slice()) {
            Ok(columns) => {
                let parts = view_parts(self.alloc(), check_option, columns.as_slice(), over);
                drop(columns);
                self.view_of_parts(name, query, parts)
            }
            Err(error) => {
                drop(query);
                drop(over);
                Err(error)
            }
        }
    }

    fn view_of_parts(
        &self,
        name: &FullName,
        query: BoundSpecification,
        parts: Result<(Items<Column>, Shared<Leaf>), AllocError>,
    ) -> Result<TableDesc, AllocError>
        requires query { IsSelect (column_kinds self.now) [] [] query }
        requires base { IfOk parts (λ parts. IsBase self.now.bases parts.1.table) }
        requires columns { IfOk parts
            (λ parts. AreColumnsOver (base_kinds parts.1.table) (kinds_of_select query) parts.0) }
        requires leaf { IfOk parts (λ parts. IsLeaf (column_kinds self.now) parts.1) }
        ensures next { IfOk result (IsNextView self.now name.now) }
        ensures placed { IfOk result
            (λ view. place_of view.body ≡ ViewAt (length (declared self.now).views)) }
        ensures made { (names : List AnyName) → IfOk parts (λ parts. map (λ c. c.name) parts.0 ≡ names)
            → IfOk result (IsViewWith names query) }
        ensures over { (check_option : Bool) (over : AnyUpdatable)
            → IfOk parts (λ parts. IsAbove check_option over parts.0 parts.1)
            → IfOk result (λ view. IsSomeAnd view.leaf (IsAbove check_option over view.columns)) }
    {
        match parts {
            Ok((columns, leaf)) => Ok(self.view_over(name, query, columns, leaf)),
            Err(error) => {
                drop(query);
                Err(error)
            }
        }
    }

    /// A view with these columns over rows of a base table.
    fn view_over(
        &self,
        name: &FullName,
        query: BoundSpecification,
        columns: Items<Column>,
        leaf: Shared<Leaf>,
    ) -> TableDesc
        requires query { IsSelect (column_kinds self.now) [] [] query }
        requires base { IsBase self.now.bases leaf.table }
        requires columns { AreColumnsOver (base_kinds leaf.table) (kinds_of_select query) columns }
        requires leaf { IsLeaf (column_kinds self.now) leaf }
        ensures next { IsNextView self.now name.now result }
        ensures placed { place_of result.body ≡ ViewAt (length (declared self.now).views) }
        ensures made { IsViewWith (map (λ c. c.name) columns) query result }
        ensures seen { (result.columns ≡ columns) × (result.leaf ≡ Some leaf) }
    {
        TableDesc {
            user: name.user,
            name: name.name,
            columns,
            body: TableBody::View(View {
                place: self.next_view(),
                query,
            }),
            leaf: Some(leaf),
        }
    }
}

/// The columns of an updatable view, and what is under it.
fn view_parts(
    alloc: Global,
    check_option: bool,
    columns: &[Column],
    over: UpdatableQuery,
) -> Result<(Items<Column>, Shared<Leaf>), AllocError>
    requires { AllZip (λ p k. slice_get (base_kinds over.target.leaf.table) p ≡ Some k) over.columns
        (kinds_of_columns columns.now) }
    ensures base { IfOk result (λ parts. parts.1.table ≡ over.target.leaf.table) }
    ensures columns { IfOk result
        (λ parts. AreColumnsOver (base_kinds over.target.leaf.table) (kinds_of_columns columns.now) parts.0) }
    ensures names { IfOk result (λ parts. map (λ c. c.name) parts.0 ≡ map (λ c. c.name) columns.now) }
    ensures leaf { IfOk result
        (λ parts. (table_kinds : TableKinds) → IsTarget table_kinds [] over.target
        → IsLeaf table_kinds parts.1) }
    ensures over { IfOk result (λ parts. IsAbove check_option over parts.0 parts.1) }
{
    let UpdatableQuery {
        target,
        columns: below,
    } = over;
    let columns = placed_columns(alloc, columns, below.as_slice());
    drop(below);
    pair_of(columns, view_leaf(alloc, check_option, target))
}

/// What is under an updatable view. With a check option it demands its own condition and all those below.
fn view_leaf(alloc: Global, check_option: bool, target: Target) -> Result<Shared<Leaf>, AllocError>
    ensures base { IfOk result (λ leaf. leaf.table ≡ target.leaf.table) }
    ensures leaf { IfOk result
        (λ leaf. (table_kinds : TableKinds) → IsTarget table_kinds [] target → IsLeaf table_kinds leaf) }
    ensures conditions { IfOk result
        (λ leaf. leaf.conditions ≡ conditions_with target.leaf.conditions target.condition) }
    ensures demanded { IfOk result
        (λ leaf. leaf.demanded ≡ (if check_option then length leaf.conditions else target.leaf.demanded)) }
{
    let Target {
        leaf,
        condition,
        is_quiet,
        ..
    } = target;
    let above = leaf_above(alloc, leaf.get(), check_option, is_quiet, condition);
    drop(leaf);
    Ok(Shared::new(alloc, above?)?)
}

/// What is under a view over a table that has this under it, and a condition where the view has one.
#[tactic(auto, using(crate::proofs::CreateView::Quiet::sure_with))]
fn leaf_above(
    alloc: Global,
    below: &Leaf,
    check_option: bool,
    is_quiet: bool,
    condition: Option<BoundCond>,
) -> Result<Leaf, AllocError>
    requires { is_quiet ≡ (are_quiet_conds below.now.conditions && option_all is_quiet_cond condition) }
    ensures base { IfOk result (λ leaf. leaf.table ≡ below.now.table) }
    ensures conditions { IfOk result
        (λ leaf. leaf.conditions ≡ conditions_with below.now.conditions condition) }
    ensures demanded { IfOk result
        (λ leaf. leaf.demanded ≡ (if check_option then length leaf.conditions else below.now.demanded)) }
{
    let conditions = conditions_above(alloc, below.conditions.as_slice(), condition);
    let (conditions, table) = pair_of(conditions, below.table.share())?;
    Ok(Leaf {
        table,
        demanded: if check_option {
            conditions.len()
        } else {
            below.demanded
        },
        conditions,
        is_quiet,
    })
}

/// The conditions below a view, and its own.
fn conditions_above(
    alloc: Global,
    below: &[Shared<BoundCond>],
    condition: Option<BoundCond>,
) -> Result<Items<Shared<BoundCond>>, AllocError>
    ensures count { IfOk result (λ conditions. length below.now ≤ length conditions) }
    ensures conditions { IfOk result (λ conditions. conditions ≡ conditions_with below.now condition) }
{
    let Some(condition) = condition else {
        return shared_conditions(alloc, below);
    };
    let (mut conditions, condition) = pair_of(
        shared_conditions(alloc, below),
        Shared::new(alloc, condition),
    )?;
    match conditions.push(condition) {
        Ok(()) => Ok(conditions),
        Err(error) => {
            drop(conditions);
            Err(error)
        }
    }
}

/// Further owners of the conditions.
fn shared_conditions(
    alloc: Global,
    conditions: &[Shared<BoundCond>],
) -> Result<Items<Shared<BoundCond>>, AllocError>
    ensures { IfOk result (λ shared. shared ≡ conditions.now) }
{
    let mut shared = Items::new(alloc);
    for condition in conditions {
        shared.push(condition.share()?)?;
    }
    Ok(shared)
}

/// The columns of a view as queries see them.
fn view_columns(
    alloc: Global,
    names: &[Name],
    columns: &[ResultColumn],
) -> Result<Items<Column>, AllocError>
    requires { length names.now ≡ length columns.now }
    ensures kinds { IfOk result (λ described. kinds_of_columns described ≡ kinds_of_results columns.now) }
    ensures names { IfOk result (λ described. map (λ c. c.name) described ≡ names.now) }
{
    let mut described = Items::new(alloc);
    for (position, column) in columns.iter().enumerate() {
        described.push(Column {
            name: names[position],
            kind: column.kind,
            leaf_column: position,
        })?;
    }
    Ok(described)
}

/// The columns of a view over these columns of a base table.
fn placed_columns(
    alloc: Global,
    columns: &[Column],
    below: &[usize],
) -> Result<Items<Column>, AllocError>
    requires { length below.now ≡ length columns.now }
    ensures columns { IfOk result
        (λ placed. (base : List Kind) → AllZip (λ p k. slice_get base p ≡ Some k) below.now
        (kinds_of_columns columns.now) → AreColumnsOver base (kinds_of_columns columns.now) placed) }
    ensures names { IfOk result (λ placed. map (λ c. c.name) placed ≡ map (λ c. c.name) columns.now) }
    ensures places { IfOk result (λ placed. map (λ c. c.leaf_column) placed ≡ below.now) }
{
    let mut placed = Items::new(alloc);
    for (position, column) in columns.iter().enumerate() {
        placed.push(Column {
            name: column.name,
            kind: column.kind,
            leaf_column: below[position],
        })?;
    }
    Ok(placed)
}

//! CREATE VIEW (ISO/IEC 9075:1992, 11.19).

ghost use Rattle.std.specs.Prelude.{◌≡◌, ◌&&◌, [], ◌∷◌, is_none, length, IfOk, OnOk, Ok, map};
ghost use Rattle.std.specs.Option.{option_map};
ghost use Rattle.sq_meaning.specs.Spelled as meaning;
ghost use Rattle.sq_bound.specs.WellFormed.{kinds_of_select, place_of};
ghost use Rattle.sq_bound.specs.declared.condition.TablePlace.TheVariants.{View};
ghost use Rattle.sq_binding.specs.Outcome.{Outcome};
ghost use Rattle.sq_binding.specs.View.{NumberedView, view_bound};
ghost use Rattle.sq_binder.specs.Binds.{Binds};
ghost use Rattle.sq_binder.specs.View.{view_seen};
ghost use Rattle.sq_binding.specs.Catalog.{names_of};
ghost use Rattle.sq_binding.specs.CreateView as spec;
ghost use Rattle.sq_catalog.specs.Catalog.{Gains, IsNewName, known, named_by};
ghost use Rattle.sq_catalog.specs.Exact.{declared, name_in};
ghost use Rattle.sq_catalog.specs.Fault.{Makes, Passes};
ghost use Rattle.sq_catalog.specs.Held.{grant_seen};
ghost use Rattle.sq_catalog.specs.Stored.{IsBoundOver, IsNextView};
ghost use Rattle.sq_catalog.specs.View.{IsOverQuery, IsViewWith};
ghost use Rattle.sq_catalog.specs.Views.{GainsViews, IsViewOf};
ghost use Rattle.sq_catalog.specs.ViewMade.{IsBoundView, MakesView, checked_view, named_view, placed_view, view_found};

use crate::catalog::{Catalog, FullName, full_name};
use crate::fault::{ElementFault, refused_if};
use crate::held::Grant;
use crate::user_tables::UserTables;
use crate::view_names::{column_names, listed_names};
use sq_binder::{BoundView, Stop, ViewResult, bind_view};
use sq_bound::TableDesc;
use sq_items::Items;
use sq_lex::Name;
use sq_meaning::SchemaFault;
use sq_tree::ViewDefinition;
use std::alloc::AllocError;

/// A view that may be created, and what its owner holds on it.
#[derive(Drop)]
struct NewView {
    table: TableDesc,
    grants: Items<Grant>,
}

impl Catalog {
    /// CREATE VIEW by a user.
    pub(crate) fn create_view(
        &mut self,
        user: Name,
        definition: &ViewDefinition,
    ) -> Result<(), ElementFault>
        ensures tables { OnOk result (Gains self.old self.new [] []) }
        ensures views { OnOk result
            (GainsViews self.old self.new (record { user = user; view = definition.now } ∷ [])) }
        ensures exact { Makes (λ done. declared self.new)
            (spec.create_view (declared self.old) user definition.now) result }
    {
        let name = full_name(user, definition.name);
        let NewView { table, grants } = self.declared_view(user, &name, definition)?;
        match self.add_view(name, table) {
            Ok(()) => self.held.add_all(grants.as_slice()),
            Err(fault) => {
                drop(grants);
                Err(fault)
            }
        }
    }

    /// The view of a definition.
    fn declared_view(
        &self,
        user: Name,
        name: &FullName,
        definition: &ViewDefinition,
    ) -> Result<NewView, ElementFault>
        requires { name.now ≡ named_by user definition.now.name }
        ensures new { OnOk result (IsNewName self.now name.now) }
        ensures next { IfOk result (λ view. IsNextView self.now name.now view.table) }
        ensures written { IfOk result
            (λ view. IsViewOf (known self.now) (record { user = user; view = definition.now }) view.table) }
        ensures exact { MakesView name.now (spec.declared_view (declared self.now) user definition.now)
            result }
    {
        self.check_new_name(user, name)?;
        let listed = listed_names(self.alloc(), &definition.columns)?;
        match self.bound_view(user, definition) {
            Ok(bound) => self.named_view(user, name, definition, listed, bound),
            Err(fault) => {
                drop(listed);
                Err(fault)
            }
        }
    }

    /// The query of a view definition, bound.
    fn bound_view(&self, user: Name, definition: &ViewDefinition) -> Result<BoundView, ElementFault>
        ensures bound { IfOk result
            (λ view. IsBoundView self.now (record { user = user; view = definition.now })
            view.query view.updatable) }
        ensures exact { Makes view_found (spec.or_bad_view (view_bound (names_of (declared self.now) user)
            (meaning.select_of user definition.now.query))) result }
    {
        let tables = UserTables {
            catalog: self,
            user,
        };
        self.names_stand();
        or_bad_view(bind_view(self.alloc(), &definition.query, &tables, user))
    }

    /// The view of a definition whose query was bound.
    fn named_view(
        &self,
        user: Name,
        name: &FullName,
        definition: &ViewDefinition,
        listed: Option<Items<Name>>,
        bound: BoundView,
    ) -> Result<NewView, ElementFault>
        requires name { name.now ≡ named_by user definition.now.name }
        requires listed { listed ≡ option_map meaning.listed definition.now.columns }
        requires bound { IsBoundView self.now (record { user = user; view = definition.now }) bound.query
            bound.updatable }
        ensures own { OnOk result (name.now.user ≡ user) }
        ensures next { IfOk result (λ view. IsNextView self.now name.now view.table) }
        ensures written { IfOk result
            (λ view. IsViewOf (known self.now) (record { user = user; view = definition.now }) view.table) }
        ensures exact { MakesView name.now (named_view (declared self.now) user definition.now
            (view_found bound)) result }
    {
        match column_names(self.alloc(), listed, bound.query.columns.as_slice()) {
            Ok(names) => self.placed_view(user, name, definition, names, bound),
            Err(fault) => {
                drop(bound);
                Err(fault)
            }
        }
    }

    /// The view of a definition, with columns of these names.
    fn placed_view(
        &self,
        user: Name,
        name: &FullName,
        definition: &ViewDefinition,
        names: Items<Name>,
        bound: BoundView,
    ) -> Result<NewView, ElementFault>
        requires name { name.now ≡ named_by user definition.now.name }
        requires names { length names ≡ length (kinds_of_select bound.query) }
        requires bound { IsBoundView self.now (record { user = user; view = definition.now }) bound.query
            bound.updatable }
        ensures own { OnOk result (name.now.user ≡ user) }
        ensures next { IfOk result (λ view. IsNextView self.now name.now view.table) }
        ensures made { IfOk result (λ view. IsViewWith names bound.query view.table) }
        ensures over { IfOk result
            (λ view. IsOverQuery definition.now.check_option bound.updatable view.table) }
        ensures exact { MakesView name.now (placed_view (declared self.now) user definition.now
            (view_found bound) names) result }
    {
        match self.check_view(user, name, definition.check_option, &bound) {
            Ok(()) => Ok(self.new_view(user, name, definition.check_option, names, bound)?),
            Err(fault) => {
                drop(names);
                drop(bound);
                Err(fault)
            }
        }
    }

    /// The check option, SELECT on what the query names, the place of the view, and how many there are.
    fn check_view(
        &self,
        user: Name,
        name: &FullName,
        check_option: bool,
        bound: &BoundView,
    ) -> Result<(), ElementFault>
        ensures own { OnOk result (name.now.user ≡ user) }
        ensures exact { Passes (checked_view (declared self.now) user (name_in name.now) check_option
            (view_found bound.now)) result }
    {
        refused_if(
            is_bad_option(check_option, bound),
            SchemaFault::BadCheckOption,
        )?;
        refused_if(!bound.may_select, SchemaFault::PrivilegeMissing)?;
        self.check_place(user, name)
    }

    /// A view that may be created, and what its owner holds on it.
    fn new_view(
        &self,
        user: Name,
        name: &FullName,
        check_option: bool,
        names: Items<Name>,
        bound: BoundView,
    ) -> Result<NewView, AllocError>
        requires bound { IsBoundOver self.now bound.query bound.updatable }
        requires names { length names ≡ length (kinds_of_select bound.query) }
        ensures next { IfOk result (λ view. IsNextView self.now name.now view.table) }
        ensures made { IfOk result (λ view. IsViewWith names bound.query view.table) }
        ensures over { IfOk result (λ view. IsOverQuery check_option bound.updatable view.table) }
        ensures placed { IfOk result
            (λ view. place_of view.table.body ≡ View (length (declared self.now).views)) }
        ensures grants { IfOk result
            (λ view. map grant_seen view.grants ≡ spec.view_grants (declared self.now) user
            (name_in name.now) names (view_found bound)) }
    {
        match self.view_grants(user, name, names.as_slice(), &bound) {
            Ok(grants) => with_grants(
                self.described_view(name, check_option, names, bound),
                grants,
            ),
            Err(error) => {
                drop(names);
                drop(bound);
                Err(error)
            }
        }
    }
}

/// Whether a check option is written for a view that is not updatable.
fn is_bad_option(check_option: bool, bound: &BoundView) -> bool
    ensures { result ≡ (check_option && is_none (view_found bound.now).updatable) }
{
    match &bound.updatable {
        None => check_option,
        Some(_) => false,
    }
}

/// A view, and what its owner holds on it.
fn with_grants(
    table: Result<TableDesc, AllocError>,
    grants: Items<Grant>,
) -> Result<NewView, AllocError>
    ensures table { IfOk result (λ view. table ≡ Ok view.table) }
    ensures grants { IfOk result (λ view. view.grants ≡ grants) }
{
    match table {
        Ok(table) => Ok(NewView { table, grants }),
        Err(error) => {
            drop(grants);
            Err(error)
        }
    }
}

/// A view's query that is bound. Its faults are refused by one name.
fn or_bad_view(bound: ViewResult) -> Result<BoundView, ElementFault>
    ensures value { IfOk result (λ view. bound ≡ Ok view) }
    ensures exact { (outcome : Outcome NumberedView) → Binds view_seen outcome bound
        → Makes view_seen (spec.or_bad_view outcome) result }
{
    match bound {
        Ok(view) => Ok(view),
        Err(Stop::NoMemory) => Err(ElementFault::NoMemory),
        Err(Stop::Fault(_)) => Err(ElementFault::Refused(SchemaFault::BadView)),
    }
}

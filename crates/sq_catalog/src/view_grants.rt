//! What the owner of a view holds on it (ISO/IEC 9075:1992, 11.19).

ghost use Rattle.std.specs.Prelude.{◌≡◌, ◌∷◌, [], Some, IfOk, OnOk, map, slice_get, zip};
ghost use Rattle.std.specs.Option.{option_and_then};
ghost use Rattle.sq_binding.specs.Seen.{numbered_of};
ghost use Rattle.sq_binding.specs.CreateView as spec;
ghost use Rattle.sq_catalog.specs.Exact.{declared, name_in, names_in};
ghost use Rattle.sq_catalog.specs.Held.{grant_seen, privilege_of};
ghost use Rattle.sq_catalog.specs.ViewGrants.{HoldsMore, all_followed, followed_over, updates_over};
ghost use Rattle.sq_catalog.specs.ViewMade.{view_found};

use crate::catalog::{Catalog, FullName};
use crate::held::Grant;
use crate::privilege::Privilege;
use sq_binder::BoundView;
use sq_bound::{BoundExpr, Column};
use sq_items::Items;
use sq_lex::Name;
use std::alloc::AllocError;

/// A view, and the table underneath.
#[derive(Clone, Copy)]
pub(crate) struct ViewOver {
    pub view: FullName,
    pub under: FullName,
}

impl Catalog {
    /// What the owner of a view holds on it: SELECT, and on an updatable view what follows from the table underneath.
    pub(crate) fn view_grants(
        &self,
        owner: Name,
        view: &FullName,
        names: &[Name],
        bound: &BoundView,
    ) -> Result<Items<Grant>, AllocError>
        ensures { IfOk result (λ grants. map grant_seen grants ≡ spec.view_grants (declared self.now) owner
            (name_in view.now) names.now (view_found bound.now)) }
    {
        let mut grants = Items::new(self.alloc());
        push_owned(
            &mut grants,
            owner,
            view,
            &Privilege::Select,
            true,
            bound.may_grant_select,
        )?;
        self.push_beneath(&mut grants, owner, view, names, bound)?;
        Ok(grants)
    }

    /// On an updatable view, what follows from the table underneath.
    fn push_beneath(
        &self,
        grants: &mut Items<Grant>,
        owner: Name,
        view: &FullName,
        names: &[Name],
        bound: &BoundView,
    ) -> Result<(), AllocError>
        ensures { OnOk result (HoldsMore grants.old grants.new (spec.grants_over (declared self.now) owner
            (name_in view.now) names.now (view_found bound.now).query (view_found bound.now).updatable)) }
    {
        match &bound.updatable {
            None => Ok(()),
            Some((under, _)) => {
                let over = ViewOver {
                    view: *view,
                    under: FullName {
                        user: under.0,
                        name: under.1,
                    },
                };
                self.push_over(grants, owner, &over, names, bound.query.list.as_slice())
            }
        }
    }

    /// INSERT, DELETE and, for each of the view's columns, UPDATE as they are held on the table underneath.
    fn push_over(
        &self,
        grants: &mut Items<Grant>,
        owner: Name,
        over: &ViewOver,
        names: &[Name],
        shown: &[BoundExpr],
    ) -> Result<(), AllocError>
        ensures { OnOk result (HoldsMore grants.old grants.new
            (followed_over (declared self.now) owner over.now
            names.now (map numbered_of shown.now))) }
    {
        self.push_followed(grants, owner, over, &Privilege::Insert, &Privilege::Insert)?;
        self.push_followed(grants, owner, over, &Privilege::Delete, &Privilege::Delete)?;
        match self.entry(&over.under) {
            Some((_, table)) => {
                self.push_updates(grants, owner, over, table.columns.as_slice(), names, shown)
            }
            None => Ok(()),
        }
    }

    /// UPDATE of each of the view's columns, as it is held on the column underneath that it shows.
    fn push_updates(
        &self,
        grants: &mut Items<Grant>,
        owner: Name,
        over: &ViewOver,
        underneath: &[Column],
        names: &[Name],
        shown: &[BoundExpr],
    ) -> Result<(), AllocError>
        ensures { OnOk result (HoldsMore grants.old grants.new
            (updates_over (declared self.now) owner over.now
            (names_in underneath.now) (zip names.now (map numbered_of shown.now)))) }
    {
        for (name, expr) in names.iter().zip(shown) {
            self.push_update(grants, owner, over, underneath, *name, expr)?;
        }
        Ok(())
    }

    /// UPDATE of a column of the view, as it is held on the column underneath that it shows.
    fn push_update(
        &self,
        grants: &mut Items<Grant>,
        owner: Name,
        over: &ViewOver,
        underneath: &[Column],
        name: Name,
        expr: &BoundExpr,
    ) -> Result<(), AllocError>
        ensures { OnOk result (HoldsMore grants.old grants.new
            (all_followed (declared self.now) owner over.now
            (spec.updates (names_in underneath.now) (name, numbered_of expr.now)))) }
    {
        match name_shown(underneath, expr) {
            Some(below) => {
                let (own, below) = (Privilege::Update(name), Privilege::Update(below));
                self.push_followed(grants, owner, over, &own, &below)
            }
            None => Ok(()),
        }
    }

    /// A privilege on a view, as it is held on the table underneath.
    fn push_followed(
        &self,
        grants: &mut Items<Grant>,
        owner: Name,
        over: &ViewOver,
        own: &Privilege,
        below: &Privilege,
    ) -> Result<(), AllocError>
        ensures { OnOk result (HoldsMore grants.old grants.new
            (spec.followed (declared self.now) owner (name_in over.now.view) (name_in over.now.under)
            (privilege_of own.now, privilege_of below.now))) }
    {
        let is_held = self.may(false, owner, &over.under, below);
        let can_grant = self.may(true, owner, &over.under, below);
        push_owned(grants, owner, &over.view, own, is_held, can_grant)
    }
}

/// A privilege on a view, if it is held, and its grant option, if that is held, too.
fn push_owned(
    grants: &mut Items<Grant>,
    owner: Name,
    view: &FullName,
    privilege: &Privilege,
    is_held: bool,
    can_grant: bool,
) -> Result<(), AllocError>
    ensures { OnOk result (HoldsMore grants.old grants.new
        (spec.owner_grants owner (name_in view.now) is_held can_grant (privilege_of privilege.now))) }
{
    if !is_held {
        return Ok(());
    }
    push_grant(grants, owner, view, privilege, false)?;
    if !can_grant {
        return Ok(());
    }
    push_grant(grants, owner, view, privilege, true)
}

fn push_grant(
    grants: &mut Items<Grant>,
    owner: Name,
    view: &FullName,
    privilege: &Privilege,
    to_grant: bool,
) -> Result<(), AllocError>
    ensures { OnOk result (HoldsMore grants.old grants.new (record {
      user = Some owner;
      table = name_in view.now;
      privilege = privilege_of privilege.now;
      to_grant = to_grant;
    } ∷ [])) }
{
    grants.push(Grant {
        user: Some(owner),
        table: *view,
        privilege: *privilege,
        to_grant,
    })
}

/// The name of the column underneath that an expression shows, if it is one.
fn name_shown(underneath: &[Column], expr: &BoundExpr) -> Option<Name>
    ensures { result ≡ option_and_then (slice_get (names_in underneath.now))
        (spec.column_shown (numbered_of expr.now)) }
{
    let position = column_shown(expr)?;
    let column = underneath.get(position)?;
    Some(column.name)
}

/// The position of the column that an expression is, if it is one.
#[tactic(auto, using(sq_binder::proofs::Expressions::Images::images))]
fn column_shown(expr: &BoundExpr) -> Option<usize>
    ensures { result ≡ spec.column_shown (numbered_of expr.now) }
{
    match expr {
        BoundExpr::Column(place) => Some(place.column),
        BoundExpr::Operations(first, rest) => {
            if rest.is_empty() {
                column_shown(first.get())
            } else {
                None
            }
        }
        BoundExpr::Literal(_) => None,
        BoundExpr::Parameter(_) => None,
        BoundExpr::User => None,
        BoundExpr::SetFunction(_) => None,
        BoundExpr::Signed(..) => None,
    }
}

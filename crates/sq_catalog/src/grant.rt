//! GRANT (ISO/IEC 9075:1992, 11.36).

ghost use Rattle.std.specs.Prelude.{◌≡◌, ◌++◌, [], true, IfOk, OnOk, filter, flat_map, map};
ghost use Rattle.std.specs.List.{list_all, list_any};
ghost use Rattle.std.specs.Option.{option_map};
ghost use Rattle.sq_meaning.specs.Spelled.{listed, listed_if_any};
ghost use Rattle.sq_tree.specs.declared.schema.Privileges.TheVariants.{Actions, All};
ghost use Rattle.sq_meaning.specs.SchemaRefusal.{action_columns, action_repeats, actions_of, has_unknown};
ghost use Rattle.sq_binding.specs.Catalog.{may};
ghost use Rattle.sq_binding.specs.Grant as spec;
ghost use Rattle.sq_binding.specs.Grant.{grantee_user, grants_to};
ghost use Rattle.sq_catalog.specs.Catalog.{Gains};
ghost use Rattle.sq_catalog.specs.Exact.{declared, name_in, names_in};
ghost use Rattle.sq_catalog.specs.Fault.{Makes};
ghost use Rattle.sq_catalog.specs.Granting.{grants_if_held, grants_of, some_of};
ghost use Rattle.sq_catalog.specs.Held.{grant_seen, privilege_of};
ghost use Rattle.sq_catalog.specs.Views.{GainsViews};

use crate::catalog::{Catalog, FullName, full_name};
use crate::fault::ElementFault;
use crate::held::Grant;
use crate::names::{column_names, lists_twice, lists_unknown};
use crate::privilege::{Privilege, all_privileges, named_privileges};
use sq_bound::TableDesc;
use sq_items::Items;
use sq_lex::Name;
use sq_meaning::SchemaFault;
use sq_tree::{Action, CommaList, GrantStatement, Grantee, Privileges};
use std::alloc::{AllocError, Global};

impl Catalog {
    /// GRANT: each privilege that it names must be held with the grant option.
    pub(crate) fn grant(
        &mut self,
        user: Name,
        statement: &GrantStatement,
    ) -> Result<(), ElementFault>
        ensures tables { OnOk result (Gains self.old self.new [] []) }
        ensures views { OnOk result (GainsViews self.old self.new []) }
        ensures exact { Makes (λ _. declared self.new)
            (spec.grant (declared self.old) user statement.now) result }
    {
        match self.grants_of(user, statement) {
            Ok(grants) => {
                let added = self.held.add_all(grants.as_slice());
                drop(grants);
                added
            }
            Err(fault) => Err(fault),
        }
    }

    /// The grants that a statement of a user makes.
    fn grants_of(
        &self,
        user: Name,
        statement: &GrantStatement,
    ) -> Result<Items<Grant>, ElementFault>
        ensures { Makes (map grant_seen)
            (spec.declared_grants (declared self.now) user statement.now) result }
    {
        let name = full_name(user, statement.table);
        match self.entry(&name) {
            Some((_, table)) => self.grants_over(user, &name, table, statement),
            None => Err(ElementFault::Refused(SchemaFault::UnknownName)),
        }
    }

    /// The grants that it makes on a table.
    fn grants_over(
        &self,
        user: Name,
        name: &FullName,
        table: &TableDesc,
        statement: &GrantStatement,
    ) -> Result<Items<Grant>, ElementFault>
        ensures { Makes (map grant_seen)
            (spec.grants_on (may (declared self.now) true user (name_in name.now))
            (names_in table.now.columns) (name_in name.now) statement.now) result }
    {
        let columns = column_names(self.alloc(), table.columns.as_slice())?;
        let grants = self.grants_on(user, name, columns.as_slice(), statement);
        drop(columns);
        grants
    }

    /// The grants that it makes on a table of these columns.
    fn grants_on(
        &self,
        user: Name,
        name: &FullName,
        columns: &[Name],
        statement: &GrantStatement,
    ) -> Result<Items<Grant>, ElementFault>
        ensures { Makes (map grant_seen)
            (spec.grants_on (may (declared self.now) true user (name_in name.now))
            columns.now (name_in name.now) statement.now) result }
    {
        if has_unknown(columns, &statement.privileges) {
            return Err(ElementFault::Refused(SchemaFault::UnknownName));
        }
        self.grants_if_held(user, name, columns, statement)
    }

    /// The grants of a statement all of whose columns exist.
    fn grants_if_held(
        &self,
        user: Name,
        name: &FullName,
        columns: &[Name],
        statement: &GrantStatement,
    ) -> Result<Items<Grant>, ElementFault>
        ensures { Makes (map grant_seen)
            (grants_if_held (may (declared self.now) true user (name_in name.now))
            columns.now (name_in name.now) statement.now) result }
    {
        match self.privileges_granted(user, name, columns, &statement.privileges) {
            Ok(privileges) => {
                let grants = grants_of(self.alloc(), name, privileges.as_slice(), statement);
                drop(privileges);
                grants
            }
            Err(fault) => Err(fault),
        }
    }

    /// The privileges that it names, which have to be held with the grant option.
    fn privileges_granted(
        &self,
        user: Name,
        name: &FullName,
        columns: &[Name],
        privileges: &Privileges,
    ) -> Result<Items<Privilege>, ElementFault>
        ensures { Makes (map privilege_of) (spec.privileges_granted
            (may (declared self.now) true user (name_in name.now)) columns.now privileges.now) result }
    {
        match privileges {
            Privileges::All => self.all_granted(user, name, columns),
            Privileges::Actions(actions) => self.actions_granted(user, name, columns, actions),
        }
    }

    /// ALL PRIVILEGES: those that are so held, one at least.
    fn all_granted(
        &self,
        user: Name,
        name: &FullName,
        columns: &[Name],
    ) -> Result<Items<Privilege>, ElementFault>
        ensures { Makes (map privilege_of) (spec.privileges_granted
            (may (declared self.now) true user (name_in name.now)) columns.now All) result }
    {
        let all = all_privileges(self.alloc(), columns)?;
        let held = self.held_among(user, name, all.as_slice());
        drop(all);
        some_of(held?)
    }

    fn held_among(
        &self,
        user: Name,
        name: &FullName,
        privileges: &[Privilege],
    ) -> Result<Items<Privilege>, AllocError>
        ensures { IfOk result (λ held. map privilege_of held
            ≡ filter (may (declared self.now) true user (name_in name.now))
            (map privilege_of privileges.now)) }
    {
        let mut held = Items::new(self.alloc());
        for privilege in privileges {
            if self.may(true, user, name, privilege) {
                held.push(*privilege)?;
            }
        }
        Ok(held)
    }

    fn actions_granted(
        &self,
        user: Name,
        name: &FullName,
        columns: &[Name],
        actions: &CommaList<Action>,
    ) -> Result<Items<Privilege>, ElementFault>
        ensures { Makes (map privilege_of) (spec.privileges_granted
            (may (declared self.now) true user (name_in name.now)) columns.now (Actions actions.now)) result }
    {
        let named = named_privileges(self.alloc(), columns, actions)?;
        if self.holds_all(user, name, named.as_slice()) {
            return Ok(named);
        }
        drop(named);
        Err(ElementFault::Refused(SchemaFault::PrivilegeMissing))
    }

    fn holds_all(&self, user: Name, name: &FullName, privileges: &[Privilege]) -> bool
        ensures { result ≡ list_all (may (declared self.now) true user (name_in name.now))
            (map privilege_of privileges.now) }
    {
        for privilege in privileges {
            if !self.may(true, user, name, privilege) {
                return false;
            }
        }
        true
    }
}

/// Privileges, of which there must be one.
fn some_of(privileges: Items<Privilege>) -> Result<Items<Privilege>, ElementFault>
    ensures { Makes (map privilege_of) (some_of (map privilege_of privileges)) result }
{
    if is_empty(privileges.as_slice()) {
        drop(privileges);
        return Err(ElementFault::Refused(SchemaFault::PrivilegeMissing));
    }
    Ok(privileges)
}

fn is_empty(privileges: &[Privilege]) -> bool
    ensures { result ≡ spec.is_empty (map privilege_of privileges.now) }
{
    privileges.is_empty()
}

/// Whether a list of columns in a grant names one that is not among these.
fn has_unknown(columns: &[Name], privileges: &Privileges) -> bool
    ensures { result ≡ has_unknown columns.now (flat_map action_columns (actions_of privileges.now)) }
{
    match privileges {
        Privileges::All => false,
        Privileges::Actions(actions) => are_unknown(columns, actions),
    }
}

fn are_unknown(columns: &[Name], actions: &CommaList<Action>) -> bool
    ensures { result ≡ has_unknown columns.now (flat_map action_columns (listed actions.now)) }
{
    names_unknown(columns, &actions.first) || any_unknown(columns, actions.rest.as_slice())
}

fn any_unknown(columns: &[Name], actions: &[Action]) -> bool
    ensures { result ≡ list_any (λ action. has_unknown columns.now (action_columns action)) actions.now }
{
    actions.iter().any(|action| names_unknown(columns, action))
}

fn names_unknown(columns: &[Name], action: &Action) -> bool
    ensures { result ≡ has_unknown columns.now (action_columns action.now) }
{
    match listed_columns(action) {
        Some(list) => lists_unknown(columns, list),
        None => false,
    }
}

/// Whether a list of columns in a grant has one twice.
fn has_twice(privileges: &Privileges) -> bool
    ensures { result ≡ list_any action_repeats (actions_of privileges.now) }
{
    match privileges {
        Privileges::All => false,
        Privileges::Actions(actions) => {
            repeats(&actions.first) || any_repeats(actions.rest.as_slice())
        }
    }
}

fn any_repeats(actions: &[Action]) -> bool
    ensures { result ≡ list_any action_repeats actions.now }
{
    actions.iter().any(|action| repeats(action))
}

fn repeats(action: &Action) -> bool
    ensures { result ≡ action_repeats action.now }
{
    match listed_columns(action) {
        Some(list) => lists_twice(list),
        None => false,
    }
}

/// The list of columns of an action.
fn listed_columns(action: &Action) -> Option<&CommaList<Name>>
    ensures { action_columns action.now ≡ listed_if_any (option_map (λ list. list.now) result) }
{
    match action {
        Action::Select | Action::Insert | Action::Delete => None,
        Action::Update(list) | Action::References(list) => list.as_ref(),
    }
}

/// The grants of privileges that a statement makes; no list of columns in it has one twice.
fn grants_of(
    alloc: Global,
    table: &FullName,
    privileges: &[Privilege],
    statement: &GrantStatement,
) -> Result<Items<Grant>, ElementFault>
    ensures { Makes (map grant_seen)
        (grants_of (name_in table.now) (map privilege_of privileges.now) statement.now) result }
{
    if has_twice(&statement.privileges) {
        return Err(ElementFault::Refused(SchemaFault::OtherSchema));
    }
    Ok(grants_made(alloc, table, privileges, statement)?)
}

/// The grants of privileges to each grantee, and with the grant option where it is written.
fn grants_made(
    alloc: Global,
    table: &FullName,
    privileges: &[Privilege],
    statement: &GrantStatement,
) -> Result<Items<Grant>, AllocError>
    ensures { IfOk result (λ grants. map grant_seen grants
        ≡ spec.grants_made (name_in table.now) (map privilege_of privileges.now) statement.now) }
{
    let mut grants = Items::new(alloc);
    push_for_all(&mut grants, table, privileges, &statement.grantees, false)?;
    if statement.grant_option {
        push_for_all(&mut grants, table, privileges, &statement.grantees, true)?;
    }
    Ok(grants)
}

/// Grants to each of a list.
fn push_for_all(
    grants: &mut Items<Grant>,
    table: &FullName,
    privileges: &[Privilege],
    grantees: &CommaList<Grantee>,
    to_grant: bool,
) -> Result<(), AllocError>
    ensures { OnOk result (map grant_seen grants.new ≡ map grant_seen grants.old ++ flat_map
        (grants_to (name_in table.now) (map privilege_of privileges.now) to_grant) (listed grantees.now)) }
{
    push_for(grants, table, privileges, &grantees.first, to_grant)?;
    push_for_each(
        grants,
        table,
        privileges,
        grantees.rest.as_slice(),
        to_grant,
    )
}

fn push_for_each(
    grants: &mut Items<Grant>,
    table: &FullName,
    privileges: &[Privilege],
    grantees: &[Grantee],
    to_grant: bool,
) -> Result<(), AllocError>
    ensures { OnOk result (map grant_seen grants.new ≡ map grant_seen grants.old ++ flat_map
        (grants_to (name_in table.now) (map privilege_of privileges.now) to_grant) grantees.now) }
{
    for grantee in grantees {
        push_for(grants, table, privileges, grantee, to_grant)?;
    }
    Ok(())
}

/// Grants to one grantee.
fn push_for(
    grants: &mut Items<Grant>,
    table: &FullName,
    privileges: &[Privilege],
    grantee: &Grantee,
    to_grant: bool,
) -> Result<(), AllocError>
    ensures { OnOk result (map grant_seen grants.new ≡ map grant_seen grants.old
        ++ grants_to (name_in table.now) (map privilege_of privileges.now) to_grant grantee.now) }
{
    for privilege in privileges {
        grants.push(Grant {
            user: user_of(grantee),
            table: *table,
            privilege: *privilege,
            to_grant,
        })?;
    }
    Ok(())
}

/// The user that a grantee is, none for PUBLIC.
fn user_of(grantee: &Grantee) -> Option<Name>
    ensures { result ≡ grantee_user grantee.now }
{
    match grantee {
        Grantee::Public => None,
        Grantee::User(name) => Some(*name),
    }
}

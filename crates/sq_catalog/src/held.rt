//! The privileges that users and PUBLIC hold, with or without the grant option (ISO/IEC 9075:1992, 10.3).

ghost use Rattle.std.specs.Prelude.{◌≡◌, ◌&&◌, [], IfErr, OnOk, map};
ghost use Rattle.std.specs.List.{list_any};
ghost use Rattle.sq_meaning.specs.Environment.{same_name};
ghost use Rattle.sq_meaning.specs.Privileges.{is_on_column};
ghost use Rattle.sq_meaning.specs.Schema.{is_among};
ghost use Rattle.sq_binding.specs.Catalog.{gives, may, may_on, owns, same_grant, with_grant, with_grants};
ghost use Rattle.sq_catalog.specs.Exact.{declared, entry_declared, name_in, names_in};
ghost use Rattle.sq_catalog.specs.Stored.{IsStored};
ghost use Rattle.sq_catalog.specs.declared.fault.ElementFault.TheVariants.{NoMemory};
ghost use Rattle.sq_catalog.specs.Held.{grant_seen, grants_held, privilege_of};

use crate::catalog::{Catalog, FullName};
use crate::fault::ElementFault;
use crate::privilege::Privilege;
use indexmap::IndexSet;
use sq_bound::{Column, TableBody, TableDesc};
use sq_lex::Name;
use std::alloc::Global;

/// A privilege of a user or, with no user, of PUBLIC, on a table; or its grant option.
#[derive(Clone, Copy, Debug, PartialEq, Eq, Hash)]
pub(crate) struct Grant {
    pub user: Option<Name>,
    pub table: FullName,
    pub privilege: Privilege,
    /// Whether the grant option is held.
    pub to_grant: bool,
}

/// The privileges that are granted, each once, in the order of the grants.
#[derive(Drop)]
pub(crate) struct Held {
    grants: IndexSet<Grant>,
}

impl Held {
    /// Nothing is granted.
    pub(crate) fn new(alloc: Global) -> Held
        ensures { grants_held result ≡ [] }
    {
        Held {
            grants: IndexSet::new(alloc),
        }
    }

    /// Adds each grant that is not there yet.
    pub(crate) fn add_all(&mut self, grants: &[Grant]) -> Result<(), ElementFault>
        ensures added { OnOk result (grants_held self.new
            ≡ with_grants (grants_held self.old) (map grant_seen grants.now)) }
        ensures memory { IfErr result (λ fault. fault ≡ NoMemory) }
    {
        for grant in grants {
            self.add(grant)?;
        }
        Ok(())
    }

    fn add(&mut self, grant: &Grant) -> Result<(), ElementFault>
        ensures added { OnOk result (grants_held self.new
            ≡ with_grant (grants_held self.old) (grant_seen grant.now)) }
        ensures memory { IfErr result (λ fault. fault ≡ NoMemory) }
    {
        let inserted = self.grants.insert_full(Grant {
            user: grant.user,
            table: grant.table,
            privilege: grant.privilege,
            to_grant: grant.to_grant,
        });
        match inserted {
            Ok(_) => Ok(()),
            Err(error) => {
                drop(error);
                Err(ElementFault::NoMemory)
            }
        }
    }

    /// Whether a user holds a privilege by a grant to the user or to PUBLIC, or with `to_grant` its grant option.
    fn gives(&self, to_grant: bool, user: Name, table: &FullName, privilege: &Privilege) -> bool
        ensures { result ≡ list_any
            (gives to_grant user (name_in table.now) (privilege_of privilege.now)) (grants_held self.now) }
    {
        let by_name = Grant {
            user: Some(user),
            table: *table,
            privilege: *privilege,
            to_grant,
        };
        let of_public = Grant {
            user: None,
            ..by_name
        };
        self.has(&by_name) || self.has(&of_public)
    }

    fn has(&self, grant: &Grant) -> bool
        ensures { result ≡ list_any (same_grant (grant_seen grant.now)) (grants_held self.now) }
    {
        self.grants.contains(grant)
    }
}

impl Catalog {
    /// Whether a user holds a privilege on a table, or with `to_grant` its grant option.
    pub(crate) fn may(
        &self,
        to_grant: bool,
        user: Name,
        name: &FullName,
        privilege: &Privilege,
    ) -> bool
        ensures { result ≡ may (declared self.now) to_grant user (name_in name.now)
            (privilege_of privilege.now) }
    {
        match self.entry(name) {
            Some((_, table)) => self.may_on(to_grant, user, name, privilege, table),
            None => false,
        }
    }

    /// Whether a user holds a privilege on this table, or with `to_grant` its grant option.
    fn may_on(
        &self,
        to_grant: bool,
        user: Name,
        name: &FullName,
        privilege: &Privilege,
        table: &TableDesc,
    ) -> bool
        requires { IsStored self.now.bases table.now }
        ensures { result ≡ may_on (declared self.now) to_grant user (name_in name.now)
            (privilege_of privilege.now) (entry_declared name.now table.now) }
    {
        owner_holds(user, name, privilege, table)
            || self.held.gives(to_grant, user, name, privilege)
    }
}

/// Whether a user holds a privilege on a table as its owner.
fn owner_holds(user: Name, name: &FullName, privilege: &Privilege, table: &TableDesc) -> bool
    ensures { result ≡ (owns user (name_in name.now) (entry_declared name.now table.now)
        && is_on_column (names_in table.now.columns) (privilege_of privilege.now)) }
{
    is_owner(user, name, table) && is_on_column(privilege, table)
}

/// Whether a table is a base table of a user.
fn is_owner(user: Name, name: &FullName, table: &TableDesc) -> bool
    ensures { result ≡ owns user (name_in name.now) (entry_declared name.now table.now) }
{
    match table.body {
        TableBody::Base(_) => name.user == user,
        TableBody::View(_) => false,
    }
}

/// Whether a privilege is on a table as a whole, or on one of its columns.
fn is_on_column(privilege: &Privilege, table: &TableDesc) -> bool
    ensures { result ≡ is_on_column (names_in table.now.columns) (privilege_of privilege.now) }
{
    match *privilege {
        Privilege::Select | Privilege::Insert | Privilege::Delete => true,
        Privilege::Update(column) | Privilege::References(column) => has_column(table, column),
    }
}

fn has_column(table: &TableDesc, name: Name) -> bool
    ensures { result ≡ is_among (names_in table.now.columns) name }
{
    is_named(table.columns.as_slice(), name)
}

/// Whether one of these columns has a name.
fn is_named(columns: &[Column], name: Name) -> bool
    ensures { result ≡ list_any (λ column. same_name name column.name) columns.now }
{
    columns.iter().any(|column| name == column.name)
}

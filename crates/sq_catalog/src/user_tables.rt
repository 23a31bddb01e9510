//! What the texts of a user name.

ghost use Rattle.std.specs.Prelude.{◌≡◌};
ghost use Rattle.std.specs.Option.{option_map};
ghost use Rattle.sq_binder.specs.Names.{beneath_of, privilege_of};
ghost use Rattle.sq_catalog.specs.Held.{privilege_of as privilege_seen};
ghost use Rattle.sq_catalog.specs.Stored.{IsUnderItself};
ghost use Rattle.sq_catalog.specs.UserTables.{NamesStand, beneath_in, is_base_table};

use crate::catalog::{Catalog, FullName};
use crate::privilege::Privilege;
use sq_binder::{ChangeableTables, NamedTable, Privilege as NeededPrivilege, Tables, UnderTable};
use sq_bound::{TableBody, TableDesc};
use sq_lex::Name;

/// The tables and views of a catalog, with the privileges that a user holds.
#[derive(Clone, Copy)]
pub struct UserTables<'a> {
    pub catalog: &'a Catalog,
    pub user: Name,
}

impl Catalog {
    /// Shows that each name means something that exists, that it is known, and that the definitions see the same.
    pub fn names_stand(&self)
        ensures { NamesStand self.now }
    {
        let _tables = self.bases.len();
    }
}

impl Tables for UserTables<'_> {
    ghost use Rattle.sq_catalog.specs.UserTables.{named_by_user};

    ghost named = { λ t. named_by_user t.catalog.now t.user };

    fn table(&self, user: Name, name: Name) -> Option<NamedTable<'_>> {
        let full_name = FullName { user, name };
        match self.catalog.entry(&full_name) {
            Some((_, table)) => Some(NamedTable {
                place: table.place(),
                columns: table.columns.as_slice(),
                may_select: self
                    .catalog
                    .may(false, self.user, &full_name, &Privilege::Select),
                may_grant: self
                    .catalog
                    .may(true, self.user, &full_name, &Privilege::Select),
            }),
            None => None,
        }
    }
}

impl ChangeableTables for UserTables<'_> {
    ghost use Rattle.sq_catalog.specs.UserTables.{changes_by_user};

    ghost changes = { λ t. changes_by_user t.catalog.now t.user };

    fn beneath(&self, user: Name, name: Name) -> Option<UnderTable<'_>> {
        match self.catalog.entry(&FullName { user, name }) {
            Some((_, table)) => beneath_table(table),
            None => None,
        }
    }

    fn holds(&self, user: Name, name: Name, privilege: NeededPrivilege) -> bool {
        let table = FullName { user, name };
        let privilege = privilege_needed(privilege);
        self.catalog.may(false, self.user, &table, &privilege)
    }
}

/// What is under a table, if it may be changed.
fn beneath_table(table: &TableDesc) -> Option<UnderTable<'_>>
    requires { IsUnderItself table.now.body table.now.leaf }
    ensures { option_map beneath_of result ≡ beneath_in table.now }
{
    let leaf = table.leaf.as_ref()?;
    Some(UnderTable {
        leaf,
        columns: table.columns.as_slice(),
        is_base: is_base(&table.body),
    })
}

fn is_base(body: &TableBody) -> bool
    ensures { result ≡ is_base_table body.now }
{
    match body {
        TableBody::Base(_) => true,
        TableBody::View(_) => false,
    }
}

/// A privilege that a statement needs.
fn privilege_needed(privilege: NeededPrivilege) -> Privilege
    ensures { privilege_seen result ≡ privilege_of privilege }
{
    match privilege {
        NeededPrivilege::Select => Privilege::Select,
        NeededPrivilege::Insert => Privilege::Insert,
        NeededPrivilege::Delete => Privilege::Delete,
        NeededPrivilege::Update(column) => Privilege::Update(column),
    }
}

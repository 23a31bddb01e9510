//! Privileges, and those that a grant names (ISO/IEC 9075:1992, 10.3).

ghost use Rattle.std.specs.Prelude.{◌≡◌, ◌++◌, IfOk, OnOk, flat_map, map};
ghost use Rattle.sq_meaning.specs.Spelled.{listed};
ghost use Rattle.sq_meaning.specs.SchemaRefusal.{action_privileges, all_privileges, columns_granted};
ghost use Rattle.sq_catalog.specs.Held.{privilege_of, privilege_on};

use sq_items::Items;
use sq_lex::Name;
use sq_tree::{Action, CommaList};
use std::alloc::{AllocError, Global};
use std::slice::from_ref;

/// A privilege on a table. UPDATE and REFERENCES are held column by column.
#[derive(Clone, Copy, Debug, PartialEq, Eq, Hash)]
pub(crate) enum Privilege {
    Select,
    Insert,
    Delete,
    Update(Name),
    References(Name),
}

/// An action whose privilege is held column by column.
#[derive(Clone, Copy)]
pub(crate) enum ColumnAction {
    Update,
    References,
}

impl ColumnAction {
    /// The privilege of the action on this column.
    fn on(self, column: Name) -> Privilege
        ensures { privilege_of result ≡ privilege_on self column }
    {
        match self {
            ColumnAction::Update => Privilege::Update(column),
            ColumnAction::References => Privilege::References(column),
        }
    }
}

/// All privileges on a table of these columns.
pub(crate) fn all_privileges(
    alloc: Global,
    columns: &[Name],
) -> Result<Items<Privilege>, AllocError>
    ensures { IfOk result (λ ps. map privilege_of ps ≡ all_privileges columns.now) }
{
    let mut privileges = Items::new(alloc);
    privileges.push(Privilege::Select)?;
    privileges.push(Privilege::Insert)?;
    privileges.push(Privilege::Delete)?;
    push_columns(&mut privileges, ColumnAction::Update, columns)?;
    push_columns(&mut privileges, ColumnAction::References, columns)?;
    Ok(privileges)
}

/// The privileges that actions name on a table of these columns.
pub(crate) fn named_privileges(
    alloc: Global,
    columns: &[Name],
    actions: &CommaList<Action>,
) -> Result<Items<Privilege>, AllocError>
    ensures { IfOk result
        (λ ps. map privilege_of ps ≡ flat_map (action_privileges columns.now) (listed actions.now)) }
{
    let mut privileges = Items::new(alloc);
    push_action(&mut privileges, columns, &actions.first)?;
    push_actions(&mut privileges, columns, actions.rest.as_slice())?;
    Ok(privileges)
}

fn push_actions(
    privileges: &mut Items<Privilege>,
    columns: &[Name],
    actions: &[Action],
) -> Result<(), AllocError>
    ensures { OnOk result (map privilege_of privileges.new
        ≡ map privilege_of privileges.old ++ flat_map (action_privileges columns.now) actions.now) }
{
    for action in actions {
        push_action(privileges, columns, action)?;
    }
    Ok(())
}

/// Without a list of columns UPDATE and REFERENCES are on each.
fn push_action(
    privileges: &mut Items<Privilege>,
    columns: &[Name],
    action: &Action,
) -> Result<(), AllocError>
    ensures { OnOk result (map privilege_of privileges.new
        ≡ map privilege_of privileges.old ++ action_privileges columns.now action.now) }
{
    match action {
        Action::Select => privileges.push(Privilege::Select),
        Action::Insert => privileges.push(Privilege::Insert),
        Action::Delete => privileges.push(Privilege::Delete),
        Action::Update(list) => push_granted(privileges, ColumnAction::Update, columns, list),
        Action::References(list) => {
            push_granted(privileges, ColumnAction::References, columns, list)
        }
    }
}

/// The privilege of an action on each column of a list, or on all columns where none is written.
fn push_granted(
    privileges: &mut Items<Privilege>,
    action: ColumnAction,
    columns: &[Name],
    list: &Option<CommaList<Name>>,
) -> Result<(), AllocError>
    ensures { OnOk result (map privilege_of privileges.new
        ≡ map privilege_of privileges.old
        ++ map (privilege_on action) (columns_granted columns.now list.now)) }
{
    match list {
        None => push_columns(privileges, action, columns),
        Some(list) => {
            push_columns(privileges, action, from_ref(&list.first))?;
            push_columns(privileges, action, list.rest.as_slice())
        }
    }
}

/// The privilege of an action on each column.
fn push_columns(
    privileges: &mut Items<Privilege>,
    action: ColumnAction,
    columns: &[Name],
) -> Result<(), AllocError>
    ensures { OnOk result (map privilege_of privileges.new
        ≡ map privilege_of privileges.old ++ map (privilege_on action) columns.now) }
{
    for column in columns {
        privileges.push(action.on(*column))?;
    }
    Ok(())
}

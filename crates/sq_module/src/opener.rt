//! The procedures that open cursors.

ghost use Rattle.std.specs.Prelude.{◌≡◌, ◌==◌, [], ◌∷◌, ◌++◌, IfOk, List, OnOk, if◌then◌else◌, position};
ghost use Rattle.std.specs.List.{list_any};
ghost use Rattle.indexmap.specs.IndexSet.{insert_key};
ghost use Rattle.sq_tree.specs.declared.module.ModuleItem.{ModuleItem as AnyItem};
ghost use Rattle.sq_meaning.specs.Environment.{same_name};
ghost use Rattle.sq_module.specs.Refusal.{AreOpeners, has_open_count, opened_in, opener_count};

use crate::declared::is_new;
use indexmap::IndexSet;
use sq_lex::Name;
use sq_tree::{ModuleItem, Statement};
use std::alloc::{AllocError, Global};

/// Which cursors the procedures of a module open.
#[derive(Drop)]
pub(crate) struct Openers {
    opened: IndexSet<Name>,
    /// Those that two procedures open.
    shared: IndexSet<Name>,
}

impl Openers {
    /// The openers among the items of a module.
    pub(crate) fn of(alloc: Global, items: &[ModuleItem]) -> Result<Openers, AllocError>
        ensures { IfOk result (AreOpeners items.now) }
    {
        let mut openers = Openers {
            opened: IndexSet::new(alloc),
            shared: IndexSet::new(alloc),
        };
        match openers.add_all(items) {
            Ok(()) => Ok(openers),
            Err(error) => {
                drop(openers);
                Err(error)
            }
        }
    }

    fn add_all(&mut self, items: &[ModuleItem]) -> Result<(), AllocError>
        requires { AreOpeners [] self.old }
        ensures { OnOk result (AreOpeners items.now self.new) }
    {
        for item in items {
            self.add_item(item)?;
        }
        Ok(())
    }

    /// Adds the cursor that an item opens, if it opens one.
    fn add_item(&mut self, item: &ModuleItem) -> Result<(), AllocError>
        ensures { (items : List AnyItem) → AreOpeners items self.old
            → OnOk result (AreOpeners (items ++ item.now ∷ []) self.new) }
    {
        match cursor_opened(item) {
            Some(cursor) => self.add(cursor),
            None => Ok(()),
        }
    }

    fn add(&mut self, cursor: Name) -> Result<(), AllocError>
        ensures opened { OnOk result
            (self.new.opened.keys ≡ insert_key same_name self.old.opened.keys cursor) }
        ensures shared { OnOk result
            (self.new.shared.keys
            ≡ if list_any (same_name cursor) self.old.opened.keys then insert_key same_name
            self.old.shared.keys cursor else self.old.shared.keys) }
    {
        if !is_new(&mut self.opened, cursor)? {
            is_new(&mut self.shared, cursor)?;
        }
        Ok(())
    }

    /// The first cursor among these items that not exactly one procedure opens.
    pub(crate) fn first_without_one(&self, items: &[ModuleItem]) -> Option<usize>
        requires { AreOpeners items.now self.now }
        ensures { result ≡ position (has_open_count items.now) items.now }
    {
        for (place, item) in items.iter().enumerate() {
            if self.is_without_one(item) {
                return Some(place);
            }
        }
        None
    }

    /// Whether the item is a cursor that is opened by no procedure or by several.
    fn is_without_one(&self, item: &ModuleItem) -> bool
        ensures { (items : List AnyItem) → AreOpeners items self.now → result
            ≡ has_open_count items item.now }
    {
        match item {
            ModuleItem::Cursor(cursor) => !self.has_one(cursor.name),
            ModuleItem::Procedure(_) => false,
        }
    }

    /// Whether exactly one procedure opens the cursor.
    fn has_one(&self, cursor: Name) -> bool
        ensures { (items : List AnyItem) → AreOpeners items self.now → result
            ≡ (opener_count items cursor == 1) }
    {
        self.opened.contains(&cursor) && !self.shared.contains(&cursor)
    }
}

/// The cursor that the item's statement opens, if it is a procedure with such a statement.
fn cursor_opened(item: &ModuleItem) -> Option<Name>
    ensures { result ≡ opened_in item.now }
{
    match item {
        ModuleItem::Procedure(procedure) => match &procedure.statement {
            Statement::Open(cursor) => Some(*cursor),
            _ => None,
        },
        ModuleItem::Cursor(_) => None,
    }
}

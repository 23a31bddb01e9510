//! Elements by keys.

ghost use Rattle.std.specs.Prelude.{◌≡◌, length};

use indexmap::IndexSet;
use sq_expression::Fault;
use sq_value::Key;
use std::alloc::Global;

/// Elements in lists, one for each key, in the order in which the keys first came.
#[derive(Drop)]
pub(crate) struct ByKey<T> {
    keys: IndexSet<Key>,
    pub lists: Vec<Vec<T>>,
    ghost is_paired: { length lists.items ≡ length keys.keys },
}

impl<T: Drop> ByKey<T> {
    ghost use Rattle.std.specs.Prelude.{◌<◌, ◌∷◌, ◌++◌, [], List, map, if◌then◌else◌, IfOk, IfErr, OnOk};
    ghost use Rattle.std.specs.List.{list_any, position_or_len};
    ghost use Rattle.indexmap.specs.IndexSet.{insert_key};
    ghost use Rattle.sq_value.specs.declared.value.Value.{Value as AnyValue};
    ghost use Rattle.sq_meaning.specs.Rows.{same_row};
    ghost use Rattle.sq_expression.specs.Fault.{Meets};
    ghost use Rattle.sq_ending.specs.Groups.{IsOf};

    /// No elements.
    pub(crate) fn new(alloc: Global) -> ByKey<T>
        ensures { IsOf result [] }
    {
        ByKey {
            keys: IndexSet::new(alloc),
            lists: Vec::new(alloc),
        }
    }

    /// Adds an element behind those of its key.
    pub(crate) fn add(&mut self, alloc: Global, key: Key, element: T) -> Result<(), Fault>
        ensures lists { (added : List (List AnyValue × T)) → IsOf self.old added
            → OnOk result (IsOf self.new (added ++ (key, element) ∷ [])) }
        ensures memory { Meets result (Ok tt) }
    {
        let place = self.place_of(alloc, key)?;
        self.lists[place].push(element)?;
        Ok(())
    }

    /// The place of the key's list, which is an empty one where there was none.
    fn place_of(&mut self, alloc: Global, key: Key) -> Result<usize, Fault>
        ensures keys { OnOk result (self.new.keys.keys ≡ insert_key same_row self.old.keys.keys key) }
        ensures lists { OnOk result (map (λ list. list.items) self.new.lists.items ≡
            (if list_any (same_row key) self.old.keys.keys then map
            (λ list. list.items) self.old.lists.items else map
            (λ list. list.items) self.old.lists.items ++ [] ∷ [])) }
        ensures place { IfOk result (λ place. place ≡ position_or_len (same_row key) self.old.keys.keys) }
        ensures within { IfOk result (λ place. place < length self.new.lists.items) }
        ensures memory { IfErr result (λ fault. fault ≡ Fault.NoMemory) }
    {
        self.lists.reserve(1)?;
        let (place, is_new) = self.keys.insert_full(key)?;
        if is_new {
            self.lists.push(Vec::new(alloc)).unwrap();
        }
        Ok(place)
    }
    /// The lists.
    pub(crate) fn into_lists(self) -> Vec<Vec<T>>
        ensures { result ≡ self.lists }
    {
        let ByKey { keys, lists } = self;
        drop(keys);
        lists
    }
}

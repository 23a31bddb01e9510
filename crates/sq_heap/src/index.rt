//! A hashed index of the rows in slots, for one key.

ghost use Rattle.std.specs.Prelude.{◌≡◌, ◌<◌, ◌≤◌, ◌^◌, ◌∷◌, [], length, true, IfOk, MatchOption, OnOk};
ghost use Rattle.std.specs.List.{list_all};
ghost use Rattle.std.specs.Option.{option_copied};
ghost use Rattle.sq_heap.specs.Chain.{are_falling, chain_of, is_within};

use crate::hash::{hash_of_row, have_same_key};
use sq_items::Items;
use sq_value::{Row, Value};
use std::alloc::{AllocError, Global};

/// A slot's place, under the hash of the key of a row that was put there.
#[derive(Clone, Copy, Drop)]
pub(crate) struct Entry {
    pub(crate) hash: u64,
    pub(crate) at: usize,
    /// One more than the place of the entry before it in its chain, or 0 if it is the first.
    pub(crate) next: usize,
}

/// The places of rows by the hashes of their keys, in chains of entries.
///
/// Entries are only added. One whose slot has another row by now, or none, does no harm, as whoever finds it looks at the
/// row. So nothing has to be put back where changes are undone, and that needs no memory.
#[derive(Drop)]
pub(crate) struct Index {
    columns: Items<usize>,
    /// One more than the place of each chain's last entry, or 0 where the chain has no entries.
    heads: Vec<usize>,
    entries: Vec<Entry>,
    ghost some: { 0 < length heads.items },
    ghost within: { list_all (is_within (length entries.items)) heads.items ≡ true },
    ghost falling: { are_falling 0 entries.items ≡ true },
}

impl Index {
    ghost use Rattle.std.specs.Prelude.{ℕ};
    ghost use Rattle.sq_heap.specs.Index.{bucket_of, has_entry, is_in, slot_holds};

    /// An index without entries, and with room for `count`.
    pub(crate) fn new(
        alloc: Global,
        columns: Items<usize>,
        count: usize,
    ) -> Result<Index, AllocError>
        ensures { IfOk result (λ index. index.columns ≡ columns) }
    {
        let mut heads = Vec::new(alloc);
        heads.resize(count.max(1), 0)?;
        Ok(Index {
            columns,
            heads,
            entries: Vec::with_capacity(alloc, count)?,
        })
    }

    /// The columns of the key.
    pub(crate) fn columns(&self) -> &[usize]
        ensures { result.now ≡ self.now.columns }
    {
        self.columns.as_slice()
    }

    /// Whether `more` entries would make it slow.
    pub(crate) fn is_full(&self, more: usize) -> bool
        requires { more < 2 ^ 63 }
    {
        self.entries.len() + more > self.heads.len()
    }

    /// The chain in which the entries under a hash are: one more than the place of its last entry, or 0.
    pub(crate) fn last(&self, hash: u64) -> usize
        ensures within { result ≤ length self.now.entries.items }
        ensures chain { chain_of self.now.entries.items result ≡ bucket_of self.now hash }
    {
        self.heads[hash as usize % self.heads.len()]
    }

    /// The entry that a link names.
    pub(crate) fn entry(&self, link: usize) -> Option<Entry>
        requires { link ≤ length self.now.entries.items }
        ensures { MatchOption result
            (chain_of self.now.entries.items link ≡ [])
            (λ e. (chain_of self.now.entries.items link ≡ e ∷ chain_of self.now.entries.items e.next)
            × (e.next < link)) }
    {
        if link == 0 {
            None
        } else {
            Some(self.entries[link - 1])
        }
    }

    /// Adds an entry for a row. The entry of the row that was in its slot before serves if the key is the same.
    #[tactic(auto, using(crate::proofs::Entries::same_hash))]
    pub(crate) fn enter(
        &mut self,
        before: Option<&Row>,
        row: &[Value],
        at: usize,
    ) -> Result<(), AllocError>
        requires { slot_holds (is_in self.old) at (option_copied before) ≡ true }
        ensures columns { self.new.columns ≡ self.old.columns }
        ensures keeps { (hash place : ℕ) → has_entry self.old hash place ≡ true
            → has_entry self.new hash place ≡ true }
        ensures entered { OnOk result (is_in self.new row.now at ≡ true) }
    {
        let columns = self.columns.as_slice();
        match before {
            Some(old) if have_same_key(row, old.as_slice(), columns) => Ok(()),
            _ => {
                let hash = hash_of_row(row, columns);
                self.add(hash, at)
            }
        }
    }

    /// Adds an entry under a hash, in front of its chain.
    fn add(&mut self, hash: u64, at: usize) -> Result<(), AllocError>
        ensures columns { self.new.columns ≡ self.old.columns }
        ensures keeps { (other place : ℕ) → has_entry self.old other place ≡ true
            → has_entry self.new other place ≡ true }
        ensures entered { OnOk result (has_entry self.new hash at ≡ true) }
    {
        let chain = hash as usize % self.heads.len();
        let next = self.heads[chain];
        self.entries.push(Entry { hash, at, next })?;
        self.heads[chain] = self.entries.len();
        Ok(())
    }
}

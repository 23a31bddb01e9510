//! Keys of a table definition (ISO/IEC 9075:1992, 11.7; the number of columns is an own rule).

ghost use Rattle.std.specs.Prelude.{◌≡◌, ◌&&◌, ◌||◌, ◌++◌, ◌∷◌, nat_lt, length, map, false, true, if◌then◌else◌, is_some, [], IfErr, IfOk, None, OnOk, Some};
ghost use Rattle.std.specs.List.{list_all, list_any};
ghost use Rattle.std.specs.Option.{option_or};
ghost use Rattle.sq_bound.specs.Names.{are_positions, option_all};
ghost use Rattle.sq_binding.specs.Key as definition;
ghost use Rattle.sq_binding.specs.ElementOutcome.{each};
ghost use Rattle.sq_binding.specs.Position.{positions_of};
ghost use Rattle.sq_catalog.specs.Fault.{Makes};
ghost use Rattle.sq_catalog.specs.Keys.{KeysStandAt, primaries, primary_among};
ghost use Rattle.sq_catalog.specs.Written.{column_count, names_at};
ghost use Rattle.sq_catalog.specs.declared.fault.ElementFault.TheVariants.{NoMemory};

use crate::fault::ElementFault;
use crate::written::{NamedColumns, WrittenKey};
use sq_bound::are_distinct;
use sq_items::Items;
use std::alloc::Global;

/// The greatest number of columns of a key or reference (own rule).
pub(crate) const MOST_KEY_COLUMNS: usize = 6;

/// The keys of a table: the positions of their columns, and which key is the primary one.
#[derive(Drop)]
pub(crate) struct Keys {
    pub columns: Items<Items<usize>>,
    pub primary: Option<usize>,
    /// Whether there are two primary keys.
    pub has_two_primary: bool,
    ghost primary_there: { option_all (λ key. nat_lt key (length columns)) primary ≡ true },
}

/// The keys with their columns found among the names.
pub(crate) fn keys_by_position(
    alloc: Global,
    named: &NamedColumns,
    written: &[WrittenKey],
) -> Result<Keys, ElementFault>
    ensures within { IfOk result
        (λ keys. list_all (are_positions (column_count named.now)) keys.columns ≡ true) }
    ensures named { IfOk result (λ keys. KeysStandAt (names_at named.now) written.now keys.columns) }
    ensures primary { IfOk result (λ keys. keys.primary ≡ primary_among written.now) }
    ensures two { IfOk result (λ keys. keys.has_two_primary ≡ nat_lt 1 (length (primaries written.now))) }
    ensures exact { Makes (λ keys. keys.columns)
        (each (positions_of (names_at named.now)) (map (λ key. key.columns) written.now)) result }
{
    let mut keys = Keys {
        columns: Items::new(alloc),
        primary: None,
        has_two_primary: false,
    };
    match keys.add_all(alloc, named, written) {
        Ok(()) => Ok(keys),
        Err(fault) => {
            drop(keys);
            Err(fault)
        }
    }
}

impl Keys {
    fn add_all(
        &mut self,
        alloc: Global,
        named: &NamedColumns,
        written: &[WrittenKey],
    ) -> Result<(), ElementFault>
        requires none { self.old.columns ≡ [] }
        requires no_primary { self.old.primary ≡ None }
        requires no_two { self.old.has_two_primary ≡ false }
        ensures within { OnOk result
            (list_all (are_positions (column_count named.now)) self.new.columns ≡ true) }
        ensures named { OnOk result (KeysStandAt (names_at named.now) written.now self.new.columns) }
        ensures primary { OnOk result (self.new.primary ≡ primary_among written.now) }
        ensures two { OnOk result (self.new.has_two_primary ≡ nat_lt 1 (length (primaries written.now))) }
        ensures exact { Makes (λ _. self.new.columns)
            (each (positions_of (names_at named.now)) (map (λ key. key.columns) written.now)) result }
    {
        for key in written {
            let columns = named.positions(alloc, key.columns.as_slice())?;
            self.add(key.is_primary, columns)?;
        }
        Ok(())
    }

    /// Adds a key behind the others.
    fn add(&mut self, is_primary: bool, columns: Items<usize>) -> Result<(), ElementFault>
        ensures columns { OnOk result (self.new.columns ≡ self.old.columns ++ columns ∷ []) }
        ensures primary { OnOk result (self.new.primary
            ≡ option_or self.old.primary (if is_primary then Some (length self.old.columns) else None)) }
        ensures two { OnOk result
            (self.new.has_two_primary
            ≡ (self.old.has_two_primary || (is_primary && is_some self.old.primary))) }
        ensures memory { IfErr result (λ fault. fault ≡ NoMemory) }
    {
        let place = self.columns.len();
        self.columns.push(columns)?;
        if is_primary {
            self.has_two_primary = self.has_two_primary || self.primary.is_some();
            self.primary = self.primary.or(Some(place));
        }
        Ok(())
    }

    /// Whether there are two primary keys, or a list has a column twice or more than 6.
    pub(crate) fn are_bad(&self) -> bool
        ensures { result ≡ (self.now.has_two_primary || list_any definition.is_bad_list self.now.columns) }
    {
        self.has_two_primary || have_bad_list(self.columns.as_slice())
    }
}

fn have_bad_list(keys: &[Items<usize>]) -> bool
    ensures { result ≡ list_any definition.is_bad_list keys.now }
{
    keys.iter().any(|key| is_bad_list(key.as_slice()))
}

/// Whether a list has a column twice or more than 6.
#[tactic(auto, using(crate::proofs::OneByOne::Twice::twice_is))]
pub(crate) fn is_bad_list(positions: &[usize]) -> bool
    ensures { result ≡ definition.is_bad_list positions.now }
{
    positions.len() > MOST_KEY_COLUMNS || !are_distinct(positions)
}

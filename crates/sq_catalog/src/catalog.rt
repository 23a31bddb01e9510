//! The catalog: the tables, views and privileges that are defined, and what their names mean (ISO/IEC 9075:1992, 4.9 and 4.12).

ghost use Rattle.std.specs.Prelude.{◌≡◌, ◌<◌, List, [], true, IfSome, IsSome, OnOk, is_none, length, nat_eq, nat_le, slice_get};
ghost use Rattle.std.specs.Map.{keys_of};
ghost use Rattle.std.specs.Option.{option_map};
ghost use Rattle.sq_store.specs.Keys.{keys_of as keys_given};
ghost use Rattle.sq_meaning.specs.Spelled.{table_of};
ghost use Rattle.sq_meaning.specs.WellFormed.{HasValue};
ghost use Rattle.sq_meaning.specs.declared.refusal.SchemaFault.TheVariants as refusal;
ghost use Rattle.sq_bound.specs.Fits.{all_refer, keys_of_bases};
ghost use Rattle.sq_bound.specs.Known.{known_by};
ghost use Rattle.sq_bound.specs.WellFormed.{IsTable, TableKinds, place_of};
ghost use Rattle.sq_bound.specs.declared.names.BaseTable.{BaseTable as Base};
ghost use Rattle.sq_binding.specs.Catalog as definition;
ghost use Rattle.sq_binding.specs.Catalog.{table_count};
ghost use Rattle.sq_binding.specs.Declaring.{with_user};
ghost use Rattle.sq_binding.specs.ElementOutcome as outcome;
ghost use Rattle.sq_binding.specs.Table.{has_place, is_taken, most_tables};
ghost use Rattle.sq_catalog.specs.Catalog.{AreViewQueries, AreViewQueries-prop, Gains, IsNewName, base_there, column_kinds, known, named_by, table_number};
ghost use Rattle.sq_catalog.specs.Exact.{declared, described, entry_declared, name_in};
ghost use Rattle.sq_catalog.specs.Fault.{Makes, Passes};
ghost use Rattle.sq_catalog.specs.Stored.{AreStored, AreTables, IsNamed, IsNumbered, IsOfCatalog, IsStored, StandsAt, queries_of};
ghost use Rattle.sq_catalog.specs.Views.{GainsViews};

use crate::fault::{ElementFault, refused_if};
use crate::held::Held;
use crate::written::add_name;
use indexmap::{IndexMap, IndexSet};
use sq_bound::{BaseTable, Names, Shared, TableDesc, TablePlace};
use sq_lex::Name;
use sq_meaning::SchemaFault;
use sq_tree::TableName;
use std::alloc::Global;
use std::marker::Model;

/// The greatest number of tables and views (own rule).
const MOST_TABLES: usize = 1000;

/// A name of a table or view: its owner, and its name in the owner's schema.
#[derive(Clone, Copy, Debug, PartialEq, Eq, Hash)]
pub struct FullName {
    pub user: Name,
    pub name: Name,
}

/// The tables, views and privileges that schema texts define.
#[derive(Drop)]
pub struct Catalog {
    pub(crate) alloc: Global,
    users: IndexSet<Name>,
    pub(crate) bases: IndexMap<FullName, TableDesc>,
    pub(crate) views: IndexMap<FullName, TableDesc>,
    pub(crate) base_tables: Vec<Shared<BaseTable>>,
    pub(crate) keys: Vec<Vec<Vec<usize>>>,
    pub(crate) held: Held,
    ghost counted: { nat_eq (length base_tables.items) (length (keys_of bases.entries)) ≡ true },
    ghost keyed: { keys_given keys.items ≡ keys_of_bases base_tables.items },
    ghost refer: { all_refer base_tables.items ≡ true },
    ghost stand: { AreViewQueries base_tables.items (queries_of views.entries) } by { AreViewQueries-prop base_tables.items (queries_of views.entries) },
}

impl Model for Catalog {
    ghost use Rattle.std.specs.Coded.{codes};
    ghost use Rattle.std.specs.Map.{keys_of};
    ghost use Rattle.sq_bound.specs.contracts.condition.BoundCond as condition;
    ghost use Rattle.sq_bound.specs.contracts.condition.BoundSpecification as specification;
    ghost use Rattle.sq_bound.specs.contracts.condition.Predicate as predicate;
    ghost use Rattle.sq_bound.specs.contracts.expression.BoundExpr as expression;
    ghost use Rattle.sq_bound.specs.contracts.names.BaseColumn as column;
    ghost use Rattle.sq_bound.specs.contracts.names.BaseTable as base;
    ghost use Rattle.sq_bound.specs.contracts.names.Column as seen;
    ghost use Rattle.sq_bound.specs.contracts.names.TableDesc as table;
    ghost use Rattle.sq_bound.specs.declared.condition.TablePlace.TheVariants.{Base, View};
    ghost use Rattle.sq_catalog.specs.Catalog.{AreViewQueries-prop, Catalog, kinds_at};
    ghost use Rattle.sq_catalog.specs.Held.{grants_held};
    ghost use Rattle.sq_catalog.specs.Stored.{AreDescribed, AreNamed, AreStored, AreTables, StandFrom, all_described, columns_of, queries_of, seen_of};

    ghost Value = { Catalog };

    ghost coded = { Prim.hlevel (
      codes,
      table.the_row.coded,
      base.the_row.coded,
      column.the_row.coded,
      condition.the_row.coded,
      predicate.the_row.coded,
      specification.the_row.coded,
      expression.the_row.coded,
      seen.the_row.coded,
      AreViewQueries-prop,
    ) };

    ghost view = { λ c. record {
      users = c.users.keys;
      base_entries = c.bases.entries;
      view_entries = c.views.entries;
      grants = grants_held c.held;
      tables = keys_of c.bases.entries;
      columns = columns_of c.bases.entries;
      bases = c.base_tables.items;
      view_names = keys_of c.views.entries;
      seen_views = seen_of c.views.entries;
      views = queries_of c.views.entries;
      described = all_described c.bases.entries;
      counted = c.counted;
      refer = c.refer;
      stand = c.stand;
    } };

    ghost invariant = { λ c. AreStored c.base_tables.items c.bases.entries
        × AreStored c.base_tables.items c.views.entries
        × AreTables (kinds_at c.base_tables.items (queries_of c.views.entries)) c.bases.entries
        × AreTables (kinds_at c.base_tables.items (queries_of c.views.entries)) c.views.entries
        × AreDescribed c.base_tables.items c.bases.entries × StandFrom Base 0 c.bases.entries
        × StandFrom View 0 c.views.entries × AreNamed c.bases.entries × AreNamed c.views.entries };
}

impl Catalog {
    /// Nothing is defined.
    pub(crate) fn empty(alloc: Global) -> Catalog
        ensures exact { declared result ≡ definition.empty }
        ensures bases { (result.tables ≡ []) × (result.columns ≡ []) × (result.bases ≡ []) }
        ensures views { (result.view_names ≡ []) × (result.seen_views ≡ []) × (result.views ≡ []) }
    {
        Catalog {
            alloc,
            users: IndexSet::new(alloc),
            bases: IndexMap::new(alloc),
            views: IndexMap::new(alloc),
            base_tables: Vec::new(alloc),
            keys: Vec::new(alloc),
            held: Held::new(alloc),
        }
    }

    /// For each base table, in the order of the texts, the columns of each of its keys.
    pub fn keys(&self) -> &[Vec<Vec<usize>>]
        ensures { keys_given result.now ≡ keys_of_bases self.now.bases }
    {
        self.keys.as_slice()
    }

    pub(crate) fn alloc(&self) -> Global {
        self.alloc
    }

    /// Whether a table or view of the user's schema has the name that is to be created in it.
    pub(crate) fn check_new_name(
        &self,
        user: Name,
        full_name: &FullName,
    ) -> Result<(), ElementFault>
        ensures new { OnOk result (full_name.now.user ≡ user → IsNewName self.now full_name.now) }
        ensures exact { Passes
            (outcome.refused_if refusal.NameTwice (is_taken (declared self.now) user (name_in full_name.now)))
            result }
    {
        let is_used = full_name.user == user && self.entry(full_name).is_some();
        refused_if(is_used, SchemaFault::NameTwice)
    }

    /// A table or view stands under its schema's user, and there are at most 1000.
    pub(crate) fn check_place(&self, user: Name, full_name: &FullName) -> Result<(), ElementFault>
        ensures own { OnOk result (full_name.now.user ≡ user) }
        ensures exact { Passes (has_place (declared self.now) user (name_in full_name.now)) result }
    {
        refused_if(full_name.user != user, SchemaFault::OtherSchema)?;
        refused_if(self.is_full(), SchemaFault::TooManyTables)
    }

    fn is_full(&self) -> bool
        ensures { result ≡ nat_le most_tables (table_count (declared self.now)) }
    {
        self.bases.len() + self.views.len() >= MOST_TABLES
    }

    /// The place of the next base table.
    pub(crate) fn next_base(&self) -> usize
        ensures place { result ≡ length self.now.bases }
        ensures exact { result ≡ length (declared self.now).bases }
    {
        self.bases.len()
    }

    /// The place of the next view.
    pub(crate) fn next_view(&self) -> usize
        ensures place { result ≡ length self.now.views }
        ensures exact { result ≡ length (declared self.now).views }
    {
        self.views.len()
    }

    /// A user has one schema.
    pub(crate) fn add_user(&mut self, user: Name) -> Result<(), ElementFault>
        ensures tables { Gains self.old self.new [] [] }
        ensures views { GainsViews self.old self.new [] }
        ensures exact { Makes (λ _. declared self.new) (with_user (declared self.old) user) result }
    {
        add_name(&mut self.users, user)
    }

    /// The place of the base table of this owner and name.
    pub fn base(&self, user: Name, name: Name) -> Option<usize>
        ensures { result ≡ table_number self.now.tables user name }
    {
        self.bases.get_index_of(&FullName { user, name })
    }

    /// The owner and name of the base table at this place.
    pub fn base_name(&self, place: usize) -> Option<FullName>
        ensures { result ≡ slice_get self.now.tables place }
    {
        let (name, _) = self.bases.get_index(place)?;
        Some(*name)
    }

    /// The table or view of this name, and where it stands.
    pub(crate) fn entry(&self, full_name: &FullName) -> Option<(TablePlace, &TableDesc)>
        ensures absent { is_none result ≡ true → IsNewName self.now full_name.now }
        ensures of { IfSome result (λ entry. IsOfCatalog self.now entry.1.now) }
        ensures named { IfSome result (λ entry. IsNamed full_name.now entry.1.now) }
        ensures known { option_map (λ entry. known_by entry.1.now) result
            ≡ known self.now full_name.now.user full_name.now.name }
        ensures number { IfSome result (λ entry. IsNumbered self.now.tables self.now.columns full_name.now
            entry.1.now.columns entry.1.now.body) }
        ensures exact { option_map (λ entry. entry_declared full_name.now entry.1.now) result
            ≡ definition.entry (declared self.now) (name_in full_name.now) }
        ensures described { option_map (λ entry. entry.1.now) result
            ≡ described self.now (name_in full_name.now) }
    {
        match self.bases.get_full(full_name) {
            Some((place, _, table)) => Some((TablePlace::Base(place), table)),
            None => match self.views.get_full(full_name) {
                Some((place, _, table)) => Some((TablePlace::View(place), table)),
                None => None,
            },
        }
    }

    /// The table or view at a place.
    fn table_at(&self, place: TablePlace) -> Option<&TableDesc>
        ensures of { IfSome result (λ table. IsOfCatalog self.now table.now) }
        ensures place { IfSome result (λ table. place_of table.now.body ≡ place) }
        ensures there { HasValue (column_kinds self.now place) → IsSome result }
    {
        match place {
            TablePlace::Base(place) => value_at(&self.bases, place),
            TablePlace::View(place) => value_at(&self.views, place),
        }
    }
}

/// The table or view at a place among those of its kind.
fn value_at(tables: &IndexMap<FullName, TableDesc>, place: usize) -> Option<&TableDesc>
    ensures stored { IfSome result
        (λ table. (bases : List Base) → AreStored bases tables.now.entries → IsStored bases table.now) }
    ensures well_formed { IfSome result
        (λ table. (table_kinds : TableKinds) → AreTables table_kinds tables.now.entries
        → IsTable table_kinds table.now) }
    ensures there { IfSome result (λ table. StandsAt tables.now.entries place table.now) }
    ensures found { place < length tables.now.entries → IsSome result }
{
    let (_, table) = tables.get_index(place)?;
    Some(table)
}

/// The full name that a text of a user writes.
pub(crate) fn full_name(user: Name, written: TableName) -> FullName
    ensures named { result ≡ named_by user written }
    ensures exact { name_in result ≡ table_of user written }
{
    FullName {
        user: match written.schema {
            Some(owner) => owner,
            None => user,
        },
        name: written.table,
    }
}

impl Names for Catalog {
    ghost base_tables = { λ c. c.bases };

    ghost known = { known };

    ghost view_queries = { λ c. c.views };

    ghost column_kinds = { column_kinds };

    ghost references = { λ c. c.refer };

    ghost kinds_of_bases = { base_there };

    ghost kinds_of_views = { λ c. c.stand };

    fn bases(&self) -> &[Shared<BaseTable>] {
        self.base_tables.as_slice()
    }

    fn table(&self, user: Name, name: Name) -> Option<&TableDesc> {
        let (_, table) = self.entry(&FullName { user, name })?;
        Some(table)
    }

    fn at(&self, place: TablePlace) -> Option<&TableDesc> {
        self.table_at(place)
    }
}

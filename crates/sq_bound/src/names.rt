//! The meanings of names: tables and views, cursors and parameters.

ghost use Rattle.std.specs.Prelude.{◌≡◌, ◌≤◌, ◌<◌, nat_lt, length, map, slice_get, true, IfSome, List, Some};
ghost use Rattle.std.specs.List.{list_all};
ghost use Rattle.sq_value.specs.Domain.{IsDomain, kind_of};
ghost use Rattle.sq_bound.specs.Default.{DefaultIsIn, DefaultIsIn-prop};
ghost use Rattle.sq_bound.specs.Names.{are_positions, is_bounded, is_kind_at, option_all};
ghost use Rattle.sq_bound.specs.NotNull.{are_not_null};
ghost use Rattle.sq_bound.specs.Parameter.{IsDomain-prop};
ghost use Rattle.sq_bound.specs.Quiet.{are_quiet_conds};

use crate::condition::{BoundCond, BoundSpecification, TablePlace};
use crate::query::BoundCursor;
use crate::shared::Shared;
use sq_items::Items;
use sq_lex::Name;
use sq_value::{Domain, Kind, Value};

/// The tables and views that texts may name.
pub trait Names {
    ghost use Rattle.std.specs.Prelude.{ℕ, IsSome, Ok};
    ghost use Rattle.sq_value.specs.declared.domain.Kind.{Kind as AnyKind};
    ghost use Rattle.sq_bound.specs.declared.condition.TablePlace.TheVariants as at_place;
    ghost use Rattle.sq_bound.specs.declared.names.BaseTable.{BaseTable};
    ghost use Rattle.std.specs.Option.{option_map};
    ghost use Rattle.sq_bound.specs.Fits.{IsOver, all_refer};
    ghost use Rattle.sq_bound.specs.Known.{KnownTables, known_by};
    ghost use Rattle.sq_meaning.specs.WellFormed.{HasValue};
    ghost use Rattle.sq_bound.specs.WellFormed.{BasesAreThere, IsTable, IsViewAmong, IsViewQuery, TableKinds, base_kinds, place_of};
    ghost use Rattle.sq_bound.specs.declared.condition.BoundSpecification.{BoundSpecification};

    ghost base_tables: { Self → List BaseTable };

    /// The meaning of each owner and name.
    ghost known: { Self → KnownTables };

    /// The queries of the views, each at its place.
    ghost view_queries: { Self → List BoundSpecification };

    /// The kinds of the columns of each table and view.
    ghost column_kinds: { Self → TableKinds };

    /// The base tables, each at its place in the store.
    fn bases(&self) -> &[Shared<BaseTable>]
        ensures { result.now ≡ base_tables self.now };

    /// The base table or view of this owner and name.
    fn table(&self, user: Name, name: Name) -> Option<&TableDesc>
        ensures over { IfSome result (λ t. IsOver (base_tables self.now) t.now) }
        ensures view { IfSome result (λ t. IsViewAmong (view_queries self.now) t.now.body) }
        ensures well_formed { IfSome result (λ t. IsTable (column_kinds self.now) t.now) }
        ensures named { IfSome result (λ t. (t.now.user ≡ user) × (t.now.name ≡ name)) }
        ensures known { option_map (λ t. known_by t.now) result ≡ known self.now user name };

    /// The base table or view at this place.
    fn at(&self, place: TablePlace) -> Option<&TableDesc>
        ensures over { IfSome result (λ t. IsOver (base_tables self.now) t.now) }
        ensures view { IfSome result (λ t. IsViewAmong (view_queries self.now) t.now.body) }
        ensures well_formed { IfSome result (λ t. IsTable (column_kinds self.now) t.now) }
        ensures place { IfSome result (λ t. place_of t.now.body ≡ place) }
        ensures there { BasesAreThere (base_tables self.now) (column_kinds self.now)
            → HasValue (column_kinds self.now place) → IsSome result };

    ghost references: { (names : Self) → all_refer (base_tables names) ≡ true };

    ghost kinds_of_bases: { (names : Self) (place : ℕ) (b : BaseTable)
        → slice_get (base_tables names) place ≡ Some b
        → column_kinds names (at_place.Base place) ≡ Ok (base_kinds b) };

    ghost kinds_of_views: { (names : Self) (place : ℕ) (kinds : List AnyKind)
        → column_kinds names (at_place.View place) ≡ Ok kinds
        → IsViewQuery (column_kinds names) (view_queries names) place kinds };
}

/// A cursor's number among the cursors of all modules, and the cursor.
#[derive(Clone, Copy)]
pub struct KnownCursor<'a> {
    pub number: usize,
    pub cursor: &'a BoundCursor,
}

/// A parameter of a procedure.
#[derive(Clone, Copy)]
pub struct ParameterDesc {
    pub name: Name,
    pub domain: Domain,
    ghost is_domain: { IsDomain domain } by { IsDomain-prop domain },
}

/// A base table or a view.
#[derive(Drop)]
pub struct TableDesc {
    pub user: Name,
    pub name: Name,
    pub columns: Items<Column>,
    pub body: TableBody,
    /// For a base table and an updatable view, the rows under it.
    pub leaf: Option<Shared<Leaf>>,
    ghost leaf_columns: { option_all
        (λ l. list_all (λ c. nat_lt c.leaf_column (length l.table.columns)) columns) leaf ≡ true },
    ghost leaf_kinds: { option_all
        (λ l. list_all
        (λ c. is_kind_at (map (λ own. kind_of own.domain) l.table.columns) c.leaf_column c.kind) columns)
        leaf ≡ true },
}

/// A column, as a query sees it.
#[derive(Clone, Copy)]
pub struct Column {
    pub name: Name,
    pub kind: Kind,
    /// The column of the base table that it is, and its own position in a view that is not updatable.
    pub leaf_column: usize,
    pub ghost bounded: { is_bounded kind ≡ true },
}

/// A base table, or a view.
#[derive(Drop)]
pub enum TableBody {
    Base(Shared<BaseTable>),
    View(View),
}

/// A base table: its columns, and the constraints on its rows (11.3 to 11.9).
#[derive(Drop)]
pub struct BaseTable {
    /// The place of the table in the store.
    pub place: usize,
    pub columns: Items<BaseColumn>,
    /// The column positions of each key.
    pub keys: Items<Items<usize>>,
    /// The index of the primary key among the keys.
    pub primary_key: Option<usize>,
    pub references: Items<Reference>,
    pub checks: Items<BoundCond>,
    ghost key_columns: { list_all (are_positions (length columns)) keys ≡ true },
    ghost known_keys: { list_all (are_not_null (map (λ c. c.not_null) columns)) keys ≡ true },
    ghost primary_there: { option_all (λ key. nat_lt key (length keys)) primary_key ≡ true },
    ghost referencing: { list_all (λ r. are_positions (length columns) r.by_key) references ≡ true },
}

/// A column of a base table: its domain, whether it may be null, and its default.
#[derive(Drop)]
pub struct BaseColumn {
    pub domain: Domain,
    pub not_null: bool,
    pub default: ColumnDefault,
    ghost is_domain: { IsDomain domain } by { IsDomain-prop domain },
    ghost default_is: { DefaultIsIn domain default } by { DefaultIsIn-prop domain default },
}

/// An object column: one of a base table that gets a value (13.8, 13.9).
#[derive(Clone, Copy)]
pub struct ObjectColumn {
    pub position: usize,
    pub domain: Domain,
    ghost is_domain: { IsDomain domain } by { IsDomain-prop domain },
}

/// The value of a column that an insert statement leaves out (11.5).
#[derive(Drop)]
pub enum ColumnDefault {
    /// Null, or a value of the column's domain.
    Value(Value),
    User,
}

/// A reference (11.8): if no column of it is null, a row of the table has the same values in its columns.
#[derive(Drop)]
pub struct Reference {
    pub columns: Items<usize>,
    /// The place of the referenced table in the store.
    pub table: usize,
    /// The index of the referenced key among the keys of that table.
    pub key: usize,
    /// For each column of that key, in its order, the position of the referencing column.
    pub by_key: Items<usize>,
}

/// A view (11.19).
#[derive(Drop)]
pub struct View {
    /// The place of the view among the views.
    pub place: usize,
    pub query: BoundSpecification,
}

/// The leaf under an updatable view, or under a base table: the rows of a base table that it shows.
#[derive(Drop)]
pub struct Leaf {
    pub table: Shared<BaseTable>,
    /// The conditions of the views between the base table and this table, each on a row of the base table, from inside out.
    /// The condition of this view is the last.
    pub conditions: Items<Shared<BoundCond>>,
    /// How many of them, from inside out, new and changed rows have to meet.
    pub demanded: usize,
    /// Whether the truth of none of them is ever a fault.
    pub is_quiet: bool,
    ghost are_conditions: { demanded ≤ length conditions },
    ghost quiet: { is_quiet ≡ are_quiet_conds conditions },
}

impl BaseTable {
    /// The column at a position, as one that gets a value.
    pub fn object_column(&self, position: usize) -> ObjectColumn
        requires { position < length self.now.columns }
        ensures position { result.position ≡ position }
        ensures domain { slice_get (map (λ column. column.domain) self.now.columns) position
            ≡ Some result.domain }
    {
        ObjectColumn {
            position,
            domain: self.columns.as_slice()[position].domain,
        }
    }
}

impl TableDesc {
    ghost use Rattle.std.specs.Prelude.{◌&&◌, position};
    ghost use Rattle.sq_meaning.specs.Environment.{same_name};
    ghost use Rattle.sq_bound.specs.Noted.{may_fail};
    ghost use Rattle.sq_bound.specs.WellFormed.{place_of};

    /// The place of the table.
    pub fn place(&self) -> TablePlace
        ensures { result ≡ place_of self.now.body }
    {
        match &self.body {
            TableBody::Base(table) => TablePlace::Base(table.get().place),
            TableBody::View(view) => TablePlace::View(view.place),
        }
    }

    /// Whether reading its rows may end with a status: of a view it may.
    pub fn can_fail(&self) -> bool
        ensures { result ≡ may_fail (place_of self.now.body) }
    {
        match &self.body {
            TableBody::Base(_) => false,
            TableBody::View(_) => true,
        }
    }

    /// The owner and the name of the table.
    pub fn full_name(&self) -> (Name, Name)
        ensures { result ≡ (self.now.user, self.now.name) }
    {
        (self.user, self.name)
    }

    /// Whether the table has this owner and this name.
    pub fn is(&self, user: Name, name: Name) -> bool
        ensures { result ≡ (same_name user self.now.user && same_name name self.now.name) }
    {
        self.user == user && self.name == name
    }

    /// The position of the column of this name.
    pub fn column(&self, name: Name) -> Option<usize>
        ensures there { IfSome result (λ position. position < length self.now.columns) }
        ensures first { result ≡ position (λ column. same_name name column.name) self.now.columns }
    {
        self.columns
            .as_slice()
            .iter()
            .position(|column| column.name == name)
    }
}

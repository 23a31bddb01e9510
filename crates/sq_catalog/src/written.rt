//! What a table definition writes, by kinds of its elements (ISO/IEC 9075:1992, 11.3, 11.4, 11.6).

ghost use Rattle.std.specs.Prelude.{◌≡◌, ◌<◌, ◌+◌, ◌∷◌, ◌++◌, [], Some, false, true, flat_map, length, map, position, vec_len, IfErr, IfOk, IsOkAnd, OnOk};
ghost use Rattle.sq_meaning.specs.Environment.{same_name};
ghost use Rattle.sq_meaning.specs.Spelled as meaning;
ghost use Rattle.indexmap.specs.IndexSet.{index_set_len};
ghost use Rattle.sq_meaning.specs.Schema.{has_name_twice};
ghost use Rattle.sq_meaning.specs.declared.refusal.SchemaFault.TheVariants.{NameTwice};
ghost use Rattle.sq_binding.specs.Column.{typed_column};
ghost use Rattle.sq_binding.specs.ElementOutcome as outcome;
ghost use Rattle.sq_binding.specs.Position as definition;
ghost use Rattle.sq_bound.specs.Names.{are_positions};
ghost use Rattle.sq_catalog.specs.Checks.{check_of_column, checks_in, checks_written};
ghost use Rattle.sq_catalog.specs.Columns.{column_in, columns_written};
ghost use Rattle.sq_catalog.specs.Exact.{name_added};
ghost use Rattle.sq_catalog.specs.Fault.{Makes, Passes};
ghost use Rattle.sq_catalog.specs.Keys.{StandAt, key_of_column, keys_in, keys_written};
ghost use Rattle.sq_catalog.specs.Reference.{constraints_lent};
ghost use Rattle.sq_catalog.specs.References.{reference_on, references_in, references_written};
ghost use Rattle.sq_catalog.specs.Table.{typed_seen};
ghost use Rattle.sq_catalog.specs.declared.fault.ElementFault.TheVariants.{NoMemory};
ghost use Rattle.sq_catalog.specs.Written.{column_count, conditions_lent, definitions_lent, is_written_not_null, names_at};

use crate::fault::{ElementFault, refused_if};
use crate::typed::TypedColumn;
use indexmap::IndexSet;
use sq_binder::domain_of;
use sq_items::Items;
use sq_lex::Name;
use sq_meaning::SchemaFault;
use sq_tree::{
    ColumnConstraint, ColumnDefinition, CommaList, Cond, ForeignKey, References, TableDefinition,
    TableElement,
};
use std::alloc::Global;

/// A key as it is written.
#[derive(Drop)]
pub(crate) struct WrittenKey {
    pub is_primary: bool,
    pub columns: Items<Name>,
}

/// A reference as it is written.
#[derive(Drop)]
pub(crate) struct WrittenReference<'t> {
    pub columns: Items<Name>,
    pub to: &'t References,
}

/// The columns, keys, references and conditions of a table definition, each in the order of the text.
#[derive(Drop)]
pub(crate) struct Written<'t> {
    pub columns: Vec<&'t ColumnDefinition>,
    pub keys: Vec<WrittenKey>,
    pub references: Vec<WrittenReference<'t>>,
    pub checks: Vec<&'t Cond>,
}

/// The names of a list.
pub(crate) fn names_of(alloc: Global, list: &CommaList<Name>) -> Result<Items<Name>, ElementFault>
    ensures names { IfOk result (λ names. names ≡ meaning.listed list.now) }
    ensures memory { IfErr result (λ fault. fault ≡ NoMemory) }
{
    let mut names = Items::new(alloc);
    names.push(list.first)?;
    for name in list.rest.as_slice() {
        names.push(*name)?;
    }
    Ok(names)
}

fn only_name(alloc: Global, name: Name) -> Result<Items<Name>, ElementFault>
    ensures names { IfOk result (λ names. names ≡ name ∷ []) }
    ensures memory { IfErr result (λ fault. fault ≡ NoMemory) }
{
    let mut names = Items::new(alloc);
    names.push(name)?;
    Ok(names)
}

/// What a table definition writes.
pub(crate) fn parts_of<'t>(
    alloc: Global,
    definition: &'t TableDefinition,
) -> Result<Written<'t>, ElementFault>
    ensures columns { IfOk result
        (λ written. definitions_lent written.columns.items ≡ columns_written definition.now) }
    ensures keys { IfOk result (λ written. written.keys.items ≡ keys_written definition.now) }
    ensures checks { IfOk result
        (λ written. conditions_lent written.checks.items ≡ checks_written definition.now) }
    ensures references { IfOk result
        (λ written. constraints_lent written.references.items ≡ references_written definition.now) }
    ensures memory { IfErr result (λ fault. fault ≡ NoMemory) }
{
    let mut written = Written {
        columns: Vec::new(alloc),
        keys: Vec::new(alloc),
        references: Vec::new(alloc),
        checks: Vec::new(alloc),
    };
    written.add(alloc, &definition.elements.first)?;
    for element in definition.elements.rest.as_slice() {
        written.add(alloc, element)?;
    }
    Ok(written)
}

impl<'t> Written<'t> {
    fn add(&mut self, alloc: Global, element: &'t TableElement) -> Result<(), ElementFault>
        ensures columns { OnOk result
            (definitions_lent self.new.columns.items ≡ definitions_lent self.old.columns.items
            ++ column_in element.now) }
        ensures keys { OnOk result (self.new.keys.items ≡ self.old.keys.items ++ keys_in element.now) }
        ensures checks { OnOk result
            (conditions_lent self.new.checks.items ≡ conditions_lent self.old.checks.items
            ++ checks_in element.now) }
        ensures references { OnOk result (constraints_lent self.new.references.items
            ≡ constraints_lent self.old.references.items ++ references_in element.now) }
        ensures memory { IfErr result (λ fault. fault ≡ NoMemory) }
    {
        match element {
            TableElement::Column(column) => self.add_column(alloc, column),
            TableElement::Unique(columns) => self.add_key(false, names_of(alloc, columns)),
            TableElement::PrimaryKey(columns) => self.add_key(true, names_of(alloc, columns)),
            TableElement::ForeignKey(
                ForeignKey {
                    columns,
                    references,
                },
            ) => self.add_reference(names_of(alloc, columns), references),
            TableElement::Check(cond) => self.add_check(cond),
        }
    }

    fn add_column(
        &mut self,
        alloc: Global,
        column: &'t ColumnDefinition,
    ) -> Result<(), ElementFault>
        ensures columns { OnOk result
            (definitions_lent self.new.columns.items ≡ definitions_lent self.old.columns.items
            ++ column.now ∷ []) }
        ensures keys { OnOk result (self.new.keys.items ≡ self.old.keys.items
            ++ flat_map (key_of_column column.now.name) column.now.constraints) }
        ensures checks { OnOk result
            (conditions_lent self.new.checks.items ≡ conditions_lent self.old.checks.items
            ++ flat_map check_of_column column.now.constraints) }
        ensures references { OnOk result (constraints_lent self.new.references.items
            ≡ constraints_lent self.old.references.items
            ++ flat_map (reference_on column.now.name) column.now.constraints) }
        ensures memory { IfErr result (λ fault. fault ≡ NoMemory) }
    {
        require_room(self.columns.push(column).is_ok())?;
        for constraint in column.constraints.as_slice() {
            self.add_constraint(alloc, column.name, constraint)?;
        }
        Ok(())
    }

    fn add_constraint(
        &mut self,
        alloc: Global,
        name: Name,
        constraint: &'t ColumnConstraint,
    ) -> Result<(), ElementFault>
        ensures columns { self.new.columns ≡ self.old.columns }
        ensures keys { OnOk result
            (self.new.keys.items ≡ self.old.keys.items ++ key_of_column name constraint.now) }
        ensures checks { OnOk result
            (conditions_lent self.new.checks.items ≡ conditions_lent self.old.checks.items
            ++ check_of_column constraint.now) }
        ensures references { OnOk result (constraints_lent self.new.references.items
            ≡ constraints_lent self.old.references.items ++ reference_on name constraint.now) }
        ensures memory { IfErr result (λ fault. fault ≡ NoMemory) }
    {
        match constraint {
            ColumnConstraint::NotNull => Ok(()),
            ColumnConstraint::Unique => self.add_key(false, only_name(alloc, name)),
            ColumnConstraint::PrimaryKey => self.add_key(true, only_name(alloc, name)),
            ColumnConstraint::References(references) => {
                self.add_reference(only_name(alloc, name), references)
            }
            ColumnConstraint::Check(cond) => self.add_check(cond),
        }
    }

    fn add_key(
        &mut self,
        is_primary: bool,
        columns: Result<Items<Name>, ElementFault>,
    ) -> Result<(), ElementFault>
        requires { IfErr columns (λ fault. fault ≡ NoMemory) }
        ensures memory { IfErr result (λ fault. fault ≡ NoMemory) }
        ensures columns { self.new.columns ≡ self.old.columns }
        ensures keys { OnOk result (IsOkAnd columns (λ names. self.new.keys.items ≡ self.old.keys.items
            ++ record { is_primary = is_primary; columns = names } ∷ [])) }
        ensures checks { self.new.checks ≡ self.old.checks }
        ensures references { self.new.references ≡ self.old.references }
    {
        let columns = columns?;
        require_room(
            self.keys
                .push(WrittenKey {
                    is_primary,
                    columns,
                })
                .is_ok(),
        )
    }

    fn add_reference(
        &mut self,
        columns: Result<Items<Name>, ElementFault>,
        to: &'t References,
    ) -> Result<(), ElementFault>
        requires { IfErr columns (λ fault. fault ≡ NoMemory) }
        ensures memory { IfErr result (λ fault. fault ≡ NoMemory) }
        ensures columns { self.new.columns ≡ self.old.columns }
        ensures keys { self.new.keys ≡ self.old.keys }
        ensures checks { self.new.checks ≡ self.old.checks }
        ensures references { OnOk result (IsOkAnd columns (λ names. constraints_lent self.new.references.items
            ≡ constraints_lent self.old.references.items ++ record { columns = names; to = to.now } ∷ [])) }
    {
        let columns = columns?;
        require_room(
            self.references
                .push(WrittenReference { columns, to })
                .is_ok(),
        )
    }

    fn add_check(&mut self, cond: &'t Cond) -> Result<(), ElementFault>
        ensures memory { IfErr result (λ fault. fault ≡ NoMemory) }
        ensures columns { self.new.columns ≡ self.old.columns }
        ensures keys { self.new.keys ≡ self.old.keys }
        ensures checks { OnOk result
            (conditions_lent self.new.checks.items ≡ conditions_lent self.old.checks.items ++ cond.now ∷ []) }
        ensures references { self.new.references ≡ self.old.references }
    {
        require_room(self.checks.push(cond).is_ok())
    }
}

/// Out of memory, unless a push found room.
pub(crate) fn require_room(found_room: bool) -> Result<(), ElementFault>
    ensures room { OnOk result (found_room ≡ true) }
    ensures memory { IfErr result (λ fault. fault ≡ NoMemory) }
{
    if found_room {
        Ok(())
    } else {
        Err(ElementFault::NoMemory)
    }
}

/// The columns of a definition by their names, none of which stands twice.
#[derive(Drop)]
pub(crate) struct NamedColumns {
    /// The name of each column at its place.
    names: IndexSet<Name>,
}

/// The columns of a definition by their names.
pub(crate) fn named_columns(
    alloc: Global,
    columns: &[&ColumnDefinition],
) -> Result<NamedColumns, ElementFault>
    ensures count { IfOk result (λ named. column_count named ≡ length columns.now) }
    ensures names { IfOk result (λ named. names_at named ≡ map (λ w. w.name) (definitions_lent columns.now)) }
    ensures exact { Passes
        (outcome.refused_if NameTwice (has_name_twice (map (λ w. w.name) (definitions_lent columns.now))))
        result }
{
    let mut named = NamedColumns {
        names: IndexSet::new(alloc),
    };
    match named.add_all(columns) {
        Ok(()) => Ok(named),
        Err(fault) => {
            drop(named);
            Err(fault)
        }
    }
}

impl NamedColumns {
    fn add_all(&mut self, columns: &[&ColumnDefinition]) -> Result<(), ElementFault>
        requires none { names_at self.old ≡ [] }
        ensures count { OnOk result (column_count self.new ≡ column_count self.old + length columns.now) }
        ensures names { OnOk result (names_at self.new ≡ map (λ w. w.name) (definitions_lent columns.now)) }
        ensures exact { Passes
            (outcome.refused_if NameTwice (has_name_twice (map (λ w. w.name) (definitions_lent columns.now))))
            result }
    {
        for column in columns {
            add_name(&mut self.names, column.name)?;
        }
        Ok(())
    }

    /// The position of the column of a name.
    pub(crate) fn position(&self, name: Name) -> Result<usize, ElementFault>
        ensures within { IfOk result (λ place. place < column_count self.now) }
        ensures named { IfOk result (λ place. position (same_name name) (names_at self.now) ≡ Some place) }
        ensures exact { Makes (λ place. place) (definition.position_of (names_at self.now) name) result }
    {
        match self.names.get_index_of(&name) {
            Some(position) => Ok(position),
            None => Err(ElementFault::Refused(SchemaFault::UnknownName)),
        }
    }

    /// The positions of the columns of names.
    pub(crate) fn positions(
        &self,
        alloc: Global,
        wanted: &[Name],
    ) -> Result<Items<usize>, ElementFault>
        ensures within { IfOk result (λ positions. are_positions (column_count self.now) positions ≡ true) }
        ensures named { IfOk result (StandAt (names_at self.now) wanted.now) }
        ensures exact { Makes (λ places. places)
            (definition.positions_of (names_at self.now) wanted.now) result }
    {
        let mut positions = Items::new(alloc);
        for name in wanted {
            let position = self.position(*name)?;
            positions.push(position)?;
        }
        Ok(positions)
    }
}

/// The columns of a definition with their domains.
pub(crate) fn typed_columns<'t>(
    alloc: Global,
    definitions: &[&'t ColumnDefinition],
) -> Result<Vec<TypedColumn<'t>>, ElementFault>
    ensures count { IfOk result (λ typed. vec_len typed ≡ length definitions.now) }
    ensures definitions { IfOk result
        (λ typed. map (λ t. t.definition.now) typed.items ≡ definitions_lent definitions.now) }
    ensures exact { Makes (λ typed. map typed_seen typed.items)
        (outcome.each typed_column (definitions_lent definitions.now)) result }
{
    let mut typed = Vec::new(alloc);
    for definition in definitions {
        let column = typed_column(definition)?;
        require_room(typed.push(column).is_ok())?;
    }
    Ok(typed)
}

fn typed_column<'t>(definition: &'t ColumnDefinition) -> Result<TypedColumn<'t>, ElementFault>
    ensures definition { IfOk result (λ typed. typed.definition.now ≡ definition.now) }
    ensures exact { Makes typed_seen (typed_column definition.now) result }
{
    match domain_of(&definition.data_type) {
        Some(domain) => Ok(TypedColumn { definition, domain }),
        None => Err(ElementFault::Refused(SchemaFault::BadType)),
    }
}

/// Whether NOT NULL is written for a column.
pub(crate) fn is_not_null(column: &ColumnDefinition) -> bool
    ensures { result ≡ is_written_not_null column.now }
{
    column.constraints.as_slice().iter().any(|constraint| matches!(
        constraint,
        ColumnConstraint::NotNull
    ))
}

/// Adds a name that is not there yet.
pub(crate) fn add_name(names: &mut IndexSet<Name>, name: Name) -> Result<(), ElementFault>
    ensures count { OnOk result (index_set_len names.new ≡ index_set_len names.old + 1) }
    ensures added { OnOk result (names.new.keys ≡ names.old.keys ++ name ∷ []) }
    ensures exact { Makes (λ _. names.new.keys) (name_added names.old.keys name) result }
{
    match names.insert_full(name) {
        Ok((_, added)) => refused_if(!added, SchemaFault::NameTwice),
        Err(_) => Err(ElementFault::NoMemory),
    }
}

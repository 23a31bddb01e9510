//! CREATE TABLE (ISO/IEC 9075:1992, 11.3 to 11.9).

ghost use Rattle.std.specs.Prelude.{◌≡◌, ◌∷◌, [], IfOk, OnOk, map, true, vec_len};
ghost use Rattle.std.specs.List.{list_all};
ghost use Rattle.sq_meaning.specs.Spelled.{table_of};
ghost use Rattle.sq_meaning.specs.Schema as rules;
ghost use Rattle.sq_meaning.specs.declared.refusal.SchemaFault.TheVariants as refusal;
ghost use Rattle.sq_bound.specs.Names.{are_positions};
ghost use Rattle.sq_binding.specs.ElementOutcome.{and_then, refused_if as asked};
ghost use Rattle.sq_binding.specs.Table as spec;
ghost use Rattle.sq_catalog.specs.Base.{IsBaseOf};
ghost use Rattle.sq_catalog.specs.Catalog.{Gains, IsNewName, named_by};
ghost use Rattle.sq_catalog.specs.Checks.{checks_written};
ghost use Rattle.sq_catalog.specs.Columns.{HasColumnsOf, columns_written};
ghost use Rattle.sq_catalog.specs.Draft.{IsDraftOf, NamesAreFound, draft_seen, written_names};
ghost use Rattle.sq_catalog.specs.Exact.{base_declared, declared, name_in};
ghost use Rattle.sq_catalog.specs.Fault.{Makes};
ghost use Rattle.sq_catalog.specs.Keys.{keys_written, names_written};
ghost use Rattle.sq_catalog.specs.Reference.{MakesReferences, constraints_lent, found_seen, reference_seen};
ghost use Rattle.sq_catalog.specs.References.{references_written};
ghost use Rattle.sq_catalog.specs.Stored.{IsNext};
ghost use Rattle.sq_catalog.specs.Table.{draft_made, names_found, typed_definitions, typed_seen};
ghost use Rattle.sq_catalog.specs.Views.{GainsViews};
ghost use Rattle.sq_catalog.specs.Written.{column_count, conditions_lent, definitions_lent, names_at};

use crate::catalog::{Catalog, FullName, full_name};
use crate::draft::Draft;
use crate::fault::ElementFault;
use crate::key::{Keys, keys_by_position};
use crate::reference::{FoundReference, OwnTable, references_of};
use crate::typed::TypedColumn;
use crate::written::{NamedColumns, Written, named_columns, parts_of, typed_columns};
use sq_bound::{BaseTable, Shared, TableDesc, pair_of};
use sq_lex::Name;
use sq_tree::TableDefinition;

impl Catalog {
    /// CREATE TABLE by a user.
    pub(crate) fn create_table(
        &mut self,
        user: Name,
        definition: &TableDefinition,
    ) -> Result<(), ElementFault>
        ensures tables { OnOk result
            (Gains self.old self.new (named_by user definition.now.name ∷ []) (definition.now ∷ [])) }
        ensures views { OnOk result (GainsViews self.old self.new []) }
        ensures exact { Makes (λ _. declared self.new)
            (spec.create_table (declared self.old) user definition.now) result }
    {
        let name = full_name(user, definition.name);
        self.check_new_name(user, &name)?;
        let (table, base) = self.new_table(user, &name, definition)?;
        self.add_base(name, table, base)
    }

    /// The table of a definition, and the base table itself.
    fn new_table(
        &self,
        user: Name,
        name: &FullName,
        definition: &TableDefinition,
    ) -> Result<(TableDesc, Shared<BaseTable>), ElementFault>
        requires { name_in name.now ≡ table_of user definition.now.name }
        ensures own { OnOk result (name.now.user ≡ user) }
        ensures next { IfOk result (λ new. IsNext self.now.bases name.now new.0 new.1) }
        ensures columns { IfOk result (λ new. HasColumnsOf definition.now new.0.columns) }
        ensures base { IfOk result (λ new. IsBaseOf name.now definition.now new.1) }
        ensures references { IfOk result (λ new. IsNewName self.now name.now
            → MakesReferences self.now name.now definition.now new.0.columns new.1) }
        ensures exact { Makes (λ new. base_declared name.now new.0.columns new.1)
            (and_then (spec.drafted (declared self.now) user definition.now)
            (spec.drafted_table (declared self.now) user definition.now)) result }
    {
        let draft = self.draft(user, name, definition)?;
        let table = self.table_of(user, name, &draft);
        drop(draft);
        table
    }

    /// What a definition writes, each name of a column or table in it found, and each domain.
    fn draft<'t>(
        &'t self,
        user: Name,
        name: &FullName,
        definition: &'t TableDefinition,
    ) -> Result<Draft<'t>, ElementFault>
        requires { name_in name.now ≡ table_of user definition.now.name }
        ensures columns { IfOk result
            (λ draft. typed_definitions draft.columns.items ≡ columns_written definition.now) }
        ensures named { IfOk result
            (λ draft. NamesAreFound self.now user name.now (names_written definition.now)
            (vec_len draft.written.columns) (keys_written definition.now) (references_written definition.now)
            draft.keys draft.references.items) }
        ensures checks { IfOk result
            (λ draft. conditions_lent draft.written.checks.items ≡ checks_written definition.now) }
        ensures definition { IfOk result (λ draft. draft.definition.now ≡ definition.now) }
        ensures of { IfOk result IsDraftOf }
        ensures exact { Makes draft_seen (spec.drafted (declared self.now) user definition.now) result }
    {
        let written = parts_of(self.alloc(), definition)?;
        match self.draft_parts(user, name, &written) {
            Ok((found, columns)) => Ok(draft_of(definition, written, found, columns)),
            Err(fault) => {
                drop(written);
                Err(fault)
            }
        }
    }

    /// The keys and references with their names found, and the columns with their domains.
    fn draft_parts<'t>(
        &'t self,
        user: Name,
        name: &FullName,
        written: &Written<'t>,
    ) -> Result<((Keys, Vec<FoundReference<'t>>), Vec<TypedColumn<'t>>), ElementFault>
        ensures columns { IfOk result (λ parts. typed_definitions parts.1.items
            ≡ definitions_lent written.now.columns.items) }
        ensures count { IfOk result (λ parts. vec_len parts.1 ≡ vec_len written.now.columns) }
        ensures named { IfOk result
            (λ parts. NamesAreFound self.now user name.now (written_names written.now)
            (vec_len written.now.columns) written.now.keys.items
            (constraints_lent written.now.references.items) parts.0.0 parts.0.1.items) }
        ensures exact { Makes (λ parts.
            ((parts.0.0.columns, map found_seen parts.0.1.items), map typed_seen parts.1.items))
            (draft_made (declared self.now) user (name_in name.now)
            (definitions_lent written.now.columns.items) (map (λ key. key.columns) written.now.keys.items)
            (map reference_seen written.now.references.items)) result }
    {
        let found = self.found_in(user, name, written);
        let columns = typed_columns(self.alloc(), written.columns.as_slice());
        pair_of(found, columns)
    }

    /// The keys and references with their names found, where no two columns have one name.
    fn found_in<'t>(
        &'t self,
        user: Name,
        name: &FullName,
        written: &Written<'_>,
    ) -> Result<(Keys, Vec<FoundReference<'t>>), ElementFault>
        ensures named { IfOk result
            (λ found. NamesAreFound self.now user name.now (written_names written.now)
            (vec_len written.now.columns) written.now.keys.items
            (constraints_lent written.now.references.items) found.0 found.1.items) }
        ensures exact { Makes (λ found. (found.0.columns, map found_seen found.1.items))
            (and_then (asked refusal.NameTwice (rules.has_name_twice (written_names written.now)))
            (λ _. names_found (declared self.now) user (name_in name.now) (written_names written.now)
            (map (λ key. key.columns) written.now.keys.items)
            (map reference_seen written.now.references.items))) result }
    {
        let named = named_columns(self.alloc(), written.columns.as_slice())?;
        let found = self.found_names(user, name, &named, written);
        drop(named);
        found
    }

    /// The keys and references of a table with their names found.
    fn found_names<'t>(
        &'t self,
        user: Name,
        full_name: &FullName,
        columns: &NamedColumns,
        written: &Written<'_>,
    ) -> Result<(Keys, Vec<FoundReference<'t>>), ElementFault>
        ensures named { IfOk result
            (λ found. NamesAreFound self.now user full_name.now (names_at columns.now)
            (column_count columns.now) written.now.keys.items
            (constraints_lent written.now.references.items) found.0 found.1.items) }
        ensures exact { Makes (λ found. (found.0.columns, map found_seen found.1.items))
            (names_found (declared self.now) user (name_in full_name.now)
            (names_at columns.now) (map (λ key. key.columns) written.now.keys.items)
            (map reference_seen written.now.references.items)) result }
    {
        let own = OwnTable {
            user,
            full_name: *full_name,
            columns,
        };
        let keys = keys_by_position(self.alloc(), columns, written.keys.as_slice());
        let references = references_of(self, &own, written.references.as_slice());
        pair_of(keys, references)
    }
}

/// What a definition writes, with what is found of it.
fn draft_of<'t>(
    definition: &'t TableDefinition,
    written: Written<'t>,
    found: (Keys, Vec<FoundReference<'t>>),
    columns: Vec<TypedColumn<'t>>,
) -> Draft<'t>
    requires keyed { list_all (are_positions (vec_len written.columns)) found.0.columns ≡ true }
    requires typed { vec_len columns ≡ vec_len written.columns }
    ensures definition { result.definition.now ≡ definition.now }
    ensures written { result.written ≡ written.entry }
    ensures columns { result.columns ≡ columns.entry }
    ensures keys { result.keys ≡ found.entry.0 }
    ensures references { result.references ≡ found.entry.1 }
{
    let (keys, references) = found;
    Draft {
        definition,
        written,
        columns,
        keys,
        references,
    }
}

//! The procedures of a module in a program, each with its statement bound or with the fault of it (ISO/IEC 9075:1992, 12.3).

ghost use Rattle.std.specs.Prelude.{◌≡◌, IfOk, List, OnOk, length};
ghost use Rattle.std.specs.Map.{keys_of};
ghost use Rattle.indexmap.specs.IndexMap.{insert_entry};
ghost use Rattle.std.specs.List.{IsAmong};
ghost use Rattle.sq_binding.specs.Statement.{statement_bound};
ghost use Rattle.sq_tree.specs.declared.module.ModuleText.{ModuleText};
ghost use Rattle.sq_module.specs.Added.{IsInOrder};
ghost use Rattle.sq_module.specs.Computed.{AreComputedProcedures, IsComputed, as_bound};
ghost use Rattle.sq_module.specs.Named.{AreNamedAs, cursors_named};
ghost use Rattle.sq_module.specs.Written.{AreFrom, AreNumbers, IsBoundFrom, IsOfText, IsProcedureOf};
ghost use Rattle.indexmap.specs.IndexSet.{insert_key};
ghost use Rattle.sq_catalog.specs.Catalog.{column_kinds, known};
ghost use Rattle.sq_catalog.specs.UserTables.{names_in};
ghost use Rattle.sq_module.specs.Admitted.{module_keys, name_of};
ghost use Rattle.sq_module.specs.Opened.{AreOpenable, AreThere, IsOpenable};
ghost use Rattle.sq_module.specs.Program.{FitsProcedure, ProcedureIsWellFormed, ProcedureOpens, kinds_of_cursors, same_procedure, with_procedures};
ghost use Rattle.sq_binding.specs.Names.{declared};

use crate::admission::{AdmittedModule, AdmittedProcedure};
use crate::bound::bound_statement;
use crate::cursors::ModuleCursors;
use crate::program::{BoundProcedure, ProcedureName, Program};
use indexmap::IndexMap;
use sq_binder::{Fault, Stop};
use sq_catalog::Catalog;
use sq_items::Items;
use sq_lex::Name;
use std::alloc::{AllocError, Global};

impl Program {
    /// Adds the procedures of a module, whose cursors have these numbers.
    pub(crate) fn add_procedures(
        &mut self,
        alloc: Global,
        catalog: &Catalog,
        module: &AdmittedModule<'_>,
        numbers: &IndexMap<Name, usize>,
    ) -> Result<(), AllocError>
        requires openable { AreOpenable (column_kinds catalog.now) self.old.cursors.items numbers.now.entries
            «module».now.procedures.items }
        requires there { AreThere (length self.old.cursors.items) numbers.now.entries }
        requires in_order { IsInOrder catalog.now self.old }
        ensures procedures { OnOk result
            (keys_of self.new.procedures.entries ≡ with_procedures (keys_of self.old.procedures.entries)
            (module_keys «module».now)) }
        ensures in_order { OnOk result (IsInOrder catalog.now self.new) }
        ensures written { (texts : List ModuleText) (m : ModuleText) → IsAmong texts m
            → IsOfText m «module».now
            → AreNumbers (known catalog.now) m self.old.cursors.items numbers.now.entries
            → AreFrom (known catalog.now) texts self.old
            → OnOk result (AreFrom (known catalog.now) texts self.new) }
        ensures cursors { OnOk result (self.new.cursors ≡ self.old.cursors) }
        ensures computed { (texts : List ModuleText) (m : ModuleText) → IsAmong texts m
            → IsOfText m «module».now
            → AreNamedAs (names_in catalog.now m.authorization) m self.old.cursors.items numbers.now.entries
            → AreComputedProcedures (names_in catalog.now) texts self.old.procedures.entries
            → OnOk result (AreComputedProcedures (names_in catalog.now) texts self.new.procedures.entries) }
    {
        for admitted in module.procedures.as_slice() {
            self.add_procedure(alloc, catalog, module, numbers, admitted)?;
        }
        Ok(())
    }

    fn add_procedure(
        &mut self,
        alloc: Global,
        catalog: &Catalog,
        module: &AdmittedModule<'_>,
        numbers: &IndexMap<Name, usize>,
        admitted: &AdmittedProcedure<'_>,
    ) -> Result<(), AllocError>
        requires openable { IsOpenable (column_kinds catalog.now) self.old.cursors.items numbers.now.entries
            admitted.now }
        requires there { AreThere (length self.old.cursors.items) numbers.now.entries }
        requires in_order { IsInOrder catalog.now self.old }
        ensures cursors { self.new.cursors ≡ self.old.cursors }
        ensures procedures { OnOk result (keys_of self.new.procedures.entries ≡ insert_key same_procedure
            (keys_of self.old.procedures.entries) (name_of «module».now.name admitted.now)) }
        ensures in_order { OnOk result (IsInOrder catalog.now self.new) }
        ensures written { (texts : List ModuleText) (m : ModuleText) → IsAmong texts m
            → IsOfText m «module».now
            → IsProcedureOf m.items admitted.now
            → AreNumbers (known catalog.now) m self.old.cursors.items numbers.now.entries
            → AreFrom (known catalog.now) texts self.old
            → OnOk result (AreFrom (known catalog.now) texts self.new) }
        ensures computed { (texts : List ModuleText) (m : ModuleText) → IsAmong texts m
            → IsOfText m «module».now
            → IsProcedureOf m.items admitted.now
            → AreNamedAs (names_in catalog.now m.authorization) m self.old.cursors.items numbers.now.entries
            → AreComputedProcedures (names_in catalog.now) texts self.old.procedures.entries
            → OnOk result (AreComputedProcedures (names_in catalog.now) texts self.new.procedures.entries) }
    {
        let cursors = ModuleCursors {
            numbers,
            cursors: self.cursors.as_slice(),
        };
        let bound = bound_procedure(alloc, catalog, module.user, &cursors, admitted)?;
        let name = ProcedureName {
            module: module.name,
            name: admitted.procedure.name,
        };
        insert_procedure(&mut self.procedures, name, bound)
    }
}

/// A procedure of a module of this user with these cursors.
fn bound_procedure(
    alloc: Global,
    catalog: &Catalog,
    user: Name,
    cursors: &ModuleCursors<'_>,
    admitted: &AdmittedProcedure<'_>,
) -> Result<BoundProcedure, AllocError>
    requires { IsOpenable (column_kinds catalog.now) cursors.now.cursors.now cursors.now.numbers.now.entries
        admitted.now }
    ensures fits { IfOk result (FitsProcedure catalog.now.bases (length cursors.now.cursors.now)) }
    ensures well_formed { IfOk result
        (ProcedureIsWellFormed (column_kinds catalog.now) (kinds_of_cursors cursors.now.cursors.now)) }
    ensures opens { IfOk result (ProcedureOpens (column_kinds catalog.now) cursors.now.cursors.now) }
    ensures written { (m : ModuleText) → user ≡ m.authorization → IsProcedureOf m.items admitted.now
        → AreNumbers (known catalog.now) m cursors.now.cursors.now cursors.now.numbers.now.entries
        → IfOk result (IsBoundFrom (known catalog.now) m cursors.now.cursors.now admitted.now.procedure.now) }
    ensures computed { IfOk result (λ p. IsComputed (statement_bound (names_in catalog.now user)
        (declared admitted.now.parameters)
        (cursors_named cursors.now.cursors.now cursors.now.numbers.now.entries)
        admitted.now.procedure.now.statement) p.statement) }
{
    let parameters = admitted.parameters.as_slice();
    let written = &admitted.procedure.statement;
    let bound = bound_statement(alloc, catalog, user, parameters, cursors, written);
    let statement = unless_no_memory(bound)?;
    match Items::from_slice(alloc, parameters) {
        Ok(parameters) => Ok(BoundProcedure {
            user,
            parameters,
            statement,
        }),
        Err(error) => {
            drop(statement);
            Err(error)
        }
    }
}

/// Gives a value the name of a procedure.
fn insert_procedure<T: Drop>(
    named: &mut IndexMap<ProcedureName, T>,
    name: ProcedureName,
    value: T,
) -> Result<(), AllocError>
    ensures keys { OnOk result
        (keys_of named.new.entries ≡ insert_key same_procedure (keys_of named.old.entries) name) }
    ensures entries { OnOk result
        (named.new.entries ≡ insert_entry same_procedure named.old.entries name value) }
{
    match named.insert(name, value) {
        Ok(before) => {
            drop(before);
            Ok(())
        }
        Err(failed) => {
            drop(failed);
            Err(AllocError)
        }
    }
}

/// The bound part or its fault. Running out of memory is an error of the call.
fn unless_no_memory<T: Drop>(bound: Result<T, Stop>) -> Result<Result<T, Fault>, AllocError>
    ensures { IfOk result (λ kept. bound ≡ as_bound kept) }
{
    match bound {
        Ok(part) => Ok(Ok(part)),
        Err(Stop::Fault(fault)) => Ok(Err(fault)),
        Err(Stop::NoMemory) => Err(AllocError),
    }
}

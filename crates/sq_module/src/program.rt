//! The procedures and cursors of all modules, with their names as places.

ghost use Rattle.std.specs.Prelude.{◌≡◌, [], IfOk, List, OnOk};
ghost use Rattle.std.specs.Map.{keys_of};
ghost use Rattle.sq_lex.specs.declared.name.Name.{Name as AnyName};
ghost use Rattle.sq_tree.specs.declared.module.ModuleText.{ModuleText};
ghost use Rattle.sq_module.specs.Added.{AddsModule, IsInOrder};
ghost use Rattle.sq_module.specs.Computed.{IsProgramOf};
ghost use Rattle.sq_module.specs.Written.{AreFrom, AreOfTexts, IsOfTexts};
ghost use Rattle.sq_catalog.specs.Catalog.{column_kinds, known};
ghost use Rattle.sq_catalog.specs.UserTables.{names_in};
ghost use Rattle.sq_module.specs.Admitted.{AreAdmitted, OpensEachOnce, admitted_procedures};
ghost use Rattle.sq_module.specs.Opened.{AreOfOthers};
ghost use Rattle.sq_module.specs.Program.{FitsProgram, ProgramIsWellFormed, with_procedures};

use crate::admission::AdmittedModule;
use indexmap::IndexMap;
use sq_binder::Fault;
use sq_bound::{BoundCursor, BoundStatement, ParameterDesc};
use sq_catalog::Catalog;
use sq_items::Items;
use sq_lex::Name;
use std::alloc::{AllocError, Global};

/// A procedure of a module.
#[derive(Drop)]
pub struct BoundProcedure {
    /// The user of its module.
    pub user: Name,
    pub parameters: Items<ParameterDesc>,
    /// One with a fault answers 42000 at each call.
    pub statement: Result<BoundStatement, Fault>,
}

/// A cursor of a module.
#[derive(Drop)]
pub struct DeclaredCursor {
    pub module: Name,
    /// Its name in the module.
    pub name: Name,
    /// The user of its module.
    pub user: Name,
    pub cursor: BoundCursor,
}

/// A procedure's module, and its name there.
#[derive(Clone, Copy, Debug, PartialEq, Eq, Hash)]
pub struct ProcedureName {
    pub module: Name,
    pub name: Name,
}

/// The procedures and cursors of all modules. Cursors with a fault are left out.
#[derive(Drop)]
pub struct Program {
    pub procedures: IndexMap<ProcedureName, BoundProcedure>,
    pub cursors: Vec<DeclaredCursor>,
}

impl Program {
    /// The modules, bound one after the other.
    pub fn bind(
        alloc: Global,
        catalog: &Catalog,
        modules: &[AdmittedModule<'_>],
    ) -> Result<Program, AllocError>
        requires { AreAdmitted [] modules.now }
        ensures procedures { IfOk result (λ program. keys_of program.procedures.entries ≡ with_procedures []
            (admitted_procedures modules.now)) }
        ensures fits { IfOk result (FitsProgram catalog.now.bases) }
        ensures well_formed { IfOk result (ProgramIsWellFormed (column_kinds catalog.now)) }
        ensures written { (texts : List ModuleText) → AreOfTexts texts modules.now
            → IfOk result (IsOfTexts (known catalog.now) texts) }
        ensures computed { (texts : List ModuleText) → AreOfTexts texts modules.now
            → IfOk result (IsProgramOf (names_in catalog.now) texts) }
    {
        let mut program = Program {
            procedures: IndexMap::new(alloc),
            cursors: Vec::new(alloc),
        };
        match program.add_modules(alloc, catalog, modules) {
            Ok(()) => Ok(program),
            Err(error) => {
                drop(program);
                Err(error)
            }
        }
    }

    fn add_modules(
        &mut self,
        alloc: Global,
        catalog: &Catalog,
        modules: &[AdmittedModule<'_>],
    ) -> Result<(), AllocError>
        requires in_order { IsInOrder catalog.now self.old }
        requires modules { AreAdmitted [] modules.now }
        requires others { (name : AnyName) → AreOfOthers name self.old.cursors.items }
        ensures procedures { OnOk result
            (keys_of self.new.procedures.entries ≡ with_procedures (keys_of self.old.procedures.entries)
            (admitted_procedures modules.now)) }
        ensures in_order { OnOk result (IsInOrder catalog.now self.new) }
        ensures written { (texts : List ModuleText) → AreOfTexts texts modules.now
            → AreFrom (known catalog.now) texts self.old
            → OnOk result (AreFrom (known catalog.now) texts self.new) }
        ensures computed { (texts : List ModuleText) → AreOfTexts texts modules.now
            → IsProgramOf (names_in catalog.now) texts self.old
            → OnOk result (IsProgramOf (names_in catalog.now) texts self.new) }
    {
        for module in modules {
            self.add_module(alloc, catalog, module)?;
        }
        Ok(())
    }

    fn add_module(
        &mut self,
        alloc: Global,
        catalog: &Catalog,
        module: &AdmittedModule<'_>,
    ) -> Result<(), AllocError>
        requires in_order { IsInOrder catalog.now self.old }
        requires others { AreOfOthers «module».now.name self.old.cursors.items }
        requires once { OpensEachOnce «module».now }
        ensures { OnOk result (AddsModule catalog.now «module».now self.old self.new) }
    {
        let mut numbers = IndexMap::new(alloc);
        let added = self.add_parts(alloc, catalog, module, &mut numbers);
        drop(numbers);
        added
    }

    /// Adds the cursors of a module, each with its number among all cursors, and then its procedures.
    fn add_parts(
        &mut self,
        alloc: Global,
        catalog: &Catalog,
        module: &AdmittedModule<'_>,
        numbers: &mut IndexMap<Name, usize>,
    ) -> Result<(), AllocError>
        requires none { numbers.old.entries ≡ [] }
        requires in_order { IsInOrder catalog.now self.old }
        requires others { AreOfOthers «module».now.name self.old.cursors.items }
        requires once { OpensEachOnce «module».now }
        ensures { OnOk result (AddsModule catalog.now «module».now self.old self.new) }
    {
        self.add_cursors(alloc, catalog, module, numbers)?;
        self.add_procedures(alloc, catalog, module, numbers)?;
        Ok(())
    }
}

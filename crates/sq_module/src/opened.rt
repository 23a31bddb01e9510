//! The cursors of a module in a program: each is bound for the procedure that opens it (ISO/IEC 9075:1992, 13.1 and 13.2).

ghost use Rattle.std.specs.Prelude.{◌≡◌, ◌+◌, ℕ, [], IfOk, List, OnOk, take, true};
ghost use Rattle.sq_module.specs.Added.{AddsCursor, HasCursors, IsInOrder, IsProcedureAt};
ghost use Rattle.sq_module.specs.Admitted.{OpensEachOnce};
ghost use Rattle.sq_module.specs.Computed.{IsPart};
ghost use Rattle.sq_module.specs.Opened.{AreOfOthers};
ghost use Rattle.sq_module.specs.declared.program.DeclaredCursor.{DeclaredCursor as AnyCursor};

use crate::admission::{AdmittedModule, AdmittedProcedure};
use crate::bound::bound_cursor;
use crate::program::{DeclaredCursor, Program};
use indexmap::IndexMap;
use sq_binder::Stop;
use sq_bound::BoundCursor;
use sq_catalog::Catalog;
use sq_lex::Name;
use sq_tree::Statement;
use std::alloc::{AllocError, Global};

impl Program {
    /// Adds the cursors of a module, each with the procedure that opens it.
    pub(crate) fn add_cursors(
        &mut self,
        alloc: Global,
        catalog: &Catalog,
        module: &AdmittedModule<'_>,
        numbers: &mut IndexMap<Name, usize>,
    ) -> Result<(), AllocError>
        requires none { numbers.old.entries ≡ [] }
        requires in_order { IsInOrder catalog.now self.old }
        requires others { AreOfOthers «module».now.name self.old.cursors.items }
        requires once { OpensEachOnce «module».now }
        ensures procedures { self.new.procedures ≡ self.old.procedures }
        ensures opened { OnOk result (HasCursors catalog.now «module».now self.old.cursors.items
            «module».now.procedures.items self.new numbers.new.entries) }
    {
        for opener in module.procedures.as_slice() {
            self.add_opened(alloc, catalog, module, opener, numbers)?;
        }
        Ok(())
    }

    /// Adds the cursor that a procedure opens, if it is one of the module, with its number, if it has no fault. Its parameters
    /// are those of that procedure.
    fn add_opened(
        &mut self,
        alloc: Global,
        catalog: &Catalog,
        module: &AdmittedModule<'_>,
        opener: &AdmittedProcedure<'_>,
        numbers: &mut IndexMap<Name, usize>,
    ) -> Result<(), AllocError>
        requires once { OpensEachOnce «module».now }
        ensures procedures { self.new.procedures ≡ self.old.procedures }
        ensures opened { (place : ℕ) (others : List AnyCursor) → IsProcedureAt «module».now place opener.now
            → HasCursors catalog.now «module».now others (take place «module».now.procedures.items) self.old
            numbers.old.entries
            → OnOk result (HasCursors catalog.now «module».now others
            (take (place + 1) «module».now.procedures.items) self.new numbers.new.entries) }
    {
        let Statement::Open(name) = &opener.procedure.statement else {
            return Ok(());
        };
        match module.cursors.get(name) {
            Some(cursor) => {
                let parameters = opener.parameters.as_slice();
                let bound = bound_cursor(alloc, catalog, module.user, parameters, cursor);
                self.add_cursor(numbers, module, *name, bound)
            }
            None => Ok(()),
        }
    }

    /// Adds the cursor of this name of a module, with its number among all cursors, if it has no fault.
    fn add_cursor(
        &mut self,
        numbers: &mut IndexMap<Name, usize>,
        module: &AdmittedModule<'_>,
        name: Name,
        bound: Result<BoundCursor, Stop>,
    ) -> Result<(), AllocError>
        ensures procedures { self.new.procedures ≡ self.old.procedures }
        ensures adds { OnOk result (AddsCursor «module».now name bound self.old.cursors.items
            numbers.old.entries self.new.cursors.items numbers.new.entries) }
    {
        match without_fault(bound)? {
            Some(cursor) => {
                let number = self.cursors.len();
                self.cursors.push(DeclaredCursor {
                    module: module.name,
                    name,
                    user: module.user,
                    cursor,
                })?;
                require_kept(numbers.insert(name, number).is_ok())?;
                Ok(())
            }
            None => Ok(()),
        }
    }
}

/// The bound part, or `None` where it has a fault.
fn without_fault<T: Drop>(bound: Result<T, Stop>) -> Result<Option<T>, AllocError>
    ensures { IfOk result (IsPart bound) }
{
    match bound {
        Ok(part) => Ok(Some(part)),
        Err(Stop::Fault(_)) => Ok(None),
        Err(Stop::NoMemory) => Err(AllocError),
    }
}

/// Out of memory, unless a value was kept.
fn require_kept(is_kept: bool) -> Result<(), AllocError>
    ensures { OnOk result (is_kept ≡ true) }
{
    if is_kept { Ok(()) } else { Err(AllocError) }
}

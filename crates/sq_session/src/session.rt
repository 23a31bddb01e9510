//! A session: the modules, the tables, and the cursors.

ghost use Rattle.std.specs.Prelude.{◌≡◌, false, true, length, replicate, slice_get, IfErr, IfOk, IsOk, MatchResult, None, OnErr};
ghost use Rattle.sq_meaning.specs.ModuleRefusal.{first_module_refusal};
ghost use Rattle.sq_module.specs.FirstRefusal.{IsFaultFor};
ghost use Rattle.sq_module.specs.Refusal.{IsOfSomeModule};
ghost use Rattle.sq_catalog.specs.Catalog.{known, table_number};
ghost use Rattle.sq_catalog.specs.UserTables.{names_in};
ghost use Rattle.sq_session.specs.Kind.{fault_at, fits_at, kind_at, needs_memory};
ghost use Rattle.sq_session.specs.Metered.{CallReads};
ghost use Rattle.std.specs.Map.{keys_of};
ghost use Rattle.sq_bound.specs.Fits.{AreInDomains, keys_of_bases};
ghost use Rattle.sq_change.specs.Constraints.{constraints_hold};
ghost use Rattle.sq_catalog.specs.Catalog.{column_kinds};
ghost use Rattle.sq_module.specs.Program.{FitsProgram, ProgramIsWellFormed, declared_procedures};
ghost use Rattle.sq_module.specs.Computed.{IsProgramOf};
ghost use Rattle.sq_module.specs.Written.{IsOfTexts};
ghost use Rattle.sq_session.specs.Schemas.{schemas_of};
ghost use Rattle.sq_session.specs.Session.{IsOfModules, MayStart, SessionIsWhole, name_at, names_of, procedure_number, procedures_of, rows_named};
ghost use Rattle.sq_session.specs.State.{AreClosed, state_of};
ghost use Rattle.sq_session.specs.Step.{MayCall, is_success};

use crate::call::{call, reply_of};
use crate::cursor::CursorState;
use crate::inside::Inside;
use crate::machine::Machine;
use crate::parameter::all_fit;
use crate::reply::Reply;
use crate::rows::TableRows;
use sq_binder::Fault;
use sq_catalog::{Catalog, FullName};
use sq_lex::Name;
use sq_module::{ProcedureName, Program, SessionFault, admit};
use sq_store::{Meter, Store};
use sq_tree::ModuleText;
use sq_value::Value;
use std::alloc::{AllocError, Global};
use std::marker::Model;

/// The modules, and the tables and cursors that their procedures work on.
#[derive(Drop)]
pub struct Session<S: Store> {
    alloc: Global,
    catalog: Catalog,
    program: Program,
    machine: Machine<S>,
}

impl<S: Store> Model for Session<S> {
    ghost use Rattle.std.specs.Coded.{codes};
    ghost use Rattle.std.specs.Prelude.{◌≡◌, length};
    ghost use Rattle.sq_bound.specs.contracts.condition.BoundCond as condition;
    ghost use Rattle.sq_bound.specs.contracts.condition.BoundSpecification as specification;
    ghost use Rattle.sq_bound.specs.contracts.condition.Predicate as predicate;
    ghost use Rattle.sq_bound.specs.contracts.expression.BoundExpr as expression;
    ghost use Rattle.sq_bound.specs.contracts.names.BaseColumn as column;
    ghost use Rattle.sq_bound.specs.contracts.names.BaseTable as base;
    ghost use Rattle.sq_bound.specs.contracts.names.ObjectColumn as object;
    ghost use Rattle.sq_bound.specs.contracts.names.ParameterDesc as parameter;
    ghost use Rattle.sq_bound.specs.contracts.query.BoundQuery as query;
    ghost use Rattle.sq_bound.specs.contracts.query.BoundTerm as term;
    ghost use Rattle.sq_catalog.specs.Catalog.{column_kinds};
    ghost use Rattle.sq_module.specs.Program.{FitsProgram, ProgramIsWellFormed};
    ghost use Rattle.sq_session.specs.Cursors.{IsWhole};
    ghost use Rattle.sq_session.specs.Schemas.{schemas_of};
    ghost use Rattle.sq_session.specs.Session.{Session, procedures_of};

    ghost Value = { Session };

    ghost coded = { Prim.hlevel (
      codes,
      base.the_row.coded,
      parameter.the_row.coded,
      object.the_row.coded,
      column.the_row.coded,
      condition.the_row.coded,
      predicate.the_row.coded,
      specification.the_row.coded,
      expression.the_row.coded,
      query.the_row.coded,
      term.the_row.coded,
    ) };

    ghost view = { λ s. record {
      procedures = procedures_of s.program.cursors.items s.program.procedures.entries;
      tables = s.catalog.tables;
      schemas = schemas_of s.catalog;
      state = s.machine;
    } };

    ghost invariant = { λ s. FitsProgram s.catalog.bases s.program
        × ProgramIsWellFormed (column_kinds s.catalog) s.program
        × IsWhole (column_kinds s.catalog) s.catalog.bases s.program.cursors.items s.machine };
}

impl<S: Store> Session<S> {
    /// A session of these modules over a store of the catalog's tables and keys, with all cursors closed; or the first refusal,
    /// module by module, and within a module in the order of `ModuleFault` (12.1 to 12.3 and 13.1).
    pub fn new(
        alloc: Global,
        catalog: Catalog,
        modules: &[ModuleText],
        store: S,
    ) -> Result<Session<S>, SessionFault>
        requires tables { AreInDomains catalog.bases (S.content_now store) }
        requires committed { AreInDomains catalog.bases (S.committed store) }
        requires constraints { constraints_hold catalog.bases (S.content_now store) ≡ true }
        requires committed_constraints { constraints_hold catalog.bases (S.committed store) ≡ true }
        requires keys { S.key_columns store ≡ keys_of_bases catalog.bases }
        ensures start { IfOk result
            (λ s. (s.state.tables ≡ S.content_now store) × (s.state.committed ≡ S.committed store) × AreClosed
            s.state.cursors) }
        ensures numbers { IfOk result (λ s. s.state.row_numbers ≡ S.row_numbers store) }
        ensures procedures { IfOk result (λ s. names_of s.procedures ≡ declared_procedures modules.now) }
        ensures written { IfOk result (IsOfModules (known catalog) (names_in catalog) modules.now) }
        ensures tables { IfOk result (λ s. s.tables ≡ catalog.tables) }
        ensures schemas { IfOk result (λ s. s.schemas ≡ schemas_of catalog) }
        ensures refused { IfErr result (IsOfSomeModule (length modules.now)) }
        ensures first { MatchResult result (λ _. first_module_refusal modules.now ≡ None)
            (IsFaultFor (first_module_refusal modules.now)) }
    {
        match program_of(alloc, &catalog, modules) {
            Ok(program) => Ok(Session::with_program(alloc, catalog, program, store)?),
            Err(fault) => {
                drop(store);
                drop(catalog);
                Err(fault)
            }
        }
    }

    /// A session of bound modules.
    #[tactic(auto, using(crate::proofs::OpenCursors::Over::start_over, crate::proofs::OpenCursors::Kept::start_kept, crate::proofs::Lasting::Holding::wide_where_in))]
    fn with_program(
        alloc: Global,
        catalog: Catalog,
        program: Program,
        store: S,
    ) -> Result<Session<S>, AllocError>
        requires fits { FitsProgram catalog.bases program }
        requires well_formed { ProgramIsWellFormed (column_kinds catalog) program }
        requires store { MayStart catalog.bases (S.content_now store) (S.committed store)
            (S.key_columns store) }
        ensures state { IfOk result
            (λ s. s.state ≡ state_of (S.content_now store) (S.committed store) (S.key_columns store)
            (S.row_numbers store) (replicate (length program.cursors.items) CursorState.Closed)) }
        ensures procedures { IfOk result
            (λ s. s.procedures ≡ procedures_of program.cursors.items program.procedures.entries) }
        ensures tables { IfOk result (λ s. s.tables ≡ catalog.tables) }
        ensures schemas { IfOk result (λ s. s.schemas ≡ schemas_of catalog) }
    {
        match Machine::new(alloc, store, program.cursors.len()) {
            Ok(machine) => Ok(Session {
                alloc,
                catalog,
                program,
                machine,
            }),
            Err(error) => {
                drop(program);
                drop(catalog);
                Err(error)
            }
        }
    }

    /// The number of the procedure of this module and name.
    pub fn procedure(&self, module: Name, name: Name) -> Option<usize>
        ensures { result ≡ procedure_number self.now.procedures «module» name }
    {
        let name = ProcedureName { module, name };
        self.program.procedures.get_index_of(&name)
    }

    /// The name of the procedure with this number.
    pub fn procedure_name(&self, procedure: usize) -> Option<ProcedureName>
        ensures { result ≡ name_at self.now.procedures procedure }
    {
        let (name, _) = self.program.procedures.get_index(procedure)?;
        Some(*name)
    }

    /// The fault for which each call of a procedure answers 42000, if its statement has one.
    pub fn fault(&self, procedure: usize) -> Option<Fault>
        ensures { result ≡ fault_at self.now.procedures procedure }
    {
        let (_, procedure) = self.program.procedures.get_index(procedure)?;
        match &procedure.statement {
            Ok(_) => None,
            Err(fault) => Some(*fault),
        }
    }

    /// Whether there are as many values as the procedure has named parameters, each null or one that its parameter can store.
    pub fn fits(&self, procedure: usize, values: &[Value]) -> bool
        ensures { result ≡ fits_at self.now.procedures procedure values.now }
    {
        match self.program.procedures.get_index(procedure) {
            Some((_, procedure)) => all_fit(self.alloc, procedure.parameters.as_slice(), values),
            None => false,
        }
    }

    /// Makes one call of the procedure with this number, with these values for its named parameters in the order in
    /// which they are declared. If its statement has a fault, the status is 42000. If memory runs out, the session is
    /// as it was.
    #[tactic(auto, using(crate::proofs::Calls::Failed::kept_by_failure, crate::proofs::Calls::Metering::told))]
    pub fn call(
        &mut self,
        alloc: Global,
        procedure: usize,
        values: &[Value],
    ) -> Result<Reply, AllocError>
        requires fits { fits_at self.old.procedures procedure values.now ≡ true }
        ensures step { IfOk result (λ r.
            MayCall self.old.schemas (kind_at self.old.procedures procedure) values.now self.old.state
            (record { status = r.status; outputs = r.outputs }) self.new.state) }
        ensures reads { IfOk result
            (λ r. CallReads (kind_at self.old.procedures procedure) values.now self.old.state r.reads) }
        ensures kept { IfOk result
            (λ r. is_success r.status ≡ false → self.new.state.tables ≡ self.old.state.tables) }
        ensures procedures { self.new.procedures ≡ self.old.procedures }
        ensures tables { self.new.tables ≡ self.old.tables }
        ensures schemas { self.new.schemas ≡ self.old.schemas }
        ensures in_domains { AreInDomains self.new.schemas.bases self.new.state.tables
            × AreInDomains self.new.schemas.bases self.new.state.committed }
        ensures constraints { constraints_hold self.new.schemas.bases self.new.state.tables ≡ true }
        ensures committed_constraints { constraints_hold self.new.schemas.bases self.new.state.committed
            ≡ true }
        ensures err { OnErr result (self.new ≡ self.old) }
        ensures memory { needs_memory (kind_at self.old.procedures procedure) ≡ false → IsOk result }
    {
        let mut meter = Meter::new();
        let ended = call(
            alloc,
            &self.catalog,
            &self.program,
            procedure,
            values,
            &mut self.machine,
            &mut meter,
        );
        reply_of(alloc, ended, meter.count())
    }

    /// The place of the base table of this owner and name.
    pub fn table(&self, user: Name, name: Name) -> Option<usize>
        ensures { result ≡ table_number self.now.tables user name }
    {
        self.catalog.base(user, name)
    }

    /// The owner and name of the base table at this place.
    pub fn table_name(&self, table: usize) -> Option<FullName>
        ensures { result ≡ slice_get self.now.tables table }
    {
        self.catalog.base_name(table)
    }

    /// The rows of the base table of this owner and name as they are now, with their numbers; `None` if there is no
    /// such base table.
    #[tactic(auto, using(crate::proofs::Lasting::Holding::as_many_tables, crate::proofs::Lasting::Holding::as_many_names))]
    pub fn rows(&self, user: Name, name: Name) -> Option<TableRows<'_, S>>
        ensures { result ≡ rows_named self.now user name }
    {
        let table = self.table(user, name)?;
        Some(TableRows::of(&self.machine.store, table))
    }

    /// The catalog that the schemas define.
    pub fn catalog(&self) -> &Catalog
        ensures tables { result.now.tables ≡ self.now.tables }
        ensures schemas { schemas_of result.now ≡ self.now.schemas }
    {
        &self.catalog
    }

    /// The procedures and cursors of the modules.
    pub fn program(&self) -> &Program
        ensures { procedures_of result.now.cursors.items result.now.procedures.entries
            ≡ self.now.procedures }
    {
        &self.program
    }

    /// The cursors as they are now, one for each that the modules declare.
    pub fn cursors(&self) -> &[CursorState]
        ensures { result.now ≡ self.now.state.cursors }
    {
        self.machine.cursors.as_slice()
    }

    /// The parts that the session works on. They are in order.
    pub fn inside(&self) -> Inside<'_, S>
        ensures procedures { self.now.procedures ≡ procedures_of result.program.now.cursors.items
            result.program.now.procedures.entries }
        ensures tables { self.now.tables ≡ result.catalog.now.tables }
        ensures schemas { self.now.schemas ≡ schemas_of result.catalog.now }
        ensures state { self.now.state
            ≡ state_of (S.content_now result.store.now) (S.committed result.store.now)
            (S.key_columns result.store.now) (S.row_numbers result.store.now) result.cursors.now }
        ensures whole { SessionIsWhole (column_kinds result.catalog.now) result.catalog.now.bases
            result.program.now self.now.state }
    {
        Inside {
            alloc: self.alloc,
            catalog: &self.catalog,
            program: &self.program,
            store: &self.machine.store,
            cursors: self.machine.cursors.as_slice(),
        }
    }
}

/// The procedures and cursors of modules, or the first refusal.
#[tactic(auto, using(sq_module::proofs::Names::all_declared))]
fn program_of(
    alloc: Global,
    catalog: &Catalog,
    modules: &[ModuleText],
) -> Result<Program, SessionFault>
    ensures procedures { IfOk result
        (λ program. keys_of program.procedures.entries ≡ declared_procedures modules.now) }
    ensures written { IfOk result (IsOfTexts (known catalog.now) modules.now) }
    ensures computed { IfOk result (IsProgramOf (names_in catalog.now) modules.now) }
    ensures fits { IfOk result (λ program. FitsProgram catalog.now.bases program) }
    ensures well_formed { IfOk result (ProgramIsWellFormed (column_kinds catalog.now)) }
    ensures refused { IfErr result (IsOfSomeModule (length modules.now)) }
    ensures first { MatchResult result (λ _. first_module_refusal modules.now ≡ None)
        (IsFaultFor (first_module_refusal modules.now)) }
{
    let admitted = admit(alloc, modules)?;
    let program = Program::bind(alloc, catalog, admitted.as_slice());
    drop(admitted);
    Ok(program?)
}

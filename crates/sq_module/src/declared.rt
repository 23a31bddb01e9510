//! Declarations of parameters (ISO/IEC 9075:1992, 12.3).

ghost use Rattle.std.specs.Prelude.{◌≡◌, ◌==◌, ◌+◌, ◌||◌, [], ◌∷◌, ◌++◌, count_by, filter_map, flat_map, is_none, map, nat_lt, not, option_to_list, true, false, IfOk, IfSome, OnOk, Some};
ghost use Rattle.std.specs.List.{list_any};
ghost use Rattle.indexmap.specs.IndexSet.{insert_key};
ghost use Rattle.sq_meaning.specs.Environment.{same_name};
ghost use Rattle.sq_meaning.specs.Spelled.{domain_of as domain_meant};
ghost use Rattle.sq_meaning.specs.Module.{declarations_of, declared_in, is_sqlcode, is_sqlstate};
ghost use Rattle.sq_meaning.specs.ModuleRefusal.{has_bad_declared, has_bad_status, is_bad_type};
ghost use Rattle.sq_meaning.specs.Schema.{has_name_twice, is_among};
ghost use Rattle.sq_meaning.specs.Words.{is_some_and};
ghost use Rattle.sq_module.specs.Written.{Declare, named_as, named_in};

use indexmap::IndexSet;
use sq_binder::domain_of;
use sq_bound::ParameterDesc;
use sq_items::Items;
use sq_lex::Name;
use sq_tree::{BareDeclaration, DataType, Declaration, Declarations};
use std::alloc::{AllocError, Global};

/// The greatest number of named parameters (own rule).
const MOST_PARAMETERS: usize = 64;

/// The declarations in their order, however they are written.
pub(crate) fn list_declarations(
    alloc: Global,
    declarations: &Declarations,
) -> Result<Items<Declaration>, AllocError>
    ensures { IfOk result (λ list. list ≡ declarations_of declarations.now) }
{
    match declarations {
        Declarations::Bracketed(list) => list_bracketed(alloc, &list.first, list.rest.as_slice()),
        Declarations::Bare(first, rest) => list_bare(alloc, first, rest.as_slice()),
    }
}

fn list_bracketed(
    alloc: Global,
    first: &Declaration,
    rest: &[Declaration],
) -> Result<Items<Declaration>, AllocError>
    ensures { IfOk result (λ list. list ≡ first.now ∷ rest.now) }
{
    let mut list = Items::new(alloc);
    list.push(*first)?;
    for declaration in rest {
        list.push(*declaration)?;
    }
    Ok(list)
}

fn list_bare(
    alloc: Global,
    first: &Declaration,
    rest: &[BareDeclaration],
) -> Result<Items<Declaration>, AllocError>
    ensures { IfOk result (λ list. list ≡ first.now ∷ map (λ d. d.declaration) rest.now) }
{
    let mut list = Items::new(alloc);
    list.push(*first)?;
    for bare in rest {
        list.push(bare.declaration)?;
    }
    Ok(list)
}

/// Whether there is no status parameter, or one twice.
pub(crate) fn has_bad_status(declarations: &[Declaration]) -> bool
    ensures { result ≡ has_bad_status declarations.now }
{
    are_bad_counts(code_count(declarations), state_count(declarations))
}

fn code_count(declarations: &[Declaration]) -> usize
    ensures { result ≡ count_by is_sqlcode declarations.now }
{
    declarations.iter().filter(|d| is_sqlcode(d)).count()
}

fn state_count(declarations: &[Declaration]) -> usize
    ensures { result ≡ count_by is_sqlstate declarations.now }
{
    declarations.iter().filter(|d| is_sqlstate(d)).count()
}

fn are_bad_counts(codes: usize, states: usize) -> bool
    ensures { result ≡ (codes + states == 0 || nat_lt 1 codes || nat_lt 1 states) }
{
    (codes == 0 && states == 0) || codes > 1 || states > 1
}

fn is_sqlcode(declaration: &Declaration) -> bool
    ensures { result ≡ is_sqlcode declaration.now }
{
    match declaration {
        Declaration::Sqlcode => true,
        Declaration::Sqlstate | Declaration::Parameter(..) => false,
    }
}

fn is_sqlstate(declaration: &Declaration) -> bool
    ensures { result ≡ is_sqlstate declaration.now }
{
    match declaration {
        Declaration::Sqlstate => true,
        Declaration::Sqlcode | Declaration::Parameter(..) => false,
    }
}

/// Adds a name and returns whether it was new.
pub(crate) fn is_new(names: &mut IndexSet<Name>, name: Name) -> Result<bool, AllocError>
    ensures answer { IfOk result (λ is. is ≡ not (list_any (same_name name) names.old.keys)) }
    ensures keys { OnOk result (names.new.keys ≡ insert_key same_name names.old.keys name) }
    ensures new { IfOk result (λ is. is ≡ true → list_any (same_name name) names.old.keys ≡ false) }
    ensures last { IfOk result (λ is. is ≡ true → names.new.keys ≡ names.old.keys ++ name ∷ []) }
{
    match names.insert_full(name) {
        Ok((_, is_new)) => Ok(is_new),
        Err(_) => Err(AllocError),
    }
}

/// The named parameters with their domains; none where one is declared twice or of a bad type, or there are more than 64.
pub(crate) fn parameters_of(
    alloc: Global,
    declarations: &[Declaration],
) -> Result<Option<Items<ParameterDesc>>, AllocError>
    ensures declares { IfOk result (λ found. IfSome found (Declare declarations.now)) }
    ensures bad { IfOk result
        (λ found. is_none found ≡ has_bad_declared (filter_map declared_in declarations.now)) }
{
    let mut names = IndexSet::new(alloc);
    let mut parameters = Items::new(alloc);
    let added = are_added(&mut names, &mut parameters, declarations);
    drop(names);
    match added {
        Ok(are_in_order) => {
            if are_in_order && parameters.len() <= MOST_PARAMETERS {
                return Ok(Some(parameters));
            }
            drop(parameters);
            Ok(None)
        }
        Err(error) => {
            drop(parameters);
            Err(error)
        }
    }
}

/// Adds the named parameters, up to the first that is declared twice or of a bad type, and returns whether there was none.
fn are_added(
    names: &mut IndexSet<Name>,
    parameters: &mut Items<ParameterDesc>,
    declarations: &[Declaration],
) -> Result<bool, AllocError>
    requires { names.old.keys ≡ [] }
    ensures added { IfOk result
        (λ is. is ≡ true → map named_as parameters.new ≡ map named_as parameters.old ++ flat_map
        named_in declarations.now) }
    ensures bad { IfOk result (λ is. let declared = filter_map declared_in declarations.now in
        not is ≡ (has_name_twice (map (λ d. d.name) declared) || list_any
        (λ d. is_bad_type d.data_type) declared)) }
{
    for declaration in declarations {
        if !is_taken(names, parameters, declaration)? {
            return Ok(false);
        }
    }
    Ok(true)
}

/// Adds the parameter of a declaration, if it has a name, and returns whether it is declared once and of a good type.
fn is_taken(
    names: &mut IndexSet<Name>,
    parameters: &mut Items<ParameterDesc>,
    declaration: &Declaration,
) -> Result<bool, AllocError>
    ensures added { IfOk result
        (λ is. is ≡ true → map named_as parameters.new ≡ map named_as parameters.old
        ++ named_in declaration.now) }
    ensures names { IfOk result (λ is. is ≡ true → names.new.keys ≡ names.old.keys
        ++ map (λ d. d.name) (option_to_list (declared_in declaration.now))) }
    ensures bad { IfOk result
        (λ is. not is ≡ is_some_and (λ d. is_among names.old.keys d.name || is_bad_type d.data_type)
        (declared_in declaration.now)) }
{
    match declaration {
        Declaration::Parameter(name, data_type) => is_added(names, parameters, *name, data_type),
        Declaration::Sqlcode | Declaration::Sqlstate => Ok(true),
    }
}

fn is_added(
    names: &mut IndexSet<Name>,
    parameters: &mut Items<ParameterDesc>,
    name: Name,
    data_type: &DataType,
) -> Result<bool, AllocError>
    ensures added { IfOk result (λ is. is ≡ true → map named_as parameters.new ≡ map named_as
        parameters.old ++ (name, domain_meant data_type.now) ∷ []) }
    ensures names { IfOk result (λ is. is ≡ true → names.new.keys ≡ names.old.keys ++ name ∷ []) }
    ensures bad { IfOk result (λ is. not is ≡ (is_among names.old.keys name || is_bad_type data_type.now)) }
{
    if !is_new(names, name)? {
        return Ok(false);
    }
    let Some(domain) = domain_of(data_type) else {
        return Ok(false);
    };
    parameters.push(ParameterDesc { name, domain })?;
    Ok(true)
}

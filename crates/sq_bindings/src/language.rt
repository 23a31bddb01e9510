//! The names of a host's language, and its templates.
ghost use Rattle.std.specs.Prelude.{◌≡◌, IfOk};
ghost use Rattle.std.specs.List.{list_any};
ghost use Rattle.sq_bindings.specs.Declaring as declaring;
ghost use Rattle.sq_bindings.specs.Called as called;

use crate::names::{c_function, c_parameter, cobol_name};
use crate::parameter::{Kind, Role};
use sq_lex::Name;
use sq_tree::Declaration;
use std::alloc::{AllocError, Global};

/// A host's language.
#[derive(Clone, Copy, Debug, PartialEq, Eq)]
pub enum Host {
    C,
    Cobol,
}

/// How a host's language names things.
#[derive(Clone, Copy)]
pub struct Naming<'a> {
    pub(crate) host: Host,
    /// The names that are in use there.
    pub(crate) words: &'a [&'a [u8]],
}

/// The templates of parameters of a type, by how the statement uses them.
#[derive(Clone, Copy)]
pub struct Uses<'a> {
    pub(crate) reads: &'a str,
    pub(crate) sets: &'a str,
    pub(crate) both: &'a str,
}

/// A part of what is made of a procedure: a template for each declaration, in their order, and then for what isn't declared, and
/// for the end.
#[derive(Clone, Copy)]
pub struct Part<'a> {
    pub(crate) sqlstate: &'a str,
    pub(crate) sqlcode: &'a str,
    pub(crate) small: Uses<'a>,
    pub(crate) integer: Uses<'a>,
    pub(crate) numeric: Uses<'a>,
    pub(crate) decimal: Uses<'a>,
    pub(crate) fixed: Uses<'a>,
    pub(crate) varying: Uses<'a>,
    pub(crate) no_sqlstate: &'a str,
    pub(crate) no_sqlcode: &'a str,
    pub(crate) end: &'a str,
}

impl<'a> Part<'a> {
    ghost use Rattle.sq_bindings.specs.Language as spec;

    /// The text for a procedure that declares no SQLSTATE.
    pub(crate) fn missing_sqlstate(&self, declarations: &[Declaration]) -> &'a str
        ensures { result.now ≡ spec.missing_sqlstate self.now declarations.now }
    {
        if has_sqlstate(declarations) {
            ""
        } else {
            self.no_sqlstate
        }
    }

    /// The text for a procedure that declares no SQLCODE.
    pub(crate) fn missing_sqlcode(&self, declarations: &[Declaration]) -> &'a str
        ensures { result.now ≡ spec.missing_sqlcode self.now declarations.now }
    {
        if has_sqlcode(declarations) {
            ""
        } else {
            self.no_sqlcode
        }
    }

    /// The template of a parameter of this type, used so.
    pub(crate) fn template_of(&self, kind: Kind, role: Role) -> &'a str
        ensures { result.now ≡ spec.template_of self.now kind role }
    {
        let uses = match kind {
            Kind::Small => self.small,
            Kind::Integer => self.integer,
            Kind::Numeric(_, _) => self.numeric,
            Kind::Decimal(_, _) => self.decimal,
            Kind::Fixed(_) => self.fixed,
            Kind::Varying(_) => self.varying,
        };
        match role {
            Role::Reads => uses.reads,
            Role::Sets => uses.sets,
            Role::Both => uses.both,
        }
    }
}

fn is_sqlstate(declaration: &Declaration) -> bool
    ensures { result ≡ declaring.is_sqlstate declaration.now }
{
    matches!(declaration, Declaration::Sqlstate)
}

fn has_sqlstate(declarations: &[Declaration]) -> bool
    ensures { result ≡ list_any declaring.is_sqlstate declarations.now }
{
    declarations
        .iter()
        .any(|declaration| is_sqlstate(declaration))
}

fn is_sqlcode(declaration: &Declaration) -> bool
    ensures { result ≡ declaring.is_sqlcode declaration.now }
{
    matches!(declaration, Declaration::Sqlcode)
}

fn has_sqlcode(declarations: &[Declaration]) -> bool
    ensures { result ≡ list_any declaring.is_sqlcode declarations.now }
{
    declarations
        .iter()
        .any(|declaration| is_sqlcode(declaration))
}

/// No templates.
const NO_USES: Uses<'static> = Uses {
    reads: "",
    sets: "",
    both: "",
};

/// A part with no templates.
pub(crate) const NOTHING: Part<'static> = Part {
    sqlstate: "",
    sqlcode: "",
    small: NO_USES,
    integer: NO_USES,
    numeric: NO_USES,
    decimal: NO_USES,
    fixed: NO_USES,
    varying: NO_USES,
    no_sqlstate: "",
    no_sqlcode: "",
    end: "",
};

/// A pass over the procedures of a module: the text before them, and the parts of each.
#[derive(Clone, Copy)]
pub struct Pass<'a> {
    pub(crate) start: &'a str,
    pub(crate) parts: &'a [Part<'a>],
}

/// The templates of a host's language: the start of a text, the passes over each module, and the end of each.
#[derive(Clone, Copy)]
pub struct Language<'a> {
    pub(crate) naming: Naming<'a>,
    pub(crate) start: &'a str,
    pub(crate) passes: &'a [Pass<'a>],
    pub(crate) end: &'a str,
}

/// Makes the name in a host's language.
pub(crate) fn name_in(alloc: Global, naming: &Naming<'_>, name: Name) -> Result<Vec<u8>, AllocError>
    ensures { IfOk result (λ text. text.items ≡ called.name_in naming.now name) }
{
    match naming.host {
        Host::C => c_parameter(alloc, naming.words, name),
        Host::Cobol => cobol_name(alloc, naming.words, name),
    }
}

/// Makes the name of a procedure in a host's language.
pub(crate) fn procedure_in(
    alloc: Global,
    naming: &Naming<'_>,
    owner: Name,
    procedure: Name,
) -> Result<Vec<u8>, AllocError>
    ensures { IfOk result (λ text. text.items ≡ called.procedure_in naming.now owner procedure) }
{
    match naming.host {
        Host::C => c_function(alloc, naming.words, owner, procedure),
        Host::Cobol => cobol_name(alloc, naming.words, procedure),
    }
}

//! The text that binds modules to a host's language.
ghost use Rattle.std.specs.Prelude.{◌≡◌, ◌++◌, ◌∷◌, IfOk, OnOk, flat_map, map};
ghost use Rattle.sq_bindings.specs.Binding as spec;
ghost use Rattle.sq_bindings.specs.Template.{filling};

use crate::language::{Language, Naming, Part, Pass, name_in, procedure_in};
use crate::parameter::{Kind, kind_of, role_in};
use crate::picture::{digits_of, picture_of, scale_of, size_of};
use crate::template::{Marks, add_filled};
use sq_lex::Name;
use sq_tree::{
    BareDeclaration, Declaration, Declarations, ModuleItem, ModuleText, Procedure, Statement,
};
use std::alloc::{AllocError, Global};

/// The text that binds modules to a host's language: its templates, filled in along the trees.
#[tactic(auto, using(crate::proofs::Added::added_next))]
pub fn bind_modules(
    alloc: Global,
    language: &Language<'_>,
    modules: &[ModuleText],
) -> Result<Vec<u8>, AllocError>
    ensures { IfOk result (λ text. text.items ≡ spec.bound_text language.now modules.now) }
{
    let mut text = Vec::new(alloc);
    text.extend_from_slice(language.start.as_bytes())?;
    for tree in modules {
        add_module(alloc, &mut text, language, tree)?;
    }
    Ok(text)
}

/// Adds what is made of a module.
#[tactic(auto, using(std::proofs::lemmas::Grind::common_steps))]
fn add_module(
    alloc: Global,
    text: &mut Vec<u8>,
    language: &Language<'_>,
    tree: &ModuleText,
) -> Result<(), AllocError>
    ensures { OnOk result (text.new.items ≡ text.old.items ++ spec.module_text language.now tree.now) }
{
    let name = name_in(alloc, &language.naming, tree.name)?;
    let marks = Marks {
        owner: tree.name.codes(),
        owner_name: name.as_slice(),
        procedure: &[],
        procedure_name: &[],
        parameter: &[],
        parameter_name: &[],
        picture: &[],
        size: &[],
        scale: &[],
    };
    add_passes(alloc, text, language, &marks, tree)?;
    add_filled(text, &marks, language.end)
}

#[tactic(auto, using(crate::proofs::Added::added_next))]
fn add_passes(
    alloc: Global,
    text: &mut Vec<u8>,
    language: &Language<'_>,
    marks: &Marks<'_>,
    tree: &ModuleText,
) -> Result<(), AllocError>
    ensures { OnOk result
        (text.new.items ≡ text.old.items ++ spec.passes_text language.now (filling marks.now) tree.now) }
{
    for pass in language.passes {
        add_pass(alloc, text, &language.naming, pass, marks, tree)?;
    }
    Ok(())
}

/// Adds what a pass makes of a module.
#[tactic(auto, using(std::proofs::lemmas::Grind::common_steps))]
fn add_pass(
    alloc: Global,
    text: &mut Vec<u8>,
    naming: &Naming<'_>,
    pass: &Pass<'_>,
    marks: &Marks<'_>,
    tree: &ModuleText,
) -> Result<(), AllocError>
    ensures { OnOk result
        (text.new.items ≡ text.old.items ++ spec.pass_text naming.now (filling marks.now) tree.now pass.now) }
{
    add_filled(text, marks, pass.start)?;
    add_items(alloc, text, naming, pass.parts, marks, tree)
}

#[tactic(auto, using(crate::proofs::Added::added_next))]
fn add_items(
    alloc: Global,
    text: &mut Vec<u8>,
    naming: &Naming<'_>,
    parts: &[Part<'_>],
    marks: &Marks<'_>,
    tree: &ModuleText,
) -> Result<(), AllocError>
    ensures { OnOk result
        (text.new.items ≡ text.old.items
        ++ spec.items_text naming.now (filling marks.now) parts.now tree.now) }
{
    for item in tree.items.as_slice() {
        add_item(alloc, text, naming, parts, marks, tree.name, item)?;
    }
    Ok(())
}

/// Adds what is made of an item of a module: nothing of a cursor.
fn add_item(
    alloc: Global,
    text: &mut Vec<u8>,
    naming: &Naming<'_>,
    parts: &[Part<'_>],
    marks: &Marks<'_>,
    owner: Name,
    item: &ModuleItem,
) -> Result<(), AllocError>
    ensures { OnOk result
        (text.new.items ≡ text.old.items
        ++ spec.item_text naming.now (filling marks.now) parts.now owner item.now) }
{
    match item {
        ModuleItem::Cursor(_) => Ok(()),
        ModuleItem::Procedure(procedure) => {
            add_procedure(alloc, text, naming, parts, marks, owner, procedure)
        }
    }
}

/// Adds the parts of a procedure.
fn add_procedure(
    alloc: Global,
    text: &mut Vec<u8>,
    naming: &Naming<'_>,
    parts: &[Part<'_>],
    marks: &Marks<'_>,
    owner: Name,
    procedure: &Procedure,
) -> Result<(), AllocError>
    ensures { OnOk result
        (text.new.items ≡ text.old.items
        ++ spec.procedure_text naming.now (filling marks.now) parts.now owner procedure.now) }
{
    let name = procedure_in(alloc, naming, owner, procedure.name)?;
    let declarations = list_declarations(alloc, &procedure.declarations)?;
    let own = Marks {
        procedure: procedure.name.codes(),
        procedure_name: name.as_slice(),
        ..*marks
    };
    add_parts(
        alloc,
        text,
        naming,
        parts,
        &own,
        &procedure.statement,
        declarations.as_slice(),
    )
}

#[tactic(auto, using(crate::proofs::Added::added_next))]
fn add_parts(
    alloc: Global,
    text: &mut Vec<u8>,
    naming: &Naming<'_>,
    parts: &[Part<'_>],
    marks: &Marks<'_>,
    statement: &Statement,
    declarations: &[Declaration],
) -> Result<(), AllocError>
    ensures { OnOk result
        (text.new.items ≡ text.old.items
        ++ flat_map (spec.part_text naming.now (filling marks.now) statement.now declarations.now)
        parts.now) }
{
    for part in parts {
        add_part(alloc, text, naming, part, marks, statement, declarations)?;
    }
    Ok(())
}

/// The declarations of a procedure, in their order.
fn list_declarations(
    alloc: Global,
    declarations: &Declarations,
) -> Result<Vec<Declaration>, AllocError>
    ensures { IfOk result (λ list. list.items ≡ spec.declared_in declarations.now) }
{
    match declarations {
        Declarations::Bracketed(declarations) => {
            let mut list = Vec::new(alloc);
            list.push(declarations.first)?;
            list.extend_from_slice(declarations.rest.as_slice())?;
            Ok(list)
        }
        Declarations::Bare(first, rest) => list_bare(alloc, *first, rest.as_slice()),
    }
}

#[tactic(auto, using(std::proofs::lemmas::Grind::common_steps))]
fn list_bare(
    alloc: Global,
    first: Declaration,
    rest: &[BareDeclaration],
) -> Result<Vec<Declaration>, AllocError>
    ensures { IfOk result (λ list. list.items ≡ first ∷ map (λ b. b.declaration) rest.now) }
{
    let others = declarations_of(alloc, rest)?;
    let mut list = Vec::new(alloc);
    list.push(first)?;
    list.extend_from_slice(others.as_slice())?;
    Ok(list)
}

fn declarations_of(alloc: Global, rest: &[BareDeclaration]) -> Result<Vec<Declaration>, AllocError>
    ensures { IfOk result (λ list. list.items ≡ map (λ b. b.declaration) rest.now) }
{
    rest.iter().map(|bare| bare.declaration).collect(alloc)
}

/// Adds a part of a procedure.
#[tactic(auto, using(std::proofs::lemmas::Grind::common_steps))]
fn add_part(
    alloc: Global,
    text: &mut Vec<u8>,
    naming: &Naming<'_>,
    part: &Part<'_>,
    marks: &Marks<'_>,
    statement: &Statement,
    declarations: &[Declaration],
) -> Result<(), AllocError>
    ensures { OnOk result
        (text.new.items ≡ text.old.items
        ++ spec.part_text naming.now (filling marks.now) statement.now declarations.now part.now) }
{
    add_declarations(alloc, text, naming, part, marks, statement, declarations)?;
    add_filled(text, marks, part.missing_sqlstate(declarations))?;
    add_filled(text, marks, part.missing_sqlcode(declarations))?;
    add_filled(text, marks, part.end)
}

#[tactic(auto, using(crate::proofs::Added::added_next))]
fn add_declarations(
    alloc: Global,
    text: &mut Vec<u8>,
    naming: &Naming<'_>,
    part: &Part<'_>,
    marks: &Marks<'_>,
    statement: &Statement,
    declarations: &[Declaration],
) -> Result<(), AllocError>
    ensures { OnOk result
        (text.new.items ≡ text.old.items
        ++ flat_map (spec.declaration_text naming.now (filling marks.now) statement.now part.now)
        declarations.now) }
{
    for declaration in declarations {
        add_declaration(alloc, text, naming, part, marks, statement, declaration)?;
    }
    Ok(())
}

fn add_declaration(
    alloc: Global,
    text: &mut Vec<u8>,
    naming: &Naming<'_>,
    part: &Part<'_>,
    marks: &Marks<'_>,
    statement: &Statement,
    declaration: &Declaration,
) -> Result<(), AllocError>
    ensures { OnOk result
        (text.new.items ≡ text.old.items
        ++ spec.declaration_text naming.now (filling marks.now) statement.now part.now declaration.now) }
{
    match declaration {
        Declaration::Sqlstate => add_filled(text, marks, part.sqlstate),
        Declaration::Sqlcode => add_filled(text, marks, part.sqlcode),
        Declaration::Parameter(name, data_type) => {
            let kind = kind_of(data_type);
            let template = part.template_of(kind, role_in(statement, *name));
            add_parameter(alloc, text, naming, marks, *name, kind, template)
        }
    }
}

/// Adds the template of a parameter.
fn add_parameter(
    alloc: Global,
    text: &mut Vec<u8>,
    naming: &Naming<'_>,
    marks: &Marks<'_>,
    name: Name,
    kind: Kind,
    template: &str,
) -> Result<(), AllocError>
    ensures { OnOk result
        (text.new.items ≡ text.old.items
        ++ spec.parameter_text naming.now (filling marks.now) name kind template.now) }
{
    let host_name = name_in(alloc, naming, name)?;
    let picture = picture_of(alloc, kind)?;
    let size = digits_of(alloc, size_of(kind))?;
    let scale = digits_of(alloc, scale_of(kind))?;
    let own = Marks {
        parameter: name.codes(),
        parameter_name: host_name.as_slice(),
        picture: picture.as_slice(),
        size: size.as_slice(),
        scale: scale.as_slice(),
        ..*marks
    };
    add_filled(text, &own, template)
}

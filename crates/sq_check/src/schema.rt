//! The remarks on the views of schemas (ISO/IEC 9075:1992, 11.19).

ghost use Rattle.std.specs.Prelude.{◌≡◌, ◌++◌, IfOk, OnOk, map};
ghost use Rattle.sq_catalog.specs.Catalog.{known};
ghost use Rattle.sq_check.specs.Remark as spec;
ghost use Rattle.sq_check.specs.Schemas.{marks_at, schema_marks, text_marks};

use crate::mark::Mark;
use crate::remark::Remark;
use crate::rule::query_rule;
use sq_bound::Names;
use sq_catalog::Catalog;
use sq_items::Items;
use sq_lex::Name;
use sq_spell::token_count;
use sq_tree::{SchemaDefinition, SchemaElement, SchemaText, ViewDefinition};
use std::alloc::{AllocError, Global};

/// `CREATE SCHEMA AUTHORIZATION name`.
const HEAD_TOKENS: usize = 4;

/// The remarks on the views of each text.
pub fn check_schemas(
    alloc: Global,
    catalog: &Catalog,
    schemas: &[SchemaText],
) -> Result<Vec<Items<Mark>>, AllocError>
    ensures { IfOk result (λ marks. marks.items ≡ map (text_marks (known catalog.now)) schemas.now) }
{
    let mut marks = Vec::new(alloc);
    for text in schemas {
        marks.push(views_of(alloc, catalog, text)?)?;
    }
    Ok(marks)
}

/// The remarks on the views of a text, which is walked through once: each schema begins after the tokens of the
/// one before it.
fn views_of(alloc: Global, catalog: &Catalog, text: &SchemaText) -> Result<Items<Mark>, AllocError>
    ensures { IfOk result (λ marks. marks ≡ text_marks (known catalog.now) text.now) }
{
    let mut marks = Items::new(alloc);
    add_views(alloc, catalog, 0, &text.first, &mut marks)?;
    let mut start = token_count(&text.first);
    for schema in text.rest.as_slice() {
        add_views(alloc, catalog, start, schema, &mut marks)?;
        start = start.saturating_add(token_count(schema));
    }
    Ok(marks)
}

/// Adds the views of a schema that begins at this token.
fn add_views(
    alloc: Global,
    catalog: &Catalog,
    start: usize,
    schema: &SchemaDefinition,
    marks: &mut Items<Mark>,
) -> Result<(), AllocError>
    ensures { OnOk result (marks.new ≡ marks.old ++ schema_marks (known catalog.now) start schema.now) }
{
    let mut token = start.saturating_add(HEAD_TOKENS);
    for element in schema.elements.as_slice() {
        add_view(alloc, catalog, schema.authorization, token, element, marks)?;
        token = token.saturating_add(token_count(element));
    }
    Ok(())
}

/// Adds an element of a user's schema, if it is a view, at its first token.
fn add_view(
    alloc: Global,
    catalog: &Catalog,
    user: Name,
    token: usize,
    element: &SchemaElement,
    marks: &mut Items<Mark>,
) -> Result<(), AllocError>
    ensures { OnOk result (marks.new ≡ marks.old ++ marks_at (known catalog.now) user token element.now) }
{
    match element {
        SchemaElement::View(view) => marks.push(Mark {
            token,
            owner: user,
            name: view.name.table,
            remark: Some(view_remark(alloc, catalog, user, view)?),
        }),
        SchemaElement::Table(_) | SchemaElement::Grant(_) => Ok(()),
    }
}

fn view_remark(
    alloc: Global,
    catalog: &Catalog,
    user: Name,
    view: &ViewDefinition,
) -> Result<Remark, AllocError>
    ensures { IfOk result
        (λ remark. remark ≡ spec.view_remark (known catalog.now user view.now.name.table) view.now.query) }
{
    if is_updatable(catalog, user, view.name.table) {
        return Ok(Remark::Updatable);
    }
    match query_rule(alloc, &view.query) {
        Ok(rule) => Ok(Remark::NotUpdatable(rule)),
        Err(error) => Err(error),
    }
}

/// Whether a table or view of this user and name may be changed.
fn is_updatable(catalog: &Catalog, user: Name, name: Name) -> bool
    ensures { result ≡ spec.is_updatable (known catalog.now user name) }
{
    match catalog.table(user, name) {
        Some(table) => table.leaf.is_some(),
        None => false,
    }
}

//! Schema texts, element by element (ISO/IEC 9075:1992, 11.1).

ghost use Rattle.std.specs.Prelude.{◌≡◌, IfErr, IfOk, OnOk, length};
ghost use Rattle.sq_meaning.specs.SchemaRefusal.{parts_of_schema, parts_of_text, schema_parts};
ghost use Rattle.sq_binding.specs.Declaring.{with_element, with_parts};
ghost use Rattle.sq_catalog.specs.Catalog.{Gains, declared_definitions, declared_tables, definition_in, known, schema_definitions, schema_tables, table_in, text_definitions, text_tables};
ghost use Rattle.sq_catalog.specs.Declares.{Declares};
ghost use Rattle.sq_catalog.specs.Exact.{Builds, IsCatalogOf, declared};
ghost use Rattle.sq_catalog.specs.Fault.{IsOfSomeText, IsOfText, Makes, placed};
ghost use Rattle.sq_catalog.specs.Views.{GainsViews, declared_views, schema_views, text_views, view_in};

use crate::catalog::Catalog;
use crate::fault::{CatalogFault, ElementFault, RefusalName, SchemaRefusal};
use sq_lex::Name;
use sq_tree::{SchemaDefinition, SchemaElement, SchemaText};
use std::alloc::Global;

impl Catalog {
    /// The catalog of schema texts, or the first refusal in the order of the texts, of their schema definitions, of their
    /// elements, and of `SchemaFault` within one element.
    pub fn build(alloc: Global, texts: &[SchemaText]) -> Result<Catalog, CatalogFault>
        ensures exact { IsCatalogOf texts.now result }
        ensures tables { IfOk result (λ c. c.tables ≡ declared_tables texts.now) }
        ensures declares { IfOk result (λ c. Declares texts.now (known c) c.bases c.views) }
        ensures refused { IfErr result (IsOfSomeText (length texts.now)) }
    {
        let mut catalog = Catalog::empty(alloc);
        match catalog.add_texts(texts) {
            Ok(()) => Ok(catalog),
            Err(fault) => {
                drop(catalog);
                Err(fault)
            }
        }
    }

    fn add_texts(&mut self, texts: &[SchemaText]) -> Result<(), CatalogFault>
        ensures tables { OnOk result
            (Gains self.old self.new (declared_tables texts.now) (declared_definitions texts.now)) }
        ensures views { OnOk result (GainsViews self.old self.new (declared_views texts.now)) }
        ensures refused { IfErr result (IsOfSomeText (length texts.now)) }
        ensures exact { Builds (with_parts (schema_parts texts.now) (declared self.old))
            (declared self.new) result }
    {
        for (number, text) in texts.iter().enumerate() {
            if let Err(fault) = self.add_text(number, text) {
                return Err(fault);
            }
        }
        Ok(())
    }

    fn add_text(&mut self, text: usize, tree: &SchemaText) -> Result<(), CatalogFault>
        ensures tables { OnOk result
            (Gains self.old self.new (text_tables tree.now) (text_definitions tree.now)) }
        ensures views { OnOk result (GainsViews self.old self.new (text_views tree.now)) }
        ensures refused { IfErr result (IsOfText text) }
        ensures exact { Builds
            (with_parts (parts_of_text (text, tree.now)) (declared self.old)) (declared self.new) result }
    {
        if let Err(fault) = self.add_schema(text, 0, &tree.first) {
            return Err(fault);
        }
        for (number, schema) in tree.rest.as_slice().iter().enumerate() {
            if let Err(fault) = self.add_schema(text, number + 1, schema) {
                return Err(fault);
            }
        }
        Ok(())
    }

    fn add_schema(
        &mut self,
        text: usize,
        schema: usize,
        definition: &SchemaDefinition,
    ) -> Result<(), CatalogFault>
        ensures tables { OnOk result
            (Gains self.old self.new (schema_tables definition.now) (schema_definitions definition.now)) }
        ensures views { OnOk result (GainsViews self.old self.new (schema_views definition.now)) }
        ensures refused { IfErr result (IsOfText text) }
        ensures exact { Builds
            (with_parts (parts_of_schema text (schema, definition.now)) (declared self.old))
            (declared self.new) result }
    {
        let user = definition.authorization;
        if let Err(fault) = self.add_user(user) {
            return Err(place_fault(fault, text, schema, None));
        }
        for (number, element) in definition.elements.as_slice().iter().enumerate() {
            if let Err(fault) = self.add_element(user, element) {
                return Err(place_fault(fault, text, schema, Some(number)));
            }
        }
        Ok(())
    }

    /// A schema element of a user.
    fn add_element(&mut self, user: Name, element: &SchemaElement) -> Result<(), ElementFault>
        ensures tables { OnOk result
            (Gains self.old self.new (table_in user element.now) (definition_in element.now)) }
        ensures views { OnOk result (GainsViews self.old self.new (view_in user element.now)) }
        ensures exact { Makes (λ _. declared self.new)
            (with_element (declared self.old) user element.now) result }
    {
        match element {
            SchemaElement::Table(table) => self.create_table(user, table),
            SchemaElement::View(view) => self.create_view(user, view),
            SchemaElement::Grant(grant) => self.grant(user, grant),
        }
    }
}

/// Adds to an element's fault where the element is.
fn place_fault(
    fault: ElementFault,
    text: usize,
    schema: usize,
    element: Option<usize>,
) -> CatalogFault
    ensures text { IsOfText text result }
    ensures fault { result ≡ placed fault text schema element }
{
    match fault {
        ElementFault::Refused(fault) => CatalogFault::Refused(SchemaRefusal {
            name: RefusalName { fault },
            text,
            schema,
            element,
        }),
        ElementFault::NoMemory => CatalogFault::NoMemory,
    }
}

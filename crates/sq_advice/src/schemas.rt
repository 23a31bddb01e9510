//! The schema texts of a request, and what they declare.

use crate::element::element_of;
use crate::kind::TextKind;
use crate::names::{NameKind, add_declared};
use crate::near::find_nearest;
use crate::source::Source;
use crate::table::{Table, add_tables};
use sq_lex::{Name, Token};
use std::alloc::{AllocError, Global};

/// Schema texts, with the tables, views and columns that they declare.
#[derive(Drop)]
pub struct Schemas<'t> {
    pub texts: Vec<Source<'t>>,
    tables: Vec<Table>,
    names: Vec<Name>,
    columns: Vec<Name>,
}

impl<'t> Schemas<'t> {
    /// The schemas of these texts.
    pub fn new(alloc: Global, texts: Vec<Source<'t>>) -> Result<Schemas<'t>, AllocError> {
        let mut tables = Vec::new(alloc);
        let mut columns = Vec::new(alloc);
        for (index, source) in texts.iter().enumerate() {
            add_tables(&mut tables, index, source.tokens.as_slice())?;
            add_declared(&mut columns, NameKind::Column, source.tokens.as_slice())?;
        }
        let names = names_of(alloc, tables.as_slice())?;
        Ok(Schemas {
            texts,
            tables,
            names,
            columns,
        })
    }

    /// The first table or view of a user with a name.
    pub(crate) fn table(&self, owner: Name, name: Name) -> Option<&Table> {
        self.tables
            .iter()
            .find(|table| table.owner == owner && table.name == name)
    }

    /// The tokens of the declaration of a table or a view.
    pub(crate) fn declaration(&self, table: &Table) -> &[Token] {
        match self.texts.get(table.text) {
            Some(source) => element_of(TextKind::Schema, source.tokens.as_slice(), table.first),
            None => &[],
        }
    }

    /// The table or view nearest to a name that none has.
    pub(crate) fn nearest_table(&self, name: Name) -> Option<Name> {
        find_nearest(self.names.as_slice(), name)
    }

    /// The column nearest to a name that none has.
    pub(crate) fn nearest_column(&self, name: Name) -> Option<Name> {
        find_nearest(self.columns.as_slice(), name)
    }

    /// Adds the place at which a table is declared, as it is said in a file. If its declaration has an error,
    /// it adds that, too.
    pub(crate) fn add_declared(
        &self,
        words: &mut Vec<u8>,
        alloc: Global,
        table: &Table,
        file: &str,
    ) -> Result<(), AllocError> {
        let Some(source) = self.texts.get(table.text) else {
            return Ok(());
        };
        let Some(token) = source.tokens.get(table.first) else {
            return Ok(());
        };
        words.extend_from_slice(table.name.codes())?;
        words.extend_from_slice(b" is declared at ")?;
        source.add_place(words, alloc, token.start, file)?;
        if source.is_passed(token.start) {
            words.extend_from_slice(b", with an error")?;
        }
        Ok(())
    }

    /// Whether the declaration of a table has an error.
    pub(crate) fn is_passed(&self, table: &Table) -> bool {
        match self.texts.get(table.text) {
            Some(source) => match source.tokens.get(table.first) {
                Some(token) => source.is_passed(token.start),
                None => false,
            },
            None => false,
        }
    }
}

fn names_of(alloc: Global, tables: &[Table]) -> Result<Vec<Name>, AllocError> {
    let mut names = Vec::new(alloc);
    for table in tables {
        names.push(table.name)?;
    }
    Ok(names)
}

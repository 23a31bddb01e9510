//! `sqmod new`: a folder with a schema, a module, a script and its report to begin with.
use crate::explain::status_of_print;
use crate::fault::FAILED;
use sq_words::NewRequest;
use std::fs::{self, File};
use std::io::{self, Write};
use std::rt::Files;

const SCHEMA: &str = "\
CREATE SCHEMA AUTHORIZATION ANN
CREATE TABLE BOOK (ID INTEGER NOT NULL PRIMARY KEY, TITLE VARCHAR(20))
";

const MODULE: &str = "\
MODULE M LANGUAGE C AUTHORIZATION ANN
DECLARE BOOKS CURSOR FOR SELECT ID, TITLE FROM BOOK ORDER BY ID
PROCEDURE PUT (SQLSTATE, :ID INTEGER, :T VARCHAR(20)); INSERT INTO BOOK VALUES (:ID, :T);
PROCEDURE OPEN_BOOKS (SQLSTATE); OPEN BOOKS;
PROCEDURE NEXT_BOOK (SQLSTATE, :ID INTEGER, :T VARCHAR(20)); FETCH BOOKS INTO :ID, :T;
PROCEDURE CLOSE_BOOKS (SQLSTATE); CLOSE BOOKS;
";

const SCRIPT: &str = "\
CALL M.PUT (2, 'EMMA');
CALL M.PUT (1, 'ULYSSES');
CALL M.PUT (1, 'PERSUASION'); -- the key is taken
CALL M.OPEN_BOOKS;
CALL M.NEXT_BOOK (*, *);
CALL M.NEXT_BOOK (*, *);
CALL M.NEXT_BOOK (*, *); -- no row is left
CALL M.CLOSE_BOOKS;
TABLE ANN.BOOK;
";

const REPORT: &str = "\
M.PUT 00000 0
M.PUT 00000 0
M.PUT 23000 -2300
M.OPEN_BOOKS 00000 0
M.NEXT_BOOK 00000 0 ID=1 T='ULYSSES'
M.NEXT_BOOK 00000 0 ID=2 T='EMMA'
M.NEXT_BOOK 02000 100
M.CLOSE_BOOKS 00000 0
TABLE ANN.BOOK 2
  2 'EMMA'
  1 'ULYSSES'
";

/// The files of a new folder, with their texts.
const FILES: [(&str, &str); 4] = [
    ("schema.sql", SCHEMA),
    ("module.sql", MODULE),
    ("script.txt", SCRIPT),
    ("report.txt", REPORT),
];

/// Writes a program to begin with into a folder, says how to run and test it, and gives the status to end with.
pub(crate) fn status_of_new<R: Files + Print + Eprint + AllocGlobal>(
    rt: &R,
    request: NewRequest<'_>,
) -> u8 {
    let folder = request.folder;
    match taken_name(rt, folder) {
        Ok(None) => match write_all(rt, folder) {
            Ok(()) => status_of_print(rt, say(rt, folder)),
            Err(_) => report_failure(rt, folder, "cannot be written"),
        },
        Ok(Some(name)) => {
            let _ = eprintln!(rt;
                "sqmod: {folder}/{name}: exists already, and nothing was written"
            );
            FAILED
        }
        Err(_) => report_failure(rt, folder, "cannot be read"),
    }
}

fn report_failure<R: Eprint>(rt: &R, folder: &str, why: &str) -> u8 {
    let _ = eprintln!(rt; "sqmod: {folder}: {why}");
    FAILED
}

/// The first file's name that a folder has already.
fn taken_name<R: Files + AllocGlobal>(rt: &R, folder: &str) -> io::Result<Option<&'static str>> {
    for (name, _) in FILES {
        let path = format!(in rt.alloc(); "{folder}/{name}")?;
        if rt.symlink_metadata(path.as_str()).is_ok() {
            return Ok(Some(name));
        }
    }
    Ok(None)
}

/// Makes the folder, if it does not exist, and writes the files.
fn write_all<R: Files + AllocGlobal>(rt: &R, folder: &str) -> io::Result<()> {
    fs::create_dir_all(rt, folder)?;
    for (name, text) in FILES {
        write_new(rt, folder, name, text)?;
    }
    Ok(())
}

/// Writes a file that does not exist yet.
fn write_new<R: Files + AllocGlobal>(
    rt: &R,
    folder: &str,
    name: &str,
    text: &str,
) -> io::Result<()> {
    let path = format!(in rt.alloc(); "{folder}/{name}")?;
    let mut file = File::create_new(rt, path.as_str())?;
    file.write_all(text.as_bytes())
}

/// Says what was written, and how to run, test and change it.
fn say<R: Print>(rt: &R, folder: &str) -> io::Result<()> {
    println!(rt; "{folder} has schema.sql, module.sql, script.txt and report.txt now. To run it:")?;
    println!(rt;
        "  sqmod run --schema {folder}/schema.sql --module {folder}/module.sql --script {folder}/script.txt"
    )?;
    println!(rt;
        "To compare the report with report.txt, and to take it as the wanted one after a change:"
    )?;
    println!(rt; "  sqmod test {folder}")?;
    println!(rt; "  sqmod test {folder} --update")
}

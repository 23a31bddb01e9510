//! What `explain` says, made by tools/make_statuses.py of crates/sq_cases/data/runs-statuses.txt.

use crate::explain::Entry;

/// The statuses, refusals and faults, in the order of docs/STATUSES.md.
pub(crate) static ENTRIES: [Entry; 62] = [
    Entry {
        name: "00000",
        status: Some("SuccessfulCompletion"),
        text: 0,
    },
    Entry {
        name: "01004",
        status: Some("TextTruncated"),
        text: 1,
    },
    Entry {
        name: "02000",
        status: Some("NoData"),
        text: 2,
    },
    Entry {
        name: "21000",
        status: Some("CardinalityViolation"),
        text: 3,
    },
    Entry {
        name: "22001",
        status: Some("TextTooLong"),
        text: 4,
    },
    Entry {
        name: "22002",
        status: Some("NullWithoutIndicator"),
        text: 5,
    },
    Entry {
        name: "22003",
        status: Some("NumericValueOutOfRange"),
        text: 6,
    },
    Entry {
        name: "22012",
        status: Some("DivisionByZero"),
        text: 7,
    },
    Entry {
        name: "22019",
        status: Some("InvalidEscapeCharacter"),
        text: 8,
    },
    Entry {
        name: "22025",
        status: Some("InvalidEscapeSequence"),
        text: 9,
    },
    Entry {
        name: "23000",
        status: Some("IntegrityConstraintViolation"),
        text: 10,
    },
    Entry {
        name: "24000",
        status: Some("InvalidCursorState"),
        text: 11,
    },
    Entry {
        name: "42000",
        status: Some("SyntaxErrorOrAccessRuleViolation"),
        text: 12,
    },
    Entry {
        name: "44000",
        status: Some("CheckOptionViolation"),
        text: 13,
    },
    Entry {
        name: "S1L00",
        status: Some("NoRowNumberLeft"),
        text: 14,
    },
    Entry {
        name: "BadByte",
        status: None,
        text: 15,
    },
    Entry {
        name: "OpenText",
        status: None,
        text: 16,
    },
    Entry {
        name: "LongName",
        status: None,
        text: 17,
    },
    Entry {
        name: "NumberThenLetter",
        status: None,
        text: 18,
    },
    Entry {
        name: "LongNumber",
        status: None,
        text: 19,
    },
    Entry {
        name: "LongText",
        status: None,
        text: 20,
    },
    Entry {
        name: "Unexpected",
        status: None,
        text: 21,
    },
    Entry {
        name: "EndOfText",
        status: None,
        text: 22,
    },
    Entry {
        name: "TooDeep",
        status: None,
        text: 23,
    },
    Entry {
        name: "NameTwice",
        status: None,
        text: 24,
    },
    Entry {
        name: "UnknownName",
        status: None,
        text: 25,
    },
    Entry {
        name: "BadType",
        status: None,
        text: 26,
    },
    Entry {
        name: "NullableKey",
        status: None,
        text: 27,
    },
    Entry {
        name: "BadKey",
        status: None,
        text: 28,
    },
    Entry {
        name: "BadReference",
        status: None,
        text: 29,
    },
    Entry {
        name: "BadCheck",
        status: None,
        text: 30,
    },
    Entry {
        name: "BadDefault",
        status: None,
        text: 31,
    },
    Entry {
        name: "BadView",
        status: None,
        text: 32,
    },
    Entry {
        name: "BadCheckOption",
        status: None,
        text: 33,
    },
    Entry {
        name: "PrivilegeMissing",
        status: None,
        text: 34,
    },
    Entry {
        name: "TooManyColumns",
        status: None,
        text: 35,
    },
    Entry {
        name: "OtherSchema",
        status: None,
        text: 36,
    },
    Entry {
        name: "TooManyTables",
        status: None,
        text: 37,
    },
    Entry {
        name: "TwoModules",
        status: None,
        text: 38,
    },
    Entry {
        name: "TwoProcedures",
        status: None,
        text: 39,
    },
    Entry {
        name: "TwoCursors",
        status: None,
        text: 40,
    },
    Entry {
        name: "OpenCount",
        status: None,
        text: 41,
    },
    Entry {
        name: "StatusParameter",
        status: None,
        text: 42,
    },
    Entry {
        name: "BadParameter",
        status: None,
        text: 43,
    },
    Entry {
        name: "UnknownProcedure",
        status: None,
        text: 44,
    },
    Entry {
        name: "UnknownTable",
        status: None,
        text: 45,
    },
    Entry {
        name: "BadArguments",
        status: None,
        text: 46,
    },
    Entry {
        name: "UnknownColumn",
        status: None,
        text: 47,
    },
    Entry {
        name: "AmbiguousName",
        status: None,
        text: 48,
    },
    Entry {
        name: "KindMismatch",
        status: None,
        text: 49,
    },
    Entry {
        name: "LimitExceeded",
        status: None,
        text: 50,
    },
    Entry {
        name: "MisplacedSetFunction",
        status: None,
        text: 51,
    },
    Entry {
        name: "UngroupedColumn",
        status: None,
        text: 52,
    },
    Entry {
        name: "CountMismatch",
        status: None,
        text: 53,
    },
    Entry {
        name: "BadSortKey",
        status: None,
        text: 54,
    },
    Entry {
        name: "UnknownParameter",
        status: None,
        text: 55,
    },
    Entry {
        name: "BadIndicator",
        status: None,
        text: 56,
    },
    Entry {
        name: "TargetTwice",
        status: None,
        text: 57,
    },
    Entry {
        name: "NotUpdatable",
        status: None,
        text: 58,
    },
    Entry {
        name: "ColumnTwice",
        status: None,
        text: 59,
    },
    Entry {
        name: "UnknownCursor",
        status: None,
        text: 60,
    },
    Entry {
        name: "BadOrientation",
        status: None,
        text: 61,
    },
];

/// The text with a number; none has a higher one than the table.
pub fn text_of(number: usize) -> &'static str {
    match number {
        0 => text_of_00000(),
        1 => text_of_01004(),
        2 => text_of_02000(),
        3 => text_of_21000(),
        4 => text_of_22001(),
        5 => text_of_22002(),
        6 => text_of_22003(),
        7 => text_of_22012(),
        8 => text_of_22019(),
        9 => text_of_22025(),
        10 => text_of_23000(),
        11 => text_of_24000(),
        12 => text_of_42000(),
        13 => text_of_44000(),
        14 => text_of_s1_l00(),
        15 => text_of_bad_byte(),
        16 => text_of_open_text(),
        17 => text_of_long_name(),
        18 => text_of_number_then_letter(),
        19 => text_of_long_number(),
        20 => text_of_long_text(),
        21 => text_of_unexpected(),
        22 => text_of_end_of_text(),
        23 => text_of_too_deep(),
        24 => text_of_name_twice(),
        25 => text_of_unknown_name(),
        26 => text_of_bad_type(),
        27 => text_of_nullable_key(),
        28 => text_of_bad_key(),
        29 => text_of_bad_reference(),
        30 => text_of_bad_check(),
        31 => text_of_bad_default(),
        32 => text_of_bad_view(),
        33 => text_of_bad_check_option(),
        34 => text_of_privilege_missing(),
        35 => text_of_too_many_columns(),
        36 => text_of_other_schema(),
        37 => text_of_too_many_tables(),
        38 => text_of_two_modules(),
        39 => text_of_two_procedures(),
        40 => text_of_two_cursors(),
        41 => text_of_open_count(),
        42 => text_of_status_parameter(),
        43 => text_of_bad_parameter(),
        44 => text_of_unknown_procedure(),
        45 => text_of_unknown_table(),
        46 => text_of_bad_arguments(),
        47 => text_of_unknown_column(),
        48 => text_of_ambiguous_name(),
        49 => text_of_kind_mismatch(),
        50 => text_of_limit_exceeded(),
        51 => text_of_misplaced_set_function(),
        52 => text_of_ungrouped_column(),
        53 => text_of_count_mismatch(),
        54 => text_of_bad_sort_key(),
        55 => text_of_unknown_parameter(),
        56 => text_of_bad_indicator(),
        57 => text_of_target_twice(),
        58 => text_of_not_updatable(),
        59 => text_of_column_twice(),
        60 => text_of_unknown_cursor(),
        61 => text_of_bad_orientation(),
        _ => "",
    }
}

fn text_of_00000() -> &'static str {
    "00000: The statement is done.

  -- schema
  CREATE SCHEMA AUTHORIZATION U CREATE TABLE D (A INTEGER, B CHAR(2))
  -- module
  MODULE M LANGUAGE C AUTHORIZATION U
  PROCEDURE P (SQLSTATE); INSERT INTO D VALUES (1, 'AB');
  -- script
  CALL M.P;

  M.P 00000 0
"
}

fn text_of_01004() -> &'static str {
    "01004: A text is cut to the length of its parameter.

  -- schema
  CREATE SCHEMA AUTHORIZATION U CREATE TABLE D (A INTEGER, B CHAR(2))
  -- module
  MODULE M LANGUAGE C AUTHORIZATION U
  PROCEDURE INS (SQLSTATE); INSERT INTO D VALUES (1, 'AB');
  PROCEDURE P (SQLSTATE, :B CHAR(1)); SELECT B INTO :B FROM D;
  -- script
  CALL M.INS; CALL M.P (*);

  M.INS 00000 0
  M.P 01004 0 B='A'
"
}

fn text_of_02000() -> &'static str {
    "02000: There is no row.

  -- schema
  CREATE SCHEMA AUTHORIZATION U CREATE TABLE D (A INTEGER, B CHAR(2))
  -- module
  MODULE M LANGUAGE C AUTHORIZATION U
  PROCEDURE P (SQLSTATE); DELETE FROM D;
  -- script
  CALL M.P;

  M.P 02000 100
"
}

fn text_of_21000() -> &'static str {
    "21000: A SELECT INTO or a subquery has more than one row.

  -- schema
  CREATE SCHEMA AUTHORIZATION U CREATE TABLE D (A INTEGER, B CHAR(2))
  -- module
  MODULE M LANGUAGE C AUTHORIZATION U
  PROCEDURE INS (SQLSTATE); INSERT INTO D VALUES (1, 'AB');
  PROCEDURE P (SQLSTATE, :A INTEGER); SELECT A INTO :A FROM D;
  -- script
  CALL M.INS; CALL M.INS; CALL M.P (*);

  M.INS 00000 0
  M.INS 00000 0
  M.P 21000 -2100
"
}

fn text_of_22001() -> &'static str {
    "22001: A text is too long for its column.

  -- schema
  CREATE SCHEMA AUTHORIZATION U CREATE TABLE D (A INTEGER, B CHAR(2))
  -- module
  MODULE M LANGUAGE C AUTHORIZATION U
  PROCEDURE P (SQLSTATE); INSERT INTO D VALUES (1, 'ABC');
  -- script
  CALL M.P;

  M.P 22001 -2201
"
}

fn text_of_22002() -> &'static str {
    "22002: A null is retrieved without an indicator.

  -- schema
  CREATE SCHEMA AUTHORIZATION U CREATE TABLE D (A INTEGER, B CHAR(2))
  -- module
  MODULE M LANGUAGE C AUTHORIZATION U
  PROCEDURE INS (SQLSTATE); INSERT INTO D VALUES (NULL, 'AB');
  PROCEDURE P (SQLSTATE, :A INTEGER); SELECT A INTO :A FROM D;
  -- script
  CALL M.INS; CALL M.P (*);

  M.INS 00000 0
  M.P 22002 -2202
"
}

fn text_of_22003() -> &'static str {
    "22003: A number is out of range.

  -- schema
  CREATE SCHEMA AUTHORIZATION U CREATE TABLE D (A INTEGER, B CHAR(2))
  -- module
  MODULE M LANGUAGE C AUTHORIZATION U
  PROCEDURE P (SQLSTATE); INSERT INTO D VALUES (2147483648, 'AB');
  -- script
  CALL M.P;

  M.P 22003 -2203
"
}

fn text_of_22012() -> &'static str {
    "22012: A number is divided by zero.

  -- schema
  CREATE SCHEMA AUTHORIZATION U CREATE TABLE D (A INTEGER, B CHAR(2))
  -- module
  MODULE M LANGUAGE C AUTHORIZATION U
  PROCEDURE P (SQLSTATE); INSERT INTO D VALUES (1 / 0, 'AB');
  -- script
  CALL M.P;

  M.P 22012 -2212
"
}

fn text_of_22019() -> &'static str {
    "22019: An escape character of LIKE is no single character.

  -- schema
  CREATE SCHEMA AUTHORIZATION U CREATE TABLE D (A INTEGER, B CHAR(2))
  -- module
  MODULE M LANGUAGE C AUTHORIZATION U
  PROCEDURE INS (SQLSTATE); INSERT INTO D VALUES (1, 'AB');
  PROCEDURE P (SQLSTATE); DELETE FROM D WHERE B LIKE 'A' ESCAPE '!!';
  -- script
  CALL M.INS; CALL M.P;

  M.INS 00000 0
  M.P 22019 -2219
"
}

fn text_of_22025() -> &'static str {
    "22025: An escape character of LIKE escapes nothing.

  -- schema
  CREATE SCHEMA AUTHORIZATION U CREATE TABLE D (A INTEGER, B CHAR(2))
  -- module
  MODULE M LANGUAGE C AUTHORIZATION U
  PROCEDURE INS (SQLSTATE); INSERT INTO D VALUES (1, 'AB');
  PROCEDURE P (SQLSTATE); DELETE FROM D WHERE B LIKE '!A' ESCAPE '!';
  -- script
  CALL M.INS; CALL M.P;

  M.INS 00000 0
  M.P 22025 -2225
"
}

fn text_of_23000() -> &'static str {
    "23000: A constraint would not hold.

  -- schema
  CREATE SCHEMA AUTHORIZATION U CREATE TABLE D (A INTEGER NOT NULL)
  -- module
  MODULE M LANGUAGE C AUTHORIZATION U
  PROCEDURE P (SQLSTATE); INSERT INTO D VALUES (NULL);
  -- script
  CALL M.P;

  M.P 23000 -2300
"
}

fn text_of_24000() -> &'static str {
    "24000: The cursor is closed, or on OPEN open, or on no row.

  -- schema
  CREATE SCHEMA AUTHORIZATION U CREATE TABLE D (A INTEGER, B CHAR(2))
  -- module
  MODULE M LANGUAGE C AUTHORIZATION U
  DECLARE X CURSOR FOR SELECT A FROM D
  PROCEDURE OPX (SQLSTATE); OPEN X;
  PROCEDURE P (SQLSTATE); CLOSE X;
  -- script
  CALL M.P;

  M.P 24000 -2400
"
}

fn text_of_42000() -> &'static str {
    "42000: The procedure's statement is not well formed.

  -- schema
  CREATE SCHEMA AUTHORIZATION U CREATE TABLE D (A INTEGER, B CHAR(2))
  -- module
  MODULE M LANGUAGE C AUTHORIZATION U
  PROCEDURE P (SQLSTATE); DELETE FROM E;
  -- script
  CALL M.P;

  M.P 42000 -4200
"
}

fn text_of_44000() -> &'static str {
    "44000: A row would not meet a view's check option.

  -- schema
  CREATE SCHEMA AUTHORIZATION U CREATE TABLE D (A INTEGER)
  CREATE VIEW V AS SELECT A FROM D WHERE A > 0 WITH CHECK OPTION
  -- module
  MODULE M LANGUAGE C AUTHORIZATION U
  PROCEDURE P (SQLSTATE); INSERT INTO V VALUES (0);
  -- script
  CALL M.P;

  M.P 44000 -4400
"
}

fn text_of_s1_l00() -> &'static str {
    "S1L00: No row number is left.

  -- run with --rows 1
  -- schema
  CREATE SCHEMA AUTHORIZATION U CREATE TABLE D (A INTEGER, B CHAR(2))
  -- module
  MODULE M LANGUAGE C AUTHORIZATION U
  PROCEDURE INS (SQLSTATE); INSERT INTO D VALUES (1, 'AB');
  -- script
  CALL M.INS; CALL M.INS;

  M.INS 00000 0
  M.INS S1L00 -9001
"
}

fn text_of_bad_byte() -> &'static str {
    "BadByte: A byte begins no token. Leave the byte out, or write a character that a text may have.

  -- schema
  CREATE SCHEMA AUTHORIZATION U !

On standard error, with the file's name:

  sqmod: schema:1:31: BadByte
"
}

fn text_of_open_text() -> &'static str {
    "OpenText: A literal is not closed on its line. Close it by a quote; one inside a literal is written twice.

  -- schema
  CREATE SCHEMA AUTHORIZATION U CREATE TABLE D (A CHAR DEFAULT 'A)

On standard error, with the file's name:

  sqmod: schema:1:62: OpenText
"
}

fn text_of_long_name() -> &'static str {
    "LongName: A name has more than 18 characters. Shorten it wherever it stands.

  -- schema
  CREATE SCHEMA AUTHORIZATION U CREATE TABLE ABCDEFGHIJKLMNOPQRS (A INTEGER)

On standard error, with the file's name:

  sqmod: schema:1:44: LongName
"
}

fn text_of_number_then_letter() -> &'static str {
    "NumberThenLetter: A letter stands behind a number. Put a blank between them; there are no exponents.

  -- schema
  CREATE SCHEMA AUTHORIZATION U CREATE TABLE D (A CHAR(2X))

On standard error, with the file's name:

  sqmod: schema:1:54: NumberThenLetter
"
}

fn text_of_long_number() -> &'static str {
    "LongNumber: A number has more than 18 digits. Write fewer digits; leading zeros count.

  -- schema
  CREATE SCHEMA AUTHORIZATION U CREATE TABLE D (A INTEGER DEFAULT 1234567890123456789)

On standard error, with the file's name:

  sqmod: schema:1:65: LongNumber
"
}

fn text_of_long_text() -> &'static str {
    "LongText: A literal has more than 240 characters. Write a shorter one.

  -- schema
  CREATE SCHEMA AUTHORIZATION U CREATE TABLE D (A CHAR DEFAULT 'AAAAAAAAAAAAAAAAAAAAAAAAAAAAAAAAAAAAAAAAAAAAAAAAAAAAAAAAAAAAAAAAAAAAAAAAAAAAAAAAAAAAAAAAAAAAAAAAAAAAAAAAAAAAAAAAAAAAAAAAAAAAAAAAAAAAAAAAAAAAAAAAAAAAAAAAAAAAAAAAAAAAAAAAAAAAAAAAAAAAAAAAAAAAAAAAAAAAAAAAAAAAAAAAAAAAAAAAAAAAAAAAAAAAAAAAAAAAAAAAA')

On standard error, with the file's name:

  sqmod: schema:1:62: LongText
"
}

fn text_of_unexpected() -> &'static str {
    "Unexpected: A token cannot follow those before it. Compare what stands before it with the grammar, in LANGUAGE.md.

  -- schema
  CREATE SCHEMA AUTHORIZATION U CREATE D

On standard error, with the file's name:

  sqmod: schema:1:38: Unexpected
"
}

fn text_of_end_of_text() -> &'static str {
    "EndOfText: The text ends where more must follow. Look for a bracket, a quote or a semicolon that is missing.

  -- schema
  CREATE SCHEMA AUTHORIZATION U CREATE TABLE

On standard error, with the file's name:

  sqmod: schema:1:38: EndOfText
"
}

fn text_of_too_deep() -> &'static str {
    "TooDeep: More than 32 brackets are open. Leave out those that change nothing, or move a subquery to a view.

  -- schema
  CREATE SCHEMA AUTHORIZATION U CREATE TABLE D (CHECK ((((((((((((((((((((((((((((((((A = 1)))))))))))))))))))))))))))))))))

On standard error, with the file's name:

  sqmod: schema:1:84: TooDeep
"
}

fn text_of_name_twice() -> &'static str {
    "NameTwice of a schema: A table, view or column name is used again. Name it otherwise; a user has one schema.

  -- schema
  CREATE SCHEMA AUTHORIZATION U CREATE TABLE D (A INTEGER, A INTEGER)

On standard error, with the file's name:

  sqmod: schema:1:31: NameTwice
"
}

fn text_of_unknown_name() -> &'static str {
    "UnknownName of a schema: A key, reference or grant names what is not there. Create the table before what refers to it, or correct the name.

  -- schema
  CREATE SCHEMA AUTHORIZATION U CREATE TABLE D (A INTEGER, UNIQUE (B))

On standard error, with the file's name:

  sqmod: schema:1:31: UnknownName
"
}

fn text_of_bad_type() -> &'static str {
    "BadType of a schema: A precision, scale or length is out of range. A number has 1 to 18 digits, and a text 1 to 240 characters.

  -- schema
  CREATE SCHEMA AUTHORIZATION U CREATE TABLE D (A CHAR(0))

On standard error, with the file's name:

  sqmod: schema:1:31: BadType
"
}

fn text_of_nullable_key() -> &'static str {
    "NullableKey of a schema: A key column is not declared NOT NULL. Declare each column of the key NOT NULL.

  -- schema
  CREATE SCHEMA AUTHORIZATION U CREATE TABLE D (A INTEGER UNIQUE)

On standard error, with the file's name:

  sqmod: schema:1:31: NullableKey
"
}

fn text_of_bad_key() -> &'static str {
    "BadKey of a schema: A second primary key, a column twice in a key, or more than 6 columns. Keep one primary key, and name at most 6 columns in a key, each once.

  -- schema
  CREATE SCHEMA AUTHORIZATION U CREATE TABLE D (A INTEGER NOT NULL, UNIQUE (A, A))

On standard error, with the file's name:

  sqmod: schema:1:31: BadKey
"
}

fn text_of_bad_reference() -> &'static str {
    "BadReference of a schema: A reference is to no key of a table, or its columns do not fit. Name the columns of a PRIMARY KEY or UNIQUE of the other table, in its order and of the same types.

  -- schema
  CREATE SCHEMA AUTHORIZATION U CREATE TABLE D (A INTEGER REFERENCES D)

On standard error, with the file's name:

  sqmod: schema:1:31: BadReference
"
}

fn text_of_bad_check() -> &'static str {
    "BadCheck of a schema: A CHECK condition is not well formed, or has a subquery or USER. Compare columns of the row, constants and literals; a reference or a view says more.

  -- schema
  CREATE SCHEMA AUTHORIZATION U CREATE TABLE D (A INTEGER CHECK (USER = 'X'))

On standard error, with the file's name:

  sqmod: schema:1:31: BadCheck
"
}

fn text_of_bad_default() -> &'static str {
    "BadDefault of a schema: A default does not fit its column. Write a literal that the column can hold.

  -- schema
  CREATE SCHEMA AUTHORIZATION U CREATE TABLE D (A INTEGER DEFAULT 'X')

On standard error, with the file's name:

  sqmod: schema:1:31: BadDefault
"
}

fn text_of_bad_view() -> &'static str {
    "BadView of a schema: A view's query is not well formed, or its columns have no names. Correct the query, and name the view's columns in a list after its name.

  -- schema
  CREATE SCHEMA AUTHORIZATION U CREATE TABLE D (A INTEGER)
  CREATE VIEW V AS SELECT 1 FROM D

On standard error, with the file's name:

  sqmod: schema:2:1: BadView
"
}

fn text_of_bad_check_option() -> &'static str {
    "BadCheckOption of a schema: WITH CHECK OPTION on a view that is not updatable. Leave WITH CHECK OPTION out, or make the view updatable.

  -- schema
  CREATE SCHEMA AUTHORIZATION U CREATE TABLE D (A INTEGER)
  CREATE VIEW V AS SELECT DISTINCT A FROM D WITH CHECK OPTION

On standard error, with the file's name:

  sqmod: schema:2:1: BadCheckOption
"
}

fn text_of_privilege_missing() -> &'static str {
    "PrivilegeMissing of a schema: The schema's user lacks a privilege. The owner grants it in an earlier schema, WITH GRANT OPTION if it is granted on.

  -- schema
  CREATE SCHEMA AUTHORIZATION U CREATE TABLE D (A INTEGER)
  CREATE SCHEMA AUTHORIZATION W CREATE VIEW V AS SELECT A FROM U.D

On standard error, with the file's name:

  sqmod: schema:2:31: PrivilegeMissing

PrivilegeMissing of a statement: The module's user lacks a privilege. The owner grants it in the schema text.

  -- schema
  CREATE SCHEMA AUTHORIZATION U
  CREATE TABLE D (A INTEGER, B CHAR(2))
  CREATE VIEW V AS SELECT DISTINCT A FROM D
  -- module
  MODULE M LANGUAGE C AUTHORIZATION W
  PROCEDURE P (SQLSTATE); DELETE FROM U.D;
  -- script
  CALL M.P;

  M.P 42000 -4200
"
}

fn text_of_too_many_columns() -> &'static str {
    "TooManyColumns of a schema: A table has more than 64 columns. Divide it into tables with one key.

  -- schema
  CREATE SCHEMA AUTHORIZATION U CREATE TABLE D (A0 INT, A1 INT, A2 INT, A3 INT, A4 INT, A5 INT, A6 INT, A7 INT, A8 INT, A9 INT, A10 INT, A11 INT, A12 INT, A13 INT, A14 INT, A15 INT, A16 INT, A17 INT, A18 INT, A19 INT, A20 INT, A21 INT, A22 INT, A23 INT, A24 INT, A25 INT, A26 INT, A27 INT, A28 INT, A29 INT, A30 INT, A31 INT, A32 INT, A33 INT, A34 INT, A35 INT, A36 INT, A37 INT, A38 INT, A39 INT, A40 INT, A41 INT, A42 INT, A43 INT, A44 INT, A45 INT, A46 INT, A47 INT, A48 INT, A49 INT, A50 INT, A51 INT, A52 INT, A53 INT, A54 INT, A55 INT, A56 INT, A57 INT, A58 INT, A59 INT, A60 INT, A61 INT, A62 INT, A63 INT, A64 INT)

On standard error, with the file's name:

  sqmod: schema:1:31: TooManyColumns
"
}

fn text_of_other_schema() -> &'static str {
    "OtherSchema of a schema: An element is created under another user's name, or a grant names a column twice. Create it in that user's schema, and name each column once.

  -- schema
  CREATE SCHEMA AUTHORIZATION U CREATE TABLE W.D (A INTEGER)

On standard error, with the file's name:

  sqmod: schema:1:31: OtherSchema
"
}

fn text_of_too_many_tables() -> &'static str {
    "TooManyTables of a schema: There are more than 1000 tables and views. Leave some out.

  -- schema
  -- printed by this command:
  printf '%s\\n' 'CREATE SCHEMA AUTHORIZATION U '; seq -f 'CREATE TABLE T%.0f (A INT)' 0 1000

On standard error, with the file's name:

  sqmod: schema:1002:1: TooManyTables
"
}

fn text_of_two_modules() -> &'static str {
    "TwoModules of a module: A module has the name of an earlier one. Name it otherwise.

  -- schema
  CREATE SCHEMA AUTHORIZATION U CREATE TABLE D (A INTEGER)
  -- module
  MODULE M LANGUAGE C AUTHORIZATION U
  -- module
  MODULE M LANGUAGE C AUTHORIZATION U

On standard error, with the file's name:

  sqmod: module:1:1: TwoModules
"
}

fn text_of_two_procedures() -> &'static str {
    "TwoProcedures of a module: Two procedures have one name. Name one of them otherwise.

  -- schema
  CREATE SCHEMA AUTHORIZATION U CREATE TABLE D (A INTEGER)
  -- module
  MODULE M LANGUAGE C AUTHORIZATION U
  PROCEDURE P (SQLSTATE); COMMIT;
  PROCEDURE P (SQLSTATE); COMMIT;

On standard error, with the file's name:

  sqmod: module:3:1: TwoProcedures
"
}

fn text_of_two_cursors() -> &'static str {
    "TwoCursors of a module: Two cursors have one name. Name one of them otherwise.

  -- schema
  CREATE SCHEMA AUTHORIZATION U CREATE TABLE D (A INTEGER)
  -- module
  MODULE M LANGUAGE C AUTHORIZATION U
  DECLARE X CURSOR FOR SELECT A FROM D
  DECLARE X CURSOR FOR SELECT A FROM D
  PROCEDURE P (SQLSTATE); OPEN X;

On standard error, with the file's name:

  sqmod: module:3:1: TwoCursors
"
}

fn text_of_open_count() -> &'static str {
    "OpenCount of a module: A cursor is not opened by exactly one procedure. Write one procedure with OPEN for each cursor.

  -- schema
  CREATE SCHEMA AUTHORIZATION U CREATE TABLE D (A INTEGER)
  -- module
  MODULE M LANGUAGE C AUTHORIZATION U
  DECLARE X CURSOR FOR SELECT A FROM D

On standard error, with the file's name:

  sqmod: module:2:1: OpenCount
"
}

fn text_of_status_parameter() -> &'static str {
    "StatusParameter of a module: A procedure has no status parameter, or one twice. Write SQLSTATE, SQLCODE or both, each once.

  -- schema
  CREATE SCHEMA AUTHORIZATION U CREATE TABLE D (A INTEGER)
  -- module
  MODULE M LANGUAGE C AUTHORIZATION U
  PROCEDURE P (:A INTEGER); COMMIT;

On standard error, with the file's name:

  sqmod: module:2:1: StatusParameter
"
}

fn text_of_bad_parameter() -> &'static str {
    "BadParameter of a module: A parameter is declared twice, has a bad type, or is one of more than 64. Declare each once; a number has 1 to 18 digits, and a text 1 to 240 characters.

  -- schema
  CREATE SCHEMA AUTHORIZATION U CREATE TABLE D (A INTEGER)
  -- module
  MODULE M LANGUAGE C AUTHORIZATION U
  PROCEDURE P (SQLSTATE, :A INTEGER, :A INTEGER); COMMIT;

On standard error, with the file's name:

  sqmod: module:2:1: BadParameter
"
}

fn text_of_unknown_procedure() -> &'static str {
    "UnknownProcedure of a script: A call names no procedure. Name the module and the procedure, as MODULE.PROCEDURE.

  -- schema
  CREATE SCHEMA AUTHORIZATION U CREATE TABLE D (A INTEGER)
  -- module
  MODULE M LANGUAGE C AUTHORIZATION U
  PROCEDURE P (SQLSTATE, :A INTEGER); INSERT INTO D VALUES (:A);
  -- script
  CALL M.Q;

On standard error, with the file's name:

  sqmod: script:1:1: UnknownProcedure
"
}

fn text_of_unknown_table() -> &'static str {
    "UnknownTable of a script: TABLE names no base table. Name the user and the table, as USER.TABLE; views are not shown.

  -- schema
  CREATE SCHEMA AUTHORIZATION U CREATE TABLE D (A INTEGER)
  -- module
  MODULE M LANGUAGE C AUTHORIZATION U
  PROCEDURE P (SQLSTATE, :A INTEGER); INSERT INTO D VALUES (:A);
  -- script
  TABLE U.E;

On standard error, with the file's name:

  sqmod: script:1:1: UnknownTable

UnknownTable of a statement: No table or view has this name. Correct it; a table of another user is USER.TABLE.

  -- schema
  CREATE SCHEMA AUTHORIZATION U
  CREATE TABLE D (A INTEGER, B CHAR(2))
  CREATE VIEW V AS SELECT DISTINCT A FROM D
  -- module
  MODULE M LANGUAGE C AUTHORIZATION U
  PROCEDURE P (SQLSTATE); DELETE FROM E;
  -- script
  CALL M.P;

  M.P 42000 -4200
"
}

fn text_of_bad_arguments() -> &'static str {
    "BadArguments of a script: The values of a call do not fit the parameters. Write one value for each named parameter, in their order, that it can hold; `*` stands for none.

  -- schema
  CREATE SCHEMA AUTHORIZATION U CREATE TABLE D (A INTEGER)
  -- module
  MODULE M LANGUAGE C AUTHORIZATION U
  PROCEDURE P (SQLSTATE, :A INTEGER); INSERT INTO D VALUES (:A);
  -- script
  CALL M.P ('A');

On standard error, with the file's name:

  sqmod: script:1:1: BadArguments
"
}

fn text_of_unknown_column() -> &'static str {
    "UnknownColumn of a statement: No table in scope has the column. Correct it; a parameter stands with its colon.

  -- schema
  CREATE SCHEMA AUTHORIZATION U
  CREATE TABLE D (A INTEGER, B CHAR(2))
  CREATE VIEW V AS SELECT DISTINCT A FROM D
  -- module
  MODULE M LANGUAGE C AUTHORIZATION U
  PROCEDURE P (SQLSTATE); DELETE FROM D WHERE C = 1;
  -- script
  CALL M.P;

  M.P 42000 -4200
"
}

fn text_of_ambiguous_name() -> &'static str {
    "AmbiguousName of a statement: A name fits two tables of one FROM clause. Put the table's name before it, or name the table otherwise in FROM.

  -- schema
  CREATE SCHEMA AUTHORIZATION U
  CREATE TABLE D (A INTEGER, B CHAR(2))
  CREATE VIEW V AS SELECT DISTINCT A FROM D
  -- module
  MODULE M LANGUAGE C AUTHORIZATION U
  PROCEDURE P (SQLSTATE); DELETE FROM D WHERE EXISTS (SELECT A FROM D, D);
  -- script
  CALL M.P;

  M.P 42000 -4200
"
}

fn text_of_kind_mismatch() -> &'static str {
    "KindMismatch of a statement: A number where a text must stand, or the reverse. Nothing converts one to the other: use a column or a parameter of the same kind.

  -- schema
  CREATE SCHEMA AUTHORIZATION U
  CREATE TABLE D (A INTEGER, B CHAR(2))
  CREATE VIEW V AS SELECT DISTINCT A FROM D
  -- module
  MODULE M LANGUAGE C AUTHORIZATION U
  PROCEDURE P (SQLSTATE); DELETE FROM D WHERE B > 1;
  -- script
  CALL M.P;

  M.P 42000 -4200
"
}

fn text_of_limit_exceeded() -> &'static str {
    "LimitExceeded of a statement: Too many digits behind the point, columns or FROM items. A result has at most 18 digits behind the point and 64 columns, and FROM at most 16 items.

  -- schema
  CREATE SCHEMA AUTHORIZATION U
  CREATE TABLE D (A INTEGER, B CHAR(2))
  CREATE VIEW V AS SELECT DISTINCT A FROM D
  -- module
  MODULE M LANGUAGE C AUTHORIZATION U
  PROCEDURE P (SQLSTATE); DELETE FROM D WHERE 0.0000000001 * 0.000000001 = A;
  -- script
  CALL M.P;

  M.P 42000 -4200
"
}

fn text_of_misplaced_set_function() -> &'static str {
    "MisplacedSetFunction of a statement: A set function may not stand here. It stands in a select list or in HAVING, and none inside another; a subquery compares it.

  -- schema
  CREATE SCHEMA AUTHORIZATION U
  CREATE TABLE D (A INTEGER, B CHAR(2))
  CREATE VIEW V AS SELECT DISTINCT A FROM D
  -- module
  MODULE M LANGUAGE C AUTHORIZATION U
  PROCEDURE P (SQLSTATE); DELETE FROM D WHERE COUNT(*) > 0;
  -- script
  CALL M.P;

  M.P 42000 -4200
"
}

fn text_of_ungrouped_column() -> &'static str {
    "UngroupedColumn of a statement: A column of a grouped query is no grouping column. Name it in GROUP BY, or put it in a set function.

  -- schema
  CREATE SCHEMA AUTHORIZATION U
  CREATE TABLE D (A INTEGER, B CHAR(2))
  CREATE VIEW V AS SELECT DISTINCT A FROM D
  -- module
  MODULE M LANGUAGE C AUTHORIZATION U
  PROCEDURE P (SQLSTATE, :A INTEGER, :N INTEGER); SELECT A, COUNT(*) INTO :A, :N FROM D;
  -- script
  CALL M.P (*, *);

  M.P 42000 -4200
"
}

fn text_of_count_mismatch() -> &'static str {
    "CountMismatch of a statement: Two numbers of columns differ. Write as many values or targets as there are columns.

  -- schema
  CREATE SCHEMA AUTHORIZATION U
  CREATE TABLE D (A INTEGER, B CHAR(2))
  CREATE VIEW V AS SELECT DISTINCT A FROM D
  -- module
  MODULE M LANGUAGE C AUTHORIZATION U
  PROCEDURE P (SQLSTATE); INSERT INTO D VALUES (1);
  -- script
  CALL M.P;

  M.P 42000 -4200
"
}

fn text_of_bad_sort_key() -> &'static str {
    "BadSortKey of a statement: ORDER BY names no result column. Add the column to the select list, or sort by its number.

  -- schema
  CREATE SCHEMA AUTHORIZATION U
  CREATE TABLE D (A INTEGER, B CHAR(2))
  CREATE VIEW V AS SELECT DISTINCT A FROM D
  -- module
  MODULE M LANGUAGE C AUTHORIZATION U
  DECLARE X CURSOR FOR SELECT A FROM D ORDER BY 2
  PROCEDURE P (SQLSTATE); OPEN X;
  -- script
  CALL M.P;

  M.P 42000 -4200
"
}

fn text_of_unknown_parameter() -> &'static str {
    "UnknownParameter of a statement: The procedure has no such parameter. Declare it, or correct its name.

  -- schema
  CREATE SCHEMA AUTHORIZATION U
  CREATE TABLE D (A INTEGER, B CHAR(2))
  CREATE VIEW V AS SELECT DISTINCT A FROM D
  -- module
  MODULE M LANGUAGE C AUTHORIZATION U
  PROCEDURE P (SQLSTATE); DELETE FROM D WHERE A = :Z;
  -- script
  CALL M.P;

  M.P 42000 -4200
"
}

fn text_of_bad_indicator() -> &'static str {
    "BadIndicator of a statement: The indicator parameter has a type that cannot count. Declare it SMALLINT or INTEGER.

  -- schema
  CREATE SCHEMA AUTHORIZATION U
  CREATE TABLE D (A INTEGER, B CHAR(2))
  CREATE VIEW V AS SELECT DISTINCT A FROM D
  -- module
  MODULE M LANGUAGE C AUTHORIZATION U
  PROCEDURE P (SQLSTATE, :A INTEGER, :I CHAR(2)); INSERT INTO D VALUES (:A :I, 'A');
  -- script
  CALL M.P (1, 'A');

  M.P 42000 -4200
"
}

fn text_of_target_twice() -> &'static str {
    "TargetTwice of a statement: A parameter is set twice. Declare a parameter for each.

  -- schema
  CREATE SCHEMA AUTHORIZATION U
  CREATE TABLE D (A INTEGER, B CHAR(2))
  CREATE VIEW V AS SELECT DISTINCT A FROM D
  -- module
  MODULE M LANGUAGE C AUTHORIZATION U
  PROCEDURE P (SQLSTATE, :A INTEGER); SELECT A, A INTO :A, :A FROM D;
  -- script
  CALL M.P (*);

  M.P 42000 -4200
"
}

fn text_of_not_updatable() -> &'static str {
    "NotUpdatable of a statement: The table or the cursor cannot be changed. Change its table; `sqmod check` says why a view or a cursor can't be changed.

  -- schema
  CREATE SCHEMA AUTHORIZATION U
  CREATE TABLE D (A INTEGER, B CHAR(2))
  CREATE VIEW V AS SELECT DISTINCT A FROM D
  -- module
  MODULE M LANGUAGE C AUTHORIZATION U
  PROCEDURE P (SQLSTATE); DELETE FROM V;
  -- script
  CALL M.P;

  M.P 42000 -4200
"
}

fn text_of_column_twice() -> &'static str {
    "ColumnTwice of a statement: A column is set twice. Name it once.

  -- schema
  CREATE SCHEMA AUTHORIZATION U
  CREATE TABLE D (A INTEGER, B CHAR(2))
  CREATE VIEW V AS SELECT DISTINCT A FROM D
  -- module
  MODULE M LANGUAGE C AUTHORIZATION U
  PROCEDURE P (SQLSTATE); UPDATE D SET A = 1, A = 2;
  -- script
  CALL M.P;

  M.P 42000 -4200
"
}

fn text_of_unknown_cursor() -> &'static str {
    "UnknownCursor of a statement: The module has no such cursor, or its query has a fault. Declare it, or mend its query.

  -- schema
  CREATE SCHEMA AUTHORIZATION U
  CREATE TABLE D (A INTEGER, B CHAR(2))
  CREATE VIEW V AS SELECT DISTINCT A FROM D
  -- module
  MODULE M LANGUAGE C AUTHORIZATION U
  PROCEDURE P (SQLSTATE); CLOSE X;
  -- script
  CALL M.P;

  M.P 42000 -4200
"
}

fn text_of_bad_orientation() -> &'static str {
    "BadOrientation of a statement: The cursor does not scroll, or the distance is no whole number. Declare the cursor with SCROLL, and write a whole number.

  -- schema
  CREATE SCHEMA AUTHORIZATION U
  CREATE TABLE D (A INTEGER, B CHAR(2))
  CREATE VIEW V AS SELECT DISTINCT A FROM D
  -- module
  MODULE M LANGUAGE C AUTHORIZATION U
  DECLARE X CURSOR FOR SELECT A FROM D
  PROCEDURE OPX (SQLSTATE); OPEN X;
  PROCEDURE P (SQLSTATE, :A INTEGER); FETCH PRIOR FROM X INTO :A;
  -- script
  CALL M.P (*);

  M.P 42000 -4200
"
}

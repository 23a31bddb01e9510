//! The templates of a copybook for COBOL. Each line is within columns 8 to 72, so that it is read in the
//! fixed and in the free format. The copybook is copied twice: the first time it gives the storage, the
//! second time the paragraphs.

use crate::language::{NOTHING, Part, Pass, Uses};
use std::alloc::{AllocError, Global};

/// The text before the storage of a module: the storage that all modules share, unless it exists already.
const STORAGE_START: &str = "      *> Made by sqmod bind-cobol. Copy it in WORKING-STORAGE,
      *> where it is the storage, and once more at the end of the
      *> PROCEDURE DIVISION, where it is a paragraph for each procedure.
       >>IF BOUND-! IS NOT DEFINED
       >>DEFINE BOUND-! AS 1
       >>IF SQMOD-STORAGE IS NOT DEFINED
       >>DEFINE SQMOD-STORAGE AS 1
       01 SQMOD-SESSION USAGE POINTER VALUE NULL.
       01 SQMOD-ANSWER USAGE BINARY-LONG VALUE 0.
           88 SQMOD-DONE VALUE 0.
       01 SQMOD-ROWS USAGE BINARY-DOUBLE UNSIGNED VALUE 1000000.
       01 SQMOD-TEXT PIC X(65536).
       01 SQMOD-TEXT-LENGTH USAGE BINARY-DOUBLE UNSIGNED VALUE 0.
       01 SQMOD-OWNER PIC X(19).
       01 SQMOD-NAME PIC X(19).
       01 SQMOD-PROCEDURE USAGE BINARY-DOUBLE UNSIGNED.
       01 SQMOD-NUMBER USAGE BINARY-DOUBLE.
       01 SQMOD-SCALE USAGE BINARY-LONG UNSIGNED VALUE 0.
       01 SQMOD-ROOM PIC X(256).
       01 SQMOD-ROOM-SIZE USAGE BINARY-DOUBLE UNSIGNED VALUE 256.
       01 SQMOD-LENGTH USAGE BINARY-DOUBLE UNSIGNED.
       01 SQMOD-STATE PIC X(6).
       01 SQMOD-CODE USAGE BINARY-LONG.
       01 SQMOD-FOUND USAGE BINARY-LONG.
       01 SQMOD-PLACE USAGE BINARY-DOUBLE UNSIGNED.
       01 SQMOD-KIND USAGE BINARY-LONG.
           88 SQMOD-IS-SET VALUE 1 2.
       >>END-IF
       01 !-MODULE.
           05 FILLER PIC X.
";

/// The group of a procedure.
const GROUP: Part<'static> = Part {
    end: "           05 @.
",
    ..NOTHING
};

const STORED_SMALL: &str = "               10 $
                   USAGE BINARY-SHORT.
";

const STORED_INTEGER: &str = "               10 $
                   USAGE BINARY-LONG.
";

const STORED_NUMERIC: &str = "               10 $
                   PIC ?
                   SIGN LEADING SEPARATE.
               10 $-DIGITS
                   REDEFINES $
                   PIC S9(`)
                   SIGN LEADING SEPARATE.
";

const STORED_DECIMAL: &str = "               10 $
                   PIC ?
                   COMP-3.
               10 $-DIGITS
                   REDEFINES $
                   PIC S9(`)
                   COMP-3.
";

const STORED_FIXED: &str = "               10 $
                   PIC X(`).
";

const STORED_VARYING: &str = "               10 $-LENGTH
                   USAGE BINARY-LONG UNSIGNED.
               10 $
                   PIC X(`).
";

/// The storage of its parameters.
const STORED: Part<'static> = Part {
    sqlstate: "               10 SQLSTATE PIC X(5).
",
    sqlcode: "               10 SQLCODE USAGE BINARY-LONG.
",
    small: Uses {
        reads: STORED_SMALL,
        sets: STORED_SMALL,
        both: STORED_SMALL,
    },
    integer: Uses {
        reads: STORED_INTEGER,
        sets: STORED_INTEGER,
        both: STORED_INTEGER,
    },
    numeric: Uses {
        reads: STORED_NUMERIC,
        sets: STORED_NUMERIC,
        both: STORED_NUMERIC,
    },
    decimal: Uses {
        reads: STORED_DECIMAL,
        sets: STORED_DECIMAL,
        both: STORED_DECIMAL,
    },
    fixed: Uses {
        reads: STORED_FIXED,
        sets: STORED_FIXED,
        both: STORED_FIXED,
    },
    varying: Uses {
        reads: STORED_VARYING,
        sets: STORED_VARYING,
        both: STORED_VARYING,
    },
    ..NOTHING
};

/// The text before the paragraphs of a module: those that all modules share, unless they exist already.
const PARAGRAPHS_START: &str = "       >>ELSE
       >>IF SQMOD-PARAGRAPHS IS NOT DEFINED
       >>DEFINE SQMOD-PARAGRAPHS AS 1
       SQMOD-PARAGRAPHS SECTION.
       SQMOD-NEW.
           CALL STATIC \"sqmod_new\"
               USING BY REFERENCE SQMOD-SESSION
               RETURNING SQMOD-ANSWER
           END-CALL.
       SQMOD-ADD-SCHEMA.
           CALL STATIC \"sqmod_add_schema\"
               USING BY VALUE SQMOD-SESSION
                   BY REFERENCE SQMOD-TEXT
                   BY VALUE SIZE 8 SQMOD-TEXT-LENGTH
               RETURNING SQMOD-ANSWER
           END-CALL.
       SQMOD-ADD-MODULE.
           CALL STATIC \"sqmod_add_module\"
               USING BY VALUE SQMOD-SESSION
                   BY REFERENCE SQMOD-TEXT
                   BY VALUE SIZE 8 SQMOD-TEXT-LENGTH
               RETURNING SQMOD-ANSWER
           END-CALL.
       SQMOD-OPEN.
           CALL STATIC \"sqmod_open\"
               USING BY VALUE SQMOD-SESSION
                   BY VALUE SIZE 8 SQMOD-ROWS
               RETURNING SQMOD-ANSWER
           END-CALL.
       SQMOD-REFUSAL.
           MOVE SPACES TO SQMOD-ROOM
           CALL STATIC \"sqmod_refusal\"
               USING BY VALUE SQMOD-SESSION
                   BY REFERENCE SQMOD-ROOM
                   BY VALUE SIZE 8 SQMOD-ROOM-SIZE
                   BY REFERENCE SQMOD-LENGTH
               RETURNING SQMOD-FOUND
           END-CALL
           IF SQMOD-FOUND = 0
               MOVE SPACE TO SQMOD-ROOM(SQMOD-LENGTH + 1:1)
           END-IF.
       SQMOD-CAUSE.
           MOVE SPACES TO SQMOD-ROOM
           CALL STATIC \"sqmod_cause\"
               USING BY VALUE SQMOD-SESSION
                   BY REFERENCE SQMOD-ROOM
                   BY VALUE SIZE 8 SQMOD-ROOM-SIZE
                   BY REFERENCE SQMOD-LENGTH
               RETURNING SQMOD-ANSWER
           END-CALL
           IF SQMOD-ANSWER = 0
               MOVE SPACE TO SQMOD-ROOM(SQMOD-LENGTH + 1:1)
           END-IF.
       SQMOD-CLOSE.
           CALL STATIC \"sqmod_close\"
               USING BY REFERENCE SQMOD-SESSION
               RETURNING SQMOD-ANSWER
           END-CALL.
       SQMOD-BEGIN.
           CALL STATIC \"sqmod_procedure\"
               USING BY VALUE SQMOD-SESSION
                   BY REFERENCE SQMOD-OWNER
                   BY REFERENCE SQMOD-NAME
                   BY REFERENCE SQMOD-PROCEDURE
               RETURNING SQMOD-ANSWER
           END-CALL.
       SQMOD-PUT-START.
           IF SQMOD-DONE
               CALL STATIC \"sqmod_add_start\"
                   USING BY VALUE SQMOD-SESSION
                   RETURNING SQMOD-ANSWER
               END-CALL
           END-IF.
       SQMOD-PUT-NUMBER.
           IF SQMOD-DONE
               CALL STATIC \"sqmod_add_number\"
                   USING BY VALUE SQMOD-SESSION
                       BY VALUE SIZE 8 SQMOD-NUMBER
                       BY VALUE SIZE 4 SQMOD-SCALE
                   RETURNING SQMOD-ANSWER
               END-CALL
           END-IF
           MOVE 0 TO SQMOD-SCALE.
      *> A text has at most 240 characters; 6 is SQMOD_BAD_VALUE.
       SQMOD-PUT-TEXT.
           IF SQMOD-DONE AND SQMOD-LENGTH > 240
               MOVE 6 TO SQMOD-ANSWER
           END-IF
           IF SQMOD-DONE
               CALL STATIC \"sqmod_add_text\"
                   USING BY VALUE SQMOD-SESSION
                       BY REFERENCE SQMOD-ROOM
                       BY VALUE SIZE 8 SQMOD-LENGTH
                   RETURNING SQMOD-ANSWER
               END-CALL
           END-IF.
       SQMOD-FINISH.
           IF SQMOD-DONE
               CALL STATIC \"sqmod_call\"
                   USING BY VALUE SQMOD-SESSION
                       BY VALUE SIZE 8 SQMOD-PROCEDURE
                   RETURNING SQMOD-ANSWER
               END-CALL
           ELSE
               CALL STATIC \"sqmod_drop_values\"
                   USING BY VALUE SQMOD-SESSION
                   RETURNING SQMOD-FOUND
               END-CALL
           END-IF
           IF SQMOD-DONE
               CALL STATIC \"sqmod_status\"
                   USING BY VALUE SQMOD-SESSION
                       BY REFERENCE SQMOD-STATE
                       BY REFERENCE SQMOD-CODE
                   RETURNING SQMOD-ANSWER
               END-CALL
           END-IF.
      *> Whether the call set the parameter to a value, and its place. A
      *> null leaves it as it is; its indicator is -1.
       SQMOD-FIND.
           MOVE 0 TO SQMOD-KIND
           IF SQMOD-DONE
               CALL STATIC \"sqmod_output_place\"
                   USING BY VALUE SQMOD-SESSION
                       BY REFERENCE SQMOD-NAME
                       BY REFERENCE SQMOD-PLACE
                   RETURNING SQMOD-FOUND
               END-CALL
               IF SQMOD-FOUND = 0
                   CALL STATIC \"sqmod_output_kind\"
                       USING BY VALUE SQMOD-SESSION
                           BY VALUE SIZE 8 SQMOD-PLACE
                           BY REFERENCE SQMOD-KIND
                       RETURNING SQMOD-ANSWER
                   END-CALL
               END-IF
           END-IF.
       SQMOD-GET-NUMBER.
           PERFORM SQMOD-FIND
           IF SQMOD-IS-SET
               CALL STATIC \"sqmod_output_number\"
                   USING BY VALUE SQMOD-SESSION
                       BY VALUE SIZE 8 SQMOD-PLACE
                       BY REFERENCE SQMOD-NUMBER
                       BY REFERENCE SQMOD-SCALE
                   RETURNING SQMOD-ANSWER
               END-CALL
               MOVE 0 TO SQMOD-SCALE
           END-IF.
       SQMOD-GET-TEXT.
           PERFORM SQMOD-FIND
           IF SQMOD-IS-SET
               MOVE SPACES TO SQMOD-ROOM
               CALL STATIC \"sqmod_output_text\"
                   USING BY VALUE SQMOD-SESSION
                       BY VALUE SIZE 8 SQMOD-PLACE
                       BY REFERENCE SQMOD-ROOM
                       BY VALUE SIZE 8 SQMOD-ROOM-SIZE
                       BY REFERENCE SQMOD-LENGTH
                   RETURNING SQMOD-ANSWER
               END-CALL
               MOVE SPACE TO SQMOD-ROOM(SQMOD-LENGTH + 1:1)
           END-IF.
       >>END-IF
       MODULE-! SECTION.
";

/// The head of a procedure's paragraph.
const BEGUN: Part<'static> = Part {
    end: "       CALL-@.
           MOVE Z\"~\" TO SQMOD-OWNER
           MOVE Z\"%\" TO SQMOD-NAME
           PERFORM SQMOD-BEGIN
",
    ..NOTHING
};

const PUT_START: &str = "           PERFORM SQMOD-PUT-START
";

const PUT_WHOLE_NUMBER: &str = "           MOVE
               $
               OF @
               OF !-MODULE
               TO SQMOD-NUMBER
           PERFORM SQMOD-PUT-NUMBER
";

const PUT_EXACT: &str = "           MOVE
               $-DIGITS
               OF @
               OF !-MODULE
               TO SQMOD-NUMBER
           MOVE | TO SQMOD-SCALE
           PERFORM SQMOD-PUT-NUMBER
";

const PUT_FIXED: &str = "           MOVE
               $
               OF @
               OF !-MODULE
               TO SQMOD-ROOM
           MOVE ` TO SQMOD-LENGTH
           PERFORM SQMOD-PUT-TEXT
";

const PUT_VARYING: &str = "           MOVE
               $
               OF @
               OF !-MODULE
               TO SQMOD-ROOM
           MOVE
               $-LENGTH
               OF @
               OF !-MODULE
               TO SQMOD-LENGTH
           PERFORM SQMOD-PUT-TEXT
";

const WHOLE_NUMBER_PUT: Uses<'static> = Uses {
    reads: PUT_WHOLE_NUMBER,
    sets: PUT_START,
    both: PUT_WHOLE_NUMBER,
};

const EXACT_PUT: Uses<'static> = Uses {
    reads: PUT_EXACT,
    sets: PUT_START,
    both: PUT_EXACT,
};

/// The values that go in, and the call.
const PUT: Part<'static> = Part {
    small: WHOLE_NUMBER_PUT,
    integer: WHOLE_NUMBER_PUT,
    numeric: EXACT_PUT,
    decimal: EXACT_PUT,
    fixed: Uses {
        reads: PUT_FIXED,
        sets: PUT_START,
        both: PUT_FIXED,
    },
    varying: Uses {
        reads: PUT_VARYING,
        sets: PUT_START,
        both: PUT_VARYING,
    },
    end: "           PERFORM SQMOD-FINISH
",
    ..NOTHING
};

const GOT_WHOLE_NUMBER: &str = "           MOVE Z\"^\" TO SQMOD-NAME
           PERFORM SQMOD-GET-NUMBER
           IF SQMOD-IS-SET
               MOVE SQMOD-NUMBER TO
                   $
                   OF @
                   OF !-MODULE
           END-IF
";

const GOT_EXACT: &str = "           MOVE Z\"^\" TO SQMOD-NAME
           PERFORM SQMOD-GET-NUMBER
           IF SQMOD-IS-SET
               MOVE SQMOD-NUMBER TO
                   $-DIGITS
                   OF @
                   OF !-MODULE
           END-IF
";

const GOT_FIXED: &str = "           MOVE Z\"^\" TO SQMOD-NAME
           PERFORM SQMOD-GET-TEXT
           IF SQMOD-IS-SET
               MOVE SQMOD-ROOM TO
                   $
                   OF @
                   OF !-MODULE
           END-IF
";

const GOT_VARYING: &str = "           MOVE Z\"^\" TO SQMOD-NAME
           PERFORM SQMOD-GET-TEXT
           IF SQMOD-IS-SET
               MOVE SQMOD-ROOM TO
                   $
                   OF @
                   OF !-MODULE
               MOVE SQMOD-LENGTH TO
                   $-LENGTH
                   OF @
                   OF !-MODULE
           END-IF
";

const WHOLE_NUMBER_GOT: Uses<'static> = Uses {
    reads: "",
    sets: GOT_WHOLE_NUMBER,
    both: GOT_WHOLE_NUMBER,
};

const EXACT_GOT: Uses<'static> = Uses {
    reads: "",
    sets: GOT_EXACT,
    both: GOT_EXACT,
};

/// The values that come out.
const GOT: Part<'static> = Part {
    sqlstate: "           IF SQMOD-DONE
               MOVE SQMOD-STATE TO
                   SQLSTATE
                   OF @
                   OF !-MODULE
           END-IF
",
    sqlcode: "           IF SQMOD-DONE
               MOVE SQMOD-CODE TO
                   SQLCODE
                   OF @
                   OF !-MODULE
           END-IF
",
    small: WHOLE_NUMBER_GOT,
    integer: WHOLE_NUMBER_GOT,
    numeric: EXACT_GOT,
    decimal: EXACT_GOT,
    fixed: Uses {
        reads: "",
        sets: GOT_FIXED,
        both: GOT_FIXED,
    },
    varying: Uses {
        reads: "",
        sets: GOT_VARYING,
        both: GOT_VARYING,
    },
    end: "           CONTINUE.
",
    ..NOTHING
};

/// The copybook: a group for each module with one for each of its procedures, and a paragraph for each procedure.
pub(crate) fn passes_in_cobol(alloc: Global) -> Result<Vec<Pass<'static>>, AllocError> {
    let mut passes = Vec::new(alloc);
    passes.push(Pass {
        start: STORAGE_START,
        parts: storage(),
    })?;
    passes.push(Pass {
        start: PARAGRAPHS_START,
        parts: paragraphs(),
    })?;
    Ok(passes)
}

static STORAGE: [Part<'static>; 2] = [GROUP, STORED];

fn storage() -> &'static [Part<'static>] {
    STORAGE.as_slice()
}

static PARAGRAPHS: [Part<'static>; 3] = [BEGUN, PUT, GOT];

fn paragraphs() -> &'static [Part<'static>] {
    PARAGRAPHS.as_slice()
}

pub(crate) const COBOL_END: &str = "       >>END-IF
";

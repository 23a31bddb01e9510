//! The templates of a header for C.

use crate::language::{NOTHING, Part, Pass, Uses};
use std::alloc::{AllocError, Global};

/// The text at the start of a header, once.
const START: &str = "/* Made by `sqmod bind-c`: one function for each procedure.

   A null that comes out leaves its target as it is; its indicator is -1. Of several answers the first that isn't
   SQMOD_DONE is answered, and what the others stand for is set. */

#include <stddef.h>
#include <stdint.h>

#include \"sqmod.h\"

#ifndef SQMOD_BOUND
#define SQMOD_BOUND

/* Whether the last call set a parameter to a value, and the place of that. */
static inline int sqmod_bound_is_set(sqmod_session *session, const char *name, size_t *place)
{
    int kind;
    return sqmod_output_place(session, name, place) == SQMOD_DONE
        && sqmod_output_kind(session, *place, &kind) == SQMOD_DONE
        && kind != SQMOD_NULL_VALUE;
}

/* Drops the values of a call that isn't made. */
static inline int sqmod_bound_dropped(sqmod_session *session, int answer)
{
    sqmod_drop_values(session);
    return answer;
}

/* The first of two answers that isn't SQMOD_DONE. */
static inline int sqmod_bound_first(int first, int second)
{
    return first == SQMOD_DONE ? second : first;
}

/* Each hands out what the last call set a parameter to, if it set it to a value. */
static inline int sqmod_bound_small(sqmod_session *session, const char *name, int16_t *value)
{
    size_t place;
    int64_t number;
    unsigned scale;
    int answer;
    if (!sqmod_bound_is_set(session, name, &place)) return SQMOD_DONE;
    answer = sqmod_output_number(session, place, &number, &scale);
    if (answer == SQMOD_DONE) *value = (int16_t)number;
    return answer;
}

static inline int sqmod_bound_integer(sqmod_session *session, const char *name, int32_t *value)
{
    size_t place;
    int64_t number;
    unsigned scale;
    int answer;
    if (!sqmod_bound_is_set(session, name, &place)) return SQMOD_DONE;
    answer = sqmod_output_number(session, place, &number, &scale);
    if (answer == SQMOD_DONE) *value = (int32_t)number;
    return answer;
}

static inline int sqmod_bound_digits(
    sqmod_session *session, const char *name, char *room, size_t size, size_t *length)
{
    size_t place;
    if (!sqmod_bound_is_set(session, name, &place)) return SQMOD_DONE;
    return sqmod_output_digits(session, place, room, size, length);
}

static inline int sqmod_bound_text(
    sqmod_session *session, const char *name, char *room, size_t size, size_t *length)
{
    size_t place;
    if (!sqmod_bound_is_set(session, name, &place)) return SQMOD_DONE;
    return sqmod_output_text(session, place, room, size, length);
}

#endif
";

/// The name of the function.
const NAMED: Part<'static> = Part {
    end: "
/* ~.% */
static inline int @(
    sqmod_session *session",
    ..NOTHING
};

const DECLARED_TEXT: Uses<'static> = Uses {
    reads: ",
    const char *$, size_t $_length",
    sets: ",
    char *$, size_t $_size, size_t *$_length",
    both: ",
    char *$, size_t $_size, size_t *$_length",
};

/// Its parameters.
const DECLARED: Part<'static> = Part {
    sqlstate: ",
    char sqlstate[6]",
    sqlcode: ",
    int32_t *sqlcode",
    small: Uses {
        reads: ",
    int16_t $",
        sets: ",
    int16_t *$",
        both: ",
    int16_t *$",
    },
    integer: Uses {
        reads: ",
    int32_t $",
        sets: ",
    int32_t *$",
        both: ",
    int32_t *$",
    },
    numeric: DECLARED_TEXT,
    decimal: DECLARED_TEXT,
    fixed: DECLARED_TEXT,
    varying: DECLARED_TEXT,
    end: ")
{
    size_t procedure;
    int answer;
",
    ..NOTHING
};

/// The place of the status.
const STATUS: Part<'static> = Part {
    sqlstate: "    char *state = sqlstate;
",
    sqlcode: "    int32_t *code = sqlcode;
",
    no_sqlstate: "    char state[6];
",
    no_sqlcode: "    int32_t unasked, *code = &unasked;
",
    ..NOTHING
};

const TESTED_NUMBER: Uses<'static> = Uses {
    reads: "",
    sets: "    if ($ == NULL) return SQMOD_NULL;
",
    both: "    if ($ == NULL) return SQMOD_NULL;
",
};

const TESTED_TEXT: Uses<'static> = Uses {
    reads: "",
    sets: "    if ($ == NULL) return SQMOD_NULL;
    if ($_length == NULL) return SQMOD_NULL;
",
    both: "    if ($ == NULL) return SQMOD_NULL;
    if ($_length == NULL) return SQMOD_NULL;
",
};

/// The tests that no pointer is null.
const TESTED: Part<'static> = Part {
    sqlstate: "    if (sqlstate == NULL) return SQMOD_NULL;
",
    sqlcode: "    if (sqlcode == NULL) return SQMOD_NULL;
",
    small: TESTED_NUMBER,
    integer: TESTED_NUMBER,
    numeric: TESTED_TEXT,
    decimal: TESTED_TEXT,
    fixed: TESTED_TEXT,
    varying: TESTED_TEXT,
    end: "    answer = sqmod_procedure(session, \"~\", \"%\", &procedure);
",
    ..NOTHING
};

const START_VALUE: &str = "    if (answer == SQMOD_DONE) answer = sqmod_add_start(session);
";

const ADDED_NUMBER: Uses<'static> = Uses {
    reads: "    if (answer == SQMOD_DONE) answer = sqmod_add_number(session, $, 0);
",
    sets: START_VALUE,
    both: "    if (answer == SQMOD_DONE) answer = sqmod_add_number(session, *$, 0);
",
};

const ADDED_DIGITS: Uses<'static> = Uses {
    reads: "    if (answer == SQMOD_DONE) answer = sqmod_add_digits(session, $, $_length);
",
    sets: START_VALUE,
    both: "    if (answer == SQMOD_DONE) answer = sqmod_add_digits(session, $, *$_length);
",
};

const ADDED_TEXT: Uses<'static> = Uses {
    reads: "    if (answer == SQMOD_DONE) answer = sqmod_add_text(session, $, $_length);
",
    sets: START_VALUE,
    both: "    if (answer == SQMOD_DONE) answer = sqmod_add_text(session, $, *$_length);
",
};

/// The values that go in, and the call.
const ADDED: Part<'static> = Part {
    small: ADDED_NUMBER,
    integer: ADDED_NUMBER,
    numeric: ADDED_DIGITS,
    decimal: ADDED_DIGITS,
    fixed: ADDED_TEXT,
    varying: ADDED_TEXT,
    end: "    if (answer) return sqmod_bound_dropped(session, answer);
    answer = sqmod_call(session, procedure);
    if (answer == SQMOD_DONE) answer = sqmod_status(session, state, code);
",
    ..NOTHING
};

const SET_SMALL: &str =
    "    answer = sqmod_bound_first(answer, sqmod_bound_small(session, \"^\", $));
";

const SET_INTEGER: &str =
    "    answer = sqmod_bound_first(answer, sqmod_bound_integer(session, \"^\", $));
";

const SET_DIGITS: &str =
    "    answer = sqmod_bound_first(answer, sqmod_bound_digits(session, \"^\", $, $_size, $_length));
";

const SET_TEXT: &str =
    "    answer = sqmod_bound_first(answer, sqmod_bound_text(session, \"^\", $, $_size, $_length));
";

const DIGITS_SET: Uses<'static> = Uses {
    reads: "",
    sets: SET_DIGITS,
    both: SET_DIGITS,
};

const TEXT_SET: Uses<'static> = Uses {
    reads: "",
    sets: SET_TEXT,
    both: SET_TEXT,
};

/// The values that come out.
const SET: Part<'static> = Part {
    small: Uses {
        reads: "",
        sets: SET_SMALL,
        both: SET_SMALL,
    },
    integer: Uses {
        reads: "",
        sets: SET_INTEGER,
        both: SET_INTEGER,
    },
    numeric: DIGITS_SET,
    decimal: DIGITS_SET,
    fixed: TEXT_SET,
    varying: TEXT_SET,
    end: "    return answer;
}
",
    ..NOTHING
};

/// The header: a guard for each module, and one function for each of its procedures.
pub(crate) fn passes_in_c(alloc: Global) -> Result<Vec<Pass<'static>>, AllocError> {
    let mut passes = Vec::new(alloc);
    passes.push(Pass {
        start: "
#ifndef SQMOD_BOUND_~
#define SQMOD_BOUND_~
",
        parts: header(),
    })?;
    Ok(passes)
}

static HEADER: [Part<'static>; 6] = [NAMED, DECLARED, STATUS, TESTED, ADDED, SET];

fn header() -> &'static [Part<'static>] {
    HEADER.as_slice()
}

/// Gives the start of a header.
pub(crate) fn start_in_c() -> &'static str {
    START
}

pub(crate) const C_END: &str = "
#endif
";

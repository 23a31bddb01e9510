//! The spellings of the reserved words.

ghost use Rattle.std.specs.Prelude.{◌≡◌, ◌<◌, ◌≤◌, ◌-◌, drop, length, map, take};
ghost use Rattle.sq_lex.specs.Reserved as spec;

use crate::word::Word;

/// The reserved words with their spellings, in alphabetical order.
static RESERVED: [(&[u8], Word); 91] = [
    (b"ABSOLUTE", Word::Absolute),
    (b"ALL", Word::All),
    (b"AND", Word::And),
    (b"ANY", Word::Any),
    (b"AS", Word::As),
    (b"ASC", Word::Asc),
    (b"AUTHORIZATION", Word::Authorization),
    (b"AVG", Word::Avg),
    (b"BETWEEN", Word::Between),
    (b"BY", Word::By),
    (b"CHAR", Word::Char),
    (b"CHARACTER", Word::Character),
    (b"CHECK", Word::Check),
    (b"CLOSE", Word::Close),
    (b"COMMIT", Word::Commit),
    (b"COUNT", Word::Count),
    (b"CREATE", Word::Create),
    (b"CURRENT", Word::Current),
    (b"CURSOR", Word::Cursor),
    (b"DEC", Word::Dec),
    (b"DECIMAL", Word::Decimal),
    (b"DECLARE", Word::Declare),
    (b"DEFAULT", Word::Default),
    (b"DELETE", Word::Delete),
    (b"DESC", Word::Desc),
    (b"DISTINCT", Word::Distinct),
    (b"ESCAPE", Word::Escape),
    (b"EXISTS", Word::Exists),
    (b"FETCH", Word::Fetch),
    (b"FIRST", Word::First),
    (b"FOR", Word::For),
    (b"FOREIGN", Word::Foreign),
    (b"FROM", Word::From),
    (b"GRANT", Word::Grant),
    (b"GROUP", Word::Group),
    (b"HAVING", Word::Having),
    (b"IN", Word::In),
    (b"INDICATOR", Word::Indicator),
    (b"INSENSITIVE", Word::Insensitive),
    (b"INSERT", Word::Insert),
    (b"INT", Word::Int),
    (b"INTEGER", Word::Integer),
    (b"INTO", Word::Into),
    (b"IS", Word::Is),
    (b"KEY", Word::Key),
    (b"LANGUAGE", Word::Language),
    (b"LAST", Word::Last),
    (b"LIKE", Word::Like),
    (b"MAX", Word::Max),
    (b"MIN", Word::Min),
    (b"MODULE", Word::Module),
    (b"NEXT", Word::Next),
    (b"NOT", Word::Not),
    (b"NULL", Word::Null),
    (b"NUMERIC", Word::Numeric),
    (b"OF", Word::Of),
    (b"ON", Word::On),
    (b"OPEN", Word::Open),
    (b"OPTION", Word::Option),
    (b"OR", Word::Or),
    (b"ORDER", Word::Order),
    (b"PRIMARY", Word::Primary),
    (b"PRIOR", Word::Prior),
    (b"PRIVILEGES", Word::Privileges),
    (b"PROCEDURE", Word::Procedure),
    (b"PUBLIC", Word::Public),
    (b"REFERENCES", Word::References),
    (b"RELATIVE", Word::Relative),
    (b"ROLLBACK", Word::Rollback),
    (b"SCHEMA", Word::Schema),
    (b"SCROLL", Word::Scroll),
    (b"SELECT", Word::Select),
    (b"SET", Word::Set),
    (b"SMALLINT", Word::Smallint),
    (b"SOME", Word::Some),
    (b"SQLCODE", Word::Sqlcode),
    (b"SQLSTATE", Word::Sqlstate),
    (b"SUM", Word::Sum),
    (b"TABLE", Word::Table),
    (b"TO", Word::To),
    (b"UNION", Word::Union),
    (b"UNIQUE", Word::Unique),
    (b"UPDATE", Word::Update),
    (b"USER", Word::User),
    (b"VALUES", Word::Values),
    (b"VARCHAR", Word::Varchar),
    (b"VARYING", Word::Varying),
    (b"VIEW", Word::View),
    (b"WHERE", Word::Where),
    (b"WITH", Word::With),
    (b"WORK", Word::Work),
];

/// The index in the table of the first word of each letter from A to Z, and then the end of the table.
static STARTS: [u8; 27] = [
    0, 8, 10, 19, 26, 28, 33, 35, 36, 44, 44, 45, 48, 51, 55, 61, 66, 66, 69, 78, 80, 84, 88, 91,
    91, 91, 91,
];

#[tactic(auto, unfolding(crate::specs::Reserved::start))]
fn start(place: usize) -> usize
    requires { place < 27 }
    ensures { result ≡ spec.start place }
{
    STARTS[place] as usize
}

/// The reserved word with this spelling in upper case, if there is one. It is looked up among the words with its first letter.
#[tactic(auto, unfolding(crate::specs::Reserved::reserved), using(crate::proofs::FirstLetters::ordered, crate::proofs::FirstLetters::inside))]
pub fn reserved(spelling: &[u8]) -> Option<Word>
    ensures { result ≡ spec.reserved spelling.now }
{
    let letter = match spelling {
        [letter, ..] => *letter,
        [] => return None,
    };
    if letter < b'A' || b'Z' < letter {
        return lookup(&RESERVED, spelling);
    }
    let place = (letter - b'A') as usize;
    lookup_between(&RESERVED, start(place), start(place + 1), spelling)
}

/// The word with this spelling among the words from one place to another.
#[tactic(auto, using(crate::proofs::FirstLetters::map_part))]
fn lookup_between(words: &[(&[u8], Word)], from: usize, to: usize, spelling: &[u8]) -> Option<Word>
    requires ordered { from ≤ to }
    requires within { to ≤ length words.now }
    ensures { result ≡ spec.lookup
        (take (to - from) (drop from (map (λ entry. (entry.0.now, entry.1)) words.now))) spelling.now }
{
    lookup(&words[from..to], spelling)
}

/// The word with this spelling among these.
fn lookup(mut words: &[(&[u8], Word)], spelling: &[u8]) -> Option<Word>
    ensures { result ≡ spec.lookup (map (λ entry. (entry.0.now, entry.1)) words.entry.now) spelling.now }
{
    while let [entry, rest @ ..] = words {
        if entry.0 == spelling {
            return Some(entry.1);
        }
        words = rest;
    }
    None
}

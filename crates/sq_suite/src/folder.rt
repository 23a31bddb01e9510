//! The meaning of a file's name in a case's folder.
ghost use Rattle.std.specs.Prelude.{◌≡◌};
ghost use Rattle.sq_suite.specs.Folder as spec;

/// The content of a file.
#[derive(Clone, Copy, Debug, PartialEq, Eq)]
pub enum Kind {
    /// A schema text: `schema*.sql`, in any letter case.
    Schema,
    /// A module text: any other `*.sql`, in any letter case.
    Module,
    /// Something else.
    Other,
}

/// Finds what a file of this name holds.
pub fn kind_of(name: &str) -> Kind
    ensures { result ≡ spec.kind_of name.now }
{
    if !ends_like(name.as_bytes(), b".sql") {
        Kind::Other
    } else if begins_like(name.as_bytes(), b"schema") {
        Kind::Schema
    } else {
        Kind::Module
    }
}

/// Whether a name begins with some letters, in any letter case.
fn begins_like(name: &[u8], letters: &[u8]) -> bool
    ensures { result ≡ spec.begins_like name.now letters.now }
{
    match name.get(..letters.len()) {
        Some(first) => first.eq_ignore_ascii_case(letters),
        None => false,
    }
}

/// Whether a name ends with some letters, in any letter case.
fn ends_like(name: &[u8], letters: &[u8]) -> bool
    ensures { result ≡ spec.ends_like name.now letters.now }
{
    if name.len() < letters.len() {
        return false;
    }
    name[name.len() - letters.len()..].eq_ignore_ascii_case(letters)
}

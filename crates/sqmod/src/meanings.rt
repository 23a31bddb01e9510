//! The meaning of a refusal or a fault, in a line.
use sq_explain::{all_entries, find_entry, text_of};

/// Finds the meaning that `explain` has for a refusal of a schema, a module or a script, or for a fault of a
/// statement. It is the rest of the line that begins with its name and that part, or nothing if no such line
/// exists.
pub(crate) fn meaning_of(name: &str, part: &str) -> &'static str {
    match find_entry(all_entries(), name) {
        Some(entry) => rest_of(text_of(entry.text), name, part).unwrap_or(""),
        None => "",
    }
}

fn rest_of<'a>(text: &'a str, name: &str, part: &str) -> Option<&'a str> {
    for line in text.lines() {
        if let Some(rest) = rest_of_line(line, name, part) {
            return Some(rest);
        }
    }
    None
}

fn rest_of_line<'a>(line: &'a str, name: &str, part: &str) -> Option<&'a str> {
    line.strip_prefix(name)?
        .strip_prefix(" of a ")?
        .strip_prefix(part)?
        .strip_prefix(": ")
}

//! Results as JUnit's XML has them.
use crate::bytes::push_escaped;
use std::alloc::{AllocError, Global};

/// Adds the start, with how many cases there are and how many of them differ.
pub fn write_start(
    out: &mut Vec<u8>,
    alloc: Global,
    cases: usize,
    differ: usize,
) -> Result<(), AllocError> {
    out.extend_from_slice(b"<?xml version=\"1.0\" encoding=\"UTF-8\"?>\n<testsuites>\n")?;
    let start = format!(in alloc;
        "<testsuite name=\"sqmod\" tests=\"{cases}\" failures=\"{differ}\">\n"
    )?;
    out.extend_from_slice(start.as_bytes())
}

/// Adds a case; if it is wrong, with the words on it.
pub fn write_case(
    out: &mut Vec<u8>,
    name: &str,
    is_right: bool,
    says: &[u8],
) -> Result<(), AllocError> {
    out.extend_from_slice(b"<testcase classname=\"sqmod\" name=\"")?;
    push_escaped(out, name.as_bytes())?;
    if is_right {
        return out.extend_from_slice(b"\"/>\n");
    }
    out.extend_from_slice(b"\"><failure message=\"differs\">")?;
    push_escaped(out, says)?;
    out.extend_from_slice(b"</failure></testcase>\n")
}

/// Adds the end.
pub fn write_end(out: &mut Vec<u8>) -> Result<(), AllocError> {
    out.extend_from_slice(b"</testsuite>\n</testsuites>\n")
}

//! Hints in any text.

use crate::hint::Hint;

/// In all texts.
pub(crate) static ANYWHERE: [Hint; 1] = [Hint {
    before: "",
    at: "a name",
    expected: ":",
    missing: "",
    says: "a parameter has a colon before its name, everywhere",
}];

//! From a line and a column to a byte.

/// The byte at a line and column, both from 1.
pub fn offset_of(text: &[u8], line: usize, column: usize) -> usize {
    let mut left = line;
    for (index, byte) in text.iter().enumerate() {
        if left <= 1 {
            return index.saturating_add(column.saturating_sub(1));
        }
        if *byte == b'\n' {
            left -= 1;
        }
    }
    text.len()
}

//! Rows of the one table.

/// A row: any key from 0 to 65535 and any 32-bit value.
#[derive(Clone, Copy, PartialEq, Eq)]
pub struct Row {
    pub key: u16,
    pub value: u32,
}

//! How a table is printed.

/// How a table is printed.
#[derive(Clone, Copy, Debug, PartialEq, Eq)]
pub struct Printing {
    pub is_csv: bool,
    /// Whether misses are printed as a part of the references.
    pub is_ratio: bool,
}

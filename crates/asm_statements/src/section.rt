/// A section of a program.
#[derive(Clone, Copy, Debug, PartialEq, Eq)]
pub enum Section {
    /// Instructions and words, which may be read and executed.
    Text,
    /// Bytes, which may be read and written.
    Data,
}

/// A place as people count it.
#[derive(Clone, Copy, Debug, PartialEq, Eq, PartialOrd, Ord, Hash)]
pub struct LineAndColumnDisplay {
    /// The line, from 1.
    pub line_number: usize,
    /// The column in characters, from 1. A tab is one character.
    pub column_number: usize,
}

/// A script has a line outside the grammar of script text.
#[derive(Clone, Copy, Debug, PartialEq, Eq)]
pub struct ScriptFault {
    /// The first such line, counted from 1.
    pub line: u32,
    /// The column of that line, counted from 1: the least k such that the first k bytes of the line
    /// begin no line of the grammar. Where all of them begin one, it is one more than the length.
    pub column: u32,
}

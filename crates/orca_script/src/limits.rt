//! The limits of script text.

/// The most values of a line: the words after its first.
pub const MAX_LINE_VALUES: usize = 6;

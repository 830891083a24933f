//! The limits of the lines that hands are told.

use orca_base::limits::{MAX_DIGITS, RULE_NAME_BYTES};

/// The most bytes of the line of a denied key: two numbers, the name of a rule, and the words and spaces
/// beside them.
pub const LINE_BYTES: usize = 2 * MAX_DIGITS + RULE_NAME_BYTES + 16;

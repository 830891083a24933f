/// Places of a row, seen from an operator.
#[derive(Clone, Copy, Debug, PartialEq, Eq)]
pub struct Span {
    /// How many rows below.
    pub y: u8,
    /// How many columns to the right the first of them lies.
    pub x: u8,
    /// How many places.
    pub length: u8,
}

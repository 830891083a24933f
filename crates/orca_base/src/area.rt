/// A block as a user names it: its first row and column, and how many rows and columns it has. It may
/// be empty, and may reach over the edges of the grid.
#[derive(Clone, Copy, Debug, PartialEq, Eq)]
pub struct Rect {
    /// The first row.
    pub y: u32,
    /// The first column.
    pub x: u32,
    /// The number of rows.
    pub h: u32,
    /// The number of columns.
    pub w: u32,
}

/// A block that lies in the grid and isn't empty.
#[derive(Clone, Copy, Debug, PartialEq, Eq)]
pub struct Area {
    /// The first row.
    pub y: u16,
    /// The first column.
    pub x: u16,
    /// The number of rows, at least 1.
    pub h: u16,
    /// The number of columns, at least 1.
    pub w: u16,
}

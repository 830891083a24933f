ghost use Rattle.std.specs.Prelude.{◌≡◌};

/// A place of a grid, counted from 0.
#[derive(Clone, Copy, Debug, Default, PartialEq, Eq)]
pub struct Place {
    /// The row.
    pub y: u16,
    /// The column.
    pub x: u16,
}

/// A place in the grid or outside it.
#[derive(Clone, Copy, Debug, PartialEq, Eq)]
pub struct Spot {
    /// The row, counted from the grid's first.
    pub y: i32,
    /// The column, counted from the grid's first.
    pub x: i32,
}

impl Place {
    ghost use Rattle.orca_base.specs.Grids.{off, here, above, down, below, left, right, IsReach};

    /// The spot `dy` rows below and `dx` columns to the right. Neither reaches further than
    /// [`MAX_REACH`](crate::limits::MAX_REACH), to either side.
    pub fn off(self, dy: i32, dx: i32) -> Spot
        requires { IsReach dy × IsReach dx }
        ensures { result ≡ off self dy dx }
    {
        Spot {
            y: i32::from(self.y) + dy,
            x: i32::from(self.x) + dx,
        }
    }

    /// The place itself, as a spot.
    pub fn here(self) -> Spot
        ensures { result ≡ here self }
    {
        self.off(0, 0)
    }

    /// The spot above.
    pub fn above(self) -> Spot
        ensures { result ≡ above self }
    {
        self.off(-1, 0)
    }

    /// The spot `rows` below.
    pub fn down(self, rows: u16) -> Spot
        ensures { result ≡ down self rows }
    {
        self.off(i32::from(rows), 0)
    }

    /// The spot below.
    pub fn below(self) -> Spot
        ensures { result ≡ below self }
    {
        self.off(1, 0)
    }

    /// The spot `columns` to the left.
    pub fn left(self, columns: u16) -> Spot
        ensures { result ≡ left self columns }
    {
        self.off(0, -i32::from(columns))
    }

    /// The spot `columns` to the right.
    pub fn right(self, columns: u16) -> Spot
        ensures { result ≡ right self columns }
    {
        self.off(0, i32::from(columns))
    }
}

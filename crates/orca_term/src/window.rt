//! The window on the grid: the page on which the cursor lies.

ghost use Rattle.std.specs.Prelude.{◌≡◌, ◌≤◌};
ghost use Rattle.orca_term.specs.Editing.{page_of};

/// The start of the page of so many that a number lies on; 0 where a page has none.
pub(crate) fn page_of(side: u32, n: u32) -> u32
    ensures page { result ≡ page_of side n }
    ensures before { result ≤ n }
{
    if side == 0 {
        return 0;
    }
    n / side * side
}

ghost use Rattle.std.specs.Prelude.{◌≡◌, ◌+◌, ◌<◌};
ghost use Rattle.orca_op.specs.Slate.{IsSlate};
ghost use Rattle.orca_op.specs.Live.{IsLiveRow, IsSummary, is_live};

use crate::Bench;
use orca_base::Steps;
use std::sync::ledger::Ledger;

/// Which places of a row hold an operator.
#[derive(Clone, Copy)]
pub struct LiveRow<'a> {
    /// The bit of a column `x` is bit `x % 64` of word `x / 64`, counted from the least significant
    /// bit. It is set exactly where the column lies in the grid and that place holds an operator.
    pub words: &'a [u64],
    /// Which of the words have a bit: bit `k` of this number is set exactly where word `k` is not
    /// zero.
    pub summary: u64,
}

/// A bench that keeps, for each row, which of its places hold an operator.
pub trait Walk: Bench {
    /// A row as the grid stands now. It counts one step, for the words and the summary together.
    fn live_words<L: Ledger>(&self, row: u16, steps: &mut Steps<L>) -> LiveRow<'_>
        requires { row < (Self.slate self.now).scan.dims.h }
        ensures live { IsLiveRow (Self.slate self.now).scan row result.words.now }
        ensures summary { IsSummary (is_live (Self.slate self.now).scan row) result.summary }
        ensures slate { IsSlate (Self.slate self.now) }
        ensures steps { steps.new ≡ steps.old + 1 };
}

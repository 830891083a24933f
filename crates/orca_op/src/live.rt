ghost use Rattle.std.specs.Prelude.{◌≡◌, ℕ, ◌+◌, ◌-◌, ◌*◌, ◌<◌, ◌≤◌, length, IfSome, IsTrue, unwrap_or};
ghost use Rattle.orca_op.specs.First.{first_where};
ghost use Rattle.orca_op.specs.Live.{is_live, has_bit, next_live, HasNoLive, IsLeastBit};

use crate::Walk;
use orca_base::Steps;
use orca_base::limits::{ROW_WORDS, WORD_COLUMNS};
use std::sync::ledger::Ledger;

/// The least column of a row, at least `from`, that holds an operator as the grid stands now; none
/// exactly where there is none. It counts one step.
pub fn next_live<B: Walk, L: Ledger>(
    bench: &B,
    row: u16,
    from: u16,
    steps: &mut Steps<L>,
) -> Option<u16>
    requires row { row < (B.slate bench.now).scan.dims.h }
    requires column { from ≤ (B.slate bench.now).scan.dims.w }
    ensures least { result ≡ next_live (B.slate bench.now).scan row from }
    ensures found { IfSome result (λ x.
        (from ≤ x) × IsTrue (is_live (B.slate bench.now).scan row x)) }
    ensures passed { let s = (B.slate bench.now).scan in
        HasNoLive s row from (unwrap_or result s.dims.w) }
    ensures steps { steps.new ≡ steps.old + 1 }
{
    next_bit(bench.live_words(row, steps).words, from)
}

/// The least bit of a row's words, at least `from`, that is set.
fn next_bit(words: &[u64], from: u16) -> Option<u16>
    requires { length words.now ≤ ROW_WORDS }
    ensures { result
        ≡ first_where (has_bit words.now) from (WORD_COLUMNS * length words.now - from) }
{
    for i in usize::from(from / WORD_COLUMNS)..words.len() {
        let start = i as u16 * WORD_COLUMNS;
        if let Some(bit) = bit_from(words[i], from.saturating_sub(start)) {
            return Some(start + bit);
        }
    }
    None
}

/// The least bit of a word, at least `from`, that is set.
fn bit_from(word: u64, from: u16) -> Option<u16>
    requires { from < WORD_COLUMNS }
    ensures { IsLeastBit word from result }
{
    let rest = word & (u64::MAX << from);
    if rest == 0 {
        return None;
    }
    Some(rest.trailing_zeros() as u16)
}

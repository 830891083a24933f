ghost use Rattle.std.specs.Prelude.{◌≡◌, ℕ, ◌+◌, ◌-◌, ◌*◌, ◌/◌, ◌<◌, ◌≤◌, length, IfSome, IsTrue, unwrap_or};
ghost use Rattle.std.specs.Int.{trailing_zeros, w64};
ghost use Rattle.orca_base.specs.declared.limits.TheConstants.{WORD_COLUMNS, ROW_WORDS};
ghost use Rattle.orca_op.specs.First.{first_where};
ghost use Rattle.orca_op.specs.Live.{is_live, has_bit, next_live, HasNoLive, IsSummary};

use crate::Walk;
use orca_base::Steps;
use orca_base::limits::WORD_COLUMNS;
use std::marker::Model;
use std::sync::ledger::Ledger;

/// Where the walk of a row stands: before a column. It keeps the word that it has reached, and
/// which bits of it lie ahead, so that the next operator is a matter of one word. A contract sees
/// the column.
#[derive(Drop)]
pub struct Cursor {
    column: u16,
    word: usize,
    /// The column of the word's first bit.
    base: usize,
    /// The bits of the word that stand for the column and for those at its right.
    ahead: u64,
}

impl Model for Cursor {
    ghost use Rattle.std.specs.Prelude.{ℕ};
    ghost use Rattle.orca_op.specs.Live.{IsCursor};

    ghost Value = { ℕ };

    ghost view = { λ c. c.column };

    ghost invariant = { λ c. IsCursor c.column c.word c.base c.ahead };
}

impl Cursor {
    /// Before the first column.
    pub fn start() -> Cursor
        ensures { result ≡ 0 }
    {
        Cursor {
            column: 0,
            word: 0,
            base: 0,
            ahead: u64::MAX,
        }
    }

    /// The first column of a row that holds an operator as the grid stands now; none exactly where
    /// there is none. The cursor, which stands before the first column, then stands after it. The
    /// words of a row without operators are not looked at. It counts one step.
    #[inline(always)]
    pub fn first<B: Walk, L: Ledger>(
        &mut self,
        bench: &B,
        row: u16,
        steps: &mut Steps<L>,
    ) -> Option<u16>
        requires row { row < (B.slate bench.now).scan.dims.h }
        requires start { self.old ≡ 0 }
        ensures least { result ≡ next_live (B.slate bench.now).scan row self.old }
        ensures found { IfSome result (λ x.
            (self.old ≤ x) × IsTrue (is_live (B.slate bench.now).scan row x)) }
        ensures passed { let s = (B.slate bench.now).scan in
            HasNoLive s row self.old (unwrap_or result s.dims.w) }
        ensures behind { IfSome result (λ x. self.new ≡ x + 1) }
        ensures steps { steps.new ≡ steps.old + 1 }
    {
        let live = bench.live_words(row, steps);
        if live.summary == 0 {
            return None;
        }
        self.find(live.words, live.summary)
    }

    /// The next column of a row that holds an operator as the grid stands now; none exactly where
    /// there is none. The cursor then stands after it. It counts one step.
    #[inline(always)]
    pub fn next<B: Walk, L: Ledger>(
        &mut self,
        bench: &B,
        row: u16,
        steps: &mut Steps<L>,
    ) -> Option<u16>
        requires row { row < (B.slate bench.now).scan.dims.h }
        requires column { self.old ≤ (B.slate bench.now).scan.dims.w }
        ensures least { result ≡ next_live (B.slate bench.now).scan row self.old }
        ensures found { IfSome result (λ x.
            (self.old ≤ x) × IsTrue (is_live (B.slate bench.now).scan row x)) }
        ensures passed { let s = (B.slate bench.now).scan in
            HasNoLive s row self.old (unwrap_or result s.dims.w) }
        ensures behind { IfSome result (λ x. self.new ≡ x + 1) }
        ensures steps { steps.new ≡ steps.old + 1 }
    {
        let seen = bench.live_words(row, steps);
        self.find(seen.words, seen.summary)
    }

    /// The least bit of a row's words, at the column or after it, that is set. The cursor then
    /// stands after it. The summary says which words have a bit.
    #[inline(always)]
    fn find(&mut self, words: &[u64], summary: u64) -> Option<u16>
        requires some { (self.old - 1) / WORD_COLUMNS < length words.now }
        requires few { length words.now ≤ ROW_WORDS }
        requires summary { IsSummary (has_bit words.now) summary }
        ensures least { result ≡ first_where (has_bit words.now) self.old
            (WORD_COLUMNS * length words.now - self.old) }
        ensures behind { IfSome result (λ x. self.new ≡ x + 1) }
    {
        // Most operators stand in the word of the one before, so it is looked at by itself.
        let first = self.word;
        let base = self.base;
        let bits = words[first] & self.ahead;
        if bits != 0 {
            return Some(self.stop(first, base, bits));
        }
        // Of the later words the summary tells the first that has a bit.
        let rest = summary & ((u64::MAX << first) << 1);
        if rest == 0 {
            return None;
        }
        let word = rest.trailing_zeros() as usize;
        Some(self.stop(word, word * usize::from(WORD_COLUMNS), words[word]))
    }

    /// The column of the least bit of a word, whose first bit stands for the column `base`. The
    /// cursor then stands after it.
    #[inline(always)]
    fn stop(&mut self, word: usize, base: usize, bits: u64) -> u16
        requires some { 0 < bits }
        requires few { word < ROW_WORDS }
        requires base { base ≡ word * WORD_COLUMNS }
        ensures column { result ≡ word * WORD_COLUMNS + trailing_zeros w64 bits }
        ensures behind { self.new ≡ result + 1 }
    {
        let bit = bits.trailing_zeros();
        let column = (base + bit as usize) as u16;
        *self = Cursor {
            column: column + 1,
            word,
            base,
            ahead: (u64::MAX << bit) << 1,
        };
        column
    }
}

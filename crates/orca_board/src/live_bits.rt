ghost use Rattle.std.specs.Prelude.{ℕ, ◌≡◌, ◌+◌, ◌-◌, ◌*◌, ◌/◌, ◌%◌, ◌<◌, ◌≤◌, ◌==◌, Bool, false, length, ◌&&◌, if◌then◌else◌, nat_lt, IfOk, slice_index, slice_set};
ghost use Rattle.std.specs.Int.{bit_at};
ghost use Rattle.orca_base.specs.Glyphs.{IsGlyph, is_operator};
ghost use Rattle.orca_base.specs.declared.limits.TheConstants.{LIVE_WORDS, MAX_CELLS, MAX_COLUMNS, MAX_ROWS, WORD_COLUMNS};
ghost use Rattle.orca_op.specs.Live.{has_bit, IsSummary};
ghost use Rattle.orca_board.specs.LiveBits.{AreLiveBits, no_bits};

use orca_base::limits::{LIVE_WORDS, MAX_ROWS, ROW_WORDS, WORD_COLUMNS};
use orca_base::{Glyph, Memory};
use std::alloc::Global;
use std::marker::Model;

/// A bit for each place of the largest grid, in reading order. A contract sees the words, whose bits count
/// from the least significant one. Most words of a large grid are zero, so a summary of each row says
/// which of its words are not, and the others are not looked at.
#[derive(Drop)]
pub(crate) struct LiveBits {
    words: Vec<u64>,
    /// A summary of each row: its bit `k` is set exactly where word `k` of the row is not zero.
    rows: Vec<u64>,
}

impl Model for LiveBits {
    ghost use Rattle.std.specs.Prelude.{ℕ, List};
    ghost use Rattle.orca_board.specs.LiveBits.{AreLiveBits};

    ghost Value = { List ℕ };

    ghost view = { λ b. b.words.items };

    ghost invariant = { λ b. AreLiveBits b.words.items b.rows.items };
}

impl LiveBits {
    /// No bit. [`Memory`] where the room for the bits is refused.
    pub fn start(alloc: Global) -> Result<LiveBits, Memory>
        ensures { IfOk result (λ bits. bits ≡ no_bits) }
    {
        let mut words = Vec::new(alloc);
        words.resize(LIVE_WORDS, 0)?;
        let mut rows = Vec::new(alloc);
        rows.resize(usize::from(MAX_ROWS), 0)?;
        Ok(LiveBits { words, rows })
    }

    /// Sets the bit of a place, by its number in the largest grid, or takes it away. Few writes come to it,
    /// so it stands apart, and what is left of a write is short enough to stand in each operator.
    #[inline(never)]
    pub fn set(&mut self, number: usize, on: bool)
        requires { number < MAX_CELLS }
        ensures { (n : ℕ) → has_bit self.new n ≡ (if n == number then on else has_bit self.old n) }
    {
        let word = number / usize::from(WORD_COLUMNS);
        let bit = (number % usize::from(WORD_COLUMNS)) as u16;
        let bits = with_bit(self.words[word], bit, on);
        self.store(word, bits);
    }

    /// Sets the bits of one word by its cells. The word is stored once for all of them.
    pub fn set_word(&mut self, word: usize, cells: &[Glyph])
        requires number { word < LIVE_WORDS }
        requires whole { length cells.now ≡ WORD_COLUMNS }
        ensures glyphs { (k : ℕ) → k < WORD_COLUMNS → IsGlyph (slice_index cells.now k) }
        ensures bits { (n : ℕ) → has_bit self.new n ≡ (if n / WORD_COLUMNS == word
            then is_operator (slice_index cells.now (n % WORD_COLUMNS)) else has_bit self.old n) }
    {
        let bits = operator_bits(cells);
        self.store(word, bits);
    }

    /// Stores a word, and its bit of the row's summary with it.
    fn store(&mut self, word: usize, bits: u64)
        requires { word < LIVE_WORDS }
        ensures whole { length self.old ≡ LIVE_WORDS }
        ensures stored { self.new ≡ slice_set self.old word bits }
    {
        self.words[word] = bits;
        let row = word / ROW_WORDS;
        self.rows[row] = with_bit(self.rows[row], (word % ROW_WORDS) as u16, bits != 0);
    }

    /// Which words of a row are not zero: bit `k` of this number is set exactly where word `k` is not.
    pub fn summary(&self, row: u16) -> u64
        requires { row < MAX_ROWS }
        ensures { IsSummary
            (λ x. nat_lt x MAX_COLUMNS && has_bit self.now (row * MAX_COLUMNS + x)) result }
    {
        summary_of(&self.words, &self.rows, row)
    }

    /// The words of a row of `w` columns.
    pub fn row(&self, row: u16, w: u16) -> &[u64]
        requires row { row < MAX_ROWS }
        requires columns { w ≤ MAX_COLUMNS }
        ensures size { length result.now ≡ (w + (WORD_COLUMNS - 1)) / WORD_COLUMNS }
        ensures bits { (x : ℕ) → x < WORD_COLUMNS * length result.now
            → has_bit result.now x ≡ has_bit self.now (row * MAX_COLUMNS + x) }
    {
        let first = usize::from(row) * ROW_WORDS;
        let columns = usize::from(WORD_COLUMNS);
        let many = (usize::from(w) + (columns - 1)) / columns;
        &self.words[first..first + many]
    }
}

/// The word whose bits are set exactly where a cell holds an operator.
fn operator_bits(cells: &[Glyph]) -> u64
    requires { length cells.now ≡ WORD_COLUMNS }
    ensures glyphs { (k : ℕ) → k < WORD_COLUMNS → IsGlyph (slice_index cells.now k) }
    ensures bits { (k : ℕ) → k < WORD_COLUMNS
        → (bit_at result k == 1) ≡ is_operator (slice_index cells.now k) }
{
    let mut word = 0;
    for k in 0..WORD_COLUMNS {
        let cell = cells[usize::from(k)];
        // For the proof alone: the byte of a cell is one of a glyph.
        let _byte = cell.byte();
        word = or_bit(word, k, cell.is_operator());
    }
    word
}

/// The word with this bit set or taken away.
fn with_bit(word: u64, bit: u16, on: bool) -> u64
    requires { bit < WORD_COLUMNS }
    ensures here { (bit_at result bit == 1) ≡ on }
    ensures other { (k : ℕ) → (k == bit) ≡ false → bit_at result k ≡ bit_at word k }
{
    let alone = 1 << bit;
    if on {
        word | alone
    } else {
        (word | alone) ^ alone
    }
}

/// The word with this bit, which was not set, set where `on` is. A branch would be guessed wrong at
/// many cells, so there is none.
fn or_bit(word: u64, bit: u16, on: bool) -> u64
    requires place { bit < WORD_COLUMNS }
    requires off { bit_at word bit ≡ 0 }
    ensures here { (bit_at result bit == 1) ≡ on }
    ensures other { (k : ℕ) → (k == bit) ≡ false → bit_at result k ≡ bit_at word k }
{
    word | (u64::from(on) << bit)
}

/// The summary of a row, whose words stand in the contract alone.
fn summary_of(_words: &[u64], rows: &[u64], row: u16) -> u64
    requires bits { AreLiveBits _words.now rows.now }
    requires row { row < MAX_ROWS }
    ensures { IsSummary
        (λ x. nat_lt x MAX_COLUMNS && has_bit _words.now (row * MAX_COLUMNS + x)) result }
{
    rows[usize::from(row)]
}

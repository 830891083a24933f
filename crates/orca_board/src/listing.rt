ghost use Rattle.std.specs.Prelude.{◌≡◌, ◌<◌, ◌≤◌, ℕ, [], length, slice_index_or, IfOk};
ghost use Rattle.orca_board.specs.Listing.{changes_with};

use orca_base::limits::MAX_CELLS;
use orca_base::{Change, Dims, Glyph, Memory, Place};
use std::alloc::Global;
use std::marker::Model;

/// The places of the grid at the last `begin` that were written since, each once, with their glyphs of
/// that moment.
#[derive(Drop)]
pub(crate) struct Listing {
    began: Dims,
    changes: Vec<Change>,
    /// For each place of the largest grid the round in which it was listed last.
    rounds: Vec<u16>,
    /// The round since the last `begin`. No place was listed in a later one.
    round: u16,
}

impl Model for Listing {
    ghost use Rattle.std.specs.Prelude.{vec_capacity};
    ghost use Rattle.orca_board.specs.Listing.{Listed, IsRounded};

    ghost Value = { Listed };

    ghost view = { λ l. record { began = l.began; changes = l.changes.items } };

    ghost invariant = { λ l. IsRounded l.changes.items l.rounds.items l.round
        (vec_capacity l.changes) };
}

impl Listing {
    /// No change, for a grid of this size. It takes the room for each place that a grid may have.
    /// [`Memory`] where that room is refused.
    pub fn start(alloc: Global, dims: Dims) -> Result<Listing, Memory>
        ensures { IfOk result (λ listing. listing ≡ record { began = dims; changes = [] }) }
    {
        let mut rounds = Vec::new(alloc);
        rounds.resize(MAX_CELLS, 0)?;
        Ok(Listing {
            began: dims,
            changes: Vec::with_capacity(alloc, MAX_CELLS)?,
            rounds,
            round: 1,
        })
    }

    /// The size of the grid at the last `begin`.
    pub fn dims(&self) -> Dims
        ensures { result ≡ self.now.began }
    {
        self.began
    }

    /// The changes, in the order in which their places were first written.
    pub fn changes(&self) -> &[Change]
        ensures { result.now ≡ self.now.changes }
    {
        self.changes.as_slice()
    }

    /// Lists a place with its glyph before it is written, where the place lay in the grid at the last
    /// `begin` and isn't listed yet.
    pub fn add(&mut self, at: Place, old: Glyph)
        ensures { self.new ≡ record self.old {
          changes = changes_with self.old.began self.old.changes at old;
        } }
    {
        let began = self.began;
        if at.y >= began.h || at.x >= began.w {
            return;
        }
        let i = Dims::largest().index(at);
        if self.rounds[i] != self.round {
            self.rounds[i] = self.round;
            self.changes.push_reserved(Change { at, old });
        }
    }

    /// No change any more, for a grid of this size. It begins a round, so it takes no longer for a
    /// larger grid, nor for more changes.
    pub fn begin(&mut self, dims: Dims)
        ensures { self.new ≡ record { began = dims; changes = [] } }
    {
        self.round = next_round(&mut self.rounds, self.round);
        self.changes.clear();
        self.began = dims;
    }
}

/// The next round, in which no place was listed. Where the numbers end, the places forget their
/// rounds.
fn next_round(rounds: &mut [u16], round: u16) -> u16
    requires past { (i : ℕ) → slice_index_or rounds.old i 0 ≤ round }
    ensures size { length rounds.new ≡ length rounds.old }
    ensures later { (i : ℕ) → slice_index_or rounds.new i 0 < result }
{
    if round == u16::MAX {
        forget(rounds);
        return 1;
    }
    round + 1
}

/// Sets each round to 0. It stands apart, since it is done once in 65,535 rounds.
#[inline(never)]
fn forget(rounds: &mut [u16])
    ensures size { length rounds.new ≡ length rounds.old }
    ensures none { (i : ℕ) → slice_index_or rounds.new i 0 ≡ 0 }
{
    for i in 0..rounds.len() {
        rounds[i] = 0;
    }
}

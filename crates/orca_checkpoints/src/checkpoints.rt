ghost use Rattle.std.specs.Prelude.{ℕ, ◌≡◌, ◌+◌, ◌*◌, ◌<◌, ◌≤◌, length, slice_get, slice_index_or, Some, IfOk};
ghost use Rattle.orca_base.specs.Grids.{IsSheet, cells_of};
ghost use Rattle.orca_checkpoints.specs.Points.{ArePoints, Point, best_of, is_point_due, next_moment, points_at_start, points_dropped, points_kept};

use crate::slot::{Checkpoint, Slot};
use orca_base::limits::{FIRST_SPACING, MAX_CHECKPOINTS};
use orca_base::{Look, Memory, Steps};
use std::alloc::Global;
use std::marker::Model;
use std::sync::ledger::Ledger;

/// The checkpoints of a history: the grid and the tick of moment 0, and of each moment `spacing`
/// entries later. At most [`MAX_CHECKPOINTS`] are kept. A contract sees the spacing, and the grids
/// with their ticks.
#[derive(Drop)]
pub struct Checkpoints {
    /// The one of a number is that of `number * spacing`, for the first `count` of them.
    slots: Vec<Slot>,
    count: u32,
    spacing: u32,
}

impl Model for Checkpoints {
    ghost use Rattle.orca_checkpoints.specs.Points.{Points};

    ghost Value = { Points };

    ghost use Rattle.orca_checkpoints.specs.Checkpoints.{AreCheckpoints, points_of};

    ghost view = { points_of };

    ghost invariant = { AreCheckpoints };
}

impl Checkpoints {
    /// The grid that is looked at, at moment 0 and tick 0. It takes at once the room for all
    /// checkpoints. [`Memory`] if that room is refused.
    pub fn start<T: Look>(alloc: Global, look: &T) -> Result<Checkpoints, Memory>
        ensures { IfOk result (λ checkpoints. checkpoints ≡ points_at_start (T.sheet look.now)) }
    {
        let mut slots = empty_slots(alloc)?;
        let opened = &mut slots[0];
        opened.fill(0, look);
        Ok(Checkpoints {
            slots,
            count: 1,
            spacing: FIRST_SPACING,
        })
    }

    /// Whether a checkpoint is to be kept as the history comes to so many entries.
    pub fn due(&self, len: u32) -> bool
        ensures due { result ≡ is_point_due self.now len }
        ensures points { ArePoints self.now }
    {
        len % self.spacing == 0
    }

    /// Keeps the grid that is looked at, with this tick, as the history comes to the next moment
    /// that is due. If there are too many, the spacing doubles, and each second one stays. It counts
    /// a step for each cell of the grid if it keeps it, and else none. It takes no memory.
    pub fn keep<T: Look, L: Ledger>(&mut self, len: u32, tick: u32, look: &T, steps: &mut Steps<L>)
        requires { len ≡ next_moment self.old }
        ensures kept { self.new ≡ points_kept self.old
            (record { sheet = T.sheet look.now; tick = tick }) }
        ensures steps { length self.old.kept < MAX_CHECKPOINTS
            → steps.new ≡ steps.old + cells_of (T.sheet look.now).dims }
        ensures idle { MAX_CHECKPOINTS ≤ length self.old.kept → steps.new ≡ steps.old }
        ensures most { steps.new ≤ steps.old + cells_of (T.sheet look.now).dims }
    {
        if self.count < MAX_CHECKPOINTS {
            steps.count_many(look.dims().cells());
            let slot = &mut self.slots[self.count as usize];
            slot.fill(tick, look);
            self.count += 1;
        } else {
            // The new one has an odd number, so it isn't among those that stay.
            // For the proof alone: the size of the grid, and how many there were.
            let _whole = look.dims();
            let _len = len;
            keep_every_second(&mut self.slots);
            self.count = MAX_CHECKPOINTS / 2 + 1;
            self.spacing *= 2;
        }
    }

    /// The last checkpoint at a moment or before it.
    pub fn best(&self, moment: u32) -> Checkpoint<'_>
        ensures moment { result.moment ≡ best_of self.now moment * self.now.spacing }
        ensures before { result.moment ≤ moment }
        ensures point { slice_get self.now.kept (best_of self.now moment) ≡ Some (record {
          sheet = record { dims = result.dims; cells = result.cells.now };
          tick = result.tick;
        }) }
        ensures whole { IsSheet (record { dims = result.dims; cells = result.cells.now }) }
        ensures points { ArePoints self.now }
    {
        let number = (moment / self.spacing).min(self.count - 1);
        let slot = &self.slots[number as usize];
        slot.checkpoint(number * self.spacing)
    }

    /// Drops the checkpoints above a moment.
    pub fn drop_above(&mut self, moment: u32)
        ensures { self.new ≡ points_dropped self.old moment }
    {
        let last = moment / self.spacing;
        if last < self.count {
            self.count = last + 1;
        }
    }

    /// The number of checkpoints, 1 to [`MAX_CHECKPOINTS`].
    pub fn count(&self) -> u32
        ensures count { result ≡ length self.now.kept }
        ensures points { ArePoints self.now }
    {
        self.count
    }

    /// How many entries lie between two checkpoints, [`FIRST_SPACING`] or more.
    pub fn spacing(&self) -> u32
        ensures spacing { result ≡ self.now.spacing }
        ensures points { ArePoints self.now }
    {
        self.spacing
    }
}

/// The room for all checkpoints.
fn empty_slots(alloc: Global) -> Result<Vec<Slot>, Memory>
    ensures { IfOk result (λ slots. length slots.items ≡ MAX_CHECKPOINTS) }
{
    let mut slots = Vec::with_capacity(alloc, MAX_CHECKPOINTS as usize)?;
    for _ in 0..MAX_CHECKPOINTS {
        slots.push(Slot::start(alloc)?)?;
    }
    Ok(slots)
}

/// Moves every second one of all slots to the front, in their order.
fn keep_every_second(slots: &mut Vec<Slot>)
    requires { length slots.old.items ≡ MAX_CHECKPOINTS }
    ensures second { (k : ℕ) (d : Point) → 2 * k < MAX_CHECKPOINTS
        → slice_index_or slots.new.items k d ≡ slice_index_or slots.old.items (2 * k) d }
    ensures all { length slots.new.items ≡ MAX_CHECKPOINTS }
{
    for k in 1..MAX_CHECKPOINTS as usize / 2 + 1 {
        slots.swap(k, 2 * k);
    }
}

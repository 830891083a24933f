ghost use Rattle.std.specs.Prelude.{◌≡◌, ◌-◌, ◌<◌, ◌≤◌, true, [], ◌∷◌, ◌++◌, length, take, drop, slice_get, option_copied, IfOk};
ghost use Rattle.std.specs.Option.{option_map};
ghost use Rattle.orca_base.specs.Histories.{few_touched, worn_of};
ghost use Rattle.orca_history.specs.Trails.{touched_of, untouched};

use circular_buffer::HeapCircularBuffer;
use orca_base::Memory;
use orca_base::limits::{KEPT_PATCHES, KEPT_TOUCHED, MAX_TOUCHED};
use orca_patch::Patch;
use std::alloc::Global;
use std::marker::Model;

/// The patch of an entry, and how many cells the entry touched.
#[derive(Drop)]
pub(crate) struct Kept {
    pub patch: Patch,
    pub touched: u32,
}

/// The patches of the newest entries. At most [`KEPT_PATCHES`] are kept, and together their entries
/// touched at most [`KEPT_TOUCHED`] cells.
#[derive(Drop)]
pub(crate) struct Ring {
    kept: HeapCircularBuffer<Kept>,
    touched: u64,
}

impl Model for Ring {
    ghost use Rattle.std.specs.Prelude.{List};
    ghost use Rattle.orca_history.specs.declared.ring.Kept.{Kept as KeptPatch};
    ghost use Rattle.orca_history.specs.Ring.{IsRing};

    ghost Value = { List KeptPatch };

    ghost view = { λ r. r.kept.items };

    ghost invariant = { IsRing };
}

impl Ring {
    /// No patch, with room for [`KEPT_PATCHES`]. [`Memory`] if there is none.
    pub fn start(alloc: Global) -> Result<Ring, Memory>
        ensures { IfOk result (λ ring. ring ≡ []) }
    {
        Ok(Ring {
            kept: HeapCircularBuffer::with_capacity(alloc, KEPT_PATCHES as usize)?,
            touched: 0,
        })
    }

    /// Adds a patch. As few of the oldest go as serve, and it answers how many.
    pub fn push(&mut self, patch: Patch, touched: u32) -> u32
        requires most { touched ≤ MAX_TOUCHED }
        ensures worn { result
            ≡ worn_of (touched_of (self.old ++ record { patch = patch; touched = touched } ∷ [])) }
        ensures kept { self.new
            ≡ drop result (self.old ++ record { patch = patch; touched = touched } ∷ []) }
        ensures few { few_touched (touched_of self.new) ≡ true }
        ensures most { result ≤ length self.old }
    {
        let before = self.len();
        while !self.has_room(touched) {
            self.drop_oldest();
        }
        let worn = before - self.len();
        self.add(patch, touched);
        worn
    }

    /// Whether one more entry, which touched so many cells, may keep its patch beside these.
    fn has_room(&self, touched: u32) -> bool
        ensures room { result ≡ few_touched (touched_of self.now ++ touched ∷ []) }
        ensures few { few_touched (touched_of self.now) ≡ true }
    {
        self.kept.len() < KEPT_PATCHES as usize && self.touched + u64::from(touched) <= KEPT_TOUCHED
    }

    /// Drops the oldest patch.
    fn drop_oldest(&mut self)
        requires { 0 < length self.old }
        ensures { self.new ≡ drop 1 self.old }
    {
        let oldest = self.kept.pop_front().unwrap();
        self.touched -= u64::from(oldest.touched);
    }

    /// Drops the newest patch.
    fn drop_newest(&mut self)
        requires { 0 < length self.old }
        ensures { self.new ≡ take (length self.old - 1) self.old }
    {
        let newest = self.kept.pop_back().unwrap();
        self.touched -= u64::from(newest.touched);
    }

    /// Adds a patch, for which there is room.
    fn add(&mut self, patch: Patch, touched: u32)
        requires { few_touched (touched_of self.old ++ touched ∷ []) ≡ true }
        ensures kept { self.new ≡ self.old ++ record { patch = patch; touched = touched } ∷ [] }
        ensures few { few_touched (touched_of self.new) ≡ true }
    {
        self.touched += u64::from(touched);
        // There is room for one more, so no patch is pushed out.
        let _ = self.kept.push_back(Kept { patch, touched });
    }

    /// The number of patches.
    fn len(&self) -> u32
        ensures len { result ≡ length self.now }
        ensures few { few_touched (touched_of self.now) ≡ true }
    {
        self.kept.len() as u32
    }

    /// Keeps the first `count` patches, and adds that of an entry that touched nothing.
    pub fn jump(&mut self, count: u32, patch: Patch)
        requires { count < KEPT_PATCHES }
        ensures kept { self.new ≡ take count self.old ++ untouched patch ∷ [] }
        ensures few { few_touched (touched_of self.new) ≡ true }
    {
        while self.len() > count {
            self.drop_newest();
        }
        self.add(patch, 0);
    }

    /// The patch of a number, counted from the oldest.
    pub fn patch(&self, index: u32) -> Option<&Patch>
        ensures patch { option_copied result
            ≡ option_map (λ k. k.patch) (slice_get self.now index) }
    {
        match self.kept.get(index as usize) {
            Some(kept) => Some(&kept.patch),
            None => None,
        }
    }
}

ghost use Rattle.std.specs.Prelude.{◌≡◌, ◌+◌, ◌<◌, ◌≤◌, ◌↔◌, [], drop, length, slice_get, option_copied, ◌&&◌, false, not, IfOk, IfSome, IsSome, OnOk, OnErr};
ghost use Rattle.std.specs.Option.{option_map_or};
ghost use Rattle.orca_base.specs.Histories.{edits_grid, group_of, is_size_used, last_edit};
ghost use Rattle.orca_history.specs.Trails.{IsTrail, patch_at, trail_at_start, trail_jumped, trail_pushed, trail_redone, trail_retracted};

use crate::entries::Entries;
use crate::ring::Ring;
use orca_base::limits::{MAX_HISTORY, MAX_TOUCHED};
use orca_base::{Entry, Memory};
use orca_patch::Patch;
use std::alloc::Global;
use std::marker::Model;

/// The entries of a session since its opened grid, what jumps cut off of them, and the patches of
/// the newest. A contract sees how many entries there may be, the entries, the tail of those that
/// were cut off, the number of the first entry whose patch is kept, and the patches from that one
/// on, each with the number of cells that its entry touched.
#[derive(Drop)]
pub struct History {
    limit: u32,
    entries: Entries,
    first: u32,
    ring: Ring,
}

impl Model for History {
    ghost use Rattle.orca_history.specs.Trails.{Trail, IsTrail};

    ghost Value = { Trail };

    ghost use Rattle.orca_history.specs.History.{trail_of};

    ghost view = { trail_of };

    ghost invariant = { λ h. IsTrail (trail_of h) };
}

impl History {
    /// No entry. There may be at most `limit`, which is 1 to [`MAX_HISTORY`]. It takes the room for
    /// the patches. [`Memory`] if there is none.
    pub fn start(alloc: Global, limit: u32) -> Result<History, Memory>
        requires some { 1 ≤ limit }
        requires most { limit ≤ MAX_HISTORY }
        ensures { IfOk result (λ history. history ≡ trail_at_start limit) }
    {
        Ok(History {
            limit,
            entries: Entries::start(alloc),
            first: 0,
            ring: Ring::start(alloc)?,
        })
    }

    /// Adds an entry with its patch, and the number of cells that it touched. The tail is lost, and
    /// of the patches as few of the oldest go as serve. [`Memory`] if there is no room for the
    /// entry: then the history is as before, its tail too, and the entry and the patch are dropped.
    pub fn push(&mut self, entry: Entry, patch: Patch, touched: u32) -> Result<(), Memory>
        requires room { length self.old.entries < self.old.limit }
        requires size { length patch.changes ≤ touched }
        requires most { touched ≤ MAX_TOUCHED }
        ensures pushed { OnOk result (self.new ≡ trail_pushed self.old entry
            (record { patch = patch; touched = touched })) }
        ensures err { OnErr result (self.new ≡ self.old) }
        ensures trail { IsTrail self.new }
    {
        self.entries.push(entry)?;
        self.first += self.ring.push(patch, touched);
        Ok(())
    }

    /// Goes back to a moment: the first `moment` entries stay with their patches, and then comes
    /// `Hush` with this patch of no change. The others are cut off. It takes no memory.
    pub fn jump(&mut self, moment: u32, patch: Patch)
        requires within { moment < length self.old.entries }
        requires no_change { patch.changes ≡ [] }
        ensures jumped { self.new ≡ trail_jumped self.old moment patch }
        ensures trail { IsTrail self.new }
    {
        self.entries.jump(moment);
        self.ring.jump(moment.saturating_sub(self.first), patch);
        self.first = self.first.min(moment);
    }

    /// Brings back the first group of the tail, in place of the last `Hush`, and then comes `Hush`
    /// with this patch of no change. No other patch is kept. Answers how many entries came back. It
    /// takes no memory.
    pub fn redo(&mut self, patch: Patch) -> u32
        requires some { 0 < length self.old.tail }
        requires room { length self.old.entries + group_of self.old.tail ≤ self.old.limit }
        requires no_change { patch.changes ≡ [] }
        ensures redone { self.new ≡ trail_redone self.old patch }
        ensures group { result ≡ group_of self.old.tail }
        ensures trail { IsTrail self.new }
    {
        let group = self.entries.redo();
        self.first = self.entries.len() - 1;
        self.ring.jump(0, patch);
        group
    }

    /// Takes an entry out, and then comes `Hush` with this patch of no change. The tail is lost, and no
    /// other patch is kept. It takes no memory.
    pub fn retract(&mut self, moment: u32, patch: Patch)
        requires within { moment < length self.old.entries }
        requires no_change { patch.changes ≡ [] }
        ensures retracted { self.new ≡ trail_retracted self.old moment patch }
        ensures trail { IsTrail self.new }
    {
        let last = self.entries.len() - 1;
        self.entries.retract(moment);
        self.ring.jump(0, patch);
        self.first = last;
    }

    /// The number of entries, at most [`History::limit`].
    pub fn len(&self) -> u32
        ensures len { result ≡ length self.now.entries }
        ensures trail { IsTrail self.now }
    {
        self.entries.len()
    }

    /// The most entries that there may be, 1 to [`MAX_HISTORY`].
    pub fn limit(&self) -> u32
        ensures { result ≡ self.now.limit }
    {
        self.limit
    }

    /// The entry of a number; none exactly from [`History::len`] on.
    pub fn entry(&self, index: u32) -> Option<&Entry>
        ensures entry { option_copied result ≡ slice_get self.now.entries index }
        ensures some { IsSome result ↔ (index < length self.now.entries) }
    {
        self.entries.entry(index)
    }

    /// The number of the last edit; none exactly if no entry is an edit.
    pub fn last_edit(&self) -> Option<u32>
        ensures last { result ≡ last_edit self.now.entries }
        ensures within { IfSome result (λ index. index < length self.now.entries) }
    {
        self.entries.last_edit()
    }

    /// Whether an entry is a change of size, and an edit of the grid stands after it.
    pub fn is_size_used(&self, index: u32) -> bool
        requires { index < length self.now.entries }
        ensures { result ≡ is_size_used (drop index self.now.entries) }
    {
        self.entries.is_size_used(index)
    }

    /// Whether an entry is an edit of the grid, and no change of size after which another edit of the grid
    /// stands. None is from [`History::len`] on.
    pub fn is_free_edit(&self, index: u32) -> bool
        ensures { result ≡ (option_map_or edits_grid (slice_get self.now.entries index) false
            && not (is_size_used (drop index self.now.entries))) }
    {
        self.entries.is_free_edit(index)
    }

    /// The number of entries of the tail, which jumps cut off and no later push or Retract lost.
    pub fn tail(&self) -> u32
        ensures tail { result ≡ length self.now.tail }
        ensures trail { IsTrail self.now }
    {
        self.entries.tail()
    }

    /// The entry of a number in the tail; none exactly from [`History::tail`] on.
    pub fn tail_entry(&self, index: u32) -> Option<&Entry>
        ensures entry { option_copied result ≡ slice_get self.now.tail index }
        ensures some { IsSome result ↔ (index < length self.now.tail) }
    {
        self.entries.tail_entry(index)
    }

    /// How many entries a redo brings back; 0 exactly if the tail is empty.
    pub fn group(&self) -> u32
        ensures group { result ≡ group_of self.now.tail }
        ensures most { result ≤ length self.now.tail }
    {
        self.entries.group()
    }

    /// The number of the first entry whose patch is kept.
    pub fn first_patch(&self) -> u32
        ensures { result ≡ self.now.first }
    {
        self.first
    }

    /// The patch of an entry; none exactly below [`History::first_patch`] and from [`History::len`]
    /// on.
    pub fn patch(&self, index: u32) -> Option<&Patch>
        ensures patch { option_copied result ≡ patch_at self.now index }
        ensures some { IsSome result
            ↔ ((self.now.first ≤ index) × (index < length self.now.entries)) }
    {
        if index < self.first {
            return None;
        }
        self.ring.patch(index - self.first)
    }
}

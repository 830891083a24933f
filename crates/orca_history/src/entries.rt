ghost use Rattle.std.specs.Prelude.{◌≡◌, ◌+◌, ◌-◌, ◌^◌, ◌<◌, ◌≤◌, ◌↔◌, [], ◌∷◌, ◌++◌, length, take, drop, reverse, slice_get, option_copied, ◌&&◌, false, not, IfSome, IsSome, OnOk, OnErr, vec_len, vec_capacity};
ghost use Rattle.orca_base.specs.declared.command.Entry.TheVariants.{Hush};
ghost use Rattle.std.specs.List.{list_any, remove};
ghost use Rattle.std.specs.Option.{option_map_or};
ghost use Rattle.orca_base.specs.Histories.{done_of, edits_grid, group_of, is_done, is_edit, is_size_used, last_edit, sets_size};
ghost use Rattle.orca_history.specs.Entries.{IsLists};

use orca_base::{Entry, Memory};
use std::alloc::Global;
use std::marker::Model;

/// The entries of a history, and the tail: what jumps cut off, in the order in which it comes back.
/// It keeps room for all jumps and redos to come.
#[derive(Drop)]
pub(crate) struct Entries {
    done: Vec<Entry>,
    // The tail, in reverse order.
    undone: Vec<Entry>,
}

impl Model for Entries {
    ghost use Rattle.orca_history.specs.Entries.{AreEntries, Lists, lists_of};

    ghost Value = { Lists };

    ghost view = { lists_of };

    ghost invariant = { AreEntries };
}

impl Entries {
    /// No entry.
    pub fn start(alloc: Global) -> Entries
        ensures { result ≡ record { entries = []; tail = [] } }
    {
        Entries {
            done: Vec::new(alloc),
            undone: Vec::new(alloc),
        }
    }

    /// Adds an entry, and the tail is lost. [`Memory`] if there is no room: then all is as before.
    pub fn push(&mut self, entry: Entry) -> Result<(), Memory>
        requires { length self.old.entries < 2 ^ 32 }
        ensures pushed { OnOk result
            (self.new ≡ record { entries = self.old.entries ++ entry ∷ []; tail = [] }) }
        ensures err { OnErr result (self.new ≡ self.old) }
    {
        // One more for the Hush of a jump. The tail of a jump may hold all entries.
        self.done.reserve(2)?;
        let all = self.done.len() + 1;
        self.undone.reserve(all.saturating_sub(self.undone.len()))?;
        self.undone.clear();
        self.done.push_reserved(entry);
        Ok(())
    }

    /// Keeps the first entries, and then comes Hush. The others are cut off.
    pub fn jump(&mut self, moment: u32)
        requires { moment < length self.old.entries }
        ensures entries { self.new.entries ≡ take moment self.old.entries ++ Hush ∷ [] }
        ensures tail { self.new.tail
            ≡ done_of (drop moment self.old.entries) ++ self.old.tail }
        ensures lists { IsLists self.new }
    {
        cut(&mut self.done, &mut self.undone, moment as usize);
        self.done.push_reserved(Entry::Hush);
    }

    /// In place of the last Hush the group comes back, and then comes Hush again. Answers how many
    /// entries came back.
    pub fn redo(&mut self) -> u32
        requires some { 0 < length self.old.tail }
        requires few { length self.old.tail < 2 ^ 32 }
        ensures group { result ≡ group_of self.old.tail }
        ensures entries { self.new.entries
            ≡ take (length self.old.entries - 1) self.old.entries
            ++ (take result self.old.tail ++ Hush ∷ []) }
        ensures tail { self.new.tail ≡ drop result self.old.tail }
        ensures lists { IsLists self.new }
    {
        let group = self.group();
        let _ = self.done.pop();
        bring_back(&mut self.done, &mut self.undone, group);
        self.done.push_reserved(Entry::Hush);
        group
    }

    /// Takes an entry out, and then comes Hush. The tail is lost.
    pub fn retract(&mut self, moment: u32)
        requires { moment < length self.old.entries }
        ensures entries { self.new.entries ≡ remove self.old.entries moment ++ Hush ∷ [] }
        ensures tail { self.new.tail ≡ [] }
        ensures lists { IsLists self.new }
    {
        let _ = self.done.remove(moment as usize);
        self.done.push_reserved(Entry::Hush);
        self.undone.clear();
    }

    /// The number of entries.
    pub fn len(&self) -> u32
        requires { length self.now.entries < 2 ^ 32 }
        ensures { result ≡ length self.now.entries }
    {
        self.done.len() as u32
    }

    /// The entry of a number; none exactly from [`Entries::len`] on.
    pub fn entry(&self, index: u32) -> Option<&Entry>
        ensures entry { option_copied result ≡ slice_get self.now.entries index }
        ensures some { IsSome result ↔ (index < length self.now.entries) }
    {
        self.done.get(index as usize)
    }

    /// The number of the last edit; none exactly if no entry is an edit.
    pub fn last_edit(&self) -> Option<u32>
        requires { length self.now.entries < 2 ^ 32 }
        ensures last { result ≡ last_edit self.now.entries }
        ensures within { IfSome result (λ index. index < length self.now.entries) }
    {
        let mut end = self.done.len();
        while end > 0 {
            end -= 1;
            if is_edit(&self.done[end]) {
                return Some(end as u32);
            }
        }
        None
    }

    /// Whether an entry is a change of size, and an edit of the grid stands after it.
    pub fn is_size_used(&self, index: u32) -> bool
        requires { index < length self.now.entries }
        ensures { result ≡ is_size_used (drop index self.now.entries) }
    {
        let first = index as usize;
        sets_size(&self.done[first]) && edit_grid(&self.done[first + 1..])
    }

    /// Whether an entry is an edit of the grid, and no change of size after which another edit of the grid
    /// stands. None is from [`Entries::len`] on.
    pub fn is_free_edit(&self, index: u32) -> bool
        ensures { result ≡ (option_map_or edits_grid (slice_get self.now.entries index) false
            && not (is_size_used (drop index self.now.entries))) }
    {
        match self.done.get(index as usize) {
            Some(entry) => edits_grid(entry) && !self.is_size_used(index),
            None => false,
        }
    }

    /// The number of entries of the tail.
    pub fn tail(&self) -> u32
        requires { length self.now.tail < 2 ^ 32 }
        ensures { result ≡ length self.now.tail }
    {
        self.undone.len() as u32
    }

    /// The entry of a number in the tail; none exactly from [`Entries::tail`] on.
    pub fn tail_entry(&self, index: u32) -> Option<&Entry>
        ensures entry { option_copied result ≡ slice_get self.now.tail index }
        ensures some { IsSome result ↔ (index < length self.now.tail) }
    {
        let count = self.undone.len();
        if index as usize >= count {
            return None;
        }
        self.undone.get(count - 1 - index as usize)
    }

    /// How many entries a redo brings back; 0 exactly if the tail is empty.
    pub fn group(&self) -> u32
        requires { length self.now.tail < 2 ^ 32 }
        ensures group { result ≡ group_of self.now.tail }
        ensures most { result ≤ length self.now.tail }
    {
        let count = self.undone.len();
        if count == 0 {
            return 0;
        }
        let mut group = 1;
        while group < count && !is_edit(&self.undone[count - 1 - group]) {
            group += 1;
        }
        group as u32
    }
}

/// Moves the entries from a moment on to what was undone, but for those that are Hush.
fn cut(done: &mut Vec<Entry>, undone: &mut Vec<Entry>, moment: usize)
    requires within { moment ≤ vec_len done.old }
    requires room { length (done_of done.old.items) + vec_len undone.old ≤ vec_capacity undone.old }
    ensures done { done.new.items ≡ take moment done.old.items }
    ensures undone { reverse undone.new.items
        ≡ done_of (drop moment done.old.items) ++ reverse undone.old.items }
    ensures done_room { vec_capacity done.new ≡ vec_capacity done.old }
    ensures undone_room { vec_capacity undone.new ≡ vec_capacity undone.old }
{
    while done.len() > moment {
        let entry = done.pop().unwrap();
        if is_done(&entry) {
            undone.push_reserved(entry);
        }
    }
}

/// Moves so many entries back from what was undone.
fn bring_back(done: &mut Vec<Entry>, undone: &mut Vec<Entry>, count: u32)
    requires within { count ≤ vec_len undone.old }
    requires room { vec_len done.old + count ≤ vec_capacity done.old }
    ensures done { done.new.items ≡ done.old.items ++ take count (reverse undone.old.items) }
    ensures undone { reverse undone.new.items ≡ drop count (reverse undone.old.items) }
    ensures done_room { vec_capacity done.new ≡ vec_capacity done.old }
    ensures undone_room { vec_capacity undone.new ≡ vec_capacity undone.old }
{
    for back in 0..count {
        // For the proof alone: its invariant counts by this.
        let _ = back;
        done.push_reserved(undone.pop().unwrap());
    }
}

/// Whether an entry is an edit.
fn is_edit(entry: &Entry) -> bool
    ensures { result ≡ is_edit entry.now }
{
    !matches!(entry, Entry::Frame | Entry::Hush)
}

/// Whether one of the entries edits the grid.
fn edit_grid(entries: &[Entry]) -> bool
    ensures { result ≡ list_any edits_grid entries.now }
{
    entries.iter().any(|entry| edits_grid(entry))
}

/// Whether an entry edits the grid.
fn edits_grid(entry: &Entry) -> bool
    ensures { result ≡ edits_grid entry.now }
{
    !matches!(entry, Entry::Reset | Entry::Frame | Entry::Hush)
}

/// Whether an entry is a change of size.
fn sets_size(entry: &Entry) -> bool
    ensures { result ≡ sets_size entry.now }
{
    matches!(entry, Entry::Resize { .. })
}

/// Whether an entry is no end of a jump.
fn is_done(entry: &Entry) -> bool
    ensures { result ≡ is_done entry.now }
{
    !matches!(entry, Entry::Hush)
}

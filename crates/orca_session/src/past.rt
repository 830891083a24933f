ghost use Rattle.std.specs.Prelude.{◌≡◌, ◌+◌, ◌/◌, ◌<◌, ◌≤◌, false, [], drop, length, max, IfOk, OnOk, OnErr};
ghost use Rattle.orca_base.specs.declared.command.Command.TheVariants as command_of;
ghost use Rattle.orca_base.specs.Histories.{group_of, is_size_used};
ghost use Rattle.orca_board.specs.Sizes.{cut_places};
ghost use Rattle.orca_edit.specs.Editing.{FitsIn};
ghost use Rattle.orca_edit.specs.Obeying.{first_standing, history_tests};
ghost use Rattle.orca_edit.specs.Pieces.{apply, silence};
ghost use Rattle.orca_edit.specs.Prices.{IsSpaced, best_moment, jump_price, jumped, load_price, new_cells, pushed, redo_price, kept_redone, kept_retracted, retract_price, undo_price};
ghost use Rattle.orca_edit.specs.Pricing.{listed_by};
ghost use Rattle.orca_op.specs.Slate.{residue};
ghost use Rattle.orca_op.specs.State.{sheet_of};
ghost use Rattle.orca_patch.specs.Patches.{no_change};
ghost use Rattle.orca_session.specs.Past.{kept_entry, moment_of, numbers_of, past_at_start, past_closed, past_jumped, past_pushed, past_redone, past_retracted, plain_machine, present, redone};

use crate::again::{do_again, tick_after};
use crate::keeping::{keep_due, touched_by};
use orca_base::limits::{FIRST_SPACING, MAX_CHECKPOINTS, MAX_HISTORY};
use orca_base::{Command, Dims, Entry, Look, Memory, Now, Rule, Steps};
use orca_board::Board;
use orca_checkpoints::{Checkpoints, checkpoint_law};
use orca_edit::touch_law;
use orca_grid::Grid;
use orca_history::{History, patch_laws};
use orca_op::Bench;
use orca_patch::Patch;
use std::alloc::Global;
use std::marker::Model;
use std::snapshot::Snapshot;
use std::sync::ledger::Ledger;

/// What a session began with, what was done since, and what jumps cut off. By it a board goes back
/// to a moment, and forward again.
#[derive(Drop)]
pub(crate) struct Past {
    alloc: Global,
    /// For the proof alone: it has no bytes when the program runs. The first checkpoint has this
    /// grid.
    opened: Snapshot<Grid>,
    seed: u32,
    history: History,
    checkpoints: Checkpoints,
    /// How many of the entries came before the last close.
    closed: u32,
    /// The most entries that there have been.
    peak: u32,
}

impl Model for Past {
    ghost use Rattle.orca_session.specs.Past.{PastState, IsPast};

    ghost Value = { PastState };

    ghost use Rattle.orca_session.specs.Views.{past_of};

    ghost view = { past_of };

    ghost invariant = { λ p. IsPast (past_of p) };
}

impl Past {
    /// Nothing was done with the grid. [`Memory`] if the room for the checkpoints, or for the
    /// patches, is refused.
    pub fn start(alloc: Global, grid: &Grid, seed: u32, limit: u32) -> Result<Past, Memory>
        requires some { 1 ≤ limit }
        requires most { limit ≤ MAX_HISTORY }
        ensures { IfOk result (λ past. past ≡ past_at_start grid.now seed limit) }
    {
        checkpoint_law();
        Ok(Past {
            alloc,
            opened: Snapshot::of(grid),
            seed,
            history: History::start(alloc, limit)?,
            checkpoints: Checkpoints::start(alloc, grid)?,
            closed: 0,
            peak: 0,
        })
    }

    /// The first rule that stands against the command, of those on the history.
    pub fn rule_against(&self, command: &Command) -> Option<Rule>
        ensures rule { result ≡ first_standing
            (history_tests self.now.trail.limit self.now.trail.entries self.now.trail.tail
            command.now) }
        ensures most { length self.now.trail.entries ≤ self.now.peak }
    {
        match *command {
            Command::Copy { .. } | Command::Clip { .. } => None,
            Command::Undo => match self.history.last_edit() {
                Some(_) => None,
                None => Some(Rule::NothingToUndo),
            },
            Command::Rewind { moment } => {
                let kept = self.history.len();
                if moment < kept {
                    return None;
                }
                Some(Rule::NoSuchMoment { kept })
            }
            Command::Redo => self.rule_against_redo(),
            Command::Retract { moment } => self.rule_against_retract(moment),
            _ => {
                if self.history.len() < self.history.limit() {
                    return None;
                }
                Some(Rule::HistoryFull)
            }
        }
    }

    /// The first rule that stands against a redo, of those on the history.
    fn rule_against_redo(&self) -> Option<Rule>
        ensures rule { result ≡ first_standing
            (history_tests self.now.trail.limit self.now.trail.entries self.now.trail.tail
            command_of.Redo) }
    {
        if self.history.tail() == 0 {
            return Some(Rule::NothingToRedo);
        }
        if self.history.len() + self.history.group() <= self.history.limit() {
            return None;
        }
        Some(Rule::HistoryFull)
    }

    /// The first rule that stands against a Retract, of those on the history.
    fn rule_against_retract(&self, moment: u32) -> Option<Rule>
        ensures rule { result ≡ first_standing
            (history_tests self.now.trail.limit self.now.trail.entries self.now.trail.tail
            (command_of.Retract moment)) }
    {
        if moment >= self.history.len() {
            return Some(Rule::NothingToUndo);
        }
        if self.history.is_size_used(moment) {
            return Some(Rule::SizeInUse);
        }
        None
    }

    /// Adds the entry that was done on the board since its last `begin`, with the patch of what it
    /// changed, and a checkpoint if one is due. `dims` and `tick` are those before it. What was cut
    /// off is lost. If memory is refused, the board goes back to the grid before, and nothing was
    /// done.
    pub fn push<L: Ledger>(
        &mut self,
        entry: Entry,
        board: &mut Board,
        dims: Dims,
        tick: u32,
        steps: &mut Steps<L>,
    ) -> Result<(), Memory>
        requires room { length self.old.trail.entries < self.old.trail.limit }
        requires fits { FitsIn (present self.old).sheet.dims entry }
        requires began { board.old.began ≡ (present self.old).sheet }
        requires listed { board.old.listed ≡ listed_by (present self.old) entry }
        requires size { dims ≡ (present self.old).sheet.dims }
        requires tick { tick ≡ (present self.old).tick }
        requires sheet { sheet_of board.old.scan ≡ (apply (present self.old) entry).piece.sheet }
        ensures pushed { OnOk result (self.new
            ≡ past_pushed self.old entry (kept_entry entry board.old tick) self.new.points) }
        ensures present { OnOk result
            (present self.new ≡ (apply (present self.old) entry).piece) }
        ensures board { OnOk result (board.new ≡ board.old) }
        ensures early { OnOk result (tick < MAX_HISTORY) }
        ensures numbers { OnOk result
            (numbers_of self.new ≡ pushed (plain_machine self.new) (numbers_of self.old)) }
        ensures steps { OnOk result
            (steps.new ≤ steps.old + new_cells self.old.points.spacing (plain_machine self.new)) }
        ensures err { OnErr result (self.new ≡ self.old) }
        ensures reverted { OnErr result (sheet_of board.new.scan ≡ (present self.old).sheet) }
        ensures paid { OnErr result (steps.new + residue board.new
            ≤ steps.old + residue board.old
            + length (cut_places board.old.scan.dims dims)) }
    {
        let pushed = self.push_changes(entry, board, dims, tick, steps);
        if pushed.is_err() {
            board.revert(steps);
        }
        pushed
    }

    /// Adds the entry with the patch of the board's changes, and how many cells it touched.
    fn push_changes<L: Ledger>(
        &mut self,
        entry: Entry,
        board: &Board,
        dims: Dims,
        tick: u32,
        steps: &mut Steps<L>,
    ) -> Result<(), Memory>
        requires room { length self.old.trail.entries < self.old.trail.limit }
        requires fits { FitsIn (present self.old).sheet.dims entry }
        requires began { board.now.began ≡ (present self.old).sheet }
        requires listed { board.now.listed ≡ listed_by (present self.old) entry }
        requires size { dims ≡ (present self.old).sheet.dims }
        requires tick { tick ≡ (present self.old).tick }
        requires sheet { sheet_of board.now.scan ≡ (apply (present self.old) entry).piece.sheet }
        ensures pushed { OnOk result (self.new
            ≡ past_pushed self.old entry (kept_entry entry board.now tick) self.new.points) }
        ensures present { OnOk result
            (present self.new ≡ (apply (present self.old) entry).piece) }
        ensures early { OnOk result (tick < MAX_HISTORY) }
        ensures numbers { OnOk result
            (numbers_of self.new ≡ pushed (plain_machine self.new) (numbers_of self.old)) }
        ensures steps { OnOk result
            (steps.new ≤ steps.old + new_cells self.old.points.spacing (plain_machine self.new)) }
        ensures err { OnErr result (self.new ≡ self.old) }
        ensures idle { OnErr result (steps.new ≡ steps.old) }
    {
        touch_law();
        // The contract of `dims` says what holds of the board.
        let now = Bench::dims(board);
        let patch = Patch::of_changes(self.alloc, dims, tick, board.changes())?;
        let touched = touched_by(&entry, &patch, dims, now);
        let after = tick_after(&entry, tick);
        self.history.push(entry, patch, touched)?;
        let len = self.history.len();
        self.peak = self.peak.max(len);
        keep_due(&mut self.checkpoints, len, after, board, steps);
        Ok(())
    }

    /// Takes the board to a moment, and answers the tick of it. It undoes the entries from the last
    /// one down, if their patches are kept, and else goes on from the last checkpoint at the moment
    /// or before it.
    pub fn go_back<L: Ledger>(&self, board: &mut Board, moment: u32, steps: &mut Steps<L>) -> u32
        requires within { moment < length self.now.trail.entries }
        requires sheet { sheet_of board.old.scan ≡ (present self.now).sheet }
        ensures sheet { sheet_of board.new.scan ≡ (moment_of self.now moment).sheet }
        ensures tick { result ≡ (moment_of self.now moment).tick }
        ensures price { steps.new + residue board.new ≤ steps.old + residue board.old
            + jump_price (plain_machine self.now) (numbers_of self.now) moment }
    {
        if moment < self.history.first_patch() {
            self.load_on(board, moment, steps)
        } else {
            self.undo_on(board, moment, steps)
        }
    }

    /// Undoes the entries from the last one down to a moment.
    fn undo_on<L: Ledger>(&self, board: &mut Board, moment: u32, steps: &mut Steps<L>) -> u32
        requires kept { self.now.trail.first ≤ moment }
        requires within { moment < length self.now.trail.entries }
        requires sheet { sheet_of board.old.scan ≡ (present self.now).sheet }
        ensures sheet { sheet_of board.new.scan ≡ (moment_of self.now moment).sheet }
        ensures tick { result ≡ (moment_of self.now moment).tick }
        ensures price { steps.new + residue board.new ≤ steps.old + residue board.old
            + undo_price (plain_machine self.now) moment }
    {
        let mut tick = 0;
        let mut at = self.history.len();
        while at > moment {
            at -= 1;
            tick = self.history.patch(at).unwrap().undo_on(board, steps);
        }
        tick
    }

    /// Loads the last checkpoint at a moment or before it, and does the entries from there again.
    fn load_on<L: Ledger>(&self, board: &mut Board, moment: u32, steps: &mut Steps<L>) -> u32
        requires within { moment < length self.now.trail.entries }
        requires sheet { sheet_of board.old.scan ≡ (present self.now).sheet }
        ensures sheet { sheet_of board.new.scan ≡ (moment_of self.now moment).sheet }
        ensures tick { result ≡ (moment_of self.now moment).tick }
        ensures price { steps.new + residue board.new ≤ steps.old + residue board.old
            + load_price (plain_machine self.now) (best_moment self.now.points.spacing moment) moment }
    {
        let best = self.checkpoints.best(moment);
        board.load(best.dims, best.cells, steps);
        let seed = self.seed;
        let mut tick = best.tick;
        for at in best.moment..moment {
            let entry = self.history.entry(at).unwrap();
            tick = do_again(board, entry, Now { tick, seed }, steps);
        }
        tick
    }

    /// Does the first group of what was cut off again on the board of the piece as it stands, and
    /// brings it back, with the checkpoints that are due. Answers the tick after it. No note
    /// sounds.
    pub fn redo<L: Ledger>(&mut self, board: &mut Board, tick: u32, steps: &mut Steps<L>) -> u32
        requires some { 0 < length self.old.trail.tail }
        requires room { length self.old.trail.entries + group_of self.old.trail.tail
            ≤ self.old.trail.limit }
        requires sheet { sheet_of board.old.scan ≡ (present self.old).sheet }
        requires tick { tick ≡ (present self.old).tick }
        ensures sheet { sheet_of board.new.scan ≡ (redone self.old).sheet }
        ensures tick { result ≡ (redone self.old).tick }
        ensures redone { self.new ≡ past_redone self.old
            (no_change board.new.scan.dims result) self.new.points }
        ensures present { present self.new ≡ silence (redone self.old) }
        ensures silent { (present self.old).notes ≡ [] }
        ensures numbers { numbers_of self.new ≡ kept_redone (plain_machine self.new) (numbers_of self.old)
            (group_of self.old.trail.tail) }
        ensures price { steps.new + residue board.new ≤ steps.old + residue board.old
            + redo_price (plain_machine self.new) (numbers_of self.old) (group_of self.old.trail.tail) }
    {
        let len = self.history.len();
        let group = self.history.group();
        let seed = self.seed;
        // The moment after the last Hush becomes that after the group's first entry.
        self.checkpoints.drop_above(len - 1);
        let mut tick = tick;
        for at in 0..group {
            let entry = self.history.tail_entry(at).unwrap();
            tick = do_again(board, entry, Now { tick, seed }, steps);
            keep_due(&mut self.checkpoints, len + at, tick, board, steps);
        }
        let patch = Patch::empty(self.alloc, Look::dims(board), tick);
        self.history.redo(patch);
        patch_laws();
        touch_law();
        self.peak = self.peak.max(len + group);
        keep_due(&mut self.checkpoints, len + group, tick, board, steps);
        tick
    }

    /// Takes an entry out, and ends every note. The board goes to the moment of the entry, and those
    /// after it are done again from there on, with the checkpoints that are due. Answers the tick
    /// after them. It takes no memory.
    pub fn retract<L: Ledger>(
        &mut self,
        board: &mut Board,
        moment: u32,
        steps: &mut Steps<L>,
    ) -> u32
        requires within { moment < length self.old.trail.entries }
        requires free { is_size_used (drop moment self.old.trail.entries) ≡ false }
        requires sheet { sheet_of board.old.scan ≡ (present self.old).sheet }
        ensures sheet { sheet_of board.new.scan ≡ (present self.new).sheet }
        ensures tick { result ≡ (present self.new).tick }
        ensures retracted { self.new ≡ past_retracted self.old moment
            (no_change board.new.scan.dims result) self.new.points }
        ensures silent { (present self.new).notes ≡ [] }
        ensures numbers { numbers_of self.new
            ≡ kept_retracted (plain_machine self.new) (numbers_of self.old) }
        ensures price { steps.new + residue board.new ≤ steps.old + residue board.old
            + retract_price (plain_machine self.old) (numbers_of self.old) moment
            (plain_machine self.new) }
    {
        self.is_spaced();
        let mut tick = self.load_on(board, moment, steps);
        let len = self.history.len();
        let seed = self.seed;
        self.checkpoints.drop_above(moment);
        for at in moment..len - 1 {
            // Each entry after it moves down by one.
            let entry = self.history.entry(at + 1).unwrap();
            tick = do_again(board, entry, Now { tick, seed }, steps);
            keep_due(&mut self.checkpoints, at + 1, tick, board, steps);
        }
        let patch = Patch::empty(self.alloc, Look::dims(board), tick);
        self.history.retract(moment, patch);
        patch_laws();
        touch_law();
        keep_due(&mut self.checkpoints, len, tick, board, steps);
        tick
    }

    /// Cuts the history to its first entries, and ends every note. The board and the tick are those
    /// of that moment. A checkpoint is kept if one is due.
    pub fn jump<L: Ledger>(&mut self, moment: u32, board: &Board, tick: u32, steps: &mut Steps<L>)
        requires within { moment < length self.old.trail.entries }
        requires sheet { sheet_of board.now.scan ≡ (moment_of self.old moment).sheet }
        requires tick { tick ≡ (moment_of self.old moment).tick }
        ensures jumped { self.new ≡ past_jumped self.old moment
            (no_change board.now.scan.dims tick) self.new.points }
        ensures present { present self.new ≡ silence (moment_of self.old moment) }
        ensures numbers { numbers_of self.new
            ≡ jumped (plain_machine self.new) (numbers_of self.old) moment }
        ensures steps { steps.new
            ≤ steps.old + new_cells self.old.points.spacing (plain_machine self.new) }
    {
        let patch = Patch::empty(self.alloc, Look::dims(board), tick);
        self.history.jump(moment, patch);
        touch_law();
        self.closed = self.closed.min(moment + 1);
        self.checkpoints.drop_above(moment);
        keep_due(&mut self.checkpoints, moment + 1, tick, board, steps);
    }

    /// Ends every note.
    pub fn close(&mut self)
        ensures closed { self.new ≡ past_closed self.old }
        ensures present { present self.new ≡ silence (present self.old) }
    {
        self.closed = self.history.len();
    }

    /// The entries that were done, those that jumps cut off, and the patches of the newest.
    pub fn history(&self) -> &History
        ensures { result.now ≡ self.now.trail }
    {
        &self.history
    }

    /// The seed of random numbers.
    pub fn seed(&self) -> u32
        ensures { result ≡ (present self.now).seed }
    {
        self.seed
    }

    /// The most entries that there have been.
    pub fn peak(&self) -> u32
        ensures peak { result ≡ self.now.peak }
        ensures most { length self.now.trail.entries ≤ result }
    {
        self.peak
    }

    /// How many entries lie between two checkpoints.
    pub fn spacing(&self) -> u32
        ensures spacing { result ≡ self.now.points.spacing }
        ensures least { FIRST_SPACING ≤ result }
        ensures most { result ≤ max FIRST_SPACING (self.now.peak / 32) }
    {
        self.checkpoints.spacing()
    }

    /// The number of checkpoints: one for each multiple of the spacing, up to the number of
    /// entries.
    pub fn checkpoints(&self) -> u32
        ensures multiples { result ≡ length self.now.trail.entries / self.now.points.spacing + 1 }
        ensures most { result ≤ MAX_CHECKPOINTS }
    {
        self.checkpoints.count()
    }

    /// What holds of the checkpoints, whatever was done.
    pub fn is_spaced(&self)
        ensures { IsSpaced (plain_machine self.now) (numbers_of self.now) }
    {
        // For the proof alone: the clauses of this call have what holds.
        let _spacing = self.checkpoints.spacing();
    }

    /// Where its memory comes from.
    pub fn allocator(&self) -> Global {
        self.alloc
    }
}

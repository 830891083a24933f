ghost use Rattle.std.specs.Prelude.{◌≡◌, ◌+◌, ◌/◌, ◌<◌, ◌≤◌, ◌↔◌, [], ◌∷◌, ◌++◌, length, max, slice_get, option_copied, All, None, Ok, IfOk, IfSome, IsSome, OnOk, OnErr};
ghost use Rattle.std.specs.Option.{option_map, option_map_or};
ghost use Rattle.orca_base.specs.Areas.{IsArea};
ghost use Rattle.orca_base.specs.Edits.{block_of};
ghost use Rattle.orca_base.specs.Ranges.{CarriesFewValues};
ghost use Rattle.orca_base.specs.declared.command.Command.{Command};
ghost use Rattle.orca_base.specs.declared.command.Command.TheVariants as command_of;
ghost use Rattle.orca_edit.specs.Editing.{FitsIn, IsGridEdit};
ghost use Rattle.orca_base.specs.declared.command.Reply.TheVariants.{Copied, Edited};
ghost use Rattle.orca_edit.specs.Machines.{Acts, Obeys, obeyed};
ghost use Rattle.orca_edit.specs.Obeying.{carry_out, clip_after, jump_to, piece_of, rule_against};
ghost use Rattle.orca_edit.specs.Prices.{charge, jump_price, jumped, kept_after, kept_by, new_cells, price, pushed};
ghost use Rattle.orca_notes.specs.Device.{Plays};
ghost use Rattle.orca_session.specs.Session.{IsBlockEdit, clip_with, edit_price, session_at_start};

use crate::past::Past;
use orca_base::limits::{FIRST_SPACING, MAX_CHECKPOINTS, MAX_HISTORY};
use orca_base::{
    Area, Block, Command, Dims, Entry, Fault, Glyph, Look, Marks, Memory, Note, Now, Place, Reply,
    Rule, Steps,
};
use orca_board::{Board, listing_law};
use orca_edit::{Edit, Machine, apply, block_rule, copy, put_in_clip, to_entry, touch_law};
use orca_frame::frame;
use orca_grid::Grid;
use orca_notes::{Messages, Notes};
use orca_op::Bench;
use std::alloc::Global;
use std::marker::Model;
use std::sync::ledger::Ledger;

/// A piece that plays, with all that was done to it since its grid was opened. A contract sees the
/// machine that it means, the numbers that it keeps, how much its board has to clear, and the marks
/// that it shows.
#[derive(Drop)]
pub struct Session {
    past: Past,
    board: Board,
    notes: Notes,
    clip: Option<Block>,
    tick: u32,
}

impl Model for Session {
    ghost use Rattle.orca_session.specs.Session.{SessionState, KeepsSession};

    ghost Value = { SessionState };

    ghost use Rattle.orca_session.specs.Views.{session_of};

    ghost view = { session_of };

    ghost invariant = { λ s. KeepsSession s.past s.board s.notes s.tick };
}

impl Session {
    /// A session with an opened grid, whose history may have at most `limit` entries, from 1 to
    /// [`MAX_HISTORY`]. It shows no marks. It takes the room for the grid, the notes, the patches
    /// and the checkpoints. [`Memory`] if that room is refused.
    pub fn start(alloc: Global, grid: &Grid, seed: u32, limit: u32) -> Result<Session, Memory>
        requires some { 1 ≤ limit }
        requires most { limit ≤ MAX_HISTORY }
        ensures { IfOk result (λ session. session ≡ session_at_start grid.now seed limit) }
    {
        listing_law();
        Ok(Session {
            past: Past::start(alloc, grid, seed, limit)?,
            board: Board::start(alloc, grid)?,
            notes: Notes::start(alloc)?,
            clip: None,
            tick: 0,
        })
    }

    /// The entry of a number; none exactly from [`Machine::moments`] on.
    pub fn entry(&self, index: u32) -> Option<&Entry>
        ensures entry { option_copied result ≡ slice_get self.now.machine.history index }
        ensures some { IsSome result ↔ (index < length self.now.machine.history) }
    {
        self.past.history().entry(index)
    }

    /// How many entries lie between two checkpoints: [`FIRST_SPACING`], and twice as many each time
    /// that more than [`MAX_CHECKPOINTS`] would be kept. So it stays small beside the history.
    pub fn spacing(&self) -> u32
        ensures spacing { result ≡ self.now.kept.spacing }
        ensures least { FIRST_SPACING ≤ result }
        ensures most { result ≤ max FIRST_SPACING (self.now.kept.peak / 32) }
    {
        self.past.spacing()
    }

    /// How many checkpoints are kept, 1 to [`MAX_CHECKPOINTS`]: those of the multiples of the
    /// spacing, up to the length of the history.
    pub fn checkpoints(&self) -> u32
        ensures multiples { result
            ≡ length self.now.machine.history / self.now.kept.spacing + 1 }
        ensures most { result ≤ MAX_CHECKPOINTS }
    {
        self.past.checkpoints()
    }

    /// The first rule that stands against the command.
    fn rule_against(&self, command: &Command) -> Option<Rule>
        ensures rule { result ≡ rule_against self.now.machine command.now }
        ensures most { length self.now.machine.history ≤ self.now.kept.peak }
    {
        let on_history = self.past.rule_against(command);
        let dims = Look::dims(&self.board);
        match block_rule(command, dims, self.clip.as_ref()) {
            Some(rule) => Some(rule),
            None => on_history,
        }
    }

    /// Does what a command asks for, if no rule stands against it.
    fn obey<L: Ledger>(
        &mut self,
        command: &Command,
        messages: &mut Messages,
        steps: &mut Steps<L>,
    ) -> Result<Reply, Fault>
        requires silent { messages.old ≡ [] }
        ensures acts { Acts self.old.machine command.now result self.new.machine messages.new }
        ensures kept { self.new.kept
            ≡ kept_after self.old.machine self.old.kept command.now result }
        ensures price { steps.new + self.new.residue ≤ steps.old + self.old.residue
            + charge result self.old.machine self.old.kept command.now }
    {
        if let Some(rule) = self.rule_against(command) {
            return Err(Fault::Refused(rule));
        }
        match *command {
            Command::Frame => self.play(messages, steps),
            Command::Reset => self.reset(messages, steps),
            Command::Undo => Ok(self.undo(messages, steps)),
            Command::Rewind { moment } => Ok(self.jump(moment, messages, steps)),
            Command::Redo => Ok(self.redo(steps)),
            Command::Retract { moment } => Ok(self.retract(moment, messages, steps)),
            Command::Hush => self.hush(messages, steps),
            Command::Clip { y, x, glyph } => self.clip(y, x, glyph),
            _ => self.edit(command, steps),
        }
    }

    /// Plays a frame, and adds it to the history.
    #[tactic(auto, unfolding(orca_edit::specs::Pieces::apply))]
    fn play<L: Ledger>(
        &mut self,
        messages: &mut Messages,
        steps: &mut Steps<L>,
    ) -> Result<Reply, Fault>
        requires allowed { rule_against self.old.machine command_of.Frame ≡ None }
        requires silent { messages.old ≡ [] }
        ensures acts { Acts self.old.machine command_of.Frame result self.new.machine messages.new }
        ensures kept { self.new.kept
            ≡ kept_after self.old.machine self.old.kept command_of.Frame result }
        ensures price { steps.new + self.new.residue ≤ steps.old + self.old.residue
            + charge result self.old.machine self.old.kept command_of.Frame }
    {
        touch_law();
        let tick = self.tick;
        let now = Now {
            tick,
            seed: self.past.seed(),
        };
        let dims = Look::dims(&self.board);
        frame(&mut self.board, now, steps);
        let pushed = self
            .past
            .push(Entry::Frame, &mut self.board, dims, tick, steps);
        let Ok(()) = pushed else {
            return Err(Fault::Memory);
        };
        self.notes.advance(tick, self.board.events(), messages);
        self.tick = tick + 1;
        Ok(Reply::Framed { tick })
    }

    /// Begins again at tick 0, ends every note, and adds that to the history.
    #[tactic(auto, unfolding(orca_edit::specs::Pieces::apply))]
    fn reset<L: Ledger>(
        &mut self,
        messages: &mut Messages,
        steps: &mut Steps<L>,
    ) -> Result<Reply, Fault>
        requires allowed { rule_against self.old.machine command_of.Reset ≡ None }
        requires silent { messages.old ≡ [] }
        ensures acts { Acts self.old.machine command_of.Reset result self.new.machine messages.new }
        ensures kept { self.new.kept
            ≡ kept_after self.old.machine self.old.kept command_of.Reset result }
        ensures price { steps.new + self.new.residue ≤ steps.old + self.old.residue
            + charge result self.old.machine self.old.kept command_of.Reset }
    {
        listing_law();
        touch_law();
        let dims = Look::dims(&self.board);
        self.board.begin(steps);
        let pushed = self
            .past
            .push(Entry::Reset, &mut self.board, dims, self.tick, steps);
        let Ok(()) = pushed else {
            return Err(Fault::Memory);
        };
        self.tick = 0;
        self.notes.hush(messages);
        Ok(Reply::Edited)
    }

    /// Ends every note, and adds that to the history.
    #[tactic(auto, unfolding(orca_edit::specs::Pieces::apply))]
    fn hush<L: Ledger>(
        &mut self,
        messages: &mut Messages,
        steps: &mut Steps<L>,
    ) -> Result<Reply, Fault>
        requires allowed { rule_against self.old.machine command_of.Hush ≡ None }
        requires silent { messages.old ≡ [] }
        ensures acts { Acts self.old.machine command_of.Hush result self.new.machine messages.new }
        ensures kept { self.new.kept
            ≡ kept_after self.old.machine self.old.kept command_of.Hush result }
        ensures price { steps.new + self.new.residue ≤ steps.old + self.old.residue
            + charge result self.old.machine self.old.kept command_of.Hush }
    {
        listing_law();
        touch_law();
        let dims = Look::dims(&self.board);
        self.board.begin(steps);
        let pushed = self
            .past
            .push(Entry::Hush, &mut self.board, dims, self.tick, steps);
        let Ok(()) = pushed else {
            return Err(Fault::Memory);
        };
        self.notes.hush(messages);
        Ok(Reply::Edited)
    }

    /// Edits the grid by a block, or takes the clip, or both.
    fn edit<L: Ledger>(&mut self, command: &Command, steps: &mut Steps<L>) -> Result<Reply, Fault>
        requires editing { IsBlockEdit command.now }
        requires allowed { rule_against self.old.machine command.now ≡ None }
        ensures obeys { Obeys self.old.machine command.now result self.new.machine [] }
        ensures notes { (piece_of self.new.machine).notes ≡ (piece_of self.old.machine).notes }
        ensures kept { self.new.kept
            ≡ kept_after self.old.machine self.old.kept command.now result }
        ensures price { steps.new + self.new.residue ≤ steps.old + self.old.residue
            + charge result self.old.machine self.old.kept command.now }
    {
        let dims = Look::dims(&self.board);
        let Edit { entry, take } = to_entry(command, dims, self.clip.as_ref())?;
        match self.carry_out(entry, take, steps) {
            Ok(reply) => Ok(reply),
            Err(Memory) => Err(Fault::Memory),
        }
    }

    /// Takes an area of the grid as the clip, and does an entry that edits the grid, each if there
    /// is one. The area is copied before the grid changes. If memory is refused, nothing was done.
    fn carry_out<L: Ledger>(
        &mut self,
        entry: Option<Entry>,
        take: Option<Area>,
        steps: &mut Steps<L>,
    ) -> Result<Reply, Memory>
        requires edit { IfSome entry IsGridEdit }
        requires fits { IfSome entry (FitsIn (piece_of self.old.machine).sheet.dims) }
        requires inside { IfSome take (IsArea (piece_of self.old.machine).sheet.dims) }
        requires room { IsSome entry → length self.old.machine.history < self.old.machine.limit }
        ensures done { IfOk result (λ reply. (c : Command) → IsBlockEdit c
            → carry_out self.old.machine c
            (clip_after self.old.machine.clip (piece_of self.old.machine).sheet take) entry
            ≡ obeyed (Ok reply) self.new.machine []) }
        ensures err { OnErr result (self.new.machine ≡ self.old.machine) }
        ensures notes { (piece_of self.new.machine).notes ≡ (piece_of self.old.machine).notes }
        ensures reply { IfOk result (λ reply. reply ≡ option_map_or (λ _. Edited) entry Copied) }
        ensures kept { IfOk result (λ reply.
            self.new.kept ≡ kept_by reply self.new.machine self.old.kept) }
        ensures paid { IfOk result (λ reply. steps.new + self.new.residue
            ≤ steps.old + self.old.residue + edit_price (piece_of self.old.machine) entry
            + option_map_or (λ _. new_cells self.old.kept.spacing self.new.machine) entry 0) }
        ensures same { OnErr result (self.new.kept ≡ self.old.kept) }
        ensures refused { OnErr result (steps.new + self.new.residue
            ≤ steps.old + self.old.residue + edit_price (piece_of self.old.machine) entry) }
    {
        let taken = self.copy_of(take)?;
        let Some(entry) = entry else {
            self.keep_clip(taken);
            return Ok(Reply::Copied);
        };
        self.change(entry, steps)?;
        self.keep_clip(taken);
        Ok(Reply::Edited)
    }

    /// Keeps a block as the clip, if there is one.
    fn keep_clip(&mut self, block: Option<Block>)
        ensures machine { self.new.machine
            ≡ record self.old.machine { clip = clip_with self.old.machine.clip block } }
        ensures kept { self.new.kept ≡ self.old.kept }
        ensures residue { self.new.residue ≡ self.old.residue }
    {
        if block.is_some() {
            self.clip = block;
        }
    }

    /// A copy of the glyphs of an area of the grid, if there is one. [`Memory`] if its room is
    /// refused.
    fn copy_of(&self, area: Option<Area>) -> Result<Option<Block>, Memory>
        requires { IfSome area (IsArea (piece_of self.now.machine).sheet.dims) }
        ensures { IfOk result (λ block.
            block ≡ option_map (block_of (piece_of self.now.machine).sheet) area) }
    {
        match area {
            Some(area) => Ok(Some(copy(self.past.allocator(), &self.board, area)?)),
            None => Ok(None),
        }
    }

    /// Puts a glyph into a cell of the clip. If memory is refused, nothing was done.
    fn clip(&mut self, y: u32, x: u32, glyph: Glyph) -> Result<Reply, Fault>
        requires allowed { rule_against self.old.machine (command_of.Clip y x glyph) ≡ None }
        ensures obeys { Obeys self.old.machine (command_of.Clip y x glyph) result
            self.new.machine [] }
        ensures notes { (piece_of self.new.machine).notes ≡ (piece_of self.old.machine).notes }
        ensures kept { self.new.kept
            ≡ kept_after self.old.machine self.old.kept (command_of.Clip y x glyph) result }
        ensures residue { self.new.residue ≡ self.old.residue }
    {
        let put = put_in_clip(self.past.allocator(), &mut self.clip, y, x, glyph);
        let Ok(()) = put else {
            return Err(Fault::Memory);
        };
        Ok(Reply::Copied)
    }

    /// Does an entry that edits the grid, and adds it to the history. If memory is refused, nothing
    /// was done.
    fn change<L: Ledger>(&mut self, entry: Entry, steps: &mut Steps<L>) -> Result<(), Memory>
        requires edit { IsGridEdit entry }
        requires fits { FitsIn (piece_of self.old.machine).sheet.dims entry }
        requires room { length self.old.machine.history < self.old.machine.limit }
        ensures extended { OnOk result (self.new.machine
            ≡ record self.old.machine {
              history = self.old.machine.history ++ entry ∷ [];
              tail = [];
            }) }
        ensures err { OnErr result (self.new.machine ≡ self.old.machine) }
        ensures notes { (piece_of self.new.machine).notes ≡ (piece_of self.old.machine).notes }
        ensures kept { OnOk result (self.new.kept ≡ pushed self.new.machine self.old.kept) }
        ensures paid { OnOk result (steps.new + self.new.residue
            ≤ steps.old + self.old.residue + price (piece_of self.old.machine) entry
            + new_cells self.old.kept.spacing self.new.machine) }
        ensures same { OnErr result (self.new.kept ≡ self.old.kept) }
        ensures refused { OnErr result (steps.new + self.new.residue
            ≤ steps.old + self.old.residue + price (piece_of self.old.machine) entry) }
    {
        listing_law();
        touch_law();
        let dims = Look::dims(&self.board);
        self.board.begin(steps);
        apply(&mut self.board, &entry, steps);
        self.past
            .push(entry, &mut self.board, dims, self.tick, steps)
    }

    /// Goes back to before the last edit.
    fn undo<L: Ledger>(&mut self, messages: &mut Messages, steps: &mut Steps<L>) -> Reply
        requires allowed { rule_against self.old.machine command_of.Undo ≡ None }
        requires silent { messages.old ≡ [] }
        ensures acts { Acts self.old.machine command_of.Undo (Ok result) self.new.machine
            messages.new }
        ensures kept { self.new.kept
            ≡ kept_after self.old.machine self.old.kept command_of.Undo (Ok result) }
        ensures price { steps.new + self.new.residue ≤ steps.old + self.old.residue
            + charge (Ok result) self.old.machine self.old.kept command_of.Undo }
    {
        let moment = self.past.history().last_edit().unwrap();
        self.jump(moment, messages, steps)
    }

    /// Goes back to a moment, and ends every note.
    fn jump<L: Ledger>(
        &mut self,
        moment: u32,
        messages: &mut Messages,
        steps: &mut Steps<L>,
    ) -> Reply
        requires within { moment < length self.old.machine.history }
        requires silent { messages.old ≡ [] }
        ensures jumped { jump_to self.old.machine moment
            ≡ obeyed (Ok result) self.new.machine messages.new }
        ensures plays { Plays (piece_of self.old.machine).notes messages.new
            (piece_of self.new.machine).notes }
        ensures few_values { All CarriesFewValues messages.new }
        ensures kept { self.new.kept ≡ jumped self.new.machine self.old.kept moment }
        ensures price { steps.new + self.new.residue ≤ steps.old + self.old.residue
            + jump_price self.old.machine self.old.kept moment
            + new_cells self.old.kept.spacing self.new.machine }
    {
        let tick = self.past.go_back(&mut self.board, moment, steps);
        self.past.jump(moment, &self.board, tick, steps);
        self.tick = tick;
        self.notes.hush(messages);
        Reply::Jumped { moment }
    }

    /// Brings back the first group of what was cut off. No note sounds before it nor after it, so
    /// there is no message.
    fn redo<L: Ledger>(&mut self, steps: &mut Steps<L>) -> Reply
        requires allowed { rule_against self.old.machine command_of.Redo ≡ None }
        ensures obeys { Obeys self.old.machine command_of.Redo (Ok result) self.new.machine [] }
        ensures notes { (piece_of self.new.machine).notes ≡ (piece_of self.old.machine).notes }
        ensures silent { (piece_of self.new.machine).notes ≡ [] }
        ensures kept { self.new.kept
            ≡ kept_after self.old.machine self.old.kept command_of.Redo (Ok result) }
        ensures price { steps.new + self.new.residue ≤ steps.old + self.old.residue
            + charge (Ok result) self.old.machine self.old.kept command_of.Redo }
    {
        let entries = self.past.history().group();
        self.tick = self.past.redo(&mut self.board, self.tick, steps);
        Reply::Redone { entries }
    }

    /// Takes an entry out of the history, and ends every note. What is done again is not handed out.
    fn retract<L: Ledger>(
        &mut self,
        moment: u32,
        messages: &mut Messages,
        steps: &mut Steps<L>,
    ) -> Reply
        requires allowed { rule_against self.old.machine (command_of.Retract moment) ≡ None }
        requires silent { messages.old ≡ [] }
        ensures acts { Acts self.old.machine (command_of.Retract moment) (Ok result)
            self.new.machine messages.new }
        ensures kept { self.new.kept
            ≡ kept_after self.old.machine self.old.kept (command_of.Retract moment) (Ok result) }
        ensures price { steps.new + self.new.residue ≤ steps.old + self.old.residue
            + charge (Ok result) self.old.machine self.old.kept (command_of.Retract moment) }
    {
        self.tick = self.past.retract(&mut self.board, moment, steps);
        self.notes.hush(messages);
        Reply::Retracted { moment }
    }
}

impl Look for Session {
    ghost sheet = { λ s. (piece_of s.machine).sheet };

    ghost marks = { λ s. s.marks };

    fn dims(&self) -> Dims {
        Look::dims(&self.board)
    }

    fn glyph_at(&self, at: Place) -> Glyph {
        self.board.glyph_at(at)
    }

    fn marks_at(&self, at: Place) -> Marks {
        self.board.marks_at(at)
    }
}

impl Machine for Session {
    ghost use Rattle.std.specs.Prelude.{refl};

    ghost machine = { λ s. s.machine };

    ghost kept = { λ s. s.kept };

    ghost residue = { λ s. s.residue };

    ghost shown = { λ _. refl };

    #[tactic(auto, using(orca_edit::proofs::RedoLemmas::redoes_undo))]
    fn act<L: Ledger>(
        &mut self,
        command: &Command,
        messages: &mut Messages,
        steps: &mut Steps<L>,
    ) -> Result<Reply, Fault> {
        let answer = self.obey(command, messages, steps);
        self.past.is_spaced();
        answer
    }

    fn close(&mut self, messages: &mut Messages) {
        self.notes.hush(messages);
        self.past.close();
    }

    fn preview_marks<L: Ledger>(&mut self, steps: &mut Steps<L>) {
        touch_law();
        let now = Now {
            tick: self.tick,
            seed: self.past.seed(),
        };
        frame(&mut self.board, now, steps);
        self.board.revert(steps);
    }

    fn tick(&self) -> u32 {
        self.tick
    }

    fn notes(&self) -> &[Note] {
        self.notes.as_slice()
    }

    fn moments(&self) -> u32 {
        self.past.history().len()
    }

    fn limit(&self) -> u32 {
        self.past.history().limit()
    }

    #[tactic(auto, using(crate::proofs::FreeEdits::free_edit))]
    fn is_free_edit(&self, moment: u32) -> bool {
        self.past.history().is_free_edit(moment)
    }

    fn peak(&self) -> u32 {
        self.past.peak()
    }
}

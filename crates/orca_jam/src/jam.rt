//! A machine that several hands share.

ghost use Rattle.std.specs.Prelude.{◌≡◌, ◌+◌, ◌<◌, ◌≤◌, [], false, length, slice_get, IfOk, OnErr, OnOk};
ghost use Rattle.orca_base.specs.declared.command.Command.TheVariants.{Frame};
ghost use Rattle.orca_base.specs.declared.limits.TheConstants.{MAX_HANDS};
ghost use Rattle.orca_edit.specs.Machines.{Acts, Closes, preview_of};
ghost use Rattle.orca_edit.specs.Obeying.{piece_of};
ghost use Rattle.orca_edit.specs.Prices.{charge, kept_after, preview_price};
ghost use Rattle.orca_jam.specs.Crews.{crew_at_start, player_at};
ghost use Rattle.orca_jam.specs.Jamming.{IsAsBefore, Jams, clock_answer, crew_after, crew_in, jam_price};
ghost use Rattle.orca_jam.specs.Laws.{AreOwners, RetractSpares, UndoSpares};
ghost use Rattle.orca_jam.specs.declared.owner.TheConstants.{NOBODY};

use crate::answers::failed;
use crate::shared::{Shared, fit};
use crate::{Crew, JamFault, JamReply, NOBODY, Owner, crew_law};
use orca_base::{Command, Memory, Reply, Steps};
use orca_edit::{Machine, notes_law};
use orca_notes::Messages;
use orca_term::{Editor, Key, ScreenSize};
use std::alloc::Global;
use std::marker::Model;
use std::sync::ledger::Ledger;

/// A machine that several hands share. A contract sees the machine that it means, the numbers that it keeps, how
/// much its next call has to clear, the crew, and the screen that the hands are told of. No run uses it: a
/// performance has a crew of its own, and tests call this.
#[derive(Drop)]
pub struct Jam<M: Machine> {
    shared: Shared<M>,
}

impl<M: Machine> Model for Jam<M> {
    ghost use Rattle.orca_jam.specs.Jamming.{IsJam, JamState, jam_state};

    ghost Value = { JamState };

    ghost view = { λ j. jam_state M.Machine j.shared };

    ghost invariant = { λ j. IsJam (M.machine j.shared.machine) j.shared.crew };
}

impl<M: Machine> Jam<M> {
    /// So many hands share a machine without moments; they are told of a screen of this size. It takes room
    /// for the owners of all entries. [`Memory`] if that room is refused: then the machine is given up.
    pub fn start(alloc: Global, machine: M, hands: u8, screen: ScreenSize) -> Result<Jam<M>, Memory>
        requires some { 1 ≤ hands }
        requires few { hands ≤ MAX_HANDS }
        requires no_moments { (M.machine machine).history ≡ [] }
        ensures machine { IfOk result (λ jam. jam.machine ≡ M.machine machine) }
        ensures crew { IfOk result (λ jam. jam.crew
            ≡ crew_in jam.machine (crew_at_start false false hands jam.crew.room)) }
        ensures screen { IfOk result (λ jam. jam.screen ≡ screen) }
    {
        let room = machine.limit().max(1);
        let mut crew = Crew::start(alloc, false, false, hands, room)?;
        fit(&machine, &mut crew);
        let shared = Shared {
            machine,
            crew,
            screen,
        };
        Ok(Jam { shared })
    }

    /// Does what a key of a hand asks for. The machine does at most one command, and what it may take of steps
    /// for that is what this may take. After a fault all is as before.
    pub fn key<L: Ledger>(
        &mut self,
        hand: u8,
        key: Key,
        messages: &mut Messages,
        steps: &mut Steps<L>,
    ) -> Result<JamReply, JamFault>
        requires hand { hand < length self.old.crew.players }
        requires messages { messages.old ≡ [] }
        ensures jams { Jams self.old hand key result self.new messages.new }
        ensures screen { self.new.screen ≡ self.old.screen }
        ensures price { steps.new + self.new.residue ≤ steps.old + self.old.residue
            + jam_price self.old hand key result }

        // The law of an undo: it leaves every edit of every other hand. So does a Retract, and every frame.
        ensures spares { UndoSpares }
        ensures retracts { RetractSpares }
    {
        crew_law();
        self.shared.key(hand, key, messages, steps)
    }

    /// Plays a frame of the clock, which is nobody's. After a fault all is as before.
    pub fn clock<L: Ledger>(
        &mut self,
        messages: &mut Messages,
        steps: &mut Steps<L>,
    ) -> Result<Reply, JamFault>
        requires messages { messages.old ≡ [] }
        ensures acts { Acts self.old.machine Frame (clock_answer result) self.new.machine
            messages.new }
        ensures kept { self.new.kept
            ≡ kept_after self.old.machine self.old.kept Frame (clock_answer result) }
        ensures crew { OnOk result (self.new.crew
            ≡ crew_after NOBODY Frame self.new.machine self.old.crew) }
        ensures err { OnErr result (self.new.crew ≡ self.old.crew) }
        ensures screen { self.new.screen ≡ self.old.screen }
        ensures price { steps.new + self.new.residue ≤ steps.old + self.old.residue
            + charge (clock_answer result) self.old.machine self.old.kept Frame }
    {
        let command = Command::Frame;
        match self.shared.act(NOBODY, &command, messages, steps) {
            Ok(reply) => Ok(reply),
            Err(fault) => Err(failed(command, fault)),
        }
    }

    /// Whose an entry of the history is; none exactly from the number of its entries on.
    pub fn owner(&self, index: u32) -> Option<Owner>
        ensures owner { result ≡ slice_get self.now.crew.owners index }
        ensures owners { AreOwners self.now.machine.history self.now.crew.owners }
    {
        self.shared.crew.owner(index)
    }

    /// The number of hands.
    pub fn hands(&self) -> u8
        ensures hands { result ≡ length self.now.crew.players }
        ensures some { 1 ≤ result }
        ensures few { result ≤ MAX_HANDS }
    {
        self.shared.crew.hands()
    }

    /// The editor of a hand.
    pub fn editor(&self, hand: u8) -> &Editor
        requires { hand < length self.now.crew.players }
        ensures { result.now ≡ (player_at self.now.crew hand).editor }
    {
        self.shared.crew.editor(hand)
    }

    /// The machine.
    pub fn machine(&self) -> &M
        ensures machine { M.machine result.now ≡ self.now.machine }
        ensures kept { M.kept result.now ≡ self.now.kept }
    {
        &self.shared.machine
    }

    /// Ends all notes that sound, and gives the messages of it. The history stays.
    pub fn close(&mut self, messages: &mut Messages)
        requires { messages.old ≡ [] }
        ensures closes { Closes self.old.machine self.new.machine messages.new }
        ensures kept { self.new.kept ≡ self.old.kept }
        ensures residue { self.new.residue ≡ self.old.residue }
        ensures crew { self.new.crew ≡ self.old.crew }
        ensures screen { self.new.screen ≡ self.old.screen }
    {
        notes_law();
        self.shared.machine.close(messages);
    }

    /// Leaves the marks of a scan of the piece as it stands in the machine.
    pub fn preview_marks<L: Ledger>(&mut self, steps: &mut Steps<L>)
        ensures machine { self.new.machine ≡ self.old.machine }
        ensures kept { self.new.kept ≡ self.old.kept }
        ensures crew { self.new.crew ≡ self.old.crew }
        ensures screen { self.new.screen ≡ self.old.screen }
        ensures price { steps.new + self.new.residue
            ≤ steps.old + self.old.residue + preview_price (piece_of self.old.machine) }
    {
        self.shared.machine.preview_marks(steps);
    }
}

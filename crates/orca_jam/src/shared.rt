//! A machine and the hands that share it.

ghost use Rattle.std.specs.Prelude.{◌≡◌, ◌≢◌, ◌+◌, ◌<◌, ◌≤◌, [], length, IfOk, OnErr, OnOk, Ok, Err};
ghost use Rattle.orca_base.specs.Areas.{IsArea};
ghost use Rattle.orca_base.specs.declared.command.Command.TheVariants.{Redo};
ghost use Rattle.orca_edit.specs.Machines.{Acts};
ghost use Rattle.orca_edit.specs.Obeying.{piece_of};
ghost use Rattle.orca_edit.specs.Prices.{charge, kept_after};
ghost use Rattle.orca_jam.specs.Crews.{player_at};
ghost use Rattle.orca_jam.specs.Jamming.{AreInside, IsJam, Jams, Wished, around_in, crew_after, crew_in, jam_price, before, jam_state, wish_price};
ghost use Rattle.orca_term.specs.declared.editor.Wish.TheVariants as wishes;
ghost use Rattle.orca_term.specs.Editing.{area_of};

use crate::answers::{denied, failed, moved};
use crate::player::Player;
use crate::{Crew, JamFault, JamReply};
use orca_base::{Command, Fault, Look, Place, Reply, Steps};
use orca_edit::Machine;
use orca_notes::Messages;
use orca_term::{Around, Editor, Key, ScreenSize, Wish};
use std::sync::ledger::Ledger;

/// A machine, the hands that share it, and the screen that they are told of.
#[derive(Drop)]
pub struct Shared<M> {
    /// The machine.
    pub machine: M,
    /// The hands.
    pub crew: Crew,
    /// The screen.
    pub screen: ScreenSize,
}

/// What a key is told, where this is told of the hand's own edits.
fn around<M: Machine>(machine: &M, editor: &Editor, screen: ScreenSize, own: Option<u32>) -> Around
    requires inside { IsArea (piece_of (M.machine machine.now)).sheet.dims (area_of editor.now) }
    ensures { result ≡ around_in (M.machine machine.now) editor.now screen own }
{
    machine.is_shown();
    let at = Place {
        y: editor.y,
        x: editor.x,
    };
    Around {
        dims: Look::dims(machine),
        moments: machine.moments(),
        glyph: Look::glyph_at(machine, at),
        screen,
        own,
    }
}

/// Every editor is fitted to the grid of a machine.
pub(crate) fn fit<M: Machine>(machine: &M, crew: &mut Crew)
    ensures crew { crew.new
        ≡ crew_in (M.machine machine.now) crew.old }
    ensures inside { AreInside (M.machine machine.now) crew.new }
{
    machine.is_shown();
    crew.fit(Look::dims(machine));
}

impl<M: Machine> Shared<M> {
    /// Does a command of a hand, or one that no hand asked for.
    pub fn act<L: Ledger>(
        &mut self,
        hand: u8,
        command: &Command,
        messages: &mut Messages,
        steps: &mut Steps<L>,
    ) -> Result<Reply, Fault>
        requires messages { messages.old ≡ [] }
        requires sound { IsJam (M.machine self.old.machine) self.old.crew }
        requires redo { command.now ≢ Redo }
        ensures acts { Acts (M.machine self.old.machine) command.now result (M.machine self.new.machine)
            messages.new }
        ensures kept { M.kept self.new.machine
            ≡ kept_after (M.machine self.old.machine) (M.kept self.old.machine) command.now result }
        ensures price { steps.new + M.residue self.new.machine
            ≤ steps.old + M.residue self.old.machine
            + charge result (M.machine self.old.machine) (M.kept self.old.machine) command.now }
        ensures took { OnOk result (self.new.crew
            ≡ crew_after hand command.now (M.machine self.new.machine) self.old.crew) }
        ensures err { OnErr result (self.new.crew ≡ self.old.crew) }
        ensures sound { IsJam (M.machine self.new.machine) self.new.crew }
        ensures screen { self.new.screen ≡ self.old.screen }
    {
        match self.machine.act(command, messages, steps) {
            Err(fault) => Err(fault),
            Ok(reply) => {
                self.crew.took(hand, command, self.machine.moments());
                fit(&self.machine, &mut self.crew);
                Ok(reply)
            }
        }
    }

    /// Does what a hand asks for whose player has followed the key, and was this one before. After a fault it
    /// is this one again.
    fn grant<L: Ledger>(
        &mut self,
        hand: u8,
        player: &Player,
        wish: &Wish,
        messages: &mut Messages,
        steps: &mut Steps<L>,
    ) -> Result<JamReply, JamFault>
        requires hand { hand < length self.old.crew.players }
        requires messages { messages.old ≡ [] }
        requires inside { IsArea (piece_of (M.machine self.old.machine)).sheet.dims
            (area_of player.now.editor) }
        requires sound { IsJam (M.machine self.old.machine) self.old.crew }
        requires redo { wish.now ≢ wishes.Do Redo }
        ensures wished { Wished (before hand player.now (jam_state M.Machine.own self.old)) hand
            self.old.crew wish.now result (jam_state M.Machine.own self.new) messages.new }
        ensures sound { IsJam (M.machine self.new.machine) self.new.crew }
        ensures screen { self.new.screen ≡ self.old.screen }
        ensures price { steps.new + M.residue self.new.machine
            ≤ steps.old + M.residue self.old.machine
            + wish_price (jam_state M.Machine.own self.old) (Ok wish.now) result }
    {
        match wish {
            Wish::Do(command) => {
                match self.act(hand, command, messages, steps) {
                    Ok(reply) => Ok(JamReply::Acted {
                        command: *command,
                        reply,
                    }),
                    Err(fault) => {
                        self.crew.seat(hand, *player);
                        Err(failed(*command, fault))
                    }
                }
            }
            wish => Ok(moved(wish)),
        }
    }

    /// Does what a key of a hand asks for.
    pub fn key<L: Ledger>(
        &mut self,
        hand: u8,
        key: Key,
        messages: &mut Messages,
        steps: &mut Steps<L>,
    ) -> Result<JamReply, JamFault>
        requires hand { hand < length self.old.crew.players }
        requires messages { messages.old ≡ [] }
        requires sound { IsJam (M.machine self.old.machine) self.old.crew }
        ensures jams { Jams (jam_state M.Machine.own self.old) hand key result
            (jam_state M.Machine.own self.new) messages.new }
        ensures sound { IsJam (M.machine self.new.machine) self.new.crew }
        ensures screen { self.new.screen ≡ self.old.screen }
        ensures price { steps.new + M.residue self.new.machine
            ≤ steps.old + M.residue self.old.machine
            + jam_price (jam_state M.Machine.own self.old) hand key result }
    {
        let player = self.crew.player(hand);
        let own = self.crew.own_for(&key, hand, &self.machine);
        let around = around(&self.machine, &player.editor, self.screen, own);
        match self.crew.ask(hand, key, &around) {
            Err(denial) => Err(denied(denial)),
            Ok(wish) => self.grant(hand, &player, &wish, messages, steps),
        }
    }
}

//! What a player does with items.

ghost use Rattle.std.specs.Prelude.{length};
ghost use Rattle.orca_course.specs.Doing.{goes_of};
ghost use Rattle.orca_course.specs.Worlds.{AreSeated};
ghost use Rattle.orca_live.specs.Performing.{finish_course, hush_course, saves_course, take_course};
ghost use Rattle.orca_live.specs.States.{LiveDid, live_state};

use crate::Live;
use crate::clock::do_due;
use crate::journal::{begin_journal, write_journal};
use crate::keyboard::do_byte;
use crate::painting::{Marking, paint, show};
use crate::saving::{save_last_grid, save_last_script};
use orca_concert::{Closes, close, close_early};
use orca_course::{Desk, Item, NoMemory, Performer, Stop};
use orca_edit::Machine;
use orca_rig::House;

impl<'a, M: Machine> Performer for Live<'a, M> {
    ghost use Rattle.orca_live.specs.Deaf.{live_is_deaf, live_is_steady};
    ghost use Rattle.orca_live.specs.Performing.{live_part};
    ghost use Rattle.orca_live.specs.States.{LiveState, live_state, residue_of};

    ghost State = { LiveState };

    ghost state = { λ live. live_state M.Machine.own live };

    ghost residue = { λ live. residue_of M.Machine.own live };

    ghost part = { live_part };

    fn until(&self) -> Option<u64> {
        self.until_moment()
    }

    fn take<H: House>(&mut self, desk: &mut Desk<H>, item: Item) -> Result<Option<Stop>, NoMemory> {
        take(self, desk, item)
    }

    ghost deaf = { live_is_deaf };

    ghost steady = { live_is_steady };
}

impl<'a, M: Machine> Closes for Live<'a, M> {
    fn close_early<H: House>(&mut self, desk: &mut Desk<H>) -> Result<(), NoMemory> {
        close_early(&mut self.stage, desk)
    }
}

/// Ends every note.
fn do_close<M: Machine, H: House>(
    live: &mut Live<'_, M>,
    desk: &mut Desk<H>,
) -> Result<(), NoMemory>
    ensures { LiveDid M.Machine.own hush_course live.old desk.old (goes_of result) live.new desk.new }
{
    close(&mut live.stage, desk)?;
    Ok(())
}

/// Saves the grid and the script.
#[tactic(auto, using(orca_course::proofs::DoingLemmas::does_cut, orca_course::proofs::DoingLemmas::goes_err), unfolding(crate::specs::Performing::saves_course))]
fn save_last<M: Machine, H: House>(
    live: &mut Live<'_, M>,
    desk: &mut Desk<H>,
) -> Result<(), NoMemory>
    ensures { LiveDid M.Machine.own saves_course live.old desk.old (goes_of result) live.new desk.new }
{
    save_last_grid(live, desk)?;
    save_last_script(live, desk)
}

/// Ends every note, writes what still waits to the journal, and then saves the grid and the script.
#[tactic(auto, using(orca_course::proofs::DoingLemmas::does_cut, orca_course::proofs::DoingLemmas::goes_err), unfolding(crate::specs::Performing::finish_course))]
fn finish<M: Machine, H: House>(live: &mut Live<'_, M>, desk: &mut Desk<H>) -> Result<(), NoMemory>
    ensures { LiveDid M.Machine.own finish_course live.old desk.old (goes_of result) live.new desk.new }
{
    do_close(live, desk)?;
    write_journal(live, desk)?;
    save_last(live, desk)
}

/// Does what an item brings.
#[tactic(auto, using(orca_course::proofs::DoingLemmas::does_from, orca_course::proofs::DoingLemmas::does_err), unfolding(crate::specs::Performing::take_course))]
fn take<M: Machine, H: House>(
    live: &mut Live<'_, M>,
    desk: &mut Desk<H>,
    item: Item,
) -> Result<Option<Stop>, NoMemory>
    requires { AreSeated (length (live_state M.Machine.own live.old).views) desk.old }
    ensures { LiveDid M.Machine.own (take_course item) live.old desk.old result live.new desk.new }
{
    match item {
        Item::Start => {
            begin_journal(live, desk)?;
            Ok(None)
        }
        Item::Open(came) => {
            live.came = came;
            paint(live, desk, Marking::Bare)?;
            Ok(None)
        }
        Item::Byte { hand, at, byte } => {
            live.at = at;
            do_byte(live, desk, hand, byte)
        }
        Item::Due { at } => {
            live.at = at;
            do_due(live, desk)
        }
        Item::Settle => {
            write_journal(live, desk)?;
            Ok(None)
        }
        Item::Over(came) => {
            live.came = came;
            show(live, desk)?;
            Ok(None)
        }
        Item::Ended(_) => {
            finish(live, desk)?;
            Ok(None)
        }
    }
}

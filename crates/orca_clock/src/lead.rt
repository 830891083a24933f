//! A leader, which gives a clock.

ghost use Rattle.std.specs.Prelude.{◌≡◌, ◌≤◌};
ghost use Rattle.orca_base.specs.declared.limits.TheConstants.{MAX_BPM};
ghost use Rattle.orca_course.specs.Doing.{goes_of};
ghost use Rattle.orca_concert.specs.Stages.{concert_at};
ghost use Rattle.orca_clock.specs.Leaders.{LeadDid, clock_due_course, hand_key_course, lead_key_course, lead_at_start, lead_finish, lead_open, lead_residue, lead_state, toggle_course};

use crate::ending::end;
use crate::frame::do_frame;
use crate::sending::give_byte;
use orca_base::limits::MAX_BPM;
use orca_concert::{Closes, Report, Stage, close_early};
use orca_course::{Desk, Ending, Item, NoMemory, Performer, Stop};
use orca_edit::Machine;
use orca_rig::House;
use orca_sync::Leader;
use orca_sync::real_time::{START, STOP, TIMING_CLOCK};

/// The hand whose bytes are keys.
const PLAYER: u8 = 0;

/// The space bar, which pauses and goes on.
const PAUSE: u8 = b' ';

/// Ctrl-Q, which ends the performance.
const QUIT: u8 = 17;

/// A session that plays, and gives a clock. A contract outside sees its state (`lead_state`), and no
/// field.
#[derive(Drop)]
pub struct Lead<M, R> {
    /// The session, and what is printed of it.
    pub(crate) stage: Stage<M, R>,
    /// When each clock is due.
    pub(crate) leader: Leader,
}

impl<M: Machine, R: Report> Lead<M, R> {
    /// A session that starts a clock at a moment in microseconds, with so many beats a minute: 1 to
    /// [`MAX_BPM`].
    pub fn start(stage: Stage<M, R>, at: u64, bpm: u16) -> Lead<M, R>
        requires some { 1 ≤ bpm }
        requires few { bpm ≤ MAX_BPM }
        ensures state { lead_state M.Machine.own R.Report.own result
            ≡ lead_at_start bpm at (concert_at M.Machine.own R.Report.own stage) }
        ensures residue { lead_residue M.Machine.own result ≡ M.residue stage.machine }
    {
        Lead {
            stage,
            leader: Leader::start(at, bpm),
        }
    }
}

impl<M: Machine, R: Report> Closes for Lead<M, R> {
    fn close_early<H: House>(&mut self, desk: &mut Desk<H>) -> Result<(), NoMemory> {
        close_early(&mut self.stage, desk)
    }
}

impl<M: Machine, R: Report> Performer for Lead<M, R> {
    ghost use Rattle.orca_clock.specs.Deaf.{lead_is_deaf, lead_is_steady};
    ghost use Rattle.orca_clock.specs.Leaders.{Led, lead_part, lead_residue, lead_state};

    ghost State = { Led R.Kept };

    ghost state = { λ lead. lead_state M.Machine.own R.Report.own lead };

    ghost residue = { λ lead. lead_residue M.Machine.own lead };

    ghost part = { lead_part R.manner };

    fn until(&self) -> Option<u64> {
        self.leader.due_at()
    }

    #[tactic(auto, using(orca_course::proofs::WorldLemmas::called_still), unfolding(crate::specs::Leaders::lead_course))]
    fn take<H: House>(&mut self, desk: &mut Desk<H>, item: Item) -> Result<Option<Stop>, NoMemory> {
        match item {
            Item::Open(_) => {
                open(self, desk)?;
                Ok(None)
            }
            Item::Byte { hand, at, byte } => hear(self, desk, hand, at, byte),
            Item::Due { at } => do_due(self, desk, at),
            Item::Ended(ending) => {
                finish(self, desk, ending)?;
                Ok(None)
            }
            Item::Start | Item::Settle | Item::Over(_) => Ok(None),
        }
    }

    ghost deaf = { lead_is_deaf R.manner };

    ghost steady = { lead_is_steady R.manner };
}

/// Gives the start of the clock.
fn open<M: Machine, R: Report, H: House>(
    lead: &mut Lead<M, R>,
    desk: &mut Desk<H>,
) -> Result<(), NoMemory>
    ensures { LeadDid M.Machine.own R.Report.own lead_open
        lead.old desk.old (goes_of result) lead.new desk.new }
{
    give_byte(&lead.stage, desk, START)
}

/// Does what a due moment brings: a clock is given, and the frame is played that it begins, if it begins
/// one. Nothing is due while it is paused.
#[tactic(auto, using(orca_course::proofs::WorldLemmas::called_still), unfolding(crate::specs::Leaders::clock_due_course))]
fn do_due<M: Machine, R: Report, H: House>(
    lead: &mut Lead<M, R>,
    desk: &mut Desk<H>,
    at: u64,
) -> Result<Option<Stop>, NoMemory>
    ensures { LeadDid M.Machine.own R.Report.own (clock_due_course R.manner at)
        lead.old desk.old result lead.new desk.new }
{
    if lead.leader.due_at().is_none() {
        return Ok(None);
    }
    let first = lead.leader.clock(at);
    give_byte(&lead.stage, desk, TIMING_CLOCK)?;
    if !first {
        return Ok(None);
    }
    do_frame(&mut lead.stage, desk)
}

/// Pauses, or goes on at a moment.
fn toggle<M: Machine, R: Report, H: House>(
    lead: &mut Lead<M, R>,
    desk: &mut Desk<H>,
    at: u64,
) -> Result<(), NoMemory>
    ensures { LeadDid M.Machine.own R.Report.own (toggle_course at)
        lead.old desk.old (goes_of result) lead.new desk.new }
{
    let byte = lead.leader.toggle(at);
    give_byte(&lead.stage, desk, byte)
}

/// Does what a key asks for that came at a moment.
#[tactic(auto, using(orca_course::proofs::WorldLemmas::called_still), unfolding(crate::specs::Leaders::lead_key_course))]
fn do_key<M: Machine, R: Report, H: House>(
    lead: &mut Lead<M, R>,
    desk: &mut Desk<H>,
    at: u64,
    byte: u8,
) -> Result<Option<Stop>, NoMemory>
    ensures { LeadDid M.Machine.own R.Report.own (lead_key_course at byte)
        lead.old desk.old result lead.new desk.new }
{
    match byte {
        PAUSE => {
            toggle(lead, desk, at)?;
            Ok(None)
        }
        QUIT => Ok(Some(Stop::Left)),
        _ => Ok(None),
    }
}

/// Hears a byte that came at a moment. Those of other hands are dropped.
#[tactic(auto, using(orca_course::proofs::WorldLemmas::called_still), unfolding(crate::specs::Leaders::hand_key_course))]
fn hear<M: Machine, R: Report, H: House>(
    lead: &mut Lead<M, R>,
    desk: &mut Desk<H>,
    hand: u8,
    at: u64,
    byte: u8,
) -> Result<Option<Stop>, NoMemory>
    ensures { LeadDid M.Machine.own R.Report.own (hand_key_course hand at byte)
        lead.old desk.old result lead.new desk.new }
{
    if hand != PLAYER {
        return Ok(None);
    }
    do_key(lead, desk, at, byte)
}

/// Tells where the run stands at last, if the player has left, ends every note, and then gives the
/// stop of the clock.
fn finish<M: Machine, R: Report, H: House>(
    lead: &mut Lead<M, R>,
    desk: &mut Desk<H>,
    ending: Ending,
) -> Result<(), NoMemory>
    ensures { LeadDid M.Machine.own R.Report.own (lead_finish R.manner ending)
        lead.old desk.old (goes_of result) lead.new desk.new }
{
    end(&mut lead.stage, desk, ending)?;
    give_byte(&lead.stage, desk, STOP)
}

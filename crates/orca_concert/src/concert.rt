//! A run of commands, from its first command to its end.

ghost use Rattle.std.specs.Prelude.{◌≡◌, Some};
ghost use Rattle.orca_concert.specs.Concerts.{close_course, command_at, concert_course, cue_course, cues_course, final_course, last_course, order_course, saved_course};
ghost use Rattle.orca_concert.specs.Silenced.{IsSilenced};
ghost use Rattle.orca_concert.specs.Stages.{StageDid, standing_of};

use crate::halt::Halt;
use crate::sending::hand_messages;
use crate::{News, Report, Stage};
use orca_base::Command;
use orca_course::{Desk, NoMemory, Performer, Stop};
use orca_cues::{Cue, Order, Source};
use orca_edit::Machine;
use orca_rig::House;

/// Does all that the source gives, and ends the run: the report is told where the run stands, every
/// note ends, and the report saves. What has ended the run early is answered; then nothing is told
/// of where it stands, and nothing is saved.
#[tactic(auto, using(orca_course::proofs::DoingLemmas::does_afterwards_cut), unfolding(crate::specs::Concerts::concert_course))]
pub fn play<M: Machine, S: Source, R: Report, H: House>(
    stage: &mut Stage<M, R>,
    source: &mut S,
    desk: &mut Desk<H>,
) -> Result<Option<Stop>, NoMemory>
    ensures { StageDid M.Machine.own R.Report.own (concert_course R.manner (S.left source.old))
        stage.old desk.old result stage.new desk.new }
{
    let end = do_cues(stage, source, desk)?;
    finish(stage, desk, end)
}

/// The command that an order means now.
fn command_at<M: Machine>(order: Order, machine: &M) -> Command
    ensures { result ≡ command_at order (M.machine machine.now) }
{
    match order {
        Order::Do(command) => command,
        Order::RewindHalf => Command::Rewind {
            moment: machine.moments() / 2,
        },
    }
}

/// Does an order once, and tells whether its cue goes on.
#[tactic(auto, unfolding(crate::specs::Concerts::order_course, orca_course::specs::Courses::mapped))]
fn do_order<M: Machine, R: Report, H: House>(
    stage: &mut Stage<M, R>,
    desk: &mut Desk<H>,
    line: u32,
    order: Order,
) -> Result<Option<Halt>, NoMemory>
    ensures { StageDid M.Machine.own R.Report.own (order_course R.manner line order)
        stage.old desk.old result stage.new desk.new }
{
    let command = command_at(order, &stage.machine);
    let end = stage.do_command(desk, line, &command)?;
    match (end, stage.tally.refusal) {
        (Some(stop), _) => Ok(Some(Halt::Ended(stop))),
        (None, Some(_)) => Ok(Some(Halt::Dropped)),
        (None, None) => Ok(None),
    }
}

/// Does an order as often as its cue says. A refusal drops the rest.
fn do_cue<M: Machine, R: Report, H: House>(
    stage: &mut Stage<M, R>,
    desk: &mut Desk<H>,
    cue: Cue,
) -> Result<Option<Stop>, NoMemory>
    ensures { StageDid M.Machine.own R.Report.own (cue_course R.manner cue)
        stage.old desk.old result stage.new desk.new }
{
    for _time in 0..cue.times {
        match do_order(stage, desk, cue.line, cue.order)? {
            None => {}
            Some(Halt::Dropped) => return Ok(None),
            Some(Halt::Ended(stop)) => return Ok(Some(stop)),
        }
    }
    Ok(None)
}

/// Does all that the source gives.
fn do_cues<M: Machine, S: Source, R: Report, H: House>(
    stage: &mut Stage<M, R>,
    source: &mut S,
    desk: &mut Desk<H>,
) -> Result<Option<Stop>, NoMemory>
    ensures { StageDid M.Machine.own R.Report.own (cues_course R.manner (S.left source.old))
        stage.old desk.old result stage.new desk.new }
{
    while let Some(cue) = source.next() {
        if let Some(stop) = do_cue(stage, desk, cue)? {
            return Ok(Some(stop));
        }
    }
    Ok(None)
}

/// Ends a run, by what has ended it early, if anything has.
#[tactic(auto, using(orca_course::proofs::DoingLemmas::does_afterwards_cut), unfolding(crate::specs::Concerts::last_course))]
fn finish<M: Machine, R: Report, H: House>(
    stage: &mut Stage<M, R>,
    desk: &mut Desk<H>,
    end: Option<Stop>,
) -> Result<Option<Stop>, NoMemory>
    ensures { StageDid M.Machine.own R.Report.own (last_course R.manner end)
        stage.old desk.old result stage.new desk.new }
{
    let end = tell_last(stage, desk, end)?;
    let closed = close(stage, desk)?;
    save(stage, desk, end.or(closed))
}

/// Tells the report where the run stands at last, unless it was ended.
#[tactic(auto, using(orca_course::proofs::WorldLemmas::called_still), unfolding(crate::specs::Concerts::final_course))]
fn tell_last<M: Machine, R: Report, H: House>(
    stage: &mut Stage<M, R>,
    desk: &mut Desk<H>,
    end: Option<Stop>,
) -> Result<Option<Stop>, NoMemory>
    ensures { StageDid M.Machine.own R.Report.own (final_course R.manner end)
        stage.old desk.old result stage.new desk.new }
{
    match end {
        Some(stop) => Ok(Some(stop)),
        None => {
            let news = News::Stands(stage.tally);
            stage.report.tell(desk, &stage.machine, news)
        }
    }
}

/// Ends all notes that sound, and tells the report.
pub fn close<M: Machine, R: Report, H: House>(
    stage: &mut Stage<M, R>,
    desk: &mut Desk<H>,
) -> Result<Option<Stop>, NoMemory>
    ensures { StageDid M.Machine.own R.Report.own (close_course R.manner)
        stage.old desk.old result stage.new desk.new }
{
    stage.messages.clear();
    stage.machine.close(&mut stage.messages);
    let messages = stage.messages.as_slice();
    hand_messages(desk, stage.report.hands(), messages)?;
    stage
        .report
        .tell(desk, &stage.machine, News::Closed(messages))
}

/// Lets the report save, unless the run was ended.
#[tactic(auto, using(orca_course::proofs::WorldLemmas::called_still), unfolding(crate::specs::Concerts::saved_course))]
fn save<M: Machine, R: Report, H: House>(
    stage: &mut Stage<M, R>,
    desk: &mut Desk<H>,
    end: Option<Stop>,
) -> Result<Option<Stop>, NoMemory>
    ensures { StageDid M.Machine.own R.Report.own (saved_course R.manner end)
        stage.old desk.old result stage.new desk.new }
{
    match end {
        Some(stop) => Ok(Some(stop)),
        None => stage.report.tell(desk, &stage.machine, News::Last),
    }
}

/// A performer whose notes can be ended early.
pub trait Closes: Performer {
    /// Ends all notes that sound, if memory was refused.
    fn close_early<H: House>(&mut self, desk: &mut Desk<H>) -> Result<(), NoMemory>
        ensures { IsSilenced Self.part.stance.hands (Self.part.stance.standing (Self.state self.old))
            result desk.old desk.new };
}

/// Ends all notes that sound, if memory was refused; the report is not told.
pub fn close_early<M: Machine, R: Report, H: House>(
    stage: &mut Stage<M, R>,
    desk: &mut Desk<H>,
) -> Result<(), NoMemory>
    ensures { IsSilenced R.manner.hands (Some (standing_of M.Machine.own stage.old))
        result desk.old desk.new }
{
    stage.messages.clear();
    stage.machine.close(&mut stage.messages);
    hand_messages(desk, stage.report.hands(), stage.messages.as_slice())
}

//! The end of a performance by a clock.

ghost use Rattle.orca_course.specs.Doing.{goes_of};
ghost use Rattle.orca_concert.specs.Stages.{StageDid};
ghost use Rattle.orca_clock.specs.Clocked.{end_course, last_text_course};

use orca_concert::{News, Report, Stage, close};
use orca_course::{Desk, Ending, NoMemory, Stop};
use orca_edit::Machine;
use orca_rig::House;

/// Tells the report where the run stands at last, if the player has left.
#[tactic(auto, using(orca_course::proofs::WorldLemmas::called_still), unfolding(crate::specs::Clocked::last_text_course, orca_concert::specs::Concerts::final_course))]
fn tell_last<M: Machine, R: Report, H: House>(
    stage: &mut Stage<M, R>,
    desk: &mut Desk<H>,
    ending: Ending,
) -> Result<Option<Stop>, NoMemory>
    ensures { StageDid M.Machine.own R.Report.own (last_text_course R.manner ending)
        stage.old desk.old result stage.new desk.new }
{
    let Ending::Stopped(stop) = ending else {
        return Ok(None);
    };
    match stop {
        Stop::Left => stage
            .report
            .tell(desk, &stage.machine, News::Stands(stage.tally)),
        Stop::Full | Stop::SongTooLong | Stop::WaveTooLong => Ok(None),
    }
}

/// Tells the report where the run stands at last, if the player has left, and ends every note.
#[tactic(auto, unfolding(crate::specs::Clocked::end_course))]
pub(crate) fn end<M: Machine, R: Report, H: House>(
    stage: &mut Stage<M, R>,
    desk: &mut Desk<H>,
    ending: Ending,
) -> Result<(), NoMemory>
    ensures { StageDid M.Machine.own R.Report.own (end_course R.manner ending)
        stage.old desk.old (goes_of result) stage.new desk.new }
{
    tell_last(stage, desk, ending)?;
    close(stage, desk)?;
    Ok(())
}

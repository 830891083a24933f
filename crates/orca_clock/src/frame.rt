//! A frame that is due.

ghost use Rattle.orca_concert.specs.Stages.{StageDid};
ghost use Rattle.orca_clock.specs.Clocked.{clock_frame_course};

use orca_base::Command;
use orca_concert::{Report, Stage};
use orca_course::{Desk, NoMemory, Stop};
use orca_edit::Machine;
use orca_rig::House;

/// Plays a frame that is due; a full history ends the performance.
#[tactic(auto, using(orca_course::proofs::WorldLemmas::called_still), unfolding(crate::specs::Clocked::clock_frame_course))]
pub(crate) fn do_frame<M: Machine, R: Report, H: House>(
    stage: &mut Stage<M, R>,
    desk: &mut Desk<H>,
) -> Result<Option<Stop>, NoMemory>
    ensures { StageDid M.Machine.own R.Report.own (clock_frame_course R.manner)
        stage.old desk.old result stage.new desk.new }
{
    if stage.machine.limit() <= stage.machine.moments() {
        return Ok(Some(Stop::Full));
    }
    stage.do_command(desk, 0, &Command::Frame)
}

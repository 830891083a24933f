//! A byte of the clock that is given.

ghost use Rattle.orca_course.specs.Doing.{Does, goes_of};
ghost use Rattle.orca_course.specs.Worlds.{owing};
ghost use Rattle.orca_concert.specs.Concerts.{stance_of};
ghost use Rattle.orca_concert.specs.Stages.{concert_at};
ghost use Rattle.orca_clock.specs.Clocked.{clock_course};

use orca_base::Port;
use orca_concert::{Report, Stage};
use orca_course::{Desk, NoMemory};
use orca_edit::Machine;
use orca_rig::House;

/// Gives a byte of the clock. The run stands where it stood.
pub(crate) fn give_byte<M: Machine, R: Report, H: House>(
    stage: &Stage<M, R>,
    desk: &mut Desk<H>,
    byte: u8,
) -> Result<(), NoMemory>
    ensures { let s = concert_at M.Machine.own R.Report.own stage.now in
        Does (stance_of R.manner) (clock_course byte s) s
        (owing (M.residue stage.now.machine) desk.old) (goes_of result)
        s (owing (M.residue stage.now.machine) desk.new) }
{
    // For the proof alone: its clause speaks of the stage.
    let _stage = stage;
    desk.send(Port::Midi, &[byte])
}

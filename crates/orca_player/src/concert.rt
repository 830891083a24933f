//! A list of commands on an opened grid.

ghost use Rattle.std.specs.Prelude.{◌≡◌, [], IfOk};
ghost use Rattle.orca_course.specs.Standings.{notes_of, standing};
ghost use Rattle.orca_concert.specs.Stages.{standing_of};
ghost use Rattle.orca_player.specs.Doing.{Came, status_at};
ghost use Rattle.orca_player.specs.Outlines.{concert, standing_at, status_of_end, status_of_stop};

use crate::Status;
use crate::opening::Opening;
use orca_base::Memory;
use orca_concert::{Report, Stage, close_early, play};
use orca_course::{Desk, NoMemory, Stop};
use orca_cues::Source;
use orca_edit::Machine;
use orca_rig::House;
use orca_session::Session;

/// Opens a session, does all that the source gives, and ends the run.
#[tactic(auto, using(crate::proofs::CameLemmas::came_none))]
pub(crate) fn concert<S: Source, R: Report, H: House>(
    opening: &Opening,
    source: &mut S,
    report: R,
    desk: &mut Desk<H>,
) -> Status
    ensures { Came (concert R.manner (R.kept report) (S.left source.old)
        (standing_at opening.now.grid opening.now.seed opening.now.limit))
        desk.old result desk.new }
{
    match open_stage(opening, report) {
        Ok(mut stage) => do_all(&mut stage, source, desk),
        Err(Memory) => Status::Memory,
    }
}

/// Does all that the source gives, and ends the run. If memory is refused, and not by a send, the
/// notes that sound are ended.
///
/// It knows no session but as a machine, so that what a session holds is not looked at here.
fn do_all<M: Machine, S: Source, R: Report, H: House>(
    stage: &mut Stage<M, R>,
    source: &mut S,
    desk: &mut Desk<H>,
) -> Status
    requires begins { notes_of (standing_of M.Machine.own stage.old) ≡ [] }
    requires residue { M.residue stage.old.machine ≡ 0 }
    ensures { Came (concert R.manner (R.kept stage.old.report) (S.left source.old)
        (standing_of M.Machine.own stage.old)) desk.old result desk.new }
{
    match play(stage, source, desk) {
        Ok(end) => settled(status_of_end(end), desk),
        Err(NoMemory::InSend) => Status::Memory,
        Err(NoMemory::Elsewhere) => {
            // The status is decided already, so a second refusal changes nothing.
            let _ = close_early(stage, desk);
            Status::Memory
        }
    }
}

/// A session on the opened grid, before its first command.
pub(crate) fn open_stage<R: Report>(
    opening: &Opening,
    report: R,
) -> Result<Stage<Session, R>, Memory>
    ensures standing { IfOk result (λ stage.
        standing stage.machine.machine stage.machine.kept stage.tally
        ≡ standing_at opening.now.grid opening.now.seed opening.now.limit) }
    ensures residue { IfOk result (λ stage. stage.machine.residue ≡ 0) }
    ensures report { IfOk result (λ stage. stage.report ≡ report) }
{
    let session = Session::start(opening.alloc, &opening.grid, opening.seed, opening.limit)?;
    Stage::start(opening.alloc, session, report)
}

/// The status of a run that would end as planned: if all was done, a file that failed or a port that
/// failed decides.
pub(crate) fn settled<H: House>(planned: Status, desk: &Desk<H>) -> Status
    ensures { result ≡ status_at planned desk.now }
{
    match planned {
        Status::Done if desk.file_failed() => Status::FileFault,
        Status::Done if desk.has_failed() => Status::OutFault,
        planned => planned,
    }
}

/// How a run would end that this has ended.
pub(crate) fn status_of_stop(stop: Stop) -> Status
    ensures { result ≡ status_of_stop stop }
{
    match stop {
        Stop::Left => Status::Done,
        Stop::Full => Status::HistoryFull,
        Stop::SongTooLong => Status::SmfTooLong,
        Stop::WaveTooLong => Status::WavTooLong,
    }
}

/// How a run would end that was done whole, or that this has ended early.
fn status_of_end(end: Option<Stop>) -> Status
    ensures { result ≡ status_of_end end }
{
    match end {
        None => Status::Done,
        Some(stop) => status_of_stop(stop),
    }
}

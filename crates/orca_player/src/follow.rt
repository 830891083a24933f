//! A grid that plays by a clock that comes in.

ghost use Rattle.std.specs.Prelude.{◌≡◌, [], false};
ghost use Rattle.orca_clock.specs.Followers.{follow_residue, follow_state};
ghost use Rattle.orca_course.specs.Standings.{notes_of};
ghost use Rattle.orca_course.specs.Worlds.{has_ended, has_listened};
ghost use Rattle.orca_player.specs.Doing.{CameBy};
ghost use Rattle.orca_player.specs.Outlines.{follow_outline, followed, listening, standing_at};

use crate::Status;
use crate::concert::open_stage;
use crate::live::ALONE;
use crate::opening::Opening;
use crate::performing::{listen, perform_all};
use orca_base::Memory;
use orca_clock::Follow;
use orca_concert::Report;
use orca_course::Desk;
use orca_edit::Machine;
use orca_reports::StateReport;
use orca_rig::House;

/// Waits for a clock at the address, and plays the grid by it until it ends.
pub(crate) fn follow<H: House>(opening: &Opening, address: &str, desk: &mut Desk<H>) -> Status
    requires fresh { has_listened desk.old ≡ false }
    requires open { has_ended desk.old ≡ false }
    ensures { CameBy (λ b. listening address.now ALONE b.start (λ at. follow_outline b
        (standing_at opening.now.grid opening.now.seed opening.now.limit)))
        desk.old result desk.new }
{
    match listen(desk, None, address, ALONE) {
        // The clock says when a frame is due, so the moment of the start is not looked at.
        Ok(_) => start(opening, desk),
        Err(status) => status,
    }
}

/// Opens a session, which no clock has started so far, and plays the grid by the clock.
fn start<H: House>(opening: &Opening, desk: &mut Desk<H>) -> Status
    requires open { has_ended desk.old ≡ false }
    ensures { CameBy (λ b. follow_outline b
        (standing_at opening.now.grid opening.now.seed opening.now.limit))
        desk.old result desk.new }
{
    match open_stage(opening, StateReport::new(opening.alloc)) {
        Ok(stage) => {
            let mut follow = Follow::start(stage);
            follow_all(&mut follow, desk)
        }
        Err(Memory) => Status::Memory,
    }
}

/// Plays until the clock ends, and answers how the run ends.
fn follow_all<M: Machine, R: Report, H: House>(
    follow: &mut Follow<M, R>,
    desk: &mut Desk<H>,
) -> Status
    requires open { has_ended desk.old ≡ false }
    requires begins { let s = follow_state M.Machine.own R.Report.own follow.old in
        notes_of s.concert.standing ≡ [] }
    requires residue { follow_residue M.Machine.own follow.old ≡ 0 }
    ensures { CameBy (λ b. followed R.manner
        (follow_state M.Machine.own R.Report.own follow.old) b)
        desk.old result desk.new }
{
    perform_all(follow, desk)
}

//! A grid that plays, and gives a clock.

ghost use Rattle.std.specs.Prelude.{◌≡◌, ◌≤◌, [], false};
ghost use Rattle.orca_base.specs.declared.limits.TheConstants.{MAX_BPM};
ghost use Rattle.orca_clock.specs.Leaders.{lead_residue, lead_state};
ghost use Rattle.orca_course.specs.Standings.{notes_of};
ghost use Rattle.orca_course.specs.Worlds.{has_ended, has_listened};
ghost use Rattle.orca_player.specs.Doing.{CameBy};
ghost use Rattle.orca_player.specs.Outlines.{lead_outline, led, listening, standing_at};

use crate::Status;
use crate::concert::open_stage;
use crate::live::ALONE;
use crate::opening::Opening;
use crate::performing::{listen, perform_all};
use orca_base::Memory;
use orca_clock::Lead;
use orca_concert::Report;
use orca_course::Desk;
use orca_edit::Machine;
use orca_reports::StateReport;
use orca_rig::House;
use orca_words::Leading;

/// Waits for a player at the address, and gives a clock by which the grid plays, until the
/// performance ends.
pub(crate) fn lead<H: House>(opening: &Opening, leading: &Leading<'_>, desk: &mut Desk<H>) -> Status
    requires fresh { has_listened desk.old ≡ false }
    requires open { has_ended desk.old ≡ false }
    ensures { CameBy (λ b. listening leading.now.address.now ALONE b.start
        (lead_outline leading.now.bpm b
        (standing_at opening.now.grid opening.now.seed opening.now.limit)))
        desk.old result desk.new }
{
    match listen(desk, None, leading.address, ALONE) {
        Ok(at) => start(opening, leading.bpm, at, desk),
        Err(status) => status,
    }
}

/// Opens a session, and plays the grid from a moment on, with so many beats a minute.
fn start<H: House>(opening: &Opening, bpm: u16, at: u64, desk: &mut Desk<H>) -> Status
    requires open { has_ended desk.old ≡ false }
    requires some { 1 ≤ bpm }
    requires few { bpm ≤ MAX_BPM }
    ensures { CameBy (λ b. lead_outline bpm b
        (standing_at opening.now.grid opening.now.seed opening.now.limit) at)
        desk.old result desk.new }
{
    match open_stage(opening, StateReport::new(opening.alloc)) {
        Ok(stage) => {
            let mut lead = Lead::start(stage, at, bpm);
            lead_all(&mut lead, desk)
        }
        Err(Memory) => Status::Memory,
    }
}

/// Plays until the performance ends, and answers how the run ends.
fn lead_all<M: Machine, R: Report, H: House>(lead: &mut Lead<M, R>, desk: &mut Desk<H>) -> Status
    requires open { has_ended desk.old ≡ false }
    requires begins { let s = lead_state M.Machine.own R.Report.own lead.old in
        notes_of s.concert.standing ≡ [] }
    requires residue { lead_residue M.Machine.own lead.old ≡ 0 }
    ensures { CameBy (λ b. led R.manner (lead_state M.Machine.own R.Report.own lead.old) b)
        desk.old result desk.new }
{
    perform_all(lead, desk)
}

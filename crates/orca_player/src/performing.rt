//! A performance by any performer, from the wait for its players to the end of the run.

ghost use Rattle.std.specs.Prelude.{◌≡◌, ◌≤◌, [], ◌∷◌, IfErr, IfOk, Some, ℕ, false};
ghost use Rattle.orca_base.specs.declared.limits.TheConstants.{MAX_HANDS};
ghost use Rattle.orca_course.specs.Acts.Act.{Listen};
ghost use Rattle.orca_course.specs.Following.{sounding};
ghost use Rattle.orca_course.specs.Worlds.{AreSeated, Made, Sated, has_ended, has_listened, owing};
ghost use Rattle.orca_player.specs.Doing.{CameBy};
ghost use Rattle.orca_player.specs.Outlines.{Brought, Outline, leavings, status_of_ending, waiting};
ghost use Rattle.orca_player.specs.Performances.{BrokeOff, EndsSilent, Lasted, Performed, whole_course};
ghost use Rattle.orca_words.specs.RequestIn.{text_in};

use crate::Status;
use crate::concert::{settled, status_of_stop};
use crate::room::leave_room;
use orca_base::Memory;
use orca_concert::Closes;
use orca_course::{Desk, Ending, NoMemory, perform};
use orca_rig::House;

/// Waits for so many players at an address, and answers the moment of the start. If the inbox can't
/// listen, it leaves the room, in which nothing was typed, and answers how the run ends.
pub(crate) fn listen<H: House>(
    desk: &mut Desk<H>,
    room: Option<&str>,
    address: &str,
    hands: u8,
) -> Result<u64, Status>
    requires fresh { has_listened desk.old ≡ false }
    requires some { 1 ≤ hands }
    requires few { hands ≤ MAX_HANDS }
    ensures open { IfOk result (λ at. has_ended desk.new ≡ has_ended desk.old) }
    ensures listened { IfOk result (λ at. Made (Listen address.now hands (Some at) ∷ []) 0
        desk.old desk.new × Sated desk.old desk.new) }
    ensures ends { IfErr result (λ status. (next : Brought → ℕ → Outline)
        → CameBy (λ b. waiting (leavings (text_in room.entry) b.closing false) address.now hands
        b.start (next b)) desk.old status desk.new) }
{
    match desk.listen(address, hands) {
        Ok(Some(at)) => Ok(at),
        Ok(None) => match leave_room(desk, room, false) {
            Ok(()) => Err(Status::InboxFault),
            Err(_) => Err(Status::Memory),
        },
        Err(_) => Err(Status::Memory),
    }
}

/// Performs until the performance ends, and answers how the run ends. If memory is refused, and not
/// by a send, the notes that sound are ended.
pub(crate) fn perform_all<P: Closes, H: House>(performer: &mut P, desk: &mut Desk<H>) -> Status
    requires open { has_ended desk.old ≡ false }
    requires begins { sounding (P.part.stance.standing (P.state performer.old)) ≡ [] }
    requires residue { P.residue performer.old ≡ 0 }
    requires silent { EndsSilent P.part }
    requires seated { AreSeated (P.part.seats (P.state performer.old)) desk.old }
    ensures { Performed P.part (whole_course P.part (P.state performer.old)) (P.state performer.old)
        desk.old result (P.state performer.new) desk.new }
{
    match perform_whole(performer, desk) {
        Ok(ending) => settled(status_of_ending(ending), desk),
        Err(Memory) => Status::Memory,
    }
}

/// Performs until the performance ends, and answers how it ended. If memory is refused, and not by a
/// send, the notes that sound are ended.
///
/// It knows no session but as a performer, so that what a session holds is not looked at here.
pub(crate) fn perform_whole<P: Closes, H: House>(
    performer: &mut P,
    desk: &mut Desk<H>,
) -> Result<Ending, Memory>
    requires open { has_ended desk.old ≡ false }
    requires begins { sounding (P.part.stance.standing (P.state performer.old)) ≡ [] }
    requires residue { P.residue performer.old ≡ 0 }
    requires seated { AreSeated (P.part.seats (P.state performer.old)) desk.old }
    ensures lasted { IfOk result (λ ending. Lasted P.part (P.state performer.old)
        (owing (P.residue performer.old) desk.old) ending (P.state performer.new)
        (owing (P.residue performer.new) desk.new)) }
    ensures broke { IfErr result (λ memory.
        BrokeOff P.part (P.state performer.old) desk.old desk.new) }
{
    match perform(performer, desk) {
        Ok(ending) => Ok(ending),
        Err(NoMemory::InSend) => Err(Memory),
        Err(NoMemory::Elsewhere) => {
            // The status is decided already, so a second refusal changes nothing.
            let _ = performer.close_early(desk);
            Err(Memory)
        }
    }
}

/// How a performance would end that ended so.
pub(crate) fn status_of_ending(ending: Ending) -> Status
    ensures { result ≡ status_of_ending ending }
{
    match ending {
        Ending::Stopped(stop) => status_of_stop(stop),
        Ending::Lost => Status::InboxFault,
        Ending::Spent => Status::TurnsSpent,
    }
}

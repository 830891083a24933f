//! What a due moment does.

ghost use Rattle.orca_live.specs.Performing.{due_course, frame_course, lull_course, lull_of};
ghost use Rattle.orca_live.specs.States.{LiveDid};

use crate::Live;
use crate::keyboard::{do_command, press_all};
use orca_base::Command;
use orca_course::{Desk, NoMemory, Stop};
use orca_edit::Machine;
use orca_jam::NOBODY;
use orca_rig::House;

/// Plays a frame; a full history ends the performance.
#[tactic(auto, using(orca_course::proofs::WorldLemmas::called_still, orca_course::proofs::DoingLemmas::does_cut, orca_course::proofs::DoingLemmas::does_err), unfolding(crate::specs::Performing::frame_course))]
fn do_frame<M: Machine, H: House>(
    live: &mut Live<'_, M>,
    desk: &mut Desk<H>,
) -> Result<Option<Stop>, NoMemory>
    ensures { LiveDid M.Machine.own frame_course live.old desk.old result live.new desk.new }
{
    if live.is_full() {
        return Ok(Some(Stop::Full));
    }
    do_command(live, desk, NOBODY, &Command::Frame)?;
    live.pacer.fired(live.at);
    Ok(None)
}

/// Nothing came of a hand for a while: what is pending may be keys then, unless its editor reads a text that
/// is pasted.
#[tactic(auto, using(orca_course::proofs::WorldLemmas::called_still, crate::proofs::DoneLemmas::read_did), unfolding(crate::specs::Performing::item_course, crate::specs::Performing::lull_of))]
fn do_lull_of<M: Machine, H: House>(
    live: &mut Live<'_, M>,
    desk: &mut Desk<H>,
    hand: u8,
) -> Result<Option<Stop>, NoMemory>
    ensures { LiveDid M.Machine.own (lull_of hand) live.old desk.old result live.new desk.new }
{
    if hand >= live.crew.hands() {
        return Ok(None);
    }
    if live.crew.editor(hand).flow.is_some() {
        return Ok(None);
    }
    let keys = live.crew.due(hand);
    press_all(live, desk, hand, keys.as_slice())
}

/// Nothing came for a while, of the hands in their order.
#[tactic(auto, using(orca_course::proofs::DoingLemmas::far_more, orca_course::proofs::DoingLemmas::far_none, orca_course::proofs::DoingLemmas::far_over, std::proofs::lemmas::List::drop_all, std::proofs::lemmas::List::drop_more))]
fn do_lull<M: Machine, H: House>(
    live: &mut Live<'_, M>,
    desk: &mut Desk<H>,
) -> Result<Option<Stop>, NoMemory>
    ensures { LiveDid M.Machine.own lull_course live.old desk.old result live.new desk.new }
{
    for hand in 0..live.crew.hands() {
        if let Some(stop) = do_lull_of(live, desk, hand)? {
            return Ok(Some(stop));
        }
    }
    Ok(None)
}

/// A frame is due: nothing came for a while, and then the frame is played.
pub(crate) fn do_due<M: Machine, H: House>(
    live: &mut Live<'_, M>,
    desk: &mut Desk<H>,
) -> Result<Option<Stop>, NoMemory>
    ensures { LiveDid M.Machine.own due_course live.old desk.old result live.new desk.new }
{
    if let Some(stop) = do_lull(live, desk)? {
        return Ok(Some(stop));
    }
    do_frame(live, desk)
}

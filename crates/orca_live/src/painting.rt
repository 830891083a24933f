//! What is shown.

ghost use Rattle.std.specs.Prelude.{◌≡◌, ◌<◌, All, length};
ghost use Rattle.orca_course.specs.Courses.{each};
ghost use Rattle.orca_course.specs.Doing.{goes_of};
ghost use Rattle.orca_course.specs.Worlds.{AreSeated, Calls, IsSeated};
ghost use Rattle.orca_live.specs.Marking.{marks_by, pictured};
ghost use Rattle.orca_live.specs.Performing.{paint_course, painted_course, overlay_at, picture_course, show_course, view_acts};
ghost use Rattle.orca_live.specs.States.{LiveDid, hands_in, live_state, status_line_at, viewed_in};
ghost use Rattle.orca_term.specs.Picture.{IsPrintable};
ghost use Rattle.orca_term.specs.Viewing.{painting_bytes};

use crate::Live;
use crate::keyboard::fit;
use crate::unmarked::Unmarked;
use orca_base::{Look, Port};
use orca_course::{Desk, NoMemory};
use orca_edit::Machine;
use orca_jam::LEADER;
use orca_rig::House;
use orca_term::{Overlay, StatusLine, Traffic, View};

/// Which marks a picture shows.
#[derive(Clone, Copy)]
pub(crate) enum Marking {
    /// None: nothing was scanned so far.
    Bare,
    /// Those that the session shows.
    Scanned,
}

/// What the picture of a hand shows besides the grid and what was sent.
#[derive(Drop)]
struct Margin {
    hand: u8,
    over: Overlay,
    line: StatusLine,
}

/// Gives a painting to its hand, unless it is empty: that of the first one is sent, and the others are told
/// theirs.
#[tactic(auto, using(orca_course::proofs::SeatLemmas::seated_listened, crate::proofs::DoneLemmas::view_none, crate::proofs::DoneLemmas::view_sent, crate::proofs::DoneLemmas::view_told))]
fn give_view<H: House>(desk: &mut Desk<H>, hand: u8, bytes: &[u8]) -> Result<(), NoMemory>
    requires { IsSeated hand desk.old }
    ensures { Calls (view_acts hand bytes.now) result desk.old desk.new }
{
    if bytes.is_empty() {
        return Ok(());
    }
    if hand == LEADER {
        return desk.send(Port::View, bytes);
    }
    desk.tell(hand, bytes)
}

/// Paints a picture on the screen of a hand.
fn paint_on<T: Look, H: House>(
    view: &mut View,
    look: &T,
    sent: &Traffic,
    margin: &Margin,
    desk: &mut Desk<H>,
) -> Result<(), NoMemory>
    requires { IsSeated margin.now.hand desk.old }
    ensures painting { let cells = pictured view.old.size (T.sheet look.now) (T.marks look.now)
        sent.now margin.now in
        Calls (view_acts margin.now.hand (painting_bytes view.old.size view.old.last cells)) result
        desk.old desk.new }
    ensures printable { All IsPrintable (pictured view.old.size (T.sheet look.now)
        (T.marks look.now) sent.now margin.now) }
    ensures view { let cells = pictured view.old.size (T.sheet look.now) (T.marks look.now)
        sent.now margin.now in
        viewed_in view.new ≡ record { screen = view.old.size; shown = Some cells } }
{
    let bytes = view.paint(look, &margin.over, &margin.line, sent);
    give_view(desk, margin.hand, bytes)
}

/// What the picture of a hand shows besides the grid: its editor, with the pause of the first one, the cursors
/// of the others, and the status line.
fn margin_of<M: Machine>(live: &Live<'_, M>, hand: u8) -> Margin
    requires { hand < length live.now.crew.players }
    ensures over { result.over ≡ overlay_at hand (live_state M.Machine.own live.now) }
    ensures line { result.line ≡ status_line_at hand (live_state M.Machine.own live.now) }
    ensures hand { result.hand ≡ hand }
{
    let mut editor = *live.crew.editor(hand);
    editor.paused = live.crew.leader().paused;
    let others = live.crew.cursors_beside(hand);
    Margin {
        hand,
        over: Overlay { editor, others },
        line: live.line(hand),
    }
}

/// Paints the picture of a hand that is shown one.
fn paint_view<M: Machine, H: House>(
    live: &mut Live<'_, M>,
    desk: &mut Desk<H>,
    hand: u8,
    marking: Marking,
) -> Result<(), NoMemory>
    requires hand { hand < length live.old.crew.players }
    requires viewer { hand < length live.old.views.items }
    requires seated { IsSeated hand desk.old }
    ensures painted { LiveDid M.Machine.own
        (picture_course (marks_by marking (M.marks live.old.stage.machine)) hand)
        live.old desk.old (goes_of result) live.new desk.new }
    ensures machine { live.new.stage.machine ≡ live.old.stage.machine }
    ensures crew { live.new.crew ≡ live.old.crew }
{
    let margin = margin_of(live, hand);
    live.stage.machine.is_shown();
    let Live { stage, views, .. } = live;
    let view = &mut views[usize::from(hand)];
    match marking {
        Marking::Bare => {
            let unmarked = Unmarked {
                look: &stage.machine,
            };
            paint_on(view, &unmarked, &stage.report.sent, &margin, desk)
        }
        Marking::Scanned => { paint_on(view, &stage.machine, &stage.report.sent, &margin, desk) }
    }
}

/// Paints the picture of a hand, if it is shown one and is not away.
fn paint_hand<M: Machine, H: House>(
    live: &mut Live<'_, M>,
    desk: &mut Desk<H>,
    hand: u8,
    marking: Marking,
) -> Result<(), NoMemory>
    requires hand { hand < length live.old.crew.players }
    requires seated { AreSeated (length (live_state M.Machine.own live.old).views) desk.old }
    ensures painted { LiveDid M.Machine.own
        (painted_course (marks_by marking (M.marks live.old.stage.machine)) hand)
        live.old desk.old (goes_of result) live.new desk.new }
    ensures machine { live.new.stage.machine ≡ live.old.stage.machine }
    ensures crew { live.new.crew ≡ live.old.crew }
{
    if usize::from(hand) >= live.views.as_slice().len() {
        return Ok(());
    }
    if live.crew.is_away(hand) {
        return Ok(());
    }
    paint_view(live, desk, hand, marking)
}

/// Paints the pictures, in the order of the hands, whose editors are fitted to the grid.
fn paint_hands<M: Machine, H: House>(
    live: &mut Live<'_, M>,
    desk: &mut Desk<H>,
    marking: Marking,
) -> Result<(), NoMemory>
    requires { AreSeated (length (live_state M.Machine.own live.old).views) desk.old }
    ensures { LiveDid M.Machine.own (λ s. each
        (painted_course (marks_by marking (M.marks live.old.stage.machine))) (hands_in s) s)
        live.old desk.old (goes_of result) live.new desk.new }
{
    for hand in 0..live.crew.hands() {
        paint_hand(live, desk, hand, marking)?;
    }
    Ok(())
}

/// Paints the pictures.
pub(crate) fn paint<M: Machine, H: House>(
    live: &mut Live<'_, M>,
    desk: &mut Desk<H>,
    marking: Marking,
) -> Result<(), NoMemory>
    requires { AreSeated (length (live_state M.Machine.own live.old).views) desk.old }
    ensures { LiveDid M.Machine.own
        (paint_course (marks_by marking (M.marks live.old.stage.machine)))
        live.old desk.old (goes_of result) live.new desk.new }
{
    fit(live);
    paint_hands(live, desk, marking)
}

/// Paints the pictures, with the marks of a scan of the piece as it stands.
#[tactic(auto, using(crate::proofs::DoneLemmas::show_did))]
pub(crate) fn show<M: Machine, H: House>(
    live: &mut Live<'_, M>,
    desk: &mut Desk<H>,
) -> Result<(), NoMemory>
    requires { AreSeated (length (live_state M.Machine.own live.old).views) desk.old }
    ensures { LiveDid M.Machine.own show_course live.old desk.old (goes_of result) live.new desk.new }
{
    desk.preview(&mut live.stage.machine);
    paint(live, desk, Marking::Scanned)
}

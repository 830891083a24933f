//! A grid that is edited while it plays.

ghost use Rattle.std.specs.Prelude.{◌≡◌, IfOk, IfSome, Some, [], false, length};
ghost use Rattle.std.specs.Option.{option_map};
ghost use Rattle.orca_course.specs.Standings.{notes_of};
ghost use Rattle.orca_course.specs.Worlds.{AreSeated, has_ended, has_listened};
ghost use Rattle.orca_live.specs.Performing.{live_part};
ghost use Rattle.orca_live.specs.States.{live_state, residue_of, setting_in};
ghost use Rattle.orca_player.specs.Doing.{CameBy};
ghost use Rattle.orca_player.specs.Outlines.{crew_of, hands_asked, leavings, live_outline, live_start, played, played_course, room_name, room_start, roomed, setting_of, standing_at, waiting};
ghost use Rattle.orca_player.specs.Performances.{Performed};
ghost use Rattle.orca_script.specs.Runs.{ScriptReadsBack};
ghost use Rattle.orca_term.specs.Picture.{IsScreen};
ghost use Rattle.orca_words.specs.RequestIn.{performance_in, setup_in, text_in};

use crate::Status;
use crate::concert::{open_stage, settled};
use crate::opening::Opening;
use crate::performing::{listen, perform_whole, status_of_ending};
use crate::reading::reading_law;
use crate::room::{leave_room, room_name, room_start};
use orca_base::{Command, Memory};
use orca_course::{Desk, Performer};
use orca_edit::Machine;
use orca_jam::Crew;
use orca_live::{Live, Quiet, Setting};
use orca_rig::{Claim, House};
use orca_session::Session;
use orca_term::ScreenSize;
use orca_words::{Performance, Setup};
use std::alloc::Global;

/// One hand alone.
pub(crate) const ALONE: u8 = 1;

/// Claims the room, if there is to be one, and plays the grid until the performance ends.
pub(crate) fn play<H: House>(
    opening: &Opening,
    setup: &Setup<'_>,
    performance: &Performance<'_>,
    desk: &mut Desk<H>,
) -> Status
    requires fresh { has_listened desk.old ≡ false }
    requires open { has_ended desk.old ≡ false }
    requires same { (opening.now.seed ≡ setup.now.seed) × (opening.now.limit ≡ setup.now.limit) }
    ensures { CameBy (λ b. roomed (room_name (performance_in performance.now))
        (room_start (setup_in setup.now) opening.now.grid) b.claimed
        (waiting (leavings (room_name (performance_in performance.now)) b.closing false)
        performance.now.address.now (hands_asked (performance_in performance.now)) b.start
        (live_outline (setup_in setup.now) (performance_in performance.now) b
        (standing_at opening.now.grid opening.now.seed opening.now.limit))))
        desk.old result desk.new }
{
    match room_name(performance) {
        None => wait(opening, setup, performance, desk),
        Some(name) => play_in(opening, setup, performance, name, desk),
    }
}

/// Claims a room, and plays in it. It ends the run that the room is there already: what was left
/// there is not lost.
fn play_in<H: House>(
    opening: &Opening,
    setup: &Setup<'_>,
    performance: &Performance<'_>,
    name: &str,
    desk: &mut Desk<H>,
) -> Status
    requires fresh { has_listened desk.old ≡ false }
    requires open { has_ended desk.old ≡ false }
    requires same { (opening.now.seed ≡ setup.now.seed) × (opening.now.limit ≡ setup.now.limit) }
    ensures { CameBy (λ b. roomed (Some name.now)
        (room_start (setup_in setup.now) opening.now.grid) b.claimed
        (waiting (leavings (room_name (performance_in performance.now)) b.closing false)
        performance.now.address.now (hands_asked (performance_in performance.now)) b.start
        (live_outline (setup_in setup.now) (performance_in performance.now) b
        (standing_at opening.now.grid opening.now.seed opening.now.limit))))
        desk.old result desk.new }
{
    let Ok(start) = room_start(opening.alloc, setup, &opening.grid) else {
        return Status::Memory;
    };
    match desk.claim(name, start.as_slice()) {
        Ok(Some(Claim::Made)) => wait(opening, setup, performance, desk),
        Ok(Some(Claim::Left)) => Status::RoomLeft,
        Ok(Some(Claim::Held)) => Status::RoomHeld,
        Ok(None) => Status::FileFault,
        Err(_) => Status::Memory,
    }
}

/// Waits for the players at the address, and plays the grid until the performance ends.
fn wait<H: House>(
    opening: &Opening,
    setup: &Setup<'_>,
    performance: &Performance<'_>,
    desk: &mut Desk<H>,
) -> Status
    requires fresh { has_listened desk.old ≡ false }
    requires open { has_ended desk.old ≡ false }
    requires same { (opening.now.seed ≡ setup.now.seed) × (opening.now.limit ≡ setup.now.limit) }
    ensures { CameBy (λ b. waiting
        (leavings (room_name (performance_in performance.now)) b.closing false)
        performance.now.address.now (hands_asked (performance_in performance.now)) b.start
        (live_outline (setup_in setup.now) (performance_in performance.now) b
        (standing_at opening.now.grid opening.now.seed opening.now.limit)))
        desk.old result desk.new }
{
    let hands = performance.hands.unwrap_or(ALONE);
    match listen(desk, room_name(performance), performance.address, hands) {
        Ok(at) => start(opening, setup, performance, at, desk),
        Err(status) => status,
    }
}

/// Opens a session, and plays the grid from a moment on.
fn start<H: House>(
    opening: &Opening,
    setup: &Setup<'_>,
    performance: &Performance<'_>,
    at: u64,
    desk: &mut Desk<H>,
) -> Status
    requires open { has_ended desk.old ≡ false }
    requires same { (opening.now.seed ≡ setup.now.seed) × (opening.now.limit ≡ setup.now.limit) }
    requires seated { AreSeated (hands_asked (performance_in performance.now)) desk.old }
    ensures { CameBy (λ b. live_outline (setup_in setup.now) (performance_in performance.now)
        b (standing_at opening.now.grid opening.now.seed opening.now.limit) at)
        desk.old result desk.new }
{
    match open_live(opening, setup, performance, at) {
        Ok(mut live) => play_all(&mut live, room_name(performance), desk),
        Err(Memory) => Status::Memory,
    }
}

/// Plays until the performance ends, leaves the room, and answers how the run ends.
fn play_all<M: Machine, H: House>(
    live: &mut Live<'_, M>,
    room: Option<&str>,
    desk: &mut Desk<H>,
) -> Status
    requires open { has_ended desk.old ≡ false }
    requires begins { notes_of (live_state M.Machine.own live.old).standing ≡ [] }
    requires residue { residue_of M.Machine.own live.old ≡ 0 }
    requires sized { IsScreen (live_state M.Machine.own live.old).setting.screen }
    requires seated { AreSeated (length (live_state M.Machine.own live.old).views) desk.old }
    ensures { CameBy (λ b. played (text_in room.entry) (live_state M.Machine.own live.old) b)
        desk.old result desk.new }
{
    let seed = live.seed();
    let status = perform_and_leave(live, room, desk);
    read_back(seed, live.given());
    status
}

/// Plays until the performance ends, leaves the room, and answers how the run ends.
fn perform_and_leave<M: Machine, H: House>(
    live: &mut Live<'_, M>,
    room: Option<&str>,
    desk: &mut Desk<H>,
) -> Status
    requires open { has_ended desk.old ≡ false }
    requires begins { notes_of (live_state M.Machine.own live.old).standing ≡ [] }
    requires residue { residue_of M.Machine.own live.old ≡ 0 }
    requires seated { AreSeated (length (live_state M.Machine.own live.old).views) desk.old }
    ensures { Performed live_part
        (played_course (text_in room.entry) (live_state M.Machine.own live.old))
        (live_state M.Machine.own live.old) desk.old result (live_state M.Machine.own live.new)
        desk.new }
{
    let Ok(ending) = perform_whole(live, desk) else {
        return Status::Memory;
    };
    match leave_room(desk, room, live.is_loose()) {
        Ok(()) => settled(status_of_ending(ending), desk),
        Err(_) => Status::Memory,
    }
}

/// The script of the commands is read as its seed and them, if they are kept. It does nothing.
fn read_back(seed: u32, given: Option<&[Command]>)
    ensures { IfSome (option_map (λ commands. commands.now) given.entry) (ScriptReadsBack seed) }
{
    if let Some(given) = given {
        reading_law(seed, given);
    }
}

/// How a grid is played, and the files that it is saved to.
fn setting_of<'a>(setup: &Setup<'a>, performance: &Performance<'a>) -> Setting<'a>
    ensures { setting_in result ≡ setting_of (setup_in setup.now) (performance_in performance.now) }
{
    Setting {
        bpm: performance.bpm,
        seed: setup.seed,
        grid: setup.grid,
        save: performance.save,
        script: performance.script,
        journal: performance.journal,
        room: performance.room,
        screen: ScreenSize {
            rows: performance.rows,
            columns: performance.cols,
        },
    }
}

/// The crew of a performance: a hand that plays alone, or as many as share the session, with room for the
/// owners of a whole history.
fn crew_of(alloc: Global, setup: &Setup<'_>, performance: &Performance<'_>) -> Result<Crew, Memory>
    ensures { IfOk result (λ crew.
        crew ≡ crew_of (setup_in setup.now) (performance_in performance.now)) }
{
    match performance.hands {
        None => Ok(Crew::alone(alloc, performance.full)),
        Some(hands) => Crew::start(
            alloc,
            performance.full,
            performance.views,
            hands,
            setup.limit,
        ),
    }
}

/// A performance on the opened grid, before its first picture, that starts at this moment.
fn open_live<'a>(
    opening: &Opening,
    setup: &Setup<'a>,
    performance: &Performance<'a>,
    at: u64,
) -> Result<Live<'a, Session>, Memory>
    ensures state { IfOk result (λ live.
        ⟦<Live<'static, Session> as Performer>⟧.state live
        ≡ live_start (setup_in setup.now) (performance_in performance.now) at
        (standing_at opening.now.grid opening.now.seed opening.now.limit)) }
    ensures residue { IfOk result (λ live.
        ⟦<Live<'static, Session> as Performer>⟧.residue live ≡ 0) }
{
    let stage = open_stage(opening, Quiet::start(opening.alloc)?)?;
    let crew = crew_of(opening.alloc, setup, performance)?;
    let setting = setting_of(setup, performance);
    Live::start(opening.alloc, stage, setting, crew, at)
}

//! What a performance has left in its room.

ghost use Rattle.std.specs.Prelude.{◌≡◌, ◌≤◌, [], IfSome, OnOk, length, map, unwrap_or};
ghost use Rattle.orca_base.specs.declared.limits.TheConstants.{DEFAULT_SEED, MAX_FILE_BYTES};
ghost use Rattle.orca_concert.specs.Concerts.{concert_course, concert_with};
ghost use Rattle.orca_concert.specs.Stages.{standing_of};
ghost use Rattle.orca_course.specs.Acts.{gives};
ghost use Rattle.orca_course.specs.Answered.{losses_of};
ghost use Rattle.orca_course.specs.Standings.{notes_of};
ghost use Rattle.orca_course.specs.Worlds.{Calls};
ghost use Rattle.orca_cues.specs.Rooms.{room_in, room_parts, whole_lines};
ghost use Rattle.orca_cues.specs.Scripts.{commands_of_cues, seed_in};
ghost use Rattle.orca_rooms.specs.Sound.{sound_script};
ghost use Rattle.orca_player.specs.Doing.{CameBy, ReadsBack};
ghost use Rattle.orca_player.specs.Outlines.{all_notes_off, channels, done_before, hush_acts, hushed, hushing, is_strict, lines_ahead, planned_end, recovered, recovery_outline, rescue_by, saves_of, script_kept, script_recovered, script_saves, sound_recovered, status_learnt};
ghost use Rattle.orca_player.specs.Rescued.{script_in_rescue};
ghost use Rattle.orca_reports.specs.Rescues.{recovery_manner};
ghost use Rattle.orca_words.specs.RequestIn.{recovery_in, text_in};

use crate::Status;
use crate::concert::{open_stage, settled, status_of_stop};
use crate::opening::{Opening, attach};
use crate::status::refused_status;
use orca_base::limits::{DEFAULT_HISTORY, DEFAULT_SEED, MAX_CHANNEL, MAX_FILE_BYTES};
use orca_base::{Memory, Port};
use orca_concert::{Stage, close_early, play};
use orca_course::{Desk, NoMemory, Stop};
use orca_cues::{Room, ScriptFault, check_script2, room_parts, script_seed, whole_lines};
use orca_edit::Machine;
use orca_grid::{Grid, GridRefusal};
use orca_reports::RecoveryReport;
use orca_rig::{Disk, House};
use orca_rooms::{SoundScript, lines_before, print_sound, room_limit};
use orca_words::Recovery;
use std::alloc::Global;

/// The controller that ends all notes of a channel (MIDI 1.0, channel mode messages).
const ALL_NOTES_OFF: u8 = 123;

/// The script of a room, and where what it leads to goes.
#[derive(Drop)]
pub(crate) struct Rescue<'a> {
    /// Where the grid and the script go.
    pub(crate) recovery: &'a Recovery<'a>,
    /// The whole lines of the script.
    pub(crate) text: &'a [u8],
    /// Its seed.
    pub(crate) seed: u32,
    /// Its first wrong line, counted in the room, if it has one.
    pub(crate) wrong: Option<ScriptFault>,
}

/// Loads a room, ends the notes of the run that has left it, at the MIDI port if it is named, and
/// recovers what stands in it. Its commands are done on its grid, unheard, up to a wrong line, and the
/// grid and the script are saved.
pub(crate) fn recover<H: House>(
    alloc: Global,
    recovery: &Recovery<'_>,
    desk: &mut Desk<H>,
) -> Status
    ensures { CameBy (recovery_outline (recovery_in recovery.now)) desk.old result desk.new }
{
    match desk.load(alloc, recovery.room, MAX_FILE_BYTES as u32) {
        Ok(Some(text)) => hush_and_read(alloc, recovery, text.as_slice(), desk),
        Ok(None) => Status::FileFault,
        Err(_) => Status::Memory,
    }
}

/// Ends the notes of the run that has left a room, and recovers what stands in it.
fn hush_and_read<H: House>(
    alloc: Global,
    recovery: &Recovery<'_>,
    text: &[u8],
    desk: &mut Desk<H>,
) -> Status
    requires { length text.now ≤ MAX_FILE_BYTES }
    ensures { CameBy (λ b. hushed (recovery_in recovery.now)
        (recovered (recovery_in recovery.now) b.closing (room_parts text.now)))
        desk.old result desk.new }
{
    match hush(desk, recovery.midi) {
        Ok(()) => read_room(alloc, recovery, text, desk),
        Err(_) => Status::Memory,
    }
}

/// Attaches the MIDI port and ends all notes of its device, if it has a name.
fn hush<H: House>(desk: &mut Desk<H>, midi: Option<&str>) -> Result<(), NoMemory>
    ensures { Calls (hush_acts (text_in midi.entry)) result desk.old desk.new }
{
    attach(desk, Port::Midi, midi)?;
    end_named(desk, midi)
}

/// Ends all notes of the device of the MIDI port, if that has a name.
#[tactic(auto, using(orca_course::proofs::WorldLemmas::called_still))]
fn end_named<H: House>(desk: &mut Desk<H>, midi: Option<&str>) -> Result<(), NoMemory>
    ensures { Calls (gives (hushing (text_in midi.entry))) result desk.old desk.new }
{
    match midi {
        None => Ok(()),
        Some(_) => end_all(desk),
    }
}

/// Ends all notes of the device of the MIDI port, channel by channel.
fn end_all<H: House>(desk: &mut Desk<H>) -> Result<(), NoMemory>
    ensures { Calls (gives (map all_notes_off channels)) result desk.old desk.new }
{
    for channel in 0..MAX_CHANNEL + 1 {
        desk.send(Port::Midi, &midi_bytes::control(channel, ALL_NOTES_OFF, 0))?;
    }
    Ok(())
}

/// Parts the text of a room, and recovers what stands in it.
fn read_room<H: House>(
    alloc: Global,
    recovery: &Recovery<'_>,
    text: &[u8],
    desk: &mut Desk<H>,
) -> Status
    requires { length text.now ≤ MAX_FILE_BYTES }
    ensures { CameBy (λ b. recovered (recovery_in recovery.now) b.closing (room_parts text.now))
        desk.old result desk.new }
{
    match room_parts(text) {
        Some(room) => read_grid(alloc, recovery, room, desk),
        None => Status::GridRefused(GridRefusal::NoCells),
    }
}

/// Reads the grid of a room, and then its script.
fn read_grid<H: House>(
    alloc: Global,
    recovery: &Recovery<'_>,
    room: Room<'_>,
    desk: &mut Desk<H>,
) -> Status
    requires grid { length room.grid.now ≤ MAX_FILE_BYTES }
    requires script { length room.script.now ≤ MAX_FILE_BYTES }
    ensures { CameBy (λ b. recovered (recovery_in recovery.now) b.closing
        (Some (room_in room.entry))) desk.old result desk.new }
{
    match Grid::read(alloc, room.grid) {
        Ok(grid) => read_script(alloc, recovery, grid, room, desk),
        Err(refusal) => refused_status(refusal),
    }
}

/// Reads all lines of the script of a room, and then does those before the first wrong one on the
/// grid. A script whose first line is wrong is none.
fn read_script<H: House>(
    alloc: Global,
    recovery: &Recovery<'_>,
    grid: Grid,
    room: Room<'_>,
    desk: &mut Desk<H>,
) -> Status
    requires grid { length room.grid.now ≤ MAX_FILE_BYTES }
    requires script { length room.script.now ≤ MAX_FILE_BYTES }
    ensures { CameBy (λ b. script_recovered (recovery_in recovery.now) grid
        (lines_ahead (room_in room.entry)) (whole_lines room.entry.script.now) b.closing)
        desk.old result desk.new }
{
    let text = whole_lines(room.script);
    let seed = script_seed(text).unwrap_or(DEFAULT_SEED);
    match check_script2(text) {
        Ok(()) => {
            let rescue = Rescue {
                recovery,
                text,
                seed,
                wrong: None,
            };
            do_sound(alloc, &rescue, grid, desk)
        }
        Err(fault) => {
            if fault.line == 1 {
                return Status::ScriptRefused {
                    line: fault.line,
                    column: fault.column,
                };
            }
            let wrong = ScriptFault {
                line: lines_before(&room) + fault.line,
                column: fault.column,
            };
            let rescue = Rescue {
                recovery,
                text,
                seed,
                wrong: Some(wrong),
            };
            do_sound(alloc, &rescue, grid, desk)
        }
    }
}

/// Does the lines of a script before its first wrong one on the grid of a room, and saves both.
#[tactic(auto, using(crate::proofs::CameLemmas::came_none))]
fn do_sound<H: House>(alloc: Global, rescue: &Rescue<'_>, grid: Grid, desk: &mut Desk<H>) -> Status
    requires short { length rescue.now.text.now ≤ MAX_FILE_BYTES }
    requires seed { rescue.now.seed ≡ unwrap_or (seed_in rescue.now.text.now) DEFAULT_SEED }
    ensures { CameBy (λ b. sound_recovered (recovery_in rescue.now.recovery.now) grid
        rescue.now.text.now rescue.now.wrong b.closing) desk.old result desk.new }
{
    let own = room_limit(rescue.text);
    let limit = rescue
        .recovery
        .limit
        .unwrap_or(own.unwrap_or(DEFAULT_HISTORY));
    let opening = Opening {
        alloc,
        grid,
        seed: rescue.seed,
        limit,
    };
    match open_stage(&opening, RecoveryReport::new(is_strict(limit, own))) {
        Ok(mut stage) => do_and_save(alloc, &mut stage, rescue, desk),
        Err(Memory) => Status::Memory,
    }
}

/// Whether a full history of this limit ends the commands of a room that names its own limit, or none.
fn is_strict(limit: u32, own: Option<u32>) -> bool
    ensures { result ≡ is_strict limit own }
{
    match own {
        None => true,
        Some(most) => limit < most,
    }
}

/// Does the commands of a script up to its first wrong line, and saves the grid and the script. If
/// memory is refused, and not by a send, the notes that sound are ended.
///
/// It knows no session but as a machine, so that what a session holds is not looked at here.
fn do_and_save<M: Machine, H: House>(
    alloc: Global,
    stage: &mut Stage<M, RecoveryReport>,
    rescue: &Rescue<'_>,
    desk: &mut Desk<H>,
) -> Status
    requires begins { notes_of (standing_of M.Machine.own stage.old) ≡ [] }
    requires residue { M.residue stage.old.machine ≡ 0 }
    requires short { length rescue.now.text.now ≤ MAX_FILE_BYTES }
    ensures { CameBy (λ b. rescue_by (recovery_in rescue.now.recovery.now) rescue.now.seed
        (commands_of_cues (sound_script rescue.now.text.now)) rescue.now.wrong b.closing
        (standing_of M.Machine.own stage.old)
        (concert_course recovery_manner (sound_script rescue.now.text.now)
        (concert_with (standing_of M.Machine.own stage.old) stage.old.report)))
        desk.old result desk.new }
{
    let mut source = SoundScript::of(rescue.text);
    match play(stage, &mut source, desk) {
        Ok(end) => {
            let most = done_before(end, &stage.report);
            match save_both(alloc, &stage.machine, rescue, most, desk) {
                Ok(()) => settled(status_learnt(planned_end(rescue.wrong, end), desk), desk),
                Err(_) => Status::Memory,
            }
        }
        Err(NoMemory::InSend) => Status::Memory,
        Err(NoMemory::Elsewhere) => {
            // The status is decided already, so a second refusal changes nothing.
            let _ = close_early(stage, desk);
            Status::Memory
        }
    }
}

/// How many commands were done, if a full history has ended them.
fn done_before(end: Option<Stop>, report: &RecoveryReport) -> Option<u64>
    ensures { result ≡ done_before end report.now }
{
    match end {
        None => None,
        Some(_) => Some(report.done()),
    }
}

/// How a recovery would end: a full history comes before a wrong line.
fn planned_end(wrong: Option<ScriptFault>, end: Option<Stop>) -> Status
    ensures { result ≡ planned_end wrong end }
{
    match end {
        Some(stop) => status_of_stop(stop),
        None => match wrong {
            None => Status::Done,
            Some(fault) => Status::ScriptRefused {
                line: fault.line,
                column: fault.column,
            },
        },
    }
}

/// What is reported where not all was done: files that have failed come first.
fn status_learnt<H: House>(planned: Status, desk: &Desk<H>) -> Status
    ensures { result ≡ status_learnt planned (losses_of desk.now.calls) }
{
    match planned {
        Status::Done => Status::Done,
        planned => {
            if desk.losses().unstored {
                return Status::FileFault;
            }
            planned
        }
    }
}

/// Saves the grid of a session, and then the script.
fn save_both<M: Machine, H: House>(
    alloc: Global,
    machine: &M,
    rescue: &Rescue<'_>,
    most: Option<u64>,
    desk: &mut Desk<H>,
) -> Result<(), NoMemory>
    requires short { length rescue.now.text.now ≤ MAX_FILE_BYTES }
    ensures called { Calls (saves_of (recovery_in rescue.now.recovery.now)
        (script_in_rescue rescue.now most) (M.machine machine.now)) result desk.old desk.new }
    ensures reads { OnOk result (IfSome (script_kept (recovery_in rescue.now.recovery.now).script
        rescue.now.seed (Some (script_in_rescue rescue.now most).commands)) ReadsBack) }
{
    let mut text = Vec::new(alloc);
    machine.is_shown();
    Grid::print(machine, &mut text)?;
    desk.save(rescue.recovery.out, text.as_slice(), Disk::Awaited)?;
    save_script(alloc, rescue, most, desk)
}

/// Saves the commands of a script, so many or all, if it has a name.
fn save_script<H: House>(
    alloc: Global,
    rescue: &Rescue<'_>,
    most: Option<u64>,
    desk: &mut Desk<H>,
) -> Result<(), NoMemory>
    requires short { length rescue.now.text.now ≤ MAX_FILE_BYTES }
    ensures called { Calls (script_saves (recovery_in rescue.now.recovery.now).script
        (script_in_rescue rescue.now most)) result desk.old desk.new }
    ensures reads { OnOk result (IfSome (script_kept (recovery_in rescue.now.recovery.now).script
        rescue.now.seed (Some (script_in_rescue rescue.now most).commands)) ReadsBack) }
{
    match rescue.recovery.script {
        None => Ok(()),
        Some(name) => {
            let mut script = Vec::new(alloc);
            print_sound(rescue.text, rescue.seed, most, &mut script)?;
            desk.save(name, script.as_slice(), Disk::Awaited)
        }
    }
}

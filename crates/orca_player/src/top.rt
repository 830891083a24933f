ghost use Rattle.std.specs.Prelude.{◌≡◌, ◌⊎◌, ◌≤◌, false, length, List, map, None, Option, string_bytes, ℕ};
ghost use Rattle.orca_base.specs.declared.limits.TheConstants.{MAX_FILE_BYTES};
ghost use Rattle.orca_course.specs.Worlds.{IsSound, has_ended, has_listened};
ghost use Rattle.orca_grid.specs.GridText.{grid_text};
ghost use Rattle.orca_player.specs.Clocks.{KeepsTime};
ghost use Rattle.orca_player.specs.Doing.{Came, CameBy};
ghost use Rattle.orca_player.specs.Outlines.{Heard, grid_outline, is_too_long as is_long_work, made_outline, outline, performed, request_outline, work_outline};
ghost use Rattle.orca_player.specs.Hands.{SharesFairly};
ghost use Rattle.orca_player.specs.Laws.{CutsAlike, KeepsJournals, KeepsRooms, ReplaysAlike};
ghost use Rattle.orca_player.specs.Recoveries.{Recovers};
ghost use Rattle.orca_player.specs.Running.{IsCaused, Ran};
ghost use Rattle.orca_words.specs.RequestIn.{request_in, setup_in, work_in, workload_in};
ghost use Rattle.orca_words.specs.Recordings.{HasSongTempo};
ghost use Rattle.orca_words.specs.Requests.{Perform, request_of};

use crate::Status;
use crate::concert::concert;
use crate::ending::end;
use crate::follow::follow;
use crate::lead::lead;
use crate::live::play;
use crate::migration::migrate;
use crate::opening::{Opening, attach_all};
use crate::recording::{is_too_long, record_song, record_wave};
use crate::recovery::recover;
use crate::replay::replay;
use crate::status::refused_status;
use orca_base::Dims;
use orca_base::limits::{DEFAULT_HISTORY, MAX_FILE_BYTES};
use orca_clock::clock_law;
use orca_course::Desk;
use orca_cues::{Frames, Maker, Turns};
use orca_frame::table_laws;
use orca_grid::Grid;
use orca_live::{hands_law, solo_law};
use orca_reports::{EventsReport, MakeReport, RunReport, saving_law};
use orca_rig::House;
use orca_words::{Request, Setup, WordsFault, Work, Workload, read_words};
use std::alloc::Global;

/// Does what the words ask for, and answers how it ended. They are the words after the program's own
/// name: `run` and `events` play frames, `replay` does the commands of a script, `make` those of a
/// generated run, `play` lets a player edit the grid while it plays, and `jam` lets several share
/// one session. `follow` plays by a MIDI clock that comes in, and `lead` plays and gives one. `smf`
/// and `wav` play frames and save their notes as a song or as sound, `migrate` saves a script in
/// format 2, and `recover` saves the grid and the script of a room. The desk owns the files, the
/// ports, the inbox and the counter of steps.
///
/// The named ports are attached in the order MIDI, UDP, OSC, then the grid is loaded and read, and
/// then the script of `replay`, whose lines are all read before the first command is done. The
/// messages of each command are sent at once, one by one. At the end, unless it comes early, the text
/// of the word is printed, every note ends, and `play` and `jam` save. While they play, they add their
/// commands to their journal. `smf` and `wav` hand no message out, and save last. `migrate` loads a
/// script, reads all its lines, and saves it. `recover` loads a room, and ends the notes of the run
/// that has left it, if a MIDI port is named. It does the commands up to a wrong line on the grid of
/// the room, with the limit that the room names, hands no message of them out, and saves last.
///
/// A port that fails does not end the run: if all else was done, the status is
/// [`Status::OutFault`]. Neither does a save or an append, with [`Status::FileFault`]. A status
/// other than 0 sends one line on the fault port, as the last send.
///
/// Out of memory is [`Status::Memory`], in one of three ways. A port refused it to a send: then a
/// beginning of the outline was done, all of it if the send was that line, and nothing else is sent
/// but the line. It was refused elsewhere once the session was open: then a beginning was done that
/// ends with a command, and every note that sounded ends, unless a port refuses memory to one of
/// these sends. Or it was refused before, as a port was attached or elsewhere: then nothing is sent
/// but that line and, by `recover`, what ends notes.
pub fn run<H: House>(alloc: Global, words: &Vec<String>, desk: &mut Desk<H>) -> Status
    // Nobody has listened to the inbox, and it has not ended; and nothing has failed at the desk.
    requires fresh { has_listened desk.old ≡ false }
    requires open { has_ended desk.old ≡ false }
    requires sound { IsSound desk.old }

    // Invalid words, whatever the outside tells.
    ensures usage { request_of (map string_bytes words.now.items) ≡ None
        → (result ≡ Status.Usage) ⊎ (result ≡ Status.Memory) }
    ensures usage_only { result ≡ Status.Usage
        → request_of (map string_bytes words.now.items) ≡ None }

    // All of the outline of the words was done, in order, and how it ended: every grid is that of a
    // full scan of every cell, folded over what the history keeps, and every message is of its
    // events. A device that is sent all MIDI messages has exactly the keys of the notes that sound.
    // The steps are at most the bill of the outline. Without a fault of the outside it is done whole
    // wherever that can be.
    ensures ran { Ran (map string_bytes words.now.items) desk.old result desk.new }

    // A fault of the outside is reported only if a call failed so.
    ensures causes { IsCaused result desk.new }

    // How the bytes of a performance are cut into answers changes no command, no state at last, and
    // no saved script; and a replay of that script ends in the same session.
    ensures cutting { CutsAlike (map string_bytes words.now.items) }
    ensures replays { ReplaysAlike (map string_bytes words.now.items) }

    // Whenever the inbox of a performance is asked, its journal has been given the line of the seed
    // and the lines of exactly the commands so far. Wherever the run stops, it has been given a
    // beginning of that.
    ensures journals { KeepsJournals (map string_bytes words.now.items) }

    // So it is in a room, behind the text of the grid, from the moment on at which the room was made.
    // Nothing takes it away but the last call of a run whose saves and appends all went well, where no
    // command was accepted that is not in the grid that was saved, but frames and copies.
    ensures rooms { KeepsRooms (map string_bytes words.now.items) }

    // What was kept in a room is recovered, unless a smaller limit is asked for: the session after
    // exactly its commands, whose grid is saved, and their script. A line that was cut off is lost
    // alone.
    ensures recovers { Recovers (map string_bytes words.now.items) }

    // A run that follows a clock does the commands of all bytes that it hears, however they were cut
    // and whatever other bytes stand between. One that hears exactly what a run that leads gives
    // plays exactly the frames of that.
    ensures clocks { KeepsTime (map string_bytes words.now.items) }

    // Hands that share a session are each heard, the undo of one leaves the edits of the others,
    // and one hand that could share it plays as one that plays alone, but for the key of Redo.
    ensures hands { SharesFairly (map string_bytes words.now.items) }
{
    // What runs by a clock do, and what hands do that share a session, is said by these laws.
    table_laws();
    clock_law();
    hands_law();
    solo_law();
    let status = work(alloc, words, desk);
    end(alloc, desk, status)
}

/// Does what the words ask for, but for the line of the status.
fn work<H: House>(alloc: Global, words: &Vec<String>, desk: &mut Desk<H>) -> Status
    requires fresh { has_listened desk.old ≡ false }
    requires open { has_ended desk.old ≡ false }
    ensures { (grid : Option (List ℕ)) × CameBy (λ brought.
        outline (map string_bytes words.now.items) (record { grid = grid; brought = brought }))
        desk.old result desk.new }
{
    match read_words(alloc, words) {
        Ok(Request::Make(load)) => make(alloc, load, desk),
        Ok(Request::Migrate(migration)) => migrate(alloc, &migration, desk),
        Ok(Request::Recover(recovery)) => recover(alloc, &recovery, desk),
        Ok(Request::Perform { setup, work }) => perform(alloc, &setup, &work, desk),
        Err(WordsFault::Usage) => Status::Usage,
        Err(WordsFault::Memory) => Status::Memory,
    }
}

/// Does the work, unless it is a wave that would be too long.
fn perform<H: House>(
    alloc: Global,
    setup: &Setup<'_>,
    work: &Work<'_>,
    desk: &mut Desk<H>,
) -> Status
    requires fresh { has_listened desk.old ≡ false }
    requires open { has_ended desk.old ≡ false }
    requires tempo { HasSongTempo (work_in work.now) }
    ensures { (grid : Option (List ℕ)) × CameBy (λ brought.
        request_outline (Perform (setup_in setup.now) (work_in work.now))
        (record { grid = grid; brought = brought })) desk.old result desk.new }
{
    if is_too_long(work) {
        return Status::WavTooLong;
    }
    open(alloc, setup, work, desk)
}

/// Attaches the ports, loads the grid, and does the work.
fn open<H: House>(alloc: Global, setup: &Setup<'_>, work: &Work<'_>, desk: &mut Desk<H>) -> Status
    requires fresh { has_listened desk.old ≡ false }
    requires open { has_ended desk.old ≡ false }
    requires tempo { HasSongTempo (work_in work.now) }
    requires not_long { is_long_work (work_in work.now) ≡ false }
    ensures { (grid : Option (List ℕ)) × CameBy (λ brought.
        performed (setup_in setup.now) (work_in work.now)
        (record { grid = grid; brought = brought })) desk.old result desk.new }
{
    let Ok(()) = attach_all(desk, setup) else {
        return Status::Memory;
    };
    match desk.load(alloc, setup.grid, MAX_FILE_BYTES as u32) {
        Ok(Some(text)) => read_grid(alloc, setup, work, text.as_slice(), desk),
        Ok(None) => Status::FileFault,
        Err(_) => Status::Memory,
    }
}

/// Reads the text of the grid, and does the work.
fn read_grid<H: House>(
    alloc: Global,
    setup: &Setup<'_>,
    work: &Work<'_>,
    text: &[u8],
    desk: &mut Desk<H>,
) -> Status
    requires short { length text.now ≤ MAX_FILE_BYTES }
    requires fresh { has_listened desk.old ≡ false }
    requires open { has_ended desk.old ≡ false }
    requires tempo { HasSongTempo (work_in work.now) }
    requires not_long { is_long_work (work_in work.now) ≡ false }
    ensures { CameBy (λ brought. grid_outline (setup_in setup.now) (work_in work.now) brought
        (grid_text text.now)) desk.old result desk.new }
{
    match Grid::read(alloc, text) {
        Ok(grid) => do_work(alloc, setup, work, grid, desk),
        Err(refusal) => refused_status(refusal),
    }
}

/// Does the work on the opened grid.
fn do_work<H: House>(
    alloc: Global,
    setup: &Setup<'_>,
    work: &Work<'_>,
    grid: Grid,
    desk: &mut Desk<H>,
) -> Status
    requires fresh { has_listened desk.old ≡ false }
    requires open { has_ended desk.old ≡ false }
    requires tempo { HasSongTempo (work_in work.now) }
    requires not_long { is_long_work (work_in work.now) ≡ false }
    ensures { CameBy (work_outline (setup_in setup.now) (work_in work.now) grid)
        desk.old result desk.new }
{
    // What a song and a wave hold is said by these laws.
    saving_law();
    table_laws();
    let mut opening = Opening {
        alloc,
        grid,
        seed: setup.seed,
        limit: setup.limit,
    };
    match work {
        Work::Run { frames } => {
            let mut source = Frames::of(*frames);
            concert(&opening, &mut source, RunReport::new(alloc), desk)
        }
        Work::Events { frames } => {
            let mut source = Frames::of(*frames);
            concert(&opening, &mut source, EventsReport::new(alloc), desk)
        }
        Work::Smf(song) => record_song(&opening, song, desk),
        Work::Wav(wave) => record_wave(&opening, wave, desk),
        Work::Replay { script } => replay(&mut opening, script, desk),
        Work::Play(performance) => play(&opening, setup, performance, desk),
        Work::Follow { address } => follow(&opening, address, desk),
        Work::Lead(leading) => lead(&opening, leading, desk),
    }
}

/// Makes a grid and its commands, does them, and prints a summary.
#[tactic(auto, using(crate::proofs::CameLemmas::came_none), unfolding(crate::specs::Outlines::made_outline))]
fn make<H: House>(alloc: Global, load: Workload, desk: &mut Desk<H>) -> Status
    ensures { Came (made_outline (workload_in load)) desk.old result desk.new }
{
    let dims = Dims {
        h: load.height,
        w: load.width,
    };
    let maker = Maker::start(load.seed, dims);
    let Ok(grid) = maker.grid(alloc) else {
        return Status::Memory;
    };
    let opening = Opening {
        alloc,
        grid,
        seed: load.seed,
        limit: DEFAULT_HISTORY,
    };
    let mut turns = Turns::of(maker, load.frames);
    concert(&opening, &mut turns, MakeReport::new(alloc), desk)
}

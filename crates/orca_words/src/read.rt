//! Reading the words of the command line.

ghost use Rattle.std.specs.Prelude.{◌≡◌, ◌≤◌, None, Some, find, map, option_map, string_bytes, IfOk, IsErrOf, MatchOption};
ghost use Rattle.std.specs.Str.{bytes_eq};
ghost use Rattle.orca_words.specs.Requests.{do_meet, frames_given, is_one_of, is_same_name, jam_of, kept_name, leading_of, migration_of, performance_of, performing, portless_setup_of, recording_of, recovery_of, request_by, request_in_form, request_of, setup_of, with_fit_names, with_names_apart, with_own_journal, with_own_room, workload_of};
ghost use Rattle.orca_words.specs.Forms.{form_by, form_in};
ghost use Rattle.orca_words.specs.RequestIn.{leading_in, migration_in, performance_in, recording_in, recovery_in, request_in, rows_in, setup_in, text_in, work_in, workload_in};
ghost use Rattle.orca_words.specs.Recordings.{HasOwnJournal, HasSongTempo, IfPerform, RecordsWithoutPorts};

use crate::command::parse;
use crate::forms::{FORMS, Form, Verb};
use crate::limits::{DEFAULT_SCREEN_COLUMNS, DEFAULT_SCREEN_ROWS, MAX_MADE_FRAMES, MIN_SONG_BPM};
use crate::values::{
    number_set, option_full, option_number, option_text, option_views, positional_number,
    positional_text, small_option,
};
use crate::{
    Leading, Migration, Performance, Recording, Recovery, Request, Setup, WordsFault, Work,
    Workload,
};
use clap::ArgMatches;
use orca_base::limits::{
    DEFAULT_BPM, DEFAULT_HISTORY, DEFAULT_SEED, MAX_BPM, MAX_COLUMNS, MAX_HANDS, MAX_HISTORY,
    MAX_ROWS, MAX_SCREEN_COLUMNS, MAX_SCREEN_ROWS, MIN_SCREEN_COLUMNS, MIN_SCREEN_ROWS,
};
use std::alloc::Global;

/// What the words of the command line ask for. They are the words after the program's own name.
///
/// The first word is compared as it is and picks a form. A simple `clap` command of that form reads
/// the words after it. A number is 1 to 10 decimal digits with a value in its range.
#[tactic(auto, unfolding(crate::specs::Requests::request_of))]
pub fn read_words<'a>(alloc: Global, words: &'a Vec<String>) -> Result<Request<'a>, WordsFault>
    ensures read { IfOk result (λ request.
        request_of (map string_bytes words.now.items) ≡ Some (request_in request)) }
    ensures refused { IsErrOf result WordsFault.Usage
        → request_of (map string_bytes words.now.items) ≡ None }

    // A song has a tempo that its file can hold, what is saved as a song or as sound is played
    // without ports, and a journal is no other file of its performance.
    ensures tempo { IfOk result (λ request.
        IfPerform (request_in request) (λ setup work. HasSongTempo work)) }
    ensures portless { IfOk result (λ request.
        IfPerform (request_in request) RecordsWithoutPorts) }
    ensures journal { IfOk result (λ request.
        IfPerform (request_in request) HasOwnJournal) }
{
    let [first, others @ ..] = words.as_slice() else {
        return Err(WordsFault::Usage);
    };
    let Some(form) = form_by(first.as_str()) else {
        return Err(WordsFault::Usage);
    };
    read_in_form(alloc, form, others)
}

/// What the words after the first one ask for, by the form that it picked.
#[tactic(auto, unfolding(crate::specs::Requests::request_in_form))]
fn read_in_form<'a>(
    alloc: Global,
    form: &Form,
    words: &'a [String],
) -> Result<Request<'a>, WordsFault>
    ensures read { IfOk result (λ request.
        request_in_form (form_in form.now) (map string_bytes words.now)
        ≡ Some (request_in request)) }
    ensures refused { IsErrOf result WordsFault.Usage
        → request_in_form (form_in form.now) (map string_bytes words.now) ≡ None }
    ensures tempo { IfOk result (λ request.
        IfPerform (request_in request) (λ setup work. HasSongTempo work)) }
    ensures portless { IfOk result (λ request.
        IfPerform (request_in request) RecordsWithoutPorts) }
    ensures journal { IfOk result (λ request.
        IfPerform (request_in request) HasOwnJournal) }
{
    let &(_, _, _, verb) = form;
    let found = parse(alloc, form, words)?;
    request_by(verb, &found).ok_or(WordsFault::Usage)
}

/// The form that a first word picks.
#[tactic(auto, unfolding(crate::specs::Forms::forms))]
fn form_by(first: &str) -> Option<&'static Form>
    ensures { option_map (λ form. form_in form.now) result ≡ form_by first.now }
{
    first_with(&FORMS, first)
}

/// The first of these forms with this word.
fn first_with<'t>(table: &'t [Form], word: &str) -> Option<&'t Form>
    ensures { option_map (λ form. form_in form.now) result
        ≡ find (λ form. bytes_eq form.word word.now) (map form_in table.now) }
{
    for form in table {
        let &(first, ..) = form;
        if first == word {
            return Some(form);
        }
    }
    None
}

/// What a verb asks for, by what its command found; none where a number is not in its range.
#[tactic(auto, unfolding(crate::specs::Requests::request_by))]
fn request_by<'a>(verb: Verb, found: &ArgMatches<'a>) -> Option<Request<'a>>
    ensures { option_map request_in result ≡ request_by verb (rows_in found.now) }
{
    match verb {
        Verb::Run => {
            let frames = frames(found)?;
            perform(setup(found), Work::Run { frames })
        }
        Verb::Events => {
            let frames = frames(found)?;
            perform(setup(found), Work::Events { frames })
        }
        Verb::Replay => {
            let script = positional_text(found, "SCRIPT");
            perform(setup(found), Work::Replay { script })
        }
        Verb::Play => {
            let play = with_fit_names(found, performance(found)?)?;
            perform(setup(found), Work::Play(play))
        }
        Verb::Make => Some(Request::Make(workload(found)?)),
        Verb::Migrate => Some(Request::Migrate(migration(found)?)),
        Verb::Smf => {
            let song = recording(found, MIN_SONG_BPM)?;
            perform(portless_setup(found), Work::Smf(song))
        }
        Verb::Jam => {
            let play = with_fit_names(found, jam(found)?)?;
            perform(setup(found), Work::Play(play))
        }
        Verb::Wav => {
            let wave = recording(found, 1)?;
            perform(portless_setup(found), Work::Wav(wave))
        }
        Verb::Follow => {
            let address = positional_text(found, "ADDRESS");
            perform(setup(found), Work::Follow { address })
        }
        Verb::Lead => perform(setup(found), Work::Lead(leading(found)?)),
        Verb::Recover => Some(Request::Recover(recovery(found)?)),
    }
}

/// How many frames are played.
fn frames(found: &ArgMatches) -> Option<u32>
    ensures { result ≡ frames_given (rows_in found.now) }
{
    positional_number(found, "FRAMES", 0, u32::MAX)
}

/// This work, on a grid and with its options, where the numbers of these are in their ranges.
fn perform<'a>(setup: Option<Setup<'a>>, work: Work<'a>) -> Option<Request<'a>>
    ensures { option_map request_in result
        ≡ performing (option_map setup_in setup.entry) (Some (work_in work.entry)) }
{
    let setup = setup?;
    Some(Request::Perform { setup, work })
}

/// The grid, the seed and the limit of a run that attaches no port.
#[tactic(auto, unfolding(crate::specs::Requests::portless_setup_of))]
fn portless_setup<'a>(found: &ArgMatches<'a>) -> Option<Setup<'a>>
    ensures { option_map setup_in result ≡ portless_setup_of (rows_in found.now) }
{
    let seed = option_number(found, "seed", DEFAULT_SEED, 0, u32::MAX)?;
    let limit = option_number(found, "limit", DEFAULT_HISTORY, 1, MAX_HISTORY)?;
    Some(Setup {
        grid: positional_text(found, "GRID"),
        seed,
        limit,
        midi: None,
        udp: None,
        osc: None,
    })
}

/// The grid and the options of a run.
#[tactic(auto, unfolding(crate::specs::Requests::setup_of))]
fn setup<'a>(found: &ArgMatches<'a>) -> Option<Setup<'a>>
    ensures { option_map setup_in result ≡ setup_of (rows_in found.now) }
{
    let Setup {
        grid,
        seed,
        limit,
        ..
    } = portless_setup(found)?;
    Some(Setup {
        grid,
        seed,
        limit,
        midi: option_text(found, "midi"),
        udp: option_text(found, "udp"),
        osc: option_text(found, "osc"),
    })
}

/// The frames, the tempo and the file of a run that is saved as a song or as sound.
#[tactic(auto, unfolding(crate::specs::Requests::recording_of))]
fn recording<'a>(found: &ArgMatches<'a>, least: u16) -> Option<Recording<'a>>
    requires positive { 1 ≤ least }
    requires low { least ≤ DEFAULT_BPM }
    ensures { option_map recording_in result ≡ recording_of (rows_in found.now) least }
{
    let frames = frames(found)?;
    let bpm = small_option(found, "bpm", DEFAULT_BPM, least, MAX_BPM)?;
    Some(Recording {
        frames,
        bpm,
        out: positional_text(found, "OUT"),
    })
}

/// The names and the seed of `migrate`.
#[tactic(auto, unfolding(crate::specs::Requests::migration_of))]
fn migration<'a>(found: &ArgMatches<'a>) -> Option<Migration<'a>>
    ensures { option_map migration_in result ≡ migration_of (rows_in found.now) }
{
    let seed = option_number(found, "seed", DEFAULT_SEED, 0, u32::MAX)?;
    let script = positional_text(found, "SCRIPT");
    let out = positional_text(found, "OUT");
    Some(Migration { script, out, seed })
}

/// The address, the tempo, the screen, the keys and the names of `play`.
#[tactic(auto, unfolding(crate::specs::Requests::performance_of))]
fn performance<'a>(found: &ArgMatches<'a>) -> Option<Performance<'a>>
    ensures { option_map performance_in result ≡ performance_of (rows_in found.now) }
{
    let bpm = small_option(found, "bpm", DEFAULT_BPM, 1, MAX_BPM)?;
    let rows = small_option(
        found,
        "rows",
        DEFAULT_SCREEN_ROWS,
        MIN_SCREEN_ROWS,
        MAX_SCREEN_ROWS,
    )?;
    let cols = small_option(
        found,
        "cols",
        DEFAULT_SCREEN_COLUMNS,
        MIN_SCREEN_COLUMNS,
        MAX_SCREEN_COLUMNS,
    )?;
    let full = option_full(found)?;
    let room = option_text(found, "room");
    let journal = kept_name(option_text(found, "journal"), room)?;
    Some(Performance {
        address: positional_text(found, "ADDRESS"),
        bpm,
        rows,
        cols,
        full,
        hands: None,
        views: false,
        save: option_text(found, "save"),
        script: option_text(found, "script"),
        journal,
        room: room.is_some(),
    })
}

/// The file that commands are added to, a journal or a room; none where both are given.
fn kept_name<'a>(journal: Option<&'a str>, room: Option<&'a str>) -> Option<Option<&'a str>>
    ensures { option_map (λ name. text_in name) result
        ≡ kept_name (text_in journal.entry) (text_in room.entry) }
{
    match journal {
        None => Some(room),
        Some(name) => match room {
            None => Some(Some(name)),
            Some(_) => None,
        },
    }
}

/// The same of `jam`, how many hands share the session, and which of them are shown a picture.
#[tactic(auto, unfolding(crate::specs::Requests::jam_of))]
fn jam<'a>(found: &ArgMatches<'a>) -> Option<Performance<'a>>
    ensures { option_map performance_in result ≡ jam_of (rows_in found.now) }
{
    let hands = positional_number(found, "HANDS", 1, u32::from(MAX_HANDS))? as u8;
    let views = option_views(found)?;
    let mut play = performance(found)?;
    play.hands = Some(hands);
    play.views = views;
    Some(play)
}

/// The address and the tempo of `lead`.
#[tactic(auto, unfolding(crate::specs::Requests::leading_of))]
fn leading<'a>(found: &ArgMatches<'a>) -> Option<Leading<'a>>
    ensures { option_map leading_in result ≡ leading_of (rows_in found.now) }
{
    let bpm = small_option(found, "bpm", DEFAULT_BPM, 1, MAX_BPM)?;
    Some(Leading {
        address: positional_text(found, "ADDRESS"),
        bpm,
    })
}

/// The performance, unless its journal has the name of its grid, of one that is saved at the end,
/// of its address, or of its MIDI port. A save there would drop what was added, or the journal
/// would be played, or take the port's name.
#[tactic(auto, unfolding(crate::specs::Requests::with_own_journal))]
fn with_own_journal<'a>(found: &ArgMatches<'a>, play: Performance<'a>) -> Option<Performance<'a>>
    ensures { option_map performance_in result
        ≡ with_own_journal (rows_in found.now) (performance_in play.entry) }
{
    let grid = Some(positional_text(found, "GRID"));
    if is_same_name(play.journal, grid)
        || is_same_name(play.journal, play.save)
        || is_same_name(play.journal, play.script)
        || is_same_name(play.journal, Some(play.address))
        || is_same_name(play.journal, option_text(found, "midi"))
    {
        return None;
    }
    Some(play)
}

/// The performance with a room, unless two of its names meet: those of its grid, its address, what it
/// saves at the end, and its MIDI port. The grid alone may be saved under its own name.
#[tactic(auto, unfolding(crate::specs::Requests::with_names_apart))]
fn with_names_apart<'a>(found: &ArgMatches<'a>, play: Performance<'a>) -> Option<Performance<'a>>
    ensures { option_map performance_in result
        ≡ with_names_apart (rows_in found.now) (performance_in play.entry) }
{
    let grid = Some(positional_text(found, "GRID"));
    let address = Some(play.address);
    let midi = option_text(found, "midi");
    if play.room
        && (is_one_of(grid, address, play.script, midi)
            || is_one_of(play.save, address, play.script, midi)
            || do_meet(address, play.script, midi))
    {
        return None;
    }
    Some(play)
}

/// The performance, if its names may be used together.
#[tactic(auto, unfolding(crate::specs::Requests::with_fit_names))]
fn with_fit_names<'a>(found: &ArgMatches<'a>, play: Performance<'a>) -> Option<Performance<'a>>
    ensures { option_map performance_in result
        ≡ with_fit_names (rows_in found.now) (performance_in play.entry) }
{
    let play = with_own_journal(found, play)?;
    with_names_apart(found, play)
}

/// Whether a name is one of three others.
fn is_one_of(name: Option<&str>, a: Option<&str>, b: Option<&str>, c: Option<&str>) -> bool
    ensures { result ≡ is_one_of (text_in name.entry) (text_in a.entry) (text_in b.entry)
        (text_in c.entry) }
{
    is_same_name(name, a) || is_same_name(name, b) || is_same_name(name, c)
}

/// Whether two of three names are the same text.
fn do_meet(a: Option<&str>, b: Option<&str>, c: Option<&str>) -> bool
    ensures { result ≡ do_meet (text_in a.entry) (text_in b.entry) (text_in c.entry) }
{
    is_same_name(a, b) || is_same_name(a, c) || is_same_name(b, c)
}

/// Whether both names are there, and are the same text.
fn is_same_name(one: Option<&str>, other: Option<&str>) -> bool
    ensures { result ≡ is_same_name (text_in one.entry) (text_in other.entry) }
{
    match one {
        None => false,
        Some(one) => match other {
            None => false,
            Some(other) => one == other,
        },
    }
}

/// The names and the limit of `recover`.
#[tactic(auto, unfolding(crate::specs::Requests::recovery_of))]
fn recovery<'a>(found: &ArgMatches<'a>) -> Option<Recovery<'a>>
    ensures { option_map recovery_in result ≡ recovery_of (rows_in found.now) }
{
    let limit = number_set(found, "limit", 1, MAX_HISTORY)?;
    with_own_room(Recovery {
        room: positional_text(found, "ROOM"),
        out: positional_text(found, "OUT"),
        script: option_text(found, "script"),
        midi: option_text(found, "midi"),
        limit,
    })
}

/// The recovery, unless two of its names meet: its room is read before anything goes to the others,
/// and each of them holds what it is given.
#[tactic(auto, unfolding(crate::specs::Requests::with_own_room))]
fn with_own_room(recovery: Recovery<'_>) -> Option<Recovery<'_>>
    ensures { option_map recovery_in result ≡ with_own_room (recovery_in recovery.entry) }
{
    let room = Some(recovery.room);
    let out = Some(recovery.out);
    if is_one_of(room, out, recovery.script, recovery.midi)
        || do_meet(out, recovery.script, recovery.midi)
    {
        return None;
    }
    Some(recovery)
}

/// The four numbers of `make`.
#[tactic(auto, unfolding(crate::specs::Requests::workload_of))]
fn workload(found: &ArgMatches) -> Option<Workload>
    ensures { option_map workload_in result ≡ workload_of (rows_in found.now) }
{
    let seed = positional_number(found, "SEED", 0, u32::MAX)?;
    let height = positional_number(found, "HEIGHT", 1, u32::from(MAX_ROWS))? as u16;
    let width = positional_number(found, "WIDTH", 1, u32::from(MAX_COLUMNS))? as u16;
    let frames = positional_number(found, "FRAMES", 0, MAX_MADE_FRAMES)?;
    Some(Workload {
        seed,
        height,
        width,
        frames,
    })
}

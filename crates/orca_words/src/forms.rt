//! The forms of the command line.

/// What the first word asks for.
#[derive(Clone, Copy, Debug, PartialEq, Eq)]
pub(crate) enum Verb {
    Run,
    Events,
    Replay,
    Play,
    Make,
    Migrate,
    Smf,
    Jam,
    Wav,
    Follow,
    Lead,
    Recover,
}

/// A form of the command line: its first word, the names of the positionals that have to follow it,
/// in this order, the names of its options, which may stand anywhere, and what it asks for.
pub(crate) type Form = (
    &'static str,
    &'static [&'static str],
    &'static [&'static str],
    Verb,
);

/// The options of a run on a grid.
const OPTIONS: &[&str] = &["seed", "limit", "midi", "udp", "osc"];

/// The options of a run on a grid that is edited while it plays.
const PLAY_OPTIONS: &[&str] = &[
    "seed", "limit", "midi", "udp", "osc", "bpm", "rows", "cols", "keys", "save", "script",
    "journal", "room",
];

/// The same where several hands share the session.
const JAM_OPTIONS: &[&str] = &[
    "seed", "limit", "midi", "udp", "osc", "bpm", "rows", "cols", "keys", "save", "script",
    "journal", "room", "views",
];

/// The options of a run on a grid that is saved as a song or as sound.
const RECORDING_OPTIONS: &[&str] = &["seed", "limit", "bpm"];

/// The options of a run on a grid that gives a MIDI clock.
const LEAD_OPTIONS: &[&str] = &["seed", "limit", "midi", "udp", "osc", "bpm"];

/// The command lines that are read: each is in one of these forms.
pub(crate) static FORMS: [Form; 12] = [
    ("run", &["GRID", "FRAMES"], OPTIONS, Verb::Run),
    ("events", &["GRID", "FRAMES"], OPTIONS, Verb::Events),
    ("replay", &["GRID", "SCRIPT"], OPTIONS, Verb::Replay),
    ("play", &["GRID", "ADDRESS"], PLAY_OPTIONS, Verb::Play),
    (
        "make",
        &["SEED", "HEIGHT", "WIDTH", "FRAMES"],
        &[],
        Verb::Make,
    ),
    ("migrate", &["SCRIPT", "OUT"], &["seed"], Verb::Migrate),
    (
        "smf",
        &["GRID", "FRAMES", "OUT"],
        RECORDING_OPTIONS,
        Verb::Smf,
    ),
    ("jam", &["GRID", "ADDRESS", "HANDS"], JAM_OPTIONS, Verb::Jam),
    (
        "wav",
        &["GRID", "FRAMES", "OUT"],
        RECORDING_OPTIONS,
        Verb::Wav,
    ),
    ("follow", &["GRID", "ADDRESS"], OPTIONS, Verb::Follow),
    ("lead", &["GRID", "ADDRESS"], LEAD_OPTIONS, Verb::Lead),
    (
        "recover",
        &["ROOM", "OUT"],
        &["script", "midi", "limit"],
        Verb::Recover,
    ),
];

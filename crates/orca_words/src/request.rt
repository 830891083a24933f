//! What the words of the command line ask for.

ghost use Rattle.std.specs.Prelude.{◌≤◌};
ghost use Rattle.std.specs.Option.{ForSome};
ghost use Rattle.orca_base.specs.declared.limits.TheConstants.{MAX_BPM, MAX_COLUMNS, MAX_HANDS, MAX_HISTORY, MAX_ROWS, MAX_SCREEN_COLUMNS, MAX_SCREEN_ROWS, MIN_SCREEN_COLUMNS, MIN_SCREEN_ROWS};
ghost use Rattle.orca_words.specs.declared.limits.TheConstants.{MAX_MADE_FRAMES};

/// What the words ask for.
#[derive(Drop)]
pub enum Request<'a> {
    /// Work on a grid that is loaded.
    Perform { setup: Setup<'a>, work: Work<'a> },
    /// The word `make`: a grid and commands that are generated.
    Make(Workload),
    /// The word `migrate`: a script that is saved in format 2.
    Migrate(Migration<'a>),
    /// The word `recover`: what a performance has left in its room.
    Recover(Recovery<'a>),
}

/// The grid and the options of a run.
#[derive(Drop)]
pub struct Setup<'a> {
    /// The name of the grid's file.
    pub grid: &'a str,
    /// The seed of the random operator.
    pub seed: u32,
    /// The most entries of the history: 1 to [`MAX_HISTORY`](orca_base::limits::MAX_HISTORY).
    pub limit: u32,
    /// The file, pipe or device that MIDI bytes go to.
    pub midi: Option<&'a str>,
    /// The address that plain datagrams go to.
    pub udp: Option<&'a str>,
    /// The address that OSC messages go to.
    pub osc: Option<&'a str>,
    ghost limit_in_range: { (1 ≤ limit) × (limit ≤ MAX_HISTORY) },
}

/// What is done on a grid.
#[derive(Drop)]
pub enum Work<'a> {
    /// The word `run`: frames are played, and the last grid is shown.
    Run { frames: u32 },
    /// The word `events`: frames are played, and each message is shown.
    Events { frames: u32 },
    /// The word `replay`: the commands of a script are done.
    Replay { script: &'a str },
    /// The words `play` and `jam`: the grid plays while it is edited by keys, of one hand or of
    /// several.
    Play(Performance<'a>),
    /// The word `smf`: frames are played, and their MIDI messages are saved as a song. No port is
    /// attached, and the tempo is at least [`MIN_SONG_BPM`](crate::limits::MIN_SONG_BPM).
    Smf(Recording<'a>),
    /// The word `wav`: frames are played, and their notes are saved as sound. No port is attached.
    Wav(Recording<'a>),
    /// The word `follow`: the grid plays by the MIDI clock whose bytes arrive at an address.
    Follow { address: &'a str },
    /// The word `lead`: the grid plays, and gives a MIDI clock.
    Lead(Leading<'a>),
}

/// Where keys come from and which they are, how many hands share the session, and which of them are shown a
/// picture, where pictures go to, how fast frames are played, and what is saved, at the end and while it
/// plays.
#[derive(Drop)]
pub struct Performance<'a> {
    /// The address at which the keys arrive.
    pub address: &'a str,
    /// The tempo in beats a minute: 1 to [`MAX_BPM`](orca_base::limits::MAX_BPM).
    pub bpm: u16,
    /// The rows of the screen: [`MIN_SCREEN_ROWS`](orca_base::limits::MIN_SCREEN_ROWS) to
    /// [`MAX_SCREEN_ROWS`](orca_base::limits::MAX_SCREEN_ROWS).
    pub rows: u16,
    /// The columns of the screen: [`MIN_SCREEN_COLUMNS`](orca_base::limits::MIN_SCREEN_COLUMNS) to
    /// [`MAX_SCREEN_COLUMNS`](orca_base::limits::MAX_SCREEN_COLUMNS).
    pub cols: u16,
    /// Whether the keys are the full ones, or else the plain ones.
    pub full: bool,
    /// How many hands share the session: 1 to [`MAX_HANDS`](orca_base::limits::MAX_HANDS). None where
    /// one plays alone.
    pub hands: Option<u8>,
    /// Whether each hand is shown a picture of its own, and not the first one alone.
    pub views: bool,
    /// The file that the grid is saved to.
    pub save: Option<&'a str>,
    /// The file that the commands are saved to.
    pub script: Option<&'a str>,
    /// The file that the commands are added to while it plays: a journal, or a room.
    pub journal: Option<&'a str>,
    /// Whether it is a room, which begins with the grid, is claimed before anybody is heard, and is
    /// taken away where nothing in it is unsaved at the end. Without a journal it is false.
    pub room: bool,
    ghost bpm_in_range: { (1 ≤ bpm) × (bpm ≤ MAX_BPM) },
    ghost rows_in_range: { (MIN_SCREEN_ROWS ≤ rows) × (rows ≤ MAX_SCREEN_ROWS) },
    ghost cols_in_range: { (MIN_SCREEN_COLUMNS ≤ cols) × (cols ≤ MAX_SCREEN_COLUMNS) },
    ghost hands_in_range: { ForSome hands (λ count. (1 ≤ count) × (count ≤ MAX_HANDS)) },
}

/// How many frames are played, how fast, and what they are saved to.
#[derive(Drop)]
pub struct Recording<'a> {
    /// The frames that are played.
    pub frames: u32,
    /// The tempo in beats a minute: 1 to [`MAX_BPM`](orca_base::limits::MAX_BPM).
    pub bpm: u16,
    /// The file that the song or the sound is saved to.
    pub out: &'a str,
    ghost bpm_in_range: { (1 ≤ bpm) × (bpm ≤ MAX_BPM) },
}

/// Where the keys of a player come from, and how fast a clock is given.
#[derive(Drop)]
pub struct Leading<'a> {
    /// The address at which the keys arrive.
    pub address: &'a str,
    /// The tempo in beats a minute: 1 to [`MAX_BPM`](orca_base::limits::MAX_BPM).
    pub bpm: u16,
    ghost bpm_in_range: { (1 ≤ bpm) × (bpm ≤ MAX_BPM) },
}

/// A script that is saved in format 2.
#[derive(Drop)]
pub struct Migration<'a> {
    /// The name of the script's file.
    pub script: &'a str,
    /// The file that the script is saved to.
    pub out: &'a str,
    /// The seed of a script that carries none.
    pub seed: u32,
}

/// A room, and where its grid and its script go.
#[derive(Drop)]
pub struct Recovery<'a> {
    /// The name of the room's file.
    pub room: &'a str,
    /// The file that the grid is saved to.
    pub out: &'a str,
    /// The file that the script is saved to.
    pub script: Option<&'a str>,
    /// The file, pipe or device whose notes are ended.
    pub midi: Option<&'a str>,
    /// The most entries of the history, 1 to [`MAX_HISTORY`](orca_base::limits::MAX_HISTORY). None
    /// where the room says it.
    pub limit: Option<u32>,
    ghost limit_in_range: { ForSome limit (λ most. (1 ≤ most) × (most ≤ MAX_HISTORY)) },
}

/// A grid and commands that are generated.
#[derive(Clone, Copy)]
pub struct Workload {
    /// The seed of the generator and of the random operator.
    pub seed: u32,
    /// The rows of the grid: 1 to [`MAX_ROWS`](orca_base::limits::MAX_ROWS).
    pub height: u16,
    /// The columns of the grid: 1 to [`MAX_COLUMNS`](orca_base::limits::MAX_COLUMNS).
    pub width: u16,
    /// The turns of the generator: at most [`MAX_MADE_FRAMES`](crate::limits::MAX_MADE_FRAMES).
    pub frames: u32,
    ghost height_in_range: { (1 ≤ height) × (height ≤ MAX_ROWS) },
    ghost width_in_range: { (1 ≤ width) × (width ≤ MAX_COLUMNS) },
    ghost frames_in_range: { frames ≤ MAX_MADE_FRAMES },
}

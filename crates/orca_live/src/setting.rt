ghost use Rattle.std.specs.Prelude.{◌≡◌, ◌≤◌};
ghost use Rattle.orca_base.specs.declared.limits.TheConstants.{MAX_BPM, MAX_SCREEN_COLUMNS, MAX_SCREEN_ROWS, MIN_SCREEN_COLUMNS, MIN_SCREEN_ROWS};

use orca_term::ScreenSize;

/// How a performance plays, and the files that it is saved to.
#[derive(Clone, Copy, Debug, PartialEq, Eq)]
pub struct Setting<'a> {
    /// The tempo in beats a minute at the start: 1 to [`MAX_BPM`](orca_base::limits::MAX_BPM).
    pub bpm: u16,
    /// The seed of the random operator, which the saved script carries.
    pub seed: u32,
    /// The name of the grid's file. The key Save saves the grid there, unless `save` is given.
    pub grid: &'a str,
    /// The file that the grid is saved to, by the key Save and at the end.
    pub save: Option<&'a str>,
    /// The file that the script of the commands is saved to at the end.
    pub script: Option<&'a str>,
    /// The file that each command is added to while the performance plays.
    pub journal: Option<&'a str>,
    /// Whether that is a room: a file that was claimed, with its first lines, before anybody was heard.
    pub room: bool,
    /// The screen at the start.
    pub screen: ScreenSize,
    ghost some_bpm: { 1 ≤ bpm },
    ghost few_bpm: { bpm ≤ MAX_BPM },
    ghost rows: { (MIN_SCREEN_ROWS ≤ screen.rows) × (screen.rows ≤ MAX_SCREEN_ROWS) },
    ghost columns: { (MIN_SCREEN_COLUMNS ≤ screen.columns)
        × (screen.columns ≤ MAX_SCREEN_COLUMNS) },
}

impl<'a> Setting<'a> {
    ghost use Rattle.std.specs.Option.{option_map};
    ghost use Rattle.orca_live.specs.States.{begun_name, key_name, setting_in};

    /// The name under which the key Save saves the grid.
    pub(crate) fn key_name(&self) -> &'a str
        ensures { result.now ≡ key_name (setting_in self.now) }
    {
        self.save.unwrap_or(self.grid)
    }

    /// The file that is begun: a journal; a room has begun.
    pub(crate) fn begun_name(&self) -> Option<&'a str>
        ensures { option_map (λ name. name.now) result ≡ begun_name (setting_in self.now) }
    {
        if self.room {
            return None;
        }
        self.journal
    }
}

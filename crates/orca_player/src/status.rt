ghost use Rattle.std.specs.Prelude.{◌≡◌};
ghost use Rattle.orca_player.specs.Doing.{refused_status};
ghost use Rattle.orca_player.specs.Statuses.{number_of_status};

use orca_grid::GridRefusal;

/// How a run ends.
#[derive(Clone, Copy, Debug, PartialEq, Eq)]
pub enum Status {
    /// All was done.
    Done,
    /// The words are faulty.
    Usage,
    /// The text of the grid is refused. It is never [`GridRefusal::Memory`].
    GridRefused(GridRefusal),
    /// A port failed, and all else was done.
    OutFault,
    /// A file could not be loaded: it is missing, unreadable, or more than
    /// [`MAX_FILE_BYTES`](orca_base::limits::MAX_FILE_BYTES) bytes. Or a room could not be claimed.
    /// Or a file could not be saved, added to or taken away, and all else was done.
    FileFault,
    /// The script has a line outside its grammar: the first such line and the column where it
    /// leaves the grammar, both counted from 1. In a room that line is counted from its beginning,
    /// unless it is the first of the script.
    ScriptRefused { line: u32, column: u32 },
    /// A frame was to be played, or a command of a room to be done, and the history had as many
    /// entries as it may have.
    HistoryFull,
    /// The inbox failed.
    InboxFault,
    /// As many polls were answered as may be.
    TurnsSpent,
    /// Memory was refused.
    Memory,
    /// The song that was to be saved is too long, and nothing was saved.
    SmfTooLong,
    /// The wave that was to be saved would be too long, and nothing was done.
    WavTooLong,
    /// The room is there, and no program holds it: what was left there is not yet saved.
    RoomLeft,
    /// The room is there, and a program holds it: it is played in now.
    RoomHeld,
}

impl Status {
    /// The number that the process ends with.
    pub fn number(self) -> u8
        ensures { result ≡ number_of_status self }
    {
        match self {
            Status::Done => 0,
            Status::Usage => 1,
            Status::GridRefused(_) => 2,
            Status::OutFault => 3,
            Status::FileFault => 4,
            Status::ScriptRefused { .. } => 5,
            Status::HistoryFull => 6,
            Status::InboxFault => 7,
            Status::TurnsSpent => 8,
            Status::Memory => 9,
            Status::SmfTooLong => 11,
            Status::WavTooLong => 12,
            Status::RoomLeft => 13,
            Status::RoomHeld => 14,
        }
    }
}

/// The status of a grid that is refused.
pub(crate) fn refused_status(refusal: GridRefusal) -> Status
    ensures { result ≡ refused_status refusal }
{
    match refusal {
        GridRefusal::Memory => Status::Memory,
        refusal => Status::GridRefused(refusal),
    }
}

use crate::{Area, Block, Dims, Glyph, Place, Rect};

/// What a musician asks of a session.
#[derive(Clone, Copy, Debug, PartialEq, Eq)]
pub enum Command {
    /// Plays a frame.
    Frame,
    /// Writes a glyph at a place.
    Write {
        /// The row.
        y: u32,
        /// The column.
        x: u32,
        /// The glyph.
        glyph: Glyph,
    },
    /// Writes a glyph at each place of a block.
    Fill {
        /// The block.
        rect: Rect,
        /// The glyph.
        glyph: Glyph,
    },
    /// Empties each place of a block.
    Erase {
        /// The block.
        rect: Rect,
    },
    /// Keeps a block as the clip.
    Copy {
        /// The block.
        rect: Rect,
    },
    /// Keeps a block as the clip, and empties its places.
    Cut {
        /// The block.
        rect: Rect,
    },
    /// Puts a glyph into a cell of the clip, which grows to hold it. A new clip begins with the cell
    /// at row 0 and column 0.
    Clip {
        /// The row.
        y: u32,
        /// The column.
        x: u32,
        /// The glyph.
        glyph: Glyph,
    },
    /// Writes the clip, its first cell at a place.
    Paste {
        /// The row.
        y: u32,
        /// The column.
        x: u32,
    },
    /// Moves a block, its first cell to a place.
    Move {
        /// The block.
        rect: Rect,
        /// The row.
        to_y: u32,
        /// The column.
        to_x: u32,
    },
    /// Gives the grid another size.
    Resize {
        /// The number of rows.
        h: u32,
        /// The number of columns.
        w: u32,
    },
    /// Begins again at tick 0, and ends every note.
    Reset,
    /// Goes back to before the last edit.
    Undo,
    /// Goes back to a moment of the history.
    Rewind {
        /// How many entries of the history stay.
        moment: u32,
    },
    /// Brings back what was cut off last, up to its next edit.
    Redo,
    /// Takes one entry out of the history, as if it had never been done, and ends every note.
    Retract {
        /// The number of the entry.
        moment: u32,
    },
    /// Ends every note.
    Hush,
}

/// What a history keeps of a command. All but `Frame` and `Hush` are edits.
#[derive(Debug, Drop)]
pub enum Entry {
    /// Each place of the area holds the glyph.
    Fill {
        /// The area.
        area: Area,
        /// The glyph.
        glyph: Glyph,
    },
    /// The block stands at the place; what lies outside the grid is cut off.
    Put {
        /// Where the block's first cell stands.
        at: Place,
        /// The block.
        block: Block,
    },
    /// What the area held stands at the place, and the rest of the area is empty.
    Move {
        /// The area.
        area: Area,
        /// Where its first cell stands.
        to: Place,
    },
    /// The grid has this size.
    Resize {
        /// The size.
        dims: Dims,
    },
    /// The tick is 0, and every note ends.
    Reset,
    /// A frame is played.
    Frame,
    /// Every note ends: a Hush, or the last entry of a jump or a Retract.
    Hush,
}

/// Why a session refuses a command. The first rule that stands, in this order, is the one that is told.
#[derive(Clone, Copy, Debug, PartialEq, Eq)]
pub enum Rule {
    /// The place of Write or Paste, the first place of the block of Fill, Erase, Copy, Cut or Move, or the
    /// target of Move isn't in the grid.
    OutOfGrid,
    /// The block of Fill, Erase, Copy, Cut or Move has no row or no column.
    EmptyBlock,
    /// A side of Resize is 0 or too long for a grid, or the largest grid lacks the cell of Clip.
    BadSize,
    /// There is nothing to paste, or no clip for another cell than the first.
    EmptyClip,
    /// There is no edit to undo, or no entry to take out of the history.
    NothingToUndo,
    /// The history has no such moment.
    NoSuchMoment {
        /// How many entries the history has.
        kept: u32,
    },
    /// An edit that stands after a Resize may not fit the size before it.
    SizeInUse,
    /// The history has as many entries as it may have, or what Redo brings back doesn't fit into it.
    HistoryFull,
    /// Nothing was cut off that Redo could bring back.
    NothingToRedo,
}

impl Rule {
    ghost use Rattle.std.specs.Prelude.{◌≡◌, ◌≤◌, length};
    ghost use Rattle.orca_base.specs.declared.limits.TheConstants.{RULE_NAME_BYTES};
    ghost use Rattle.orca_base.specs.RuleNames.{rule_name};

    /// The name of the rule, as it is printed.
    pub fn name(self) -> &'static str
        ensures name { result.now ≡ rule_name self }
        ensures short { length result.now ≤ RULE_NAME_BYTES }
    {
        match self {
            Rule::OutOfGrid => "OutOfGrid",
            Rule::EmptyBlock => "EmptyBlock",
            Rule::BadSize => "BadSize",
            Rule::EmptyClip => "EmptyClip",
            Rule::NothingToUndo => "NothingToUndo",
            Rule::NoSuchMoment { .. } => "NoSuchMoment",
            Rule::SizeInUse => "SizeInUse",
            Rule::HistoryFull => "HistoryFull",
            Rule::NothingToRedo => "NothingToRedo",
        }
    }
}

/// What a session did.
#[derive(Clone, Copy, Debug, PartialEq, Eq)]
pub enum Reply {
    /// The grid was edited, the session begins again at tick 0, or every note ended.
    Edited,
    /// The clip was taken, or a glyph put into it.
    Copied,
    /// A frame was played.
    Framed {
        /// Its tick.
        tick: u32,
    },
    /// The session went back.
    Jumped {
        /// How many entries of the history stayed.
        moment: u32,
    },
    /// Entries that were cut off are in the history again.
    Redone {
        /// How many.
        entries: u32,
    },
    /// An entry was taken out of the history.
    Retracted {
        /// Its number.
        moment: u32,
    },
}

/// Why a session did nothing.
#[derive(Clone, Copy, Debug, PartialEq, Eq)]
pub enum Fault {
    /// A rule stands against the command.
    Refused(Rule),
    /// Memory was refused.
    Memory,
}

//! The rules that refuse a command for the places and the block that it names.

ghost use Rattle.std.specs.Prelude.{◌≡◌, IfNone};
ghost use Rattle.std.specs.Option.{option_copied};
ghost use Rattle.orca_edit.specs.Editing.{IsAllowed};
ghost use Rattle.orca_edit.specs.Obeying.{block_rule, named_rect, names_bad_size, names_empty_block, names_outside, wants_clip};

use crate::areas::holds;
use orca_base::limits::{MAX_COLUMNS, MAX_ROWS};
use orca_base::{Block, Command, Dims, Rect, Rule};

/// The first rule that stands against the command, of those on its places, its block, its size and
/// the clip, in the order of [`Rule`].
#[tactic(auto, unfolding(crate::specs::Obeying::block_rule))]
pub fn block_rule(command: &Command, dims: Dims, clip: Option<&Block>) -> Option<Rule>
    ensures rule { result ≡ block_rule dims (option_copied clip.entry) command.now }
    ensures allowed { IfNone result (IsAllowed dims (option_copied clip.entry) command.now) }
{
    if names_outside(dims, command) {
        return Some(Rule::OutOfGrid);
    }
    if names_empty_block(command) {
        return Some(Rule::EmptyBlock);
    }
    if names_bad_size(command) {
        return Some(Rule::BadSize);
    }
    if wants_clip(clip, command) {
        return Some(Rule::EmptyClip);
    }
    None
}

/// Whether a place that the command names isn't in the grid.
fn names_outside(dims: Dims, command: &Command) -> bool
    ensures { result ≡ names_outside dims command.now }
{
    match *command {
        Command::Write { y, x, .. } | Command::Paste { y, x } => !holds(dims, y, x),
        Command::Move { rect, to_y, to_x } => {
            !holds(dims, rect.y, rect.x) || !holds(dims, to_y, to_x)
        }
        _ => named_rect(command).is_some_and(|rect| !holds(dims, rect.y, rect.x)),
    }
}

/// The block that the command names.
fn named_rect(command: &Command) -> Option<Rect>
    ensures { result ≡ named_rect command.now }
{
    match *command {
        Command::Fill { rect, .. }
        | Command::Erase { rect }
        | Command::Copy { rect }
        | Command::Cut { rect }
        | Command::Move { rect, .. } => Some(rect),
        _ => None,
    }
}

/// Whether the block that the command names has no row or no column.
fn names_empty_block(command: &Command) -> bool
    ensures { result ≡ names_empty_block command.now }
{
    named_rect(command).is_some_and(|rect| rect.h == 0 || rect.w == 0)
}

/// Whether the command asks for a grid with a side that is 0 or too long, or for a cell of the clip
/// that the largest grid lacks.
fn names_bad_size(command: &Command) -> bool
    ensures { result ≡ names_bad_size command.now }
{
    match *command {
        Command::Resize { h, w } => {
            h == 0 || h > u32::from(MAX_ROWS) || w == 0 || w > u32::from(MAX_COLUMNS)
        }
        Command::Clip { y, x, .. } => !holds(Dims::largest(), y, x),
        _ => false,
    }
}

/// Whether the command needs a clip, and there is none.
fn wants_clip(clip: Option<&Block>, command: &Command) -> bool
    ensures { result ≡ wants_clip (option_copied clip.entry) command.now }
{
    match *command {
        Command::Paste { .. } => clip.is_none(),
        Command::Clip { y, x, .. } => clip.is_none() && (y != 0 || x != 0),
        _ => false,
    }
}

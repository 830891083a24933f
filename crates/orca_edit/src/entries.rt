ghost use Rattle.std.specs.Prelude.{◌≡◌, ◌↔◌, IfOk, IfSome, OnErr, OnOk, false};
ghost use Rattle.std.specs.Option.{option_copied};
ghost use Rattle.orca_base.specs.Areas.{IsArea};
ghost use Rattle.orca_base.specs.declared.command.Rule.{Rule};
ghost use Rattle.orca_edit.specs.Editing.{FitsIn, IsAllowed, IsBlock, IsEditing, IsPaste, WritesGlyphs};
ghost use Rattle.orca_edit.specs.Obeying.{block_rule, entry_of, names_empty_block, names_outside, taken_area};

use crate::areas::{area_at, area_in, place};
use crate::rules::block_rule;
use orca_base::{Area, Block, Command, Dims, Entry, Fault, Glyph, Memory};

/// What a command adds to the history, and the area whose glyphs become the clip.
#[derive(Debug, Drop)]
pub struct Edit {
    /// The entry; none for a Copy and a Clip.
    pub entry: Option<Entry>,
    /// The area; none for a command that takes none.
    pub take: Option<Area>,
}

/// What a command does in a grid of this size, with this clip. A block is cut to the grid. The
/// command is no frame, no jump and no Retract.
///
/// The first rule that stands refuses the command, of those on its places, its block, its size and
/// the clip. [`Fault::Memory`] is for a Paste alone, if its copy of the clip is refused.
pub fn to_entry(command: &Command, dims: Dims, clip: Option<&Block>) -> Result<Edit, Fault>
    requires { IsEditing command.now }
    ensures accepted { OnOk result (block_rule dims (option_copied clip.entry) command.now ≡ None) }
    ensures entry { IfOk result (λ edit.
        edit.entry ≡ entry_of dims (option_copied clip.entry) command.now) }
    ensures take { IfOk result (λ edit. edit.take ≡ taken_area dims command.now) }
    ensures refused { (rule : Rule) → (result ≡ Err (Fault.Refused rule))
        ↔ (block_rule dims (option_copied clip.entry) command.now ≡ Some rule) }
    ensures memory { result ≡ Err Fault.Memory → IsPaste command.now
        × (block_rule dims (option_copied clip.entry) command.now ≡ None) }
    ensures fits { IfOk result (λ edit. IfSome edit.entry (FitsIn dims)) }
    ensures inside { IfOk result (λ edit. IfSome edit.take (IsArea dims)) }
    ensures glyphs { IfSome (option_copied clip.entry) IsBlock
        → IfOk result (λ edit. IfSome edit.entry WritesGlyphs) }
{
    if let Some(rule) = block_rule(command, dims, clip) {
        return Err(Fault::Refused(rule));
    }
    let take = taken_area(command, dims);
    match entry_of(command, dims, clip) {
        Ok(entry) => Ok(Edit { entry, take }),
        Err(Memory) => Err(Fault::Memory),
    }
}

/// The area whose glyphs the command takes as the clip. No rule stands against it.
#[tactic(auto, unfolding(crate::specs::Obeying::taken_area))]
fn taken_area(command: &Command, dims: Dims) -> Option<Area>
    requires inside { names_outside dims command.now ≡ false }
    requires block { names_empty_block command.now ≡ false }
    ensures area { result ≡ taken_area dims command.now }
    ensures inside { IfSome result (IsArea dims) }
{
    match *command {
        Command::Copy { rect } | Command::Cut { rect } => Some(area_in(dims, rect)),
        _ => None,
    }
}

/// The entry of a command. No rule stands against it.
#[tactic(auto, unfolding(crate::specs::Obeying::entry_of))]
fn entry_of(command: &Command, dims: Dims, clip: Option<&Block>) -> Result<Option<Entry>, Memory>
    requires editing { IsEditing command.now }
    requires allowed { IsAllowed dims (option_copied clip) command.now }
    ensures entry { IfOk result (λ entry.
        entry ≡ entry_of dims (option_copied clip.entry) command.now) }
    ensures memory { OnErr result (IsPaste command.now) }
    ensures fits { IfOk result (λ entry. IfSome entry (FitsIn dims)) }
    ensures glyphs { IfSome (option_copied clip.entry) IsBlock
        → IfOk result (λ entry. IfSome entry WritesGlyphs) }
{
    let entry = match *command {
        Command::Write { y, x, glyph } => fill(area_at(dims, place(dims, y, x)), glyph),
        Command::Fill { rect, glyph } => fill(area_in(dims, rect), glyph),
        Command::Erase { rect } | Command::Cut { rect } => {
            fill(area_in(dims, rect), Glyph::EMPTY)
        }
        Command::Copy { .. } | Command::Clip { .. } => return Ok(None),
        Command::Paste { y, x } => Entry::Put {
            at: place(dims, y, x),
            block: clip.unwrap().copy()?,
        },
        Command::Move { rect, to_y, to_x } => Entry::Move {
            area: area_in(dims, rect),
            to: place(dims, to_y, to_x),
        },
        Command::Resize { h, w } => Entry::Resize {
            dims: Dims {
                h: h as u16,
                w: w as u16,
            },
        },
        Command::Reset => Entry::Reset,
        Command::Hush => Entry::Hush,
        Command::Frame | Command::Undo | Command::Rewind { .. } | Command::Redo => unreachable!(),
        Command::Retract { .. } => unreachable!(),
    };
    Ok(Some(entry))
}

/// The entry that writes a glyph to each place of an area.
fn fill(area: Area, glyph: Glyph) -> Entry
    ensures entry { result ≡ Entry.Fill area glyph }
    ensures glyph { WritesGlyphs result }
{
    Entry::Fill { area, glyph }
}

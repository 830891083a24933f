//! Printing a command.

ghost use Rattle.std.specs.Prelude.{◌≡◌, ◌∷◌, [], ◌++◌, Ok, Some, OnOk, OnErr, List, ℕ};
ghost use Rattle.std.specs.List.{flat_map};
ghost use Rattle.orca_base.specs.Ascii.{line_feed, space};
ghost use Rattle.std.specs.Fmt.{decimal};
ghost use Rattle.std.specs.Str.Lines.{lines};
ghost use Rattle.orca_script.specs.Canonical.{canonical, printed, line_text, line_with, line_of, sides as sides_of, HasValues, Extends};
ghost use Rattle.orca_script.specs.Reading.{reading};

use itoa::Buffer;
use orca_base::{Command, Glyph, Memory, Rect};

/// Appends the one canonical line of a command and a line feed. The words stand apart by single
/// spaces, numbers have no leading zeros, and no space stands at the end. Where memory is refused,
/// `into` is as before.
pub fn print(command: &Command, into: &mut Vec<u8>) -> Result<(), Memory>
    ensures ok { OnOk result (into.new.items ≡ into.old.items ++ printed command.now) }
    ensures err { OnErr result (into.new.items ≡ into.old.items) }
    // What is printed is read as the command, and is one line before any text.
    ensures reads_back { OnOk result (reading (canonical command.now) ≡ Ok (Some command.now)) }
    ensures one_line { OnOk result ((rest : List ℕ) →
        lines (printed command.now ++ rest) ≡ canonical command.now ∷ lines rest) }
{
    let before = into.len();
    match push_command(*command, into) {
        Ok(()) => Ok(()),
        Err(memory) => {
            into.truncate(before);
            Err(memory)
        }
    }
}

/// Appends the canonical line of a command and a line feed. Where memory is refused, a part stands
/// after what was there.
#[tactic(auto, unfolding(crate::specs::Canonical::line_of))]
pub(crate) fn push_command(command: Command, into: &mut Vec<u8>) -> Result<(), Memory>
    ensures ok { OnOk result (into.new.items ≡ into.old.items ++ printed command) }
    ensures values { OnOk result (HasValues (line_of command)) }
    ensures err { OnErr result (Extends into.old.items into.new.items) }
{
    match command {
        Command::Frame => push_line(b"frame", &[], None, into),
        Command::Write { y, x, glyph } => push_line(b"write", &[y, x], Some(glyph), into),
        Command::Fill { rect, glyph } => push_line(b"fill", &sides(rect), Some(glyph), into),
        Command::Erase { rect } => push_line(b"erase", &sides(rect), None, into),
        Command::Copy { rect } => push_line(b"copy", &sides(rect), None, into),
        Command::Cut { rect } => push_line(b"cut", &sides(rect), None, into),
        Command::Clip { y, x, glyph } => push_line(b"clip", &[y, x], Some(glyph), into),
        Command::Paste { y, x } => push_line(b"paste", &[y, x], None, into),
        Command::Move { rect, to_y, to_x } => {
            let Rect { y, x, h, w } = rect;
            push_line(b"move", &[y, x, h, w, to_y, to_x], None, into)
        }
        Command::Resize { h, w } => push_line(b"resize", &[h, w], None, into),
        Command::Reset => push_line(b"reset", &[], None, into),
        Command::Undo => push_line(b"undo", &[], None, into),
        Command::Rewind { moment } => push_line(b"rewind", &[moment], None, into),
        Command::Redo => push_line(b"redo", &[], None, into),
        Command::Retract { moment } => push_line(b"retract", &[moment], None, into),
        Command::Hush => push_line(b"hush", &[], None, into),
    }
}

/// The numbers of a block.
fn sides(rect: Rect) -> [u32; 4]
    ensures { result ≡ sides_of rect }
{
    [rect.y, rect.x, rect.h, rect.w]
}

/// Appends a word, its values after it and a line feed. Where memory is refused, a part stands after
/// what was there.
pub(crate) fn push_line(
    word: &[u8],
    numbers: &[u32],
    glyph: Option<Glyph>,
    into: &mut Vec<u8>,
) -> Result<(), Memory>
    ensures ok { OnOk result (into.new.items
        ≡ into.old.items ++ (line_text (line_with word.now numbers.now glyph) ++ line_feed ∷ [])) }
    ensures values { OnOk result (HasValues (line_with word.now numbers.now glyph)) }
    ensures err { OnErr result (Extends into.old.items into.new.items) }
{
    into.extend_from_slice(word)?;
    push_numbers(numbers, into)?;
    if let Some(glyph) = glyph {
        into.extend_from_slice(&[b' ', glyph.byte()])?;
    }
    into.push(b'\n')?;
    Ok(())
}

/// Appends numbers, each after a space. Where memory is refused, a part stands after what was there.
fn push_numbers(numbers: &[u32], into: &mut Vec<u8>) -> Result<(), Memory>
    ensures ok { OnOk result (into.new.items
        ≡ into.old.items ++ flat_map (λ number. space ∷ decimal number) numbers.now) }
    ensures err { OnErr result (Extends into.old.items into.new.items) }
{
    for number in numbers {
        into.push(b' ')?;
        into.extend_from_slice(Buffer::new().format(*number).as_bytes())?;
    }
    Ok(())
}

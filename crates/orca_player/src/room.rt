//! The room of a performance: a file beside the grid, which has its text and every command after it.

ghost use Rattle.std.specs.Prelude.{◌≡◌, ◌++◌, [], IfOk, OnErr, OnOk, Some};
ghost use Rattle.std.specs.List.{list_any};
ghost use Rattle.std.specs.Option.{option_map};
ghost use Rattle.orca_course.specs.Answered.{losses_of};
ghost use Rattle.orca_course.specs.Worlds.{Made, Sated, Wants};
ghost use Rattle.orca_player.specs.Outlines.{is_control, leavings, limit_line, midi_line, room_name, room_start};
ghost use Rattle.orca_words.specs.RequestIn.{performance_in, setup_in, text_in};

use orca_base::Memory;
use orca_course::{Desk, NoMemory};
use orca_grid::Grid;
use orca_rig::House;
use orca_script::print_header;
use orca_send::push_decimal;
use orca_words::{Performance, Setup};
use std::alloc::Global;

/// The name of the room of a performance, if it is played in one.
pub(crate) fn room_name<'a>(performance: &Performance<'a>) -> Option<&'a str>
    ensures { option_map (λ name. name.now) result ≡ room_name (performance_in performance.now) }
{
    if performance.room {
        return performance.journal;
    }
    None
}

/// What a room begins with: the text of the grid, an empty line, and the first lines of a script.
pub(crate) fn room_start(alloc: Global, setup: &Setup<'_>, grid: &Grid) -> Result<Vec<u8>, Memory>
    ensures { IfOk result (λ start. start.items ≡ room_start (setup_in setup.now) grid.now) }
{
    let mut start = Vec::new(alloc);
    Grid::print(grid, &mut start)?;
    start.push(b'\n')?;
    print_header(setup.seed, &mut start)?;
    print_limit(setup.limit, &mut start)?;
    print_midi(setup.midi, &mut start)?;
    Ok(start)
}

/// Adds the line of the most entries of the history, by which the room is recovered.
fn print_limit(limit: u32, into: &mut Vec<u8>) -> Result<(), Memory>
    ensures { OnOk result (into.new.items ≡ into.old.items ++ limit_line limit) }
{
    into.extend_from_slice(b"# limit ")?;
    push_decimal(into, u64::from(limit))?;
    into.push(b'\n')?;
    Ok(())
}

/// Adds the line that names the MIDI port, unless its name has a byte that a line does not have.
/// What ends the notes of a run that was killed finds the port by it.
fn print_midi(midi: Option<&str>, into: &mut Vec<u8>) -> Result<(), Memory>
    ensures { OnOk result (into.new.items ≡ into.old.items ++ midi_line (text_in midi.entry)) }
{
    match midi {
        Some(name) if !has_control(name) => {
            into.extend_from_slice(b"# midi ")?;
            into.extend_from_slice(name.as_bytes())?;
            into.push(b'\n')?;
            Ok(())
        }
        _ => Ok(()),
    }
}

/// Whether a name has a byte that a line of text does not have.
fn has_control(name: &str) -> bool
    ensures { result ≡ list_any is_control name.now }
{
    name.as_bytes().iter().any(|byte| *byte < b' ')
}

/// Takes a room away at the end, if every call of the files went well and no command is loose. A
/// failure is recorded.
pub(crate) fn leave_room<H: House>(
    desk: &mut Desk<H>,
    room: Option<&str>,
    loose: bool,
) -> Result<(), NoMemory>
    ensures left { OnOk result (Made (leavings (text_in room.entry) (losses_of desk.old.calls) loose)
        0 desk.old desk.new × Sated desk.old desk.new) }
    ensures refused { OnErr result (Made [] 0 desk.old desk.new
        × Wants NoMemory.Elsewhere [] desk.old desk.new) }
{
    match room {
        None => Ok(()),
        Some(name) => take_away(desk, name, loose),
    }
}

/// Takes the room of a name away, if every call of the files went well and no command is loose.
fn take_away<H: House>(desk: &mut Desk<H>, name: &str, loose: bool) -> Result<(), NoMemory>
    ensures left { OnOk result (Made (leavings (Some name.now) (losses_of desk.old.calls) loose)
        0 desk.old desk.new × Sated desk.old desk.new) }
    ensures refused { OnErr result (Made [] 0 desk.old desk.new
        × Wants NoMemory.Elsewhere [] desk.old desk.new) }
{
    let stays = desk.losses().unstored || loose;
    if stays {
        return Ok(());
    }
    desk.remove(name)
}

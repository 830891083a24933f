//! The line of a status.

ghost use Rattle.std.specs.Prelude.{◌≡◌, ◌≢◌, ◌∷◌, ◌++◌, [], IfOk};
ghost use Rattle.orca_base.specs.Ascii.{line_feed};
ghost use Rattle.orca_player.specs.Doing.{Said};
ghost use Rattle.orca_player.specs.Statuses.{grid_refusal_text, status_text};

use crate::Status;
use orca_base::{Memory, Port};
use orca_course::Desk;
use orca_grid::GridRefusal;
use orca_rig::House;
use orca_send::push_decimal;
use std::alloc::Global;

/// Sends the line of a status that is no success, and answers the status; or
/// [`Status::Memory`] if memory is refused for it.
#[tactic(auto, using(crate::proofs::EndLemmas::said_none), unfolding(crate::specs::Statuses::status_text))]
pub fn end<H: House>(alloc: Global, desk: &mut Desk<H>, status: Status) -> Status
    ensures { Said status result desk.old desk.new }
{
    match status {
        Status::Done => Status::Done,
        Status::Usage => say(
            desk,
            status,
            b"usage: orca run|events|replay|make|play|migrate|smf|jam|wav|follow|lead\n",
        ),
        Status::GridRefused(refusal) => say_line(desk, status, refusal_line(alloc, refusal)),
        Status::OutFault => say(desk, status, b"output fault\n"),
        Status::FileFault => say(desk, status, b"file fault\n"),
        Status::ScriptRefused { line, column } => {
            say_line(desk, status, script_line(alloc, line, column))
        }
        Status::HistoryFull => say(desk, status, b"history full\n"),
        Status::InboxFault => say(desk, status, b"inbox fault\n"),
        Status::TurnsSpent => say(desk, status, b"turns spent\n"),
        Status::Memory => say(desk, status, b"no memory\n"),
        Status::SmfTooLong => say(desk, status, b"smf too long\n"),
        Status::WavTooLong => say(desk, status, b"wav too long\n"),
        Status::RoomLeft => say(desk, status, b"room left\n"),
        Status::RoomHeld => say(desk, status, b"room held\n"),
    }
}

/// Sends the last line of a run. A failed send of it changes nothing: the status is decided.
fn say<H: House>(desk: &mut Desk<H>, status: Status, line: &[u8]) -> Status
    requires line { line.now ≡ status_text status ++ line_feed ∷ [] }
    requires some { status ≢ Status.Done }
    ensures { Said status result desk.old desk.new }
{
    match desk.send(Port::Fault, line) {
        Ok(()) => status,
        Err(_) => Status::Memory,
    }
}

/// Sends the last line of a run, unless memory was refused for it.
#[tactic(auto, unfolding(crate::specs::Statuses::status_text))]
fn say_line<H: House>(desk: &mut Desk<H>, status: Status, line: Result<Vec<u8>, Memory>) -> Status
    requires line { IfOk line (λ line. line.items ≡ status_text status ++ line_feed ∷ []) }
    requires some { status ≢ Status.Done }
    ensures { Said status result desk.old desk.new }
{
    match line {
        Ok(line) => say(desk, status, line.as_slice()),
        Err(Memory) => say(desk, Status::Memory, b"no memory\n"),
    }
}

/// The line of a refused grid.
#[tactic(auto, unfolding(crate::specs::Statuses::status_text, crate::specs::Statuses::grid_refusal_text))]
fn refusal_line(alloc: Global, refusal: GridRefusal) -> Result<Vec<u8>, Memory>
    ensures { IfOk result (λ line. line.items
        ≡ status_text (Status.GridRefused refusal) ++ line_feed ∷ []) }
{
    let mut line = Vec::new(alloc);
    line.extend_from_slice(b"grid refused: ")?;
    match refusal {
        GridRefusal::BadByte { offset } => {
            line.extend_from_slice(b"bad byte at ")?;
            push_decimal(&mut line, u64::from(offset))?;
        }
        GridRefusal::NoCells => line.extend_from_slice(b"no cells")?,
        GridRefusal::TooWide { row } => {
            line.extend_from_slice(b"row ")?;
            push_decimal(&mut line, u64::from(row))?;
            line.extend_from_slice(b" too wide")?;
        }
        GridRefusal::TooHigh => line.extend_from_slice(b"too many rows")?,
        // Never sent: it is a status of its own.
        GridRefusal::Memory => {}
    }
    line.push(b'\n')?;
    Ok(line)
}

/// The line of a refused script.
#[tactic(auto, unfolding(crate::specs::Statuses::status_text))]
fn script_line(alloc: Global, line: u32, column: u32) -> Result<Vec<u8>, Memory>
    ensures { IfOk result (λ text. text.items
        ≡ status_text (Status.ScriptRefused line column) ++ line_feed ∷ []) }
{
    let mut text = Vec::new(alloc);
    text.extend_from_slice(b"script refused: line ")?;
    push_decimal(&mut text, u64::from(line))?;
    text.extend_from_slice(b" column ")?;
    push_decimal(&mut text, u64::from(column))?;
    text.push(b'\n')?;
    Ok(text)
}

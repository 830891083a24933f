//! Reading the lines of format 2: the first, which gives a seed, and the others.

ghost use Rattle.std.specs.Prelude.{◌≡◌, ◌≤◌, ◌↔◌, Some, None, Ok, IfErr, IsTrue, length, ℕ};
ghost use Rattle.orca_script.specs.Grammar.{has_no_command as has_none};
ghost use Rattle.orca_script.specs.Readers.{asked_by};
ghost use Rattle.orca_script.specs.Format2.{IsHeader, IsLine2, LeavesAt, header_seed, header_reading, line_asks, reading2};

use crate::ScriptRefusal;
use crate::forms::{FRAMES, HEADER};
use crate::read::{has_no_command, read_command};
use crate::reader::read_number;
use orca_base::Command;
use orca_base::limits::MAX_FILE_BYTES;

/// What a line of format 2 asks for.
#[derive(Clone, Copy, Debug, PartialEq, Eq)]
pub enum Line {
    /// This command.
    Do(Command),
    /// So many frames.
    Frames(u32),
}

/// The seed of the first line of format 2: `!orca 2 seed S`. The line has at most
/// [`MAX_FILE_BYTES`] bytes, and lacks its end. Any other line gets its [`ScriptRefusal`]. It takes
/// no memory.
///
/// The words stand apart by one or more spaces, and none stands before the first. The seed is a
/// number of 1 to 10 decimal digits that is below 2^32.
pub fn read_header(line: &[u8]) -> Result<u32, ScriptRefusal>
    requires { length line.now ≤ MAX_FILE_BYTES }
    ensures reading { result ≡ header_reading line.now }
    ensures seed { (seed : ℕ) → (result ≡ Ok seed) ↔ (header_seed line.now ≡ Some seed) }
    ensures refused { IfErr result (λ refusal. LeavesAt IsHeader line.now refusal.column) }
{
    match read_number(&HEADER, line) {
        Ok(seed) => Ok(seed),
        Err(count) => Err(ScriptRefusal {
            column: count as u32 + 1,
        }),
    }
}

/// What another line of format 2 asks for: a command, as a line of format 1 does, or `frames N`.
/// The line has at most [`MAX_FILE_BYTES`] bytes, and lacks its end. None stands for a line without
/// a command: it is empty, is spaces alone, or begins with `#`. A line outside the grammar gets its
/// [`ScriptRefusal`]. It takes no memory.
pub fn read_line2(line: &[u8]) -> Result<Option<Line>, ScriptRefusal>
    requires { length line.now ≤ MAX_FILE_BYTES }
    ensures reading { result ≡ reading2 line.now }
    ensures asked { (asked : Line) →
        (result ≡ Ok (Some asked)) ↔ (line_asks line.now ≡ Some asked) }
    ensures nothing { (result ≡ Ok None) ↔ IsTrue (has_none line.now) }
    ensures refused { IfErr result (λ refusal. LeavesAt IsLine2 line.now refusal.column) }
{
    if has_no_command(line) {
        return Ok(None);
    }
    match read_asked(line) {
        Ok(asked) => Ok(Some(asked)),
        Err(count) => Err(ScriptRefusal {
            column: count as u32 + 1,
        }),
    }
}

/// What a line with a command asks for; else how many of its bytes are spaces before any other byte,
/// or go along a form, whichever is more.
fn read_asked(line: &[u8]) -> Result<Line, usize>
    ensures read { result ≡ asked_by line.now }
    ensures within { IfErr result (λ count. count ≤ length line.now) }
{
    match read_command(line) {
        Ok(command) => Ok(Line::Do(command)),
        Err(count) => match read_number(&FRAMES, line) {
            Ok(times) => Ok(Line::Frames(times)),
            Err(other) => Err(count.max(other)),
        },
    }
}

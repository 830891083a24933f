//! A script as a source.

ghost use Rattle.std.specs.Prelude.{◌≡◌, ◌≤◌, ◌↔◌, false, true, Bool, Ok, Err, IsOk, IfOk, IfErr, OnOk, length};
ghost use Rattle.orca_script.specs.Format2.{LeavesAt};
ghost use Rattle.orca_script.specs.Grammar.{IsLine};
ghost use Rattle.orca_cues.specs.Cues.{cues_left};
ghost use Rattle.orca_cues.specs.Scripts.{any_script_of, script_by, script_of, seed_in, IsScriptBy, IsFaultBy};
ghost use Rattle.orca_cues.specs.Scripts.{cue_asking as cue_of, cue_read, is_format_2 as begins_format_2};
ghost use Rattle.orca_cues.specs.Scripts.{reading_at, reading_by, IsLineBy};

use crate::{Cue, Order, ScriptFault, Source};
use orca_base::Command;
use orca_base::limits::MAX_FILE_BYTES;
use orca_script::{Line, Lines, ScriptRefusal, read_header, read_line, read_line2};
use std::marker::Model;

/// Reads every line of a script of format 1, of at most [`MAX_FILE_BYTES`] bytes, and does nothing
/// with it: the first line outside the grammar is its [`ScriptFault`]. It takes no memory.
pub fn check_script(text: &[u8]) -> Result<(), ScriptFault>
    requires { length text.now ≤ MAX_FILE_BYTES }
    ensures ok { IsOk result ↔ IsOk (script_of text.now) }
    ensures fault { IfErr result (λ fault. script_of text.now ≡ Err fault) }
    // The same by the grammar itself.
    ensures grammar { IsOk result ↔ IsScriptBy false text.now }
    ensures first { IfErr result (IsFaultBy false text.now) }
{
    check_by(false, text)
}

/// Reads every line of a script of either format, as [`check_script`] does.
pub fn check_any_script(text: &[u8]) -> Result<(), ScriptFault>
    requires { length text.now ≤ MAX_FILE_BYTES }
    ensures ok { IsOk result ↔ IsOk (any_script_of text.now) }
    ensures fault { IfErr result (λ fault. any_script_of text.now ≡ Err fault) }
    // The same by the grammar itself.
    ensures grammar { IsOk result ↔ IsScriptBy (begins_format_2 text.now) text.now }
    ensures first { IfErr result (IsFaultBy (begins_format_2 text.now) text.now) }
{
    check_by(is_format_2(text), text)
}

/// Reads every line of a script of format 2, as [`check_script`] does. One in which it finds no
/// fault is read so by all that reads either format.
pub fn check_script2(text: &[u8]) -> Result<(), ScriptFault>
    requires { length text.now ≤ MAX_FILE_BYTES }
    ensures ok { IsOk result ↔ IsOk (script_by true text.now) }
    ensures fault { IfErr result (λ fault. script_by true text.now ≡ Err fault) }
    ensures any { OnOk result (any_script_of text.now ≡ script_by true text.now) }
    // The same by the grammar itself.
    ensures grammar { IsOk result ↔ IsScriptBy true text.now }
    ensures first { IfErr result (IsFaultBy true text.now) }
{
    check_by(true, text)
}

/// Reads every line of a script of format 2 or 1.
fn check_by(format_2: bool, text: &[u8]) -> Result<(), ScriptFault>
    requires { length text.now ≤ MAX_FILE_BYTES }
    ensures ok { IsOk result ↔ IsOk (script_by format_2 text.now) }
    ensures fault { IfErr result (λ fault. script_by format_2 text.now ≡ Err fault) }
    ensures grammar { IsOk result ↔ IsScriptBy format_2 text.now }
    ensures first { IfErr result (IsFaultBy format_2 text.now) }
{
    let mut number: u32 = 0;
    for line in Lines::of(text) {
        number += 1;
        if let Err(refusal) = read_as(format_2, number == 1, line) {
            return Err(ScriptFault {
                line: number,
                column: refusal.column,
            });
        }
    }
    Ok(())
}

/// The seed of a script, which the first line of format 2 gives; none where there is no such line.
pub fn script_seed(text: &[u8]) -> Option<u32>
    requires { length text.now ≤ MAX_FILE_BYTES }
    ensures { result ≡ seed_in text.now }
{
    if !is_format_2(text) {
        return None;
    }
    let mut lines = Lines::of(text);
    match lines.next() {
        Some(line) => match read_header(line) {
            Ok(seed) => Some(seed),
            Err(_) => None,
        },
        None => None,
    }
}

/// Whether the text is of format 2, by its first byte: any other is of format 1.
pub(crate) fn is_format_2(text: &[u8]) -> bool
    ensures { result ≡ begins_format_2 text.now }
{
    matches!(text, [b'!', ..])
}

/// What a line asks for, in a text of format 2 or 1, the first or another.
pub(crate) fn read_as(
    format_2: bool,
    first: bool,
    line: &[u8],
) -> Result<Option<Line>, ScriptRefusal>
    requires { length line.now ≤ MAX_FILE_BYTES }
    ensures reading { result ≡ reading_by format_2 first line.now }
    ensures grammar { IfOk result (λ asked. IsLineBy format_2 first line.now) }
    ensures refused { IfErr result (λ refusal.
        LeavesAt (IsLineBy format_2 first) line.now refusal.column) }
{
    match (format_2, first) {
        (false, _) => read_command(line),
        (true, false) => read_line2(line),
        (true, true) => match read_header(line) {
            Ok(_) => Ok(None),
            Err(refusal) => Err(refusal),
        },
    }
}

/// What a line of format 1 asks for.
fn read_command(line: &[u8]) -> Result<Option<Line>, ScriptRefusal>
    requires { length line.now ≤ MAX_FILE_BYTES }
    ensures reading { (first : Bool) → result ≡ reading_by false first line.now }
    ensures grammar { IfOk result (λ asked. IsLine line.now) }
    ensures refused { IfErr result (λ refusal. LeavesAt IsLine line.now refusal.column) }
{
    match read_line(line) {
        Ok(Some(command)) => Ok(Some(Line::Do(command))),
        Ok(None) => Ok(None),
        Err(refusal) => Err(refusal),
    }
}

/// The commands of a script that are left, each on its line; a run of frames is one cue. It reads a
/// line when it is asked for the next command, and takes no memory.
#[derive(Drop)]
pub struct Script<'a> {
    format_2: bool,
    lines: Lines<'a>,
    number: u32,
}

impl<'a> Model for Script<'a> {
    ghost use Rattle.std.specs.Prelude.{List, ◌+◌};
    ghost use Rattle.orca_cues.specs.declared.source.Cue.{Cue};
    ghost use Rattle.orca_cues.specs.Scripts.{cues_of};
    ghost use Rattle.orca_cues.specs.Readable.{AreReadable};

    ghost Value = { List Cue };

    ghost view = { λ s. cues_of s.format_2 (s.number + 1) s.lines };

    ghost invariant = { λ s. AreReadable s.number s.lines };
}

impl<'a> Script<'a> {
    /// The cues of a script of format 1 in which [`check_script`] finds no fault.
    pub fn of(text: &'a [u8]) -> Script<'a>
        requires short { length text.now ≤ MAX_FILE_BYTES }
        requires checked { IsOk (script_of text.now) }
        ensures { script_of text.now ≡ Ok result }
    {
        Script {
            format_2: false,
            lines: Lines::of(text),
            number: 0,
        }
    }

    /// The cues of a script of either format in which [`check_any_script`] finds no fault.
    pub fn of_any(text: &'a [u8]) -> Script<'a>
        requires short { length text.now ≤ MAX_FILE_BYTES }
        requires checked { IsOk (any_script_of text.now) }
        ensures { any_script_of text.now ≡ Ok result }
    {
        Script {
            format_2: is_format_2(text),
            lines: Lines::of(text),
            number: 0,
        }
    }
}

impl Source for Script<'_> {
    ghost left = { λ cues. cues };

    fn next(&mut self) -> Option<Cue> {
        while let Some(line) = self.lines.next() {
            self.number += 1;
            if let Some(cue) = cue_of_line(self.format_2, self.number, line) {
                return Some(cue);
            }
        }
        None
    }
}

/// The cue of the line that has this number; none where the line asks for nothing.
fn cue_of_line(format_2: bool, number: u32, line: &[u8]) -> Option<Cue>
    requires { length line.now ≤ MAX_FILE_BYTES }
    ensures { cues_left result ≡ cue_read number (reading_at format_2 number line.now) }
{
    match read_as(format_2, number == 1, line) {
        Ok(Some(asked)) => Some(cue_asking(number, asked)),
        Ok(None) | Err(_) => None,
    }
}

/// The cue of what the line of this number asks for.
fn cue_asking(number: u32, asked: Line) -> Cue
    ensures { result ≡ cue_of number asked }
{
    let (times, command) = match asked {
        Line::Do(command) => (1, command),
        Line::Frames(times) => (times, Command::Frame),
    };
    Cue {
        line: number,
        times,
        order: Order::Do(command),
    }
}

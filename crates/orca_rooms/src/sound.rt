//! A script of format 2 up to its first wrong line, one cue after the other.

ghost use Rattle.std.specs.Prelude.{◌≡◌, ◌≤◌, ◌∷◌, [], true, MatchOption, length};
ghost use Rattle.orca_base.specs.declared.limits.TheConstants.{MAX_FILE_BYTES};
ghost use Rattle.orca_cues.specs.Scripts.{cue_asking as cue_of, reading_at};
ghost use Rattle.orca_rooms.specs.Sound.{sound_script};

use orca_base::Command;
use orca_base::limits::MAX_FILE_BYTES;
use orca_cues::{Cue, Order, Source};
use orca_script::{Line, Lines, ScriptRefusal, read_header, read_line2};
use std::marker::Model;

/// The commands that are left of a script of format 2 up to its first wrong line. It reads a line
/// when it is asked for the next command, and takes no memory.
#[derive(Drop)]
pub struct SoundScript<'a> {
    lines: Lines<'a>,
    number: u32,
}

impl<'a> Model for SoundScript<'a> {
    ghost use Rattle.std.specs.Prelude.{List, ◌+◌};
    ghost use Rattle.orca_cues.specs.declared.source.Cue.{Cue};
    ghost use Rattle.orca_rooms.specs.Sound.{sound_cues};
    ghost use Rattle.orca_cues.specs.Readable.{AreReadable};

    ghost Value = { List Cue };

    ghost view = { λ s. sound_cues (s.number + 1) s.lines };

    ghost invariant = { λ s. AreReadable s.number s.lines };
}

impl<'a> SoundScript<'a> {
    /// The cues of a script of at most [`MAX_FILE_BYTES`] bytes.
    pub fn of(text: &'a [u8]) -> SoundScript<'a>
        requires { length text.now ≤ MAX_FILE_BYTES }
        ensures { result ≡ sound_script text.now }
    {
        SoundScript {
            lines: Lines::of(text),
            number: 0,
        }
    }

    /// The next line that asks for commands, and its number.
    pub(crate) fn asked(&mut self) -> Option<(u32, Line)>
        ensures { MatchOption result ((self.old ≡ []) × (self.new ≡ []))
            (λ found. self.old ≡ cue_of found.0 found.1 ∷ self.new) }
    {
        while let Some(line) = self.lines.next() {
            self.number += 1;
            match read_at(self.number, line) {
                Ok(Some(asked)) => return Some((self.number, asked)),
                Ok(None) => {}
                Err(_) => {
                    self.lines = Lines::of(&[]);
                    return None;
                }
            }
        }
        None
    }
}

impl Source for SoundScript<'_> {
    ghost left = { λ cues. cues };

    fn next(&mut self) -> Option<Cue> {
        let (number, asked) = self.asked()?;
        Some(cue_asking(number, asked))
    }
}

/// What the line of this number asks for. The first one gives a seed, and asks for nothing.
fn read_at(number: u32, line: &[u8]) -> Result<Option<Line>, ScriptRefusal>
    requires { length line.now ≤ MAX_FILE_BYTES }
    ensures { result ≡ reading_at true number line.now }
{
    if number != 1 {
        return read_line2(line);
    }
    match read_header(line) {
        Ok(_) => Ok(None),
        Err(refusal) => Err(refusal),
    }
}

/// The cue of what the line of this number asks for.
fn cue_asking(number: u32, asked: Line) -> Cue
    ensures { result ≡ cue_of number asked }
{
    let (times, command) = match asked {
        Line::Do(command) => (1, command),
        Line::Frames(times) => (times, Command::Frame),
    };
    Cue {
        line: number,
        times,
        order: Order::Do(command),
    }
}

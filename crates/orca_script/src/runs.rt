//! Printing a script of format 2.

ghost use Rattle.std.specs.Prelude.{◌≡◌, ◌<◌, ◌++◌, [], ◌∷◌, All, OnOk, OnErr, List, ℕ};
ghost use Rattle.std.specs.List.{flat_map};
ghost use Rattle.orca_base.specs.declared.command.Command.{Command};
ghost use Rattle.orca_script.specs.Canonical.{line_of, HasValues, Extends};
ghost use Rattle.orca_script.specs.Runs.{printed_header, printed2, printed_script, text_behind, commands_of, short_run, most_frames, is_frame as names_frame, ScriptReadsBack, LineHasValues};

use crate::Line;
use crate::printing::{push_command, push_line};
use orca_base::{Command, Memory};
use std::marker::Model;

/// Appends the script of a seed and commands in format 2: the first line `!orca 2 seed S`, and then
/// the canonical line of each command, but for frames: two or more in a row are one line `frames N`.
/// A run of more than 2^32 - 1 frames is cut into runs of that number and a rest. Where memory is
/// refused, `into` is as before.
pub fn print2(seed: u32, commands: &[Command], into: &mut Vec<u8>) -> Result<(), Memory>
    ensures ok { OnOk result
        (into.new.items ≡ into.old.items ++ printed_script seed commands.now) }
    ensures err { OnErr result (into.new.items ≡ into.old.items) }
    // What is printed is read as the seed and the commands.
    ensures reads_back { OnOk result (ScriptReadsBack seed commands.now) }
{
    let before = into.len();
    match push_script(seed, commands, into) {
        Ok(()) => Ok(()),
        Err(memory) => {
            into.truncate(before);
            Err(memory)
        }
    }
}

/// Appends the script of a seed and commands. Where memory is refused, a part stands after what was
/// there.
fn push_script(seed: u32, commands: &[Command], into: &mut Vec<u8>) -> Result<(), Memory>
    ensures ok { OnOk result
        (into.new.items ≡ into.old.items ++ printed_script seed commands.now) }
    ensures values { OnOk result (All (λ command. HasValues (line_of command)) commands.now) }
    ensures grown { Extends into.old.items into.new.items }
{
    print_header(seed, into)?;
    let mut runs = Runs::none();
    for command in commands {
        runs.add(Line::Do(*command), into)?;
    }
    runs.end(into)?;
    Ok(())
}

/// Appends the first line of a script with this seed. Where memory is refused, a part stands after
/// what was there.
pub fn print_header(seed: u32, into: &mut Vec<u8>) -> Result<(), Memory>
    ensures ok { OnOk result (into.new.items ≡ into.old.items ++ printed_header seed) }
    ensures grown { Extends into.old.items into.new.items }
{
    push_line(b"!orca 2 seed", &[seed], None, into)
}

/// The frames in a row that were added to a script of format 2 last, and are not printed yet. A
/// contract sees their number. No run is kept as a list.
#[derive(Drop)]
pub struct Runs {
    frames: u32,
}

impl Model for Runs {
    ghost use Rattle.std.specs.Prelude.{ℕ, ◌<◌};
    ghost use Rattle.orca_script.specs.Runs.{most_frames};

    ghost Value = { ℕ };

    ghost view = { λ r. r.frames };

    ghost invariant = { λ r. r.frames < most_frames };
}

impl Runs {
    /// None yet.
    pub fn none() -> Runs
        ensures { result ≡ 0 }
    {
        Runs { frames: 0 }
    }

    /// Adds what a line asks for. Frames are printed once their run has ended, or once a line asks
    /// for no more of them. Where memory is refused, a part stands after what was there.
    pub fn add(&mut self, asked: Line, into: &mut Vec<u8>) -> Result<(), Memory>
        // Whatever comes then, the text is that of the frames before, of what is added, and of that.
        ensures ok { OnOk result ((rest : List Command) →
            into.new.items ++ text_behind self.new rest
            ≡ into.old.items ++ text_behind self.old (commands_of asked ++ rest)) }
        ensures values { OnOk result (LineHasValues asked) }
        ensures grown { Extends into.old.items into.new.items }
    {
        let _ = &self.frames;
        match asked {
            Line::Frames(times) => self.add_frames(times, into),
            Line::Do(command) if is_frame(command) => self.add_frames(1, into),
            Line::Do(command) => {
                self.end_run(into)?;
                push_command(command, into)?;
                Ok(())
            }
        }
    }

    /// Prints the frames that are left. Where memory is refused, a part stands after what was there.
    pub fn end(mut self, into: &mut Vec<u8>) -> Result<(), Memory>
        ensures ok { OnOk result (into.new.items ≡ into.old.items ++ text_behind self []) }
        ensures grown { Extends into.old.items into.new.items }
    {
        let _ = &self.frames;
        self.end_run(into)?;
        Ok(())
    }

    /// Adds so many frames. At most one line is full with them, since fewer are left than fill one.
    fn add_frames(&mut self, times: u32, into: &mut Vec<u8>) -> Result<(), Memory>
        ensures ok { OnOk result ((rest : List Command) →
            into.new.items ++ text_behind self.new rest
            ≡ into.old.items ++ text_behind self.old (commands_of (Line.Frames times) ++ rest)) }
        ensures values { OnOk result (LineHasValues (Line.Frames times)) }
        ensures grown { Extends into.old.items into.new.items }
    {
        let frames = u64::from(self.frames) + u64::from(times);
        let most = u64::from(u32::MAX);
        if frames < most {
            self.frames = frames as u32;
            return Ok(());
        }
        push_frames(u32::MAX, into)?;
        self.frames = (frames - most) as u32;
        Ok(())
    }

    /// Prints the frames of the run, and none is left.
    fn end_run(&mut self, into: &mut Vec<u8>) -> Result<(), Memory>
        ensures ok { OnOk result
            (into.new.items ≡ into.old.items ++ flat_map printed2 (short_run self.old)) }
        ensures none { OnOk result (self.new ≡ 0) }
        ensures grown { Extends into.old.items into.new.items }
    {
        push_frames(self.frames, into)?;
        self.frames = 0;
        Ok(())
    }
}

/// Whether a command is a frame.
fn is_frame(command: Command) -> bool
    ensures { result ≡ names_frame command }
{
    matches!(command, Command::Frame)
}

/// Appends the line of so many frames, if there are any. Where memory is refused, a part stands after
/// what was there.
fn push_frames(frames: u32, into: &mut Vec<u8>) -> Result<(), Memory>
    ensures ok { OnOk result
        (into.new.items ≡ into.old.items ++ flat_map printed2 (short_run frames)) }
    ensures grown { Extends into.old.items into.new.items }
{
    match frames {
        0 => Ok(()),
        1 => push_command(Command::Frame, into),
        _ => push_line(b"frames", &[frames], None, into),
    }
}

//! A script of either format, printed in format 2.

ghost use Rattle.std.specs.Prelude.{◌≡◌, ◌≤◌, ◌++◌, List, OnOk, OnErr, length, unwrap_or};
ghost use Rattle.std.specs.Str.Lines.{lines};
ghost use Rattle.orca_base.specs.declared.limits.TheConstants.{MAX_FILE_BYTES};
ghost use Rattle.orca_cues.specs.Scripts.{any_script_of, commands_of_cues, cues_of, seed_in};
ghost use Rattle.orca_cues.specs.declared.source.Cue.{Cue};
ghost use Rattle.orca_script.specs.Canonical.{Extends};
ghost use Rattle.orca_script.specs.Runs.{ScriptReadsBack, printed_script};

use crate::script::{is_format_2, read_as, script_seed};
use orca_base::Memory;
use orca_base::limits::MAX_FILE_BYTES;
use orca_script::{Lines, Runs, print_header};

/// Appends a script of either format, of at most [`MAX_FILE_BYTES`] bytes, in format 2: the seed that
/// it gives, or else this one, and all its commands. The frames of a row are counted, and no list is
/// made of them. Where memory is refused, `into` is as before.
pub fn print_script(text: &[u8], seed: u32, into: &mut Vec<u8>) -> Result<(), Memory>
    requires { length text.now ≤ MAX_FILE_BYTES }
    ensures printed { OnOk result ((cues : List Cue) → any_script_of text.now ≡ Ok cues
        → into.new.items ≡ into.old.items
        ++ printed_script (unwrap_or (seed_in text.now) seed) (commands_of_cues cues)) }
    ensures err { OnErr result (into.new.items ≡ into.old.items) }
    // What is printed is read as the seed and the commands.
    ensures reads_back { OnOk result ((cues : List Cue) → any_script_of text.now ≡ Ok cues
        → ScriptReadsBack (unwrap_or (seed_in text.now) seed) (commands_of_cues cues)) }
{
    let seed = script_seed(text).unwrap_or(seed);
    let before = into.len();
    match print_lines(is_format_2(text), text, seed, into) {
        Ok(()) => Ok(()),
        Err(memory) => {
            into.truncate(before);
            Err(memory)
        }
    }
}

/// Appends a script of format 2 or 1 with this seed, and all commands of its lines. Where memory is
/// refused, a part stands after what was there.
#[tactic(auto, using(orca_script::proofs::Appending::extends_more))]
fn print_lines(format_2: bool, text: &[u8], seed: u32, into: &mut Vec<u8>) -> Result<(), Memory>
    requires { length text.now ≤ MAX_FILE_BYTES }
    ensures printed { OnOk result (into.new.items ≡ into.old.items
        ++ printed_script seed (commands_of_cues (cues_of format_2 1 (lines text.now)))) }
    ensures reads_back { OnOk result
        (ScriptReadsBack seed (commands_of_cues (cues_of format_2 1 (lines text.now)))) }
    ensures grown { Extends into.old.items into.new.items }
{
    print_header(seed, into)?;
    let mut runs = Runs::none();
    let mut number: u32 = 0;
    for line in Lines::of(text) {
        number += 1;
        match read_as(format_2, number == 1, line) {
            Ok(Some(asked)) => runs.add(asked, into)?,
            Ok(None) => {}
            Err(_) => {}
        }
    }
    runs.end(into)?;
    Ok(())
}

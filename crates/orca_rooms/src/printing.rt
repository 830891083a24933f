//! The commands of a script up to its first wrong line, printed.

ghost use Rattle.std.specs.Prelude.{◌≡◌, ◌≤◌, ◌++◌, List, OnOk, length, take};
ghost use Rattle.orca_base.specs.declared.command.Command.{Command};
ghost use Rattle.orca_base.specs.declared.limits.TheConstants.{MAX_FILE_BYTES};
ghost use Rattle.orca_cues.specs.Scripts.{commands_of_cues};
ghost use Rattle.orca_rooms.specs.Sound.{first_commands, sound_script};
ghost use Rattle.orca_script.specs.Runs.{ScriptReadsBack, commands_of, printed_script};

use crate::SoundScript;
use orca_base::Memory;
use orca_base::limits::MAX_FILE_BYTES;
use orca_script::{Line, Runs, print_header};

/// Appends the commands of a script of format 2 up to its first wrong line, or so many first ones of
/// them, as a script with this seed. Where memory is refused, a part stands after what was there.
pub fn print_sound(
    text: &[u8],
    seed: u32,
    most: Option<u64>,
    into: &mut Vec<u8>,
) -> Result<(), Memory>
    requires { length text.now ≤ MAX_FILE_BYTES }
    ensures printed { OnOk result (into.new.items ≡ into.old.items
        ++ printed_script seed (first_commands most (commands_of_cues (sound_script text.now)))) }
    // What is printed is read as the seed and the commands.
    ensures reads_back { OnOk result (ScriptReadsBack seed
        (first_commands most (commands_of_cues (sound_script text.now)))) }
{
    print_header(seed, into)?;
    let mut script = SoundScript::of(text);
    let mut runs = Runs::none();
    let mut left = most;
    while let Some((_, asked)) = script.asked() {
        let (first, others) = first_asked(asked, left);
        left = others;
        runs.add(first, into)?;
    }
    runs.end(into)?;
    Ok(())
}

/// What a line asks for, or so many first commands of it, and how many more may follow.
fn first_asked(asked: Line, most: Option<u64>) -> (Line, Option<u64>)
    ensures { (rest : List Command) → first_commands most (commands_of asked ++ rest)
        ≡ commands_of result.0 ++ first_commands result.1 rest }
{
    match most {
        None => (asked, None),
        Some(most) => {
            let (first, left) = cut_asked(asked, most);
            (first, Some(left))
        }
    }
}

/// So many first commands of what a line asks for, and how many more may follow.
fn cut_asked(asked: Line, most: u64) -> (Line, u64)
    ensures { (rest : List Command) → take most (commands_of asked ++ rest)
        ≡ commands_of result.0 ++ take result.1 rest }
{
    match asked {
        Line::Frames(times) => {
            let times = u64::from(times);
            if times > most {
                return (Line::Frames(most as u32), 0);
            }
            (asked, most - times)
        }
        Line::Do(_) => {
            if most == 0 {
                return (Line::Frames(0), 0);
            }
            (asked, most - 1)
        }
    }
}

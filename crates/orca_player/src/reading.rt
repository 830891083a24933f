//! What is printed of commands is read as them.

ghost use Rattle.orca_script.specs.Canonical.{HasValues, line_of};
ghost use Rattle.orca_script.specs.Runs.{ScriptReadsBack};

use orca_base::Command;

/// The script of a seed and commands is read as them, since each command has numbers of 32 bits and
/// a glyph. It looks at each command, and does nothing.
pub(crate) fn reading_law(seed: u32, commands: &[Command])
    ensures { ScriptReadsBack seed commands.now }
{
    for command in commands {
        command_values(*command);
    }
}

/// The numbers of a command have 32 bits, and its glyph is one. It does nothing.
#[tactic(auto, unfolding(orca_script::specs::Canonical::line_of))]
fn command_values(command: Command)
    ensures { HasValues (line_of command) }
{}

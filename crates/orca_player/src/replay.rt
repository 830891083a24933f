//! The commands of a script on an opened grid.

ghost use Rattle.std.specs.Prelude.{◌≤◌, length};
ghost use Rattle.orca_base.specs.declared.limits.TheConstants.{MAX_FILE_BYTES};
ghost use Rattle.orca_cues.specs.Scripts.{any_script_of};
ghost use Rattle.orca_player.specs.Doing.{Came, CameBy};
ghost use Rattle.orca_player.specs.Outlines.{concert, loading, reading_outline, script_outline, standing_at};
ghost use Rattle.orca_reports.specs.Manners.{replay_manner};

use crate::Status;
use crate::concert::concert;
use crate::opening::Opening;
use orca_base::limits::MAX_FILE_BYTES;
use orca_course::Desk;
use orca_cues::{Script, check_any_script, script_seed};
use orca_reports::ReplayReport;
use orca_rig::House;

/// Loads and reads a script, and does its commands. A script that has a seed gives it to the session.
pub(crate) fn replay<H: House>(opening: &mut Opening, name: &str, desk: &mut Desk<H>) -> Status
    ensures { CameBy (λ brought. loading name.now brought.script
        (script_outline opening.old.grid opening.old.seed opening.old.limit))
        desk.old result desk.new }
{
    match desk.load(opening.alloc, name, MAX_FILE_BYTES as u32) {
        Ok(Some(text)) => {
            let script = text.as_slice();
            opening.seed = script_seed(script).unwrap_or(opening.seed);
            follow(opening, script, desk)
        }
        Ok(None) => Status::FileFault,
        Err(_) => Status::Memory,
    }
}

/// Reads all lines of a script, and then does its commands.
#[tactic(auto, unfolding(crate::specs::Outlines::reading_outline))]
fn follow<H: House>(opening: &Opening, text: &[u8], desk: &mut Desk<H>) -> Status
    requires short { length text.now ≤ MAX_FILE_BYTES }
    ensures { Came (reading_outline (λ cues. concert replay_manner tt cues
        (standing_at opening.now.grid opening.now.seed opening.now.limit)) (any_script_of text.now))
        desk.old result desk.new }
{
    match check_any_script(text) {
        Ok(()) => {
            let mut source = Script::of_any(text);
            concert(opening, &mut source, ReplayReport::new(opening.alloc), desk)
        }
        Err(fault) => Status::ScriptRefused {
            line: fault.line,
            column: fault.column,
        },
    }
}

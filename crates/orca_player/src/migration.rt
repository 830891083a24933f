//! A script that is moved to format 2.

ghost use Rattle.std.specs.Prelude.{◌≢◌, ◌≤◌, IfSome, IsOk, length};
ghost use Rattle.orca_base.specs.declared.limits.TheConstants.{MAX_FILE_BYTES};
ghost use Rattle.orca_cues.specs.Scripts.{any_script_of};
ghost use Rattle.orca_player.specs.Doing.{Came, CameBy, ReadsBack};
ghost use Rattle.orca_player.specs.Outlines.{loading, migrated};
ghost use Rattle.orca_words.specs.RequestIn.{migration_in};

use crate::Status;
use crate::concert::settled;
use orca_base::limits::MAX_FILE_BYTES;
use orca_course::Desk;
use orca_cues::{check_any_script, print_script};
use orca_rig::{Disk, House};
use orca_words::Migration;
use std::alloc::Global;

/// Loads and reads a script of either format, and saves it in format 2. No grid is loaded, and
/// nothing is sent.
pub(crate) fn migrate<H: House>(
    alloc: Global,
    migration: &Migration<'_>,
    desk: &mut Desk<H>,
) -> Status
    ensures { CameBy (λ brought. loading migration.now.script.now brought.script
        (migrated (migration_in migration.now))) desk.old result desk.new }
{
    match desk.load(alloc, migration.script, MAX_FILE_BYTES as u32) {
        Ok(Some(text)) => check_and_save(alloc, migration, text.as_slice(), desk),
        Ok(None) => Status::FileFault,
        Err(_) => Status::Memory,
    }
}

/// Reads all lines of a script, and then saves it.
fn check_and_save<H: House>(
    alloc: Global,
    migration: &Migration<'_>,
    text: &[u8],
    desk: &mut Desk<H>,
) -> Status
    requires { length text.now ≤ MAX_FILE_BYTES }
    ensures came { Came (migrated (migration_in migration.now) text.now) desk.old result desk.new }
    ensures reads { result ≢ Status.Memory
        → IfSome (migrated (migration_in migration.now) text.now).given ReadsBack }
{
    match check_any_script(text) {
        Ok(()) => print_and_save(alloc, migration, text, desk),
        Err(fault) => Status::ScriptRefused {
            line: fault.line,
            column: fault.column,
        },
    }
}

/// Saves a script in which no line is refused.
#[tactic(auto, using(crate::proofs::CameLemmas::came_none))]
fn print_and_save<H: House>(
    alloc: Global,
    migration: &Migration<'_>,
    text: &[u8],
    desk: &mut Desk<H>,
) -> Status
    requires short { length text.now ≤ MAX_FILE_BYTES }
    requires checked { IsOk (any_script_of text.now) }
    ensures came { Came (migrated (migration_in migration.now) text.now) desk.old result desk.new }
    ensures reads { result ≢ Status.Memory
        → IfSome (migrated (migration_in migration.now) text.now).given ReadsBack }
{
    let mut script = Vec::new(alloc);
    let Ok(()) = print_script(text, migration.seed, &mut script) else {
        return Status::Memory;
    };
    match desk.save(migration.out, script.as_slice(), Disk::Awaited) {
        Ok(()) => settled(Status::Done, desk),
        Err(_) => Status::Memory,
    }
}

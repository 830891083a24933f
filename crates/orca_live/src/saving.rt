//! What is saved.

ghost use Rattle.std.specs.Prelude.{◌≡◌, [], OnOk};
ghost use Rattle.std.specs.Option.{option_map};
ghost use Rattle.orca_course.specs.Doing.{goes_of};
ghost use Rattle.orca_live.specs.Performing.{last_grid_course, last_script_course, save_course, script_course, script_text};
ghost use Rattle.orca_live.specs.States.{LiveDid};

use crate::Live;
use orca_base::{Command, Memory};
use orca_course::{Desk, NoMemory};
use orca_edit::Machine;
use orca_grid::Grid;
use orca_rig::{Disk, House};
use orca_script::print2;

/// Saves the grid under a name. A save that fails is recorded, and the performance goes on: nobody
/// asks then whether something is loose.
#[tactic(auto, using(orca_course::proofs::DoingLemmas::does_nothing, orca_course::proofs::DoingLemmas::goes_err, crate::proofs::DoneLemmas::saved_did), unfolding(crate::specs::Performing::save_course))]
pub(crate) fn save_grid<M: Machine, H: House>(
    live: &mut Live<'_, M>,
    desk: &mut Desk<H>,
    name: &str,
    disk: Disk,
) -> Result<(), NoMemory>
    ensures { LiveDid M.Machine.own (save_course name.now)
        live.old desk.old (goes_of result) live.new desk.new }
{
    live.stage.machine.is_shown();
    live.text.clear();
    Grid::print(&live.stage.machine, &mut live.text)?;
    live.loose = false;
    desk.save(name, live.text.as_slice(), disk)
}

/// Saves the grid at the end, if it has a name.
#[tactic(auto, using(orca_course::proofs::WorldLemmas::called_still), unfolding(crate::specs::Performing::last_grid_course))]
pub(crate) fn save_last_grid<M: Machine, H: House>(
    live: &mut Live<'_, M>,
    desk: &mut Desk<H>,
) -> Result<(), NoMemory>
    ensures { LiveDid M.Machine.own last_grid_course
        live.old desk.old (goes_of result) live.new desk.new }
{
    match live.setting.save {
        Some(name) => save_grid(live, desk, name, Disk::Awaited),
        None => Ok(()),
    }
}

/// Saves the script of the commands under a name. A save that fails is recorded.
#[tactic(auto, using(orca_course::proofs::DoingLemmas::does_nothing, orca_course::proofs::DoingLemmas::goes_err, crate::proofs::DoneLemmas::save_did), unfolding(crate::specs::Performing::script_course))]
fn save_script<M: Machine, H: House>(
    live: &mut Live<'_, M>,
    desk: &mut Desk<H>,
    name: &str,
) -> Result<(), NoMemory>
    ensures { LiveDid M.Machine.own (script_course name.now)
        live.old desk.old (goes_of result) live.new desk.new }
{
    live.text.clear();
    print_script(live.setting.seed, &live.given, &mut live.text)?;
    desk.save(name, live.text.as_slice(), Disk::Awaited)
}

/// Saves the script of the commands at the end, if it has a name.
#[tactic(auto, using(orca_course::proofs::WorldLemmas::called_still), unfolding(crate::specs::Performing::last_script_course))]
pub(crate) fn save_last_script<M: Machine, H: House>(
    live: &mut Live<'_, M>,
    desk: &mut Desk<H>,
) -> Result<(), NoMemory>
    ensures { LiveDid M.Machine.own last_script_course
        live.old desk.old (goes_of result) live.new desk.new }
{
    match live.setting.script {
        Some(name) => save_script(live, desk, name),
        None => Ok(()),
    }
}

/// Makes `text`, which is empty, the script of the commands, if they are kept.
pub(crate) fn print_script(
    seed: u32,
    given: &Option<Vec<Command>>,
    text: &mut Vec<u8>,
) -> Result<(), Memory>
    requires { text.old.items ≡ [] }
    ensures { OnOk result (text.new.items
        ≡ script_text seed (option_map (λ commands. commands.items) given.now)) }
{
    match given {
        Some(commands) => print2(seed, commands.as_slice(), text),
        None => Ok(()),
    }
}

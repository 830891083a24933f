//! The journal: a file that each command is added to while the performance plays.

ghost use Rattle.std.specs.Prelude.{◌≡◌, IfErr, OnOk};
ghost use Rattle.std.specs.Option.{option_map};
ghost use Rattle.orca_course.specs.Doing.{goes_of};
ghost use Rattle.orca_course.specs.Worlds.{Calls};
ghost use Rattle.orca_live.specs.Performing.{additions, header_course, journal_course, lines_course, noted, write_course};
ghost use Rattle.orca_live.specs.States.{LiveDid};

use crate::Live;
use orca_base::Command;
use orca_course::{Desk, NoMemory};
use orca_edit::Machine;
use orca_rig::House;
use orca_script::{print, print_header};

/// Prints the line of a command after those that wait for the journal, if one is kept.
pub(crate) fn note(
    journal: Option<&str>,
    command: &Command,
    lines: &mut Vec<u8>,
) -> Result<(), NoMemory>
    ensures noted { OnOk result (lines.new.items
        ≡ noted (option_map (λ name. name.now) journal.entry) command.now lines.old.items) }
    ensures err { IfErr result (λ refused. refused ≡ NoMemory.Elsewhere) }
{
    if let Some(_) = journal {
        print(command, lines)?;
    }
    Ok(())
}

/// Begins the journal, if one is kept. A room has begun.
#[tactic(auto, using(orca_course::proofs::WorldLemmas::called_still), unfolding(crate::specs::Performing::journal_course))]
pub(crate) fn begin_journal<M: Machine, H: House>(
    live: &mut Live<'_, M>,
    desk: &mut Desk<H>,
) -> Result<(), NoMemory>
    ensures { LiveDid M.Machine.own journal_course
        live.old desk.old (goes_of result) live.new desk.new }
{
    match live.setting.begun_name() {
        Some(name) => begin_file(live, desk, name),
        None => Ok(()),
    }
}

/// Begins the file of a name with the first line of a script. What an older journal of this name
/// held is gone then.
#[tactic(auto, using(orca_course::proofs::DoingLemmas::does_nothing, orca_course::proofs::DoingLemmas::goes_err, crate::proofs::DoneLemmas::begin_did), unfolding(crate::specs::Performing::header_course))]
fn begin_file<M: Machine, H: House>(
    live: &mut Live<'_, M>,
    desk: &mut Desk<H>,
    name: &str,
) -> Result<(), NoMemory>
    ensures { LiveDid M.Machine.own (header_course name.now)
        live.old desk.old (goes_of result) live.new desk.new }
{
    live.text.clear();
    print_header(live.setting.seed, &mut live.text)?;
    desk.begin(name, live.text.as_slice())
}

/// Adds the lines that wait to the journal, if one is kept. A failure is recorded, and the
/// performance goes on: nothing is added after it, since files refuse what comes after a failed
/// begin or append of the same name.
#[tactic(auto, using(orca_course::proofs::WorldLemmas::called_still), unfolding(crate::specs::Performing::write_course))]
pub(crate) fn write_journal<M: Machine, H: House>(
    live: &mut Live<'_, M>,
    desk: &mut Desk<H>,
) -> Result<(), NoMemory>
    ensures { LiveDid M.Machine.own write_course
        live.old desk.old (goes_of result) live.new desk.new }
{
    match live.setting.journal {
        Some(name) => write_lines(live, desk, name),
        None => Ok(()),
    }
}

/// Adds the lines that wait to the file of a name, and none waits then. Their room is kept for
/// those to come.
#[tactic(auto, using(crate::proofs::DoneLemmas::lines_did))]
fn write_lines<M: Machine, H: House>(
    live: &mut Live<'_, M>,
    desk: &mut Desk<H>,
    name: &str,
) -> Result<(), NoMemory>
    ensures { LiveDid M.Machine.own (lines_course name.now)
        live.old desk.old (goes_of result) live.new desk.new }
{
    let answer = add(desk, name, live.unwritten.as_slice());
    live.unwritten.clear();
    answer
}

/// Adds bytes to the file of a name, unless there are none.
#[tactic(auto, using(crate::proofs::DoneLemmas::added_none, crate::proofs::DoneLemmas::added_some))]
fn add<H: House>(desk: &mut Desk<H>, name: &str, bytes: &[u8]) -> Result<(), NoMemory>
    ensures { Calls (additions name.now bytes.now) result desk.old desk.new }
{
    if bytes.is_empty() {
        return Ok(());
    }
    desk.append(name, bytes)
}

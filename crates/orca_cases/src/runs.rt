//! A whole run, over files and ports in memory.

ghost use Rattle.std.specs.Prelude.{◌≡◌, ◌<◌, [], false, IfOk};
ghost use Rattle.orca_rig.specs.Arrived.{empty_log};

use crate::answer::Answer;
use crate::case::{Case, Outside};
use anyhow::{Result, bail, ensure};
use orca_base::{Port, Steps};
use orca_course::{Desk, Rooms, desk_of};
use orca_player::{Status, run};
use orca_rig::{MemAnswer, MemFiles, MemInbox, MemOuts, are_arrivals, is_in_order, names_differ};
use std::marker::Brand;
use std::sync::ledger::{Blank, Ledger};

/// What a run is asked for.
#[derive(Drop)]
struct Asked {
    /// The words of the command line.
    words: Vec<String>,
    /// The names of the files that are told at the end.
    wanted: Vec<String>,
}

/// What a run finds outside.
#[derive(Drop)]
struct World {
    files: MemFiles,
    outs: MemOuts,
    inbox: MemInbox,
}

/// Adds the lines of the answer.
pub(crate) fn tell(case: Case, answer: &mut Answer) -> Result<()> {
    let Case {
        name: _,
        frame: _,
        steps: _,
        words,
        wanted,
        outside,
    } = case;
    let asked = Asked { words, wanted };
    tell_run::<Brand>(&asked, world_of(outside)?, Blank::new(1), answer)
}

/// The world of a case. Nobody has called it.
fn world_of(outside: Outside) -> Result<World>
    ensures files { IfOk result (λ world. (world.files.asked ≡ []) × (world.files.wants ≡ 0)) }
    ensures ports { IfOk result (λ world. (world.outs.handed ≡ []) × (world.outs.attached ≡ [])
        × (world.outs.wants ≡ 0)) }
    ensures inbox { IfOk result (λ world. (world.inbox.log ≡ empty_log) × (world.inbox.wants ≡ 0)
        × (world.inbox.listened ≡ false) × (world.inbox.ended ≡ false)) }
{
    let Outside {
        files,
        held,
        failing_calls,
        failing_sends,
        start,
        answers,
        failing_polls,
    } = outside;
    Ok(World {
        files: files_of(files, held, failing_calls)?,
        outs: outs_of(failing_sends)?,
        inbox: inbox_of(start, answers, failing_polls)?,
    })
}

/// The files of a case, that which another program holds, and which calls of them fail.
fn files_of(
    files: Vec<(String, Vec<u8>)>,
    held: Option<String>,
    failing: Vec<u64>,
) -> Result<MemFiles>
    ensures { IfOk result (λ files. (files.asked ≡ []) × (files.wants ≡ 0)) }
{
    ensure!(names_differ(&files), "two files have one name");
    let Ok(mut files) = MemFiles::new(files, failing) else {
        bail!("memory was refused");
    };
    if let Some(name) = held {
        let Ok(()) = files.hold(name) else {
            bail!("memory was refused");
        };
    }
    Ok(files)
}

/// The ports of a case, and which sends fail.
fn outs_of(failing: Vec<(Port, u64)>) -> Result<MemOuts>
    ensures { IfOk result (λ outs. (outs.handed ≡ []) × (outs.attached ≡ [])
        × (outs.wants ≡ 0)) }
{
    let Ok(outs) = MemOuts::new(failing) else {
        bail!("memory was refused");
    };
    Ok(outs)
}

/// The inbox of a case, and which calls of it fail.
fn inbox_of(start: u64, answers: Vec<MemAnswer>, failing: Vec<u64>) -> Result<MemInbox>
    ensures { IfOk result (λ inbox. (inbox.log ≡ empty_log) × (inbox.wants ≡ 0)
        × (inbox.listened ≡ false) × (inbox.ended ≡ false)) }
{
    ensure!(
        is_in_order(start, &answers),
        "a moment is below an earlier one"
    );
    ensure!(are_arrivals(&answers), "an arrival has no bytes");
    let Ok(inbox) = MemInbox::new(start, answers, failing) else {
        bail!("memory was refused");
    };
    Ok(inbox)
}

/// Does the run at a desk in this world, and adds the lines of what came of it.
fn tell_run<L: Ledger>(asked: &Asked, world: World, blank: Blank, answer: &mut Answer) -> Result<()>
    // Nobody has called the world.
    requires files { (world.files.asked ≡ []) × (world.files.wants ≡ 0) }
    requires ports { (world.outs.handed ≡ []) × (world.outs.attached ≡ [])
        × (world.outs.wants ≡ 0) }
    requires log { (world.inbox.log ≡ empty_log) × (world.inbox.wants ≡ 0) }
    requires fresh { world.inbox.listened ≡ false }
    requires open { world.inbox.ended ≡ false }
    requires name { blank.name ≡ L.name }
    requires parts { blank.parts ≡ L.parts }
    requires some { 0 < blank.parts }
{
    let World { files, outs, inbox } = world;
    let mut desk = desk_of(files, outs, inbox, Steps::<L>::start(blank));
    let status = run(answer.alloc, &asked.words, &mut desk);
    tell_end(&asked.wanted, &desk, status, answer)
}

/// Adds the lines of what came of a run.
fn tell_end<L: Ledger>(
    wanted: &Vec<String>,
    desk: &Desk<Rooms<MemFiles, MemOuts, MemInbox, L>>,
    status: Status,
    answer: &mut Answer,
) -> Result<()> {
    tell_calls(desk.outs(), desk.inbox(), answer)?;
    for name in wanted {
        tell_file(desk.files(), name.as_str(), answer)?;
    }
    let line = format!(in answer.alloc; "status {}\n", status.number())?;
    answer.push(line.as_str())
}

/// Adds a line for each send, and for each time that a hand was told something: before a poll that comes
/// after all sends.
fn tell_calls(outs: &MemOuts, inbox: &MemInbox, answer: &mut Answer) -> Result<()> {
    let mut told = 0;
    for index in 0..u64::MAX {
        told = tell_hands(inbox, told, index, answer)?;
        let Some((port, bytes)) = outs.handed_at(index) else {
            break;
        };
        let words = format!(in answer.alloc; "send {}", port.name())?;
        answer.push_bytes(words.as_str(), bytes)?;
    }
    tell_hands(inbox, told, u64::MAX, answer)?;
    Ok(())
}

/// Adds a line for each time that a hand was told something, from this one on, before a poll that came
/// after so many sends. It gives the number of the next one.
fn tell_hands(inbox: &MemInbox, first: u64, sends: u64, answer: &mut Answer) -> Result<u64> {
    for index in first..u64::MAX {
        let Some((hand, bytes)) = inbox.told_at(index) else {
            return Ok(index);
        };
        if inbox.sent_by(index).unwrap_or(u64::MAX) > sends {
            return Ok(index);
        }
        let words = format!(in answer.alloc; "told {hand}")?;
        answer.push_bytes(words.as_str(), bytes)?;
    }
    Ok(u64::MAX)
}

/// Adds the line of a file.
fn tell_file(files: &MemFiles, name: &str, answer: &mut Answer) -> Result<()> {
    let words = format!(in answer.alloc; "file {name}")?;
    match files.file(name) {
        Some(bytes) => answer.push_bytes(words.as_str(), bytes),
        None => {
            answer.push(words.as_str())?;
            answer.push(" none\n")
        }
    }
}

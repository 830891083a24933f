//! An early close, as if memory was refused.

ghost use Rattle.std.specs.Prelude.{◌≡◌, ◌<◌};

use orca_base::limits::MAX_FILE_BYTES;
use orca_base::{Command, Port, Steps};
use orca_concert::{Report, Stage, close_early};
use orca_course::{Desk, NoMemory, Rooms, Stop, desk_of};
use orca_edit::Machine;
use orca_grid::Grid;
use orca_reports::EventsReport;
use orca_rig::{House, MemFiles, MemInbox, MemOuts};
use orca_session::Session;
use std::alloc::Global;
use std::marker::Brand;
use std::process::Abort;
use std::sync::ledger::{Blank, Ledger};
use std::test::Fail;

/// In its first frame it starts a note.
const CLOCK: &[u8] = b"D4......\n.:03Cfz.\n";

/// What is handed out: the note, its line and its end. The report is not told of the close.
const HANDED: [(Port, &[u8]); 3] = [
    (Port::Midi, &[0x90, 0x24, 0x77]),
    (Port::Text, b"0 midi 90 24 77\n"),
    (Port::Midi, &[0x80, 0x24, 0x00]),
];

/// A desk over objects in memory.
type MemDesk<L> = Desk<Rooms<MemFiles, MemOuts, MemInbox, L>>;

/// A desk with no file, and an inbox to which nothing comes.
fn desk_with<L: Ledger>(alloc: Global, blank: Blank) -> Result<MemDesk<L>, Fail>
    requires name { blank.name ≡ L.name }
    requires parts { blank.parts ≡ L.parts }
    requires some { 0 < blank.parts }
{
    let files = MemFiles::new(Vec::new(alloc), Vec::new(alloc))?;
    let outs = MemOuts::new(Vec::new(alloc))?;
    let inbox = MemInbox::new(0, Vec::new(alloc), Vec::new(alloc))?;
    Ok(desk_of(files, outs, inbox, Steps::<L>::start(blank)))
}

/// Plays a frame, and closes early.
fn end_early<M: Machine, R: Report, H: House>(
    stage: &mut Stage<M, R>,
    desk: &mut Desk<H>,
) -> Result<Option<Stop>, NoMemory> {
    let end = stage.do_command(desk, 1, &Command::Frame)?;
    close_early(stage, desk)?;
    Ok(end)
}

/// Does so with this session.
fn check_machine<M: Machine, H: House>(
    rt: &impl Abort,
    alloc: Global,
    machine: M,
    desk: &mut Desk<H>,
) -> Result<(), Fail> {
    let mut stage = Stage::start(alloc, machine, EventsReport::new(alloc))?;
    assert_eq!(rt; end_early(&mut stage, desk), Ok(None));
    Ok(())
}

/// Does so with a session of the clock.
fn check_clock<H: House>(rt: &impl Abort, alloc: Global, desk: &mut Desk<H>) -> Result<(), Fail> {
    assert!(rt; CLOCK.len() <= MAX_FILE_BYTES);
    let grid = Grid::read(alloc, CLOCK)?;
    let session = Session::start(alloc, &grid, 1, 10)?;
    check_machine(rt, alloc, session, desk)
}

/// Looks at what was handed out.
fn check_handed<L: Ledger>(rt: &impl Abort, desk: &MemDesk<L>, wanted: &[(Port, &'static [u8])]) {
    let mut index = 0u64;
    for (port, bytes) in wanted {
        assert_eq!(rt; desk.outs().handed_at(index), Some((*port, *bytes)));
        index = index.saturating_add(1);
    }
    assert_eq!(rt; desk.outs().handed_at(index), None);
}

/// Does so, and looks at what was handed out.
fn check_ports<L: Ledger>(
    rt: &impl Abort,
    alloc: Global,
    desk: &mut MemDesk<L>,
) -> Result<(), Fail> {
    check_clock(rt, alloc, desk)?;
    check_handed(rt, desk, &HANDED);
    Ok(())
}

/// Does so at such ports.
fn check_close<L: Ledger>(rt: &impl Abort, alloc: Global, blank: Blank) -> Result<(), Fail>
    requires name { blank.name ≡ L.name }
    requires parts { blank.parts ≡ L.parts }
    requires some { 0 < blank.parts }
{
    check_ports(rt, alloc, &mut desk_with::<L>(alloc, blank)?)
}

#[test]
fn an_early_close_ends_the_notes(rt: HostRuntime) -> Result<(), Fail> {
    check_close::<Brand>(&rt, rt.alloc(), Blank::new(1))
}

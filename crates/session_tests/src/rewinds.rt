//! A rewind far back, by the checkpoints. What it may cost is said by the contract of `Session::act`.

ghost use Rattle.std.specs.Prelude.{◌≡◌, ◌<◌};

use orca_base::{Command, Dims, Entry, Fault, Reply, Steps};
use orca_edit::Machine;
use orca_grid::Grid;
use orca_notes::Messages;
use orca_session::Session;
use std::alloc::Global;
use std::marker::Brand;
use std::process::Abort;
use std::sync::ledger::{Blank, Ledger};
use std::test::Fail;

/// Plays 2,000 frames, and goes back to moment 900. It has no patch any more, since the last 1,024 entries
/// alone keep theirs: the checkpoint of moment 768 is loaded, and 132 frames are played again.
fn go_far_back<L: Ledger>(
    session: &mut Session,
    messages: &mut Messages,
    blank: Blank,
) -> Result<Reply, Fault>
    requires name { blank.name ≡ L.name }
    requires parts { blank.parts ≡ L.parts }
    requires some { 0 < blank.parts }
{
    let mut steps = Steps::<L>::start(blank);
    for _ in 0..2_000_u32 {
        messages.clear();
        session.act(&Command::Frame, messages, &mut steps)?;
    }
    messages.clear();
    session.act(&Command::Rewind { moment: 900 }, messages, &mut steps)
}

/// Goes far back, and looks at the session that comes of it.
fn check_jump(rt: &impl Abort, session: &mut Session, messages: &mut Messages) {
    let answer = go_far_back::<Brand>(session, messages, Blank::new(1));
    assert_eq!(rt; answer, Ok(Reply::Jumped { moment: 900 }));
    assert!(rt; matches!(session.entry(900), Some(Entry::Hush)) && session.entry(901).is_none());
    assert!(rt; session.checkpoints() == 4 && session.spacing() == 256);
}

/// The way back, on a session of its own.
fn check_back(rt: &impl Abort, alloc: Global, grid: &Grid) -> Result<(), Fail> {
    let mut session = Session::start(alloc, grid, 1, 4_000)?;
    let mut messages = Messages::start(alloc)?;
    check_jump(rt, &mut session, &mut messages);
    Ok(())
}

#[test]
fn rewind_far_back(rt: HostRuntime) -> Result<(), Fail> {
    let grid = Grid::blank(rt.alloc(), Dims { h: 256, w: 1 })?;
    check_back(&rt, rt.alloc(), &grid)
}

//! The program `orca`: makes the real objects of the outside, and runs the words of the command line.
#![tactic(auto)]

ghost use Rattle.std.specs.Prelude.{◌≡◌, ◌<◌, false, map, string_bytes, IsErr, IfOk};
ghost use Rattle.orca_course.specs.Worlds.{IsSound, has_ended, has_listened};
ghost use Rattle.orca_player.specs.Doing.{Said};
ghost use Rattle.orca_player.specs.Running.{Ran};

use orca_base::{Memory, Steps};
use orca_course::{Desk, desk_of};
use orca_edge::{RealFiles, RealInbox, RealOuts, open_closed_streams, words_after_name};
use orca_player::{Status, end, run};
use orca_rig::House;
use std::alloc::Global;
use std::marker::Brand;
use std::net::{Net, TcpStream};
use std::os::fd::{AsRawFd, IntoRawFd};
use std::process::ExitCode;
use std::rt::{Clock, Env};
use std::sync::ledger::{Blank, Ledger};
use std::{env, io, rt};

/// Runs the words. Where memory was refused to them, the last line says so.
fn run_or_end<H: House>(
    alloc: Global,
    words: Result<Vec<String>, Memory>,
    desk: &mut Desk<H>,
) -> Status
    requires fresh { has_listened desk.old ≡ false }
    requires open { has_ended desk.old ≡ false }
    requires sound { IsSound desk.old }
    ensures ran { IfOk words (λ words.
        Ran (map string_bytes words.items) desk.old result desk.new) }
    ensures refused { IsErr words → Said Status.Memory result desk.old desk.new }
{
    match words {
        Ok(words) => run(alloc, &words, desk),
        Err(Memory) => end(alloc, desk, Status::Memory),
    }
}

/// Runs the words, and lets the desk go.
///
/// It knows no objects but as those of a house, so that what they hold is not looked at here.
fn run_at<H: House>(alloc: Global, words: Result<Vec<String>, Memory>, mut desk: Desk<H>) -> Status
    requires fresh { has_listened desk ≡ false }
    requires open { has_ended desk ≡ false }
    requires sound { IsSound desk }
{
    run_or_end(alloc, words, &mut desk)
}

/// Runs the words over the system's files and streams, if none of the streams is closed any more. It
/// counts its steps in a new ledger.
fn start<R, L: Ledger>(rt: &R, blank: Blank, streams: io::Result<()>) -> Status
where
    R: AllocGlobal + Clock + Env + rt::Files + Net<Stream = TcpStream> + Print + Eprint,
    R::File: AsRawFd + IntoRawFd,
    R::Listener: AsRawFd,
    requires name { blank.name ≡ L.name }
    requires parts { blank.parts ≡ L.parts }
    requires some { 0 < blank.parts }
    ensures { IsErr streams → result ≡ Status.OutFault }
{
    if streams.is_err() {
        return Status::OutFault;
    }
    let words = words_after_name(rt.alloc(), env::args(rt));
    let files = RealFiles::new(rt);
    let outs = RealOuts::new(rt);
    let inbox = RealInbox::new(rt);
    run_at(
        rt.alloc(),
        words,
        desk_of(files, outs, inbox, Steps::<L>::start(blank)),
    )
}

fn main(rt: HostRuntime) -> ExitCode {
    let streams = open_closed_streams(&rt);
    ExitCode::from(start::<HostRuntime, Brand>(&rt, Blank::new(1), streams).number())
}

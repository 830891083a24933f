//! Whole runs, where a port refuses memory to one of its sends.

ghost use Rattle.std.specs.Prelude.{◌≡◌, ◌<◌, Some, length};

use orca_base::{Port, Steps};
use orca_course::{Desk, Rooms, desk_of};
use orca_player::Status;
use orca_rig::{MemFiles, MemInbox, MemOuts, Misses, Outs, OutsideFault, names_differ};
use std::alloc::Global;
use std::marker::Brand;
use std::process::Abort;
use std::sync::ledger::{Blank, Ledger};
use std::test::Fail;

/// Ports in memory that are refused memory at the send of this number, and keep the others.
#[derive(Drop)]
struct Tight {
    kept: MemOuts,
    tight: u64,
    sends: u64,
    misses: Misses,
}

impl Outs for Tight {
    ghost handed = { λ o. Some o.kept.handed };

    ghost attached = { λ o. Some o.kept.attached };

    ghost sent = { λ o. length o.kept.handed };

    ghost faults = { λ o. o.misses.faults };

    ghost wants = { λ o. o.misses.wants };

    fn attach(&mut self, port: Port, name: &str) -> Result<(), OutsideFault> {
        let done = self.kept.attach(port, name);
        self.misses.count(done)
    }

    fn send(&mut self, port: Port, bytes: &[u8]) -> Result<(), OutsideFault> {
        self.sends = self.sends.saturating_add(1);
        if self.sends == self.tight {
            return self.misses.count(Err(OutsideFault::Memory));
        }
        let done = self.kept.send(port, bytes);
        self.misses.count(done)
    }

    fn sent(&self) -> u64 {
        self.kept.sent()
    }

    ghost sent_is_length = { λ outs pieces told fits. Prim.cc };
}

type TightDesk<L> = Desk<Rooms<MemFiles, Tight, MemInbox, L>>;

/// Does the words over a store of one file, a banged text operator whose message is sent at the first
/// frame. The send of this number is refused memory.
fn run<L: Ledger>(
    rt: &impl Abort,
    alloc: Global,
    line: &str,
    tight: u64,
    blank: Blank,
) -> Result<(TightDesk<L>, Status), Fail>
    requires name { blank.name ≡ L.name }
    requires parts { blank.parts ≡ L.parts }
    requires some { 0 < blank.parts }
{
    let mut words = Vec::new(alloc);
    for word in line.split(' ') {
        words.push(String::from_str(alloc, word)?)?;
    }
    let mut contents = Vec::new(alloc);
    contents.push((
        String::from_str(alloc, "hi.orca")?,
        b";hi\n*..\n".to_vec(alloc)?,
    ))?;
    assert!(rt; names_differ(&contents));
    let files = MemFiles::new(contents, Vec::new(alloc))?;
    let outs = Tight {
        kept: MemOuts::new(Vec::new(alloc))?,
        tight,
        sends: 0,
        misses: Misses::none(),
    };
    let inbox = MemInbox::new(0, Vec::new(alloc), Vec::new(alloc))?;
    let mut desk = desk_of(files, outs, inbox, Steps::<L>::start(blank));
    let status = orca_player::run(alloc, &words, &mut desk);
    Ok((desk, status))
}

/// A run: its words, the send that is refused memory, what is sent nevertheless, and the status.
type Run = (&'static str, u64, &'static [(Port, &'static [u8])], Status);

/// Does the run, and compares what it sent and how it ended.
fn try_run<L: Ledger>(rt: &impl Abort, alloc: Global, wanted: Run, blank: Blank) -> Result<(), Fail>
    requires name { blank.name ≡ L.name }
    requires parts { blank.parts ≡ L.parts }
    requires some { 0 < blank.parts }
{
    let (line, tight, sends, status) = wanted;
    let (desk, ended) = run::<L>(rt, alloc, line, tight, blank)?;
    assert_eq!(rt; ended, status);
    let mut index = 0u64;
    for (port, bytes) in sends {
        assert_eq!(rt; desk.outs().kept.handed_at(index), Some((*port, *bytes)));
        index = index.saturating_add(1);
    }
    assert_eq!(rt; desk.outs().kept.handed_at(index), None);
    assert_eq!(rt; desk.outs().misses.wants, u64::from(tight > 0));
    Ok(())
}

const RUNS: [Run; 11] = [
    (
        "events hi.orca 2",
        0,
        &[(Port::Udp, b"hi"), (Port::Text, b"0 udp 68 69\n")],
        Status::Done,
    ),
    (
        "events hi.orca 2",
        1,
        &[(Port::Fault, b"no memory\n")],
        Status::Memory,
    ),
    (
        "events hi.orca 2",
        2,
        &[(Port::Udp, b"hi"), (Port::Fault, b"no memory\n")],
        Status::Memory,
    ),
    (
        "run hi.orca 1",
        2,
        &[(Port::Udp, b"hi"), (Port::Fault, b"no memory\n")],
        Status::Memory,
    ),
    (
        "follow hi.orca here:1",
        1,
        &[(Port::Fault, b"no memory\n")],
        Status::Memory,
    ),
    (
        "lead hi.orca here:1",
        0,
        &[
            (Port::Midi, b"\xfa"),
            (Port::Text, b";hi\n*..\ntick 0 moments 0 sounding 0\n"),
            (Port::Midi, b"\xfc"),
        ],
        Status::Done,
    ),
    (
        "lead hi.orca here:1",
        1,
        &[(Port::Fault, b"no memory\n")],
        Status::Memory,
    ),
    (
        "lead hi.orca here:1",
        2,
        &[(Port::Midi, b"\xfa"), (Port::Fault, b"no memory\n")],
        Status::Memory,
    ),
    (
        "lead hi.orca here:1",
        3,
        &[
            (Port::Midi, b"\xfa"),
            (Port::Text, b";hi\n*..\ntick 0 moments 0 sounding 0\n"),
            (Port::Fault, b"no memory\n"),
        ],
        Status::Memory,
    ),
    ("run no.orca 1", 1, &[], Status::Memory),
    ("run", 1, &[], Status::Memory),
];

#[test]
fn a_send_that_is_refused_memory_ends_the_run(rt: HostRuntime) -> Result<(), Fail> {
    for wanted in &RUNS {
        try_run::<Brand>(&rt, rt.alloc(), *wanted, Blank::new(1))?;
    }
    Ok(())
}

//! What the calls of a desk came to, over an outside in memory.

ghost use Rattle.std.specs.Prelude.{◌≡◌, ◌<◌, [], false, IfOk};
ghost use Rattle.orca_course.specs.Worlds.{has_ended};

use orca_base::{Port, Steps, Wire};
use orca_course::{Desk, Ending, Item, Losses, NoMemory, Performer, Rooms, Stop, desk_of, perform};
use orca_rig::{Disk, House, MemAnswer, MemFiles, MemInbox, MemOuts, are_arrivals, is_in_order};
use std::alloc::Global;
use std::marker::Brand;
use std::process::Abort;
use std::sync::ledger::{Blank, Ledger};
use std::test::Fail;

/// A desk over objects in memory.
type MemDesk<L> = Desk<Rooms<MemFiles, MemOuts, MemInbox, L>>;

/// A call of a desk.
#[derive(Clone, Copy)]
enum Call {
    Attach(Port),
    Send(Port),
    Begin,
    Append,
    Save,
}

use Call::{Append, Attach, Begin, Save, Send};

/// Nothing has failed.
const FINE: Losses = Losses {
    midi: false,
    udp: false,
    osc: false,
    journal: false,
    unsaved: false,
    unstored: false,
};

/// A file has, and no port.
const UNSTORED: Losses = Losses {
    unstored: true,
    ..FINE
};

/// And the journal.
const JOURNAL: Losses = Losses {
    journal: true,
    ..UNSTORED
};

/// And the last save.
const UNSAVED: Losses = Losses {
    unsaved: true,
    ..JOURNAL
};

/// The calls that fail: those of a port by their number there, and those of the files.
const PORTS: [(Port, u64); 6] = [
    (Port::Midi, 1),
    (Port::Midi, 4),
    (Port::Udp, 2),
    (Port::Osc, 1),
    (Port::Osc, 3),
    (Port::View, 1),
];

const FILES: [u64; 3] = [2, 5, 7];

/// The calls, of a desk at which a file has failed before, and what they came to after each. What is sent to a port that could not be attached
/// goes well, so a send does not tell of the attach.
const CALLS: [(Call, Losses); 17] = [
    (
        Attach(Port::Midi),
        Losses {
            midi: true,
            ..UNSTORED
        },
    ),
    (
        Send(Port::Midi),
        Losses {
            midi: true,
            ..UNSTORED
        },
    ),
    (Attach(Port::Midi), UNSTORED),
    (Attach(Port::Udp), UNSTORED),
    (
        Send(Port::Udp),
        Losses {
            udp: true,
            ..UNSTORED
        },
    ),
    (Send(Port::Udp), UNSTORED),
    (
        Attach(Port::Osc),
        Losses {
            osc: true,
            ..UNSTORED
        },
    ),
    (Attach(Port::Osc), UNSTORED),
    (
        Send(Port::Osc),
        Losses {
            osc: true,
            ..UNSTORED
        },
    ),
    (Send(Port::Osc), UNSTORED),
    (Send(Port::View), UNSTORED),
    (Begin, UNSTORED),
    (Append, JOURNAL),
    (Save, JOURNAL),
    (Save, UNSAVED),
    (Save, JOURNAL),
    (
        Send(Port::Midi),
        Losses {
            midi: true,
            ..JOURNAL
        },
    ),
];

/// Makes a call.
fn make_call<H: House>(desk: &mut Desk<H>, call: Call) -> Result<(), NoMemory> {
    match call {
        Attach(port) => desk.attach(port, "gear"),
        Send(port) => desk.send(port, b"hi"),
        Begin => desk.begin("journal", b"1\n"),
        Append => desk.append("journal", b"2\n"),
        Save => desk.save("grid", b"1\n", Disk::Awaited),
    }
}

/// Makes the calls, and looks at what they came to after each.
fn check_calls<H: House>(rt: &impl Abort, desk: &mut Desk<H>) -> Result<(), Fail> {
    assert_eq!(rt; desk.losses(), UNSTORED);
    for (call, came) in &CALLS {
        make_call(desk, *call).ok().ok_or("no memory")?;
        assert_eq!(rt; desk.losses(), *came);
    }
    Ok(())
}

/// A desk whose calls fail so, and to which these bytes come, each as an answer of its own.
fn desk_with<L: Ledger>(
    rt: &impl Abort,
    alloc: Global,
    blank: Blank,
    bytes: &[u8],
) -> Result<MemDesk<L>, Fail>
    requires name { blank.name ≡ L.name }
    requires parts { blank.parts ≡ L.parts }
    requires some { 0 < blank.parts }
    ensures { IfOk result (λ desk. desk.calls ≡ []) }
{
    let files = MemFiles::new(Vec::new(alloc), FILES.to_vec(alloc)?)?;
    let outs = MemOuts::new(PORTS.to_vec(alloc)?)?;
    let mut answers = Vec::new(alloc);
    for byte in bytes {
        let mut arrival = Wire::empty();
        arrival.push(*byte);
        answers.push(MemAnswer::Bytes {
            hand: 0,
            bytes: arrival,
            at: 0,
        })?;
    }
    assert!(rt; is_in_order(0, &answers));
    assert!(rt; are_arrivals(&answers));
    let inbox = MemInbox::new(0, answers, Vec::new(alloc))?;
    Ok(desk_of(files, outs, inbox, Steps::<L>::start(blank)))
}

/// It saves each byte, and keeps what it is told at the start and after each answer.
#[derive(Drop)]
struct Keeper {
    told: Vec<Losses>,
}

impl Performer for Keeper {
    ghost use Rattle.outside_tests.specs.Keeping.{keeper_is_deaf, keeper_is_steady, keeper_part};

    ghost State = { Unit {0} };

    ghost state = { λ _. tt };

    ghost residue = { λ _. 0 };

    ghost part = { keeper_part };

    fn until(&self) -> Option<u64> {
        None
    }

    #[tactic(auto, using(orca_course::proofs::WorldLemmas::called_still), unfolding(crate::specs::Keeping::keeper_course))]
    fn take<H: House>(&mut self, desk: &mut Desk<H>, item: Item) -> Result<Option<Stop>, NoMemory> {
        match item {
            Item::Byte { byte, .. } => {
                desk.save("grid", &[byte], Disk::Awaited)?;
                Ok(None)
            }
            Item::Open(came) | Item::Over(came) => {
                self.told.push(came)?;
                Ok(None)
            }
            Item::Start | Item::Due { .. } | Item::Settle | Item::Ended(_) => Ok(None),
        }
    }

    ghost deaf = { keeper_is_deaf };

    ghost steady = { keeper_is_steady };
}

/// Performs bytes, of which the second save fails, and looks at what was told.
fn check_told<H: House>(rt: &impl Abort, alloc: Global, desk: &mut Desk<H>)
    requires { has_ended desk.old ≡ false }
{
    let mut keeper = Keeper {
        told: Vec::new(alloc),
    };
    let ending = perform(&mut keeper, desk);
    assert_eq!(rt; ending, Ok(Ending::Stopped(Stop::Left)));
    let unsaved = Losses {
        unsaved: true,
        ..UNSTORED
    };
    // The next save goes well, but a file has failed.
    let told = [FINE, FINE, unsaved, UNSTORED];
    assert_eq!(rt; keeper.told.as_slice(), told.as_slice());
}

/// Does both at one desk.
fn check_came<L: Ledger>(rt: &impl Abort, alloc: Global, blank: Blank) -> Result<(), Fail>
    requires name { blank.name ≡ L.name }
    requires parts { blank.parts ≡ L.parts }
    requires some { 0 < blank.parts }
{
    let mut desk = desk_with::<L>(rt, alloc, blank, b"123")?;
    check_told(rt, alloc, &mut desk);
    check_calls(rt, &mut desk)
}

#[test]
fn what_calls_came_to_is_told(rt: HostRuntime) -> Result<(), Fail> {
    check_came::<Brand>(&rt, rt.alloc(), Blank::new(1))
}

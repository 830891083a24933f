use orca_base::Port;
use orca_edge::RealOuts;
use orca_edge::room::Gate;
use orca_rig::{Outs, OutsideFault};
use std::fs::OpenOptions;
use std::io::Read;
use std::os::fd::AsRawFd;
use std::process::Abort;
use std::{fs, io};

/// A call of the outputs, and its answer.
#[derive(Clone, Copy)]
enum Call {
    Attach(Port, &'static str, Result<(), OutsideFault>),
    Send(Port, &'static [u8], Result<(), OutsideFault>),
}

use Call::{Attach, Send};

const FAILED: Result<(), OutsideFault> = Err(OutsideFault::Failed);

/// Makes the calls one after another, and looks at each answer.
fn check_calls<O: Outs>(rt: &impl Abort, outs: &mut O, calls: &[Call]) {
    for call in calls {
        match *call {
            Attach(port, name, answer) => {
                assert!(rt; outs.attach(port, name) == answer, "{name}");
            }
            Send(port, bytes, answer) => {
                assert!(rt; outs.send(port, bytes) == answer, "{bytes:?}");
            }
        }
    }
}

// The standard error takes text alone, and a port that is not attached drops what it is given. A failed attach gives
// up what was attached before.
const CALLS: [Call; 20] = [
    Send(Port::Text, b"", Ok(())),
    Send(Port::View, b"\n", Ok(())),
    Send(Port::Fault, b"output fault\n", Ok(())),
    Send(Port::Fault, b"\xff", FAILED),
    Send(Port::Midi, b"\xff", Ok(())),
    Send(Port::Udp, b"hi", Ok(())),
    Send(Port::Osc, b"hi", Ok(())),
    Attach(Port::Text, "rig_text", FAILED),
    Attach(Port::Midi, "/dev/full", Ok(())),
    Send(Port::Midi, b"", Ok(())),
    Send(Port::Midi, b"\x90", FAILED),
    Attach(Port::Midi, "no/such/folder", FAILED),
    Send(Port::Midi, b"\x90", Ok(())),
    Attach(Port::Osc, "127.0.0.1:9", Ok(())),
    Attach(Port::Osc, "no port", FAILED),
    Send(Port::Osc, b"hi", Ok(())),
    // Nobody listens at this address, and the system tells it to no send.
    Attach(Port::Udp, "127.0.0.1:9", Ok(())),
    Send(Port::Udp, b"", Ok(())),
    Send(Port::Udp, b"hi", Ok(())),
    Send(Port::Udp, b"hi", Ok(())),
];

#[test]
fn ports_of_the_system_answer(rt: HostRuntime) {
    let mut outs = RealOuts::new(&rt);
    check_calls(&rt, &mut outs, &CALLS);
    // No datagram has so many bytes.
    assert!(rt; outs.send(Port::Udp, &[0; 70_000]) == FAILED);
    assert!(rt; outs.sent() == 0);
}

#[test]
fn a_device_gets_a_byte_at_a_time(rt: HostRuntime) {
    let message = b"\x90\x30\x3f".as_slice();
    for (name, count) in &[("/dev/null", 1), ("rig_plain", 3)] {
        let mut options = OpenOptions::new();
        let file = options
            .write(true)
            .create(true)
            .open(&rt, *name)
            .expect(&rt, "a file");
        let gate = Gate::of_messages(&file).expect(&rt, "a gate");
        assert_eq!(rt; gate.piece_of(message).len(), *count);
    }
    fs::remove_file(&rt, "rig_plain").expect(&rt, "a removal");
}

/// A note starts, and it ends.
const START: [u8; 3] = [0x90, 0x30, 0x3f];

const END: [u8; 3] = [0x80, 0x30, 0];

/// Midi takes what it has room for, and then it misses an end.
fn miss_an_end<O: Outs>(rt: &impl Abort, outs: &mut O) {
    for _ in 0..100_000 {
        if outs.send(Port::Midi, &START).is_err() {
            break;
        }
    }
    assert!(rt; outs.send(Port::Midi, &END) == FAILED);
}

/// Reads what there is, up to these bytes.
fn read_up_to(rt: &impl Abort, from: &mut impl Read, last: &[u8]) {
    let mut bytes = [0; 70_000];
    let count = from.read(&mut bytes).expect(rt, "a read");
    assert!(rt; bytes[..count].ends_with(last));
}

#[test]
fn a_pipe_with_room_again_gets_the_end_that_it_missed(rt: HostRuntime) {
    let (mut reader, writer) = io::pipe(&rt).expect(&rt, "a pipe");
    let name = format!(in rt.alloc(); "/dev/fd/{}", writer.as_raw_fd()).expect(&rt, "memory");
    let mut outs = RealOuts::new(&rt);
    assert!(rt; outs.attach(Port::Midi, &name) == Ok(()));
    miss_an_end(&rt, &mut outs);
    read_up_to(&rt, &mut reader, &START);
    // A send to any port brings it.
    assert!(rt; outs.send(Port::View, b"") == Ok(()));
    read_up_to(&rt, &mut reader, &END);
    // So does the end of the run.
    miss_an_end(&rt, &mut outs);
    read_up_to(&rt, &mut reader, &START);
    drop(outs);
    read_up_to(&rt, &mut reader, &END);
}

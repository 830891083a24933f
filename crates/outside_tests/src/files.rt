use crate::tcp::{Room, make_outs};
use orca_base::limits::ARRIVAL_BYTES;
use orca_edge::RealInbox;
use orca_rig::{Answer, Inbox, OutsideFault};
use std::io;
use std::io::Write;
use std::net::{OpenListener, TcpListener};
use std::os::fd::AsRawFd;

#[test]
fn a_pipe_brings_its_bytes_and_its_end(rt: HostRuntime) {
    let outs = make_outs(&rt, rt.alloc());
    let (reader, mut writer) = io::pipe(&rt).expect(&rt, "a pipe");
    let name = format!(in rt.alloc(); "/dev/fd/{}", reader.as_raw_fd()).expect(&rt, "memory");
    let players = Vec::new(rt.alloc());
    let inbox = RealInbox::new(&rt);
    let mut room = Room { players, inbox };
    let start = room.inbox.listen_hands(&name, 1);
    assert!(rt; start == Ok(0));
    let sent = [b'x'; ARRIVAL_BYTES + 1];
    writer.write_all(&sent).expect(&rt, "a write");
    room.hear(&rt, &outs, None, Some((0, &sent[1..])));
    room.hear(&rt, &outs, None, Some((0, b"x")));
    room.hear(&rt, &outs, Some(1), None);
    drop(writer);
    assert!(rt; room.last(&outs) == Answer::End);
}

#[test]
fn a_file_is_one_hand_and_is_there(rt: HostRuntime) {
    for (name, hands) in &[
        ("/dev/null", 2),
        ("missing", 1),
        ("/no:where", 1),
        ("missing,127.0.0.1:0", 2),
        ("/dev/null,127.0.0.1:0", 1),
        ("/dev/null,no address", 2),
    ] {
        let mut inbox = RealInbox::new(&rt);
        let start = inbox.listen_hands(*name, *hands);
        assert!(rt; start == Err(OutsideFault::Failed), "{name}");
    }
}

#[test]
fn nothing_stays_open_if_the_address_is_taken(rt: HostRuntime) {
    let (reader, mut writer) = io::pipe(&rt).expect(&rt, "a pipe");
    let taken = TcpListener::bind(&rt, "127.0.0.1:0").expect(&rt, "a listener");
    let address = taken.local_addr().expect(&rt, "an address");
    let name = format!(in rt.alloc(); "/dev/fd/{},{address}", reader.as_raw_fd());
    let mut inbox = RealInbox::new(&rt);
    let start = inbox.listen_hands(&name.expect(&rt, "memory"), 2);
    assert!(rt; start == Err(OutsideFault::Failed));
    drop(reader);
    assert!(rt; writer.write(b"x").is_err());
}

ghost use Rattle.std.specs.Prelude.{◌≡◌, ◌<◌, true, false, length};
ghost use Rattle.std.specs.Option.{option_map_or};
ghost use Rattle.orca_base.specs.declared.limits.TheConstants.{MAX_HANDS};

use orca_base::limits::{ARRIVAL_BYTES, MAX_HANDS};
use orca_edge::RealInbox;
use orca_rig::{Answer, Inbox, MemInbox, MemOuts};
use std::alloc::Global;
use std::io;
use std::io::{PipeWriter, Read, Write};
use std::net::{Net, OpenListener, SocketAddr, TcpListener, TcpStream};
use std::os::fd::AsRawFd;
use std::process::Abort;
use std::rt::{Clock, Files};
use std::time::{Duration, Instant};

/// Outputs to which nothing is sent.
pub fn make_outs(rt: &impl Abort, alloc: Global) -> MemOuts {
    MemOuts::new(Vec::new(alloc)).expect(rt, "memory")
}

/// Where a player types.
#[derive(Drop)]
pub enum Player {
    Connection(TcpStream),
    Pipe(PipeWriter),
}

/// The players, hand 0 first, and the inbox that hears them.
#[derive(Drop)]
pub struct Room<'a, R: Net + Files> {
    pub players: Vec<Player>,
    pub inbox: RealInbox<'a, R>,
}

/// What happens in a room.
#[derive(Clone, Copy)]
enum Step {
    /// This hand sends the bytes.
    Send(usize, &'static [u8]),
    /// All go but the first so many.
    Leave(usize),
    /// A poll up to this moment, where there is one, answers these bytes of this hand, or a Due.
    Poll(Option<u64>, Option<(u8, &'static [u8])>),
}

use Step::{Leave, Poll, Send};

const STEPS: [Step; 28] = [
    // More than one arrival holds.
    Send(0, &[b'x'; ARRIVAL_BYTES + 1]),
    Poll(None, Some((0, &[b'x'; ARRIVAL_BYTES]))),
    Poll(None, Some((0, b"x"))),
    // All but hand 3 send, and nobody waits for it. The hand that was heard last comes last.
    Send(7, b"g"),
    Send(6, b"f"),
    Send(5, b"e"),
    Send(4, b"d"),
    Send(2, b"cc"),
    Send(1, b"b"),
    Send(0, b"a"),
    Poll(None, Some((1, b"b"))),
    Poll(None, Some((2, b"cc"))),
    Poll(None, Some((4, b"d"))),
    Poll(None, Some((5, b"e"))),
    Poll(None, Some((6, b"f"))),
    Poll(None, Some((7, b"g"))),
    Poll(None, Some((0, b"a"))),
    // A moment that has come is answered before bytes that have come, but not twice.
    Send(0, b"y"),
    Poll(Some(0), None),
    Poll(Some(0), Some((0, b"y"))),
    Poll(Some(100_000), None),
    // The others stay.
    Leave(7),
    Poll(Some(0), None),
    Send(3, b"z"),
    Poll(None, Some((3, b"z"))),
    // What was sent is read before the end.
    Send(6, b"last"),
    Leave(0),
    Poll(None, Some((6, b"last"))),
];

/// Players who connect, until there are as many as may be, and an inbox that has accepted them, by
/// this name.
fn seat<'a, R>(rt: &'a R, players: &mut Vec<Player>, name: &str) -> RealInbox<'a, R>
where
    R: AllocGlobal + Net<Stream = TcpStream> + Files + Clock + Abort,
    R::File: AsRawFd,
    R::Listener: AsRawFd,
    ensures open { result.ended ≡ false }
    ensures listened { result.listened ≡ true }
    ensures hands { option_map_or (λ opened. length opened.hands.items) result.hands 0
        ≡ MAX_HANDS }
{
    let listener = TcpListener::bind(rt, "127.0.0.1:0").expect(rt, "a listener");
    let address = listener.local_addr().expect(rt, "an address");
    for _ in players.len()..usize::from(MAX_HANDS) {
        let player = TcpStream::connect(rt, address).expect(rt, "a connection");
        players
            .push(Player::Connection(player))
            .expect(rt, "memory");
    }
    let mut inbox = RealInbox::over(rt, listener);
    let start = inbox.listen_hands(name, MAX_HANDS);
    assert!(rt; start == Ok(0));
    inbox
}

/// A room in which all type into connections.
fn open<R>(rt: &R) -> Room<'_, R>
where
    R: AllocGlobal + Net<Stream = TcpStream> + Files + Clock + Abort,
    R::File: AsRawFd,
    R::Listener: AsRawFd,
    ensures open { result.inbox.ended ≡ false }
    ensures listened { result.inbox.listened ≡ true }
    ensures hands { option_map_or (λ opened. length opened.hands.items) result.inbox.hands 0
        ≡ MAX_HANDS }
{
    let mut players = Vec::new(rt.alloc());
    let inbox = seat(rt, &mut players, "127.0.0.1:0");
    Room { players, inbox }
}

/// A room in which hand 0 types into a pipe, and the others into connections.
fn open_with_pipe<R>(rt: &R) -> Room<'_, R>
where
    R: AllocGlobal + Net<Stream = TcpStream> + Files + Clock + Abort,
    R::File: AsRawFd,
    R::Listener: AsRawFd,
    ensures open { result.inbox.ended ≡ false }
    ensures listened { result.inbox.listened ≡ true }
    ensures hands { option_map_or (λ opened. length opened.hands.items) result.inbox.hands 0
        ≡ MAX_HANDS }
{
    let (reader, writer) = io::pipe(rt).expect(rt, "a pipe");
    let name = format!(in rt.alloc(); "/dev/fd/{},127.0.0.1:0", reader.as_raw_fd());
    let mut players = Vec::new(rt.alloc());
    players.push(Player::Pipe(writer)).expect(rt, "memory");
    let inbox = seat(rt, &mut players, &name.expect(rt, "memory"));
    Room { players, inbox }
}

impl<R: AllocGlobal + Net<Stream = TcpStream> + Files + Clock> Room<'_, R>
where
    R::File: AsRawFd,
    R::Listener: AsRawFd,
{
    fn step(&mut self, rt: &impl Abort, outs: &MemOuts, step: Step)
        requires { self.old.inbox.ended ≡ false }
        ensures { self.new.inbox.ended ≡ false }
    {
        match step {
            Send(hand, bytes) => self.send(rt, hand, bytes),
            Leave(count) => self.players.truncate(count),
            Poll(until, wanted) => {
                self.hear(rt, outs, until, wanted);
            }
        }
    }

    /// The player of this hand sends the bytes.
    fn send(&mut self, rt: &impl Abort, hand: usize, bytes: &[u8])
        ensures { self.new.inbox ≡ self.old.inbox }
    {
        let sent = match self.players.get_mut(hand).expect(rt, "a player") {
            Player::Connection(stream) => stream.write_all(bytes),
            Player::Pipe(writer) => writer.write_all(bytes),
        };
        sent.expect(rt, "a write");
    }

    /// Polls, and looks at the answer: these bytes of this hand, or a Due where none are wanted. It
    /// gives the moment of the answer.
    pub fn hear(
        &mut self,
        rt: &impl Abort,
        outs: &MemOuts,
        until: Option<u64>,
        wanted: Option<(u8, &[u8])>,
    ) -> u64
        requires { self.old.inbox.ended ≡ false }
        ensures { self.new.inbox.ended ≡ false }
    {
        let mut bytes = [0u8; ARRIVAL_BYTES];
        match (self.inbox.poll(outs, until, &mut bytes), wanted) {
            (Answer::Bytes { hand, count, at }, Some((from, sent)))
                if hand == from && &bytes[..usize::from(count)] == sent => { at }
            (Answer::Due { at }, None) => at,
            (answer, _) => panic!(rt; "{answer:?} up to {until:?}"),
        }
    }

    /// What a poll answers that waits for no moment.
    pub fn last(&mut self, outs: &MemOuts) -> Answer
        requires { self.old.inbox.ended ≡ false }
    {
        self.inbox.poll(outs, None, &mut [0; ARRIVAL_BYTES])
    }
}

/// The steps, after which all have gone.
fn check_steps<R>(rt: &R, room: &mut Room<'_, R>)
where
    R: AllocGlobal + Net<Stream = TcpStream> + Files + Clock + Abort,
    R::File: AsRawFd,
    R::Listener: AsRawFd,
    requires { room.old.inbox.ended ≡ false }
{
    let outs = make_outs(rt, rt.alloc());
    for step in &STEPS {
        room.step(rt, &outs, *step);
    }
    assert!(rt; room.last(&outs) == Answer::End);
}

#[test]
fn bytes_and_moments_come_in_turn(rt: HostRuntime) {
    check_steps(&rt, &mut open(&rt));
    check_steps(&rt, &mut open_with_pipe(&rt));
}

#[test]
fn hands_that_flood_are_heard_in_turn(rt: HostRuntime) {
    let outs = make_outs(&rt, rt.alloc());
    let mut room = open_with_pipe(&rt);
    for hand in 0..MAX_HANDS {
        room.send(&rt, usize::from(hand), &[b'0' + hand; 4 * ARRIVAL_BYTES]);
    }
    for turn in 0..4 * MAX_HANDS {
        let hand = turn % MAX_HANDS;
        room.hear(
            &rt,
            &outs,
            None,
            Some((hand, &[b'0' + hand; ARRIVAL_BYTES])),
        );
    }
}

#[test]
fn twenty_moments_come_on_time(rt: HostRuntime) {
    // All hands are silent.
    let outs = make_outs(&rt, rt.alloc());
    let mut room = open(&rt);
    let start = Instant::now(&rt).expect(&rt, "a clock");
    let mut late = 0u8;
    for moment in 1..21u64 {
        let until = moment * 10_000;
        let at = room.hear(&rt, &outs, Some(until), None);
        // The limit leaves room for a machine that has much else to do.
        if at.saturating_sub(until) > 20_000 {
            late = late.saturating_add(1);
        }
    }
    let taken = start.elapsed(&rt).expect(&rt, "a clock");
    assert!(rt; late < 10, "{late} came late");
    assert!(rt; taken > Duration::from_millis(190) && taken < Duration::from_secs(20));
}

/// A hand is told the bytes, which is never refused.
fn tell<I: Inbox>(rt: &impl Abort, inbox: &mut I, hand: u8, bytes: &[u8])
    requires listened { I.listened inbox.old ≡ true }
    requires seated { hand < I.hand_count inbox.old }
    ensures listened { I.listened inbox.new ≡ true }
    ensures hands { I.hand_count inbox.new ≡ I.hand_count inbox.old }
    ensures ended { I.ended inbox.new ≡ I.ended inbox.old }
{
    assert!(rt; inbox.tell(hand, bytes) == Ok(()));
}

/// Reads what comes within a tenth of a second, and says how much of the buffer that has filled.
fn see(rt: &impl Abort, player: &mut Player, seen: &mut [u8; 65_536]) -> usize {
    match player {
        Player::Connection(stream) => {
            let patience = Some(Duration::from_millis(100));
            stream.set_read_timeout(patience).expect(rt, "a timeout");
            stream.read(seen).unwrap_or(0)
        }
        Player::Pipe(_) => 0,
    }
}

/// The player of this hand sees these bytes, and no more.
fn check_seen(rt: &impl Abort, players: &mut [Player], hand: usize, wanted: &[u8]) {
    let mut seen = [0; 65_536];
    let player = players.get_mut(hand).expect(rt, "a player");
    let count = see(rt, player, &mut seen);
    assert!(rt; seen.get(..count) == Some(wanted), "hand {hand}");
}

/// The player of this hand reads all that was sent so far.
fn catch_up(rt: &impl Abort, players: &mut [Player], hand: usize) {
    let mut seen = [0; 65_536];
    let player = players.get_mut(hand).expect(rt, "a player");
    for _ in 0..100_000 {
        if see(rt, player, &mut seen) == 0 {
            return;
        }
    }
}

#[test]
fn a_hand_is_told_over_its_connection(rt: HostRuntime) {
    let mut room = open_with_pipe(&rt);
    // A pipe has nowhere to show it.
    tell(&rt, &mut room.inbox, 0, b"zero");
    tell(&rt, &mut room.inbox, 1, b"one");
    tell(&rt, &mut room.inbox, 7, b"");
    tell(&rt, &mut room.inbox, 7, b"sev");
    tell(&rt, &mut room.inbox, 7, b"en");
    check_seen(&rt, &mut room.players, 1, b"one");
    check_seen(&rt, &mut room.players, 2, b"");
    check_seen(&rt, &mut room.players, 7, b"seven");
    // Of one that leaves nobody hears.
    room.players.truncate(7);
    tell(&rt, &mut room.inbox, 7, b"late");
    tell(&rt, &mut room.inbox, 7, b"later");
    tell(&rt, &mut room.inbox, 6, b"six");
    check_seen(&rt, &mut room.players, 6, b"six");
}

#[test]
fn a_hand_that_reads_slowly_holds_nobody_up(rt: HostRuntime) {
    let mut room = open(&rt);
    let start = Instant::now(&rt).expect(&rt, "a clock");
    // No connection has room for so many.
    let flood = vec![in rt.alloc(); b'x'; 16_000_000].expect(&rt, "memory");
    tell(&rt, &mut room.inbox, 1, &flood);
    tell(&rt, &mut room.inbox, 1, b"lost");
    tell(&rt, &mut room.inbox, 2, b"two");
    check_seen(&rt, &mut room.players, 2, b"two");
    let taken = start.elapsed(&rt).expect(&rt, "a clock");
    assert!(rt; taken < Duration::from_secs(10));
    // Once there is room again, what comes next begins anew.
    catch_up(&rt, &mut room.players, 1);
    tell(&rt, &mut room.inbox, 1, b"whole");
    check_seen(&rt, &mut room.players, 1, b"\x18\x1b[?1lwhole");
    tell(&rt, &mut room.inbox, 1, b"more");
    check_seen(&rt, &mut room.players, 1, b"more");
}

/// What the last poll answers once all have gone, and the connection of this hand was reset.
fn check_reset<R>(rt: &R, hand: u8, wanted: Answer)
where
    R: AllocGlobal + Net<Stream = TcpStream> + Files + Clock + Abort,
    R::File: AsRawFd,
    R::Listener: AsRawFd,
    requires { hand < MAX_HANDS }
{
    let outs = make_outs(rt, rt.alloc());
    let mut room = open(rt);
    // A connection that is closed before all was read is reset.
    tell(rt, &mut room.inbox, hand, b"unread");
    room.players.truncate(0);
    assert!(rt; room.last(&outs) == wanted, "hand {hand}");
}

#[test]
fn a_reset_is_a_failure_of_the_first_hand_alone(rt: HostRuntime) {
    check_reset(&rt, 0, Answer::Failed);
    check_reset(&rt, 1, Answer::End);
    check_reset(&rt, 7, Answer::End);
}

#[test]
fn an_inbox_in_memory_takes_what_is_told(rt: HostRuntime) {
    let alloc = rt.alloc();
    let made = MemInbox::new(0, Vec::new(alloc), Vec::new(alloc));
    let mut inbox = made.expect(&rt, "memory");
    assert!(rt; inbox.listen_hands("keys", 2) == Ok(0));
    assert!(rt; inbox.tell(1, b"one") == Ok(()));
    assert!(rt; inbox.tell(0, b"") == Ok(()));
}

/// Somebody connects to this address, and sends the bytes.
fn join<R: Net<Stream = TcpStream> + Abort>(
    rt: &R,
    address: SocketAddr,
    bytes: &[u8],
) -> TcpStream {
    let mut stream = TcpStream::connect(rt, address).expect(rt, "a connection");
    stream.write_all(bytes).expect(rt, "a write");
    stream
}

#[test]
fn a_web_page_is_no_player(rt: HostRuntime) {
    let outs = make_outs(&rt, rt.alloc());
    let listener = TcpListener::bind(&rt, "127.0.0.1:0").expect(&rt, "a listener");
    let address = listener.local_addr().expect(&rt, "an address");
    let page = join(&rt, address, b"POST / HTTP/1.1\r\n\r\nabc");
    let mut inbox = RealInbox::over(&rt, listener);
    assert!(rt; inbox.listen_hands("127.0.0.1:0", 1) == Ok(0));
    let players = vec![in rt.alloc(); Player::Connection(join(&rt, address, b"abc"))];
    let mut room = Room {
        players: players.expect(&rt, "memory"),
        inbox,
    };
    room.hear(&rt, &outs, None, Some((0, b"abc")));
    // Nobody else is let in, and the page is not either.
    assert!(rt; TcpStream::connect(&rt, address).is_err());
    drop(page);
    room.send(&rt, 0, b"d");
    room.hear(&rt, &outs, None, Some((0, b"d")));
}

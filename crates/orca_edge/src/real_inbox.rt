ghost use Rattle.std.specs.Prelude.{◌≡◌, ◌≢◌, ◌≤◌, ◌<◌, ◌+◌, ◌++◌, ◌∷◌, [], true, false, None, length, map, replicate, take, IsErr, IfOk, OnOk, OnErr, IfSome, IsErrOf, IsSomeAnd};
ghost use Rattle.std.specs.Io.{ReadsAtMost};
ghost use Rattle.std.specs.Option.{option_map, option_map_or};
ghost use Rattle.orca_rig.specs.Outside.{Rose, wants_after};
ghost use Rattle.orca_rig.specs.Arrived.{moment_after, is_ending, MayAnswer};
ghost use Rattle.orca_edge.specs.Heard.{is_moment, IsOfOne};
ghost use Rattle.orca_edge.specs.Names.{names_file, names_terminal, file_and_address, are_of_files, is_leashed, is_of_file, is_on_leash, is_vacant};
ghost use Rattle.orca_base.specs.declared.limits.TheConstants.{MAX_HANDS};

use crate::connection::Connection;
use crate::hands::{Hands, NONE, Shows, Sits, Wakes};
use crate::moments::{FOREVER, Watch, microseconds};
use crate::whole::{TRIES, status_of, unless_interrupted, unless_silent};
use libc::net::{POLLIN, poll};
use libc::types::pollfd;
use orca_base::Memory;
use orca_base::limits::{ARRIVAL_BYTES, MAX_HANDS};
use orca_rig::{Answer, Inbox, Misses, Outs, OutsideFault};
use std::io::{ErrorKind, Read};
use std::net::{Net, OpenListener, TcpListener, TcpStream};
use std::os::fd::{AsRawFd, RawFd};
use std::rt::Clock;
use std::{fs, io, rt};

/// The terminal of the program, whichever that is.
const TERMINAL: &str = "/dev/tty";

/// What whoever started the program tells it by.
const LEASH: &str = "/dev/stdin";

/// The descriptors of which any end is the end for all, where there are none.
const NO_ENDS: [RawFd; 2] = [NONE, NONE];

/// What a hand is heard over.
#[derive(Drop)]
enum Source<F> {
    /// Nothing: who had connected was no player, and was sent away. The next one may sit there.
    Vacant,
    Connection(Connection<TcpStream>),
    /// A terminal, a pipe, a device or a plain file.
    File(F),
    /// The terminal of the program, and the leash that whoever started it holds.
    Leashed(Leashed<F>),
}

/// A terminal and a leash.
#[derive(Drop)]
struct Leashed<F> {
    terminal: F,
    leash: F,
}

impl<F: Read> Leashed<F> {
    /// Reads what has come. The leash goes first, so its end is the end also where keys come
    /// without an end.
    fn hear(&mut self, bytes: &mut [u8]) -> io::Result<usize>
        ensures bound { ReadsAtMost result bytes.new }
        ensures one { IfOk result (λ count. IsOfOne (take count bytes.new)
            (F.remaining self.old.leash) (F.remaining self.new.leash)
            (F.remaining self.old.terminal) (F.remaining self.new.terminal)) }
    {
        match unless_silent(self.leash.read(bytes)) {
            Some(told) => told,
            None => self.terminal.read(bytes),
        }
    }
}

impl<F: Read + Drop> Read for Source<F> {
    fn read(&mut self, bytes: &mut [u8]) -> io::Result<usize> {
        match self {
            Source::Vacant => Err(io::Error::from(ErrorKind::WouldBlock)),
            Source::Connection(connection) => match connection.hear(bytes) {
                Some(read) => read,
                None => {
                    *self = Source::Vacant;
                    Err(io::Error::from(ErrorKind::WouldBlock))
                }
            },
            Source::File(file) => file.read(bytes),
            Source::Leashed(pair) => pair.hear(bytes),
        }
    }
}

impl<F> Sits for Source<F> {
    ghost free = { is_vacant };

    ghost leads = { is_leashed };

    fn is_free(&self) -> bool {
        match self {
            Source::Vacant => true,
            Source::Connection(_) | Source::File(_) | Source::Leashed(_) => false,
        }
    }

    fn leads(&self) -> bool {
        match self {
            Source::Leashed(_) => true,
            Source::Vacant | Source::Connection(_) | Source::File(_) => false,
        }
    }

    fn is_awaited(&self) -> bool {
        match self {
            Source::Vacant => true,
            Source::Connection(connection) => !connection.is_heard(),
            Source::File(_) | Source::Leashed(_) => false,
        }
    }
}

impl<F> Shows for Source<F> {
    /// A connection shows it. What comes from a file has nowhere to show it here.
    fn show(&mut self, bytes: &[u8]) {
        match self {
            Source::Connection(connection) => {
                // What was given up is told by what the next one begins with.
                let _ = connection.paint(bytes);
            }
            Source::Vacant | Source::File(_) | Source::Leashed(_) => {}
        }
    }
}

impl<F: AsRawFd> Wakes for Source<F> {
    fn wakers(&self) -> (RawFd, RawFd) {
        match self {
            Source::Vacant => (NONE, NONE),
            Source::Connection(connection) => (connection.stream.as_raw_fd(), NONE),
            Source::File(file) => (file.as_raw_fd(), NONE),
            Source::Leashed(pair) => (pair.terminal.as_raw_fd(), pair.leash.as_raw_fd()),
        }
    }
}

/// An inbox over what the name of `listen_hands` says: connections to an address, one for each
/// hand, or a file of keys, for one hand, or both. Moments are microseconds since all of them were
/// open, by the clock that does not go back. It tells no log.
///
/// A name with a `/`, and one without a `:`, is that of a file: a terminal, a pipe, a device or a
/// plain file. Any other is an address, `HOST:PORT`. A file is opened anew and for reading alone.
/// So a program that has it open already, as the shell of a terminal has, is left as it is.
///
/// To several hands a name can say both, `FILE,HOST:PORT`. The last comma parts them, and what is
/// before it names a file by the rule above. The file is hand 0. It is opened first, so that nobody
/// else can be that. To one hand a comma is a letter of the name.
///
/// A web page is no player: a browser sends the head of a request in one piece, so the first read
/// of its connection begins as one (`begins_as_http`). The bytes of that read are nobody's. A
/// browser may also connect ahead and be silent, so the door stays open until each connection has
/// given a byte.
///
/// The file `-` is the terminal of the program, `/dev/tty`, on a leash: the standard input is heard
/// as the same hand, before the terminal, and the end of either is the end for all hands. So whoever
/// starts the program can tell it the size of the window, and end it. `./-` is a file of that
/// name.
///
/// | what happens | what is answered |
/// |---|---|
/// | the address is malformed or taken, or its name stands for none | `listen_hands` fails |
/// | the file is missing or may not be read | `listen_hands` fails |
/// | there are several hands, and the name is that of a file alone | `listen_hands` fails |
/// | fewer connect than there are hands without a file | `listen_hands` waits |
/// | nobody has the pipe open for writing | `listen_hands` waits |
/// | the leash of `-` or the terminal ends while others are waited for | `listen_hands` fails |
/// | the first read of a connection begins as HTTP does | it is closed; the next is that hand |
/// | somebody else connects while a connection is silent | nothing, as long as it is |
/// | somebody else connects later | it is refused |
/// | a peer closes its end, also inside the bytes of a key | its bytes, and then no more of it |
/// | a pipe's last writer closes it, a plain file has been read, a terminal hangs up | the same |
/// | a peer resets its connection | no more of it; bytes that came before may be lost |
/// | a device is taken away, or a read of a terminal fails that another job has now | the same |
/// | the leash of `-` is closed, also by a kill, or its terminal ends | all count as gone |
/// | all have gone | [`Answer::End`], or [`Answer::Failed`] if that of hand 0 broke |
/// | a hand is told something | its connection gets that, but one that was closed, and no file |
/// | a connection has no room for all of it | the rest is dropped; what follows begins with CAN |
/// | nothing comes, or another program reads it first | a poll waits for its moment, or forever |
/// | a signal interrupts a wait or a read | it is tried again |
/// | the clock cannot be read, or the system refuses to wait for events | the call fails |
///
/// A poll waits for events of what is open until shortly before its moment, and takes no processor.
/// From there on it looks at the streams and sleeps, in turn, since the system ends a sleep nearer
/// to its time than a wait for events. So bytes that come shortly before the moment wait for the
/// end of a short sleep. The last sleep ends a little before the moment, since the system ends it
/// late, and from there on the poll looks without a rest.
///
/// Neither side can hold the other up: of a moment that has come and bytes that have come, a poll
/// answers the moment, and the next poll the bytes. Hands are heard in turn. No read waits, so a
/// hand that is silent makes neither a moment nor the bytes of another one late.
#[derive(Drop)]
pub struct RealInbox<'a, R: Net + rt::Files> {
    clock: Watch<'a, R>,
    /// What was bound before `listen_hands`; after it the door, as long as somebody is awaited.
    bound: Option<R::Listener>,
    hands: Option<Hands<Source<R::File>>>,
    /// The last answer was [`Answer::Due`].
    was_due: bool,
    listened: bool,
    ended: bool,
    misses: Misses,
}

impl<R> RealInbox<'_, R>
where
    R: AllocGlobal + Net<Stream = TcpStream> + rt::Files + Clock,
    R::File: AsRawFd,
    R::Listener: AsRawFd,
{
    /// An inbox that opens what its `listen_hands` names.
    pub fn new(rt: &R) -> RealInbox<'_, R>
        ensures listened { ⟦<RealInbox<'static, R> as Inbox>⟧.listened result ≡ false }
        ensures ended { ⟦<RealInbox<'static, R> as Inbox>⟧.ended result ≡ false }
        ensures faults { ⟦<RealInbox<'static, R> as Inbox>⟧.faults result ≡ 0 }
        ensures wants { ⟦<RealInbox<'static, R> as Inbox>⟧.wants result ≡ 0 }
    {
        let (origin, last) = (0, 0);
        RealInbox {
            clock: Watch { rt, origin, last },
            bound: None,
            hands: None,
            was_due: false,
            listened: false,
            ended: false,
            misses: Misses::none(),
        }
    }

    /// An inbox whose address is bound already. Where its `listen_hands` would listen at the
    /// address that the name says, it listens here, and accepts those who connected since then
    /// first.
    pub fn over(rt: &R, bound: R::Listener) -> RealInbox<'_, R>
        ensures listened { ⟦<RealInbox<'static, R> as Inbox>⟧.listened result ≡ false }
        ensures ended { ⟦<RealInbox<'static, R> as Inbox>⟧.ended result ≡ false }
        ensures faults { ⟦<RealInbox<'static, R> as Inbox>⟧.faults result ≡ 0 }
        ensures wants { ⟦<RealInbox<'static, R> as Inbox>⟧.wants result ≡ 0 }
    {
        let mut inbox = RealInbox::new(rt);
        inbox.bound = Some(bound);
        inbox
    }

    /// Opens so many hands, and starts the clock.
    fn open(&mut self, name: &str, hands: u8) -> Result<(), OutsideFault>
        ensures hands { OnOk result (IsSomeAnd self.new.hands (λ opened.
            length opened.hands.items ≡ hands)) }
        ensures files { OnOk result (IsSomeAnd self.new.hands (λ opened.
            map is_of_file opened.hands.items ≡ are_of_files hands name.now)) }
        ensures none { OnErr result (self.new.hands ≡ self.old.hands) }
        ensures last { self.new.clock.last ≡ self.old.clock.last }
        ensures listened { self.new.listened ≡ self.old.listened }
        ensures ended { self.new.ended ≡ self.old.ended }
        ensures misses { self.new.misses ≡ self.old.misses }
    {
        let rt = self.clock.rt;
        let mut opened = Hands::new(rt.alloc(), hands)?;
        self.bound = open_named(rt, self.bound.take(), name, hands, &mut opened)?;
        self.clock.origin = microseconds(rt.monotonic()?);
        self.hands = Some(opened);
        Ok(())
    }

    /// Waits for bytes or for the moment, and lets in who comes meanwhile while a seat is free.
    fn hear(&mut self, until: Option<u64>, bytes: &mut [u8; ARRIVAL_BYTES]) -> Answer
        ensures answer { MayAnswer until self.old.clock.last result }
        ensures hand_count { option_map_or (λ opened. length opened.hands.items) self.new.hands 0
            ≡ option_map_or (λ opened. length opened.hands.items) self.old.hands 0 }
        ensures clock { self.new.clock ≡ self.old.clock }
        ensures listened { self.new.listened ≡ self.old.listened }
        ensures misses { self.new.misses ≡ self.old.misses }
    {
        let Some(hands) = &mut self.hands else {
            return Answer::Failed;
        };
        let mut was_due = self.was_due;
        for _ in 0..TRIES {
            let door = door_of(&self.bound);
            let answer = hands.wait(&self.clock, was_due, until, door, bytes);
            see_to(&mut self.bound, hands);
            if let Some(answer) = answer {
                return answer;
            }
            // Each hand was read, and had nothing. So many who come hold no moment up.
            was_due = false;
        }
        Answer::Failed
    }

    /// Keeps what was answered.
    fn keep(&mut self, answer: Answer)
        ensures last { self.new.clock.last ≡ moment_after answer self.old.clock.last }
        ensures due { self.new.was_due ≡ is_moment answer }
        ensures ended { self.new.ended ≡ is_ending answer }
        ensures listened { self.new.listened ≡ self.old.listened }
        ensures hands { self.new.hands ≡ self.old.hands }
        ensures count { self.old.misses.faults ≤ self.new.misses.faults }
        ensures failed { answer ≡ Answer.Failed
            → Rose self.old.misses.faults self.new.misses.faults }
        ensures steady { answer ≢ Answer.Failed
            → self.new.misses.faults ≡ self.old.misses.faults }
        ensures wants { self.new.misses.wants ≡ self.old.misses.wants }
    {
        self.was_due = matches!(answer, Answer::Due { .. });
        self.ended = matches!(answer, Answer::End | Answer::Failed);
        match answer {
            Answer::Bytes { at, .. } | Answer::Due { at } => self.clock.last = at,
            Answer::Failed => {
                self.misses.faults = self.misses.faults.saturating_add(1);
            }
            Answer::End => {}
        }
    }
}

impl<R> Inbox for RealInbox<'_, R>
where
    R: AllocGlobal + Net<Stream = TcpStream> + rt::Files + Clock,
    R::File: AsRawFd,
    R::Listener: AsRawFd,
{
    ghost log = { λ _. None };

    ghost last = { λ i. i.clock.last };

    ghost listened = { λ i. i.listened };

    ghost hand_count = { λ i. option_map_or (λ opened. length opened.hands.items) i.hands 0 };

    ghost ended = { λ i. i.ended };

    ghost faults = { λ i. i.misses.faults };

    ghost wants = { λ i. i.misses.wants };

    /// Opens the file, where the name says one, and waits until as many have connected to the
    /// address as there are other hands. Then it accepts nobody else, but in the place of those who
    /// turn out to be no players. The moment of the start is 0.
    fn listen_hands(&mut self, name: &str, hands: u8) -> Result<u64, OutsideFault>
        requires fresh { self.old.listened ≡ false }
        requires some { 1 ≤ hands }
        requires few { hands ≤ MAX_HANDS }
        ensures moment { IfOk result (λ at. self.new.clock.last ≡ at) }
        ensures later { self.old.clock.last ≤ self.new.clock.last }
        ensures unanswered { OnErr result (self.new.clock.last ≡ self.old.clock.last) }
        ensures hand_count { OnOk result
            (option_map_or (λ opened. length opened.hands.items) self.new.hands 0 ≡ hands) }
        ensures listened { self.new.listened ≡ true }
        ensures ended { self.new.ended ≡ self.old.ended }
        ensures count { self.old.misses.faults ≤ self.new.misses.faults }
        ensures failed { IsErrOf result OutsideFault.Failed
            → Rose self.old.misses.faults self.new.misses.faults }
        ensures steady { OnOk result (self.new.misses.faults ≡ self.old.misses.faults) }
        ensures steady_memory { IsErrOf result OutsideFault.Memory
            → self.new.misses.faults ≡ self.old.misses.faults }
        ensures wants { self.new.misses.wants ≡ wants_after result self.old.misses.wants }

        ensures hands { OnOk result (IsSomeAnd self.new.hands (λ opened.
            length opened.hands.items ≡ hands)) }
        ensures files { OnOk result (IsSomeAnd self.new.hands (λ opened.
            map is_of_file opened.hands.items ≡ are_of_files hands name.now)) }
        ensures none { OnErr result (self.new.hands ≡ self.old.hands) }
    {
        self.listened = true;
        let opened = self.open(name, hands);
        self.misses.count(opened)?;
        Ok(self.clock.last)
    }

    /// A poll before `listen_hands`, one whose clock fails, and one that has taken 2^64 - 1 turns
    /// without an answer are failures.
    fn poll<O: Outs>(
        &mut self,
        outs: &O,
        until: Option<u64>,
        bytes: &mut [u8; ARRIVAL_BYTES],
    ) -> Answer {
        // What was sent is written down by an inbox that tells its log.
        let _ = outs;
        let answer = self.hear(until, bytes);
        self.keep(answer);
        answer
    }

    /// A connection gets the bytes, as far as it has room for them. It takes no memory.
    fn tell(&mut self, hand: u8, bytes: &[u8]) -> Result<(), Memory> {
        if let Some(hands) = &mut self.hands {
            hands.tell(hand, bytes);
        }
        Ok(())
    }
}

/// Whether a name is that of a file, and no address.
fn is_file_name(name: &str) -> bool
    ensures { result ≡ names_file name.now }
{
    let bytes = name.as_bytes();
    bytes.contains(&b'/') || !bytes.contains(&b':')
}

/// Whether a name is that of the terminal on a leash.
fn names_terminal(name: &str) -> bool
    ensures { result ≡ names_terminal name.now }
{
    name == "-"
}

/// The file of hand 0 and the address of the other hands, where the name says both.
fn file_and_address(name: &str, hands: u8) -> Option<(&str, &str)>
    ensures parts { option_map (λ parts. (parts.0.now, parts.1.now)) result
        ≡ file_and_address hands name.now }
    ensures several { IfSome result (λ _. 1 < hands) }
{
    if hands <= 1 {
        return None;
    }
    let Some((file, address)) = name.rsplit_once(',') else {
        return None;
    };
    if is_file_name(file) {
        Some((file, address))
    } else {
        None
    }
}

/// Opens what the name says, the file first. Connections come to what is bound already, where
/// something is.
fn open_named<R>(
    rt: &R,
    bound: Option<R::Listener>,
    name: &str,
    hands: u8,
    opened: &mut Hands<Source<R::File>>,
) -> Result<Option<R::Listener>, OutsideFault>
where
    R: AllocGlobal + Net<Stream = TcpStream> + rt::Files + Clock,
    R::File: AsRawFd,
    R::Listener: AsRawFd,
    ensures count { OnOk result (length opened.new.hands.items
        ≡ length opened.old.hands.items + hands) }
    ensures files { OnOk result (map is_of_file opened.new.hands.items
        ≡ map is_of_file opened.old.hands.items ++ are_of_files hands name.now) }
{
    if let Some((file, address)) = file_and_address(name, hands) {
        let ends = open_file(rt, file, 1, opened)?;
        let listener = listener_at(rt, bound, address)?;
        accept_all(&listener, ends, hands - 1, opened)?;
        listener.set_nonblocking(true)?;
        Ok(Some(listener))
    } else if is_file_name(name) {
        open_file(rt, name, hands, opened)?;
        Ok(None)
    } else {
        let listener = listener_at(rt, bound, name)?;
        accept_all(&listener, NO_ENDS, hands, opened)?;
        listener.set_nonblocking(true)?;
        Ok(Some(listener))
    }
}

/// Opens the file for the one hand that there may be, and gives the descriptors of which any end is
/// the end for all: those of a terminal and its leash. That a pipe is opened waits until somebody
/// has it open for writing.
fn open_file<R: rt::Files>(
    rt: &R,
    name: &str,
    hands: u8,
    opened: &mut Hands<Source<R::File>>,
) -> Result<[RawFd; 2], OutsideFault>
where
    R::File: AsRawFd,
    ensures alone { OnOk result (hands ≡ 1) }
    ensures one { OnOk result (length opened.new.hands.items
        ≡ length opened.old.hands.items + 1) }
    ensures file { OnOk result (map is_of_file opened.new.hands.items
        ≡ map is_of_file opened.old.hands.items ++ true ∷ []) }
    ensures leash { OnOk result (map is_on_leash opened.new.hands.items
        ≡ map is_on_leash opened.old.hands.items ++ names_terminal name.now ∷ []) }
{
    if hands != 1 {
        return Err(OutsideFault::Failed);
    }
    let source = if names_terminal(name) {
        Source::Leashed(Leashed {
            terminal: open_to_hear(rt, TERMINAL)?,
            leash: open_to_hear(rt, LEASH)?,
        })
    } else {
        Source::File(open_to_hear(rt, name)?)
    };
    let ends = ends_of(&source);
    opened.add(source)?;
    Ok(ends)
}

/// The descriptors of which any end is the end for all.
fn ends_of<F: AsRawFd>(source: &Source<F>) -> [RawFd; 2] {
    match source {
        Source::Vacant | Source::Connection(_) | Source::File(_) => NO_ENDS,
        Source::Leashed(pair) => [pair.terminal.as_raw_fd(), pair.leash.as_raw_fd()],
    }
}

/// Opens a file for reading, so that no read of it waits.
fn open_to_hear<R: rt::Files>(rt: &R, name: &str) -> io::Result<R::File>
where
    R::File: AsRawFd,
{
    let file = fs::open(rt, name)?;
    status_of(os::set_nonblocking(file.as_raw_fd(), true))?;
    Ok(file)
}

/// What is bound already, or else a listener at the address.
fn listener_at<R: Net>(
    rt: &R,
    bound: Option<R::Listener>,
    address: &str,
) -> io::Result<R::Listener> {
    match bound {
        Some(bound) => Ok(bound),
        None => TcpListener::bind(rt, address),
    }
}

/// Accepts so many connections, one after another. The end of one of these, if there are any, ends
/// that.
fn accept_all<L: OpenListener<Stream = TcpStream> + AsRawFd, F: Read + Drop>(
    listener: &L,
    ends: [RawFd; 2],
    hands: u8,
    opened: &mut Hands<Source<F>>,
) -> Result<(), OutsideFault>
    ensures count { OnOk result (length opened.new.hands.items
        ≡ length opened.old.hands.items + hands) }
    ensures connections { OnOk result (map is_of_file opened.new.hands.items
        ≡ map is_of_file opened.old.hands.items ++ replicate hands false) }
{
    for _hand in 0..hands {
        let stream = accept(listener, ends)?;
        make_prompt(&stream)?;
        opened.add(Source::Connection(Connection::new(stream)))?;
    }
    Ok(())
}

/// Makes a connection one of which no read and no write waits. A picture is to be seen at once, also
/// if the one before it was not taken yet.
fn make_prompt(stream: &TcpStream) -> io::Result<()> {
    stream.set_nonblocking(true)?;
    stream.set_nodelay(true)
}

/// The descriptor of the door, if it is open.
fn door_of<L: AsRawFd>(listener: &Option<L>) -> RawFd {
    match listener {
        Some(listener) => listener.as_raw_fd(),
        None => NONE,
    }
}

/// Lets in who is at the door while a seat is free. Once no seat can become free any more, or the
/// system lets nobody in, the door is closed: whoever comes later is refused.
fn see_to<L: OpenListener<Stream = TcpStream> + Drop, F: Read + Drop>(
    door: &mut Option<L>,
    hands: &mut Hands<Source<F>>,
)
    ensures { length hands.new.hands.items ≡ length hands.old.hands.items }
{
    let Some(listener) = &*door else {
        return;
    };
    let is_over = let_in(listener, hands).is_err();
    if is_over || !hands.is_awaited() {
        *door = None;
    }
}

/// Gives the lowest free seat to who is at the door, if anybody is.
fn let_in<L: OpenListener<Stream = TcpStream>, F: Read + Drop>(
    listener: &L,
    hands: &mut Hands<Source<F>>,
) -> io::Result<()>
    ensures { length hands.new.hands.items ≡ length hands.old.hands.items }
{
    let Some(seat) = hands.free() else {
        return Ok(());
    };
    match listener.accept() {
        Ok((stream, _)) => {
            if make_prompt(&stream).is_ok() {
                hands.seat(seat, Source::Connection(Connection::new(stream)));
            }
            Ok(())
        }
        Err(error) => match error.kind() {
            // Nobody is there, or has gone again.
            ErrorKind::WouldBlock | ErrorKind::Interrupted | ErrorKind::ConnectionAborted => Ok(()),
            _ => Err(error),
        },
    }
}

/// Accepts one connection.
fn accept<L: OpenListener + AsRawFd>(listener: &L, ends: [RawFd; 2]) -> io::Result<L::Stream> {
    for _ in 0..TRIES {
        if let Some(waited) = unless_interrupted(await_peer(listener.as_raw_fd(), ends)) {
            waited?;
            if let Some(accepted) = unless_interrupted(listener.accept()) {
                let (stream, _) = accepted?;
                return Ok(stream);
            }
        }
    }
    Err(io::Error::from(ErrorKind::TimedOut))
}

/// Waits until somebody connects. Whoever held the leash may let it go meanwhile, or the terminal
/// may hang up: then nobody is waited for any more.
fn await_peer(listener: RawFd, ends: [RawFd; 2]) -> io::Result<()> {
    let connects = pollfd {
        fd: listener,
        events: POLLIN,
        revents: 0,
    };
    // Of an end the system tells unasked.
    let end = pollfd {
        fd: NONE,
        events: 0,
        revents: 0,
    };
    let mut asked = [connects, end, end];
    asked[1].fd = ends[0];
    asked[2].fd = ends[1];
    status_of(poll(&mut asked, FOREVER))?;
    if asked[1].revents == 0 && asked[2].revents == 0 {
        Ok(())
    } else {
        Err(io::Error::from(ErrorKind::BrokenPipe))
    }
}

ghost use Rattle.std.specs.Prelude.{◌≡◌, ◌≢◌, ◌≤◌, ◌↔◌, ◌+◌, min, None, true, false, IsSome, IfSome, IsNone, IsOk, IfOk, OnOk, OnErr, IsErrAnd, IsErrOf, Option, Some, Ok};
ghost use Rattle.std.specs.Option.{option_map};
ghost use Rattle.std.specs.IoError.{error_kind};
ghost use Rattle.std.specs.declared.io.ErrorKind.TheVariants.{Interrupted};
ghost use Rattle.orca_edge.specs.Taken.{Takes, TakesEnds, TakesOrNot};

use crate::device::Device;
use crate::room::{Gate, Patience};
use crate::sinks::{Output, Sink};
use crate::whole::{TRIES, unless_interrupted};
use libc::{STDERR_FILENO, STDOUT_FILENO};
use orca_base::Port;
use orca_rig::{Misses, Outs, OutsideFault};
use std::fs::OpenOptions;
use std::io::ErrorKind;
use std::net::{Ipv4Addr, Ipv6Addr, Net, SocketAddr, ToSocketAddrs, UdpSocket};
use std::os::fd::AsRawFd;
use std::rt::Clock;
use std::{io, rt, str};

/// The ports of a running program. It tells nothing of what it was given.
///
/// | port | goes to |
/// |---|---|
/// | [`Port::Midi`] | the attached file or pipe, one write for each send; a device, byte by byte |
/// | [`Port::Udp`], [`Port::Osc`] | the attached address, one datagram for each send |
/// | [`Port::Text`], [`Port::View`] | the standard output, in pieces |
/// | [`Port::Fault`] | the standard error |
///
/// Midi, Udp and Osc drop their bytes while they are not attached. Nothing is kept back: when a
/// send returns, its bytes have left the program, or it has failed.
///
/// A send waits for room, but no longer than 250 milliseconds in all. Then it has failed, and its
/// port is stuck: no send waits there any more until the port shows room. It shows room by itself,
/// as when a pipe is read again.
///
/// | what is given up | what the peer gets |
/// |---|---|
/// | a MIDI message that ends a note | none of it, until there is room again |
/// | another MIDI message | none of it |
/// | a painting | its first pieces. The next one begins with CAN (ECMA-48) and `ESC [ ? 1 l` |
/// | a text | its first pieces |
/// | a datagram | none of it |
///
/// A note whose end was given up would sound on. So its Note Off is owed, also where the port
/// failed for another reason, as a pipe does that nobody reads. The ends that are owed go before
/// anything that is sent next, to whatever port, as soon as Midi takes them: those of the lowest
/// channel and key first. At the end of the run they are waited for once more, for half a second at
/// most. They are forgotten where Midi is attached to something else.
///
/// A device that is gone, as one that is unplugged, a terminal line that hung up and a pipe that
/// nobody reads, is opened anew by its name, at most once a second, until it is there again. That
/// makes no file, and a pipe is not waited for. The ends that are owed go first, as ever.
///
/// A device that shows room may have it for one byte alone, and would let a longer write wait. So
/// it may take the first bytes of a MIDI message and no more. The rest then goes before anything
/// else there. A painting may be given up inside an escape sequence, which CAN ends; and the
/// terminal may be another one once it takes something again, whose arrows `ESC [ ? 1 l` sets.
///
/// Some sinks can still make a write wait: a pipe into which somebody else writes in the same
/// moment, and a terminal of hardware that stops in the middle of a piece.
pub struct RealOuts<'a, R: rt::Files + Clock> {
    rt: &'a R,
    output: Output,
    errors: Gate,
    midi: Option<Sink<R::File>>,
    /// What Midi is attached to, if it is.
    device: Option<Device>,
    udp: Option<Peer>,
    osc: Option<Peer>,
    misses: Misses,
}

impl<R: rt::Files + Clock> Drop for RealOuts<'_, R> {
    /// The end of a run tries the ends once more that Midi is owed.
    fn drop(self) {
        let RealOuts {
            rt,
            output: _,
            errors: _,
            midi,
            device: _,
            udp: _,
            osc: _,
            misses: _,
        } = self;
        if let Some(mut sink) = midi {
            let _ = sink.send_last(&Patience::last(rt));
        }
    }
}

/// What datagrams go to, and whether there is room for them.
#[derive(Drop)]
struct Peer {
    lane: Lane,
    gate: Gate,
}

/// An address that datagrams are sent to, and the socket that they are sent from.
#[derive(Drop)]
struct Lane {
    socket: UdpSocket,
    address: SocketAddr,
}

impl<R: AllocGlobal + Print + Eprint + rt::Files + Net + Clock> RealOuts<'_, R>
where
    R::File: AsRawFd,
{
    /// The outputs that the runtime reaches. No port is attached.
    pub fn new(rt: &R) -> RealOuts<'_, R>
        ensures faults { ⟦<RealOuts<'static, R> as Outs>⟧.faults result ≡ 0 }
        ensures wants { ⟦<RealOuts<'static, R> as Outs>⟧.wants result ≡ 0 }
    {
        RealOuts {
            rt,
            output: Output::new(Gate::new(STDOUT_FILENO)),
            errors: Gate::new(STDERR_FILENO),
            midi: None,
            device: None,
            udp: None,
            osc: None,
            misses: Misses::none(),
        }
    }

    /// Attaches the port, in place of what it was attached to. After a fault it is unattached.
    fn connect(&mut self, port: Port, name: &str) -> Result<(), OutsideFault>
        ensures misses { self.new.misses ≡ self.old.misses }
        ensures midi { port ≡ Port.Midi → (IsSome self.new.midi ↔ IsOk result) }
        ensures udp { port ≡ Port.Udp → (IsSome self.new.udp ↔ IsOk result) }
        ensures osc { port ≡ Port.Osc → (IsSome self.new.osc ↔ IsOk result) }
        ensures midi_stays { port ≢ Port.Midi → self.new.midi ≡ self.old.midi }
        ensures udp_stays { port ≢ Port.Udp → self.new.udp ≡ self.old.udp }
        ensures osc_stays { port ≢ Port.Osc → self.new.osc ≡ self.old.osc }
    {
        match port {
            Port::Midi => {
                self.midi = None;
                self.device = None;
                let device = Device::new(String::from_str(self.rt.alloc(), name)?);
                self.midi = Some(open_sink(self.rt, name)?);
                self.device = Some(device);
            }
            Port::Udp => {
                self.udp = None;
                self.udp = Some(open_peer(self.rt, name)?);
            }
            Port::Osc => {
                self.osc = None;
                self.osc = Some(open_peer(self.rt, name)?);
            }
            Port::Text | Port::Fault | Port::View => return Err(OutsideFault::Failed),
        }
        Ok(())
    }

    /// Opens the device of Midi anew, if it is gone and has come back.
    fn return_to_device(&mut self)
        ensures misses { self.new.misses ≡ self.old.misses }
        ensures output { self.new.output ≡ self.old.output }
    {
        if let (Some(device), Some(sink)) = (&mut self.device, &mut self.midi) {
            device.return_to(self.rt, sink);
        }
    }

    /// Sends the bytes where the port goes. They are dropped where it is not attached. The ends of
    /// notes that Midi is owed go first.
    fn write(&mut self, port: Port, bytes: &[u8]) -> Result<(), OutsideFault>
        ensures misses { self.new.misses ≡ self.old.misses }
        ensures midi { port ≡ Port.Midi
            → OnOk result (Takes R.File.contents self.old.midi self.new.midi bytes.now) }
        ensures midi_whole { port ≡ Port.Midi
            → OnErr result (TakesOrNot R.File.contents self.old.midi self.new.midi bytes.now) }
        ensures midi_dropped { port ≡ Port.Midi → IsNone self.old.midi → IsOk result }
        ensures painted { port ≡ Port.View → OnOk result (self.new.output.is_torn ≡ false) }
        ensures torn { port ≡ Port.View → OnErr result (self.new.output.is_torn ≡ true) }
        ensures as_torn { port ≢ Port.View
            → self.new.output.is_torn ≡ self.old.output.is_torn }
        ensures waited { port ≡ Port.Fault → OnOk result (self.new.errors.is_stuck ≡ false) }
        ensures udp_dropped { port ≡ Port.Udp → IsNone self.old.udp → IsOk result }
        ensures osc_dropped { port ≡ Port.Osc → IsNone self.old.osc → IsOk result }
        ensures midi_ends { port ≢ Port.Midi
            → TakesEnds R.File.contents self.old.midi self.new.midi }
        ensures udp_stays { option_map (λ peer. peer.lane) self.new.udp
            ≡ option_map (λ peer. peer.lane) self.old.udp }
        ensures osc_stays { option_map (λ peer. peer.lane) self.new.osc
            ≡ option_map (λ peer. peer.lane) self.old.osc }
    {
        let rt = self.rt;
        let mut writer = io::writer(rt);
        if port != Port::Midi {
            send_ends(rt, &mut self.midi);
        }
        match port {
            Port::Text => self.output.print(&Patience::start(rt), &mut writer, bytes)?,
            Port::View => self.output.paint(&Patience::start(rt), &mut writer, bytes)?,
            Port::Fault => {
                self.errors.wait(&Patience::start(rt))?;
                print_fault(rt, bytes)?;
            }
            Port::Midi => {
                let done = write_midi(rt, &mut self.midi, bytes);
                if let Some(device) = &mut self.device {
                    device.note(&done);
                }
                done?
            }
            Port::Udp => send_to(rt, &mut self.udp, bytes)?,
            Port::Osc => send_to(rt, &mut self.osc, bytes)?,
        }
        Ok(())
    }
}

impl<R: AllocGlobal + Print + Eprint + rt::Files + Net + Clock> Outs for RealOuts<'_, R>
where
    R::File: AsRawFd,
{
    ghost handed = { λ _. None };

    ghost attached = { λ _. None };

    ghost sent = { λ _. 0 };

    ghost faults = { λ o. o.misses.faults };

    ghost wants = { λ o. o.misses.wants };

    /// Midi is attached to a file, a named pipe or a device file, which is opened for writing: a
    /// plain file is created or emptied. A pipe that nobody reads waits here until somebody does,
    /// as open(2) says. The name of a device that is missing becomes a plain file where its folder
    /// takes one, and is a failure elsewhere.
    ///
    /// Udp and Osc are attached to an address, `HOST:PORT`, with IPv6 in brackets. A name is looked
    /// up here, and the first of its addresses is taken. An address that is malformed is a failure,
    /// and so is a name that stands for none.
    ///
    /// The other ports cannot be attached: that is a failure. A failed attach leaves the port
    /// unattached, also where it was attached before.
    fn attach(&mut self, port: Port, name: &str) -> Result<(), OutsideFault> {
        let done = self.connect(port, name);
        self.misses.count(done)
    }

    /// Text for the standard error that is no UTF-8 is a failure. So are a datagram that was cut or is
    /// too long, a pipe whose reader has gone away, and a MIDI message of more than
    /// [`WIRE_BYTES`](orca_base::limits::WIRE_BYTES). A datagram that nobody takes is none, since the
    /// system does not tell.
    fn send(&mut self, port: Port, bytes: &[u8]) -> Result<(), OutsideFault> {
        self.return_to_device();
        let done = self.write(port, bytes);
        self.misses.count(done)
    }

    fn sent(&self) -> u64 {
        0
    }

    ghost sent_is_length = { λ outs pieces told fits. Prim.cc };
}

/// Opens a file, a named pipe or a device file for writing. A plain file is created or emptied.
fn open_sink<R: rt::Files>(rt: &R, name: &str) -> io::Result<Sink<R::File>>
where
    R::File: AsRawFd,
{
    let file = OpenOptions::new()
        .write(true)
        .create(true)
        .truncate(true)
        .open(rt, name)?;
    let gate = Gate::of_messages(&file)?;
    Ok(Sink::new(file, gate))
}

/// A socket of the family of the first address that the name stands for.
fn open_peer<R: Net>(rt: &R, name: &str) -> io::Result<Peer> {
    let address = first_of(name.to_socket_addrs(rt)?)?;
    let local = match address {
        SocketAddr::V4(_) => SocketAddr::from((Ipv4Addr::UNSPECIFIED, 0)),
        SocketAddr::V6(_) => SocketAddr::from((Ipv6Addr::UNSPECIFIED, 0)),
    };
    let socket = rt.bind_udp(local)?;
    let gate = Gate::new(socket.as_raw_fd());
    let lane = Lane { socket, address };
    Ok(Peer { lane, gate })
}

/// The first of the addresses.
fn first_of<I: Iterator<Item = SocketAddr>>(mut addresses: I) -> io::Result<SocketAddr>
    requires { I.can_next addresses }
    ensures { IfOk result (λ address. (rest : I) × I.next_gives addresses (Some address) rest) }
{
    match addresses.next() {
        Some(address) => Ok(address),
        None => Err(io::Error::from(ErrorKind::InvalidInput)),
    }
}

/// Hands out a message; it is dropped where there is no sink, and no clock is read for it.
fn write_midi<W: io::Write, C: Clock>(
    clock: &C,
    sink: &mut Option<Sink<W>>,
    bytes: &[u8],
) -> io::Result<()>
    ensures taken { OnOk result (Takes W.contents sink.old sink.new bytes.now) }
    ensures whole { OnErr result (TakesOrNot W.contents sink.old sink.new bytes.now) }
    ensures dropped { IsNone sink.old → IsOk result }
{
    match sink {
        Some(sink) => sink.write_message(&Patience::start(clock), bytes),
        None => Ok(()),
    }
}

/// Hands out the ends that are owed, as far as there is room for them.
fn send_ends<W: io::Write, C: Clock>(clock: &C, sink: &mut Option<Sink<W>>)
    ensures { TakesEnds W.contents sink.old sink.new }
{
    if let Some(sink) = sink {
        let _ = sink.send_ends(&Patience::start(clock));
    }
}

/// Sends one datagram; it is dropped where there is no peer, and no clock is read for it.
fn send_to<C: Clock>(clock: &C, peer: &mut Option<Peer>, bytes: &[u8]) -> io::Result<()>
    ensures dropped { IsNone peer.old → IsOk result }
    ensures waited { OnOk result (IfSome peer.new (λ peer. peer.gate.is_stuck ≡ false)) }
    ensures same { option_map (λ peer. peer.lane) peer.new
        ≡ option_map (λ peer. peer.lane) peer.old }
{
    let Some(Peer { lane, gate }) = peer else {
        return Ok(());
    };
    let patience = Patience::start(clock);
    for _ in 0..TRIES {
        gate.wait(&patience)?;
        if let Some(done) = outcome_of(lane.socket.send_to(bytes, lane.address), bytes.len()) {
            return done;
        }
    }
    Err(io::Error::from(ErrorKind::TimedOut))
}

/// What became of a datagram of so many bytes, if no signal interrupted its send: it has gone out
/// whole, or has failed.
fn outcome_of(sent: io::Result<usize>, length: usize) -> Option<io::Result<()>>
    ensures again { IsNone result ↔ IsErrAnd sent (λ error. error_kind error ≡ Interrupted) }
    ensures whole { result ≡ Some (Ok tt) ↔ sent ≡ Ok length }
{
    match unless_interrupted(sent)? {
        Ok(count) if count == length => Some(Ok(())),
        Ok(_) => Some(Err(io::Error::from(ErrorKind::WriteZero))),
        Err(error) => Some(Err(error)),
    }
}

/// Prints a line of text on the standard error, which takes text alone.
fn print_fault<R: Eprint>(rt: &R, bytes: &[u8]) -> io::Result<()> {
    match str::from_utf8(bytes) {
        Ok(text) => rt.eprint(text),
        Err(_) => Err(io::Error::from(ErrorKind::InvalidData)),
    }
}

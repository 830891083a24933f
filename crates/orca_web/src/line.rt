//! The line to a browser: a stream over which messages go to and fro.

ghost use Rattle.std.specs.Prelude.{◌≡◌, ◌≤◌, length, OnOk, OnErr, IfOk, IfSome};
ghost use Rattle.std.specs.Io.{ReadsAtMost};
ghost use Rattle.orca_web.specs.Frames.{data_header};

use crate::incoming::Incoming;
use crate::outgoing::Outgoing;
use crate::rest::Rest;
use std::alloc::Global;
use std::io;
use std::io::{ErrorKind, Read, Write};
use websocket::protocol::frame::FrameHeader;
use websocket::protocol::frame::coding::{Data, OpCode};

/// A stream of which no read and no write waits, what came over it, and what is still to be sent.
#[derive(Drop)]
pub struct Line<S> {
    pub stream: S,
    pub incoming: Incoming,
    pub outgoing: Outgoing,
}

impl<S> Line<S> {
    ghost use Rattle.std.specs.Prelude.{[]};
    ghost use Rattle.orca_web.specs.Wire.{IsIdle};

    /// A line whose handshake is done.
    pub fn new(alloc: Global, stream: S) -> Line<S>
        ensures stream { result.stream ≡ stream }
        ensures idle { IsIdle result.outgoing }
        ensures input { result.incoming.input ≡ [] }
        ensures keys { result.incoming.keys ≡ [] }
    {
        Line {
            stream,
            incoming: Incoming::new(alloc),
            outgoing: Outgoing::none(),
        }
    }
}

impl<S: Read + Write> Line<S> {
    ghost use Rattle.std.specs.Prelude.{ℕ, List, Bool, ◌++◌, ◌∷◌, []};
    ghost use Rattle.std.specs.Io.KnownBytes.{Appends, Keeps};
    ghost use Rattle.orca_web.specs.Wire.{IsIdle, held};
    ghost use Rattle.orca_web.specs.Frames.{Message, message, frame_of, framed, if_due};
    ghost use Rattle.orca_web.specs.Hearing.{Hears, given_bytes};

    /// Reads the keys that have come. It never waits. No byte is the end, as that of a read is.
    pub fn hear(&mut self, bytes: &mut [u8]) -> io::Result<usize>
        ensures bound { ReadsAtMost result bytes.new }
        ensures heard { (came : List ℕ)
            × Hears self.old.incoming self.new.incoming came (given_bytes result bytes.new) }
    {
        if !self.outgoing.reply.as_slice().is_empty() {
            if let Err(error) = self.flush() {
                return Err(error);
            }
        }
        let mut reply = Rest::none();
        let heard = self.incoming.hear(&mut self.stream, bytes, &mut reply);
        self.outgoing.reply = reply;
        heard
    }

    /// Sends what waits.
    pub fn flush(&mut self) -> io::Result<()>
        ensures idle { OnOk result (IsIdle self.new.outgoing) }
        ensures still { Keeps (held S.contents self.old.stream self.old.outgoing)
            (held S.contents self.new.stream self.new.outgoing) }
        ensures incoming { self.new.incoming ≡ self.old.incoming }
    {
        self.outgoing.flush(&mut self.stream)
    }

    /// Sends what waits, a message that is due, and then another: all of it, or the beginning of a
    /// message and CAN, or nothing. It never waits. What the peer has and is owed stays a row of
    /// whole frames.
    pub fn send_after(
        &mut self,
        kind: Data,
        is_due: bool,
        first: &[u8],
        bytes: &[u8],
    ) -> io::Result<()>
        ensures frames { (messages : List Message) × Appends
            (held S.contents self.old.stream self.old.outgoing)
            (held S.contents self.new.stream self.new.outgoing) (framed messages) }
        ensures whole { OnOk result (Appends
            (held S.contents self.old.stream self.old.outgoing)
            (held S.contents self.new.stream self.new.outgoing)
            (framed (if_due is_due (message kind first.now) ++ message kind bytes.now ∷ []))) }
        ensures incoming { self.new.incoming ≡ self.old.incoming }
    {
        self.flush()?;
        self.send_due(kind, is_due, first)?;
        self.send(kind, bytes)
    }

    /// Sends a message that is due.
    fn send_due(&mut self, kind: Data, is_due: bool, bytes: &[u8]) -> io::Result<()>
        requires idle { IsIdle self.old.outgoing }
        ensures idle { OnOk result (IsIdle self.new.outgoing) }
        ensures whole { OnOk result (Appends
            (held S.contents self.old.stream self.old.outgoing)
            (held S.contents self.new.stream self.new.outgoing)
            (framed (if_due is_due (message kind bytes.now)))) }
        ensures filled { OnErr result ((messages : List Message) × Appends
            (held S.contents self.old.stream self.old.outgoing)
            (held S.contents self.new.stream self.new.outgoing) (framed messages)) }
        ensures incoming { self.new.incoming ≡ self.old.incoming }
    {
        if is_due {
            self.send(kind, bytes)
        } else {
            Ok(())
        }
    }

    /// Sends a message.
    fn send(&mut self, kind: Data, bytes: &[u8]) -> io::Result<()>
        requires idle { IsIdle self.old.outgoing }
        ensures idle { OnOk result (IsIdle self.new.outgoing) }
        ensures whole { OnOk result (Appends
            (held S.contents self.old.stream self.old.outgoing)
            (held S.contents self.new.stream self.new.outgoing)
            (frame_of (message kind bytes.now))) }
        ensures filled { OnErr result ((messages : List Message) × Appends
            (held S.contents self.old.stream self.old.outgoing)
            (held S.contents self.new.stream self.new.outgoing) (framed messages)) }
        ensures incoming { self.new.incoming ≡ self.old.incoming }
    {
        if !self.incoming.reader.can_write() {
            return Err(io::Error::from(ErrorKind::BrokenPipe));
        }
        let Some(header) = header_of(kind, bytes.len()) else {
            return Err(io::Error::from(ErrorKind::OutOfMemory));
        };
        self.outgoing.begin(&mut self.stream, header, bytes)
    }
}

/// The header of the frame of a message of so many bytes.
fn header_of(kind: Data, length: usize) -> Option<Rest>
    ensures { IfSome result (λ header. header ≡ data_header kind length) }
{
    let mut header = Rest::none();
    let opcode = OpCode::Data(kind);
    match FrameHeader::new(opcode, None).format(length as u64, &mut header) {
        Ok(()) => Some(header),
        Err(_) => None,
    }
}

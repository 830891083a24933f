//! Sinks of bytes that may have no room: pieces, messages and paintings.

ghost use Rattle.std.specs.Prelude.{◌≡◌, ◌≤◌, ◌<◌, ◌⊎◌, [], true, false, length, IfOk, OnOk, OnErr};
ghost use Rattle.std.specs.Io.{WritesAtMost};
ghost use Rattle.std.specs.Io.KnownBytes.{Appends, WriteAppends};
ghost use Rattle.orca_base.specs.declared.limits.TheConstants.{WIRE_BYTES};
ghost use Rattle.orca_edge.specs.Owed.{OwesNone, IsFirst};
ghost use Rattle.orca_edge.specs.Taken.{HasToo, HasStill, HasEnds, HasInTurn, HasMissed, holdings, painting_after};

use crate::owed::{Owed, Voice};
use crate::room::{Gate, Patience};
use crate::whole::TRIES;
use midi_bytes::note_off;
use orca_base::Wire;
use orca_base::limits::WIRE_BYTES;
use std::io;
use std::io::{ErrorKind, Write};
use std::rt::Clock;

/// What goes before a painting if the last one was given up: CAN (ECMA-48), which ends an escape
/// sequence that was begun, and `ESC [ ? 1 l`, which resets the cursor key mode of a VT100, so that
/// the arrows send `ESC [ A` to `ESC [ D`. Another terminal may have been attached while nothing
/// was taken, and its arrows may send something else.
pub(crate) const FRESH_START: [u8; 6] = *b"\x18\x1b[?1l";

/// Writes the first of the bytes, once there is room: as many as one write takes, and one at least.
/// A write that was interrupted, or found no room after all, is tried again, and one that takes
/// nothing is a failure.
fn write_on<W: Write, C: Clock>(
    patience: &Patience<'_, C>,
    gate: &mut Gate,
    to: &mut W,
    bytes: &[u8],
) -> io::Result<usize>
    ensures bound { WritesAtMost result bytes.now }
    ensures bytes { WriteAppends (W.contents to.old) (W.contents to.new) result bytes.now }
    ensures some { IfOk result (λ count. 0 < count) }
{
    for _ in 0..TRIES {
        gate.wait(patience)?;
        match to.write(gate.piece_of(bytes)) {
            Ok(0) => break,
            Ok(count) => return Ok(count),
            Err(error) => {
                let error = gate.error_of(patience, error);
                if error.kind() != ErrorKind::Interrupted {
                    return Err(error);
                }
            }
        }
    }
    Err(io::Error::from(ErrorKind::WriteZero))
}

/// Writes all of the bytes, in pieces, and waits for room before each. It ends, since each write
/// takes a byte.
pub(crate) fn write_pieces<W: Write, C: Clock>(
    patience: &Patience<'_, C>,
    gate: &mut Gate,
    to: &mut W,
    bytes: &[u8],
) -> io::Result<()>
    ensures { OnOk result (Appends (W.contents to.old) (W.contents to.new) bytes.now) }
{
    let mut rest = bytes;
    while !rest.is_empty() {
        let count = write_on(patience, gate, to, rest)?;
        rest = &rest[count..];
    }
    Ok(())
}

/// A sink of messages, each of which it takes whole or not at all. Where it does not take one that
/// ends a note, that end is owed.
#[derive(Drop)]
pub(crate) struct Sink<W> {
    to: W,
    gate: Gate,
    /// The rest of a message that was begun. It goes before anything else.
    rest: Wire,
    /// The ends that go before the next message.
    owed: Owed,
}

impl<W: Write> Sink<W> {
    /// A sink that is owed nothing.
    pub(crate) fn new(to: W, gate: Gate) -> Sink<W>
        ensures held { holdings W.contents result ≡ W.contents to }
        ensures none { OwesNone result.owed.ends }
    {
        let rest = Wire::empty();
        let owed = Owed::none();
        Sink {
            to,
            gate,
            rest,
            owed,
        }
    }

    /// Hands out a message: whole, or not at all, but where the sink takes its first bytes and no
    /// more. The rest then goes before the next message. A message has at most [`WIRE_BYTES`].
    ///
    /// What was begun and the ends that are owed go first. So the end of a key that starts again
    /// goes before that start.
    pub(crate) fn write_message<C: Clock>(
        &mut self,
        patience: &Patience<'_, C>,
        bytes: &[u8],
    ) -> io::Result<()>
        ensures whole { OnOk result (self.new.rest ≡ []) }
        ensures handed { OnOk result
            (HasInTurn W.contents self.old self.new bytes.now) }
        ensures whole_or_not { OnErr result
            (HasMissed W.contents self.old self.new bytes.now
            ⊎ HasInTurn W.contents self.old self.new bytes.now) }
    {
        if let Err(error) = self.begin_in_turn(patience, bytes) {
            self.owed.miss(bytes);
            return Err(error);
        }
        self.finish(patience)?;
        Ok(())
    }

    /// Hands out what goes before a message, and then its first bytes.
    fn begin_in_turn<C: Clock>(
        &mut self,
        patience: &Patience<'_, C>,
        bytes: &[u8],
    ) -> io::Result<()>
        ensures begun { OnOk result (HasInTurn W.contents self.old self.new bytes.now) }
        ensures not { OnErr result (HasEnds W.contents self.old self.new) }
    {
        self.send_ends(patience)?;
        if bytes.len() > WIRE_BYTES {
            return Err(io::Error::from(ErrorKind::InvalidInput));
        }
        self.begin(patience, bytes)?;
        Ok(())
    }

    /// Hands out what was begun, and then the ends that are owed, one after another. It ends, since
    /// no end is owed twice.
    pub(crate) fn send_ends<C: Clock>(&mut self, patience: &Patience<'_, C>) -> io::Result<()>
        ensures sent { HasEnds W.contents self.old self.new }
        ensures whole { OnOk result (self.new.rest ≡ []) }
        ensures all { OnOk result (OwesNone self.new.owed.ends) }
    {
        self.finish(patience)?;
        for _ in 0..TRIES {
            let Some(voice) = self.owed.first() else {
                return Ok(());
            };
            self.send_end(patience, voice)?;
        }
        Err(io::Error::from(ErrorKind::TimedOut))
    }

    /// Hands out the end that goes first.
    fn send_end<C: Clock>(&mut self, patience: &Patience<'_, C>, voice: Voice) -> io::Result<()>
        requires none_begun { self.old.rest ≡ [] }
        requires first { IsFirst self.old.owed.ends voice }
        ensures sent { HasEnds W.contents self.old self.new }
        ensures whole { OnOk result (self.new.rest ≡ []) }
    {
        self.begin(patience, &note_off(voice.channel, voice.key))?;
        self.owed.pay(voice);
        self.finish(patience)?;
        Ok(())
    }

    /// The sink goes on at another place, which gets the ends that are owed. The rest of a message
    /// that was begun elsewhere goes nowhere.
    pub(crate) fn move_to(&mut self, to: W, gate: Gate)
    where
        W: Drop,
        ensures held { holdings W.contents self.new ≡ W.contents to }
        ensures owed { self.new.owed ≡ self.old.owed }
    {
        self.to = to;
        self.gate = gate;
        self.rest = Wire::empty();
    }

    /// What is owed is tried once more, also where the sink is stuck.
    pub(crate) fn send_last<C: Clock>(&mut self, patience: &Patience<'_, C>) -> io::Result<()>
        ensures sent { HasEnds W.contents self.old self.new }
        ensures all { OnOk result (OwesNone self.new.owed.ends) }
    {
        self.gate.retry();
        self.send_ends(patience)
    }

    /// Hands out the first bytes of a message, and keeps the rest.
    fn begin<C: Clock>(&mut self, patience: &Patience<'_, C>, bytes: &[u8]) -> io::Result<()>
        requires none_begun { self.old.rest ≡ [] }
        requires short { length bytes.now ≤ WIRE_BYTES }
        ensures begun { OnOk result
            (HasToo W.contents self.old self.new bytes.now) }
        ensures not { OnErr result
            (HasStill W.contents self.old self.new) }
        ensures owed { self.new.owed ≡ self.old.owed }
    {
        if bytes.is_empty() {
            return Ok(());
        }
        let count = write_on(patience, &mut self.gate, &mut self.to, bytes)?;
        self.rest = wire_of(&bytes[count..]);
        Ok(())
    }

    /// Hands out the rest of a message that was begun. It ends, since each write takes a byte.
    fn finish<C: Clock>(&mut self, patience: &Patience<'_, C>) -> io::Result<()>
        ensures same { HasStill W.contents self.old self.new }
        ensures whole { OnOk result (self.new.rest ≡ []) }
        ensures owed { self.new.owed ≡ self.old.owed }
    {
        while !self.rest.as_slice().is_empty() {
            let rest = self.rest;
            let count = write_on(patience, &mut self.gate, &mut self.to, rest.as_slice())?;
            self.rest = wire_of(&rest.as_slice()[count..]);
        }
        Ok(())
    }
}

/// The bytes as those of a message.
fn wire_of(bytes: &[u8]) -> Wire
    requires { length bytes.now ≤ WIRE_BYTES }
    ensures { result ≡ bytes.now }
{
    let mut wire = Wire::empty();
    wire.extend(bytes);
    wire
}

/// The standard output, which texts and paintings go to.
#[derive(Drop)]
pub(crate) struct Output {
    gate: Gate,
    /// The last painting was given up.
    is_torn: bool,
}

impl Output {
    /// An output on which no painting was given up.
    pub(crate) fn new(gate: Gate) -> Output
        ensures { result.is_torn ≡ false }
    {
        let is_torn = false;
        Output { gate, is_torn }
    }

    /// Writes a text.
    pub(crate) fn print<W: Write, C: Clock>(
        &mut self,
        patience: &Patience<'_, C>,
        to: &mut W,
        bytes: &[u8],
    ) -> io::Result<()>
        ensures printed { OnOk result (Appends (W.contents to.old) (W.contents to.new) bytes.now) }
        ensures torn { self.new.is_torn ≡ self.old.is_torn }
    {
        write_pieces(patience, &mut self.gate, to, bytes)
    }

    /// Writes a painting. One that is given up may end inside an escape sequence. The next one then
    /// begins with [`FRESH_START`], so that the terminal reads it from its first byte, and its
    /// arrows are read as arrows.
    pub(crate) fn paint<W: Write, C: Clock>(
        &mut self,
        patience: &Patience<'_, C>,
        to: &mut W,
        bytes: &[u8],
    ) -> io::Result<()>
        ensures painted { OnOk result (Appends (W.contents to.old) (W.contents to.new)
            (painting_after self.old.is_torn bytes.now)) }
        ensures whole { OnOk result (self.new.is_torn ≡ false) }
        ensures torn { OnErr result (self.new.is_torn ≡ true) }
    {
        let was_torn = self.is_torn;
        self.is_torn = true;
        if was_torn {
            write_pieces(patience, &mut self.gate, to, &FRESH_START)?;
        }
        write_pieces(patience, &mut self.gate, to, bytes)?;
        self.is_torn = false;
        Ok(())
    }
}

//! What is still to be sent to a hand, so that its peer gets whole frames, whatever it takes.

ghost use Rattle.std.specs.Prelude.{◌↔◌, IsTrue, ◌≡◌, ◌≤◌, ◌<◌, ◌-◌, ◌++◌, ℕ, [], length, take, replicate, MatchResult, OnOk, OnErr, IfOk};
ghost use Rattle.std.specs.Io.KnownBytes.{Appends, Keeps, WriteAppends, append_known};
ghost use Rattle.std.specs.Io.{WritesAtMost};
ghost use Rattle.orca_web.specs.Wire.{held, IsIdle, filling};

use crate::limits::FILL_BYTES;
use crate::rest::Rest;
use std::io;
use std::io::{ErrorKind, Write};

/// CAN (ECMA-48, 8.3.6), of which the rest of a message consists that was given up. It ends an
/// escape sequence that was begun.
const CANCEL: u8 = 0x18;

/// What is still to be sent, in this order.
#[derive(Drop)]
pub struct Outgoing {
    /// The rest of the header of a message that was begun.
    pub header: Rest,
    /// How many bytes that message still has. They are sent as CAN.
    pub owed: usize,
    /// The answer to a ping or a close.
    pub reply: Rest,
}

impl Outgoing {
    /// Nothing.
    pub fn none() -> Outgoing
        ensures { IsIdle result }
    {
        Outgoing {
            header: Rest::none(),
            owed: 0,
            reply: Rest::none(),
        }
    }

    /// Whether there is nothing.
    pub fn is_empty(&self) -> bool
        ensures { IsTrue result ↔ IsIdle self.now }
    {
        self.header.as_slice().is_empty() && self.owed == 0 && self.reply.as_slice().is_empty()
    }

    /// Sends what waits, as far as there is room.
    pub fn flush<W: Write>(&mut self, to: &mut W) -> io::Result<()>
        ensures still { Keeps (held W.contents to.old self.old) (held W.contents to.new self.new) }
        ensures empty { OnOk result (IsIdle self.new) }
    {
        self.flush_header(to)?;
        self.flush_fill(to)?;
        self.flush_reply(to)
    }

    fn flush_header<W: Write>(&mut self, to: &mut W) -> io::Result<()>
        ensures still { Keeps (held W.contents to.old self.old) (held W.contents to.new self.new) }
        ensures empty { OnOk result (self.new.header ≡ []) }
        ensures owed { self.new.owed ≡ self.old.owed }
        ensures reply { self.new.reply ≡ self.old.reply }
    {
        while !self.header.as_slice().is_empty() {
            let count = write_some(to, self.header.as_slice())?;
            self.header.sent(count);
        }
        Ok(())
    }

    fn flush_fill<W: Write>(&mut self, to: &mut W) -> io::Result<()>
        requires { self.old.header ≡ [] }
        ensures still { Keeps (held W.contents to.old self.old) (held W.contents to.new self.new) }
        ensures empty { OnOk result (self.new.owed ≡ 0) }
        ensures header { self.new.header ≡ [] }
        ensures reply { self.new.reply ≡ self.old.reply }
    {
        while self.owed > 0 {
            let count = write_fill(to, self.owed)?;
            self.owed -= count;
        }
        Ok(())
    }

    fn flush_reply<W: Write>(&mut self, to: &mut W) -> io::Result<()>
        requires header { self.old.header ≡ [] }
        requires owed { self.old.owed ≡ 0 }
        ensures still { Keeps (held W.contents to.old self.old) (held W.contents to.new self.new) }
        ensures empty { OnOk result (IsIdle self.new) }
    {
        while !self.reply.as_slice().is_empty() {
            let count = write_some(to, self.reply.as_slice())?;
            self.reply.sent(count);
        }
        Ok(())
    }

    /// Sends a header, and then these bytes. If they are given up, the rest of them is sent as CAN
    /// later.
    pub fn begin<W: Write>(&mut self, to: &mut W, header: Rest, payload: &[u8]) -> io::Result<()>
        requires { IsIdle self.old }
        ensures whole { OnOk result (Appends (held W.contents to.old self.old)
            (held W.contents to.new self.new) (header ++ payload.now)) }
        ensures empty { OnOk result (IsIdle self.new) }
        ensures filled { OnErr result ((count : ℕ) × (count ≤ length payload.now)
            × Appends (held W.contents to.old self.old) (held W.contents to.new self.new)
            (header ++ filling count payload.now)) }
    {
        self.header = header;
        self.owed = payload.len();
        self.flush_header(to)?;
        self.send_payload(to, payload)
    }

    fn send_payload<W: Write>(&mut self, to: &mut W, payload: &[u8]) -> io::Result<()>
        requires header { self.old.header ≡ [] }
        requires reply { self.old.reply ≡ [] }
        requires owed { self.old.owed ≡ length payload.now }
        ensures whole { OnOk result (Appends (W.contents to.old) (W.contents to.new) payload.now) }
        ensures empty { OnOk result (IsIdle self.new) }
        ensures filled { OnErr result ((count : ℕ) × (count ≤ length payload.now)
            × Appends (W.contents to.old) (held W.contents to.new self.new)
            (filling count payload.now)) }
    {
        let mut rest = payload;
        while !rest.is_empty() {
            let count = write_some(to, rest)?;
            rest = &rest[count..];
            self.owed = rest.len();
        }
        Ok(())
    }
}

/// Writes some of so many bytes that are CAN: one at least.
fn write_fill<W: Write>(to: &mut W, owed: usize) -> io::Result<usize>
    ensures few { IfOk result (λ count. count ≤ owed) }
    ensures some { IfOk result (λ count. 0 < count) }
    ensures bytes { MatchResult result
        (λ count. Appends (W.contents to.old) (W.contents to.new) (replicate count 24))
        (λ _. Keeps (W.contents to.old) (W.contents to.new)) }
{
    let fill = [CANCEL; FILL_BYTES];
    write_some(to, &fill[..owed.min(FILL_BYTES)])
}

/// Writes the first of the bytes: as many as one write takes, and one at least. A write that was
/// interrupted is tried again.
fn write_some<W: Write>(to: &mut W, bytes: &[u8]) -> io::Result<usize>
    ensures bound { WritesAtMost result bytes.now }
    ensures bytes { WriteAppends (W.contents to.old) (W.contents to.new) result bytes.now }
    ensures some { IfOk result (λ count. 0 < count) }
{
    for _ in 0..u64::MAX {
        match to.write(bytes) {
            Ok(0) => break,
            Ok(count) => return Ok(count),
            Err(error) if error.kind() == ErrorKind::Interrupted => {}
            Err(error) => return Err(error),
        }
    }
    Err(io::Error::from(ErrorKind::WriteZero))
}

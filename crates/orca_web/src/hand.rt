//! A browser as a hand: keys come in as messages, and pictures and sound go out as messages.

ghost use Rattle.std.specs.Prelude.{◌↔◌, IsFalse, ◌≡◌, ◌≤◌, length, true, false, OnOk, OnErr};
ghost use Rattle.std.specs.Io.{ReadsAtMost};
ghost use Rattle.hex.specs.Hex.{encode_lower};

use crate::limits::SOUND_BYTES;
use crate::line::Line;
use std::alloc::Global;
use std::io;
use std::io::{Read, Write};
use websocket::protocol::frame::coding::Data;

/// What goes before a picture if the last one was given up: CAN (ECMA-48, 8.3.6), and `ESC [ ? 1
/// l`, as to a terminal.
const FRESH_START: [u8; 6] = *b"\x18\x1b[?1l";

/// What goes before sound if some of it was given up: it ends all notes.
const SILENCE: [u8; 1] = *b"-";

/// A hand over a WebSocket of which no read and no write waits.
#[derive(Drop)]
pub struct WebHand<S> {
    pub line: Line<S>,
    /// The last picture was given up.
    pub is_torn: bool,
    /// Sound was given up.
    pub is_cut: bool,
}

impl<S> WebHand<S> {
    ghost use Rattle.orca_web.specs.Wire.{IsIdle};

    /// A hand whose handshake is done.
    pub fn new(alloc: Global, stream: S) -> WebHand<S>
        ensures stream { result.line.stream ≡ stream }
        ensures torn { result.is_torn ≡ false }
        ensures cut { result.is_cut ≡ false }
    {
        WebHand {
            line: Line::new(alloc, stream),
            is_torn: false,
            is_cut: false,
        }
    }

    /// Whether something waits to be sent.
    pub fn has_rest(&self) -> bool
        ensures { IsFalse result ↔ IsIdle self.now.line.outgoing }
    {
        !self.line.outgoing.is_empty()
    }
}

impl<S: Read + Write> WebHand<S> {
    ghost use Rattle.std.specs.Prelude.{ℕ, List};
    ghost use Rattle.std.specs.Io.KnownBytes.{Appends, Keeps};
    ghost use Rattle.orca_web.specs.Wire.{IsIdle, held};
    ghost use Rattle.orca_web.specs.Frames.{Message, framed, picture_messages, sound_messages};
    ghost use Rattle.orca_web.specs.Hearing.{Hears, given_bytes};

    /// Reads the keys that have come. It never waits. No byte is the end, as that of a read is.
    pub fn hear(&mut self, bytes: &mut [u8]) -> io::Result<usize>
        ensures bound { ReadsAtMost result bytes.new }
        ensures heard { (came : List ℕ)
            × Hears self.old.line.incoming self.new.line.incoming came
            (given_bytes result bytes.new) }
    {
        self.line.hear(bytes)
    }

    /// Sends what waits.
    pub fn flush(&mut self) -> io::Result<()>
        ensures idle { OnOk result (IsIdle self.new.line.outgoing) }
        ensures still { Keeps (held S.contents self.old.line.stream self.old.line.outgoing)
            (held S.contents self.new.line.stream self.new.line.outgoing) }
    {
        self.line.flush()
    }

    /// Shows a picture, as one message: all of it, or its beginning and CAN, or nothing. It never
    /// waits.
    pub fn show(&mut self, bytes: &[u8]) -> io::Result<()>
        ensures frames { (messages : List Message) × Appends
            (held S.contents self.old.line.stream self.old.line.outgoing)
            (held S.contents self.new.line.stream self.new.line.outgoing) (framed messages) }
        ensures whole { OnOk result (Appends
            (held S.contents self.old.line.stream self.old.line.outgoing)
            (held S.contents self.new.line.stream self.new.line.outgoing)
            (framed (picture_messages self.old.is_torn bytes.now))) }
        ensures not_torn { OnOk result (self.new.is_torn ≡ false) }
        ensures torn { OnErr result (self.new.is_torn ≡ true) }
        ensures cut { self.new.is_cut ≡ self.old.is_cut }
    {
        let was_torn = self.is_torn;
        self.is_torn = true;
        self.line
            .send_after(Data::Binary, was_torn, &FRESH_START, bytes)?;
        self.is_torn = false;
        Ok(())
    }

    /// Plays bytes of MIDI, as one message of their digits. It never waits: what is not taken is
    /// given up.
    pub fn play(&mut self, bytes: &[u8]) -> io::Result<()>
        requires { length bytes.now ≤ SOUND_BYTES }
        ensures frames { (messages : List Message) × Appends
            (held S.contents self.old.line.stream self.old.line.outgoing)
            (held S.contents self.new.line.stream self.new.line.outgoing) (framed messages) }
        ensures whole { OnOk result (Appends
            (held S.contents self.old.line.stream self.old.line.outgoing)
            (held S.contents self.new.line.stream self.new.line.outgoing)
            (framed (sound_messages self.old.is_cut bytes.now))) }
        ensures not_cut { OnOk result (self.new.is_cut ≡ false) }
        ensures cut { OnErr result (self.new.is_cut ≡ true) }
        ensures torn { self.new.is_torn ≡ self.old.is_torn }
    {
        let was_cut = self.is_cut;
        self.is_cut = true;
        let mut digits = [0; 2 * SOUND_BYTES];
        let digits = digits_of(bytes, &mut digits);
        self.line.send_after(Data::Text, was_cut, &SILENCE, digits)?;
        self.is_cut = false;
        Ok(())
    }
}

/// The hexadecimal digits of bytes, two each.
fn digits_of<'d>(bytes: &[u8], room: &'d mut [u8; 2 * SOUND_BYTES]) -> &'d [u8]
    requires { length bytes.now ≤ SOUND_BYTES }
    ensures { result.now ≡ encode_lower bytes.now }
{
    let end = 2 * bytes.len();
    let _ = hex::encode_to_slice(bytes, &mut room[..end]);
    &room[..end]
}

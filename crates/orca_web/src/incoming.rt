//! What comes from a browser: frames, and the keys in them.

ghost use Rattle.std.specs.Prelude.{◌≡◌, ◌≤◌, ◌<◌, ◌+◌, ◌++◌, [], ℕ, List, length, take, drop, min, true, false, IsTrue, Ok, OnOk, OnErr, IfOk, IfSome, option_map, MatchResult};
ghost use Rattle.std.specs.Io.{ReadsAtMost};
ghost use Rattle.std.specs.Io.KnownBytes.{Consumes, Keeps, ReadConsumes};
ghost use Rattle.orca_web.specs.Frames.{HasWholeHeader, IsReady, Message, TakesFrame, framed, keys_of};
ghost use Rattle.websocket.specs.Content.{IsReceivedInside, received_content};

use crate::limits::{FRAME_BYTES, FRAMES_A_READ, MAX_MESSAGE_BYTES};
use crate::rest::Rest;
use std::alloc::Global;
use std::io;
use std::io::{ErrorKind, Read};
use std::marker::Model;
use websocket::protocol::frame::FrameHeader;
use websocket::protocol::{
    FrameStatus, NoMask, Received, Role, Step, WebSocketConfig, WebSocketContext,
};

/// Bytes that wait: at most those of a frame.
#[derive(Drop)]
pub struct Waiting {
    bytes: [u8; FRAME_BYTES],
    end: usize,
}

impl Model for Waiting {
    ghost use Rattle.std.specs.Prelude.{ℕ, List, ◌≤◌, take, length};

    ghost Value = { List ℕ };

    ghost view = { λ w. take w.end w.bytes };

    ghost invariant = { λ w. w.end ≤ length w.bytes };
}

impl Waiting {
    /// These bytes.
    fn of(from: &[u8]) -> Waiting
        requires { length from.now ≤ FRAME_BYTES }
        ensures { result ≡ from.now }
    {
        let mut bytes = [0; FRAME_BYTES];
        let end = from.len();
        bytes[..end].copy_from_slice(from);
        Waiting { bytes, end }
    }

    /// The bytes.
    fn as_slice(&self) -> &[u8]
        ensures bytes { result.now ≡ self.now }
        ensures few { length result.now ≤ FRAME_BYTES }
    {
        &self.bytes[..self.end]
    }

    /// More bytes come after them.
    fn put(&mut self, more: &[u8])
        requires { length self.old + length more.now ≤ FRAME_BYTES }
        ensures { self.new ≡ self.old ++ more.now }
    {
        let end = self.end + more.len();
        self.bytes[self.end..end].copy_from_slice(more);
        self.end = end;
    }

    /// Reads what has come, as far as there is room.
    fn fill<R: Read>(&mut self, from: &mut R) -> io::Result<usize>
        ensures read { IfOk result (λ count. (came : List ℕ)
            × Consumes (R.remaining from.old) (R.remaining from.new) came
            × (self.new ≡ self.old ++ came)) }
        ensures failed { OnErr result (Keeps (R.remaining from.old) (R.remaining from.new)) }
        ensures kept { OnErr result (self.new ≡ self.old) }
    {
        let mut piece = [0; FRAME_BYTES];
        let room = FRAME_BYTES - self.as_slice().len();
        let count = from.read(&mut piece[..room])?;
        self.put(&piece[..count]);
        Ok(count)
    }

    /// Lets the first of them go.
    fn drop_front(&mut self, count: usize)
        requires { count ≤ length self.old }
        ensures { self.new ≡ drop count self.old }
    {
        *self = Waiting::of(&self.as_slice()[count..]);
    }

    /// Gives the first of them, as many as there is room for.
    fn give(&mut self, bytes: &mut [u8]) -> usize
        ensures count { result ≡ min (length bytes.old) (length self.old) }
        ensures bound { result ≤ length bytes.new }
        ensures given { self.old ≡ take result bytes.new ++ self.new }
    {
        let count = bytes.len().min(self.as_slice().len());
        bytes[..count].copy_from_slice(&self.as_slice()[..count]);
        self.drop_front(count);
        count
    }
}

/// What reads the frames that come.
#[derive(Drop)]
pub struct Reader {
    context: WebSocketContext,
    ghost ready: { IsReady context },
}

impl Reader {
    ghost use Rattle.websocket.specs.Connection.{can_read, can_write};

    fn new(alloc: Global) -> Reader {
        let limits = WebSocketConfig {
            max_message_size: Some(MAX_MESSAGE_BYTES),
            max_frame_size: Some(MAX_MESSAGE_BYTES),
            accept_unmasked_frames: false,
        };
        Reader {
            context: WebSocketContext::new(alloc, Role::Server, limits),
        }
    }

    /// Whether more messages may come.
    fn can_read(&self) -> bool
        ensures { result ≡ can_read self.now.context.state }
    {
        self.context.can_read()
    }

    /// Whether messages may be sent.
    pub fn can_write(&self) -> bool
        ensures { result ≡ can_write self.now.context.state }
    {
        self.context.can_write()
    }

    /// Reads the frame at the front, where all of it has come: gives its keys and its length. What
    /// it is to be answered is put into `reply`.
    fn read(&mut self, input: &[u8], reply: &mut Rest) -> io::Result<Option<(Waiting, usize)>>
        requires few { length input.now ≤ FRAME_BYTES }
        requires reply { reply.old ≡ [] }
        ensures frame { IfOk result (λ taken.
            IfSome taken (λ pair. TakesFrame input.now pair.1 pair.0)) }
        ensures reply { (messages : List Message) × (reply.new ≡ framed messages) }
    {
        if !has_whole_header(input)? {
            return Ok(None);
        }
        let mut bytes = [0; FRAME_BYTES];
        let bytes = &mut bytes[..input.len()];
        bytes.copy_from_slice(input);
        match self.context.read(bytes, reply, &mut NoMask) {
            Ok(FrameStatus::Partial(_)) => Ok(None),
            Ok(FrameStatus::Complete(step)) => {
                let keys = Waiting::of(keys_of(&step, bytes));
                Ok(Some((keys, step.consumed)))
            }
            Err(_) => Err(io::Error::from(ErrorKind::InvalidData)),
        }
    }
}

/// Whether the bytes begin with the header of a whole message. Fragments (RFC 6455, section 5.4)
/// are refused: they would take memory, and a message of keys is short.
fn has_whole_header(input: &[u8]) -> io::Result<bool>
    ensures { IfOk result (λ has. IsTrue has → HasWholeHeader input.now) }
{
    match FrameHeader::parse(input) {
        Ok(Some((header, _))) => {
            if header.is_final {
                Ok(true)
            } else {
                Err(io::Error::from(ErrorKind::InvalidData))
            }
        }
        Ok(None) => Ok(false),
        Err(_) => Err(io::Error::from(ErrorKind::InvalidData)),
    }
}

/// What comes over a WebSocket whose handshake is done.
#[derive(Drop)]
pub struct Incoming {
    pub reader: Reader,
    /// The bytes that came and were not looked at yet.
    pub input: Waiting,
    /// The keys of the last frame that were not given yet.
    pub keys: Waiting,
}

impl Incoming {
    ghost use Rattle.orca_web.specs.Hearing.{Hears, given_bytes};

    /// Nothing yet.
    pub fn new(alloc: Global) -> Incoming
        ensures input { result.input ≡ [] }
        ensures keys { result.keys ≡ [] }
    {
        Incoming {
            reader: Reader::new(alloc),
            input: Waiting::of(&[]),
            keys: Waiting::of(&[]),
        }
    }

    /// Reads the keys that have come, in their order: those in the binary frames, and no others. No
    /// byte is the end, as that of a read is. The answer to a ping or a close is the frame in
    /// `reply`, and after it nothing is looked at: a peer that does not read its answers is not
    /// heard meanwhile.
    pub fn hear<R: Read>(
        &mut self,
        from: &mut R,
        bytes: &mut [u8],
        reply: &mut Rest,
    ) -> io::Result<usize>
        requires { reply.old ≡ [] }
        ensures bound { ReadsAtMost result bytes.new }
        ensures waiting { 0 < length self.old.keys →
            result ≡ Ok (min (length bytes.old) (length self.old.keys)) }
        ensures heard { (came : List ℕ)
            × Consumes (R.remaining from.old) (R.remaining from.new) came
            × Hears self.old self.new came (given_bytes result bytes.new) }
        ensures reply { (messages : List Message) × (reply.new ≡ framed messages) }
    {
        match self.await_keys(from, reply) {
            Ok(true) => Ok(self.keys.give(bytes)),
            Ok(false) => Ok(0),
            Err(error) => Err(error),
        }
    }

    /// Reads until there are keys. Answers whether there are, and else it is the end.
    fn await_keys<R: Read>(&mut self, from: &mut R, reply: &mut Rest) -> io::Result<bool>
        requires { reply.old ≡ [] }
        ensures waiting { 0 < length self.old.keys →
            (result ≡ Ok true) × (self.new.keys ≡ self.old.keys) }
        ensures heard { (came : List ℕ)
            × Consumes (R.remaining from.old) (R.remaining from.new) came
            × Hears self.old self.new came [] }
        ensures reply { (messages : List Message) × (reply.new ≡ framed messages) }
    {
        if !self.keys.as_slice().is_empty() {
            return Ok(true);
        }
        for _ in 0..FRAMES_A_READ {
            if !reply.as_slice().is_empty() {
                break;
            }
            if !self.reader.can_read() {
                return Ok(false);
            }
            match self.advance(from, reply) {
                Ok(true) => {}
                Ok(false) => return Ok(false),
                Err(error) => return Err(error),
            }
            if !self.keys.as_slice().is_empty() {
                return Ok(true);
            }
        }
        // There may be more, of which no event of the connection tells.
        Err(io::Error::from(ErrorKind::Interrupted))
    }

    /// Takes the frame at the front, or reads what has come. Answers whether it is not the end.
    fn advance<R: Read>(&mut self, from: &mut R, reply: &mut Rest) -> io::Result<bool>
        requires keys { self.old.keys ≡ [] }
        requires reply { reply.old ≡ [] }
        ensures heard { (came : List ℕ)
            × Consumes (R.remaining from.old) (R.remaining from.new) came
            × Hears self.old self.new came [] }
        ensures reply { (messages : List Message) × (reply.new ≡ framed messages) }
    {
        if self.take_frame(reply)? {
            return Ok(true);
        }
        let count = self.input.fill(from)?;
        Ok(count > 0)
    }

    /// Takes the frame at the front, where all of it has come.
    fn take_frame(&mut self, reply: &mut Rest) -> io::Result<bool>
        requires keys { self.old.keys ≡ [] }
        requires reply { reply.old ≡ [] }
        ensures frame { IfOk result (λ is_taken. IsTrue is_taken →
            (count : ℕ) × TakesFrame self.old.input count self.new.keys
            × (self.new.input ≡ drop count self.old.input)) }
        ensures kept { IfOk result (λ is_taken. is_taken ≡ false →
            (self.new.input ≡ self.old.input) × (self.new.keys ≡ [])) }
        ensures failed { OnErr result
            ((self.new.input ≡ self.old.input) × (self.new.keys ≡ [])) }
        ensures reply { (messages : List Message) × (reply.new ≡ framed messages) }
    {
        match self.reader.read(self.input.as_slice(), reply)? {
            None => Ok(false),
            Some((keys, count)) => {
                self.keys = keys;
                self.input.drop_front(count);
                Ok(true)
            }
        }
    }
}

/// The keys of a message.
fn keys_of<'b>(step: &'b Step, input: &'b [u8]) -> &'b [u8]
    requires { IfSome step.now.message (IsReceivedInside input.now) }
    ensures { result.now ≡ keys_of (option_map (received_content input.now) step.now.message) }
{
    match &step.message {
        Some(Received::Binary(payload)) => payload.of(input),
        _ => &[],
    }
}

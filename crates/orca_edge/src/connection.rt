//! A connection from which the keys of a hand come, and to which its pictures go.

ghost use Rattle.std.specs.Prelude.{◌≡◌, ◌<◌, true, false, take, IfOk, IfSome, IsNone, OnOk, OnErr};
ghost use Rattle.std.specs.Io.{ReadsAtMost};
ghost use Rattle.std.specs.Io.KnownBytes.{Appends, Consumes};
ghost use Rattle.orca_edge.specs.Http.{begins_as_http, IsRequest};
ghost use Rattle.orca_edge.specs.Taken.{painting_after};

use crate::http::begins_as_http;
use crate::sinks::FRESH_START;
use crate::whole::write_whole;
use std::io;
use std::io::{Read, Write};

/// A connection of which no read and no write waits.
#[derive(Drop)]
pub(crate) struct Connection<S> {
    pub stream: S,
    /// The last painting was given up.
    is_torn: bool,
    /// It has given a byte.
    is_heard: bool,
}

impl<S> Connection<S> {
    /// A connection that has given no byte, and on which no painting was given up.
    pub(crate) fn new(stream: S) -> Connection<S>
        ensures { result ≡ record { stream = stream; is_torn = false; is_heard = false } }
    {
        Connection {
            stream,
            is_torn: false,
            is_heard: false,
        }
    }

    /// Whether it has given a byte.
    pub(crate) fn is_heard(&self) -> bool
        ensures { result ≡ self.now.is_heard }
    {
        self.is_heard
    }
}

impl<S: Read> Connection<S> {
    /// Reads what has come; none if its first bytes begin as a request of HTTP does. Then it is no
    /// player's, and these bytes are nobody's.
    pub(crate) fn hear(&mut self, bytes: &mut [u8]) -> Option<io::Result<usize>>
        ensures bound { IfSome result (λ read. ReadsAtMost read bytes.new) }
        ensures given { IfSome result (λ read. IfOk read (λ count. Consumes
            (S.remaining self.old.stream) (S.remaining self.new.stream) (take count bytes.new))) }
        ensures player { self.old.is_heard ≡ false → IfSome result (λ read. IfOk read (λ count.
            begins_as_http (take count bytes.new) ≡ false)) }
        ensures request { IsNone result → IsRequest self.old.is_heard
            (S.remaining self.old.stream) (S.remaining self.new.stream) }
        ensures heard { IfSome result (λ read. IfOk read (λ count. 0 < count
            → self.new.is_heard ≡ true)) }
    {
        let read = self.stream.read(bytes);
        if let Ok(count) = &read {
            if !self.is_heard && begins_as_http(&bytes[..*count]) {
                return None;
            }
            self.is_heard = self.is_heard || *count > 0;
        }
        Some(read)
    }
}

impl<S: Write> Connection<S> {
    /// Writes a painting, as far as there is room. One that is given up may end inside an escape
    /// sequence, so the next one then begins with [`FRESH_START`].
    pub(crate) fn paint(&mut self, bytes: &[u8]) -> io::Result<()>
        ensures painted { OnOk result (Appends (S.contents self.old.stream)
            (S.contents self.new.stream) (painting_after self.old.is_torn bytes.now)) }
        ensures whole { OnOk result (self.new.is_torn ≡ false) }
        ensures torn { OnErr result (self.new.is_torn ≡ true) }
    {
        let was_torn = self.is_torn;
        self.is_torn = true;
        if was_torn {
            write_whole(&mut self.stream, &FRESH_START)?;
        }
        write_whole(&mut self.stream, bytes)?;
        self.is_torn = false;
        Ok(())
    }
}

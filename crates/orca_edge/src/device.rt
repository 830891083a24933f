//! A device or a pipe of MIDI that is gone, and comes back.

ghost use Rattle.std.specs.Prelude.{◌≡◌, false, IfOk, OnOk};

use crate::moments::microseconds;
use crate::room::Gate;
use crate::saving::open_at_once;
use crate::sinks::Sink;
use libc::net::poll;
use libc::types::pollfd;
use libc::{EIO, EPIPE};
use std::io::{ErrorKind, Write};
use std::os::fd::{AsRawFd, RawFd};
use std::os::unix::fs::FileTypeExt;
use std::rt::Clock;
use std::{fs, io, rt};

/// No such device or address (errno(3)).
const ENXIO: i32 = 6;

/// No such device.
const ENODEV: i32 = 19;

/// The other end was shut down.
const ESHUTDOWN: i32 = 108;

/// How long after a try to open a device anew the next one comes, in microseconds.
const PAUSE: u64 = 1_000_000;

/// What Midi is attached to, by its name, and whether it is gone.
#[derive(Drop)]
pub(crate) struct Device {
    name: String,
    is_gone: bool,
    /// When it was last tried to open it anew, in microseconds.
    tried: u64,
}

impl Device {
    /// One that was just opened.
    pub(crate) fn new(name: String) -> Device
        ensures { result.is_gone ≡ false }
    {
        Device {
            name,
            is_gone: false,
            tried: 0,
        }
    }

    /// Keeps what a message for it came to.
    pub(crate) fn note(&mut self, done: &io::Result<()>)
        ensures { OnOk done.now (self.new.is_gone ≡ false) }
    {
        match done {
            Ok(()) => self.is_gone = false,
            Err(error) => self.is_gone = self.is_gone || is_of_device(error),
        }
    }

    /// Whether it is to be opened anew now: it is gone, and the last try was a second ago. Each try
    /// is kept.
    fn is_due<C: Clock>(&mut self, clock: &C) -> bool {
        if !self.is_gone {
            return false;
        }
        let Ok(shown) = clock.monotonic() else {
            return false;
        };
        let now = microseconds(shown);
        let is_due = self.tried == 0 || now.saturating_sub(self.tried) >= PAUSE;
        if is_due {
            self.tried = now;
        }
        is_due
    }

    /// Opens it anew, if it is gone and has come back, and lets the sink go on there: the ends that
    /// are owed go first.
    pub(crate) fn return_to<R: rt::Files + Clock>(&mut self, rt: &R, sink: &mut Sink<R::File>)
    where
        R::File: Write + AsRawFd,
    {
        if !self.is_due(rt) {
            return;
        }
        if let Ok(file) = open_again(rt, self.name.as_str()) {
            if let Ok(gate) = Gate::of_messages(&file) {
                sink.move_to(file, gate);
                self.is_gone = false;
            }
        }
    }
}

/// Whether the error says that a device or the reader of a pipe is gone: a terminal line hung up, a
/// device was taken away, a connection of a device ended, or nobody reads the pipe.
fn is_of_device(error: &io::Error) -> bool {
    match error.raw_os_error() {
        Some(code) => {
            code == EIO || code == EPIPE || code == ENXIO || code == ENODEV || code == ESHUTDOWN
        }
        None => false,
    }
}

/// Opens the device or the pipe of that name for writing. It makes no file and empties none: a plain
/// file would be written over from its start. A pipe that nobody reads is not waited for.
fn open_again<R: rt::Files>(rt: &R, name: &str) -> io::Result<R::File>
where
    R::File: AsRawFd,
{
    let kind = fs::metadata(rt, name)?.file_type();
    if !kind.is_char_device() && !kind.is_fifo() {
        return Err(io::Error::from(ErrorKind::NotFound));
    }
    let file = open_at_once(rt, name)?;
    if has_hung_up(file.as_raw_fd()) {
        return Err(io::Error::from(ErrorKind::BrokenPipe));
    }
    Ok(file)
}

/// Whether nobody is at the other end. The system tells of that unasked.
fn has_hung_up(fd: RawFd) -> bool {
    let mut asked = [pollfd {
        fd,
        events: 0,
        revents: 0,
    }];
    poll(&mut asked, 0) > 0
}

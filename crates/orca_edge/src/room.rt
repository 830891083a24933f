//! How long a send waits for room.

ghost use Rattle.std.specs.Prelude.{◌≡◌, ◌≢◌, ◌<◌, ◌⊎◌, ◌-◌, ◌/◌, true, false, if◌then◌else◌, length, take, min, IfOk, OnOk, OnErr};
ghost use Rattle.std.specs.IoError.{error_kind};
ghost use Rattle.std.specs.declared.io.ErrorKind.TheVariants.{Interrupted, WouldBlock};

use crate::moments::microseconds;
use crate::whole::TRIES;
use libc::isatty;
use libc::net::{POLLOUT, poll};
use libc::types::pollfd;
use std::fs::OpenFile;
use std::io::ErrorKind;
use std::os::fd::{AsRawFd, RawFd};
use std::os::unix::fs::FileTypeExt;
use std::rt::Clock;
use std::time::Duration;
use std::{io, thread};

/// The longest that a send waits for room, in milliseconds.
pub const LONGEST_WAIT: u16 = 250;

/// The longest that the end of a run waits for room, in milliseconds.
const LAST_WAIT: u16 = 500;

/// How long a send rests whose sink showed room, but would have waited, in milliseconds.
const REST: u64 = 1;

/// The most bytes of one write at a terminal. One that shows room takes them all at once, also
/// where each byte stands for two.
const TERMINAL_PIECE: usize = 128;

/// The most bytes of one write elsewhere. A pipe that shows room takes them all at once (pipe(7),
/// `PIPE_BUF`).
const PIPE_PIECE: usize = 4096;

/// The most bytes of one write at a device that messages go to. One that shows room may have it for
/// a single byte, and would let a longer write wait.
const DEVICE_PIECE: usize = 1;

/// A sink's descriptor, and how the sink stands.
#[derive(Drop)]
pub struct Gate {
    fd: RawFd,
    /// The most bytes of one write.
    most: usize,
    /// The last send has waited in vain. The next ones do not wait, until the sink shows room.
    is_stuck: bool,
}

/// How long a send waits for room, in milliseconds, its clock, and when it began, in microseconds.
#[derive(Drop)]
pub struct Patience<'a, C> {
    clock: &'a C,
    began: u64,
    longest: u16,
}

impl<C: Clock> Patience<'_, C> {
    /// The patience of a send that begins now.
    pub fn start(clock: &C) -> Patience<'_, C>
        ensures { result.longest ≡ LONGEST_WAIT }
    {
        let began = shown(clock).unwrap_or(0);
        let longest = LONGEST_WAIT;
        Patience {
            clock,
            began,
            longest,
        }
    }

    /// The patience of the end of a run.
    pub(crate) fn last(clock: &C) -> Patience<'_, C>
        ensures { result.longest ≡ LAST_WAIT }
    {
        let mut patience = Patience::start(clock);
        patience.longest = LAST_WAIT;
        patience
    }

    /// How long the send may still wait, in milliseconds: not at all if the clock cannot be read.
    fn left(&self) -> u16 {
        match shown(self.clock) {
            Ok(now) => left_of(self.longest, self.began, now),
            Err(_) => 0,
        }
    }
}

impl Gate {
    /// The sink of this descriptor, which is not stuck.
    pub fn new(fd: RawFd) -> Gate
        ensures open { result.is_stuck ≡ false }
        ensures some { 0 < result.most }
    {
        let most = if isatty(fd) == 1 {
            TERMINAL_PIECE
        } else {
            PIPE_PIECE
        };
        let is_stuck = false;
        Gate { fd, most, is_stuck }
    }

    /// The sink of messages that this file is, which is not stuck. A device gets a byte at a time.
    pub fn of_messages<F: OpenFile + AsRawFd>(file: &F) -> io::Result<Gate>
        ensures open { IfOk result (λ gate. gate.is_stuck ≡ false) }
        ensures some { IfOk result (λ gate. 0 < gate.most) }
    {
        let mut gate = Gate::new(file.as_raw_fd());
        if file.metadata()?.file_type().is_char_device() {
            gate.most = DEVICE_PIECE;
        }
        Ok(gate)
    }

    /// The first piece of the bytes: as many as one write may have.
    pub fn piece_of<'a>(&self, bytes: &'a [u8]) -> &'a [u8]
        ensures front { result.now ≡ take (length result.now) bytes.now }
        ensures size { length result.now ≡ min (length bytes.now) self.now.most }
    {
        &bytes[..bytes.len().min(self.most)]
    }

    /// The next send waits for room again, also where the last one has waited in vain.
    pub fn retry(&mut self)
        ensures open { self.new.is_stuck ≡ false }
        ensures same { (self.new.fd ≡ self.old.fd) × (self.new.most ≡ self.old.most) }
    {
        self.is_stuck = false;
    }

    /// Waits until a write would not wait: the sink has room, or the write fails.
    pub fn wait<C: Clock>(&mut self, patience: &Patience<'_, C>) -> io::Result<()>
        ensures opens { OnOk result (self.new.is_stuck ≡ false) }
        ensures sticks { OnErr result (self.new.is_stuck ≡ true) }
    {
        for _ in 0..TRIES {
            let limit = limit_of(self.is_stuck, patience.left());
            if has_room(self.fd, limit) {
                self.is_stuck = false;
                return Ok(());
            }
            if limit == 0 {
                break;
            }
        }
        self.is_stuck = true;
        Err(io::Error::from(ErrorKind::TimedOut))
    }

    /// The error of a write. If the write would have waited and the send may still wait, it is that
    /// of a write that a signal interrupted, after a rest: both are tried again.
    pub fn error_of<C: Clock>(&mut self, patience: &Patience<'_, C>, error: io::Error) -> io::Error
        ensures again { error_kind error ≢ WouldBlock → result ≡ error }
        ensures sticks { error_kind result ≡ WouldBlock → self.new.is_stuck ≡ true }
        ensures kinds { error_kind result ≡ error_kind error
            ⊎ error_kind result ≡ Interrupted }
    {
        if error.kind() != ErrorKind::WouldBlock {
            return error;
        }
        if limit_of(self.is_stuck, patience.left()) == 0 {
            self.is_stuck = true;
            return error;
        }
        thread::sleep(patience.clock, Duration::from_millis(REST));
        io::Error::from(ErrorKind::Interrupted)
    }
}

/// What a clock shows, in microseconds.
fn shown<C: Clock>(clock: &C) -> io::Result<u64> {
    Ok(microseconds(clock.monotonic()?))
}

/// How long a send that began then, and waits so long at most, may still wait now, in milliseconds.
fn left_of(longest: u16, began: u64, now: u64) -> u16
    ensures { result ≡ longest - (now - began) / 1000 }
{
    let waited = now.saturating_sub(began) / 1000;
    longest.saturating_sub(u16::try_from(waited).unwrap_or(u16::MAX))
}

/// How long a send waits whose patience has so long left: not at all at a sink that is stuck.
fn limit_of(is_stuck: bool, left: u16) -> u16
    ensures { result ≡ if is_stuck then 0 else left }
{
    if is_stuck { 0 } else { left }
}

/// Waits at most so many milliseconds until a write at the descriptor would not wait. It answers
/// also if the write would fail.
fn has_room(fd: RawFd, limit: u16) -> bool {
    let mut asked = [pollfd {
        fd,
        events: POLLOUT,
        revents: 0,
    }];
    poll(&mut asked, i32::from(limit)) > 0
}

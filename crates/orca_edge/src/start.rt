//! What a program does first.

ghost use Rattle.std.specs.Prelude.{◌≡◌, ◌≢◌, [], drop, IsOk, IsErr, IfOk, IsErrAnd};
ghost use Rattle.std.specs.IoError.{error_kind};
ghost use Rattle.std.specs.Vec.Iter.{into_iter_items};
ghost use Rattle.std.specs.declared.io.ErrorKind.TheVariants.{OutOfMemory};

use libc::net::{POLLNVAL, poll};
use libc::types::pollfd;
use orca_base::Memory;
use std::alloc::Global;
use std::env::Args;
use std::io::ErrorKind;
use std::os::fd::{IntoRawFd, RawFd};
use std::{fs, io, rt};

/// The words of a command line after the program's own name. There are none if one of them isn't
/// UTF-8, since no words are faulty words.
pub fn words_after_name(alloc: Global, args: io::Result<Args>) -> Result<Vec<String>, Memory>
    ensures words { IfOk args (λ args.
        IfOk result (λ words. words.items ≡ drop 1 (into_iter_items args))) }
    ensures faulty { IsErrAnd args (λ error. error_kind error ≢ OutOfMemory)
        → IfOk result (λ words. words.items ≡ []) × IsOk result }
    ensures memory { IsErrAnd args (λ error. error_kind error ≡ OutOfMemory)
        → IsErr result }
{
    let mut words = Vec::new(alloc);
    match args {
        Ok(mut args) => {
            let _ = args.next();
            for word in args {
                words.push(word)?;
            }
            Ok(words)
        }
        Err(error) if error.kind() == ErrorKind::OutOfMemory => Err(Memory),
        Err(_) => Ok(words),
    }
}

/// Opens the null device in place of each standard stream that is closed, so that no file and no
/// port takes its number. It is open for reading alone: what is written there fails, as at a stream
/// that is closed.
pub fn open_closed_streams<R: rt::Files>(rt: &R) -> io::Result<()>
where
    R::File: IntoRawFd,
{
    for stream in 0..3 {
        if is_closed(stream) {
            // The system gives the least number that is free.
            let _ = fs::open(rt, "/dev/null")?.into_raw_fd();
        }
    }
    Ok(())
}

/// Whether nothing is open under this number.
fn is_closed(fd: RawFd) -> bool {
    let mut asked = [pollfd {
        fd,
        events: 0,
        revents: 0,
    }];
    poll(&mut asked, 0) > 0 && asked[0].revents & POLLNVAL != 0
}

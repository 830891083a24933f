//! Reading and writing until all is done, and what calls of the system answer.

ghost use Rattle.std.specs.Prelude.{◌≡◌, ◌≤◌, ◌<◌, ◌↔◌, ◌<ℤ◌, pos, length, IsNone, IsErr, IsErrAnd, OnOk, IfOk, IfSome};
ghost use Rattle.std.specs.IoError.{error_kind};
ghost use Rattle.std.specs.declared.io.ErrorKind.TheVariants.{Interrupted, WouldBlock};
ghost use Rattle.std.specs.Io.{WritesAtMost};
ghost use Rattle.std.specs.Io.KnownBytes.{Appends, WriteAppends};

use orca_rig::OutsideFault;
use std::alloc::Global;
use std::io;
use std::io::{ErrorKind, Read, Write};

/// How often a call is tried that signals interrupt, or that waits in pieces. It never comes to
/// that many: the bound is there since every loop is proved to end.
pub(crate) const TRIES: u64 = u64::MAX;

/// How many bytes are read at once.
const PIECE_BYTES: usize = 4096;

/// All that the reader has left, which has at most so many bytes. An interrupted read is tried
/// again.
pub fn read_whole<R: Read>(alloc: Global, from: &mut R, most: u32) -> Result<Vec<u8>, OutsideFault>
    ensures short { IfOk result (λ bytes. length bytes.items ≤ most) }
    ensures whole { IfOk result (λ bytes.
        IfSome (R.remaining from.old) (λ left. bytes.items ≡ left)) }
{
    let mut bytes = Vec::new(alloc);
    let mut piece = [0u8; PIECE_BYTES];
    for _ in 0..TRIES {
        match from.read(&mut piece) {
            Ok(0) => return Ok(bytes),
            Ok(count) if count > most as usize - bytes.len() => return Err(OutsideFault::Failed),
            Ok(count) => bytes.extend_from_slice(&piece[..count])?,
            Err(error) if error.kind() == ErrorKind::Interrupted => {}
            Err(error) => return Err(OutsideFault::from(error)),
        }
    }
    Err(OutsideFault::Failed)
}

/// Writes all of the bytes. After a short write it goes on with the rest. Nothing is kept back, so
/// nothing is flushed. It ends, since each write takes a byte.
pub fn write_whole<W: Write>(to: &mut W, bytes: &[u8]) -> io::Result<()>
    ensures { OnOk result (Appends (W.contents to.old) (W.contents to.new) bytes.now) }
{
    let mut rest = bytes;
    while !rest.is_empty() {
        let count = write_on(to, rest)?;
        rest = &rest[count..];
    }
    Ok(())
}

/// Writes the first of the bytes: as many as one write takes, and one at least. A write that was
/// interrupted is tried again, and one that takes nothing is a failure.
fn write_on<W: Write>(to: &mut W, bytes: &[u8]) -> io::Result<usize>
    ensures bound { WritesAtMost result bytes.now }
    ensures bytes { WriteAppends (W.contents to.old) (W.contents to.new) result bytes.now }
    ensures some { IfOk result (λ count. 0 < count) }
{
    for _ in 0..TRIES {
        match to.write(bytes) {
            Ok(0) => break,
            Ok(count) => return Ok(count),
            Err(error) if error.kind() == ErrorKind::Interrupted => {}
            Err(error) => return Err(error),
        }
    }
    Err(io::Error::from(ErrorKind::WriteZero))
}

/// What a call gave, but where a signal interrupted it: then it is to be tried again.
pub fn unless_interrupted<T: Drop>(gave: io::Result<T>) -> Option<io::Result<T>>
    ensures interrupted { IsNone result
        ↔ IsErrAnd gave (λ error. error_kind error ≡ Interrupted) }
    ensures same { IfSome result (λ same. same ≡ gave) }
{
    match gave {
        Err(error) if error.kind() == ErrorKind::Interrupted => None,
        gave => Some(gave),
    }
}

/// What a read gave, but where it has nothing yet.
pub(crate) fn unless_silent(gave: io::Result<usize>) -> Option<io::Result<usize>>
    ensures silent { IsNone result ↔ IsErrAnd gave (λ error. error_kind error ≡ WouldBlock) }
    ensures same { IfSome result (λ same. same ≡ gave) }
{
    match gave {
        Err(error) if error.kind() == ErrorKind::WouldBlock => None,
        gave => Some(gave),
    }
}

/// What a call of the system answered: below 0 it has failed, and the system says why.
pub(crate) fn status_of(answered: i32) -> io::Result<()>
    ensures { IsErr result ↔ answered <ℤ pos 0 }
{
    if answered < 0 {
        Err(io::Error::from_raw_os_error(os::errno()))
    } else {
        Ok(())
    }
}

//! How a file of the system is saved.

ghost use Rattle.std.specs.Prelude.{IsErr, IsErrOf, OnOk};
ghost use Rattle.std.specs.Io.KnownBytes.{Appends};

use crate::fresh::{Wanted, replace};
use crate::room::{Gate, Patience};
use crate::sinks::write_pieces;
use orca_rig::{Disk, OutsideFault};
use std::fs::{OpenFile, OpenOptions};
use std::io::{ErrorKind, Write};
use std::os::fd::{AsRawFd, IntoRawFd};
use std::os::unix::fs::FileTypeExt;
use std::rt::Clock;
use std::{fs, io, rt};

/// Makes the file of that name hold these bytes.
pub(crate) fn save_file<R>(rt: &R, name: &str, bytes: &[u8], disk: Disk) -> Result<(), OutsideFault>
where
    R: rt::Files + AllocGlobal + Clock,
    R::File: AsRawFd + IntoRawFd,
{
    match open_at_once(rt, name) {
        Ok(mut file) => {
            let found = file.metadata()?;
            if found.is_file() {
                let permissions = Some(found.permissions());
                replace(rt, name, Wanted { bytes, permissions }, disk)
            } else {
                write_device(rt, &mut file, bytes)
            }
        }
        Err(error) if error.kind() == ErrorKind::NotFound => {
            let permissions = None;
            replace(rt, name, Wanted { bytes, permissions }, disk)
        }
        Err(error) => Err(OutsideFault::from(error)),
    }
}

/// Opens what stands under the name for writing. A pipe that nobody reads would be waited for. So
/// both ends of a pipe are opened first, which never waits, and then it has a reader. If that was
/// its only one, writing to it fails.
pub(crate) fn open_at_once<R: rt::Files>(rt: &R, name: &str) -> io::Result<R::File> {
    let mut writing = OpenOptions::new();
    writing.write(true);
    if !is_pipe(rt, name) {
        return writing.open(rt, name);
    }
    let both_ends = OpenOptions::new().read(true).write(true).open(rt, name)?;
    let file = writing.open(rt, name);
    drop(both_ends);
    file
}

/// Whether a pipe has this name.
fn is_pipe<R: rt::Files>(rt: &R, name: &str) -> bool {
    match fs::metadata(rt, name) {
        Ok(found) => found.file_type().is_fifo(),
        Err(_) => false,
    }
}

/// Writes the bytes to a device or a pipe. It waits for room as a send does. A part may have been
/// taken when it fails, so that is a failure, whatever the reason.
fn write_device<C: Clock, F: Write + AsRawFd>(
    rt: &C,
    file: &mut F,
    bytes: &[u8],
) -> Result<(), OutsideFault>
    ensures written { OnOk result
        (Appends (F.contents file.old) (F.contents file.new) bytes.now) }
    ensures failed { IsErr result → IsErrOf result OutsideFault.Failed }
{
    let mut gate = Gate::new(file.as_raw_fd());
    match write_pieces(&Patience::start(rt), &mut gate, file, bytes) {
        Ok(()) => Ok(()),
        Err(_) => Err(OutsideFault::Failed),
    }
}

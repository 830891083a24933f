//! How a file of the system is begun, and how bytes are added to it.

ghost use Rattle.std.specs.Prelude.{◌≡◌, ◌+◌, nat_le, IsErr, IsErrOf, IfOk, IfSome, OnOk};
ghost use Rattle.std.specs.Io.KnownBytes.{Appends};
ghost use Rattle.orca_base.specs.declared.limits.TheConstants.{MAX_ROOM_BYTES};
ghost use Rattle.orca_edge.specs.Names.{gives_way};

use crate::fresh::{Wanted, replace_open};
use crate::whole::{read_whole, write_whole};
use orca_base::limits::MAX_ROOM_BYTES;
use orca_rig::OutsideFault;
use std::alloc::Global;
use std::fs::{OpenFile, OpenOptions, Permissions};
use std::io::{ErrorKind, Read, Write};
use std::os::fd::IntoRawFd;
use std::os::unix::fs::MetadataExt;
use std::rt::Clock;
use std::{fs, rt};

/// What an older journal begins with, as each script does.
const HEAD: [u8; 6] = *b"!orca ";

/// Begins the file of that name with these bytes, and gives it, open to be added to.
pub(crate) fn begin_file<R>(rt: &R, name: &str, bytes: &[u8]) -> Result<R::File, OutsideFault>
where
    R: rt::Files + AllocGlobal + Clock,
    R::File: IntoRawFd,
{
    let permissions = older_permissions(rt, name)?;
    replace_open(rt, name, Wanted { bytes, permissions })
}

/// The permissions of the older journal or empty file of that name; none where nothing has it. What
/// else has the name is a failure, and stays as it is.
fn older_permissions<R: rt::Files + AllocGlobal>(
    rt: &R,
    name: &str,
) -> Result<Option<Permissions>, OutsideFault> {
    match fs::metadata(rt, name) {
        Ok(found) => {
            if found.is_file() {
                permissions_of_older(rt, name)
            } else {
                Err(OutsideFault::Failed)
            }
        }
        Err(error) if error.kind() == ErrorKind::NotFound => Ok(None),
        Err(error) => Err(OutsideFault::from(error)),
    }
}

/// The permissions of the plain file of that name, if it may be read and written, and a journal may
/// take its place. It is opened for both, since that never waits, also if a pipe has the name now.
fn permissions_of_older<R: rt::Files + AllocGlobal>(
    rt: &R,
    name: &str,
) -> Result<Option<Permissions>, OutsideFault> {
    let file = OpenOptions::new().read(true).write(true).open(rt, name)?;
    let found = file.metadata()?;
    if found.is_file() && is_older(rt.alloc(), file)? {
        Ok(Some(found.permissions()))
    } else {
        Err(OutsideFault::Failed)
    }
}

/// Whether a journal may take the place of what the reader gives: of nothing, and of an older one.
fn is_older<F: Read + Drop>(alloc: Global, file: F) -> Result<bool, OutsideFault>
    ensures { IfOk result (λ gives. IfSome (F.remaining file) (λ held. gives ≡ gives_way held)) }
{
    let head = read_whole(alloc, &mut file.take(HEAD.len() as u64), HEAD.len() as u32)?;
    Ok(head.is_empty() || head.as_slice() == HEAD.as_slice())
}

/// Adds the bytes at the end of a file that was begun. Nobody could find what is added to one that
/// has no name any more, and a room that is too long could not be loaded, so either is a failure,
/// and nothing is added. Nothing waits for the disk.
pub(crate) fn append_file<F: Write + OpenFile>(
    file: &mut F,
    bytes: &[u8],
) -> Result<(), OutsideFault>
    ensures { OnOk result (Appends (F.contents file.old) (F.contents file.new) bytes.now) }
{
    let found = file.metadata()?;
    if found.nlink() == 0 || !has_room(found.len(), bytes.len()) {
        return Err(OutsideFault::Failed);
    }
    add_all(file, bytes)
}

/// Whether a file of so many bytes may have so many more.
fn has_room(held: u64, more: usize) -> bool
    ensures { result ≡ nat_le (held + more) MAX_ROOM_BYTES }
{
    held.saturating_add(more as u64) <= MAX_ROOM_BYTES as u64
}

/// Adds all of the bytes. A part may have been taken when it fails, so that is a failure, whatever
/// the reason.
fn add_all<W: Write>(to: &mut W, bytes: &[u8]) -> Result<(), OutsideFault>
    ensures added { OnOk result (Appends (W.contents to.old) (W.contents to.new) bytes.now) }
    ensures failed { IsErr result → IsErrOf result OutsideFault.Failed }
{
    match write_whole(to, bytes) {
        Ok(()) => Ok(()),
        Err(_) => Err(OutsideFault::Failed),
    }
}

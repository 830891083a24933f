//! What holds a name that is claimed, and how a file that was claimed is taken away.

ghost use Rattle.std.specs.Prelude.{◌≢◌, IfOk};

use crate::fresh::lock;
use libc::LOCK_SH;
use orca_rig::{Claim, OutsideFault};
use std::fs::{OpenFile, OpenOptions};
use std::io::ErrorKind;
use std::os::fd::AsRawFd;
use std::os::unix::fs::MetadataExt;
use std::{fs, rt};

/// Whether a program holds what has that name. Only a plain file is held, and nothing else is
/// opened: to open a pipe may wait, and a link may lead to one. One that may not be opened is
/// somebody else's, who is not asked.
pub(crate) fn holder_of<R: rt::Files>(rt: &R, name: &str) -> Result<Claim, OutsideFault>
where
    R::File: AsRawFd,
    ensures { IfOk result (λ claim. claim ≢ Claim.Made) }
{
    if !is_plain(rt, name) {
        return Ok(Claim::Left);
    }
    // This never waits, also if a pipe has the name now.
    let Ok(file) = OpenOptions::new().read(true).write(true).open(rt, name) else {
        return Ok(Claim::Left);
    };
    match lock(&file, LOCK_SH) {
        Ok(()) => Ok(Claim::Left),
        Err(error) if error.kind() == ErrorKind::WouldBlock => Ok(Claim::Held),
        Err(error) => Err(OutsideFault::from(error)),
    }
}

/// Whether a plain file has this name, and no link to one.
fn is_plain<R: rt::Files>(rt: &R, name: &str) -> bool {
    match fs::symlink_metadata(rt, name) {
        Ok(found) => found.is_file(),
        Err(_) => false,
    }
}

/// Takes away the file of that name, if it is this one.
pub(crate) fn remove_held<R: rt::Files>(
    rt: &R,
    held: &R::File,
    name: &str,
) -> Result<(), OutsideFault> {
    let own = held.metadata()?;
    let found = fs::symlink_metadata(rt, name)?;
    if (found.dev(), found.ino()) != (own.dev(), own.ino()) {
        return Err(OutsideFault::Failed);
    }
    Ok(fs::remove_file(rt, name)?)
}

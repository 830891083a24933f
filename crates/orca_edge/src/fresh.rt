//! New files that take the place of others.

ghost use Rattle.std.specs.Prelude.{◌≡◌, ◌↔◌, codes, true, IsSome, IsNone, IsOk, IfOk, OnOk, OnErr, IsErr, IsErrOf};
ghost use Rattle.std.specs.Path.{path_buf_bytes, path_with_file_name};
ghost use Rattle.std.specs.Io.KnownBytes.{Appends};
ghost use Rattle.orca_edge.specs.Names.{behind, LeadsTo, IsBeside};

use crate::moments::microseconds;
use crate::whole::{status_of, write_whole};
use libc::{LOCK_EX, LOCK_NB};
use orca_rig::{Disk, OutsideFault};
use std::alloc::AllocError;
use std::fs::{OpenFile, OpenOptions, Permissions};
use std::io::{ErrorKind, Write};
use std::os::fd::{AsRawFd, IntoRawFd};
use std::os::unix::fs::OpenOptionsExt;
use std::path::PathBuf;
use std::rt::Clock;
use std::{fs, io, rt};

/// The most symbolic links that are followed from one name, as many as the system follows.
const MAX_LINKS: u8 = 40;

/// The most names that are tried for a new file.
const MAX_NAMES: u16 = 1000;

/// The mode of a new file that replaces another, until it gets the other's permissions, and that of
/// one that is claimed.
const PRIVATE: u32 = 0o600;

/// The mode of a new file that replaces none, which the system narrows by the process's umask.
const PUBLIC: u32 = 0o666;

/// What a new file is to have.
#[derive(Drop)]
pub(crate) struct Wanted<'a> {
    pub bytes: &'a [u8],
    /// Those of the file that it replaces, if it replaces one.
    pub permissions: Option<Permissions>,
}

/// A new file, which is to replace another.
#[derive(Drop)]
struct Fresh<F> {
    file: F,
    /// All bytes are written.
    is_whole: bool,
    /// It has the permissions that it is to have.
    has_rights: bool,
}

/// The system has told no failure of what was written to a file, which was closed or synced: it
/// will tell none any more.
#[derive(Clone, Copy)]
struct Told;

/// The path of a new file, that of the one that it is to replace, and that of their folder.
#[derive(Drop)]
struct Paths {
    fresh: PathBuf,
    target: PathBuf,
    folder: PathBuf,
}

impl Wanted<'_> {
    /// The mode that the new file begins with.
    fn mode(&self) -> u32
        ensures replacing { IsSome self.now.permissions → result ≡ PRIVATE }
        ensures new { IsNone self.now.permissions → result ≡ PUBLIC }
    {
        match self.permissions {
            Some(_) => PRIVATE,
            None => PUBLIC,
        }
    }
}

impl<F: Write + OpenFile + IntoRawFd + Drop> Fresh<F> {
    /// Writes the bytes into the new file.
    fn fill(&mut self, bytes: &[u8]) -> io::Result<()>
        ensures written { OnOk result
            (Appends (F.contents self.old.file) (F.contents self.new.file) bytes.now) }
        ensures whole { OnOk result (self.new.is_whole ≡ true) }
        ensures broken { OnErr result (self.new.is_whole ≡ self.old.is_whole) }
        ensures rights { self.new.has_rights ≡ self.old.has_rights }
    {
        write_whole(&mut self.file, bytes)?;
        self.is_whole = true;
        Ok(())
    }

    /// Gives the new file these permissions, or leaves it those that the system gave.
    fn give_rights(&mut self, permissions: Option<Permissions>) -> io::Result<()>
        ensures given { OnOk result (self.new.has_rights ≡ true) }
        ensures denied { OnErr result (self.new.has_rights ≡ self.old.has_rights) }
        ensures whole { self.new.is_whole ≡ self.old.is_whole }
        ensures file { self.new.file ≡ self.old.file }
    {
        if let Some(permissions) = permissions {
            self.file.set_permissions(permissions)?;
        }
        self.has_rights = true;
        Ok(())
    }

    /// Closes the new file, and puts it in the place of the other, once all of its bytes are written
    /// and it has its permissions.
    fn put_closed<R: rt::Files>(self, rt: &R, paths: &Paths, disk: Disk) -> io::Result<()>
        requires whole { self.is_whole ≡ true }
        requires rights { self.has_rights ≡ true }
    {
        if let Disk::Awaited = disk {
            sync(&self.file)?;
        }
        let told = close(self.file)?;
        rename(rt, told, paths)
    }

    /// Puts the new file in the place of the other in the same way, and gives it, still open.
    fn put_open<R: rt::Files>(self, rt: &R, paths: &Paths) -> io::Result<F>
        requires whole { self.is_whole ≡ true }
        requires rights { self.has_rights ≡ true }
    {
        let told = sync(&self.file)?;
        rename(rt, told, paths)?;
        Ok(self.file)
    }
}

impl<F: OpenFile + AsRawFd + Drop> Fresh<F> {
    /// Locks the new file, and gives it the name of the target too, if nothing has that: so the
    /// name is never there without the lock. Then it gives the file, still open.
    fn put_locked<R: rt::Files>(self, rt: &R, paths: &Paths) -> io::Result<Option<F>>
        requires whole { self.is_whole ≡ true }
        requires rights { self.has_rights ≡ true }
    {
        lock(&self.file, LOCK_EX)?;
        let told = sync(&self.file)?;
        match link(rt, told, paths) {
            Ok(()) => Ok(Some(self.file)),
            Err(error) if error.kind() == ErrorKind::AlreadyExists => Ok(None),
            Err(error) => Err(error),
        }
    }
}

/// Puts a new file in the place of that name, whole or not at all.
pub(crate) fn replace<R>(
    rt: &R,
    name: &str,
    wanted: Wanted<'_>,
    disk: Disk,
) -> Result<(), OutsideFault>
where
    R: rt::Files + AllocGlobal + Clock,
    R::File: IntoRawFd,
{
    let (file, paths) = create_beside(rt, target_of(rt, name)?, wanted.mode())?;
    let done = save_into(rt, file, wanted, &paths, disk);
    settle(rt, done, &paths)?;
    match disk {
        Disk::Awaited => sync_folder(rt, &paths.folder),
        Disk::NotAwaited => Ok(()),
    }
}

/// Puts a new file in the place of that name, whole or not at all, and gives it, to be added to. The
/// disk has it then.
pub(crate) fn replace_open<R>(
    rt: &R,
    name: &str,
    wanted: Wanted<'_>,
) -> Result<R::File, OutsideFault>
where
    R: rt::Files + AllocGlobal + Clock,
    R::File: IntoRawFd,
{
    let (file, paths) = create_beside(rt, target_of(rt, name)?, wanted.mode())?;
    let done = begin_in(rt, file, wanted, &paths);
    let file = settle(rt, done, &paths)?;
    sync_folder(rt, &paths.folder)?;
    Ok(file)
}

/// Makes a file of that name, which others may not read, and gives it, locked, to be added to; none
/// if something has the name. The disk has it then.
pub(crate) fn make_locked<R>(
    rt: &R,
    name: &str,
    bytes: &[u8],
) -> Result<Option<R::File>, OutsideFault>
where
    R: rt::Files + AllocGlobal + Clock,
    R::File: AsRawFd + IntoRawFd,
{
    let target = PathBuf::from_str(rt.alloc(), name)?;
    if is_there(rt, &target)? {
        return Ok(None);
    }
    let (file, paths) = create_beside(rt, target, PRIVATE)?;
    let made = lock_in(rt, file, bytes, &paths);
    // The name by which it was made goes, whether or not it got the other.
    let removed = fs::remove_file(rt, &paths.fresh);
    let made = made?;
    if removed.is_err() {
        return Err(OutsideFault::Failed);
    }
    sync_folder(rt, &paths.folder)?;
    Ok(made)
}

/// Whether something has this name, be it a link that leads nowhere.
fn is_there<R: rt::Files>(rt: &R, path: &PathBuf) -> io::Result<bool> {
    match fs::symlink_metadata(rt, path) {
        Ok(_) => Ok(true),
        Err(error) if error.kind() == ErrorKind::NotFound => Ok(false),
        Err(error) => Err(error),
    }
}

/// Fills the new file, and gives it the name too, locked; none if something has that.
fn lock_in<R>(rt: &R, file: R::File, bytes: &[u8], paths: &Paths) -> io::Result<Option<R::File>>
where
    R: rt::Files,
    R::File: AsRawFd + IntoRawFd,
{
    let permissions = None;
    filled(file, Wanted { bytes, permissions })?.put_locked(rt, paths)
}

/// Fills the new file, and puts it in the place of the other.
fn save_into<R>(
    rt: &R,
    file: R::File,
    wanted: Wanted<'_>,
    paths: &Paths,
    disk: Disk,
) -> io::Result<()>
where
    R: rt::Files,
    R::File: IntoRawFd,
{
    filled(file, wanted)?.put_closed(rt, paths, disk)
}

/// Fills the new file, puts it in the place of the other, and gives it.
fn begin_in<R>(rt: &R, file: R::File, wanted: Wanted<'_>, paths: &Paths) -> io::Result<R::File>
where
    R: rt::Files,
    R::File: IntoRawFd,
{
    filled(file, wanted)?.put_open(rt, paths)
}

/// The new file with all that it is to have.
fn filled<F: Write + OpenFile + IntoRawFd + Drop>(
    file: F,
    wanted: Wanted<'_>,
) -> io::Result<Fresh<F>>
    ensures whole { IfOk result (λ fresh. fresh.is_whole ≡ true) }
    ensures rights { IfOk result (λ fresh. fresh.has_rights ≡ true) }
    ensures written { IfOk result (λ fresh.
        Appends (F.contents file) (F.contents fresh.file) wanted.entry.bytes.now) }
{
    let mut fresh = Fresh {
        file,
        is_whole: false,
        has_rights: false,
    };
    fresh.fill(wanted.bytes)?;
    fresh.give_rights(wanted.permissions)?;
    Ok(fresh)
}

/// Answers what was done. After a failure the new file is removed.
fn settle<R: rt::Files, T: Drop>(
    rt: &R,
    done: io::Result<T>,
    paths: &Paths,
) -> Result<T, OutsideFault>
    ensures done { IfOk done (λ value. IfOk result (λ same. same ≡ value)) }
    ensures alike { IsOk result ↔ IsOk done }
{
    match done {
        Ok(value) => Ok(value),
        Err(error) => {
            let _ = fs::remove_file(rt, &paths.fresh);
            Err(OutsideFault::from(error))
        }
    }
}

/// The file that a name stands for in the end: behind symbolic links, also where it is missing.
fn target_of<R: rt::Files + AllocGlobal>(rt: &R, name: &str) -> Result<PathBuf, OutsideFault>
    ensures { IfOk result (λ path. LeadsTo name.now (path_buf_bytes path)) }
{
    let mut path = PathBuf::from_str(rt.alloc(), name)?;
    for _followed in 0..MAX_LINKS {
        match fs::symlink_metadata(rt, &path) {
            Ok(found) if found.is_symlink() => {
                let link = fs::read_link(rt, &path)?;
                follow(&mut path, &link)?;
            }
            Ok(_) => return Ok(path),
            Err(error) if error.kind() == ErrorKind::NotFound => return Ok(path),
            Err(error) => return Err(OutsideFault::from(error)),
        }
    }
    Err(OutsideFault::Failed)
}

/// Goes from a symbolic link to where its text leads. After an error the path has no meaning.
fn follow(path: &mut PathBuf, link: &PathBuf) -> Result<(), AllocError>
    ensures { OnOk result (path_buf_bytes path.new
        ≡ behind (path_buf_bytes path.old) (path_buf_bytes link.now)) }
{
    path.pop();
    path.push(link)
}

/// Creates a file in the folder of the target, under a name that no file has. It is written at its
/// end.
fn create_beside<R: rt::Files + AllocGlobal + Clock>(
    rt: &R,
    target: PathBuf,
    mode: u32,
) -> Result<(R::File, Paths), OutsideFault>
    ensures beside { IfOk result (λ made. IsBeside (path_buf_bytes made.1.fresh)
        (path_buf_bytes made.1.target) (path_buf_bytes target)) }
    ensures folder { IfOk result (λ made. path_buf_bytes made.1.folder
        ≡ path_with_file_name (path_buf_bytes target) (codes ".")) }
{
    let folder = folder_of(rt, &target)?;
    let mut options = OpenOptions::new();
    options.append(true).create_new(true).mode(mode);
    let first = first_number(rt);
    for tried in 0..MAX_NAMES {
        let number = first.saturating_add(u64::from(tried));
        let name = format!(in rt.alloc(); ".orca-save-{number}")?;
        let fresh = target.with_file_name(rt.alloc(), name.as_str())?;
        match options.open(rt, &fresh) {
            Ok(file) => {
                return Ok((
                    file,
                    Paths {
                        fresh,
                        target,
                        folder,
                    },
                ));
            }
            Err(error) if error.kind() == ErrorKind::AlreadyExists => {}
            Err(error) => return Err(OutsideFault::from(error)),
        }
    }
    Err(OutsideFault::Failed)
}

/// The number of the first name that is tried for a new file: what the clock shows, in microseconds.
/// So no files that were left in the folder are in the way.
fn first_number<C: Clock>(clock: &C) -> u64 {
    match clock.monotonic() {
        Ok(shown) => microseconds(shown),
        Err(_) => 0,
    }
}

/// The folder that a file is in.
fn folder_of<R: AllocGlobal>(rt: &R, file: &PathBuf) -> Result<PathBuf, AllocError>
    ensures { IfOk result (λ folder. path_buf_bytes folder
        ≡ path_with_file_name (path_buf_bytes file.now) (codes ".")) }
{
    file.with_file_name(rt.alloc(), ".")
}

/// Locks a file in this way, as long as it is open. A lock of another program that forbids it is
/// [`ErrorKind::WouldBlock`].
pub(crate) fn lock<F: AsRawFd>(file: &F, way: i32) -> io::Result<()> {
    status_of(libc::flock(file.as_raw_fd(), way | LOCK_NB))
}

/// Waits until the disk has what was written to the file.
fn sync<F: OpenFile>(file: &F) -> io::Result<Told> {
    file.sync_all()?;
    Ok(Told)
}

/// Closes a file. The system may tell only here that what was written has found no room.
fn close<F: IntoRawFd>(file: F) -> io::Result<Told> {
    status_of(libc::close(file.into_raw_fd()))?;
    Ok(Told)
}

/// Gives the new file, of which no failure comes any more, the name of the other.
fn rename<R: rt::Files>(rt: &R, _told: Told, paths: &Paths) -> io::Result<()> {
    fs::rename(rt, &paths.fresh, &paths.target)
}

/// Gives the new file, of which no failure comes any more, the name of the target too, if nothing
/// has that.
fn link<R: rt::Files>(rt: &R, _told: Told, paths: &Paths) -> io::Result<()> {
    fs::hard_link(rt, &paths.fresh, &paths.target)
}

/// Waits until the disk has the names in a folder. One that may not be read is passed over, and so
/// is one whose system has no such call. The file has its name already, so any other error is a
/// failure, whatever the reason.
fn sync_folder<R: rt::Files>(rt: &R, folder: &PathBuf) -> Result<(), OutsideFault>
    ensures { IsErr result → IsErrOf result OutsideFault.Failed }
{
    let Ok(folder) = fs::open(rt, folder) else {
        return Ok(());
    };
    match folder.sync_all() {
        Ok(()) => Ok(()),
        Err(error) => match error.kind() {
            ErrorKind::InvalidInput | ErrorKind::Unsupported => Ok(()),
            _ => Err(OutsideFault::Failed),
        },
    }
}

/// Waits until the disk has the plain file of that name, and its name.
pub(crate) fn sync_saved<R: rt::Files + AllocGlobal>(
    rt: &R,
    name: &str,
) -> Result<(), OutsideFault> {
    let target = target_of(rt, name)?;
    if fs::metadata(rt, &target)?.is_file() {
        fs::open(rt, &target)?.sync_all()?;
    }
    sync_folder(rt, &folder_of(rt, &target)?)
}

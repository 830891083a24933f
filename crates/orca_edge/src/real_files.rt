ghost use Rattle.std.specs.Prelude.{◌≡◌, ◌≢◌, true, ◌<◌, ◌≤◌, None, false, ℕ, List, length, position, string_bytes, vec_len, vec_capacity, IfOk, OnOk, OnErr, IsErr, IsErrOf};
ghost use Rattle.std.specs.Str.{bytes_eq};
ghost use Rattle.orca_rig.specs.Saved.{is_spoilt, names_of, spoilt_after};
ghost use Rattle.orca_edge.specs.Names.{is_own};

use crate::claim::{holder_of, remove_held};
use crate::fresh::{make_locked, sync_saved};
use crate::journal::{append_file, begin_file};
use crate::saving::save_file;
use crate::whole::read_whole;
use orca_rig::{Claim, Disk, Files, Misses, OutsideFault, is_spoilt, keep_spoilt, put_name};
use std::fs::OpenFile;
use std::io::Write;
use std::os::fd::{AsRawFd, IntoRawFd};
use std::rt::Clock;
use std::{fs, rt};

/// The files of the system. It tells nothing of what they hold.
pub struct RealFiles<'a, R: rt::Files + AllocGlobal> {
    rt: &'a R,
    misses: Misses,
    /// The names of the files of which a save, a begin, an append or a claim has failed.
    spoilt: Vec<String>,
    /// The names of the files that were saved, and the disk was not awaited.
    unsynced: Vec<String>,
    /// The files that were begun or claimed, open to be added to, each with its name.
    begun: Vec<(String, R::File)>,
    /// The name of the one that was claimed, if it was not removed.
    own: Option<String>,
}

impl<R: rt::Files + AllocGlobal> Drop for RealFiles<'_, R> {
    /// At the end the disk is awaited for what was saved before without that. Nobody is left who
    /// could be told of a failure.
    fn drop(self) {
        let RealFiles {
            rt,
            misses: _,
            spoilt: _,
            unsynced,
            begun: _,
            own: _,
        } = self;
        for name in &unsynced {
            let _ = sync_saved(rt, name);
        }
    }
}

impl<R: rt::Files + AllocGlobal + Clock> RealFiles<'_, R>
where
    R::File: AsRawFd + IntoRawFd,
{
    /// The files that the runtime reaches.
    pub fn new(rt: &R) -> RealFiles<'_, R>
        ensures faults { ⟦<RealFiles<'static, R> as Files>⟧.faults result ≡ 0 }
        ensures wants { ⟦<RealFiles<'static, R> as Files>⟧.wants result ≡ 0 }
        ensures spoilt { (name : List ℕ)
            → ⟦<RealFiles<'static, R> as Files>⟧.spoilt result name ≡ false }
    {
        RealFiles {
            rt,
            misses: Misses::none(),
            spoilt: Vec::new(rt.alloc()),
            unsynced: Vec::new(rt.alloc()),
            begun: Vec::new(rt.alloc()),
            own: None,
        }
    }

    /// Does a save. Nothing is counted.
    fn keep(&mut self, name: &str, bytes: &[u8], disk: Disk) -> Result<(), OutsideFault>
        ensures spoilt { (file : List ℕ) → is_spoilt (names_of self.new.spoilt.items) file
            ≡ spoilt_after result name.now file (is_spoilt (names_of self.old.spoilt.items) file) }
        ensures misses { self.new.misses ≡ self.old.misses }
    {
        let held = make_room(&mut self.spoilt, name)?;
        let later = make_room(&mut self.unsynced, name)?;
        let done = save_file(self.rt, name, bytes, disk);
        if let (Ok(()), Disk::NotAwaited) = (done, disk) {
            put_name(&mut self.unsynced, later);
        }
        keep_spoilt(&mut self.spoilt, held, done)
    }

    /// Does a begin. Nothing is counted.
    fn begin_anew(&mut self, name: &str, bytes: &[u8]) -> Result<(), OutsideFault>
        ensures spoilt { (file : List ℕ) → is_spoilt (names_of self.new.spoilt.items) file
            ≡ spoilt_after result name.now file (is_spoilt (names_of self.old.spoilt.items) file) }
        ensures misses { self.new.misses ≡ self.old.misses }
    {
        let held = make_room(&mut self.spoilt, name)?;
        let own = String::from_str(*self.begun.allocator(), name)?;
        self.begun.reserve(1)?;
        let done = self.open(own, bytes);
        keep_spoilt(&mut self.spoilt, held, done)
    }

    /// Begins the file of that name, and keeps it open. There is room for it.
    fn open(&mut self, name: String, bytes: &[u8]) -> Result<(), OutsideFault>
        requires { vec_len self.old.begun < vec_capacity self.old.begun }
        ensures spoilt { self.new.spoilt ≡ self.old.spoilt }
        ensures misses { self.new.misses ≡ self.old.misses }
    {
        let file = begin_file(self.rt, name.as_str(), bytes)?;
        put_begun(&mut self.begun, name, file);
        Ok(())
    }

    /// Does an append. Nothing is counted.
    fn add(&mut self, name: &str, bytes: &[u8]) -> Result<(), OutsideFault>
        ensures spoilt { (file : List ℕ) → is_spoilt (names_of self.new.spoilt.items) file
            ≡ spoilt_after result name.now file (is_spoilt (names_of self.old.spoilt.items) file) }
        ensures misses { self.new.misses ≡ self.old.misses }
        ensures whole { OnOk result (is_spoilt (names_of self.old.spoilt.items) name.now ≡ false) }
    {
        let held = make_room(&mut self.spoilt, name)?;
        let done = if is_spoilt(&self.spoilt, name) {
            Err(OutsideFault::Failed)
        } else {
            append_begun(&mut self.begun, name, bytes)
        };
        keep_spoilt(&mut self.spoilt, held, done)
    }

    /// Does a claim. Nothing is counted.
    fn take(&mut self, name: &str, bytes: &[u8]) -> Result<Claim, OutsideFault>
        ensures spoilt { (file : List ℕ) → is_spoilt (names_of self.new.spoilt.items) file
            ≡ spoilt_after result name.now file (is_spoilt (names_of self.old.spoilt.items) file) }
        ensures misses { self.new.misses ≡ self.old.misses }
        ensures own { IfOk result (λ claim. claim ≡ Claim.Made
            → is_own self.new.own name.now ≡ true) }
        ensures others { IfOk result (λ claim. claim ≢ Claim.Made
            → self.new.own ≡ self.old.own) }
    {
        let held = make_room(&mut self.spoilt, name)?;
        let done = self.make(name, bytes);
        keep_spoilt(&mut self.spoilt, held, done)
    }

    /// Makes the file of that name, and keeps it open, if nothing has the name.
    fn make(&mut self, name: &str, bytes: &[u8]) -> Result<Claim, OutsideFault>
        ensures spoilt { self.new.spoilt ≡ self.old.spoilt }
        ensures misses { self.new.misses ≡ self.old.misses }
        ensures own { IfOk result (λ claim. claim ≡ Claim.Made
            → is_own self.new.own name.now ≡ true) }
        ensures others { IfOk result (λ claim. claim ≢ Claim.Made
            → self.new.own ≡ self.old.own) }
    {
        let alloc = *self.begun.allocator();
        let kept = String::from_str(alloc, name)?;
        let own = String::from_str(alloc, name)?;
        self.begun.reserve(1)?;
        match make_locked(self.rt, name, bytes)? {
            Some(file) => {
                put_begun(&mut self.begun, kept, file);
                self.own = Some(own);
                Ok(Claim::Made)
            }
            None => holder_of(self.rt, name),
        }
    }

    /// Does a removal. Nothing is counted.
    fn take_away(&mut self, name: &str) -> Result<(), OutsideFault>
        ensures spoilt { self.new.spoilt ≡ self.old.spoilt }
        ensures misses { self.new.misses ≡ self.old.misses }
        ensures own { OnOk result (is_own self.old.own name.now ≡ true) }
        ensures gone { OnOk result (self.new.own ≡ None) }
        ensures held { OnErr result (self.new.own ≡ self.old.own) }
    {
        let (Some(place), true) = (place_of(&self.begun, name), is_own(&self.own, name)) else {
            return Err(OutsideFault::Failed);
        };
        remove_held(self.rt, &self.begun[place].1, name)?;
        // Nobody finds the name any more, so the lock can go with the file.
        let _ = self.begun.swap_remove(place);
        self.own = None;
        Ok(())
    }
}

/// Whether a file is the one that was claimed.
fn is_own(own: &Option<String>, name: &str) -> bool
    ensures { result ≡ is_own own.now name.now }
{
    match own {
        Some(own) => name == own.as_str(),
        None => false,
    }
}

/// Makes room for one more name, and gives the name. So a call that was made has the memory to keep
/// it.
fn make_room(names: &mut Vec<String>, name: &str) -> Result<String, OutsideFault>
    ensures named { IfOk result (λ held. string_bytes held ≡ name.now) }
    ensures room { OnOk result (vec_len names.new < vec_capacity names.new) }
    ensures same { names.new.items ≡ names.old.items }
    ensures memory { IsErr result → IsErrOf result OutsideFault.Memory }
{
    let held = String::from_str(*names.allocator(), name)?;
    names.reserve(1)?;
    Ok(held)
}

/// The place of the first file of that name.
fn place_of<F>(begun: &[(String, F)], name: &str) -> Option<usize>
    ensures { result ≡ position (λ file. bytes_eq name.now (string_bytes file.0)) begun.now }
{
    begun.iter().position(|file| name == file.0.as_str())
}

/// Keeps a file that was begun, in place of an older one of its name. There is room for it.
fn put_begun<F: Drop>(begun: &mut Vec<(String, F)>, name: String, file: F)
    requires { vec_len begun.old < vec_capacity begun.old }
{
    match place_of(begun, name.as_str()) {
        Some(place) => begun[place].1 = file,
        None => begun.push_reserved((name, file)),
    }
}

/// Adds the bytes to the file of that name that was begun or claimed; where none was, that is a
/// failure.
fn append_begun<F: Write + OpenFile>(
    begun: &mut [(String, F)],
    name: &str,
    bytes: &[u8],
) -> Result<(), OutsideFault> {
    match place_of(begun, name) {
        Some(place) => append_file(&mut begun[place].1, bytes),
        None => Err(OutsideFault::Failed),
    }
}

impl<R: rt::Files + AllocGlobal + Clock> Files for RealFiles<'_, R>
where
    R::File: AsRawFd + IntoRawFd,
{
    ghost contents = { λ _. None };

    ghost asked = { λ _. None };

    ghost faults = { λ f. f.misses.faults };

    ghost wants = { λ f. f.misses.wants };

    ghost spoilt = { λ f. is_spoilt (names_of f.spoilt.items) };

    ghost held = { λ _. None };

    /// A missing file, a directory, one that cannot be read and one that is too long are failures.
    fn load(&mut self, name: &str, most: u32, into: &mut Vec<u8>) -> Result<(), OutsideFault> {
        let done = load_file(self.rt, name, most, into);
        self.misses.count(done)
    }

    /// Replaces the file whole, or leaves it as it was: the bytes go to a new file in the same
    /// folder, which then takes the name. Another program that has the old file open keeps it, and
    /// so does another name of it (a hard link).
    ///
    /// | what stands under the name | what is done |
    /// |---|---|
    /// | nothing | a file is made, with the permissions that new files get |
    /// | a file | it is replaced by one with its permissions, which belongs to who runs the program |
    /// | a symbolic link | the file that it leads to is replaced or made |
    /// | a device or a pipe | it is written as it is, and waits for room as a port does |
    /// | a pipe that nobody reads, or that the program may not read | the save fails |
    /// | a directory, or a file that may not be written | the save fails |
    ///
    /// It fails at a folder that takes no new file, also if the old file may be written, and at a
    /// disk that is full. The new file is removed then. If the program is killed in the middle, the
    /// file is as it was, and the new one stays as `.orca-save-` and a number.
    ///
    /// Where the disk is awaited, it has the new file before that takes the name, and the name
    /// before the save has ended. So a power cut leaves the old bytes or the new ones, and the new
    /// ones once the save has ended. Where it is not, the file may hold the old bytes or the new
    /// ones after a power cut, and on some file systems a part of them, until these files are
    /// dropped: then the disk is awaited. A device and a pipe are only written.
    fn save(&mut self, name: &str, bytes: &[u8], disk: Disk) -> Result<(), OutsideFault> {
        let done = self.keep(name, bytes, disk);
        self.misses.count(done)
    }

    /// Makes the file anew, as a save does that waits for the disk, and keeps it open. What it may
    /// take the place of:
    ///
    /// | what stands under the name | what is done |
    /// |---|---|
    /// | nothing | a file is made |
    /// | an empty file, or one that begins with `!orca `, as each journal does | it is replaced |
    /// | any other file, as a piece | the begin fails |
    /// | a folder, a pipe, a device, a socket | the begin fails, and it is not opened |
    /// | a file that may not be read or not be written | the begin fails |
    /// | a symbolic link | what it leads to decides |
    ///
    /// What a begin may not take the place of is as it was.
    fn begin(&mut self, name: &str, bytes: &[u8]) -> Result<(), OutsideFault> {
        let done = self.begin_anew(name, bytes);
        self.misses.count(done)
    }

    /// Adds to the file that was begun or claimed, whatever has its name by now: a file that has
    /// taken the name since is left as it is. An append to a name that was neither is a failure,
    /// and so is one to a file that has no name any more, since nobody could find what is added.
    /// Of one that would make the file larger than
    /// [`MAX_ROOM_BYTES`](orca_base::limits::MAX_ROOM_BYTES) no byte is written. Nothing waits for
    /// the disk.
    fn append(&mut self, name: &str, bytes: &[u8]) -> Result<(), OutsideFault> {
        let done = self.add(name, bytes);
        self.misses.count(done)
    }

    /// Makes a file that no other user may read, and locks it (flock(2)), so that nobody holds it
    /// any more once this program has ended, also if it is killed. It gets its bytes and its lock
    /// under a name of its own in the same folder, and only then this one: nobody finds it half
    /// written, or not locked. The disk has it then. If the program is killed before that, the file
    /// stays as `.orca-save-` and a number.
    ///
    /// | what stands under the name | what is answered |
    /// |---|---|
    /// | nothing | [`Claim::Made`] |
    /// | a plain file that a program has locked | [`Claim::Held`] |
    /// | a plain file that none has locked, or that may not be read and written | [`Claim::Left`] |
    /// | a link, a folder, a pipe, a device, a socket | [`Claim::Left`], and it is not opened |
    ///
    /// A folder that takes no new file, a disk that is full, and a file system that knows no locks
    /// or no second name of a file make it fail.
    fn claim(&mut self, name: &str, bytes: &[u8]) -> Result<Claim, OutsideFault> {
        let done = self.take(name, bytes);
        self.misses.count(done)
    }

    /// Takes the name away, and then lets the file go. It fails if another file has taken the name
    /// since, and that one stays.
    fn remove(&mut self, name: &str) -> Result<(), OutsideFault> {
        let done = self.take_away(name);
        self.misses.count(done)
    }
}

/// Makes `into` the bytes of the file of that name, which has at most so many. After an error it is
/// as before.
fn load_file<R: rt::Files>(
    rt: &R,
    name: &str,
    most: u32,
    into: &mut Vec<u8>,
) -> Result<(), OutsideFault>
    ensures short { OnOk result (length into.new.items ≤ most) }
    ensures untouched { OnErr result (into.new.items ≡ into.old.items) }
{
    let mut file = fs::open(rt, name)?;
    *into = read_whole(*into.allocator(), &mut file, most)?;
    Ok(())
}

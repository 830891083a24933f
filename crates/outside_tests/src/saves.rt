use orca_base::limits::MAX_FILE_BYTES;
use orca_edge::RealFiles;
use orca_rig::{Disk, Files, OutsideFault};
use std::os::fd::{AsRawFd, IntoRawFd};
use std::os::unix::fs::symlink;
use std::process::Abort;
use std::rt::Clock;
use std::{fs, io, rt};

/// A plain file that may be written, in a folder that takes no new file: the name of this process.
const OLD: &str = "/proc/self/comm";

/// The most bytes of a file that is looked at.
const MOST: u32 = MAX_FILE_BYTES as u32;

const FAILED: Result<(), OutsideFault> = Err(OutsideFault::Failed);

/// What a journal begins with here.
const HEAD: &[u8] = b"!orca 2 seed 1\n";

/// A file of this name holds these bytes.
pub fn check_held<R: Abort + AllocGlobal, F: Files>(
    rt: &R,
    files: &mut F,
    name: &str,
    held: &[u8],
) {
    let mut bytes = Vec::new(rt.alloc());
    assert!(rt; files.load(name, MOST, &mut bytes) == Ok(()));
    assert!(rt; bytes.as_slice() == held);
}

#[test]
fn a_save_that_fails_leaves_the_file(rt: HostRuntime) {
    let mut files = RealFiles::new(&rt);
    let mut before = Vec::new(rt.alloc());
    assert!(rt; files.load(OLD, MOST, &mut before) == Ok(()));
    assert!(rt; files.save(OLD, b"first", Disk::Awaited) == FAILED);
    check_held(&rt, &mut files, OLD, before.as_slice());
}

/// What a file holds, what a journal's begin under a name answers, and what the file holds then.
type Begin = (
    &'static [u8],
    &'static str,
    Result<(), OutsideFault>,
    &'static [u8],
);

/// Each file is called `rig_held`; `rig_link` leads to it, and `rig_twin` is another name of it.
const BEGINS: [Begin; 9] = [
    (b"", "rig_held", Ok(()), HEAD),
    (b"!orca 2 seed 7\nframe\n", "rig_held", Ok(()), HEAD),
    (b"!orca 2 seed 7\nframe\n", "rig_link", Ok(()), HEAD),
    (b"12..\n", "rig_held", FAILED, b"12..\n"),
    (b"12..\n", "./rig_held", FAILED, b"12..\n"),
    (b"12..\n", "rig_link", FAILED, b"12..\n"),
    (b"12..\n", "rig_twin", FAILED, b"12..\n"),
    (b"!orca", "rig_held", FAILED, b"!orca"),
    (b"!orcas.\n", "rig_held", FAILED, b"!orcas.\n"),
];

/// Makes the file with its other names, begins a journal, and looks at the file.
fn check_begin<R>(rt: &R, row: Begin)
where
    R: Abort + AllocGlobal + rt::Files + Clock,
    R::File: AsRawFd + IntoRawFd,
{
    let (before, name, answer, after) = row;
    fs::write(rt, "rig_held", before).expect(rt, "a write");
    fs::hard_link(rt, "rig_held", "rig_twin").expect(rt, "a link");
    let mut files = RealFiles::new(rt);
    assert!(rt; files.begin(name, HEAD) == answer, "{name}");
    check_held(rt, &mut files, "rig_held", after);
    fs::remove_file(rt, "rig_twin").expect(rt, "a removal");
    fs::remove_file(rt, "rig_held").expect(rt, "a removal");
}

#[test]
fn a_journal_takes_the_place_of_an_older_one_alone(rt: HostRuntime) {
    symlink(&rt, "rig_held", "rig_link").expect(&rt, "a link");
    for row in &BEGINS {
        check_begin(&rt, *row);
    }
    fs::remove_file(&rt, "rig_link").expect(&rt, "a removal");
}

#[test]
fn a_journal_is_no_folder_and_no_device(rt: HostRuntime) {
    let mut files = RealFiles::new(&rt);
    for name in &[".", "/dev/null", "/dev/full", OLD, "no/such/folder"] {
        assert!(rt; files.begin(*name, HEAD) == FAILED, "{name}");
        assert!(rt; files.append(*name, b"frame\n") == FAILED, "{name}");
    }
}

#[test]
fn a_journal_is_no_pipe(rt: HostRuntime) {
    let (reader, writer) = io::pipe(&rt).expect(&rt, "a pipe");
    let name = format!(in rt.alloc(); "/dev/fd/{}", writer.as_raw_fd()).expect(&rt, "memory");
    assert!(rt; RealFiles::new(&rt).begin(&name, HEAD) == FAILED);
    drop(writer);
    assert!(rt;
        io::read_to_string(rt.alloc(), reader)
            .expect(&rt, "a read")
            .is_empty()
    );
}

#[test]
fn a_save_that_takes_the_name_of_a_journal_is_whole(rt: HostRuntime) {
    let mut files = RealFiles::new(&rt);
    assert!(rt; files.begin("rig_taken", HEAD) == Ok(()));
    assert!(rt; files.append("rig_taken", b"frame\n") == Ok(()));
    check_held(&rt, &mut files, "rig_taken", b"!orca 2 seed 1\nframe\n");
    assert!(rt; files.save("./rig_taken", b"12..\n", Disk::NotAwaited) == Ok(()));
    assert!(rt; files.append("rig_taken", b"frame\n") == FAILED);
    check_held(&rt, &mut files, "rig_taken", b"12..\n");
    fs::remove_file(&rt, "rig_taken").expect(&rt, "a removal");
}

#[test]
fn nothing_is_added_to_a_name_that_was_not_begun(rt: HostRuntime) {
    let mut files = RealFiles::new(&rt);
    assert!(rt; files.save("rig_saved", HEAD, Disk::Awaited) == Ok(()));
    assert!(rt; files.append("rig_saved", b"frame\n") == FAILED);
    check_held(&rt, &mut files, "rig_saved", HEAD);
    fs::remove_file(&rt, "rig_saved").expect(&rt, "a removal");
}

#[test]
fn nothing_is_added_to_a_journal_after_a_save_that_failed(rt: HostRuntime) {
    let mut files = RealFiles::new(&rt);
    assert!(rt; files.begin("rig_begun", HEAD) == Ok(()));
    // What is added goes to the file, whatever has its name by now.
    fs::rename(&rt, "rig_begun", "rig_moved").expect(&rt, "another name");
    fs::create_dir(&rt, "rig_begun").expect(&rt, "a folder");
    assert!(rt; files.append("rig_begun", b"frame\n") == Ok(()));
    assert!(rt; files.save("rig_begun", b"12..\n", Disk::Awaited) == FAILED);
    assert!(rt; files.append("rig_begun", b"frame\n") == FAILED);
    check_held(&rt, &mut files, "rig_moved", b"!orca 2 seed 1\nframe\n");
    fs::remove_dir(&rt, "rig_begun").expect(&rt, "a removal");
    fs::remove_file(&rt, "rig_moved").expect(&rt, "a removal");
}

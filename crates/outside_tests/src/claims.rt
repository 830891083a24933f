use crate::saves::check_held;
use orca_base::limits::MAX_ROOM_BYTES;
use orca_edge::RealFiles;
use orca_rig::{Claim, Disk, Files, MemFiles, OutsideFault};
use std::fs::{OpenFile, OpenOptions};
use std::io::ErrorKind;
use std::os::unix::fs::{MetadataExt, symlink};
use std::os::unix::net::UnixListener;
use std::process::Abort;
use std::{fs, rt};

const FAILED: Result<(), OutsideFault> = Err(OutsideFault::Failed);

/// A grid, and what a claimed file has after it.
const TEXT: &[u8] = b"12..\n\n!orca 2 seed 1\n";

/// Nothing has this name, and no link leads there.
fn check_gone<R: Abort + rt::Files>(rt: &R, name: &str) {
    match fs::symlink_metadata(rt, name) {
        Err(error) => assert!(rt; error.kind() == ErrorKind::NotFound, "{name}"),
        Ok(_) => panic!(rt; "{name} is there"),
    }
}

#[test]
fn a_name_is_claimed_once(rt: HostRuntime) {
    let mut files = RealFiles::new(&rt);
    assert!(rt; files.claim("rig_claimed", TEXT) == Ok(Claim::Made));
    // It has no other name any more, and nobody else may read it.
    let found = fs::symlink_metadata(&rt, "rig_claimed").expect(&rt, "a file");
    assert!(rt; found.nlink() == 1);
    assert!(rt; found.mode() % 0o1000 == 0o600);
    for bytes in &[b"frame\n".as_slice(), b"", b"undo\n"] {
        assert!(rt; files.append("rig_claimed", *bytes) == Ok(()));
    }
    let all = b"12..\n\n!orca 2 seed 1\nframe\nundo\n";
    check_held(&rt, &mut files, "rig_claimed", all);
    // Whoever asks is told so, also by another way to it.
    let mut others = RealFiles::new(&rt);
    for name in &["rig_claimed", "./rig_claimed"] {
        assert!(rt; files.claim(*name, b"") == Ok(Claim::Held), "{name}");
        assert!(rt; others.claim(*name, b"") == Ok(Claim::Held), "{name}");
    }
    drop(files);
    assert!(rt; others.claim("rig_claimed", b"") == Ok(Claim::Left));
    assert!(rt; others.remove("rig_claimed") == FAILED);
    assert!(rt; others.append("rig_claimed", b"frame\n") == FAILED);
    check_held(&rt, &mut others, "rig_claimed", all);
    fs::remove_file(&rt, "rig_claimed").expect(&rt, "a removal");
}

#[test]
fn a_claimed_file_is_removed_once(rt: HostRuntime) {
    let mut files = RealFiles::new(&rt);
    assert!(rt; files.remove("rig_room") == FAILED);
    for _ in 0..2 {
        assert!(rt; files.claim("rig_room", TEXT) == Ok(Claim::Made));
        for name in &["rig_other", "./rig_room", ""] {
            assert!(rt; files.remove(*name) == FAILED, "{name}");
        }
        check_held(&rt, &mut files, "rig_room", TEXT);
        assert!(rt; files.remove("rig_room") == Ok(()));
        check_gone(&rt, "rig_room");
        assert!(rt; files.remove("rig_room") == FAILED);
    }
    // Nobody could find what is added.
    assert!(rt; files.append("rig_room", b"frame\n") == FAILED);
}

#[test]
fn what_has_the_name_is_left(rt: HostRuntime) {
    let mut holder = RealFiles::new(&rt);
    assert!(rt; holder.claim("rig_kept", TEXT) == Ok(Claim::Made));
    fs::write(&rt, "rig_piece", b"12..\n").expect(&rt, "a write");
    symlink(&rt, "rig_kept", "rig_to_kept").expect(&rt, "a link");
    symlink(&rt, "rig_missing", "rig_to_nothing").expect(&rt, "a link");
    let socket = UnixListener::bind(&rt, "rig_socket").expect(&rt, "a socket");
    let mut files = RealFiles::new(&rt);
    for name in &[
        "rig_piece",
        "rig_to_kept",
        "rig_to_nothing",
        "rig_socket",
        ".",
        "/dev/null",
        "/dev/full",
    ] {
        assert!(rt; files.claim(*name, b"") == Ok(Claim::Left), "{name}");
    }
    check_held(&rt, &mut files, "rig_piece", b"12..\n");
    check_held(&rt, &mut files, "rig_kept", TEXT);
    check_gone(&rt, "rig_missing");
    drop(socket);
    assert!(rt; holder.remove("rig_kept") == Ok(()));
    for name in &["rig_piece", "rig_to_kept", "rig_to_nothing", "rig_socket"] {
        fs::remove_file(&rt, *name).expect(&rt, "a removal");
    }
}

#[test]
fn a_file_that_took_the_name_is_not_removed(rt: HostRuntime) {
    let mut files = RealFiles::new(&rt);
    assert!(rt; files.claim("rig_lost", TEXT) == Ok(Claim::Made));
    fs::rename(&rt, "rig_lost", "rig_found").expect(&rt, "another name");
    assert!(rt; files.remove("rig_lost") == FAILED);
    assert!(rt; files.save("rig_lost", b"12..\n", Disk::NotAwaited) == Ok(()));
    assert!(rt; files.remove("rig_lost") == FAILED);
    // What is added goes to the file that was claimed.
    assert!(rt; files.append("rig_lost", b"frame\n") == Ok(()));
    check_held(&rt, &mut files, "rig_lost", b"12..\n");
    let all = b"12..\n\n!orca 2 seed 1\nframe\n";
    check_held(&rt, &mut files, "rig_found", all);
    for name in &["rig_lost", "rig_found"] {
        fs::remove_file(&rt, *name).expect(&rt, "a removal");
    }
}

#[test]
fn a_claim_that_fails_leaves_nothing(rt: HostRuntime) {
    let mut files = RealFiles::new(&rt);
    for name in &["no/such/folder", "/proc/rig_claimed", "/proc/self/comm/rig"] {
        assert!(rt;
            files.claim(*name, TEXT) == Err(OutsideFault::Failed),
            "{name}"
        );
        assert!(rt; files.append(*name, b"frame\n") == FAILED, "{name}");
        assert!(rt; files.remove(*name) == FAILED, "{name}");
    }
}

/// Claims and removals in a store where one file is left, and one is held by another program.
fn check_claims<F: Files>(rt: &impl Abort, files: &mut F) {
    for (name, found) in &[
        ("left", Claim::Left),
        ("held", Claim::Held),
        ("new", Claim::Made),
        ("new", Claim::Held),
    ] {
        assert!(rt; files.claim(*name, TEXT) == Ok(*found), "{name}");
    }
    assert!(rt; files.append("new", b"frame\n") == Ok(()));
    assert!(rt; files.remove("left") == FAILED);
    assert!(rt; files.remove("new") == Ok(()));
    assert!(rt; files.remove("new") == FAILED);
}

#[test]
fn a_store_in_memory_knows_who_holds_a_file(rt: HostRuntime) {
    let alloc = rt.alloc();
    let mut files = MemFiles::new(Vec::new(alloc), Vec::new(alloc)).expect(&rt, "memory");
    for name in &["left", "held"] {
        assert!(rt;
            files.save(*name, b"12..\n", Disk::NotAwaited) == Ok(()),
            "{name}"
        );
    }
    let held = String::from_str(alloc, "held").expect(&rt, "memory");
    files.hold(held).expect(&rt, "memory");
    check_claims(&rt, &mut files);
}

#[test]
fn a_room_has_a_most(rt: HostRuntime) {
    let mut files = RealFiles::new(&rt);
    assert!(rt; files.claim("rig_large", TEXT) == Ok(Claim::Made));
    let mut options = OpenOptions::new();
    let file = options.write(true).open(&rt, "rig_large");
    // It has no bytes on the disk but those that were written.
    let length = MAX_ROOM_BYTES as u64;
    let cut = file.expect(&rt, "a file").set_len(length - 2);
    cut.expect(&rt, "a length");
    assert!(rt; files.append("rig_large", b"ab") == Ok(()));
    assert!(rt; files.append("rig_large", b"c") == FAILED);
    let found = fs::metadata(&rt, "rig_large").expect(&rt, "a file");
    assert!(rt; found.len() == length);
    assert!(rt; files.remove("rig_large") == Ok(()));
}

#[test]
fn a_file_that_is_too_long_is_not_loaded(rt: HostRuntime) {
    let mut files = RealFiles::new(&rt);
    fs::write(&rt, "rig_five", b"12345").expect(&rt, "a write");
    let mut bytes = Vec::new(rt.alloc());
    assert!(rt; files.load("rig_five", 4, &mut bytes) == FAILED);
    assert!(rt; bytes.is_empty());
    assert!(rt; files.load("rig_five", 5, &mut bytes) == Ok(()));
    assert!(rt; bytes.as_slice() == b"12345".as_slice());
    fs::remove_file(&rt, "rig_five").expect(&rt, "a removal");
}

//! A song that is read.

use orca_smf::{SmfRefusal, Timed, read};
use std::test::Fail;

/// The file of a note at tick 0 that ends at tick 2, and of another one at tick 4 that ends with the song.
const NOTES: &[u8] = b"MThd\0\0\0\x06\0\0\0\x01\0\x04MTrk\0\0\0\x1b\0\xffQ\x03\x07\xa1\x20\
    \0\x90\x24\x77\x02\x80\x24\0\x02\x90\x24\x77\x01\x80\x24\0\0\xff/\0";

/// A message and its tick.
const fn timed(tick: u32, first: u8, second: u8, third: u8) -> Timed {
    Timed {
        tick,
        bytes: [first, second, third],
    }
}

#[test]
fn a_song_is_read_and_no_other_file(rt: HostRuntime) -> Result<(), Fail> {
    let song = read(rt.alloc(), NOTES).ok().ok_or("no song")?;
    let messages: &[Timed] = &[
        timed(0, 0x90, 0x24, 0x77),
        timed(2, 0x80, 0x24, 0),
        timed(4, 0x90, 0x24, 0x77),
        timed(5, 0x80, 0x24, 0),
    ];
    assert!(rt; song.tempo() == 500_000 && song.end() == 5);
    assert_eq!(rt; song.list(), messages);
    let cut = read(rt.alloc(), &NOTES[..NOTES.len() - 1]);
    assert!(rt; matches!(cut, Err(SmfRefusal::NotOurs)));
    Ok(())
}

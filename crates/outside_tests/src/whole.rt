use orca_base::limits::MAX_FILE_BYTES;
use orca_edge::whole::{read_whole, write_whole};
use std::alloc::Global;
use std::io;
use std::io::{ErrorKind, Read, Write};
use std::process::Abort;

/// A reader that gives one byte at each second turn, and then ends in this way.
#[derive(Drop)]
struct SlowReader {
    left: usize,
    interrupted: bool,
    end: Option<ErrorKind>,
}

impl Read for SlowReader {
    fn read(&mut self, into: &mut [u8]) -> io::Result<usize> {
        self.interrupted = !self.interrupted;
        if self.interrupted {
            return Err(io::Error::from(ErrorKind::Interrupted));
        }
        if self.left > 0 && into.len() > 0 {
            self.left -= 1;
            into[0] = b'.';
            return Ok(1);
        }
        match self.end {
            Some(kind) => Err(io::Error::from(kind)),
            None => Ok(0),
        }
    }
}

fn slow_reader(left: usize, end: Option<ErrorKind>) -> SlowReader {
    SlowReader {
        left,
        interrupted: false,
        end,
    }
}

/// A writer that takes at most so many bytes at once, and is interrupted at each second turn.
#[derive(Drop)]
struct SlowWriter {
    kept: Vec<u8>,
    most: usize,
    turns: u8,
    interrupted: bool,
}

impl Write for SlowWriter {
    fn write(&mut self, bytes: &[u8]) -> io::Result<usize> {
        self.turns = self.turns.saturating_add(1);
        self.interrupted = !self.interrupted;
        if self.interrupted {
            return Err(io::Error::from(ErrorKind::Interrupted));
        }
        let count = bytes.len().min(self.most);
        self.kept.extend_from_slice(&bytes[..count])?;
        Ok(count)
    }

    fn flush(&mut self) -> io::Result<()> {
        Ok(())
    }
}

fn slow_writer(alloc: Global, most: usize) -> SlowWriter {
    SlowWriter {
        kept: Vec::new(alloc),
        most,
        turns: 0,
        interrupted: false,
    }
}

/// How many bytes a reader has, how it ends, and how many of them are read.
const READS: [(usize, Option<ErrorKind>, Option<usize>); 4] = [
    (0, None, Some(0)),
    (3, None, Some(3)),
    (6000, None, Some(6000)),
    (3, Some(ErrorKind::Other), None),
];

/// How many bytes are read, if all are.
fn length_of(alloc: Global, reader: &mut SlowReader) -> Option<usize> {
    let bytes = read_whole(alloc, reader, MAX_FILE_BYTES as u32).ok()?;
    Some(bytes.len())
}

#[test]
fn reads_go_on_until_the_end(rt: HostRuntime) {
    for (count, end, wanted) in &READS {
        let length = length_of(rt.alloc(), &mut slow_reader(*count, *end));
        assert!(rt; length == *wanted, "{count} bytes");
    }
}

/// How many bytes a writer takes at once, and its turns for five bytes: each second one is interrupted.
const WRITES: [(usize, u8); 3] = [(2, 6), (5, 2), (0, 2)];

/// Writes five bytes, and says whether they are written in so many turns, or else refused.
fn is_right(to: &mut SlowWriter, turns: u8) -> bool {
    let is_written = write_whole(to, b"three").is_ok();
    let is_kept = to.kept.as_slice() == b"three".as_slice();
    is_written == (to.most > 0) && is_kept == (to.most > 0) && to.turns == turns
}

#[test]
fn writes_go_on_until_all_is_written(rt: HostRuntime) {
    for (most, turns) in &WRITES {
        assert!(rt;
            is_right(&mut slow_writer(rt.alloc(), *most), *turns),
            "{most} at once"
        );
    }
}

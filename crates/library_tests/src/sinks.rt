//! Sinks in memory, and sinks over a writer of the system that takes little or fails.
use guard_io::{MemSink, RealSink, Sink, SinkFault};
use std::io::{self, Write};

/// Nothing, a piece, and again nothing.
const PIECES: [&[u8]; 3] = [b"", b"abcd", b""];

/// A letter for how each piece is taken: `t`aken, `f`ailed, or no `m`emory.
fn puts<S: Sink>(sink: &mut S) -> [u8; 3] {
    let mut letters = [0; 3];
    for index in 0..3 {
        letters[index] = match sink.put(PIECES[index]) {
            Ok(()) => b't',
            Err(SinkFault::Failed) => b'f',
            Err(SinkFault::Memory) => b'm',
        };
    }
    letters
}

const TAKEN: [u8; 3] = [b't', b't', b't'];

const FAILED: [u8; 3] = [b't', b'f', b't'];

/// The room of a sink that holds a byte, how the pieces are taken, what it holds then, and how many faults it counts.
type Room = (u64, [u8; 3], &'static [u8], u64);

const ROOMS: &[Room] = &[
    (0, FAILED, b"<", 1),
    (1, FAILED, b"<", 1),
    (2, FAILED, b"<a", 1),
    (3, FAILED, b"<ab", 1),
    (4, FAILED, b"<abc", 1),
    (5, TAKEN, b"<abcd", 0),
    (6, TAKEN, b"<abcd", 0),
];

#[test]
fn takes_what_has_room(rt: HostRuntime) {
    for (room, wanted, held, faults) in ROOMS {
        let mut sink = MemSink {
            bytes: Vec::from_slice(rt.alloc(), b"<").expect(&rt, "a byte"),
            room: *room,
            faults: 0,
        };
        assert!(rt; puts(&mut sink) == *wanted, "{room}");
        assert!(rt;
            sink.bytes.as_slice() == *held && sink.faults == *faults,
            "{room}"
        );
    }
}

/// Takes `step` bytes a write until it holds `room`, and then none, or fails. Its flush fails where it holds `stuck`.
#[derive(Drop)]
struct Choppy {
    got: Vec<u8>,
    step: usize,
    room: usize,
    fails: bool,
    stuck: usize,
}

fn broken() -> io::Error {
    io::Error::from(io::ErrorKind::BrokenPipe)
}

impl Write for Choppy {
    fn write(&mut self, buf: &[u8]) -> io::Result<usize> {
        let left = self.room.saturating_sub(self.got.len());
        if left == 0 && self.fails {
            return Err(broken());
        }
        let taken = left.min(self.step).min(buf.len());
        self.got.extend_from_slice(&buf[..taken])?;
        Ok(taken)
    }

    fn flush(&mut self) -> io::Result<()> {
        if self.got.len() == self.stuck {
            return Err(broken());
        }
        Ok(())
    }
}

/// The steps of a writer, its room, whether it fails then and where its flush fails; and how pieces are taken, what the writer
/// got, and how many faults are counted.
type Case = ((usize, usize, bool, usize), ([u8; 3], &'static [u8], u64));

/// A byte a write; several; a writer that takes nothing more; one that fails; a flush that fails after the whole piece.
const WRITERS: &[Case] = &[
    ((1, 9, false, 9), (TAKEN, b"abcd", 0)),
    ((3, 9, false, 9), (TAKEN, b"abcd", 0)),
    ((3, 0, false, 9), (FAILED, b"", 1)),
    ((1, 2, false, 9), (FAILED, b"ab", 1)),
    ((3, 0, true, 9), (FAILED, b"", 1)),
    ((1, 2, true, 9), (FAILED, b"ab", 1)),
    ((3, 9, false, 4), (FAILED, b"abcd", 1)),
];

#[test]
fn writes_until_the_writer_fails(rt: HostRuntime) {
    for (row, ((step, room, fails, stuck), (wanted, text, faults))) in WRITERS.iter().enumerate() {
        let writer = Choppy {
            got: Vec::new(rt.alloc()),
            step: *step,
            room: *room,
            fails: *fails,
            stuck: *stuck,
        };
        let mut sink = RealSink { writer, faults: 0 };
        assert!(rt; puts(&mut sink) == *wanted, "{row}");
        assert!(rt;
            sink.writer.got.as_slice() == *text && sink.faults == *faults,
            "{row}"
        );
    }
}

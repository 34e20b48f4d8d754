//! Files of a system whose reads fail in mid-stream.
use crate::files::loads;
use guard_io::{Files, RealFiles};
use std::alloc::Allocator;
use std::fs::{self, Metadata, OpenFile, OpenOptions};
use std::io::{self, ErrorKind, Read, Seek, SeekFrom, Write};

fn broken() -> io::Error {
    io::Error::from(ErrorKind::ConnectionReset)
}

fn reset<T>() -> io::Result<T> {
    Err(io::Error::from(ErrorKind::ConnectionReset))
}

/// What each file begins with.
const TEXT: &[u8] = b"abc";

/// Gives the bytes of the text one at a time, and then an error.
#[derive(Drop)]
struct Breaking {
    /// How many it gave.
    given: usize,
}

impl Read for Breaking {
    fn read(&mut self, buf: &mut [u8]) -> io::Result<usize> {
        if TEXT.len() <= self.given || buf.is_empty() {
            return Err(broken());
        }
        buf[0] = TEXT[self.given];
        self.given += 1;
        Ok(1)
    }
}

impl Write for Breaking {
    fn write(&mut self, _buf: &[u8]) -> io::Result<usize> {
        Err(broken())
    }

    fn flush(&mut self) -> io::Result<()> {
        reset()
    }
}

impl Seek for Breaking {
    fn seek(&mut self, _to: SeekFrom) -> io::Result<u64> {
        reset()
    }
}

impl OpenFile for Breaking {
    fn metadata(&self) -> io::Result<Metadata> {
        reset()
    }

    fn set_len(&self, _size: u64) -> io::Result<()> {
        reset()
    }

    fn sync_all(&self) -> io::Result<()> {
        reset()
    }

    fn sync_data(&self) -> io::Result<()> {
        reset()
    }
}

/// A system in which each file is such a one.
#[derive(Drop)]
struct System;

impl fs::Files for System {
    type File = Breaking;

    type Dir = Breaking;

    fn open_file(&self, _how: &OpenOptions, _path: &str) -> io::Result<Breaking> {
        Ok(Breaking { given: 0 })
    }

    fn open_dir(&self, _path: &str) -> io::Result<Breaking> {
        reset()
    }

    fn metadata(&self, _path: &str) -> io::Result<Metadata> {
        reset()
    }

    fn symlink_metadata(&self, _path: &str) -> io::Result<Metadata> {
        reset()
    }

    fn copy(&self, _from: &str, _to: &str) -> io::Result<u64> {
        reset()
    }

    fn rename(&self, _from: &str, _to: &str) -> io::Result<()> {
        reset()
    }

    fn remove_file(&self, _path: &str) -> io::Result<()> {
        reset()
    }

    fn create_dir(&self, _path: &str) -> io::Result<()> {
        reset()
    }

    fn remove_dir(&self, _path: &str) -> io::Result<()> {
        reset()
    }

    fn remove_dir_all<B: Allocator>(&self, _alloc: B, _path: &str) -> io::Result<()> {
        reset()
    }
}

#[test]
fn keeps_what_came_before_a_failed_read(rt: HostRuntime) {
    let mut files = RealFiles {
        rt: &System,
        faults: 0,
    };
    let mut text = Vec::new(rt.alloc());
    let asked = &[("a", 0), ("a", 2), ("a", 3), ("a", 4)];
    assert!(rt; loads(&mut files, asked, &mut text));
    assert!(rt; text.as_slice() == b" loaded\nab loaded\nabc loaded\nabc failed\n".as_slice());
    assert!(rt; files.faults == 1);
}

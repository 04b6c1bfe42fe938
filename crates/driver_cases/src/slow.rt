// A system whose files and output go a few bytes at a time, and fail.

use std::alloc::Allocator;
use std::cell::Cell;
use std::fmt::Display;
use std::fs::{Metadata, OpenFile, OpenOptions};
use std::io::{self, Read, Seek, SeekFrom, Write};
use std::rt::Files;

/// Gives or takes at most `step` bytes a call, and fails from the call behind the first `good` ones on.
#[derive(Clone, Copy)]
pub struct Slow<'a> {
    pub calls: &'a Cell<u32>,
    pub good: u32,
    pub step: usize,
}

fn unsupported<T>() -> io::Result<T> {
    Err(io::ErrorKind::Unsupported.into())
}

impl Slow<'_> {
    /// Counts a call, and tells whether it goes well.
    fn goes_on(&self) -> bool {
        let calls = self.calls.get().saturating_add(1);
        self.calls.set(calls);
        calls <= self.good
    }
}

impl Read for Slow<'_> {
    fn read(&mut self, buf: &mut [u8]) -> io::Result<usize> {
        if !self.goes_on() {
            return Err(io::ErrorKind::Interrupted.into());
        }
        let count = buf.len().min(self.step);
        buf[..count].fill(b'x');
        Ok(count)
    }
}

impl Write for Slow<'_> {
    fn write(&mut self, buf: &[u8]) -> io::Result<usize> {
        self.write_some(buf)
    }

    fn flush(&mut self) -> io::Result<()> {
        Ok(())
    }
}

impl Seek for Slow<'_> {
    fn seek(&mut self, _to: SeekFrom) -> io::Result<u64> {
        unsupported()
    }
}

impl OpenFile for Slow<'_> {
    fn metadata(&self) -> io::Result<Metadata> {
        unsupported()
    }

    fn set_len(&self, _size: u64) -> io::Result<()> {
        unsupported()
    }

    fn sync_all(&self) -> io::Result<()> {
        unsupported()
    }

    fn sync_data(&self) -> io::Result<()> {
        unsupported()
    }
}

impl Print for Slow<'_> {
    fn print<D: Display + Drop>(&self, _value: D) -> io::Result<()> {
        unsupported()
    }

    fn println<D: Display + Drop>(&self, _value: D) -> io::Result<()> {
        unsupported()
    }

    fn write_all(&self, _bytes: &[u8]) -> io::Result<()> {
        unsupported()
    }

    fn write_some(&self, bytes: &[u8]) -> io::Result<usize> {
        if self.goes_on() {
            Ok(bytes.len().min(self.step))
        } else {
            Ok(0)
        }
    }
}

/// Each file is the same stream, whatever its name.
impl<'a> Files for Slow<'a> {
    type File = Slow<'a>;

    type Dir = Slow<'a>;

    fn open_file(&self, _how: &OpenOptions, _path: &str) -> io::Result<Slow<'a>> {
        Ok(*self)
    }

    fn open_dir(&self, _path: &str) -> io::Result<Slow<'a>> {
        unsupported()
    }

    fn metadata(&self, _path: &str) -> io::Result<Metadata> {
        unsupported()
    }

    fn symlink_metadata(&self, _path: &str) -> io::Result<Metadata> {
        unsupported()
    }

    fn copy(&self, _from: &str, _to: &str) -> io::Result<u64> {
        unsupported()
    }

    fn rename(&self, _from: &str, _to: &str) -> io::Result<()> {
        unsupported()
    }

    fn remove_file(&self, _path: &str) -> io::Result<()> {
        unsupported()
    }

    fn create_dir(&self, _path: &str) -> io::Result<()> {
        unsupported()
    }

    fn remove_dir(&self, _path: &str) -> io::Result<()> {
        unsupported()
    }

    fn remove_dir_all<B: Allocator>(&self, _alloc: B, _path: &str) -> io::Result<()> {
        unsupported()
    }
}

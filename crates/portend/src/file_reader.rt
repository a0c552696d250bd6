//! Reading files at a place, with the one that was read last kept open.

ghost use Rattle.std.specs.Prelude.{◌≤◌, length, IfOk};

use std::fs::File;
use std::io;
use std::io::{Read, Seek, SeekFrom};
use std::rt::Files;

/// Reads the files of a runtime. What is read in order is read from one open file, so that a pipe can be read
/// as well.
#[derive(Drop)]
pub struct FileReader<'r, R: Files + AllocGlobal> {
    rt: &'r R,
    opened: Option<Opened<R::File>>,
}

/// An open file, and how many of its bytes were read.
#[derive(Drop)]
struct Opened<F> {
    path: String,
    file: F,
    at: u64,
}

impl<'r, R: Files + AllocGlobal> FileReader<'r, R> {
    pub fn new(rt: &'r R) -> FileReader<'r, R> {
        FileReader { rt, opened: None }
    }

    /// Reads from place `at` on, and answers how many bytes it read: 0 at the end.
    pub fn read(&mut self, path: &str, at: u64, buf: &mut [u8]) -> io::Result<usize>
        ensures { IfOk result (λ count. count ≤ length buf.old) }
    {
        let mut opened = match self.opened.take() {
            Some(opened) if opened.path.as_str() == path && opened.at == at => opened,
            _ => self.open(path, at)?,
        };
        let count = opened.file.read(buf)?;
        opened.at = at.saturating_add(count as u64);
        self.opened = Some(opened);
        Ok(count)
    }

    fn open(&self, path: &str, at: u64) -> io::Result<Opened<R::File>> {
        let mut file = File::open(self.rt, path)?;
        if at > 0 {
            file.seek(SeekFrom::Start(at))?;
        }
        let path = String::from_str(self.rt.alloc(), path)?;
        Ok(Opened { path, file, at })
    }
}

//! A file that is opened when it is first written to.

use std::fs::File;
use std::io;
use std::io::{ErrorKind, Write};
use std::rt::Files;

/// A file to write, which is made or emptied at the first write. With no path, each write fails.
#[derive(Drop)]
pub struct LazyFile<'r, R: Files> {
    rt: &'r R,
    path: Option<&'r str>,
    file: Option<R::File>,
}

impl<'r, R: Files> LazyFile<'r, R> {
    pub fn new(rt: &'r R, path: Option<&'r str>) -> LazyFile<'r, R> {
        LazyFile {
            rt,
            path,
            file: None,
        }
    }
}

impl<R: Files> Write for LazyFile<'_, R> {
    fn write(&mut self, piece: &[u8]) -> io::Result<usize> {
        if self.file.is_none() {
            let Some(path) = self.path else {
                return Err(io::Error::from(ErrorKind::NotFound));
            };
            self.file = Some(File::create(self.rt, path)?);
        }
        match &mut self.file {
            Some(file) => file.write(piece),
            None => Ok(0),
        }
    }

    fn flush(&mut self) -> io::Result<()> {
        Ok(())
    }
}

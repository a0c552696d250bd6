//! A shelf of the files of a file system.

ghost use Rattle.std.specs.Prelude.{◌≡◌, None};

use crate::file_reader::FileReader;
use rc_base::{Failed, Shelf};
use std::rt::Files;

/// The files of a runtime, by their paths. It counts bytes and failures, and tells no bytes.
#[derive(Drop)]
pub struct FileShelf<'r, R: Files + AllocGlobal> {
    reader: FileReader<'r, R>,
    given: u64,
    faults: u64,
}

impl<'r, R: Files + AllocGlobal> FileShelf<'r, R> {
    pub fn new(rt: &'r R) -> FileShelf<'r, R>
        ensures given { result.given ≡ 0 }
        ensures faults { result.faults ≡ 0 }
    {
        FileShelf {
            reader: FileReader::new(rt),
            given: 0,
            faults: 0,
        }
    }
}

impl<R: Files + AllocGlobal> Shelf for FileShelf<'_, R> {
    ghost holds = { λ _ _. None };

    ghost given = { λ shelf. shelf.given };

    ghost faults = { λ shelf. shelf.faults };

    fn read(&mut self, name: &str, at: u64, buf: &mut [u8]) -> Result<usize, Failed> {
        match self.reader.read(name, at, buf) {
            Ok(count) => {
                self.given = self.given.saturating_add(count as u64);
                Ok(count)
            }
            Err(_) => {
                self.faults = self.faults.saturating_add(1);
                Err(Failed)
            }
        }
    }
}

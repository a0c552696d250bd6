//! The files that a command names, by the order of reading.

ghost use Rattle.std.specs.Prelude.{◌≡◌};
ghost use Rattle.race_top.specs.File.{limit_of, number_of};

/// A file that a command names.
#[derive(Clone, Copy, Debug, PartialEq, Eq)]
pub enum File {
    Module,
    Case,
}

impl File {
    /// How many bytes the file may have: 4 MiB for a module, 1 MiB for a case.
    pub fn limit(self) -> u64
        ensures { result ≡ limit_of self }
    {
        match self {
            File::Module => 4 << 20,
            File::Case => 1 << 20,
        }
    }

    /// The file's number in a refusal, in the order of reading.
    pub fn number(self) -> u32
        ensures { result ≡ number_of self }
    {
        match self {
            File::Module => 1,
            File::Case => 2,
        }
    }
}

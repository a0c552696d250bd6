//! The words of the command line.

ghost use Rattle.std.specs.Prelude.{◌≡◌, option_copied, slice_get};

use race_top::{NO_MEMORY, USAGE};
use rc_base::Words;
use std::env;
use std::io::ErrorKind;
use std::rt::Env;

/// The words after the program's name, or the exit status where there are none to run: arguments that are no
/// text are no command.
pub fn command_words<R: AllocGlobal + Env>(rt: &R) -> Result<Words, u8> {
    let arguments = match env::args(rt) {
        Ok(arguments) => arguments,
        Err(error) if error.kind() == ErrorKind::OutOfMemory => return Err(NO_MEMORY),
        Err(_) => return Err(USAGE),
    };
    let mut words = Words::new(rt.alloc());
    for argument in arguments.skip(1) {
        if words.push(argument.as_str()).is_err() {
            return Err(NO_MEMORY);
        }
    }
    Ok(words)
}

/// The path of the proofs' file, which is the fourth word where there is one.
pub fn proofs_path(words: &Words) -> Option<&str>
    ensures { option_copied result ≡ slice_get words.now 3 }
{
    if words.count() > 3 {
        Some(words.word(3))
    } else {
        None
    }
}

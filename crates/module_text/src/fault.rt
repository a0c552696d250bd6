//! What a fault of a module is called, and where it is.

ghost use Rattle.std.specs.Prelude.{◌≡◌};
ghost use Rattle.module_text.specs.Fault.{line_of, name_of};

use ir_read::ModuleError;

/// What is wrong, in a word.
pub fn fault_name(error: ModuleError) -> &'static str
    ensures { result.now ≡ name_of error }
{
    match error {
        ModuleError::Lexical { .. } => "Lexical",
        ModuleError::Syntax { .. } => "Syntax",
        ModuleError::Unsupported { .. } => "Unsupported",
        ModuleError::UnknownName { .. } => "UnknownName",
        ModuleError::Duplicate { .. } => "Duplicate",
        ModuleError::TypeMismatch { .. } => "TypeMismatch",
        ModuleError::BadShape { .. } => "BadShape",
    }
}

/// The number of the line, from 1; it is 0 where no `main` is defined.
pub fn fault_line(error: ModuleError) -> u32
    ensures { result ≡ line_of error }
{
    match error {
        ModuleError::Lexical { line }
        | ModuleError::Syntax { line }
        | ModuleError::Unsupported { line }
        | ModuleError::UnknownName { line }
        | ModuleError::Duplicate { line }
        | ModuleError::TypeMismatch { line }
        | ModuleError::BadShape { line } => line,
    }
}

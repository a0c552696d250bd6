//! Formats of `printf` in modules, with the arguments that they ask for, worked out by hand.

use crate::modules::fault_in;
use crate::texts::with_main;
use module_fault::Cause;
use module_fault::Cause::{TypeMismatch, Unsupported};
use std::test::Fail;

/// How many bytes a format has, the zero byte at its end counted; the format before that byte; the arguments behind it.
static FORMATS: [(u32, &str, &str, Option<Cause>); 35] = [
    (1, "", "", None),
    (5, "%%%%", "", None),
    (9, "ends\\00%lc", "", None),
    (
        11,
        "%d%i%u%x%c",
        ", i32 1, i32 1, i32 1, i32 1, i32 1",
        None,
    ),
    (13, "%ld%li%lu%lx", ", i64 1, i64 1, i64 1, i64 1", None),
    (17, "%lld%lli%llu%llx", ", i64 1, i64 1, i64 1, i64 1", None),
    (13, "%zd%zi%zu%zx", ", i64 1, i64 1, i64 1, i64 1", None),
    (6, "%s%%d", ", ptr null", None),
    (3, "%c", ", i8 1", Some(TypeMismatch)),
    (3, "%x", ", i64 1", Some(TypeMismatch)),
    (4, "%zu", ", i32 1", Some(TypeMismatch)),
    (3, "%s", ", i64 1", Some(TypeMismatch)),
    (3, "%%", ", i32 1", Some(TypeMismatch)),
    (6, "%d\\00%d", ", i32 1, i32 1", Some(TypeMismatch)),
    (2, "%", "", Some(Unsupported)),
    (3, "%l", "", Some(Unsupported)),
    (4, "%ll", "", Some(Unsupported)),
    (3, "%z", "", Some(Unsupported)),
    (4, "%%%", "", Some(Unsupported)),
    (3, "%\\00", "", Some(Unsupported)),
    (4, "%lc", "", Some(Unsupported)),
    (4, "%ls", "", Some(Unsupported)),
    (4, "%zc", "", Some(Unsupported)),
    (4, "%5d", "", Some(Unsupported)),
    (4, "%-d", "", Some(Unsupported)),
    (5, "%.2d", "", Some(Unsupported)),
    (4, "% d", "", Some(Unsupported)),
    (4, "%hd", "", Some(Unsupported)),
    (3, "%p", "", Some(Unsupported)),
    (3, "%f", "", Some(Unsupported)),
    (3, "%D", "", Some(Unsupported)),
    (3, "%n", "", Some(Unsupported)),
    (5, "%lzd", "", Some(Unsupported)),
    (5, "%zld", "", Some(Unsupported)),
    (6, "%llld", "", Some(Unsupported)),
];

#[test]
fn formats_ask_for_their_arguments(rt: HostRuntime) -> Result<(), Fail> {
    let alloc = rt.alloc();
    for (size, format, arguments, cause) in FORMATS {
        let items = format!(in alloc;
            "declare void @printf()\n@f = constant [{size} x i8] c\"{format}\\00\"\n"
        )?;
        let body = format!(in alloc; "call i32 @printf(ptr @f{arguments})\nret i32 0")?;
        let text = with_main(alloc, items.as_str(), body.as_str())?;
        let wanted = cause.map(|cause| (4, cause));
        assert_eq!(rt; fault_in(rt.alloc(), text.as_str())?, wanted, "{text}");
    }
    Ok(())
}

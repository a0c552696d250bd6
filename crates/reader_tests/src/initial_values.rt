//! What globals begin with, or what is wrong with it, worked out by hand.

use crate::modules::fault_in;
use module_fault::Cause;
use module_fault::Cause::{TypeMismatch, UnknownName};
use std::test::Fail;

/// What stands behind the global.
const BEHIND: &str = "@t = global %pair zeroinitializer
%pair = type { i8, i32 }
%tight = type <{ i8, [2 x i8] }>
define i32 @main() {
ret i32 0
}
";

/// Types and values of a global `@x`, with what is wrong.
static VALUES: [(&str, Option<Cause>); 81] = [
    // Words.
    ("i8 -1", None),
    ("i1 true", None),
    ("ptr null", None),
    ("i64 18446744073709551615", None),
    ("[2 x %pair] zeroinitializer", None),
    ("i32 null", Some(TypeMismatch)),
    ("ptr 5", Some(TypeMismatch)),
    ("i8 true", Some(TypeMismatch)),
    ("[2 x i8] 5", Some(TypeMismatch)),
    ("{ i8 } 5", Some(TypeMismatch)),
    ("[2 x ptr] null", Some(TypeMismatch)),
    ("%pair null", Some(TypeMismatch)),
    ("{ [02 x i8] } { [2 x i8] zeroinitializer }", None),
    ("{ [0 x i64], i8 } { [0 x i64] [], i8 1 }", None),
    // Addresses.
    ("ptr @x", None),
    ("ptr @t", None),
    ("ptr getelementptr (%pair, ptr @t, i64 0, i32 1)", None),
    ("ptr inttoptr (i16 -1 to ptr)", None),
    ("i64 @t", Some(TypeMismatch)),
    ("[1 x ptr] @t", Some(TypeMismatch)),
    ("i64 getelementptr (i8, ptr @t, i64 0)", Some(TypeMismatch)),
    (
        "ptr getelementptr (%pair, ptr @t, i64 0, i32 2)",
        Some(TypeMismatch),
    ),
    ("i64 inttoptr (i64 5 to ptr)", Some(TypeMismatch)),
    ("ptr inttoptr (ptr null to ptr)", Some(TypeMismatch)),
    ("ptr @none", Some(UnknownName)),
    ("ptr @main", Some(UnknownName)),
    (
        "ptr getelementptr (i8, ptr @main, i64 0)",
        Some(UnknownName),
    ),
    (
        "ptr getelementptr (%none, ptr @t, i64 0)",
        Some(UnknownName),
    ),
    // Strings.
    ("[2 x i8] c\"ab\"", None),
    ("[2 x i8] c\"a\\00\"", None),
    ("[0 x i8] c\"\"", None),
    ("[2 x i8] c\"abc\"", Some(TypeMismatch)),
    ("[3 x i8] c\"ab\"", Some(TypeMismatch)),
    ("[1 x i16] c\"ab\"", Some(TypeMismatch)),
    ("i8 c\"a\"", Some(TypeMismatch)),
    ("{ i8 } c\"a\"", Some(TypeMismatch)),
    ("[1 x [1 x i8]] c\"a\"", Some(TypeMismatch)),
    // Arrays.
    ("[2 x i16] [i16 1, i16 2]", None),
    ("[0 x i8] []", None),
    ("[1 x [2 x i8]] [[2 x i8] [i8 1, i8 2]]", None),
    (
        "[2 x %pair] [%pair { i8 1, i32 2 }, %\"pair\" zeroinitializer]",
        None,
    ),
    ("[2 x i8] [i8 1]", Some(TypeMismatch)),
    ("[2 x i8] [i8 1, i8 2, i8 3]", Some(TypeMismatch)),
    ("[2 x i8] []", Some(TypeMismatch)),
    ("[2 x i8] [i8 1, i16 2]", Some(TypeMismatch)),
    ("[2 x i8] [i8 1, i8 null]", Some(TypeMismatch)),
    ("[1 x [2 x i8]] [[3 x i8] c\"abc\"]", Some(TypeMismatch)),
    ("[1 x [2 x i8]] [[2 x i8] [i8 1]]", Some(TypeMismatch)),
    ("[2 x i8] { i8 1, i8 2 }", Some(TypeMismatch)),
    ("[2 x i8] <{ i8 1, i8 2 }>", Some(TypeMismatch)),
    ("i32 [i32 5]", Some(TypeMismatch)),
    // Structs.
    ("{ i8, i32 } { i8 1, i32 2 }", None),
    ("<{ i8, i32 }> <{ i8 1, i32 2 }>", None),
    ("%pair { i8 1, i32 2 }", None),
    ("%tight <{ i8 1, [2 x i8] c\"ab\" }>", None),
    ("{} {}", None),
    ("<{}> <{}>", None),
    (
        "{ %pair, { ptr } } { %pair { i8 1, i32 2 }, { ptr } { ptr @x } }",
        None,
    ),
    ("<{ i8, i32 }> { i8 1, i32 2 }", Some(TypeMismatch)),
    ("{ i8, i32 } <{ i8 1, i32 2 }>", Some(TypeMismatch)),
    ("%pair <{ i8 1, i32 2 }>", Some(TypeMismatch)),
    ("%tight { i8 1, [2 x i8] c\"ab\" }", Some(TypeMismatch)),
    ("{ i8, i8 } [i8 1, i8 2]", Some(TypeMismatch)),
    ("{ i8, i8 } { i8 1 }", Some(TypeMismatch)),
    ("{ i8 } { i8 1, i8 2 }", Some(TypeMismatch)),
    ("{ i8 } {}", Some(TypeMismatch)),
    ("ptr {}", Some(TypeMismatch)),
    ("i8 <{}>", Some(TypeMismatch)),
    ("{ i8, i32 } { i8 1, i64 2 }", Some(TypeMismatch)),
    ("{ ptr } { i64 0 }", Some(TypeMismatch)),
    ("{ i8 } { i8 null }", Some(TypeMismatch)),
    (
        "{ %pair } { { i8, i32 } { i8 1, i32 2 } }",
        Some(TypeMismatch),
    ),
    (
        "{ { i8, i32 } } { %pair { i8 1, i32 2 } }",
        Some(TypeMismatch),
    ),
    ("{ <{ i8 }> } { { i8 } { i8 1 } }", Some(TypeMismatch)),
    ("{ %pair } { %tight zeroinitializer }", Some(TypeMismatch)),
    // Names that nothing gives, in types and in values.
    ("%none zeroinitializer", Some(UnknownName)),
    ("[0 x { %none }] zeroinitializer", Some(UnknownName)),
    ("{ i8 } { %none zeroinitializer }", Some(UnknownName)),
    ("{ ptr } { ptr @main }", Some(UnknownName)),
    ("[2 x ptr] [ptr null, ptr @none]", Some(UnknownName)),
    ("[1 x ptr] [i8 1, ptr @none]", Some(UnknownName)),
];

#[test]
fn values_fit_their_types(rt: HostRuntime) -> Result<(), Fail> {
    for (value, cause) in VALUES {
        let text = format!(in rt.alloc(); "@x = global {value}\n{BEHIND}")?;
        let wanted = cause.map(|cause| (1, cause));
        assert_eq!(rt; fault_in(rt.alloc(), text.as_str())?, wanted, "{text}");
    }
    Ok(())
}

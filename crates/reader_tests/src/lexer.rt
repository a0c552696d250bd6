//! The tokens of texts, worked out by hand: a token's kind, its bytes and its line, and where none begins.

use ir_lex::TokenKind::{Global, Label, Local, Mark, Meta, Number, Text, Word};
use ir_lex::{LexError, Lexer, MOST_BYTES, Token, TokenKind};
use std::test::Fail;

/// A token's kind, its bytes, how many bytes stand before it, and its line.
type Row = (TokenKind, &'static str, u32, u32);

/// A text, its tokens, and where no token begins behind them.
static TEXTS: [(&str, &[Row], Option<LexError>); 54] = [
    // Nothing but what lies between tokens.
    ("", &[], None),
    (" \t\r\n;\n; c", &[], None),
    ("source_filename = ~", &[], None),
    (
        " \t\rtargets = ~\nattributes1:\n!dbg !5\n#dbg_ \"",
        &[],
        None,
    ),
    (
        "call void@llvm.dbg.~\ntail call void \t @llvm.lifetime.\ndeclare void @llvm.dbg.\n",
        &[],
        None,
    ),
    // A line is skipped only by its first bytes, with single spaces, and by a whole marker.
    (
        "x target",
        &[(Word, "x", 0, 1), (Word, "target", 2, 1)],
        None,
    ),
    (
        "call  void @llvm.dbg.",
        &[
            (Word, "call", 0, 1),
            (Word, "void", 6, 1),
            (Global, "@llvm.dbg.", 11, 1),
        ],
        None,
    ),
    (
        "call void @llvm.dbg",
        &[
            (Word, "call", 0, 1),
            (Word, "void", 5, 1),
            (Global, "@llvm.dbg", 10, 1),
        ],
        None,
    ),
    (
        "call void\n@llvm.dbg.",
        &[
            (Word, "call", 0, 1),
            (Word, "void", 5, 1),
            (Global, "@llvm.dbg.", 10, 2),
        ],
        None,
    ),
    ("Target", &[(Word, "Target", 0, 1)], None),
    (
        "ret\n !x 2\nptr",
        &[(Word, "ret", 0, 1), (Word, "ptr", 10, 3)],
        None,
    ),
    // Lines of modules.
    (
        "@g = global i32 0.5\n",
        &[
            (Global, "@g", 0, 1),
            (Mark, "=", 3, 1),
            (Word, "global", 5, 1),
            (Word, "i32", 12, 1),
            (Number, "0", 16, 1),
        ],
        Some(LexError { line: 1, at: 17 }),
    ),
    (
        "c\"%d\\0A\\00\", align 1 ; c\ndeclare i32 @f(ptr, ...) #2\nattributes #0 = { ~",
        &[
            (Text, "c\"%d\\0A\\00\"", 0, 1),
            (Mark, ",", 11, 1),
            (Word, "align", 13, 1),
            (Number, "1", 19, 1),
            (Word, "declare", 25, 2),
            (Word, "i32", 33, 2),
            (Global, "@f", 37, 2),
            (Mark, "(", 39, 2),
            (Word, "ptr", 40, 2),
            (Mark, ",", 43, 2),
            (Mark, "...", 45, 2),
            (Mark, ")", 48, 2),
            (Meta, "#2", 50, 2),
        ],
        None,
    ),
    (
        "ret i32 0 ; \"open\n}",
        &[
            (Word, "ret", 0, 1),
            (Word, "i32", 4, 1),
            (Number, "0", 8, 1),
            (Mark, "}", 18, 2),
        ],
        None,
    ),
    (
        "br label %target\ntarget:\nret",
        &[
            (Word, "br", 0, 1),
            (Word, "label", 3, 1),
            (Local, "%target", 9, 1),
            (Word, "ret", 25, 3),
        ],
        None,
    ),
    // Names, plain and quoted.
    ("%a$.b_-1", &[(Local, "%a$.b_-1", 0, 1)], None),
    (
        "@\"a ;\\22\"=%\"\"",
        &[
            (Global, "@\"a ;\\22\"", 0, 1),
            (Mark, "=", 9, 1),
            (Local, "%\"\"", 10, 1),
        ],
        None,
    ),
    (
        "%0x:",
        &[(Local, "%0x", 0, 1)],
        Some(LexError { line: 1, at: 3 }),
    ),
    ("@", &[], Some(LexError { line: 1, at: 0 })),
    ("\n %", &[], Some(LexError { line: 2, at: 2 })),
    ("%\"a\n\"", &[], Some(LexError { line: 1, at: 0 })),
    // Labels.
    (
        "x-1:4:-:",
        &[
            (Label, "x-1:", 0, 1),
            (Label, "4:", 4, 1),
            (Label, "-:", 6, 1),
        ],
        None,
    ),
    (
        "\"a b\": $:",
        &[(Label, "\"a b\":", 0, 1), (Label, "$:", 7, 1)],
        None,
    ),
    ("...:", &[(Label, "...:", 0, 1)], None),
    (
        "x :",
        &[(Word, "x", 0, 1)],
        Some(LexError { line: 1, at: 2 }),
    ),
    (
        "c\"a\":",
        &[(Text, "c\"a\"", 0, 1)],
        Some(LexError { line: 1, at: 4 }),
    ),
    (":", &[], Some(LexError { line: 1, at: 0 })),
    // Words and numbers.
    (
        "add i32_.x4",
        &[(Word, "add", 0, 1), (Word, "i32_.x4", 4, 1)],
        None,
    ),
    (
        "a-b",
        &[(Word, "a", 0, 1)],
        Some(LexError { line: 1, at: 1 }),
    ),
    ("a-1", &[(Word, "a", 0, 1), (Number, "-1", 1, 1)], None),
    (
        "4x -12 007",
        &[
            (Number, "4", 0, 1),
            (Word, "x", 1, 1),
            (Number, "-12", 3, 1),
            (Number, "007", 7, 1),
        ],
        None,
    ),
    (
        "1-1-1",
        &[
            (Number, "1", 0, 1),
            (Number, "-1", 1, 1),
            (Number, "-1", 3, 1),
        ],
        None,
    ),
    ("1-1-1:", &[(Label, "1-1-1:", 0, 1)], None),
    (
        "0.5",
        &[(Number, "0", 0, 1)],
        Some(LexError { line: 1, at: 1 }),
    ),
    ("-", &[], Some(LexError { line: 1, at: 0 })),
    ("_x", &[], Some(LexError { line: 1, at: 0 })),
    // Quoted texts.
    (
        "c\"a;\\0A\" \"\\\"",
        &[(Text, "c\"a;\\0A\"", 0, 1), (Text, "\"\\\"", 9, 1)],
        None,
    ),
    (
        "x c\"ab",
        &[(Word, "x", 0, 1), (Word, "c", 2, 1)],
        Some(LexError { line: 1, at: 3 }),
    ),
    ("\n\n\"ab ; c", &[], Some(LexError { line: 3, at: 2 })),
    // Words that are skipped, and the marks beside them.
    (
        "x !dbg !5 #0 !",
        &[
            (Word, "x", 0, 1),
            (Meta, "!dbg", 2, 1),
            (Meta, "!5", 7, 1),
            (Meta, "#0", 10, 1),
            (Mark, "!", 13, 1),
        ],
        None,
    ),
    (
        "x !a-1",
        &[(Word, "x", 0, 1), (Meta, "!a", 2, 1), (Number, "-1", 4, 1)],
        None,
    ),
    (
        "x #x",
        &[(Word, "x", 0, 1)],
        Some(LexError { line: 1, at: 2 }),
    ),
    // Marks.
    (
        "(...)",
        &[(Mark, "(", 0, 1), (Mark, "...", 1, 1), (Mark, ")", 4, 1)],
        None,
    ),
    (
        "....",
        &[(Mark, "...", 0, 1)],
        Some(LexError { line: 1, at: 3 }),
    ),
    (".", &[], Some(LexError { line: 1, at: 0 })),
    (
        "=,*[]{}<>|",
        &[
            (Mark, "=", 0, 1),
            (Mark, ",", 1, 1),
            (Mark, "*", 2, 1),
            (Mark, "[", 3, 1),
            (Mark, "]", 4, 1),
            (Mark, "{", 5, 1),
            (Mark, "}", 6, 1),
            (Mark, "<", 7, 1),
            (Mark, ">", 8, 1),
            (Mark, "|", 9, 1),
        ],
        None,
    ),
    ("$x", &[], Some(LexError { line: 1, at: 0 })),
    ("^0 = ~", &[], Some(LexError { line: 1, at: 0 })),
    ("\\", &[], Some(LexError { line: 1, at: 0 })),
    ("~", &[], Some(LexError { line: 1, at: 0 })),
    ("\"", &[], Some(LexError { line: 1, at: 0 })),
    (
        "x\u{b}",
        &[(Word, "x", 0, 1)],
        Some(LexError { line: 1, at: 1 }),
    ),
    ("\u{c}", &[], Some(LexError { line: 1, at: 0 })),
    ("\n\u{0}", &[], Some(LexError { line: 2, at: 1 })),
];

fn is_row(answer: Result<Option<Token<'_>>, LexError>, row: &Row) -> bool {
    match answer {
        Ok(Some(token)) => {
            token.kind == row.0
                && token.text == row.1.as_bytes()
                && token.start == row.2
                && token.line == row.3
        }
        _ => false,
    }
}

fn is_end(answer: Result<Option<Token<'_>>, LexError>, fault: Option<LexError>) -> bool {
    match answer {
        Ok(Some(_)) => false,
        Ok(None) => fault.is_none(),
        Err(error) => fault == Some(error),
    }
}

/// The end is there again, and so is a place where no token begins.
#[test]
fn texts_give_their_tokens(rt: HostRuntime) -> Result<(), Fail> {
    for (text, rows, fault) in &TEXTS {
        assert!(rt; text.len() <= MOST_BYTES);
        let mut lexer = Lexer::new(text.as_bytes());
        for row in *rows {
            assert!(rt; is_row(lexer.next(), row), "{text:?} {row:?}");
        }
        assert!(rt; is_end(lexer.next(), *fault), "{text:?}");
        assert!(rt; is_end(lexer.next(), *fault), "{text:?}");
    }
    Ok(())
}

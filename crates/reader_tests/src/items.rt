//! Texts of modules, and their items, statements and phrases.

use ir_items::{Item, ItemForm, Items, Phrases, Statements, inside};
use ir_read::{Node, read_module};
use std::alloc::AllocError;
use std::test::Fail;

/// A text, and what is shown of it: a line for each item and for each statement. `|` stands before a phrase, and behind
/// one of several nodes `:` and the phrases inside.
static TEXTS: [(&str, &str); 6] = [
    ("", ""),
    (
        "%pair = type { i32, [2 x ptr] }\n%packed = type <{ i8, %pair }>\n\n@g = global i32 0, align 4\n\
         @s = private constant [2 x i8] c\"a\\00\"\n\
         @\"t u\" = global { i32, ptr } { i32 -1, ptr getelementptr inbounds (i8, ptr @g, i64 2) }\n\
         @n = global [2 x <{ i1 }>] [<{ i1 }> <{ i1 true }>, <{ i1 }> zeroinitializer]",
        "1 struct %pair | { i32 [ 2 x ptr ] } : i32 ; [ 2 x ptr ] ;\n\
         2 struct %packed | < { i8 %pair } > : { ; i8 ; %pair ; } ;\n\
         4 global @g | i32 | 0\n\
         5 constant @s | [ 2 x i8 ] : 2 ; i8 ; | c\"a\\00\"\n\
         6 global @\"t u\" | { i32 ptr } : i32 ; ptr ; | \
         { | i32 | -1 | ptr | getelementptr ( i8 ptr @g i64 2 ) : i8 ; ptr ; @g ; i64 ; 2 ; | }\n\
         7 global @n | [ 2 x < { i1 } > ] : 2 ; < { i1 } > ; | \
         [ | < { i1 } > : { ; i1 ; } ; | < | { | i1 | true | } | > | < { i1 } > : { ; i1 ; } ; | zeroinitializer | ]\n",
    ),
    (
        "declare void @f()\ndeclare !callback !1 i32 @printf(ptr noundef, i64 %n, ...) #1\ndeclare ptr @g(...)\n\
         define ptr @a(ptr %q, i32,\n i1 %0) {\n}\ndefine void @b() {\n0:\nret void }",
        "1 declare void @f\n\
         2 declare i32 @printf, ptr, i64 %n ...\n\
         3 declare ptr @g ...\n\
         4 define ptr @a, ptr %q, i32, i1 %0\n\
         7 define void @b\n\
         8 0:\n\
         9 ret | void\n",
    ),
    (
        "define void @b(ptr %p) {\n%1 = add nsw i32 %x, 1\n%2 =\n icmp ult i8 -1, %1\n%3 = zext i1 %2 to i64\n\
         %4 = inttoptr i64 inttoptr (i64 8 to ptr) to ptr\n%5 = select i1 true, i8 1, i8 %1\n\
         %6 = phi i32 [ 0, %b ], [ %1, %\"c d\" ]\n}",
        "1 define void @b, ptr %p\n\
         2 %1 = add | i32 | %x | 1\n\
         3 %2 = icmp | ult | i8 | -1 | %1\n\
         5 %3 = zext | i1 | %2 | i64\n\
         6 %4 = inttoptr | i64 | inttoptr ( i64 8 to ptr ) : i64 ; 8 ; ptr ; | ptr\n\
         7 %5 = select | i1 | true | i8 | 1 | i8 | %1\n\
         8 %6 = phi | i32 | 0 | %b | %1 | %\"c d\"\n",
    ),
    (
        "define void @b(ptr %p) {\n%1 = alloca i32\nalloca { i8, %t }, i64 %n, align 8\n\
         %v = load volatile i32, ptr %1, align 4, !tbaa !2\nstore i32 %v, ptr @g\n\
         getelementptr inbounds [4 x i8], ptr %1, i64 0, i32 %v\nend:\nbr label %end\nbr i1 %c, label %x, label %end\n\
         switch i32 %v, label %d [\n i32 0, label %x\n i32 -1, label %y ]\nswitch i8 %w, label %d [ ]\n\
         ret i32 0\nunreachable\n}",
        "1 define void @b, ptr %p\n\
         2 %1 = alloca | i32\n\
         3 alloca | { i8 %t } : i8 ; %t ; | i64 | %n\n\
         4 %v = load | i32 | ptr | %1\n\
         5 store | i32 | %v | ptr | @g\n\
         6 getelementptr | [ 4 x i8 ] : 4 ; i8 ; | ptr | %1 | i64 | 0 | i32 | %v\n\
         7 end:\n\
         8 br | %end\n\
         9 br | i1 | %c | %x | %end\n\
         10 switch | i32 | %v | %d | i32 | 0 | %x | i32 | -1 | %y\n\
         13 switch | i8 | %w | %d\n\
         14 ret | i32 | 0\n\
         15 unreachable\n",
    ),
    (
        "define void @b() {\ncall void @f()\n%r = tail call i32 (ptr, ...) @printf(ptr noundef @s, i32 signext 1) #3\n\
         call ptr () @g()\ncall i32 (...) @h(ptr null)\n}\n@z = global ptr @b",
        "1 define void @b\n\
         2 call | void | @f\n\
         3 %r = call | i32 | ( ptr ... ) : ptr ; ... ; | @printf | ptr | @s | i32 | 1\n\
         4 call | ptr | ( ) : | @g\n\
         5 call | i32 | ( ... ) : ... ; | @h | ptr | null\n\
         7 global @z | ptr | @b\n",
    ),
];

#[test]
fn views_show_what_a_text_has(rt: HostRuntime) -> Result<(), Fail> {
    let alloc = rt.alloc();
    for (text, expected) in TEXTS {
        let Ok(found) = read_module(alloc, text.as_bytes()) else {
            return Err(Fail::new("a text is refused"));
        };
        let mut shown = Vec::new(alloc);
        show_items(&mut shown, &found.nodes)?;
        assert_eq!(rt; str::from_utf8(&shown), Ok(expected), "{text}");
    }
    Ok(())
}

fn show_items(shown: &mut Vec<u8>, nodes: &[Node<'_>]) -> Result<(), AllocError> {
    let mut items = Items::new(nodes);
    while let Some(item) = items.next() {
        show_item(shown, &item)?;
    }
    Ok(())
}

fn show_item(shown: &mut Vec<u8>, item: &Item<'_, '_>) -> Result<(), AllocError> {
    let first = item.first;
    show_number(shown, first.line)?;
    match item.form() {
        ItemForm::Struct => show_value(shown, " struct ", item),
        ItemForm::Global if item.is_constant() => show_value(shown, " constant ", item),
        ItemForm::Global => show_value(shown, " global ", item),
        ItemForm::Declare => show_head(shown, " declare ", item),
        ItemForm::Define => {
            show_head(shown, " define ", item)?;
            show_body(shown, item.body())
        }
    }
}

fn show_value(shown: &mut Vec<u8>, word: &str, item: &Item<'_, '_>) -> Result<(), AllocError> {
    shown.extend_from_slice(word.as_bytes())?;
    let name = item.name();
    shown.extend_from_slice(name.text)?;
    show_phrases(shown, item.value())?;
    shown.push(b'\n')?;
    Ok(())
}

fn show_head(shown: &mut Vec<u8>, word: &str, item: &Item<'_, '_>) -> Result<(), AllocError> {
    shown.extend_from_slice(word.as_bytes())?;
    let result = item.result_type();
    let name = item.name();
    shown.extend_from_slice(result.text)?;
    shown.push(b' ')?;
    shown.extend_from_slice(name.text)?;
    let mut parameters = item.parameters();
    while let Some(parameter) = parameters.next() {
        shown.extend_from_slice(b", ")?;
        let value_type = parameter.value_type;
        shown.extend_from_slice(value_type.text)?;
        if let Some(name) = parameter.name {
            shown.push(b' ')?;
            shown.extend_from_slice(name.text)?;
        }
    }
    if item.is_variadic() {
        shown.extend_from_slice(b" ...")?;
    }
    shown.push(b'\n')?;
    Ok(())
}

fn show_body(shown: &mut Vec<u8>, body: &[Node<'_>]) -> Result<(), AllocError> {
    let mut statements = Statements::new(body);
    while let Some(statement) = statements.next() {
        show_number(shown, statement.line)?;
        shown.push(b' ')?;
        if let Some(result) = statement.result {
            shown.extend_from_slice(result.text)?;
            shown.extend_from_slice(b" = ")?;
        }
        let operation = statement.operation;
        shown.extend_from_slice(operation.text)?;
        show_phrases(shown, statement.operands)?;
        shown.push(b'\n')?;
    }
    Ok(())
}

fn show_phrases(shown: &mut Vec<u8>, nodes: &[Node<'_>]) -> Result<(), AllocError> {
    let mut phrases = Phrases::new(nodes);
    while let Some(phrase) = phrases.next() {
        shown.extend_from_slice(b" |")?;
        show_nodes(shown, phrase)?;
        if phrase.len() > 1 {
            shown.extend_from_slice(b" :")?;
            show_inside(shown, inside(phrase))?;
        }
    }
    Ok(())
}

fn show_inside(shown: &mut Vec<u8>, nodes: &[Node<'_>]) -> Result<(), AllocError> {
    let mut phrases = Phrases::new(nodes);
    while let Some(phrase) = phrases.next() {
        show_nodes(shown, phrase)?;
        shown.extend_from_slice(b" ;")?;
    }
    Ok(())
}

fn show_nodes(shown: &mut Vec<u8>, nodes: &[Node<'_>]) -> Result<(), AllocError> {
    for node in nodes {
        shown.push(b' ')?;
        shown.extend_from_slice(node.text)?;
    }
    Ok(())
}

/// Numbers below 100.
fn show_number(shown: &mut Vec<u8>, number: u32) -> Result<(), AllocError> {
    if number >= 10 {
        shown.push(b'0' + (number / 10 % 10) as u8)?;
    }
    shown.push(b'0' + (number % 10) as u8)?;
    Ok(())
}

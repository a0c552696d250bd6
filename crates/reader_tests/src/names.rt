//! Names of items and of a body, definition by definition, with what each is, worked out by hand.

use ir_names::{Given, LocalName, LocalTable, NameTable, Number, PlainName};
use ir_read::{Terminal, read_module};
use std::test::Fail;

/// The name that a register's text writes behind its sigil; none where there is no text.
fn named(text: &str) -> Option<LocalName<'_>> {
    let bytes = text.as_bytes();
    if bytes.is_empty() {
        return None;
    }
    if bytes[0].is_ascii_digit() {
        return Some(LocalName::Number(Number::of(bytes)));
    }
    Some(LocalName::Plain(PlainName::new(bytes)))
}

#[test]
fn items_have_their_first_places(rt: HostRuntime) -> Result<(), Fail> {
    let mut table = NameTable::new(rt.alloc());
    let given = [
        ("main", None),
        ("a", None),
        ("main", Some(0)),
        ("A", None),
        ("a", Some(1)),
    ];
    for (name, before) in given {
        assert_eq!(rt; table.give(name.as_bytes())?, before, "{name}");
    }
    assert_eq!(rt; table.number("A".as_bytes()), Some(2));
    assert_eq!(rt; table.number("b".as_bytes()), None);
    assert_eq!(rt; table.len(), 3);
    Ok(())
}

#[test]
fn definitions_take_their_numbers(rt: HostRuntime) -> Result<(), Fail> {
    let mut table = LocalTable::new(rt.alloc());
    let definitions = [
        ("", Given::Fresh),
        ("x", Given::Fresh),
        ("5", Given::Fresh),
        ("", Given::Fresh),
        ("005", Given::Duplicate),
        ("6", Given::Duplicate),
        ("3", Given::Below),
        ("3", Given::Duplicate),
        ("x", Given::Duplicate),
        ("18446744073709551615", Given::Fresh),
        ("", Given::Fresh),
        ("18446744073709551616", Given::Duplicate),
        ("99999999999999999999", Given::Fresh),
        ("", Given::Fresh),
        ("100000000000000000000", Given::Duplicate),
    ];
    for (name, wanted) in definitions {
        assert_eq!(rt; table.define(named(name))?, wanted, "{name}");
    }
    let uses = [
        ("0", Some(0)),
        ("x", Some(1)),
        ("05", Some(2)),
        ("6", Some(3)),
        ("3", Some(4)),
        ("18446744073709551616", Some(6)),
        ("100000000000000000000", Some(8)),
        ("1", None),
        ("y", None),
    ];
    for (name, wanted) in uses {
        if let Some(local) = named(name) {
            assert_eq!(rt; table.number(&local), wanted, "{name}");
        }
    }
    assert_eq!(rt; table.len(), 9);
    Ok(())
}

#[test]
fn quoted_digits_are_no_number(rt: HostRuntime) -> Result<(), Fail> {
    let text =
        "define void @f ( i32 %7 , i32 %\"7\" , i32 %07 , i32 %x ) {\nx:\nret void\n8:\nret void\n}";
    let Ok(found) = read_module(rt.alloc(), text.as_bytes()) else {
        assert!(rt; false, "the text is no module");
        return Ok(());
    };
    let wanted = [
        Given::Fresh,
        Given::Fresh,
        Given::Duplicate,
        Given::Fresh,
        Given::Duplicate,
        Given::Fresh,
    ];
    let mut table = LocalTable::new(rt.alloc());
    let mut answers = Vec::new(rt.alloc());
    for node in &found.nodes {
        if matches!(node.terminal, Terminal::Local | Terminal::Label) {
            answers.push(table.define(Some(LocalName::of(node)))?)?;
        }
    }
    assert_eq!(rt; answers.as_slice(), wanted.as_slice());
    Ok(())
}

//! Each public call with ample memory, and each read and write failing in turn.

ghost use Rattle.std.specs.Prelude.{◌≡◌, ◌+◌, ◌<◌, ◌↔◌, length, codes, IsTrue, IfOk};
ghost use Rattle.rc_base.specs.Files.{bytes_of};

use rc_base::{
    Failed, Gate, MeetGate, MemShelf, MemSink, NoMemory, OpenGate, ReadWhole, Shelf, Sink, Steps,
    SureShelf, SureSink, Words, read_whole, write_whole,
};
use std::alloc::Global;
use std::marker::Brand;
use std::process::Abort;
use std::sync::ledger::{Blank, Ledger};
use std::test::Fail;
use std::thread;

#[test]
fn words_are_kept_in_order(rt: HostRuntime) -> Result<(), Fail> {
    let mut words = Words::new(rt.alloc());
    assert_eq!(rt; words.count(), 0);
    for word in ["replay", "", "caché"] {
        words.push(word)?;
    }
    assert_eq!(rt; words.count(), 3);
    assert_eq!(rt; words.word(0), "replay");
    assert_eq!(rt; words.word(1), "");
    assert_eq!(rt; words.word(2), "caché");
    Ok(())
}

/// A shelf whose one name holds so many bytes.
fn shelf_of(alloc: Global, held: usize) -> Result<MemShelf, NoMemory> {
    let mut shelf = MemShelf::new(alloc);
    shelf.add("name", &vec![in alloc; b'x'; held]?)?;
    Ok(shelf)
}

/// How many bytes are read.
fn read_length<F: Shelf>(alloc: Global, shelf: &mut F, limit: u64) -> Result<usize, ReadWhole> {
    Ok(read_whole(alloc, shelf, "name", limit)?.len())
}

#[test]
fn reads_what_is_within_the_limit(rt: HostRuntime) -> Result<(), Fail> {
    let cases = [
        (0, 0, Ok(0)),
        (1, 0, Err(ReadWhole::TooLong)),
        (0, 1, Ok(0)),
        (1, 1, Ok(1)),
        (2, 1, Err(ReadWhole::TooLong)),
        (10, 10, Ok(10)),
        (11, 10, Err(ReadWhole::TooLong)),
        (8192, 8192, Ok(8192)),
        (8192, 8191, Err(ReadWhole::TooLong)),
        (20_000, 20_000, Ok(20_000)),
        (20_000, 19_999, Err(ReadWhole::TooLong)),
        (20_000, u64::MAX, Ok(20_000)),
    ];
    for (held, limit, want) in cases {
        let mut shelf = shelf_of(rt.alloc(), held)?;
        assert_eq!(rt;
            read_length(rt.alloc(), &mut shelf, limit),
            want,
            "{held} {limit}"
        );
    }
    Ok(())
}

#[test]
fn each_read_fails_in_turn(rt: HostRuntime) -> Result<(), Fail> {
    // Three reads give the bytes, and a fourth finds their end.
    let fault = Err(ReadWhole::Fault);
    for (call, want) in [
        (0, fault),
        (1, fault),
        (2, fault),
        (3, fault),
        (4, Ok(20_000)),
    ] {
        let mut shelf = shelf_of(rt.alloc(), 20_000)?;
        shelf.fail(call)?;
        shelf.fail(call)?;
        assert_eq!(rt;
            read_length(rt.alloc(), &mut shelf, 20_000),
            want,
            "read {call}"
        );
    }
    let mut nameless = MemShelf::new(rt.alloc());
    assert_eq!(rt; read_length(rt.alloc(), &mut nameless, 9), fault);
    let mut sure = SureShelf::new(rt.alloc());
    assert_eq!(rt; read_length(rt.alloc(), &mut sure, 9), Ok(0));
    Ok(())
}

fn read_once<F: Shelf>(shelf: &mut F, at: u64, buf: &mut [u8]) -> Result<usize, Failed> {
    shelf.read("name", at, buf)
}

/// Reads parts of a name that holds `abcdef`.
fn reads_parts<F: Shelf>(rt: &impl Abort, shelf: &mut F) {
    let cases: [(u64, usize, &str); 7] = [
        (0, 8, "abcdef"),
        (0, 6, "abcdef"),
        (2, 3, "cde"),
        (4, 3, "ef"),
        (2, 0, ""),
        (6, 3, ""),
        (u64::MAX, 3, ""),
    ];
    for (at, room, want) in cases {
        let mut buf = [0; 8];
        assert_eq!(rt;
            read_once(shelf, at, &mut buf[..room]),
            Ok(want.len()),
            "at {at}"
        );
        assert!(rt; buf.starts_with(want.as_bytes()), "at {at}");
    }
}

#[test]
fn a_read_gives_what_the_buffer_has_room_for(rt: HostRuntime) -> Result<(), Fail> {
    let mut shelf = shelf_of(rt.alloc(), 9)?;
    shelf.add("other", b"other")?;
    shelf.add("name", b"abcdef")?;
    reads_parts(&rt, &mut shelf);
    let mut sure = SureShelf::new(rt.alloc());
    sure.add("name", b"first")?;
    sure.add("name", b"abcdef")?;
    reads_parts(&rt, &mut sure);
    Ok(())
}

#[test]
fn only_a_call_to_come_can_be_named(rt: HostRuntime) -> Result<(), Fail> {
    let mut shelf = shelf_of(rt.alloc(), 3)?;
    let mut buf = [0; 1];
    shelf.fail(1)?;
    assert_eq!(rt; read_once(&mut shelf, 0, &mut buf), Ok(1));
    assert_eq!(rt; read_once(&mut shelf, 0, &mut buf), Err(Failed));
    shelf.fail(0)?;
    shelf.fail(1)?;
    shelf.fail(3)?;
    assert_eq!(rt; read_once(&mut shelf, 0, &mut buf), Ok(1));
    assert_eq!(rt; read_once(&mut shelf, 0, &mut buf), Err(Failed));
    assert_eq!(rt; read_once(&mut shelf, 0, &mut buf), Ok(1));
    Ok(())
}

/// Over a shelf that tells all and never fails, the answer is that of the bytes.
fn is_too_long(alloc: Global, shelf: &mut SureShelf, limit: u64) -> Result<bool, NoMemory>
    ensures { let bytes = bytes_of shelf.old.files (codes "name") in
        IfOk result (λ long. IsTrue long ↔ (limit < length bytes)) }
{
    match read_whole(alloc, shelf, "name", limit) {
        Ok(_) => Ok(false),
        Err(ReadWhole::TooLong) => Ok(true),
        Err(ReadWhole::NoMemory) => Err(NoMemory),
        Err(ReadWhole::Fault) => unreachable!(),
    }
}

#[test]
fn an_empty_name_is_not_too_long(rt: HostRuntime) -> Result<(), Fail> {
    assert!(rt; !is_too_long(rt.alloc(), &mut SureShelf::new(rt.alloc()), 0)?);
    Ok(())
}

#[test]
fn writes_as_often_as_the_sink_needs(rt: HostRuntime) -> Result<(), Fail> {
    // The room of the sink, the write that fails, and what the sink has afterwards.
    let cases = [
        (25, 3, Ok(()), "abcdefghijklmnopqrstuvwxy"),
        (90, 9, Ok(()), "abcdefghijklmnopqrstuvwxy"),
        (25, 0, Err(Failed), ""),
        (25, 1, Err(Failed), "abcdefghij"),
        (25, 2, Err(Failed), "abcdefghijklmnopqrst"),
        (24, 9, Err(Failed), "abcdefghijklmnopqrstuvwx"),
        (12, 9, Err(Failed), "abcdefghijkl"),
        (0, 9, Err(Failed), ""),
    ];
    for (room, call, want, bytes) in cases {
        let mut sink = MemSink::new(rt.alloc(), 10, room)?;
        sink.fail(call)?;
        assert_eq!(rt;
            write_whole(&mut sink, b"abcdefghijklmnopqrstuvwxy"),
            want,
            "{room} {call}"
        );
        assert_eq!(rt; sink.bytes(), bytes.as_bytes());
    }
    assert_eq!(rt; write_whole(&mut SureSink::new(), b"abcde"), Ok(()));
    Ok(())
}

/// What a write of the piece answers, and then one of no bytes.
fn write_twice<O: Sink>(sink: &mut O, piece: &[u8]) -> [Result<usize, Failed>; 2] {
    [sink.write(piece), sink.write(&[])]
}

#[test]
fn a_write_takes_what_there_is_room_for(rt: HostRuntime) -> Result<(), Fail> {
    let mut sink = MemSink::new(rt.alloc(), 4, 6)?;
    assert_eq!(rt; write_twice(&mut sink, b"abcde"), [Ok(4), Ok(0)]);
    assert_eq!(rt; write_twice(&mut sink, b"fgh"), [Ok(2), Ok(0)]);
    assert_eq!(rt; write_twice(&mut sink, b"i"), [Err(Failed), Ok(0)]);
    assert_eq!(rt; sink.bytes(), b"abcdfg".as_slice());
    assert_eq!(rt; write_twice(&mut SureSink::new(), b"abcde"), [Ok(5), Ok(0)]);
    Ok(())
}

fn enter<G: Gate + Send + Sync>(gate: &G, ticket: u64) {
    gate.entered(0, ticket);
}

#[test]
fn tickets_meet_in_two_threads(rt: HostRuntime) {
    enter(&OpenGate::new(), 0);
    let gate = MeetGate::new();
    enter(&gate, 2);
    assert!(rt; !gate.met());
    thread::join(&rt, || enter(&gate, 0), || enter(&gate, 1));
    assert!(rt; gate.met());
}

#[test]
fn a_ticket_alone_gives_up(rt: HostRuntime) {
    let gate = MeetGate::new();
    enter(&gate, 0);
    enter(&gate, 1);
    assert!(rt; !gate.met());
}

fn tick_thrice<L: Ledger>(steps: &mut Steps<L>)
    ensures { steps.new ≡ steps.old + 3 }
{
    steps.tick();
    steps.tick();
    steps.tick();
}

/// A counter of its own, as a call makes that is lent none.
fn count_three<L: Ledger>(blank: Blank)
    requires name { blank.name ≡ L.name }
    requires parts { blank.parts ≡ L.parts }
    requires some { 0 < blank.parts }
{
    let mut steps = Steps::<L>::new(blank);
    tick_thrice(&mut steps);
}

#[test]
fn steps_are_counted() {
    count_three::<Brand>(Blank::new(1));
}

#[test]
fn errors_have_a_text(rt: HostRuntime) -> Result<(), Fail> {
    let texts = format!(in rt.alloc(); "{Failed}, {NoMemory}, {}", ReadWhole::TooLong)?;
    assert_eq!(rt;
        texts.as_str(),
        "a read or a write failed, out of memory, there are more bytes than the limit"
    );
    Ok(())
}

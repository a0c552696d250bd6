//! The statuses, and what is written with each: of both commands, over one module and one case.

use crate::texts::{CASE, COMMANDS, MODULE, answer, example_shelf};
use race_top::{NO_MEMORY, READ_FAILED, REFUSED, USAGE, WHOLE, WRITE_FAILED};
use rc_base::{MemSink, SureShelf, SureSink};
use std::test::Fail;

/// An empty word is no command, and names no file.
#[test]
fn empty_words_are_words(rt: HostRuntime) -> Result<(), Fail> {
    for (line, wanted) in [(["", "m", "c"], USAGE), (["replay", "m", ""], READ_FAILED)] {
        let mut shelf = example_shelf(rt.alloc())?;
        let mut out = MemSink::new(rt.alloc(), 64, 64)?;
        let status = answer(&rt, rt.alloc(), &line, &mut shelf, &mut out)?;
        assert_eq!(rt; status, wanted, "{line:?}");
        assert!(rt; out.bytes().is_empty());
    }
    Ok(())
}

/// Each of the two files is read by two calls, the second of which finds the end.
#[test]
fn a_read_that_fails_ends_the_run(rt: HostRuntime) -> Result<(), Fail> {
    for (line, text) in &COMMANDS {
        for call in 0..5 {
            let mut shelf = example_shelf(rt.alloc())?;
            shelf.fail(call)?;
            let mut out = MemSink::new(rt.alloc(), 64, 512)?;
            let status = answer(&rt, rt.alloc(), line, &mut shelf, &mut out)?;
            if call < 4 {
                assert_eq!(rt; status, READ_FAILED, "read {call}");
                assert!(rt; out.bytes().is_empty());
            } else {
                assert_eq!(rt; status, WHOLE);
                assert_eq!(rt; out.bytes(), *text);
            }
        }
    }
    Ok(())
}

/// A sink of 10 bytes a write takes the replayed run in seven writes, and the report in fifteen.
#[test]
fn a_write_that_fails_leaves_a_front(rt: HostRuntime) -> Result<(), Fail> {
    for (line, text) in &COMMANDS {
        for call in [0, 1, 6, 14, 15] {
            let mut shelf = example_shelf(rt.alloc())?;
            let mut out = MemSink::new(rt.alloc(), 10, 512)?;
            out.fail(call)?;
            let status = answer(&rt, rt.alloc(), line, &mut shelf, &mut out)?;
            let length = text.len().min(call as usize * 10);
            let wanted = if length < text.len() {
                WRITE_FAILED
            } else {
                WHOLE
            };
            assert_eq!(rt; status, wanted, "write {call}");
            assert_eq!(rt; out.bytes(), &text[..length], "write {call}");
        }
    }
    Ok(())
}

#[test]
fn a_room_that_is_too_small_is_a_failed_write(rt: HostRuntime) -> Result<(), Fail> {
    for (line, text) in &COMMANDS {
        for lacking in 0..3 {
            let room = text.len().saturating_sub(lacking);
            let mut shelf = example_shelf(rt.alloc())?;
            let mut out = MemSink::new(rt.alloc(), 64, room as u64)?;
            let status = answer(&rt, rt.alloc(), line, &mut shelf, &mut out)?;
            let wanted = if lacking == 0 { WHOLE } else { WRITE_FAILED };
            assert_eq!(rt; status, wanted, "room {room}");
            assert_eq!(rt; out.bytes(), &text[..room], "room {room}");
        }
    }
    Ok(())
}

/// Shelves and sinks that never fail: a name that such a shelf lacks holds no bytes.
#[test]
fn sure_ends_give_the_run(rt: HostRuntime) -> Result<(), Fail> {
    for (line, text) in &COMMANDS {
        let mut shelf = SureShelf::new(rt.alloc());
        shelf.add("m", MODULE)?;
        let status = answer(&rt, rt.alloc(), line, &mut shelf, &mut SureSink::new())?;
        assert_eq!(rt; status, REFUSED);
        shelf.add("c", CASE)?;
        let mut out = MemSink::new(rt.alloc(), 64, 512)?;
        let status = answer(&rt, rt.alloc(), line, &mut shelf, &mut out)?;
        assert_eq!(rt; status, WHOLE);
        assert_eq!(rt; out.bytes(), *text);
    }
    Ok(())
}

/// With `--fail-alloc N` the Nth allocation fails. Where it is one of the test's own, nothing is run.
#[test]
fn want_of_memory_writes_nothing(rt: HostRuntime) {
    for (line, text) in &COMMANDS {
        let Ok(mut shelf) = example_shelf(rt.alloc()) else {
            return;
        };
        let Ok(mut out) = MemSink::new(rt.alloc(), 64, 512) else {
            return;
        };
        let Ok(status) = answer(&rt, rt.alloc(), line, &mut shelf, &mut out) else {
            return;
        };
        if status == NO_MEMORY {
            assert!(rt; out.bytes().is_empty());
        } else {
            assert_eq!(rt; status, WHOLE);
            assert_eq!(rt; out.bytes(), *text);
        }
    }
}

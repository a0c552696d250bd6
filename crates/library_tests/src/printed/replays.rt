//! The text of replayed runs that are made by hand.

use crate::printed::{item, module_of};
use ir_types::{ItemKind, List, Site};
use report_text::print_replay;
use run_types::{Outcome, Run, Trap};
use std::test::Fail;

const TOP: &str = "portend-replay 1
turns 0*2 15 0*10
output b41 b0a d32:-1 d64:-9223372036854775808 u32:4294967295 u64:18446744073709551615 \
x32:ff x64:123456789abcdef x64:0 s255
";

const LAST: Site = Site {
    function: 0,
    inst: 4_294_967_295,
};

#[test]
fn each_kind_of_item_and_outcome_is_printed(rt: HostRuntime) -> Result<(), Fail> {
    let alloc = rt.alloc();
    let code = module_of(alloc, b"add one")?;
    let items = [
        item(ItemKind::Byte, 0x41),
        item(ItemKind::Byte, 10),
        item(ItemKind::D32, 0xffff_ffff),
        item(ItemKind::D64, 1 << 63),
        item(ItemKind::U32, 4_294_967_295),
        item(ItemKind::U64, 18_446_744_073_709_551_615),
        item(ItemKind::X32, 255),
        item(ItemKind::X64, 0x0123_4567_89ab_cdef),
        item(ItemKind::X64, 0),
        item(ItemKind::Status, 255),
    ];
    let mut run = Run {
        turns: List {
            items: Vec::from_slice(alloc, &[0, 0, 15, 0, 0, 0, 0, 0, 0, 0, 0, 0, 0])?,
        },
        decisions: List::new(alloc),
        output: List {
            items: Vec::from_slice(alloc, &items)?,
        },
        outcome: Outcome::Spent,
    };
    let outcomes = [
        (Outcome::Spent, "spent"),
        (Outcome::Deadlock, "deadlock"),
        (Outcome::Exit { status: 255 }, "exit 255"),
        (
            Outcome::Trap {
                trap: Trap::BadAddress,
                thread: 15,
                site: LAST,
            },
            "trap BadAddress 15 add one 4294967295",
        ),
        (
            Outcome::Repeats {
                turn: 12,
                earlier: 7,
            },
            "repeats 12 7",
        ),
    ];
    for (outcome, line) in outcomes {
        run.outcome = outcome;
        let text = print_replay(alloc, &run, &code)?;
        let expected = format!(in alloc; "{TOP}{line}\nend\n")?;
        assert_eq!(rt; text.as_slice(), expected.as_bytes());
    }
    Ok(())
}

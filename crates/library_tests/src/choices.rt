//! Choices on small lists, worked out by hand.

use ir_types::List;
use rc_base::NoMemory;
use std::alloc::Global;
use std::test::Fail;
use turn_policy::Policy;

/// What is asked of a chooser.
#[derive(Clone, Copy)]
enum Call {
    /// A choice among these threads, and the one that is chosen.
    Choose(&'static [u32], Option<u32>),
    Hold(u32),
    After(u32),
}

use Call::{After, Choose, Hold};

/// Listed turns, and calls behind one another.
static CALLS: [(&[u8], &[Call]); 3] = [
    (
        &[2, 1, 3],
        &[
            // Entry 2 is dropped.
            Choose(&[1, 3], Some(1)),
            Choose(&[2, 3], Some(3)),
            // The list is used up: the least above 3, else the least.
            Choose(&[3, 4], Some(4)),
            Choose(&[1, 2], Some(1)),
            Choose(&[1, 2], Some(2)),
            Choose(&[1, 2], Some(1)),
            Choose(&[], None),
        ],
    ),
    (
        &[0, 1, 0, 2, 1],
        &[
            Choose(&[0, 1, 2], Some(0)),
            Hold(1),
            // Entry 1 is dropped.
            Choose(&[0, 1, 2], Some(0)),
            Choose(&[1], None),
            After(1),
            Choose(&[0, 2], None),
            // Entry 2 is still in front when 1 has had its turn.
            Choose(&[0, 1, 2], Some(1)),
            Choose(&[0, 1, 2], Some(2)),
            Choose(&[0, 1, 2], Some(1)),
            Choose(&[0, 1, 2], Some(2)),
            Choose(&[0, 1, 2], Some(0)),
        ],
    ),
    (
        &[0, 1, 1],
        &[
            Choose(&[0, 1], Some(0)),
            Choose(&[0, 1], Some(1)),
            Choose(&[0, 1], Some(1)),
            Choose(&[0, 1], Some(0)),
        ],
    ),
];

/// Listed turns, the calls of two choosers, and whether these are equal then.
static PAIRS: [(&[u8], &[Call], &[Call], bool); 6] = [
    // The mode and the place are the same, and the thread chosen last is not.
    (
        &[],
        &[Choose(&[1], Some(1))],
        &[Choose(&[2], Some(2))],
        false,
    ),
    // The mode and the thread chosen last are the same, and the place is not.
    (
        &[0, 0],
        &[Choose(&[0], Some(0))],
        &[Choose(&[0], Some(0)), Choose(&[0], Some(0))],
        false,
    ),
    // Only the mode is not the same: what is held, and whether it was chosen.
    (&[], &[After(0)], &[Hold(0)], false),
    (&[], &[Hold(1)], &[Hold(0)], false),
    (&[], &[After(0)], &[Hold(0), After(0)], true),
    (
        &[],
        &[Choose(&[0], Some(0)), After(0)],
        &[After(0), Choose(&[0], Some(0))],
        false,
    ),
];

fn follow(alloc: Global, listed: &[u8]) -> Result<Policy, NoMemory> {
    let items = Vec::from_slice(alloc, listed)?;
    Policy::follow(alloc, &List { items })
}

/// Makes a call, and says whether a choice is the wanted one, and was told before it was made.
fn answers(policy: &mut Policy, call: Call) -> bool {
    match call {
        Choose(enabled, wanted) => {
            policy.peek(enabled) == wanted && policy.choose(enabled) == wanted
        }
        Hold(thread) => {
            policy.hold(thread);
            true
        }
        After(thread) => {
            policy.after(thread);
            true
        }
    }
}

/// Makes calls behind one another, and says whether each choice is the wanted one.
fn all_answer(policy: &mut Policy, calls: &[Call]) -> bool {
    let mut all = true;
    for call in calls {
        all = answers(policy, *call) && all;
    }
    all
}

/// A fork goes on as the chooser itself does.
#[test]
fn calls_are_answered(rt: HostRuntime) -> Result<(), Fail> {
    for (listed, calls) in &CALLS {
        let mut policy = follow(rt.alloc(), listed)?;
        for (index, call) in calls.iter().enumerate() {
            let mut fork = policy.fork()?;
            assert!(rt; fork.same(&policy), "{listed:?} {index}");
            assert!(rt; answers(&mut fork, *call), "{listed:?} {index}");
            assert!(rt; answers(&mut policy, *call), "{listed:?} {index}");
            assert!(rt; fork.same(&policy), "{listed:?} {index}");
        }
    }
    Ok(())
}

#[test]
fn choosers_are_told_apart(rt: HostRuntime) -> Result<(), Fail> {
    for (index, (listed, one, other, equal)) in PAIRS.iter().enumerate() {
        let mut first = follow(rt.alloc(), listed)?;
        let mut second = follow(rt.alloc(), listed)?;
        assert!(rt; all_answer(&mut first, one), "{index}");
        assert!(rt; all_answer(&mut second, other), "{index}");
        assert_eq!(rt; first.same(&second), *equal, "{index}");
    }
    Ok(())
}

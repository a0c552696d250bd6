//! Logs that are accepted, and logs that are not.

ghost use Rattle.std.specs.Prelude.{◌≤◌, ◌^◌, length};

use proof_text::{ProofsError, read_proofs};
use rc_base::{Failure, NoMemory};
use refutation::{Proof, check};
use std::alloc::{AllocError, Global};
use std::test::Fail;

/// The formula and the log of an entry, and whether the log is accepted.
static CASES: [(&str, &str, bool); 14] = [
    (
        "formula 2 3\n1 0\n-1 2 0\n-2 0\n",
        "log 1\n0 1 2 3 0\n",
        true,
    ),
    // The first hint has two literals that are unset.
    (
        "formula 2 3\n1 0\n-1 2 0\n-2 0\n",
        "log 1\n0 2 1 3 0\n",
        false,
    ),
    // The last hint's clause is not false.
    (
        "formula 2 3\n1 0\n-1 2 0\n-2 0\n",
        "log 1\n0 1 2 0\n",
        false,
    ),
    ("formula 2 3\n1 0\n-1 2 0\n-2 0\n", "log 0\n", false),
    // The last hint's clause is true.
    (
        "formula 2 3\n1 0\n-1 2 0\n-2 0\n",
        "log 1\n0 1 2 2 0\n",
        false,
    ),
    // A clause is false before the last hint.
    (
        "formula 2 3\n1 0\n-1 2 0\n-2 0\n",
        "log 1\n0 1 2 3 1 0\n",
        false,
    ),
    // A true clause among the hints.
    (
        "formula 2 3\n1 0\n-1 2 0\n-2 0\n",
        "log 1\n0 1 1 2 3 0\n",
        false,
    ),
    (
        "formula 2 3\n1 0\n-1 2 0\n-2 0\n",
        "log 2\n2 0 1 2 0\n0 4 3 0\n",
        true,
    ),
    // The last step's clause is not empty.
    (
        "formula 2 3\n1 0\n-1 2 0\n-2 0\n",
        "log 1\n2 0 1 2 0\n",
        false,
    ),
    // A hint names its own step, a later step, or none.
    ("formula 2 3\n1 0\n-1 2 0\n-2 0\n", "log 1\n0 4 0\n", false),
    (
        "formula 2 3\n1 0\n-1 2 0\n-2 0\n",
        "log 2\n0 5 0\n0 1 2 3 0\n",
        false,
    ),
    ("formula 2 3\n1 0\n-1 2 0\n-2 0\n", "log 1\n0 9 0\n", false),
    // A step without hints.
    ("formula 2 1\n1 0\n", "log 1\n0 0\n", false),
    // The empty clause is false from the start.
    ("formula 0 1\n0\n", "log 1\n0 1 0\n", true),
];

/// What is wrong with a text of proofs of these tests.
fn only_memory(failure: Failure<ProofsError>) -> NoMemory {
    match failure {
        Failure::NoMemory | Failure::Refused(_) => NoMemory,
    }
}

fn is_accepted(alloc: Global, proof: &Proof) -> Result<bool, AllocError> {
    let mut marks = Vec::from_elem(alloc, 7u8, proof.formula.vars as usize + 1)?;
    Ok(check(&proof.formula, &proof.log, &mut marks))
}

#[test]
fn logs_are_accepted(rt: HostRuntime) -> Result<(), Fail> {
    let alloc = rt.alloc();
    for (formula, log, accepted) in CASES {
        let text = format!(in alloc; "portend-proofs 1\nproof 1\n{formula}{log}end\n")?;
        assert!(rt; text.len() < 1000);
        let proofs = read_proofs(alloc, text.as_bytes()).map_err(only_memory)?;
        for proof in &proofs {
            assert_eq!(rt; is_accepted(alloc, proof)?, accepted, "at {formula}{log}");
        }
        assert_eq!(rt; proofs.len(), 1, "at {formula}{log}");
    }
    Ok(())
}

/// A chain of implications from the variable 1 to the last one, which is false; each step adds the next variable.
fn chain(alloc: Global, vars: u32) -> Result<String, Fail>
    requires some { 1 ≤ vars }
    requires small { vars ≤ 2 ^ 20 }
{
    let mut text = String::new(alloc);
    text.push_str("portend-proofs 1\nproof 1\n")?;
    text.push_str(&format!(in alloc; "formula {vars} {}\n1 0\n", vars + 1)?)?;
    for from in 1..vars {
        text.push_str(&format!(in alloc; "-{from} {} 0\n", from + 1)?)?;
    }
    text.push_str(&format!(in alloc; "-{vars} 0\nlog {vars}\n")?)?;
    for to in 2..vars + 1 {
        let unit = if to == 2 { 1 } else { vars + to - 1 };
        text.push_str(&format!(in alloc; "{to} 0 {unit} {to} 0\n")?)?;
    }
    text.push_str(&format!(in alloc; "0 {} {} 0\nend\n", vars + vars, vars + 1)?)?;
    Ok(text)
}

#[test]
fn a_long_log_is_accepted(rt: HostRuntime) -> Result<(), Fail> {
    let alloc = rt.alloc();
    let text = chain(alloc, 100_000)?;
    assert!(rt; text.len() < 1 << 30);
    let proofs = read_proofs(alloc, text.as_bytes()).map_err(only_memory)?;
    for proof in &proofs {
        assert_eq!(rt; proof.log.len(), 100_000);
        assert!(rt; is_accepted(alloc, proof)?);
    }
    assert_eq!(rt; proofs.len(), 1);
    Ok(())
}

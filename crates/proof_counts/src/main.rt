//! Counts the bytes of a file of proofs, the proofs that are read of it, those whose logs are accepted, each checked so
//! many times, or the bytes that they are written as. `bench/refutation` times it.
//!
//! usage: proof_counts bytes|proofs|accepted|written FILE TIMES
#![tactic(auto)]

ghost use Rattle.std.specs.Prelude.{◌≡◌, ◌≤◌, ◌^◌, count_by, length, IfOk};
ghost use Rattle.refutation.specs.Accepts.{accepted};

use proof_text::{ProofsError, read_proofs, write_proofs};
use rc_base::{Failure, NoMemory};
use refutation::{Proof, check};
use std::alloc::Global;
use std::{env, fs, io};

const USAGE: &str = "usage: proof_counts bytes|proofs|accepted|written FILE TIMES";

/// How many bytes a text may have.
const MOST_BYTES: usize = 1 << 30;

/// Whether the log of a proof refutes its formula.
fn is_accepted(alloc: Global, proof: &Proof) -> Result<bool, NoMemory>
    ensures { IfOk result (λ yes. yes
        ≡ accepted proof.now.formula.vars proof.now.formula.clauses proof.now.log) }
{
    let mut marks = Vec::from_elem(alloc, 0u8, proof.formula.vars as usize + 1)?;
    Ok(check(&proof.formula, &proof.log, &mut marks))
}

/// How many proofs have logs that refute their formulas.
fn count_accepted(alloc: Global, proofs: &[Proof]) -> Result<usize, NoMemory>
    ensures { IfOk result (λ count. count ≡ count_by
        (λ proof. accepted proof.formula.vars proof.formula.clauses proof.log) proofs.now) }
{
    let mut count = 0;
    for proof in proofs {
        if is_accepted(alloc, proof)? {
            count += 1;
        }
    }
    Ok(count)
}

/// The count that the word asks for, of the proofs of a text.
fn count(alloc: Global, what: &str, text: &[u8], times: u32) -> Result<usize, Failure<ProofsError>>
    requires { length text.now ≤ 2 ^ 30 }
{
    let proofs = read_proofs(alloc, text)?;
    let mut count = proofs.len();
    for _ in 0..times {
        match what {
            "accepted" => count = count_accepted(alloc, &proofs)?,
            "written" => count = write_proofs(alloc, &proofs)?.len(),
            _ => {}
        }
    }
    Ok(count)
}

/// Prints the count that the words ask for, or why there is none.
fn main(rt: HostRuntime) -> io::Result<()> {
    let mut words = env::args(&rt)?.skip(1);
    let (Some(what), Some(path), Some(times)) = (words.next(), words.next(), words.next()) else {
        return println!(rt; "{USAGE}");
    };
    let Ok(times) = times.as_str().parse::<u32>() else {
        return println!(rt; "{USAGE}");
    };
    let text = fs::read(&rt, path.as_str())?;
    if text.len() > MOST_BYTES {
        return println!(rt; "the file has more than {MOST_BYTES} bytes");
    }
    if what.as_str() == "bytes" {
        return println!(rt; "{} bytes", text.len());
    }
    match count(rt.alloc(), what.as_str(), &text, times) {
        Ok(count) => println!(rt; "{count} {}", what.as_str()),
        Err(Failure::Refused(error)) => println!(rt; "{error}"),
        Err(Failure::NoMemory) => println!(rt; "out of memory"),
    }
}

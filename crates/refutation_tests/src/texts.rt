//! Texts of proofs.

use proof_text::{ProofsError, read_proofs, write_proofs};
use rc_base::{Failure, NoMemory};
use std::test::Fail;

/// Texts that are read, and are written again.
static READ: [&str; 3] = [
    "portend-proofs 1\nend\n",
    "portend-proofs 1\nproof 1\nformula 2 3\n1 0\n-1 2 0\n-2 0\nlog 1\n0 1 2 3 0\n\
     proof 4294967295\nformula 2147483647 1\n-2147483647 2147483646 0\nlog 2\n0 0\n1 -2 0 4294967295 0\nend\n",
    "portend-proofs 1\nproof 0\nformula 0 0\nlog 0\nend\n",
];

/// Texts that are refused, with the number of the line.
static REFUSED: [(&str, u32); 30] = [
    ("", 1),
    ("portend-proofs 1", 1),
    ("portend-proofs 2\nend\n", 1),
    ("portend-proofs  1\nend\n", 1),
    ("portend-proofs 1\n", 2),
    ("portend-proofs 1\nend", 2),
    ("portend-proofs 1\nend\nend\n", 3),
    ("portend-proofs 1\nend\n ", 3),
    ("portend-proofs 1\nproof -1\n", 2),
    ("portend-proofs 1\nproof 4294967296\n", 2),
    ("portend-proofs 1\nproof 01\n", 2),
    ("portend-proofs 1\nproof 1\nend\n", 3),
    ("portend-proofs 1\nproof 1\nformula 2147483648 0\n", 3),
    ("portend-proofs 1\nproof 1\nformula 1 4294967296\n", 3),
    ("portend-proofs 1\nproof 1\nformula 1\n", 3),
    ("portend-proofs 1\nproof 1\nformula 1 1\nlog 0\n", 4),
    ("portend-proofs 1\nproof 1\nformula 1 1\n1 0\n1 0\n", 5),
    ("portend-proofs 1\nproof 1\nformula 2 1\n3 0\n", 4),
    ("portend-proofs 1\nproof 1\nformula 2 1\n1 -1 0\n", 4),
    ("portend-proofs 1\nproof 1\nformula 2 1\n2 2 0\n", 4),
    ("portend-proofs 1\nproof 1\nformula 2 1\n1\n", 4),
    ("portend-proofs 1\nproof 1\nformula 2 1\n1 0 \n", 4),
    ("portend-proofs 1\nproof 1\nformula 2 1\n+1 0\n", 4),
    ("portend-proofs 1\nproof 1\nformula 2 1\n-0 0\n", 4),
    (
        "portend-proofs 1\nproof 1\nformula 2 0\nlog 4294967296\n",
        4,
    ),
    ("portend-proofs 1\nproof 1\nformula 2 0\nlog 1\n0\n", 5),
    ("portend-proofs 1\nproof 1\nformula 2 0\nlog 1\n0 -1 0\n", 5),
    (
        "portend-proofs 1\nproof 1\nformula 2 0\nlog 1\n0 4294967296 0\n",
        5,
    ),
    (
        "portend-proofs 1\nproof 1\nformula 2 0\nlog 1\n0 1 0 0\n",
        5,
    ),
    ("portend-proofs 1\nproof 1\nformula 2 0\nlog 1\nend\n", 5),
];

#[test]
fn read_texts_are_written_again(rt: HostRuntime) -> Result<(), Fail> {
    let alloc = rt.alloc();
    for text in READ {
        assert!(rt; text.len() < 1000);
        let Ok(proofs) = read_proofs(alloc, text.as_bytes()) else {
            return Err(Fail::from(NoMemory));
        };
        let written = write_proofs(alloc, &proofs)?;
        assert_eq!(rt; written.as_slice(), text.as_bytes(), "at {text}");
    }
    Ok(())
}

#[test]
fn broken_lines_are_refused(rt: HostRuntime) {
    let alloc = rt.alloc();
    for (text, line) in REFUSED {
        assert!(rt; text.len() < 1000);
        let refused = match read_proofs(alloc, text.as_bytes()) {
            Ok(_) => 0,
            Err(Failure::Refused(ProofsError::BadLog { line })) => line,
            Err(Failure::NoMemory) => u32::MAX,
        };
        assert_eq!(rt; refused, line, "at {text}");
    }
}

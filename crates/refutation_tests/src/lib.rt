//! Calls of `refutation` and `proof_text`, with what no clause says of them: that they succeed while memory lasts, and
//! that the definitions give the values that are worked out by hand.
//!
//! They stand in a crate of their own, since a crate with tests is proved twice.
//!
//! - `logs`: logs that are accepted, and logs that are not
//! - `texts`: texts of proofs that are read and written, and texts that are refused
//! - `parts`: rows, formulas, logs and marks, call by call
#![tactic(auto)]

#[cfg(test)]
mod logs;
#[cfg(test)]
mod parts;
#[cfg(test)]
mod texts;

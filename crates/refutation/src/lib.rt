//! Formulas in conjunctive normal form, and logs that refute them: clauses with hints, each of which follows by reverse
//! unit propagation from the clauses before it, as in an LRAT proof. A checker tells whether a log is accepted.
//!
//! - `rows`: rows of literals or hints in one list
//! - `formula`, `log`, `proof`: the data
//! - `known`: the clauses that a hint may name
//! - `marks`, `propagation`: what is known of the variables, and what a clause says beside it
//! - `checker`: the checker of logs
//! - `laws`: that an accepted log's formula has no model
#![tactic(auto)]

mod checker;
mod formula;
mod known;
pub mod laws;
mod log;
mod marks;
mod proof;
mod propagation;
mod rows;

pub use checker::{check, propagate_hint};
pub use formula::Formula;
pub use known::Known;
pub use log::{Lemma, Log};
pub use marks::{is_false, is_unset, make_false, make_true, mark_of};
pub use proof::Proof;
pub use propagation::{Propagation, propagate};
pub use rows::Rows;

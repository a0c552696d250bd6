//! The chooser of turns: which of the enabled threads takes the next one.
//!
//! - `policy`: a chooser that follows recorded turns, holds a thread, and lets it go
//! - `follow`: the next thread in turn, of a list or by the numbers of the threads
#![tactic(auto)]

mod follow;
mod policy;

pub use policy::Policy;

//! Calls of the libraries below the program, with what no clause says of them: that they succeed while memory
//! lasts, and values worked out by hand or by a public standard.
//!
//! They stand in a crate of their own, since a crate with tests is proved twice.
//!
//! - `outside`: reading and writing, each call failing in turn, gates, words and counted steps
//! - `operations`: the values of operations on words at the edges of each width, and the sizes of kinds
//! - `copies`: lists, inputs and turns
//! - `calls`: the calls of the C library and of POSIX threads, and formats of `printf`
//! - `accesses`: which accesses overlap, and which conflict
//! - `choices`: which thread a chooser takes
//! - `turns`, `courses`: machines and the run of a small module, turn by turn
//! - `verdicts`: the class of made results
//! - `cases`: texts of cases that no module of text can ask for
//! - `printed`: the texts of made runs and classes
#![tactic(auto)]

#[cfg(test)]
mod accesses;
#[cfg(test)]
mod calls;
#[cfg(test)]
mod cases;
#[cfg(test)]
mod choices;
#[cfg(test)]
mod copies;
#[cfg(test)]
mod courses;
#[cfg(test)]
mod operations;
#[cfg(test)]
mod outside;
#[cfg(test)]
mod printed;
#[cfg(test)]
mod turns;
#[cfg(test)]
mod verdicts;

//! Classifies data races by their consequences: the program over files and standard output.
#![tactic(auto)]

mod file_reader;
mod file_shelf;
mod lazy_file;
mod words;
mod writer_sink;

use crate::file_shelf::FileShelf;
use crate::lazy_file::LazyFile;
use crate::words::{command_words, proofs_path};
use crate::writer_sink::WriterSink;
use race_top::run;
use rc_base::OpenGate;
use std::io;
use std::process::ExitCode;
use std::rt::{Env, Files};
use std::thread::Threads;

/// Runs the command that the arguments spell, and answers its exit status.
fn status_of<R: AllocGlobal + Env + Files + Print + Threads + Sync>(rt: &R) -> u8 {
    let words = match command_words(rt) {
        Ok(words) => words,
        Err(status) => return status,
    };
    let mut shelf = FileShelf::new(rt);
    let mut out = WriterSink::new(io::writer(rt));
    let mut proofs = WriterSink::new(LazyFile::new(rt, proofs_path(&words)));
    run(
        rt,
        rt.alloc(),
        &words,
        &mut shelf,
        &mut out,
        &mut proofs,
        &OpenGate::new(),
    )
}

fn main(rt: HostRuntime) -> ExitCode {
    ExitCode::from(status_of(&rt))
}

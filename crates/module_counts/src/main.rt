//! Counts the bytes of a module's file, its tokens, the nodes that are read of it, or the functions of the module that they
//! spell. `bench/read` times them.
//!
//! usage: module_counts bytes|tokens|nodes|functions FILE
#![tactic(auto)]

ghost use Rattle.std.specs.Prelude.{◌≡◌, ◌≤◌, length};
ghost use Rattle.std.specs.Result.{result_map_both};
ghost use Rattle.rc_base.specs.Failures.{Gives};
ghost use Rattle.ir_lex.specs.Lexer.{tokens_of};
ghost use Rattle.ir_read.specs.Text.{raw_module_in};
ghost use Rattle.module_build.specs.Checked.{module_in};

use ir_lex::laws::tokens_are_few;
use ir_lex::{Lexer, MOST_BYTES};
use ir_read::{ModuleError, read_module};
use module_build::check_module;
use rc_base::Failure;
use std::alloc::Global;
use std::{env, fs, io};

const USAGE: &str = "usage: module_counts bytes|tokens|nodes|functions FILE";

/// How many tokens stand before the end of the text, or before the first place where none begins.
fn count_tokens(text: &[u8]) -> u64
    requires { length text.now ≤ MOST_BYTES }
    ensures { result ≡ length (tokens_of text.now).tokens }
{
    tokens_are_few();
    let mut lexer = Lexer::new(text);
    let mut count: u64 = 0;
    while let Ok(Some(_)) = lexer.next() {
        count += 1;
    }
    count
}

/// How many nodes are read of the text, or the first fault.
fn count_nodes(alloc: Global, text: &[u8]) -> Result<usize, Failure<ModuleError>>
    requires { length text.now ≤ MOST_BYTES }
    ensures { Gives (λ count. count) result (result_map_both length (λ error. error) (raw_module_in text.now)) }
{
    let found = read_module(alloc, text)?;
    Ok(found.nodes.len())
}

/// How many functions the module of the text defines, or its first fault.
fn count_functions(alloc: Global, text: &[u8]) -> Result<usize, Failure<ModuleError>>
    requires { length text.now ≤ MOST_BYTES }
    ensures { Gives (λ count. count) result (result_map_both (λ code. length code.functions) (λ error. error) (module_in text.now)) }
{
    let raw = read_module(alloc, text)?;
    let code = check_module(alloc, &raw)?;
    Ok(code.functions.len())
}

/// Prints a count, or why there is none.
fn print(
    rt: HostRuntime,
    count: Result<usize, Failure<ModuleError>>,
    what: &str,
) -> io::Result<()> {
    match count {
        Ok(count) => println!(rt; "{count} {what}"),
        Err(Failure::Refused(error)) => println!(rt; "{error}"),
        Err(Failure::NoMemory) => println!(rt; "out of memory"),
    }
}

/// Prints the count that the words ask for, or why there is none.
fn main(rt: HostRuntime) -> io::Result<()> {
    let mut words = env::args(&rt)?.skip(1);
    let (Some(what), Some(path)) = (words.next(), words.next()) else {
        return println!(rt; "{USAGE}");
    };
    let text = fs::read(&rt, path.as_str())?;
    if text.len() > MOST_BYTES {
        return println!(rt; "the file has more than {MOST_BYTES} bytes");
    }
    match what.as_str() {
        "bytes" => println!(rt; "{} bytes", text.len()),
        "tokens" => println!(rt; "{} tokens", count_tokens(&text)),
        "nodes" => print(rt, count_nodes(rt.alloc(), &text), "nodes"),
        "functions" => print(rt, count_functions(rt.alloc(), &text), "functions"),
        _ => println!(rt; "{USAGE}"),
    }
}

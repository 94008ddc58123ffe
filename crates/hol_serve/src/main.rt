//! The program: lines of requests on standard input, a reply a line on standard output.
#![tactic(auto)]

mod begun;
mod coded_tac;
mod laws;
mod program;
mod settings;

use crate::program::program;
use crate::settings::Words;
use hol_session::Watched;
use std::alloc::Global;
use std::process::ExitCode;
use std::{env, io};

// The program's words, its name first.
fn program_words(rt: &HostRuntime) -> Result<Vec<String>, Words> {
    match env::args(rt) {
        Ok(words) => Ok(words.collect(rt.alloc())?),
        Err(error) if error.kind() == io::ErrorKind::OutOfMemory => Err(Words::Memory),
        Err(_) => Err(Words::Bad),
    }
}

// The words as the program takes them.
fn texts(alloc: Global, words: &Result<Vec<String>, Words>) -> Result<Vec<&str>, Words> {
    match words {
        Ok(words) => Ok(words.iter().map(String::as_str).collect(alloc)?),
        Err(words) => Err(*words),
    }
}

// The stack that is touched before anything is read, in bytes: more than the deepest input takes.
const STACK: usize = 4 << 20;

// Touches the stack, and is true. What was touched stays the program's, so where memory is too short for it the program ends here, and never
// with documents. The place isn't known beforehand, so that no compiler leaves the bytes out.
#[inline(never)]
fn has_stack(place: usize) -> bool {
    let mut bytes = [0u8; STACK];
    bytes[place % STACK] = 1;
    bytes[place / 2 % STACK] < 2
}

fn main(rt: HostRuntime) -> ExitCode {
    let alloc = rt.alloc();
    let words = program_words(&rt);
    let texts = texts(alloc, &words);
    if !has_stack(texts.as_ref().map_or(0, Vec::len)) {
        return ExitCode::from(1);
    }
    let status = program(
        alloc,
        texts.as_ref().map(Vec::as_slice).map_err(|words| *words),
        &mut Watched::new(rt.reader()),
        &mut Watched::new(io::writer(&rt)),
        &mut Watched::new(rt.stderr()),
    );
    ExitCode::from(status)
}

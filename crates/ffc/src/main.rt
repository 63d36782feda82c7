//! The form compiler's program: it reads the words of a command line, does what they ask, and ends
//! with the status of the outcome. `program` does all of it over whatever files and sinks it is
//! given; this file hands it those of the system.
#![tactic(auto)]

mod assemble;
mod command;
mod compile;
mod forms;
mod inputs;
mod program;
#[cfg(test)]
mod tests;
mod values;
#[cfg(test)]
mod worked;

use ends::real::{RealFiles, StdSink};
use program::program;
use std::alloc::AllocError;
use std::io;
use std::process::ExitCode;

// The words could not be collected: for want of memory, or for another cause.
const NO_ROOM_FOR_WORDS: u8 = 10;

const NO_WORDS: u8 = 11;

fn collect_words(rt: &HostRuntime) -> io::Result<Vec<String>> {
    let mut words = Vec::new(rt.alloc());
    for word in std::env::args(rt)?.skip(1) {
        words.push(word).map_err(AllocError::from)?;
    }
    Ok(words)
}

fn main(rt: HostRuntime) -> ExitCode {
    let words = match collect_words(&rt) {
        Ok(words) => words,
        Err(error) if error.kind() == io::ErrorKind::OutOfMemory => {
            return ExitCode::from(NO_ROOM_FOR_WORDS);
        }
        Err(_) => return ExitCode::from(NO_WORDS),
    };
    let alloc = rt.alloc();
    let mut out = StdSink::new(rt.stdout());
    let mut err = StdSink::new(rt.stderr());
    let mut files = RealFiles::new(rt);
    let outcome = program(alloc, words.as_slice(), &mut files, &mut out, &mut err);
    ExitCode::from(outcome.status())
}

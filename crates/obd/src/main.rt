//! The program `obd`: the top call over standard input and standard output. Its exit code is the status of
//! the run, 0 to 8. Where the runtime refuses to give the words, nothing is read or written, and the exit
//! code is 8 for want of memory and 9 for any other cause, as a word that isn't UTF-8.
#![tactic(auto)]

use obd_base::{StdSink, StdSource};
use obd_cli::{Status, run};
use std::process::ExitCode;
use std::{env, io};

/// The exit code where the words can't be told for another cause than memory.
const NO_WORDS: u8 = 9;

// The words after the program's own name.
fn words_given(rt: &HostRuntime) -> io::Result<Vec<String>> {
    let mut words = Vec::new(rt.alloc());
    for word in env::args(rt)?.skip(1) {
        words.push(word)?;
    }
    Ok(words)
}

fn main(rt: HostRuntime) -> ExitCode {
    let words = match words_given(&rt) {
        Ok(words) => words,
        Err(error) if error.kind() == io::ErrorKind::OutOfMemory => {
            return ExitCode::from(Status::NoMemory as u8);
        }
        Err(_) => return ExitCode::from(NO_WORDS),
    };
    let mut source = StdSource::new(rt.reader());
    let mut sink = StdSink::new(io::writer(&rt));
    ExitCode::from(run(rt.alloc(), &words, &mut source, &mut sink) as u8)
}

//! `hrt`: largest weakly stable matchings.
#![tactic(auto)]

use hrt_cli::run;
use hrt_host::RealHost;
use std::env;
use std::io::{self, ErrorKind};
use std::process::ExitCode;

// The words after the program's name.
fn words(rt: &HostRuntime) -> io::Result<Vec<String>> {
    let mut words = Vec::new(rt.alloc());
    for word in env::args(rt)?.skip(1) {
        words.push(word)?;
    }
    Ok(words)
}

fn main(rt: HostRuntime) -> ExitCode {
    let alloc = rt.alloc();
    let words = match words(&rt) {
        Ok(words) => words,
        // The code with which `run` tells of want of memory.
        Err(error) if error.kind() == ErrorKind::OutOfMemory => return ExitCode::from(6),
        // A word that isn't UTF-8 makes a command line that is not understood, as no words do.
        Err(_) => Vec::new(alloc),
    };
    let mut host = RealHost::new(rt);
    ExitCode::from(run(alloc, &words, &mut host))
}

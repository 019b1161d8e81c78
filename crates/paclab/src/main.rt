//! The program: the words of its command line, the disk, standard input and standard output, handed to the library.
#![tactic(auto)]

use pa_io::{DiskShelf, StdinSource, StdoutSink};
use pa_paclab::command;
use std::process::ExitCode;
use std::{env, io};

/// The words behind the program's own name.
fn words(rt: HostRuntime) -> io::Result<Vec<String>> {
    let words = env::args(&rt)?.skip(1).collect(rt.alloc())?;
    Ok(words)
}

fn main(rt: HostRuntime) -> ExitCode {
    let mut shelf = DiskShelf::new(rt);
    let mut input = StdinSource::new(rt);
    let mut out = StdoutSink::new(rt);
    ExitCode::from(command(rt.alloc(), &words(rt), &mut shelf, &mut input, &mut out))
}

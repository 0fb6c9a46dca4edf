// The program: the top call over files of the system and standard output.
#![tactic(auto)]

use ef_front::{erlfront, give_up};
use ef_io::{FileOutput, FileSources, OutSink, Status};
use std::env::Env;
use std::io::ErrorKind;
use std::process::ExitCode;
use std::{env, io};

fn main(rt: HostRuntime) -> ExitCode {
    let alloc = rt.alloc();
    let mut diag = OutSink::new(io::writer(&rt));
    let words = match words(&rt) {
        Ok(words) => words,
        // A word that is not UTF-8 is refused like a wrong number of words.
        Err(error) if error.kind() == ErrorKind::InvalidData => Vec::new(alloc),
        Err(_) => return exit_code(give_up(&mut diag)),
    };
    let mut sources = FileSources::new(alloc, &rt);
    let mut output = FileOutput::new(alloc, &rt);
    exit_code(erlfront(alloc, &words, &mut sources, &mut output, &mut diag))
}

// The words after the program's name.
fn words<R: Env + AllocGlobal>(rt: &R) -> io::Result<Vec<String>> {
    let mut words = Vec::new(rt.alloc());
    for word in env::args(rt)?.skip(1) {
        words.push(word)?;
    }
    Ok(words)
}

fn exit_code(status: Status) -> ExitCode {
    ExitCode::from(match status {
        Status::Written => 0,
        Status::Faults => 1,
        Status::Words => 2,
        Status::NoMemory => 3,
        Status::ReadFault => 4,
        Status::WriteFault => 5,
    })
}

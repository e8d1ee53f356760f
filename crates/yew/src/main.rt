//! The program: it hands the words of the command line, the real files and the standard streams to the top call, and
//! ends with its status.
#![tactic(auto)]

mod file_shelf;
mod standard_sinks;

use file_shelf::FileShelf;
use standard_sinks::StandardSink;
use std::process::ExitCode;
use std::{env, io};
use yew_app::run;
use yew_io::{OpenGate, write_whole};

/// The words after the program's name.
fn words_of(rt: &HostRuntime) -> io::Result<Vec<String>> {
    let mut words = Vec::new(rt.alloc());
    for word in env::args(rt)?.skip(1) {
        words.push(word)?;
    }
    Ok(words)
}

fn main(rt: HostRuntime) -> ExitCode {
    let mut out = StandardSink::new(rt.stdout());
    let mut err = StandardSink::new(rt.stderr());
    let words = match words_of(&rt) {
        Ok(words) => words,
        Err(end) if end.kind() == io::ErrorKind::InvalidData => {
            let _ = write_whole(&mut err, b"yew: a word is no text\n");
            return ExitCode::from(1);
        }
        Err(_) => {
            let _ = write_whole(&mut err, b"yew: out of memory\n");
            return ExitCode::from(6);
        }
    };
    let mut shelf = FileShelf::new(&rt);
    let status = run(
        &rt,
        rt.alloc(),
        &words,
        &mut shelf,
        &mut out,
        &mut err,
        &OpenGate,
    );
    ExitCode::from(status)
}

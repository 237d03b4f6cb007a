//! The program `vstreamd`: the change stream of a shard on standard output, and a recorded one as lines.
#![tactic(auto)]

use std::io::ErrorKind;
use std::process::ExitCode;
use std::{env, io};
use vs_command::run::run;
use vs_command::{Status, run_plain};
use vs_host::{FolderTablets, HostClock, StdSink, StdSource};

/// The words of the command line, behind the program's name.
fn words_of(rt: HostRuntime) -> io::Result<Vec<String>> {
    let mut words = Vec::new(rt.alloc());
    for word in env::args(&rt)?.skip(1) {
        words.push(word)?;
    }
    Ok(words)
}

/// Whether the first word is that of a command which waits for nobody.
fn is_plain(words: &[String]) -> bool {
    match words.first() {
        Some(word) => word.as_str() == "show",
        None => false,
    }
}

/// Why there are no words. One that isn't UTF-8 is none that the program takes.
fn end_of(error: &io::Error) -> Status {
    if error.kind() == ErrorKind::OutOfMemory {
        Status::Memory
    } else {
        Status::Usage
    }
}

fn main(rt: HostRuntime) -> ExitCode {
    let alloc = rt.alloc();
    let mut input = StdSource::new(&rt);
    let mut output = StdSink::new(rt);
    let mut tablets = FolderTablets::new(rt, alloc);
    let mut clock = HostClock::new(rt);
    let status = match words_of(rt) {
        Err(error) => end_of(&error),
        Ok(words) if is_plain(&words) => {
            run_plain(alloc, &words, &mut input, &mut output, &mut tablets)
        }
        Ok(words) => run(
            &rt,
            alloc,
            &words,
            &mut input,
            &mut output,
            &mut tablets,
            &mut clock,
        ),
    };
    let number = status.number();
    if number != 0 {
        let _ = status.write_line(&mut StdSink::new(rt.stderr()));
    }
    ExitCode::from(number)
}

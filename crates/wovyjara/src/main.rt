// wovyjara [FILE]: answers each line of the file, or of standard input, at once.
#![tactic(auto)]

use session::lines::answer;
use std::io::{BufRead, BufReader};
use std::process::ExitCode;
use std::{env, fs, io};

// Answers a line, and tells whether it was taken.
fn serve_line(rt: &HostRuntime, number: usize, line: &[u8]) -> io::Result<bool> {
    match answer(rt.alloc(), line) {
        Ok(None) => Ok(true),
        Ok(Some(text)) => {
            println!(rt; "{text}")?;
            Ok(true)
        }
        Err(complaint) => {
            eprintln!(rt; "line {number}: {complaint}")?;
            Ok(false)
        }
    }
}

// Answers all lines, and tells whether each was taken.
fn serve<R: BufRead + Drop>(rt: &HostRuntime, input: R) -> io::Result<bool> {
    let mut all_taken = true;
    for (index, line) in input.split(rt.alloc(), b'\n').enumerate() {
        let line = line?;
        all_taken &= serve_line(rt, index + 1, line.as_slice())?;
    }
    Ok(all_taken)
}

fn run(rt: &HostRuntime) -> anyhow::Result<bool> {
    let mut words = env::args(rt)?;
    let _program = words.next();
    let Some(path) = words.next() else {
        return Ok(serve(rt, BufReader::new(rt.alloc(), rt.stdin())?)?);
    };
    let file = fs::open(rt, path.as_str())?;
    Ok(serve(rt, BufReader::new(rt.alloc(), file)?)?)
}

fn main(rt: HostRuntime) -> anyhow::Result<ExitCode> {
    if run(&rt)? {
        Ok(ExitCode::SUCCESS)
    } else {
        Ok(ExitCode::FAILURE)
    }
}

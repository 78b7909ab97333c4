// The listing program: one call a line, from the file that its argument names or from standard input, and one line
// printed for each. It lends 16,000 words, all 0 at first.
#![tactic(auto)]

mod answers;
mod serve;

use serve::Failure;
use std::env::Args;
use std::fs::File;
use std::io::Read;
use std::process::ExitCode;
use std::{env, io};

// Where an error's number begins in its text.
const NUMBER: &str = " (os error ";

// The text of an error, without its number.
fn reason(text: &str) -> &str {
    match text.split_once(NUMBER) {
        Some((said, _)) => said,
        None => text,
    }
}

// Says on the standard error why something failed. What keeps it from saying so is not said.
fn fail(rt: &HostRuntime, name: &str, error: io::Error) -> ExitCode {
    let _ = match format!(in rt.alloc(); "{error}") {
        Ok(text) => {
            let said = reason(text.as_str());
            eprintln!(rt; "{name}: {said}")
        }
        Err(_) => eprintln!(rt; "{name}: {error}"),
    };
    ExitCode::FAILURE
}

// Answers what is read.
fn serve_from<R: Read>(rt: &HostRuntime, name: &str, from: &mut R) -> ExitCode {
    match serve::serve(from, &mut rt.stdout()) {
        Ok(()) => ExitCode::SUCCESS,
        Err(Failure::Read(error)) => fail(rt, name, error),
        Err(Failure::Write(error)) => fail(rt, "standard output", error),
    }
}

fn serve_file(rt: &HostRuntime, path: &str) -> ExitCode {
    match File::open(rt, path) {
        Ok(mut file) => serve_from(rt, path, &mut file),
        Err(error) => fail(rt, path, error),
    }
}

// What the arguments ask for: the program's name comes first, and a file may follow. Where there are more the usage is said;
// the command that starts the program gives that a status.
fn serve_args(rt: &HostRuntime, mut args: Args) -> ExitCode {
    args.next();
    let path = args.next();
    if args.next().is_some() {
        let _ = eprintln!(rt; "usage: listing [FILE]");
        return ExitCode::SUCCESS;
    }
    match path {
        Some(path) => serve_file(rt, path.as_str()),
        None => serve_from(rt, "standard input", &mut rt.stdin()),
    }
}

fn main(rt: HostRuntime) -> ExitCode {
    match env::args(&rt) {
        Ok(args) => serve_args(&rt, args),
        Err(error) => fail(&rt, "arguments", error),
    }
}

// Reads a book from standard input, or from the file that its one argument names, and prints what the planner answers.
// A refused book prints one line that says why, and ends with status 1.
#![tactic(auto)]

use anyhow::anyhow;
use std::io::{Read, Write};
use std::process::ExitCode;
use std::{env, fs, io};

// One byte more than any book has: what lies past it is not read. Rust has no `From` of a `usize` into a `u64`.
const MOST_INPUT: u64 = book::MOST_BYTES as u64 + 1;

// What is read in full, up to the most that the program takes in.
fn read_all<R: Read + Drop>(rt: &HostRuntime, source: R) -> io::Result<Vec<u8>> {
    let mut text = Vec::new(rt.alloc());
    source.take(MOST_INPUT).read_to_end(&mut text)?;
    Ok(text)
}

// The book from the one file that is named, or from standard input.
fn read_input(rt: &HostRuntime) -> anyhow::Result<Vec<u8>> {
    let mut args = env::args(rt)?;
    let _program = args.next();
    let named = args.next();
    if args.next().is_some() {
        return Err(anyhow!("name one book, or none to read standard input"));
    }
    match named {
        Some(name) => Ok(read_all(rt, fs::open(rt, name.as_str())?)?),
        None => Ok(read_all(rt, rt.stdin())?),
    }
}

fn main(rt: HostRuntime) -> anyhow::Result<ExitCode> {
    let text = match read_input(&rt) {
        Ok(text) => text,
        Err(error) => {
            eprintln!(rt; "tulykesz: cannot read the book: {error}")?;
            return Ok(ExitCode::FAILURE);
        }
    };
    match planner::respond(rt.alloc(), &text) {
        Ok(answer) => {
            if let Err(error) = rt.stdout().write_all(&answer) {
                eprintln!(rt; "tulykesz: cannot print the answer: {error}")?;
                return Ok(ExitCode::FAILURE);
            }
            Ok(ExitCode::SUCCESS)
        }
        Err(refusal) => {
            println!(rt; "{refusal}")?;
            Ok(ExitCode::FAILURE)
        }
    }
}

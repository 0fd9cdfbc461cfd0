// Reads cases from standard input, line by line, and prints a line of answer for each. A case is `A P TEXT`: the lengths
// of the two lent tables and the text of a book. A line that begins with `#` is a heading, and is printed as it is.
#![tactic(auto)]

mod packed;
mod trial;

use std::io::{BufRead, BufReader};
use trial::Case;

fn answer(rt: &HostRuntime, line: &str) -> anyhow::Result<()> {
    if line.starts_with('#') {
        println!(rt; "{line}")?;
        return Ok(());
    }
    let outcome = Case::parse(rt.alloc(), line)?.run(rt.alloc())?;
    println!(rt; "{outcome}")?;
    Ok(())
}

fn answer_all(rt: &HostRuntime) -> anyhow::Result<()> {
    for line in BufReader::new(rt.alloc(), rt.stdin())?.lines(rt.alloc()) {
        answer(rt, line?.as_str())?;
    }
    Ok(())
}

fn main(rt: HostRuntime) -> anyhow::Result<()> {
    answer_all(&rt)
}

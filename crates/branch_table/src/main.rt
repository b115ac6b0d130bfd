//! Reads the goals of its input and prints the branches of each at each kind.
//!
//! A line of the input has a schema, or two with a tab between them, as JSON texts. `cases.py` wrote the table, with
//! the branches that are wanted.
#![tactic(auto)]

mod answer;
mod text;

use answer::answer;
use std::io;

fn main(rt: HostRuntime) -> io::Result<()> {
    for line in rt.lines(rt.alloc()) {
        let line = line?;
        match answer(rt.alloc(), line.as_str()) {
            Ok(text) => print!(rt; "{text}")?,
            Err(_) => println!(rt; "out of memory")?,
        }
    }
    Ok(())
}

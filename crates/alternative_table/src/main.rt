//! Reads the schemas of its input and prints the alternatives of each in a line.
//!
//! A line of the input is a schema as JSON text. `cases.py` wrote the table, with the alternatives that are wanted.
#![tactic(auto)]

mod answer;
mod text;

use answer::answer;
use std::io;

fn main(rt: HostRuntime) -> io::Result<()> {
    for line in rt.lines(rt.alloc()) {
        let line = line?;
        match answer(rt.alloc(), line.as_str()) {
            Ok(text) => println!(rt; "{text}")?,
            Err(_) => println!(rt; "out of memory")?,
        }
    }
    Ok(())
}

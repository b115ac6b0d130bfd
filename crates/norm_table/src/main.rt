//! Reads the schemas of its input and prints the text of the core table of each.
//!
//! A line of the input has a schema as JSON text. `cases.py` wrote the table, with the texts that are wanted.
#![tactic(auto)]

mod answer;

use answer::answer;
use std::io;

fn main(rt: HostRuntime) -> io::Result<()> {
    for line in rt.lines(rt.alloc()) {
        let line = line?;
        match answer(rt.alloc(), line.as_str()) {
            Ok(text) => print!(rt; "{text}")?,
            Err(_) => println!(rt; "out of memory")?,
        }
    }
    Ok(())
}

//! Reads lists of atoms and prints the automaton of each: its classes, its rows and what is true in them.
//!
//! A line of the input has the atoms as JSON text. `cases.py` wrote the table, with the texts that are wanted.
#![tactic(auto)]

mod block;
mod line;

use block::answer;
use std::io;

fn main(rt: HostRuntime) -> io::Result<()> {
    for (i, line) in rt.lines(rt.alloc()).enumerate() {
        let line = line?;
        let number = i + 1;
        match answer(rt.alloc(), line.as_str()) {
            Ok(text) => print!(rt; "{number}: {text}")?,
            Err(_) => println!(rt; "{number}: out of memory")?,
        }
    }
    Ok(())
}

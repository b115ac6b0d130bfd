//! Judges the certificates of its input and prints the verdict on each.
//!
//! A line of the input is a list of two schemas and the pieces of a certificate, as JSON text. Scripts wrote the table,
//! with the verdicts of a judge of their own.
#![tactic(auto)]

mod answer;
mod bytes;
mod judging;

use answer::answer;
use std::io;

fn main(rt: HostRuntime) -> io::Result<()> {
    for line in rt.lines(rt.alloc()) {
        let line = line?;
        match answer(&rt, rt.alloc(), line.as_str()) {
            Ok(text) => println!(rt; "{text}")?,
            Err(_) => println!(rt; "out of memory")?,
        }
    }
    Ok(())
}

//! Decides the number groups of its input, one a line, and prints the answers.
//!
//! Its input is a table of worked examples and of groups at the edges. `groups.py` wrote it, with the answers that
//! are wanted, by plain integer arithmetic.
#![tactic(auto)]

mod lines;

use js_numbers::Cases;
use lines::answer;
use std::io;

fn main(rt: HostRuntime) -> io::Result<()> {
    for line in rt.lines(rt.alloc()) {
        match answer(rt.alloc(), line?.as_str()) {
            Ok(Cases::Found(x)) => println!(rt; "found {x}")?,
            Ok(Cases::Empty) => println!(rt; "empty")?,
            Ok(Cases::LimitMultiples) => println!(rt; "limit multiples")?,
            Ok(Cases::LimitCandidates) => println!(rt; "limit candidates")?,
            Err(fault) => println!(rt; "{fault:?}")?,
        }
    }
    Ok(())
}

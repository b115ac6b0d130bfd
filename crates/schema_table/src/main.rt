//! Reads the schemas of its input and validates a document against each, and prints what came of it.
//!
//! A line of the input has a schema, a tab and a document, as JSON texts. In place of a document there may be the text
//! of a table of parts, with tabs between its lines: its last part is validated. `cases.py` wrote the table, with the
//! answers that are wanted.
#![tactic(auto)]

mod answer;

use answer::answer;
use std::io;

fn main(rt: HostRuntime) -> io::Result<()> {
    for line in rt.lines(rt.alloc()) {
        let line = line?;
        let (schema, document) = line
            .as_str()
            .split_once('\t')
            .unwrap_or((line.as_str(), ""));
        match answer(rt.alloc(), schema, document) {
            Ok(words) => println!(rt; "{words}")?,
            Err(_) => println!(rt; "out of memory")?,
        }
    }
    Ok(())
}

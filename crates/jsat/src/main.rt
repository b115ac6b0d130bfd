//! The program `jsat`: the command words, the real files and standard output, and one call that does all the work.
#![tactic(auto)]

use js_doc::{Memory, Str};
use js_outside::{FileShelf, StdoutSink};
use js_par::OpenGate;
use js_top::{Status, run};
use std::env;
use std::env::Env;
use std::io::ErrorKind;
use std::process::ExitCode;

fn main(rt: HostRuntime) -> ExitCode {
    let status = match command_words(&rt) {
        Ok(words) => {
            let mut shelf = FileShelf::new(&rt);
            let mut sink = StdoutSink::new(&rt);
            run(
                &rt,
                rt.alloc(),
                words.as_slice(),
                &OpenGate,
                &mut shelf,
                &mut sink,
            )
        }
        Err(status) => status,
    };
    ExitCode::from(status.code())
}

/// The words after the program's name. Where the system doesn't give them, the status is that of other words.
fn command_words<R: Env + AllocGlobal>(rt: &R) -> Result<Vec<Str>, Status> {
    let args = match env::args(rt) {
        Ok(args) => args,
        Err(error) if error.kind() == ErrorKind::OutOfMemory => return Err(Status::Memory),
        Err(_) => return Err(Status::Usage),
    };
    let mut words = Vec::new(rt.alloc());
    for word in args.skip(1) {
        words
            .push(Str::from_string(word))
            .map_err(|_| Status::Memory)?;
    }
    Ok(words)
}

//! The file system and standard output, as a shelf and a sink. No clause speaks of their content: what the system gives
//! and takes is trusted.

ghost use Rattle.std.specs.Prelude.{◌≡◌, []};

use crate::begun::BegunNames;
use crate::faults::{BeginFault, Failed, raised};
use crate::shelf::Shelf;
use crate::sink::Sink;
use std::fs;
use std::io::{ErrorKind, Read};
use std::rt::Files;

/// The files of the file system.
#[derive(Drop)]
pub struct FileShelf<'a, R: Files> {
    rt: &'a R,
    file: Option<R::File>,
    faults: u64,
    names: BegunNames,
}

impl<'a, R: Files> FileShelf<'a, R> {
    /// A shelf of the system's files. It opens none before `begin`.
    pub fn new(rt: &'a R) -> FileShelf<'a, R>
        ensures faults { ⟦<FileShelf<'a, R> as Shelf>⟧.faults result ≡ 0 }
        ensures begun { ⟦<FileShelf<'a, R> as Shelf>⟧.begun result ≡ [] }
    {
        FileShelf {
            rt,
            file: None,
            faults: 0,
            names: BegunNames::new(),
        }
    }
}

impl<'a, R: Files> Shelf for FileShelf<'a, R> {
    ghost use Rattle.std.specs.Prelude.{None, is_some, refl};

    ghost told = { λ s. None };

    ghost left = { λ s. None };

    ghost is_begun = { λ s. is_some s.file };

    ghost faults = { λ s. s.faults };

    ghost begun = { λ s. s.names.names };

    fn begin(&mut self, name: &str) -> Result<(), BeginFault> {
        self.names = self.names.and(name);
        self.file = None;
        match fs::open(self.rt, name) {
            Ok(file) => {
                self.file = Some(file);
                Ok(())
            }
            Err(error) if error.kind() == ErrorKind::OutOfMemory => Err(BeginFault::Memory),
            Err(_) => {
                self.faults = raised(self.faults);
                Err(BeginFault::Failed)
            }
        }
    }

    fn read(&mut self, into: &mut [u8]) -> Result<usize, Failed> {
        match &mut self.file {
            None => Ok(0),
            Some(file) => match file.read(into) {
                Ok(count) => Ok(count),
                Err(_) => {
                    self.faults = raised(self.faults);
                    Err(Failed)
                }
            },
        }
    }

    ghost both_told = { λ s. refl };
}

/// Standard output.
#[derive(Drop)]
pub struct StdoutSink<'a, R: Print> {
    rt: &'a R,
    faults: u64,
}

impl<'a, R: Print> StdoutSink<'a, R> {
    /// A sink at standard output. It writes nothing before `write`.
    pub fn new(rt: &'a R) -> StdoutSink<'a, R>
        ensures { ⟦<StdoutSink<'a, R> as Sink>⟧.faults result ≡ 0 }
    {
        StdoutSink { rt, faults: 0 }
    }
}

impl<'a, R: Print> Sink for StdoutSink<'a, R> {
    ghost use Rattle.std.specs.Prelude.{None};

    ghost written = { λ s. None };

    ghost faults = { λ s. s.faults };

    fn write(&mut self, piece: &[u8]) -> Result<usize, Failed> {
        match self.rt.write_some(piece) {
            Ok(0) => {
                if !piece.is_empty() {
                    self.faults = raised(self.faults);
                }
                Ok(0)
            }
            Ok(count) => Ok(count),
            Err(_) => {
                self.faults = raised(self.faults);
                Err(Failed)
            }
        }
    }
}

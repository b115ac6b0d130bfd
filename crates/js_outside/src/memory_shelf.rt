//! Shelves over memory: one that always gives all it can, one whose listed calls fail, and one that gives a little
//! at a time. None of them takes memory.

ghost use Rattle.std.specs.Prelude.{◌≡◌, ◌<◌, ◌++◌, take, drop, min, length, true, false};
ghost use Rattle.js_outside.specs.InMemory.{BeginsIn, ReadsIn, RefusesBegin, RefusesRead, FaultsAreMisses};
ghost use Rattle.js_outside.specs.InMemory.{counted, is_due, new_shelf, unbegun, unread};

use crate::begun::BegunNames;
use crate::calls::{CallList, Plan};
use crate::faults::{BeginFault, Failed, raised};
use crate::files::FileMap;
use crate::shelf::Shelf;
use std::marker::Model;

/// The file that was begun, by its place in the map, and how many of its bytes were read.
#[derive(Clone, Copy)]
pub(crate) struct Begun {
    file: usize,
    position: usize,
}

/// Files in memory, what was begun of them, and the faults so far.
#[derive(Drop)]
pub(crate) struct Stock {
    files: FileMap,
    begun: Option<Begun>,
    faults: u64,
    names: BegunNames,
}

impl Model for Stock {
    ghost use Rattle.std.specs.Prelude.{is_some};
    ghost use Rattle.js_outside.specs.InMemory.{ShelfState, left_of};

    ghost Value = { ShelfState };

    ghost view = { λ s. record {
      files = s.files;
      is_begun = is_some s.begun;
      left = left_of s.files s.begun;
      faults = s.faults;
      begun = s.names.names;
    } };
}

impl Stock {
    fn new(files: FileMap) -> Stock
        ensures { result ≡ new_shelf files }
    {
        Stock {
            files,
            begun: None,
            faults: 0,
            names: BegunNames::new(),
        }
    }

    fn begin(&mut self, name: &str) -> Result<(), BeginFault>
        ensures { BeginsIn self.old self.new name.now result }
    {
        match self.files.index_of(name) {
            None => {
                self.refuse_begin(name);
                Err(BeginFault::Failed)
            }
            Some(file) => {
                self.begun = Some(Begun { file, position: 0 });
                self.names = self.names.and(name);
                Ok(())
            }
        }
    }

    /// Ends the file that was begun, with a fault more.
    fn refuse_begin(&mut self, name: &str)
        ensures { self.new ≡ unbegun self.old name.now }
    {
        self.begun = None;
        self.faults = raised(self.faults);
        self.names = self.names.and(name);
    }

    /// Counts a read that failed.
    fn refuse_read(&mut self)
        ensures { self.new ≡ unread self.old }
    {
        self.faults = raised(self.faults);
    }

    fn read(&mut self, into: &mut [u8], most: usize) -> Result<usize, Failed>
        ensures { ReadsIn self.old self.new most into.old into.new result }
    {
        Ok(self.read_at_most(into, most))
    }

    /// Reads at most `most` bytes into the front of `into`.
    fn read_at_most(&mut self, into: &mut [u8], most: usize) -> usize
        ensures count { result ≡ min (length self.old.left) (min most (length into.old)) }
        ensures buffer { into.new ≡ take result self.old.left ++ drop result into.old }
        ensures rest { self.new ≡ record self.old { left = drop result self.old.left } }
    {
        match self.begun {
            None => 0,
            Some(begun) => {
                let left = self.files.bytes_from(begun.file, begun.position);
                let count = left.len().min(most.min(into.len()));
                into[..count].copy_from_slice(&left[..count]);
                self.begun = Some(Begun {
                    file: begun.file,
                    position: begun.position + count,
                });
                count
            }
        }
    }
}

/// Files in memory. Its only fault is a name that isn't there, so the count of faults is that of such names.
#[derive(Drop)]
pub struct MemoryShelf {
    stock: Stock,
}

impl Model for MemoryShelf {
    ghost use Rattle.js_outside.specs.InMemory.{ShelfState, FaultsAreMisses};

    ghost Value = { ShelfState };

    ghost view = { λ s. s.stock };

    ghost invariant = { λ s. FaultsAreMisses s.stock };
}

impl MemoryShelf {
    /// A shelf of these files, none of them begun.
    pub fn new(files: FileMap) -> MemoryShelf
        ensures { result ≡ new_shelf files }
    {
        MemoryShelf {
            stock: Stock::new(files),
        }
    }

    /// How many faults there were: how often a name was begun that isn't there.
    pub fn faults(&self) -> u64
        ensures count { result ≡ self.now.faults }
        ensures misses { FaultsAreMisses self.now }
    {
        self.stock.faults
    }

    /// Reads at most `most` bytes into the front of `into`.
    fn read_at_most(&mut self, into: &mut [u8], most: usize) -> Result<usize, Failed>
        ensures { ReadsIn self.old self.new most into.old into.new result }
    {
        self.stock.read(into, most)
    }
}

impl Shelf for MemoryShelf {
    ghost use Rattle.std.specs.Prelude.{Some, refl};
    ghost use Rattle.js_outside.specs.Contents.{contents};

    ghost told = { λ s. Some (contents s.files) };

    ghost left = { λ s. Some s.left };

    ghost is_begun = { λ s. s.is_begun };

    ghost faults = { λ s. s.faults };

    ghost begun = { λ s. s.begun };

    fn begin(&mut self, name: &str) -> Result<(), BeginFault>
        ensures { BeginsIn self.old self.new name.now result }
    {
        self.stock.begin(name)
    }

    fn read(&mut self, into: &mut [u8]) -> Result<usize, Failed>
        ensures { ReadsIn self.old self.new (length into.old) into.old into.new result }
    {
        let most = into.len();
        self.read_at_most(into, most)
    }

    ghost both_told = { λ s. refl };
}

/// As [`MemoryShelf`], and the listed calls fail too. Calls of `begin` and of `read` are numbered together from 0.
#[derive(Drop)]
pub struct FailingShelf {
    stock: Stock,
    plan: Plan,
}

impl Model for FailingShelf {
    ghost use Rattle.js_outside.specs.InMemory.{FailingShelfState};

    ghost Value = { FailingShelfState };

    ghost view = { λ s. record { shelf = s.stock; plan = s.plan } };
}

impl FailingShelf {
    /// A shelf of these files, none of them begun, on which no call was made yet.
    pub fn new(files: FileMap, fail: CallList) -> FailingShelf
        ensures { result ≡ record { shelf = new_shelf files; plan = record { fail = fail; made = 0 } } }
    {
        FailingShelf {
            stock: Stock::new(files),
            plan: Plan::new(fail),
        }
    }
}

impl Shelf for FailingShelf {
    ghost use Rattle.std.specs.Prelude.{Some, refl};
    ghost use Rattle.js_outside.specs.Contents.{contents};

    ghost told = { λ s. Some (contents s.shelf.files) };

    ghost left = { λ s. Some s.shelf.left };

    ghost is_begun = { λ s. s.shelf.is_begun };

    ghost faults = { λ s. s.shelf.faults };

    ghost begun = { λ s. s.shelf.begun };

    fn begin(&mut self, name: &str) -> Result<(), BeginFault>
        ensures counted { self.new.plan ≡ counted self.old.plan }
        ensures listed { is_due self.old.plan ≡ true → RefusesBegin self.old.shelf self.new.shelf name.now result }
        ensures other { is_due self.old.plan ≡ false → BeginsIn self.old.shelf self.new.shelf name.now result }
    {
        if self.plan.is_due() {
            self.stock.refuse_begin(name);
            return Err(BeginFault::Failed);
        }
        self.stock.begin(name)
    }

    fn read(&mut self, into: &mut [u8]) -> Result<usize, Failed>
        ensures counted { self.new.plan ≡ counted self.old.plan }
        ensures listed { is_due self.old.plan ≡ true → RefusesRead self.old.shelf self.new.shelf result }
        ensures other { is_due self.old.plan ≡ false
            → ReadsIn self.old.shelf self.new.shelf (length into.old) into.old into.new result }
    {
        if self.plan.is_due() {
            self.stock.refuse_read();
            return Err(Failed);
        }
        let most = into.len();
        self.stock.read(into, most)
    }

    ghost both_told = { λ s. refl };
}

/// As [`MemoryShelf`], and a read gives at most `piece` bytes.
#[derive(Drop)]
pub struct CutShelf {
    shelf: MemoryShelf,
    piece: u32,
}

impl Model for CutShelf {
    ghost use Rattle.std.specs.Prelude.{◌<◌};
    ghost use Rattle.js_outside.specs.InMemory.{CutShelfState};

    ghost Value = { CutShelfState };

    ghost view = { λ s. record { shelf = s.shelf; piece = s.piece } };

    ghost invariant = { λ s. 0 < s.piece };
}

impl CutShelf {
    /// A shelf of these files, none of them begun. `piece` is in bytes; a read of none would say that a file ends.
    pub fn new(files: FileMap, piece: u32) -> CutShelf
        requires { 0 < piece }
        ensures { result ≡ record { shelf = new_shelf files; piece = piece } }
    {
        CutShelf {
            shelf: MemoryShelf::new(files),
            piece,
        }
    }
}

impl Shelf for CutShelf {
    ghost use Rattle.std.specs.Prelude.{Some, refl};
    ghost use Rattle.js_outside.specs.Contents.{contents};

    ghost told = { λ s. Some (contents s.shelf.files) };

    ghost left = { λ s. Some s.shelf.left };

    ghost is_begun = { λ s. s.shelf.is_begun };

    ghost faults = { λ s. s.shelf.faults };

    ghost begun = { λ s. s.shelf.begun };

    fn begin(&mut self, name: &str) -> Result<(), BeginFault>
        ensures begun { BeginsIn self.old.shelf self.new.shelf name.now result }
        ensures same { self.new.piece ≡ self.old.piece }
    {
        self.shelf.begin(name)
    }

    fn read(&mut self, into: &mut [u8]) -> Result<usize, Failed>
        ensures cut { ReadsIn self.old.shelf self.new.shelf self.old.piece into.old into.new result }
        ensures same { self.new.piece ≡ self.old.piece }
        ensures piece { 0 < self.old.piece }
    {
        self.shelf.read_at_most(into, self.piece as usize)
    }

    ghost both_told = { λ s. refl };
}

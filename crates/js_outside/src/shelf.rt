//! A shelf: where files are read from, one at a time.

ghost use Rattle.std.specs.Prelude.{◌≡◌, ◌∷◌, ◌++◌, ℕ, Bool, List, [], Option, OnOk, OnErr, is_ok, is_some};
ghost use Rattle.std.specs.Io.{ReadsAtMost};
ghost use Rattle.std.specs.Io.KnownBytes.{ReadConsumes};
ghost use Rattle.js_outside.specs.Counts.{Rose, CountsBegin};
ghost use Rattle.js_outside.specs.Told.{Files, FileIsLeft, NothingIsLeft};

use crate::faults::{BeginFault, Failed};

/// A source of files. Its files may be known to contracts, and then clauses say what a read gives; those of the real
/// file system aren't. A file is begun by its name and read from its front.
pub trait Shelf {
    // The files, by the UTF-8 bytes of their names, where they are known.
    ghost told: { Self → Option Files };

    // What is left of the file that was begun, where files are known.
    ghost left: { Self → Option (List ℕ) };

    // Whether a file is begun. Where none is, nothing is left, as where all of one was read.
    ghost is_begun: { Self → Bool };

    // How many faults there were. The count stays at its last value.
    ghost faults: { Self → ℕ };

    // The names with which `begin` was called, in their order, whatever it answered.
    ghost begun: { Self → List (List ℕ) };

    /// Begins a file. After a fault no file is begun.
    fn begin(&mut self, name: &str) -> Result<(), BeginFault>
        ensures told { told self.new ≡ told self.old }
        ensures begun { OnOk result (FileIsLeft (told self.old) name.now (left self.new)) }
        ensures unbegun { OnErr result (NothingIsLeft (told self.old) (left self.new)) }
        ensures is_begun { is_begun self.new ≡ is_ok result }
        ensures counted { CountsBegin result (faults self.old) (faults self.new) }
        ensures named { begun self.new ≡ begun self.old ++ name.now ∷ [] };

    /// Reads bytes of the file that was begun into the front of `into`, and answers how many. Where `into` has room, 0
    /// says that nothing is left. With no file begun there is nothing to read. After a fault the file is still begun.
    fn read(&mut self, into: &mut [u8]) -> Result<usize, Failed>
        ensures told { told self.new ≡ told self.old }
        ensures within { ReadsAtMost result into.new }
        ensures taken { ReadConsumes (left self.old) (left self.new) result into.new }
        ensures counted { OnOk result (faults self.new ≡ faults self.old) }
        ensures failed { OnErr result (Rose (faults self.old) (faults self.new)) }
        ensures is_begun { is_begun self.new ≡ is_begun self.old }
        ensures named { begun self.new ≡ begun self.old };

    // What is left is known exactly where the files are.
    ghost both_told: { (s : Self) → is_some (left s) ≡ is_some (told s) };
}

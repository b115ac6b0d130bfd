//! A sink: where a report is written, piece by piece.

ghost use Rattle.std.specs.Prelude.{◌≡◌, ℕ, ◌<◌, List, Option, Ok, IfOk, OnErr, is_some, length};
ghost use Rattle.std.specs.Io.{WritesAtMost};
ghost use Rattle.std.specs.Io.KnownBytes.{WriteAppends};
ghost use Rattle.js_outside.specs.Counts.{Rose};

use crate::faults::Failed;

/// A place for bytes. What was written to it may be known to contracts; what standard output took isn't.
pub trait Sink {
    // The bytes so far, where they are known.
    ghost written: { Self → Option (List ℕ) };

    // How many faults there were. The count stays at its last value.
    ghost faults: { Self → ℕ };

    /// Appends a prefix of `piece` and answers its length. The answer 0 for a piece that isn't empty is a fault too,
    /// and was counted.
    fn write(&mut self, piece: &[u8]) -> Result<usize, Failed>
        ensures within { WritesAtMost result piece.now }
        ensures appended { WriteAppends (written self.old) (written self.new) result piece.now }
        ensures told { is_some (written self.new) ≡ is_some (written self.old) }
        ensures failed { OnErr result (Rose (faults self.old) (faults self.new)) }
        ensures nothing { result ≡ Ok 0 → 0 < length piece.now → Rose (faults self.old) (faults self.new) }
        ensures counted { IfOk result (λ count. 0 < count → faults self.new ≡ faults self.old) }
        ensures empty { IfOk result (λ count. length piece.now ≡ 0 → faults self.new ≡ faults self.old) };
}

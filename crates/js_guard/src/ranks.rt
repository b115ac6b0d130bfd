//! Ranks of entries, which fall along in-place edges.

ghost use Rattle.std.specs.Prelude.{◌≡◌, ◌<◌, length, get_or};

use std::marker::Model;

/// A number for each entry of a schema, below their number. Contracts see the list of them.
#[derive(Drop)]
pub struct Ranks {
    ranks: Vec<u32>,
}

impl Model for Ranks {
    ghost use Rattle.std.specs.Prelude.{ℕ, List};

    ghost Value = { List ℕ };

    ghost view = { λ r. r.ranks.items };
}

impl Ranks {
    pub(crate) fn from_vec(ranks: Vec<u32>) -> Ranks
        ensures { result ≡ ranks.items }
    {
        Ranks { ranks }
    }

    /// The rank of an entry, in constant time. It is greater than that of each entry to which an in-place edge leads.
    pub fn rank(&self, entry: u32) -> u32
        requires { entry < length self.now }
        ensures { result ≡ get_or self.now entry 0 }
    {
        self.ranks[entry as usize]
    }

    /// The ranks in the order of entries, lent without a copy.
    pub fn as_slice(&self) -> &[u32]
        ensures { result.now ≡ self.now }
    {
        self.ranks.as_slice()
    }
}

//! What lists of atoms have together.

ghost use Rattle.std.specs.Prelude.{◌≡◌, ◌+◌, [], ◌∷◌, min, map};
ghost use Rattle.word_states.specs.WordState.{greatest_least};
ghost use Rattle.js_nfa.specs.AtomView.{atom_view};
ghost use Rattle.word_states.specs.AtomPositions.{positions_of};

use js_nfa::Atom;
use js_pattern_positions::count_positions;

/// One more than the most positions that the patterns may have together.
pub(crate) const PAST: u32 = 16385;

/// The positions of all patterns, or 16,385 where there are more than 16,384.
pub(crate) fn count_all(atoms: &[Atom]) -> u32
    ensures { result ≡ min (positions_of (map atom_view atoms.now)) PAST }
{
    let mut count = 0;
    for atom in atoms {
        count = (count + count_of(atom)).min(PAST);
    }
    count
}

fn count_of(atom: &Atom) -> u32
    ensures { result ≡ min (positions_of (atom_view atom.now ∷ [])) PAST }
{
    match atom {
        Atom::Match(re) => count_positions(re),
        Atom::Words(_) | Atom::LengthMin(_) => 0,
    }
}

/// The greatest of the least lengths that atoms require.
pub(crate) fn longest(atoms: &[Atom]) -> u128
    ensures { result ≡ greatest_least (map atom_view atoms.now) }
{
    let mut longest = 0;
    for atom in atoms {
        if let Atom::LengthMin(least) = atom {
            longest = longest.max(*least);
        }
    }
    longest
}

/// The length of a word with one more character, as far as an atom requires it.
pub(crate) fn longer(length: u128, longest: u128) -> u128
    ensures { result ≡ min (length + 1) longest }
{
    if length < longest {
        length + 1
    } else {
        longest
    }
}

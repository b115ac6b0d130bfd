//! Whether a pattern matches in a word.

ghost use Rattle.std.specs.Prelude.{◌≡◌, ◌↔◌, ◌≤◌, IsTrue, true, false};
ghost use Rattle.patterns.specs.Decision.{finds};
ghost use Rattle.patterns.specs.Match.{IsFoundIn};
ghost use Rattle.state_laws.specs.Flow.{flag_at, reads_next, ends_here};
ghost use Rattle.js_nfa.specs.View.{tree_of, HasRoom};

use crate::nfa::Nfa;
use crate::scratch::Scratch;
use js_pattern_positions::{Edges, Next};
use std::mem;

/// Whether the pattern matches somewhere in the word. It takes no memory. Up to the end of the first match, a character
/// costs a look at the words of one set for each four positions. The word's first character, one beyond ASCII, and each
/// with more than 256 positions cost two walks over the pattern's tree, or one where none of the positions was read
/// that a match's end needs. So do the word's beginning and its end, a walk each.
pub fn finds(nfa: &Nfa, word: &[char], scratch: &mut Scratch) -> bool
    requires { HasRoom nfa.now scratch.old }
    ensures decided { result ≡ finds (tree_of nfa.now) word.now }
    ensures relation { IsTrue result ↔ IsFoundIn word.now (tree_of nfa.now) }
    ensures room { HasRoom nfa.now scratch.new }
{
    let mut first = true;
    scratch.read.clear();
    if nfa.ends(Edges { first, last: false }, &scratch.read) {
        return true;
    }
    for c in word {
        if read_next(
            nfa,
            scratch,
            Next {
                first,
                character: *c,
            },
        ) {
            return true;
        }
        first = false;
    }
    nfa.ends(Edges { first, last: true }, &scratch.read)
}

/// Goes on by one character, and answers whether a match ends after it that uses no end assertion.
fn read_next(nfa: &Nfa, scratch: &mut Scratch, next: Next) -> bool
    requires { HasRoom nfa.now scratch.old }
    ensures flags { scratch.new.read.flags ≡ reads_next (tree_of nfa.now) next.first (flag_at
        scratch.old.read.flags) next.character 0 true }
    ensures done { result ≡ ends_here (tree_of nfa.now) false false (flag_at scratch.new.read.flags) 0 true }
    ensures room { HasRoom nfa.now scratch.new }
{
    let done = nfa.advance(next, &scratch.read, &mut scratch.reads);
    mem::swap(&mut scratch.read, &mut scratch.reads);
    done
}

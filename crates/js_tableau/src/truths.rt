//! What is known of a word.

ghost use Rattle.std.specs.Prelude.{◌≡◌, Bool, true};
ghost use Rattle.word_states.specs.Atom.{Atom, Match, Words, LengthMin};
ghost use Rattle.js_pattern.specs.View.{view};

use js_doc::StrList;
use js_pattern::Re;

/// Which atoms are true of a word, for those atoms that are known.
pub trait Truths {
    // The atoms that are known.
    ghost knows: { Self → Atom → Bool };

    // Which of them are true.
    ghost truth: { Self → Atom → Bool };

    /// Whether the pattern matches somewhere in the word.
    fn matches(&self, re: &Re) -> bool
        requires { knows self.now (Match (view re.now)) ≡ true }
        ensures { result ≡ truth self.now (Match (view re.now)) };

    /// Whether the word is one of these.
    fn listed(&self, words: &StrList) -> bool
        requires { knows self.now (Words words.now) ≡ true }
        ensures { result ≡ truth self.now (Words words.now) };

    /// Whether the word has so many characters at least.
    fn long(&self, n: u128) -> bool
        requires { knows self.now (LengthMin n) ≡ true }
        ensures { result ≡ truth self.now (LengthMin n) };
}

//! Words, each once, in the order in which they come first.
//!
//! They are in a list, and in a set by order, which says whether one is there: a file chooses them, and could make them
//! collide in a set by a hash without a secret.

ghost use Rattle.std.specs.Prelude.{◌≡◌, [], IfOk, OnOk};
ghost use Rattle.documents.specs.Tests.{same_word};
ghost use Rattle.normal_forms.specs.KeywordNodes as W;
ghost use Rattle.js_values.specs.Sets.{AreWords};

use js_doc::{Memory, Str, StrList};
use std::alloc::Global;
use std::collections::BTreeSet;

/// Words, no two of them the same.
#[derive(Drop)]
pub(crate) struct Words {
    list: Vec<Str>,
    set: BTreeSet<String>,
    ghost are_words: { AreWords list.items set },
}

impl Words {
    ghost use Rattle.js_values.specs.Distinct.{add_once, words_of};

    pub(crate) fn new(alloc: Global) -> Words
        ensures { words_of result ≡ [] }
    {
        Words {
            list: Vec::new(alloc),
            set: BTreeSet::new(alloc),
        }
    }

    /// Adds a word that isn't there. It takes comparisons with words in proportion to the logarithm of their count.
    pub(crate) fn add(&mut self, alloc: Global, text: &Str) -> Result<(), Memory>
        ensures { OnOk result (words_of self.new ≡ add_once same_word (words_of self.old) text.now) }
    {
        if self.set.contains(text.as_text()) {
            return Ok(());
        }
        let count = self.list.len();
        let key = String::from_str(alloc, text.as_text())?;
        self.list.push(text.copy(alloc)?)?;
        if let Err(_) = self.set.insert(key) {
            self.list.truncate(count);
            return Err(Memory);
        }
        Ok(())
    }

    pub(crate) fn into_list(self) -> StrList
        ensures { result ≡ words_of self }
    {
        let Words { list, .. } = self;
        StrList::from_vec(list)
    }
}

/// The words, each once, where it comes first.
pub fn distinct(alloc: Global, words: &StrList) -> Result<StrList, Memory>
    ensures { IfOk result (λ l. l ≡ W.once same_word words.now) }
{
    let mut kept = Words::new(alloc);
    for word in words.as_slice() {
        kept.add(alloc, word)?;
    }
    Ok(kept.into_list())
}

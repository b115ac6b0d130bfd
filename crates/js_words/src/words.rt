//! Reading the words.

ghost use Rattle.std.specs.Prelude.{◌≡◌, IfErr, IfOk, None, Some, true, map, encode_utf8_all, chars};
ghost use Rattle.std.specs.List.{All};
ghost use Rattle.js_words.specs.Commands.{command, text_command};
ghost use Rattle.js_words.specs.CommandView.{command_view};
ghost use Rattle.js_words.specs.Giving.{Gives};
ghost use Rattle.js_words.specs.PlainWords.{Plain, is_plain, meant, words_of};
ghost use Rattle.js_words.specs.Ranges.{IsInRange};

use crate::command_line::command_line;
use crate::matched::of_matches;
use clap::error::ErrorKind;
use js_doc::{Memory, Str};
use js_gen::GenKind;
use std::alloc::{AllocError, Global};

/// What the words request, with the names of files. The last number is that of the workers.
#[derive(Drop)]
pub enum Command {
    /// A schema: has it a document?
    Sat(Str, u32),

    /// Two schemas: is the first included in the second?
    Include(Str, Str, u32),

    /// A schema and a document: is it valid?
    Valid(Str, Str),

    /// Two schemas and a certificate: does it show that the first is included in the second?
    Check(Str, Str, Str, u32),

    /// A schema: its core table.
    Norm(Str),

    /// The two schemas of a family at a number: is the first included in the second?
    Gen(GenKind, u32, u32),
}

/// Why there is no command.
#[derive(Clone, Copy, PartialEq, Eq, Debug)]
pub enum WordsFault {
    /// The words are none.
    Usage,

    /// Memory was refused.
    Memory,
}

impl From<Memory> for WordsFault {
    ghost use Rattle.js_words.specs.declared.words.WordsFault.TheVariants as fault;

    ghost from_gives = { λ _ e. e ≡ fault.Memory };

    fn from(_: Memory) -> WordsFault {
        WordsFault::Memory
    }
}

impl From<AllocError> for WordsFault {
    ghost use Rattle.js_words.specs.declared.words.WordsFault.TheVariants as fault;

    ghost from_gives = { λ _ e. e ≡ fault.Memory };

    fn from(_: AllocError) -> WordsFault {
        WordsFault::Memory
    }
}

/// The command of the words.
///
/// The answer is `command` or `Memory`. Plain words are always the command that they mean.
pub fn read_words(alloc: Global, words: &[Str]) -> Result<Command, WordsFault>
    ensures ok { IfOk result (λ c. command words.now ≡ Some (command_view c)) }
    ensures usage { IfErr result (λ e. e ≡ WordsFault.Usage → command words.now ≡ None) }
    ensures plain { (p : Plain) → is_plain p ≡ true → words.now ≡ words_of p → Gives result (meant p) }
    ensures in_range { IfOk result (λ c. IsInRange (command_view c)) }
{
    let texts = texts_of(alloc, words)?;
    of_texts(alloc, texts.as_slice())
}

fn of_texts<'a>(alloc: Global, texts: &'a [&'a str]) -> Result<Command, WordsFault>
    ensures ok { IfOk result (λ c. text_command (map (λ t. t.now) texts.now) ≡ Some (command_view c)) }
    ensures usage { IfErr result (λ e. e ≡ WordsFault.Usage → text_command (map (λ t. t.now) texts.now) ≡ None) }
{
    let command = command_line(alloc)?;
    match command.try_get_matches_from(texts) {
        Ok(matches) => of_matches(alloc, &matches),
        Err(error) => {
            if error.kind() == ErrorKind::OutOfMemory {
                Err(WordsFault::Memory)
            } else {
                Err(WordsFault::Usage)
            }
        }
    }
}

fn texts_of(alloc: Global, words: &[Str]) -> Result<Vec<&str>, AllocError>
    ensures texts { IfOk result (λ v. map (λ t. t.now) v.items ≡ map encode_utf8_all words.now) }
    ensures chars { IfOk result (λ v. All (λ w. chars (encode_utf8_all w) ≡ w) words.now) }
{
    let mut texts = Vec::with_capacity(alloc, words.len())?;
    for word in words {
        texts.push(word.as_text())?;
    }
    Ok(texts)
}

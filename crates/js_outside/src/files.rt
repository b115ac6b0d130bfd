//! A finite map of files, in the order of their names.

ghost use Rattle.std.specs.Prelude.{◌≡◌, ℕ, ◌+◌, ◌^◌, ◌<◌, List, [], length, drop, encode_utf8_all};
ghost use Rattle.std.specs.Prelude.{if◌then◌else◌, None, Some, IfNone, IfSome, OnErr, OnOk};
ghost use Rattle.std.specs.Str.{bytes_eq};
ghost use Rattle.js_outside.specs.Contents.{contents, bytes_at, place_of, with_file};

use js_doc::{Memory, Str};
use std::alloc::Global;
use std::marker::Model;

/// A file and its name.
#[derive(Drop)]
pub(crate) struct NamedFile {
    name: Str,
    bytes: Vec<u8>,
}

/// A map of files by their names. Setting or finding a file takes time in proportion to the number of files.
#[derive(Drop)]
pub struct FileMap {
    files: Vec<NamedFile>,
}

impl Model for FileMap {
    ghost use Rattle.std.specs.Prelude.{map};
    ghost use Rattle.js_outside.specs.Contents.{Entries};
    ghost use Rattle.js_outside.specs.NamedFiles.{entry_of};

    ghost Value = { Entries };

    ghost view = { λ m. map entry_of m.files.items };
}

impl FileMap {
    /// A map without files, which takes no memory.
    pub fn new(alloc: Global) -> FileMap
        ensures { result ≡ [] }
    {
        FileMap {
            files: Vec::new(alloc),
        }
    }

    /// Sets the file of a name, in place of the one that had it.
    pub fn insert(&mut self, name: Str, bytes: Vec<u8>) -> Result<(), Memory>
        ensures sets { OnOk result ((asked : List ℕ) → contents self.new asked
            ≡ (if bytes_eq asked (encode_utf8_all name) then Some bytes.items else contents self.old asked)) }
        ensures placed { OnOk result (self.new ≡ with_file self.old (encode_utf8_all name) bytes.items) }
        ensures err { OnErr result (self.new ≡ self.old) }
    {
        let place = self.place_of(name.as_text());
        if place < self.files.len() && self.files[place].name.as_text() == name.as_text() {
            self.files[place].bytes = bytes;
        } else {
            self.files.insert(place, NamedFile { name, bytes })?;
        }
        Ok(())
    }

    pub(crate) fn index_of(&self, name: &str) -> Option<usize>
        ensures absent { IfNone result (contents self.now name.now ≡ None) }
        ensures found { IfSome result (λ at. contents self.now name.now ≡ Some (bytes_at self.now at)) }
    {
        let files = self.files.as_slice();
        for (index, file) in files.iter().enumerate() {
            if name == file.name.as_text() {
                return Some(index);
            }
        }
        None
    }

    /// The bytes of the file at `index` from `position` on, none past an end.
    pub(crate) fn bytes_from(&self, index: usize, position: usize) -> &[u8]
        ensures rest { result.now ≡ drop position (bytes_at self.now index) }
        ensures fits { position + length result.now < 2 ^ 64 }
    {
        let files = self.files.as_slice();
        if index >= files.len() {
            return &[];
        }
        let bytes = files[index].bytes.as_slice();
        if position >= bytes.len() {
            return &[];
        }
        &bytes[position..]
    }

    fn place_of(&self, name: &str) -> usize
        ensures { result ≡ place_of self.now name.now }
    {
        let files = self.files.as_slice();
        for (index, file) in files.iter().enumerate() {
            if name <= file.name.as_text() {
                return index;
            }
        }
        files.len()
    }
}

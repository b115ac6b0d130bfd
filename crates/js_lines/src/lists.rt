//! Lists that contracts see as lists. Each is made of a `Vec` and gives it back without taking memory.

ghost use Rattle.std.specs.Prelude.{◌≡◌, map};

use crate::lines::{CertLine, ShortEntry};
use std::marker::Model;

/// A list of numbers.
#[derive(Drop)]
pub struct NumberList {
    items: Vec<u32>,
}

impl Model for NumberList {
    ghost use Rattle.std.specs.Prelude.{List, ℕ};

    ghost Value = { List ℕ };

    ghost view = { λ l. l.items.items };
}

impl NumberList {
    /// Takes the vector over, without a copy.
    pub fn from_vec(items: Vec<u32>) -> NumberList
        ensures { result ≡ items.items }
    {
        NumberList { items }
    }

    /// Gives the vector back, without a copy.
    pub fn into_vec(self) -> Vec<u32>
        ensures { result.items ≡ self }
    {
        let NumberList { items } = self;
        items
    }

    /// The elements in order, lent without a copy.
    pub fn as_slice(&self) -> &[u32]
        ensures { result.now ≡ self.now }
    {
        self.items.as_slice()
    }
}

/// A list of entries.
#[derive(Drop)]
pub struct ShortEntryList {
    items: Vec<ShortEntry>,
}

impl Model for ShortEntryList {
    ghost use Rattle.std.specs.Prelude.{List, map};
    ghost use Rattle.certificate_lines.specs.Line.{ShortEntry};

    ghost Value = { List ShortEntry };

    ghost use Rattle.js_lines.specs.View.{entry_view};

    ghost view = { λ l. map entry_view l.items.items };
}

impl ShortEntryList {
    ghost use Rattle.js_lines.specs.View.{entry_view};

    /// Takes the vector over, without a copy.
    pub fn from_vec(items: Vec<ShortEntry>) -> ShortEntryList
        ensures { result ≡ map entry_view items.items }
    {
        ShortEntryList { items }
    }

    /// Gives the vector back, without a copy.
    pub fn into_vec(self) -> Vec<ShortEntry>
        ensures { map entry_view result.items ≡ self }
    {
        let ShortEntryList { items } = self;
        items
    }

    /// The elements in order, lent without a copy.
    pub fn as_slice(&self) -> &[ShortEntry]
        ensures { map entry_view result.now ≡ self.now }
    {
        self.items.as_slice()
    }
}

/// A list of lines.
#[derive(Drop)]
pub struct CertLines {
    lines: Vec<CertLine>,
}

/// A certificate is a list of lines.
pub type Cert = CertLines;

impl Model for CertLines {
    ghost use Rattle.std.specs.Prelude.{List, map};
    ghost use Rattle.certificate_lines.specs.Line.{Line};

    ghost Value = { List Line };

    ghost use Rattle.js_lines.specs.View.{line_view};

    ghost view = { λ c. map line_view c.lines.items };
}

impl CertLines {
    ghost use Rattle.js_lines.specs.View.{line_view};

    /// Takes the vector over, without a copy.
    pub fn from_vec(lines: Vec<CertLine>) -> CertLines
        ensures { result ≡ map line_view lines.items }
    {
        CertLines { lines }
    }

    /// Gives the vector back, without a copy.
    pub fn into_vec(self) -> Vec<CertLine>
        ensures { map line_view result.items ≡ self }
    {
        let CertLines { lines } = self;
        lines
    }

    /// The elements in order, lent without a copy.
    pub fn as_slice(&self) -> &[CertLine]
        ensures { map line_view result.now ≡ self.now }
    {
        self.lines.as_slice()
    }
}

//! Numbers, each once, in the order in which they come first. They are kept as words are.

ghost use Rattle.std.specs.Prelude.{◌≡◌, [], IfOk, OnOk};
ghost use Rattle.std.specs.Ordering.{int_eq};
ghost use Rattle.js_values.specs.Sets.{AreNumbers};

use js_doc::{Memory, NumList};
use std::alloc::Global;
use std::collections::BTreeSet;

/// Numbers, no two of them the same.
#[derive(Drop)]
pub(crate) struct Numbers {
    list: Vec<i128>,
    set: BTreeSet<i128>,
    ghost are_numbers: { AreNumbers list.items set },
}

impl Numbers {
    ghost use Rattle.js_values.specs.Distinct.{add_once, numbers_of};

    pub(crate) fn new(alloc: Global) -> Numbers
        ensures { numbers_of result ≡ [] }
    {
        Numbers {
            list: Vec::new(alloc),
            set: BTreeSet::new(alloc),
        }
    }

    /// Adds a number that isn't there. It takes comparisons in proportion to the logarithm of the count.
    pub(crate) fn add(&mut self, number: i128) -> Result<(), Memory>
        ensures { OnOk result (numbers_of self.new ≡ add_once int_eq (numbers_of self.old) number) }
    {
        if self.set.contains(&number) {
            return Ok(());
        }
        let count = self.list.len();
        self.list.push(number)?;
        if let Err(_) = self.set.insert(number) {
            self.list.truncate(count);
            return Err(Memory);
        }
        Ok(())
    }

    pub(crate) fn into_list(self) -> Result<NumList, Memory>
        ensures { IfOk result (λ l. l ≡ numbers_of self) }
    {
        let Numbers { list, .. } = self;
        NumList::from_vec(list)
    }
}

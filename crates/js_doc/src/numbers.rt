//! Lists of whole numbers, in which a value is found by a binary search.
//!
//! A list keeps its values twice: in their written order, which is what a contract sees, and sorted. The sorted copy is
//! made with the list, so looking a value up takes no memory.

ghost use Rattle.std.specs.Prelude.{◌≡◌, ◌≤◌, ◌<ℤ◌, ◌≤ℤ◌, int_lt, IfOk, length};
ghost use Rattle.std.specs.List.Sorted.{IsSorted, IsPartitionPoint};
ghost use Rattle.std.specs.Ordering.{int_cmp};

use crate::text::Memory;
use std::marker::Model;

/// A list of whole numbers, in their written order.
#[derive(Drop)]
pub struct NumList {
    items: Vec<i128>,
    sorted: Vec<i128>,
}

impl Model for NumList {
    ghost use Rattle.std.specs.Prelude.{ℤ, List};
    ghost use Rattle.js_doc.specs.Numbers.{IsSortedCopy};

    ghost Value = { List ℤ };

    ghost view = { λ l. l.items.items };

    ghost invariant = { λ l. IsSortedCopy l.items.items l.sorted.items };
}

impl NumList {
    ghost use Rattle.js_doc.specs.Numbers.{has, rank_of};

    /// The list of the values; the sorted copy takes memory as the values do, and time as a sort.
    pub fn from_vec(items: Vec<i128>) -> Result<NumList, Memory>
        ensures { IfOk result (λ l. l ≡ items.items) }
    {
        let mut sorted = items.clone()?;
        sorted.sort_unstable();
        Ok(NumList { items, sorted })
    }

    /// Gives the vector of values back, in their written order. The sorted copy is dropped.
    pub fn into_vec(self) -> Vec<i128>
        ensures { result.items ≡ self }
    {
        let NumList { items, .. } = self;
        items
    }

    /// A copy, which takes memory of its own.
    pub fn copy(&self) -> Result<NumList, Memory>
        ensures { IfOk result (λ l. l ≡ self.now) }
    {
        Ok(NumList {
            items: self.items.clone()?,
            sorted: self.sorted.clone()?,
        })
    }

    /// The values in their written order, lent without a copy.
    pub fn as_slice(&self) -> &[i128]
        ensures { result.now ≡ self.now }
    {
        self.items.as_slice()
    }

    /// Whether `n` is one of the values, by a binary search.
    pub fn has(&self, n: i128) -> bool
        ensures { result ≡ has self.now n }
    {
        self.rank(n).is_some()
    }

    /// How many of the values are below `n`, where `n` is one of them, by a binary search. So different values have
    /// different ranks, all below the number of values.
    pub fn rank(&self, n: i128) -> Option<usize>
        ensures { result ≡ rank_of self.now n }
    {
        let below = count_below(self.sorted.as_slice(), n);
        if below < self.sorted.len() && self.sorted[below] == n {
            Some(below)
        } else {
            None
        }
    }
}

/// How many of the ascending values are below `n`.
fn count_below(ascending: &[i128], n: i128) -> usize
    requires { IsSorted int_cmp ascending.now }
    ensures parts { IsPartitionPoint (λ y. y <ℤ n) (λ y. n ≤ℤ y) ascending.now result }
    ensures within { result ≤ length ascending.now }
{
    ascending.partition_point(
        |y: &i128| -> bool
            ensures { result ≡ int_lt y.now n }
        { *y < n },
    )
}

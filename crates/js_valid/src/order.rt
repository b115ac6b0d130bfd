//! The entries of a schema in rising order of their ranks.

ghost use Rattle.std.specs.Prelude.{◌≡◌, ℕ, ◌<◌, ◌≤◌, ◌^◌, IfOk, map, length, get_or};
ghost use Rattle.std.specs.List.{Contains};

use js_doc::Memory;
use std::alloc::Global;

/// The numbers below that of the ranks, those with lesser ranks first. It takes the time of a sort.
pub(crate) fn order_of(alloc: Global, ranks: &[u32]) -> Result<Vec<u32>, Memory>
    requires { length ranks.now < 2 ^ 32 }
    ensures all { IfOk result (λ order. (e : ℕ) → e < length ranks.now → Contains order.items e) }
    ensures only { IfOk result (λ order. (k : ℕ) → k < length order.items → get_or order.items k 0 < length ranks.now) }
    ensures rises { IfOk result (λ order. (k l : ℕ) → k ≤ l → l < length order.items
        → get_or ranks.now (get_or order.items k 0) 0 ≤ get_or ranks.now (get_or order.items l 0) 0) }
{
    let mut pairs = pairs(alloc, ranks)?;
    pairs.sort_by_key(|pair| pair.0)?;
    entries_of(alloc, &pairs)
}

/// Each rank with its entry.
fn pairs(alloc: Global, ranks: &[u32]) -> Result<Vec<(u32, u32)>, Memory>
    requires { length ranks.now < 2 ^ 32 }
    ensures len { IfOk result (λ v. length v.items ≡ length ranks.now) }
    ensures each { IfOk result (λ v. (k : ℕ) (d : ℕ × ℕ) → k < length ranks.now
        → get_or v.items k d ≡ (get_or ranks.now k 0, k)) }
{
    let mut pairs = Vec::new(alloc);
    for (entry, rank) in ranks.iter().enumerate() {
        pairs.push((*rank, entry as u32))?;
    }
    Ok(pairs)
}

fn entries_of(alloc: Global, pairs: &[(u32, u32)]) -> Result<Vec<u32>, Memory>
    ensures { IfOk result (λ v. v.items ≡ map (λ p. p.1) pairs.now) }
{
    let mut entries = Vec::new(alloc);
    for pair in pairs {
        entries.push(pair.1)?;
    }
    Ok(entries)
}

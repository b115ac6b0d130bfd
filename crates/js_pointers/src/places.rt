//! Where steps are: in the block of the number from which they go on, or in a map.
//!
//! A member's name may be a number, which is then that of its token. So the map is one by order, as that of the names
//! is: a file could make steps collide in one by a hash without a secret.

ghost use Rattle.std.specs.Prelude.{◌≡◌, ◌<◌, ℕ, None, Some, false, if◌then◌else◌, nat_eq, ◌&&◌, OnOk, OnErr};
ghost use Rattle.std.specs.BTreeMap.{get};
ghost use Rattle.js_pointers.specs.BlocksView.{block_of};
ghost use Rattle.js_pointers.specs.Numbered.{step_order};

use crate::blocks::{Block, block_at, note_block};
use js_doc::Memory;
use std::alloc::Global;
use std::collections::BTreeMap;

/// The numbers at which steps are. The map has those alone that have no place in a block.
#[derive(Drop)]
pub(crate) struct Places {
    blocks: Vec<Block>,
    others: BTreeMap<(u32, u32), u32>,
    ghost marked: { (of token : ℕ) → (block_of blocks.items of).others ≡ false
        → get step_order others (of, token) ≡ None },
}

impl Places {
    ghost use Rattle.js_pointers.specs.PlacesView.{found};

    /// No step has a place yet.
    pub(crate) fn new(alloc: Global) -> Places
        ensures { (of token : ℕ) → found result of token ≡ None }
    {
        Places {
            blocks: Vec::new(alloc),
            others: BTreeMap::new(alloc),
        }
    }

    /// Where a step is. It takes a look at the map only where the step is in no block, and others beside a block go on
    /// from the same number.
    pub(crate) fn number(&self, of: u32, token: u32) -> Option<usize>
        ensures { result ≡ found self.now of token }
    {
        let block = block_at(&self.blocks, of);
        if token < block.count {
            return Some(block.first as usize + token as usize);
        }
        if !block.others {
            return None;
        }
        let number = self.others.get(&(of, token))?;
        Some(*number as usize)
    }

    /// Notes where a step is that was nowhere before. The map changes only where the block of `of` doesn't go on with
    /// the step. An error is memory that is wanting, and then each step is found where it was.
    pub(crate) fn note(&mut self, of: u32, token: u32, number: u32) -> Result<(), Memory>
        requires new { found self.old of token ≡ None }
        requires few { number < 4294967295 }
        ensures noted { OnOk result ((k t : ℕ) → found self.new k t
            ≡ (if nat_eq of k && nat_eq token t then Some number else found self.old k t)) }
        ensures err { OnErr result ((k t : ℕ) → found self.new k t ≡ found self.old k t) }
    {
        let block = block_at(&self.blocks, of);
        let goes_on = token == block.count
            && (token == 0 || block.first as usize + token as usize == number as usize);
        if goes_on {
            let longer = Block {
                first: number - token,
                count: token + 1,
                others: block.others,
            };
            return note_block(&mut self.blocks, of, longer);
        }
        // The mark comes first: where the map then fails, it may be there with no others.
        let marked = Block {
            first: block.first,
            count: block.count,
            others: true,
        };
        note_block(&mut self.blocks, of, marked)?;
        self.others.insert((of, token), number)?;
        Ok(())
    }
}

//! The blocks: for each number from which steps go on, where those by the first tokens are.

ghost use Rattle.std.specs.Prelude.{◌≡◌, ◌<◌, ℕ, List, length, get_or, OnOk, OnErr};
ghost use Rattle.js_pointers.specs.BlocksView.{block_of};

use js_doc::Memory;

/// The steps by the tokens below `count` come one after another from `first` on. `others` says whether others go on
/// from the same number.
#[derive(Clone, Copy, Drop)]
pub(crate) struct Block {
    pub(crate) first: u32,
    pub(crate) count: u32,
    pub(crate) others: bool,
}

/// That of a number from which no step goes on.
const NO_BLOCK: Block = Block {
    first: 0,
    count: 0,
    others: false,
};

/// The block of that number, which has no steps where the list doesn't reach it.
pub(crate) fn block_at(blocks: &[Block], of: u32) -> Block
    ensures { result ≡ block_of blocks.now of }
{
    let index = of as usize;
    if index < blocks.len() {
        blocks[index]
    } else {
        NO_BLOCK
    }
}

/// Notes the block of a number. It takes room up to that number, by doubling. An error is memory that is wanting, and
/// then each block is what it was.
pub(crate) fn note_block(blocks: &mut Vec<Block>, of: u32, block: Block) -> Result<(), Memory>
    ensures own { OnOk result (block_of blocks.new.items of ≡ block) }
    ensures others { (k : ℕ) → (k ≡ of → ⊥) → block_of blocks.new.items k ≡ block_of blocks.old.items k }
    ensures err { OnErr result ((k : ℕ) → block_of blocks.new.items k ≡ block_of blocks.old.items k) }
{
    let index = of as usize;
    if index >= blocks.len() {
        blocks.resize(index + 1, NO_BLOCK)?;
    }
    blocks[index] = block;
    Ok(())
}

ghost use Rattle.std.specs.Prelude.{◌≡◌, ℕ, ◌<◌, ◌↔◌, IsTrue, true, false, length, IfNone, count_by, MatchOption};
ghost use Rattle.store.specs.Files.{key_count};
ghost use Rattle.block_store.specs.Chained.{next_in, words_in, Full};
ghost use Rattle.block_store.specs.Taking.{Whole, Damaged, seen_in, unseen, Fresh, Marked, Untouched, Marks, Unmarked};

use crate::blocks::CHAINS;
use crate::calls::blocks_for;
use crate::cells::{Block, Chain};
use store::keys::{KEYS, LONGEST};

// Looking through an image goes as in the flat store, over other cells: a trait of cells would need its laws said, and share
// no more than these loops.

fn unmark(blocks: &mut [Block])
    ensures seen { (q : ℕ) → seen_in blocks.new q ≡ false }
    ensures same { Untouched blocks.new blocks.old }
{
    for block in blocks.iter_mut() {
        block.seen = false;
    }
}

// Whether a chain has the blocks that its words want.
fn full(chain: Chain) -> bool
    ensures { IsTrue result ↔ Full chain }
{
    chain.blocks == 0 || chain.len <= LONGEST && chain.blocks == blocks_for(chain.len)
}

// The block that goes on. A block always has its four words.
fn after(blocks: &[Block], block: usize) -> usize
    requires { block < length blocks.now }
    ensures next { result ≡ next_in blocks.now block }
    ensures wide { length (words_in blocks.now block) ≡ 4 }
{
    let b = &blocks[block];
    // looked at for the clause `wide`
    let _words: &[u32] = &b.words;
    b.next
}

// Marks the blocks of a chain; false where one is not there, or has a mark already.
fn mark(blocks: &mut [Block], chain: Chain) -> bool
    ensures same { Untouched blocks.new blocks.old }
    ensures fresh { IsTrue result ↔ Fresh blocks.old chain.blocks chain.first }
    ensures marks { IsTrue result → Marked blocks.old blocks.new chain.blocks chain.first }
{
    let mut block = chain.first;
    for _ in 0..chain.blocks {
        if block >= blocks.len() || blocks[block].seen {
            return false;
        }
        blocks[block].seen = true;
        block = after(blocks, block);
    }
    true
}

// The first key whose chain is damaged. Chains and files stay as they are, and the marks tell the blocks that no file has.
pub(crate) fn look_through(dir: &[Chain; CHAINS], blocks: &mut [Block]) -> Option<usize>
    ensures found { MatchOption result (Whole dir.now blocks.old) (Damaged dir.now blocks.old) }
    ensures marks { IfNone result (Marks dir.now blocks.new key_count) }
    ensures same { Untouched blocks.new blocks.old }
{
    unmark(blocks);
    for (k, chain) in dir[..KEYS].iter().enumerate() {
        if !full(*chain) {
            return Some(k);
        }
        if !mark(blocks, *chain) {
            return Some(k);
        }
    }
    None
}

// Chains the blocks without a mark, each to the one before it.
pub(crate) fn chain_free(blocks: &mut [Block]) -> Chain
    ensures kept { (q : ℕ) → seen_in blocks.old q ≡ true → (next_in blocks.new q ≡ next_in blocks.old q) × (words_in blocks.new q ≡ words_in blocks.old q) }
    ensures wide { (q : ℕ) → q < length blocks.old → seen_in blocks.old q ≡ false → length (words_in blocks.new q) ≡ 4 }
    ensures free { Unmarked blocks.old blocks.new result.first result.blocks }
    ensures count { result.blocks ≡ count_by unseen blocks.old }
{
    let mut free = Chain::EMPTY;
    for (p, block) in blocks.iter_mut().enumerate() {
        if block.seen {
            continue;
        }
        *block = Block {
            next: free.first,
            ..Block::BLANK
        };
        free.first = p;
        free.blocks += 1;
    }
    free
}

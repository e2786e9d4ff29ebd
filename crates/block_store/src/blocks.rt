ghost use Rattle.std.specs.Prelude.{◌≡◌, ℕ, ◌+◌, ◌<◌, ◌≤◌, length, replicate, set, None, MatchOption};
ghost use Rattle.std.proofs.Common.{lit≤};
ghost use Rattle.std.proofs.Props.{props};
ghost use Rattle.store.specs.Files.{key_count, used};
ghost use Rattle.block_store.specs.Walks.{chain_count};
ghost use Rattle.block_store.specs.Chained.{AllFull, Kept, chain_files, next_in, words_in};
ghost use Rattle.block_store.specs.Lent.{files_in, units_in};
ghost use Rattle.block_store.specs.Taking.{Whole, Damaged, Untouched};

use crate::calls::{FREE, blocks_for, front};
use crate::cells::{Block, Chain, WIDTH};
use crate::chains::Chains;
use crate::taking::{chain_free, look_through};
use store::api::Store;
use store::keys::{KEYS, LONGEST};

// How many chains a caller lends: one for each key, and that of the free blocks.
pub const CHAINS: usize = KEYS + 1;

// The block store: each file lies in a chain of blocks, and the blocks of no file are in the free chain.
#[derive(Drop)]
pub struct BlockStore<'a> {
    chains: Chains<'a>,
    ghost full: { AllFull chains.dir.now } by { Prim.hlevel props },
    ghost keys: { length (files_in chains) ≡ key_count },
    ghost room: { used 4 (files_in chains) ≤ units_in chains },
}

impl<'a> Store for BlockStore<'a> {
    const BLOCK: usize = WIDTH;

    ghost block = { 4 };

    ghost units = { λ s. units_in s.chains };

    ghost files = { λ s. files_in s.chains };

    ghost wide = { lit≤ tt };

    ghost keys = { λ s. s.keys };

    ghost room = { λ s. s.room };

    fn block_len() -> usize
        ensures { result ≡ 4 }
    {
        Self::BLOCK
    }

    fn put(&mut self, key: usize, words: &[u32]) -> bool {
        if words.len() > LONGEST || key >= KEYS {
            return false;
        }
        let missing = blocks_for(words.len()).saturating_sub(self.chains.dir[key].blocks);
        if missing > self.chains.dir[FREE].blocks {
            return false;
        }
        self.chains.free(key);
        self.chains.fill(key, words);
        true
    }

    fn carry(&mut self, from: usize, to: usize) {
        if self.chains.chain(from).is_some() && to < KEYS && from != to {
            self.chains.free(to);
            self.chains.rename(from, to);
        }
    }

    fn clear(&mut self, key: usize) {
        if key < KEYS {
            self.chains.free(key);
        }
    }

    fn length(&self, key: usize) -> Option<usize> {
        Some(self.chains.chain(key)?.len)
    }

    fn part(&self, key: usize, at: usize) -> &[u32] {
        let Some(chain) = self.chains.chain(key) else {
            return &[];
        };
        if at >= chain.blocks {
            return &[];
        }
        let rest = chain.len - WIDTH * at;
        let block = self.chains.block(key, at);
        front(self.chains.blocks, block, rest.min(WIDTH))
    }
}

// Each block is followed by the next one.
fn link_all(blocks: &mut [Block])
    ensures next { (p : ℕ) → p < length blocks.new → next_in blocks.new p ≡ p + 1 }
    ensures wide { (p : ℕ) → p < length blocks.new → length (words_in blocks.new p) ≡ 4 }
{
    for (i, block) in blocks.iter_mut().enumerate() {
        *block = Block {
            next: i + 1,
            ..Block::BLANK
        };
    }
}

// Empties every chain, and answers the chain of all blocks in their order, which the caller makes the free one.
fn empty(dir: &mut [Chain; CHAINS], blocks: &mut [Block]) -> Chain
    ensures kept { Kept (set dir.new key_count result) blocks.new }
    ensures files { chain_files (set dir.new key_count result) blocks.new ≡ replicate key_count None }
{
    dir.fill(Chain::EMPTY);
    link_all(blocks);
    Chain {
        blocks: blocks.len(),
        ..Chain::EMPTY
    }
}

// Chains the free blocks of a whole image; a damaged one is emptied first.
fn settle(dir: &mut [Chain; CHAINS], blocks: &mut [Block])
    ensures kept { Kept dir.new blocks.new }
    ensures whole { Whole dir.old blocks.old → chain_files dir.new blocks.new ≡ chain_files dir.old blocks.old }
    ensures damaged { (k : ℕ) → Damaged dir.old blocks.old k → chain_files dir.new blocks.new ≡ replicate key_count None }
{
    match look_through(dir, blocks) {
        Some(_) => dir[FREE] = empty(dir, blocks),
        None => dir[FREE] = chain_free(blocks),
    }
}

impl<'a> BlockStore<'a> {
    // An empty store over the caller's memory, whatever that holds: each block is one unit.
    pub fn format(dir: &'a mut [Chain; CHAINS], blocks: &'a mut [Block]) -> BlockStore<'a>
        ensures files { files_in result.chains ≡ replicate key_count None }
        ensures units { units_in result.chains ≡ length blocks.old }
    {
        dir[FREE] = empty(dir, blocks);
        BlockStore {
            chains: Chains { dir, blocks },
        }
    }

    // The first key whose chain is damaged, of an image that may be taken up; `None` where it is whole. No chain and no
    // file is touched.
    pub fn damage(dir: &[Chain; CHAINS], blocks: &mut [Block]) -> Option<usize>
        ensures found { MatchOption result (Whole dir.now blocks.old) (Damaged dir.now blocks.old) }
        ensures same { Untouched blocks.new blocks.old }
    {
        look_through(dir, blocks)
    }

    // The store of an image that is whole. A damaged one is not trusted: its memory becomes an empty store.
    pub fn take_up<'b: 'a>(dir: &'b mut [Chain; CHAINS], blocks: &'a mut [Block]) -> BlockStore<'a>
        ensures whole { Whole dir.old blocks.old → files_in result.chains ≡ chain_files dir.old blocks.old }
        ensures damaged { (k : ℕ) → Damaged dir.old blocks.old k → files_in result.chains ≡ replicate key_count None }
        ensures units { units_in result.chains ≡ length blocks.old }
    {
        settle(dir, blocks);
        BlockStore {
            chains: Chains { dir, blocks },
        }
    }
}

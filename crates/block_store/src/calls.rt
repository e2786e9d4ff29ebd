ghost use Rattle.std.specs.Prelude.{◌≡◌, ◌+◌, ◌-◌, ◌<◌, ◌≤◌, ◌++◌, ℕ, length, take, drop, is_some, Some, None, ◌≢◌, MatchOption};
ghost use Rattle.store.specs.Files.{key_count, longest, cost, file_at};
ghost use Rattle.block_store.specs.Walks.{chain_count, walk};
ghost use Rattle.block_store.specs.Chained.{Full, next_in, words_in};
ghost use Rattle.block_store.specs.Lent.{files_in, chain_of, content_of, file_of, Same, units_in};

use crate::cells::{Block, Chain, WIDTH};
use crate::chains::Chains;
use store::keys::KEYS;

// Where the chain of the free blocks stands, past those of the keys.
pub const FREE: usize = KEYS;

// How many blocks n words want.
pub(crate) fn blocks_for(n: usize) -> usize
    ensures { result ≡ cost 4 n }
{
    n.div_ceil(WIDTH).max(1)
}

// The four words from `at` on, with zeros past the end.
fn chunk(words: &[u32], at: usize) -> [u32; WIDTH]
    requires { at ≤ length words.now }
    ensures { take (length words.now - at) result ≡ take 4 (drop at words.now) }
{
    let rest = &words[at..];
    let n = rest.len().min(WIDTH);
    let mut out = [0; WIDTH];
    out[..n].copy_from_slice(&rest[..n]);
    out
}

// The first words of a block.
pub(crate) fn front(blocks: &[Block], block: usize, n: usize) -> &[u32]
    requires block { block < length blocks.now }
    requires n { n ≤ 4 }
    ensures { result.now ≡ take n (words_in blocks.now block) }
{
    let b = &blocks[block];
    &b.words[..n]
}

impl<'a> Chains<'a> {
    // The first block of one chain, with these words, becomes the first of another, which then has `len` words.
    fn shift(&mut self, from: usize, to: usize, words: [u32; WIDTH], len: usize)
        requires from { from < chain_count }
        requires to { to < chain_count }
        requires apart { from ≢ to }
        requires some { 0 < (chain_of self.old from).blocks }
        ensures others { (j : ℕ) → (j ≢ from) → (j ≢ to) → j < chain_count → Same self.new self.old j }
        ensures less { (chain_of self.new from).blocks + 1 ≡ (chain_of self.old from).blocks }
        ensures more { (chain_of self.new to).blocks ≡ (chain_of self.old to).blocks + 1 }
        ensures len { (chain_of self.new to).len ≡ len }
        ensures content { content_of self.new to ≡ words ++ content_of self.old to }
        ensures units { units_in self.new ≡ units_in self.old }
    {
        // Over both slices at once, since between the writes a block is in no chain.
        let dir = &mut *self.dir;
        let blocks = &mut *self.blocks;
        let source = dir[from];
        let target = dir[to];
        let next = blocks[source.first].next;
        blocks[source.first] = Block {
            next: target.first,
            words,
            ..Block::BLANK
        };
        dir[from] = Chain {
            first: next,
            blocks: source.blocks - 1,
            ..source
        };
        dir[to] = Chain {
            first: source.first,
            blocks: target.blocks + 1,
            len,
        };
    }

    // Frees the blocks of a key. Each turn takes one off its chain, and there is no index to count.
    pub(crate) fn free(&mut self, key: usize)
        requires { key < key_count }
        ensures others { (j : ℕ) → (j ≢ key) → j < key_count → Same self.new self.old j }
        ensures empty { (chain_of self.new key).blocks ≡ 0 }
        ensures free { (chain_of self.new key_count).blocks ≡ (chain_of self.old key_count).blocks + (chain_of self.old key).blocks }
        ensures units { units_in self.new ≡ units_in self.old }
    {
        while self.dir[key].blocks > 0 {
            self.shift(key, FREE, [0; WIDTH], 0);
        }
    }

    // Writes a file under an empty key, from its last block to its first.
    pub(crate) fn fill(&mut self, key: usize, words: &[u32])
        requires key { key < key_count }
        requires short { length words.now ≤ longest }
        requires empty { (chain_of self.old key).blocks ≡ 0 }
        requires room { cost 4 (length words.now) ≤ (chain_of self.old key_count).blocks }
        ensures others { (j : ℕ) → (j ≢ key) → j < key_count → Same self.new self.old j }
        ensures full { Full (chain_of self.new key) }
        ensures file { file_of self.new key ≡ Some words.now }
        ensures units { units_in self.new ≡ units_in self.old }
    {
        for i in (0..blocks_for(words.len())).rev() {
            self.shift(FREE, key, chunk(words, WIDTH * i), words.len());
        }
    }

    // The chain of one key becomes that of another, which has none.
    pub(crate) fn rename(&mut self, from: usize, to: usize)
        requires from { from < key_count }
        requires to { to < key_count }
        requires empty { (chain_of self.old to).blocks ≡ 0 }
        ensures from { chain_of self.new from ≡ chain_of self.old to }
        ensures to { chain_of self.new to ≡ chain_of self.old from }
        ensures others { (j : ℕ) → (j ≢ from) → (j ≢ to) → chain_of self.new j ≡ chain_of self.old j }
        ensures blocks { self.new.blocks.now ≡ self.old.blocks.now }
    {
        self.dir.swap(from, to);
    }

    // The chain of a key that holds a file.
    pub(crate) fn chain(&self, key: usize) -> Option<Chain>
        ensures found { MatchOption result (file_at (files_in self.now) key ≡ None) (λ e. (key < key_count) × (chain_of self.now key ≡ e) × (0 < e.blocks)) }
        ensures held { is_some result ≡ is_some (file_at (files_in self.now) key) }
    {
        let keys = &self.dir[..KEYS];
        let chain = *keys.get(key)?;
        (chain.blocks > 0).then_some(chain)
    }

    // The block `at` steps into the chain of a key.
    pub(crate) fn block(&self, key: usize, at: usize) -> usize
        requires key { key < key_count }
        requires at { at < (chain_of self.now key).blocks }
        ensures { result ≡ walk (next_in self.now.blocks.now) at (chain_of self.now key).first }
    {
        let mut block = self.dir[key].first;
        for _ in 0..at {
            block = self.blocks[block].next;
        }
        block
    }
}

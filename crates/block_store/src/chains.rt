ghost use Rattle.std.proofs.Props.{props};
ghost use Rattle.block_store.specs.Chained.{Linked};

use crate::cells::{Block, Chain};

// The chain of each key and, last, that of the free blocks; and the blocks. Each block is in one chain.
#[derive(Drop)]
pub struct Chains<'a> {
    pub dir: &'a mut [Chain],
    pub blocks: &'a mut [Block],
    ghost linked: { Linked dir.now blocks.now } by { Prim.hlevel props },
}

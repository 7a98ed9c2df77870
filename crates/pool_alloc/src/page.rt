//! A page of the pool.
#![tactic(auto)]

ghost use Rattle.std.specs.Prelude.{◌≡◌, ◌<◌, ◌≤◌, ◌+◌, ◌==◌, ◌∷◌, ℕ, IfOk, None, OnOk, OnErr, length, [], insert, remove, position, slice_index_or, vec_len, vec_capacity};
ghost use Rattle.pool_alloc.specs.Blocks.{lowest, with_block};
ghost use Rattle.pool_alloc.specs.Pool.{BlockPage, gap_on, with_block_on, begins_at, span_of, is_shared, AreShared, AreBlocks, CanPut};

use crate::block::{Block, pages_for};
use crate::span::PageSpan;
use std::alloc::{AllocError, Global};
use std::marker::Model;

/// The most bytes of a block that shares its page.
pub const LARGEST: u64 = 2048;

/// The bytes of a page.
const PAGE: u64 = 4096;

/// A page of the pool with its blocks, by offset. No gap is longer than `longest`, so that a search passes over a page
/// that is full without a look at its blocks.
#[derive(Drop)]
pub struct PoolPage {
    start: u64,
    memory_type: u32,
    blocks: Vec<Block>,
    longest: u64,
}

impl Model for PoolPage {
    ghost use Rattle.pool_alloc.specs.Pool.{BlockPage, NoGapOver};

    ghost Value = { BlockPage };

    ghost view = { λ p. record { start = p.start; memory_type = p.memory_type; blocks = p.blocks.items } };

    ghost invariant = { λ p. NoGapOver p.longest p.blocks.items };
}

/// The lowest gap for so many bytes between blocks in order.
fn lowest_gap(blocks: &[Block], size: u64) -> Option<u64>
    requires shared { AreShared blocks.now }
    requires some { 0 < size }
    requires few { size ≤ 4096 }
    ensures { result ≡ lowest blocks.now size }
{
    let mut end = 0;
    for block in blocks {
        if block.offset - end >= size {
            return Some(end);
        }
        end = block.offset + block.size;
    }
    if PAGE - end >= size { Some(end) } else { None }
}

/// The length of the longest gap between blocks in order.
fn longest_gap(blocks: &[Block]) -> u64
    requires { AreShared blocks.now }
    ensures { (size : ℕ) → result < size → lowest blocks.now size ≡ None }
{
    let mut end = 0;
    let mut longest = 0;
    for block in blocks {
        longest = longest.max(block.offset - end);
        end = block.offset + block.size;
    }
    longest.max(PAGE - end)
}

/// The place among blocks by offset of a block that begins at an offset where none does.
fn place_of(blocks: &[Block], offset: u64) -> usize
    ensures below { result ≤ length blocks.now }
    ensures place { (size : ℕ) → with_block (record { offset = offset; size = size }) blocks.now ≡ insert blocks.now result (record { offset = offset; size = size }) }
{
    for (place, block) in blocks.iter().enumerate() {
        if offset < block.offset {
            return place;
        }
    }
    blocks.len()
}

impl PoolPage {
    /// Pages from an address on with one block at their start. There is room for it in the list of blocks.
    pub fn new(start: u64, memory_type: u32, mut blocks: Vec<Block>, size: u64) -> PoolPage
        requires none { blocks.items ≡ [] }
        requires room { vec_len blocks < vec_capacity blocks }
        ensures { result ≡ record { start = start; memory_type = memory_type; blocks = record { offset = 0; size = size } ∷ [] } }
    {
        blocks.push_reserved(Block { offset: 0, size });
        PoolPage {
            start,
            memory_type,
            blocks,
            longest: PAGE,
        }
    }

    /// The address of the first byte.
    pub fn start(&self) -> u64
        ensures { result ≡ self.now.start }
    {
        self.start
    }

    /// Whether other blocks may take the gaps.
    fn is_shared(&self) -> bool
        requires { AreBlocks self.now.blocks }
        ensures { result ≡ is_shared self.now.blocks }
    {
        self.blocks[0].size <= LARGEST
    }

    /// The lowest gap for so many bytes of a memory type, in bytes from the start.
    #[tactic(auto, unfolding(crate::specs::Pool::gap_on))]
    pub fn gap(&self, memory_type: u32, size: u64) -> Option<u64>
        requires blocks { AreBlocks self.now.blocks }
        requires some { 0 < size }
        requires few { size ≤ 2048 }
        ensures { result ≡ gap_on self.now memory_type size }
    {
        if self.memory_type != memory_type {
            return None;
        }
        if !self.is_shared() {
            return None;
        }
        if size > self.longest {
            return None;
        }
        lowest_gap(self.blocks.as_slice(), size)
    }

    /// Puts a block into a gap.
    pub fn put(&mut self, offset: u64, size: u64) -> Result<(), AllocError>
        requires { CanPut self.old.blocks offset size }
        ensures ok { OnOk result (self.new ≡ with_block_on self.old offset size) }
        ensures err { OnErr result (self.new ≡ self.old) }
    {
        let place = place_of(self.blocks.as_slice(), offset);
        self.blocks.insert(place, Block { offset, size })?;
        self.longest = longest_gap(self.blocks.as_slice());
        Ok(())
    }

    /// The place of the block that begins at an address.
    pub fn position(&self, at: u64) -> Option<usize>
        requires { AreBlocks self.now.blocks }
        ensures { result ≡ position (begins_at self.now at) self.now.blocks }
    {
        let start = self.start;
        if at < start {
            return None;
        }
        if at - start >= PAGE {
            return None;
        }
        self.blocks
            .iter()
            .position(|block| block.begins_at(start, at))
    }

    /// Takes the block at a place out, and answers its size.
    pub fn remove(&mut self, place: usize) -> u64
        requires place { place < length self.old.blocks }
        requires blocks { AreBlocks self.old.blocks }
        ensures size { (d : Block) → result ≡ (slice_index_or self.old.blocks place d).size }
        ensures page { self.new ≡ record self.old { blocks = remove self.old.blocks place } }
    {
        let block = self.blocks.remove(place);
        self.longest = longest_gap(self.blocks.as_slice());
        block.size
    }

    /// Whether there is no block.
    pub fn is_empty(&self) -> bool
        ensures { result ≡ (length self.now.blocks == 0) }
    {
        self.blocks.is_empty()
    }

    /// Whether there is one block and no other.
    pub fn has_one(&self) -> bool
        ensures { result ≡ (length self.now.blocks == 1) }
    {
        self.blocks.len() == 1
    }

    /// The pages that the blocks need.
    pub fn span(&self) -> PageSpan
        requires { AreBlocks self.now.blocks }
        ensures { result ≡ span_of self.now }
    {
        PageSpan {
            start: self.start,
            count: pages_for(self.blocks[0].size),
        }
    }

    /// An equal page.
    pub fn copy(&self) -> Result<PoolPage, AllocError>
        ensures { IfOk result (λ page. page ≡ self.now) }
    {
        Ok(PoolPage {
            start: self.start,
            memory_type: self.memory_type,
            blocks: Vec::from_slice(*self.blocks.allocator(), self.blocks.as_slice())?,
            longest: self.longest,
        })
    }
}

ghost use Rattle.std.specs.Prelude.{◌≡◌, ℕ, ◌+◌, ◌<◌, ◌≤◌, true, false, length, replicate, IfOk, IfSome, IfNone};
ghost use Rattle.std.specs.Borrow.{sem};
ghost use Rattle.block_pool.specs.Lent.{free_in, lent_in, LendsOut, TakesBack, is_lent, block_at};
ghost use Rattle.block_pool.specs.Lending.{LendsBlock};

use crate::Slot;
use std::alloc::{AllocError, Global};
use std::marker::Model;

/// The size of a block, in bytes.
pub const BLOCK_BYTES: usize = 65536;

/// The region, seen as the bytes of its blocks and which of them are lent.
#[derive(Drop)]
pub struct Pool {
    blocks: Vec<[u8; BLOCK_BYTES]>,
    lent: Vec<bool>,
}

impl Model for Pool {
    ghost use Rattle.std.specs.Prelude.{◌≡◌, ◌≤◌, length};
    ghost use Rattle.block_pool.specs.Lent.{PoolState};

    ghost Value = { PoolState };

    ghost view = { λ pool. record { blocks = pool.blocks.items; lent = pool.lent.items } };

    ghost invariant = { λ pool. (length pool.blocks.items ≡ length pool.lent.items) × (length pool.lent.items ≤ 4096) };
}

impl Pool {
    /// A region of this many blocks, all of them free. No other call takes memory.
    pub fn new(alloc: Global, blocks: u32) -> Result<Pool, AllocError>
        requires some { 1 ≤ blocks }
        requires few { blocks ≤ 4096 }
        ensures { IfOk result (λ pool. pool.lent ≡ replicate blocks false) }
    {
        let mut region = Vec::with_capacity(alloc, blocks as usize)?;
        let mut lent = Vec::with_capacity(alloc, blocks as usize)?;
        for _ in 0..blocks {
            region.push([0; BLOCK_BYTES])?;
            lent.push(false)?;
        }
        Ok(Pool {
            blocks: region,
            lent,
        })
    }

    /// How many blocks are free.
    pub fn free(&self) -> u32
        ensures free { result ≡ free_in self.now.lent }
        ensures made { result + lent_in self.now.lent ≡ length self.now.lent }
    {
        let mut n = 0;
        for is_lent in &self.lent {
            if !*is_lent {
                n += 1;
            }
        }
        n
    }

    /// Lends a free block, with the bytes that it has; `None` exactly where none is free.
    pub fn take(&mut self) -> Option<Slot>
        ensures none { IfNone result ((self.new ≡ self.old) × (free_in self.old.lent ≡ 0)) }
        ensures some { IfSome result (λ slot. LendsOut slot self.old self.new) }
    {
        let number = self.some_free()?;
        self.lent[number as usize] = true;
        Some(Slot { number })
    }

    // The number of a free block.
    fn some_free(&self) -> Option<u32>
        ensures none { IfNone result (free_in self.now.lent ≡ 0) }
        ensures some { IfSome result (λ number. (number < length self.now.lent) × (is_lent self.now number ≡ false)) }
    {
        for (number, lent) in self.lent.iter().enumerate() {
            if !*lent {
                return Some(number as u32);
            }
        }
        None
    }

    /// The bytes of the block of a slot.
    pub fn bytes(&self, slot: &Slot) -> &[u8]
        requires { is_lent self.now slot.now ≡ true }
        ensures bytes { result.now ≡ block_at self.now slot.now }
        ensures size { length result.now ≡ 65536 }
    {
        &self.blocks[slot.number as usize]
    }

    /// The bytes of the block of a slot, to be written. The other blocks stay as they are.
    pub fn bytes_mut(&mut self, slot: &Slot) -> &mut [u8]
        requires { is_lent self.old slot.now ≡ true }
        ensures* lends { sem 𝓛 (LendsBlock self.entry slot.now result) }
        ensures bytes { result.now ≡ block_at self.old slot.now }
        ensures size { length result.now ≡ 65536 }
        ensures there { slot.now < length self.old.blocks }
    {
        // The size, which the lend alone does not tell.
        prove_eq!(self.bytes(slot).len(), BLOCK_BYTES);
        self.blocks[slot.number as usize].as_mut_slice()
    }

    /// Takes a block back, with the bytes that it has.
    pub fn give(&mut self, slot: Slot)
        requires { is_lent self.old slot ≡ true }
        ensures { TakesBack slot self.old self.new }
    {
        let Slot { number } = slot;
        self.lent[number as usize] = false;
    }
}

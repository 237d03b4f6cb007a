//! So many buffers, of which some are out.
ghost use Rattle.std.specs.Prelude.{◌≡◌, ◌≤◌, ◌<◌, ◌++◌, [], ◌∷◌, IfNone, IfOk, IfSome, length, replicate};
ghost use Rattle.vs_pool.specs.Buffers.{emptied, with_free};

use crate::{Buf, OutOfMemory};
use std::alloc::Global;
use std::marker::Model;

/// The buffers of a lane. Those that are out and those that are free are together always as many as
/// there were at first. Only making it takes memory.
#[derive(Debug, Drop)]
pub struct Pool {
    free: Vec<Buf>,
    count: usize,
}

impl Model for Pool {
    ghost use Rattle.std.specs.Prelude.{◌≡◌, ◌≤◌, All, [], length, map, vec_capacity};
    ghost use Rattle.vs_pool.specs.Buffers.{Reserve};

    ghost Value = { Reserve };

    ghost view = { λ p. record { count = p.count; free = map (λ b. b.size) p.free.items } };

    ghost invariant = { λ p. (length p.free.items ≤ p.count) × (p.count ≤ vec_capacity p.free) × All (λ b. b.bytes ≡ []) p.free.items };
}

impl Pool {
    /// So many buffers, for so many bytes each. All are free.
    pub fn new(alloc: Global, count: usize, size: usize) -> Result<Pool, OutOfMemory>
        requires some { 1 ≤ count }
        requires sized { 1 ≤ size }
        ensures { IfOk result (λ p. p ≡ record { count = count; free = replicate count size }) }
    {
        let mut free = Vec::with_capacity(alloc, count)?;
        for _i in 0..count {
            free.push(Buf::new(alloc, size)?)?;
        }
        Ok(Pool { free, count })
    }

    /// An empty buffer, or none where all are out.
    pub fn take(&mut self) -> Option<Buf>
        ensures some { IfSome result (λ b. (b ≡ emptied b.size) × (self.old ≡ with_free self.new (self.new.free ++ b.size ∷ []))) }
        ensures none { IfNone result ((self.old.free ≡ []) × (self.new ≡ self.old)) }
    {
        self.free.pop()
    }

    /// Takes a buffer back, and empties it.
    pub fn give(&mut self, mut buf: Buf)
        requires { length self.old.free < self.old.count }
        ensures { self.new ≡ with_free self.old (self.old.free ++ buf.size ∷ []) }
    {
        buf.clear();
        let _pushed = self.free.push(buf);
    }

    /// How many are free; the others are out.
    pub fn free(&self) -> usize
        ensures value { result ≡ length self.now.free }
        ensures within { result ≤ self.now.count }
    {
        self.free.len()
    }
}

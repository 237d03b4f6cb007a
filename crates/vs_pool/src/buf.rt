//! A buffer that never grows.
ghost use Rattle.std.specs.Prelude.{◌≡◌, ◌≤◌, ◌+◌, ◌↔◌, IfOk, false, length, true};
ghost use Rattle.vs_pool.specs.Buffers.{emptied, holding};

use crate::OutOfMemory;
use std::alloc::Global;
use std::marker::Model;

/// Bytes, up to a number that was fixed when the buffer was made. Only making one takes memory.
#[derive(Debug, Drop)]
pub struct Buf {
    bytes: Vec<u8>,
    size: usize,
}

impl Model for Buf {
    ghost use Rattle.std.specs.Prelude.{◌≤◌, length, vec_capacity};
    ghost use Rattle.vs_pool.specs.Buffers.{Buffer};

    ghost Value = { Buffer };

    ghost view = { λ b. record { size = b.size; bytes = b.bytes.items } };

    ghost invariant = { λ b. (length b.bytes.items ≤ b.size) × (b.size ≤ vec_capacity b.bytes) };
}

impl Buf {
    pub(crate) fn new(alloc: Global, size: usize) -> Result<Buf, OutOfMemory>
        ensures { IfOk result (λ b. b ≡ emptied size) }
    {
        Ok(Buf {
            bytes: Vec::with_capacity(alloc, size)?,
            size,
        })
    }

    /// Appends the bytes if they fit, and says whether they did.
    pub fn push_slice(&mut self, bytes: &[u8]) -> bool
        ensures fits { (result ≡ true) ↔ (length self.old.bytes + length bytes.now ≤ self.old.size) }
        ensures pushed { result ≡ true → self.new ≡ holding self.old bytes.now }
        ensures unchanged { result ≡ false → self.new ≡ self.old }
    {
        if self.size - self.bytes.len() < bytes.len() {
            return false;
        }
        self.bytes.extend_from_slice(bytes).is_ok()
    }

    pub fn bytes(&self) -> &[u8]
        ensures { result.now ≡ self.now.bytes }
    {
        &self.bytes
    }

    /// How many bytes fit, those that it holds among them.
    pub fn size(&self) -> usize
        ensures value { result ≡ self.now.size }
        ensures holds { length self.now.bytes ≤ self.now.size }
    {
        self.size
    }

    pub fn clear(&mut self)
        ensures { self.new ≡ emptied self.old.size }
    {
        self.bytes.clear();
    }
}

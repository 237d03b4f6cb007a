ghost use Rattle.std.specs.Prelude.{◌≡◌, IfOk};

use crate::{Cell, Change, Column, OutOfMemory, ShardName, Text};
use std::alloc::Global;

/// A value of which an equal one can be made.
pub trait Copied: Drop {
    fn copy(&self, alloc: Global) -> Result<Self, OutOfMemory>
        ensures { IfOk result (λ c. c ≡ self.now) };
}

impl Copied for Text {
    fn copy(&self, alloc: Global) -> Result<Text, OutOfMemory> {
        self.copy(alloc)
    }
}

impl Copied for Cell {
    fn copy(&self, alloc: Global) -> Result<Cell, OutOfMemory> {
        self.copy(alloc)
    }
}

impl Copied for Change {
    fn copy(&self, alloc: Global) -> Result<Change, OutOfMemory> {
        self.copy(alloc)
    }
}

impl Copied for Column {
    fn copy(&self, alloc: Global) -> Result<Column, OutOfMemory> {
        self.copy(alloc)
    }
}

impl Copied for ShardName {
    fn copy(&self, alloc: Global) -> Result<ShardName, OutOfMemory> {
        self.copy(alloc)
    }
}

impl Copied for usize {
    fn copy(&self, _alloc: Global) -> Result<usize, OutOfMemory> {
        Ok(*self)
    }
}

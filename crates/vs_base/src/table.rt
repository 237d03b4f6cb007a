ghost use Rattle.std.specs.Prelude.{◌≡◌, IfOk};

use crate::{List, OutOfMemory, Text};
use std::alloc::Global;

/// The type of a column, as a schema text names it. Lengths are in bytes.
#[derive(Debug, Clone, Copy, PartialEq, Eq)]
pub enum ColumnKind {
    TinyInt { unsigned: bool },
    SmallInt { unsigned: bool },
    MediumInt { unsigned: bool },
    Int { unsigned: bool },
    BigInt { unsigned: bool },
    Date,
    VarChar { length: u16 },
    VarBinary { length: u16 },
    Timestamp { precision: u8 },
    DateTime { precision: u8 },
    Decimal { precision: u8, scale: u8 },
    Text,
    Blob,
    Char { length: u8 },
    Binary { length: u8 },
}

/// A column of a table.
#[derive(Debug, Drop)]
pub struct Column {
    pub name: Text,
    pub kind: ColumnKind,
}

impl Column {
    pub fn copy(&self, alloc: Global) -> Result<Column, OutOfMemory>
        ensures { IfOk result (λ c. c ≡ self.now) }
    {
        Ok(Column {
            name: self.name.copy(alloc)?,
            kind: self.kind,
        })
    }
}

/// A table: its columns in the order of the log, and the places of its key's columns among them.
#[derive(Debug, Drop)]
pub struct Table {
    pub name: Text,
    pub columns: List<Column>,
    pub key: List<usize>,
}

impl Table {
    pub fn copy(&self, alloc: Global) -> Result<Table, OutOfMemory>
        ensures { IfOk result (λ t. t ≡ self.now) }
    {
        Ok(Table {
            name: self.name.copy(alloc)?,
            columns: self.columns.copy(alloc)?,
            key: self.key.copy(alloc)?,
        })
    }
}

ghost use Rattle.std.specs.Prelude.{◌≡◌, IfOk};

use crate::{Gtid, OutOfMemory, Text};
use std::alloc::Global;

/// What is wrong with an event of a log. The place of the event is told beside it.
#[derive(Debug, Drop, PartialEq, Eq)]
pub enum Why {
    /// A byte of the magic number differs.
    BadMagic,
    /// The first event is no format description.
    NoFormat,
    /// The format description is not of version 4.
    BadVersion { version: u16 },
    /// The log has checksums.
    Checksummed { kind: u8 },
    /// The length in the head is below that of a head.
    BadLength { length: u32 },
    /// The body is against its layout.
    BadEvent { kind: u8 },
    /// An event of this kind cannot stand here.
    BadOrder { kind: u8 },
    /// A transaction begins inside another.
    NestedBegin,
    /// A transaction has no GTID.
    Anonymous,
    /// The number of a GTID is out of range.
    BadGtid,
    /// A GTID stands twice, or lies in the base.
    RepeatedGtid { gtid: Gtid },
    /// An event of this kind is not read.
    Unsupported { kind: u8 },
    /// A statement is not read.
    UnsupportedStatement,
    /// The event, or its transaction, has too many bytes.
    TooLarge { bytes: u64 },
    /// The GTIDs of the log have over 1,024 intervals.
    TooManyIntervals,
    /// No table map of the transaction has this number.
    UnknownTableId { id: u64 },
    /// The schema text lacks a table of the keyspace.
    UnknownTable { table: Text },
    /// The columns of a table map aren't those of the schema text.
    Disagrees { table: Text },
    /// An image of a row lacks a column.
    NotFullImage { table: Text },
    /// The rows are cut, or one of them is none of the table.
    BadRow { table: Text },
    /// The text of a journal is refused from this byte on; at its length where the refusal has no
    /// place.
    BadJournal { at: usize },
    /// A journal stands beside other changes.
    JournalNotAlone,
}

impl Why {
    pub fn copy(&self, alloc: Global) -> Result<Why, OutOfMemory>
        ensures { IfOk result (λ w. w ≡ self.now) }
    {
        Ok(match self {
            Why::BadMagic => Why::BadMagic,
            Why::NoFormat => Why::NoFormat,
            Why::BadVersion { version } => Why::BadVersion { version: *version },
            Why::Checksummed { kind } => Why::Checksummed { kind: *kind },
            Why::BadLength { length } => Why::BadLength { length: *length },
            Why::BadEvent { kind } => Why::BadEvent { kind: *kind },
            Why::BadOrder { kind } => Why::BadOrder { kind: *kind },
            Why::NestedBegin => Why::NestedBegin,
            Why::Anonymous => Why::Anonymous,
            Why::BadGtid => Why::BadGtid,
            Why::RepeatedGtid { gtid } => Why::RepeatedGtid { gtid: *gtid },
            Why::Unsupported { kind } => Why::Unsupported { kind: *kind },
            Why::UnsupportedStatement => Why::UnsupportedStatement,
            Why::TooLarge { bytes } => Why::TooLarge { bytes: *bytes },
            Why::TooManyIntervals => Why::TooManyIntervals,
            Why::UnknownTableId { id } => Why::UnknownTableId { id: *id },
            Why::UnknownTable { table } => Why::UnknownTable {
                table: table.copy(alloc)?,
            },
            Why::Disagrees { table } => Why::Disagrees {
                table: table.copy(alloc)?,
            },
            Why::NotFullImage { table } => Why::NotFullImage {
                table: table.copy(alloc)?,
            },
            Why::BadRow { table } => Why::BadRow {
                table: table.copy(alloc)?,
            },
            Why::BadJournal { at } => Why::BadJournal { at: *at },
            Why::JournalNotAlone => Why::JournalNotAlone,
        })
    }
}

//! A writer of logs.
ghost use Rattle.std.specs.Prelude.{◌≡◌, ◌++◌, IfOk, OnErr, OnOk, map};
ghost use Rattle.vs_make.specs.Rows.{WritesRows, inserted, transaction_bytes};
ghost use Rattle.vs_journal.specs.Judgement.{plain_journal};
ghost use Rattle.vs_make.specs.Journals.{WritesJournal};
ghost use Rattle.vs_make.specs.Events.{statement_bytes};
ghost use Rattle.vs_make.specs.Written.{Begins};

use crate::base::base_block;
use crate::bodies::{Bodies, INSERTS, UPDATES, insert_bodies, update_bodies};
use crate::event::{put_base, put_format, put_gtid, put_map, put_query, put_rows, put_xid};
use crate::journal::journal_bodies;
use std::alloc::Global;
use std::marker::Model;
use vs_base::{Change, Gtid, Image, OutOfMemory, Table};
use vs_gtid::{GtidSet, JournalValue};

/// What each log begins with.
const MAGIC: &[u8] = b"\xfebin";

/// Writes a log: what it begins with, and then entry by entry. It is seen as the bytes written so far.
#[derive(Debug, Drop)]
pub struct LogWriter {
    alloc: Global,
    bytes: Vec<u8>,
}

impl Model for LogWriter {
    ghost use Rattle.std.specs.Prelude.{List, ℕ};

    ghost Value = { List ℕ };

    ghost view = { λ w. w.bytes.items };
}

impl LogWriter {
    /// Begins a log: a format description, and the base, which is what was logged before it.
    pub fn new(alloc: Global, base: &GtidSet, time: u32) -> Result<LogWriter, OutOfMemory>
        ensures { IfOk result (λ w. Begins w base.now time) }
    {
        let block = base_block(alloc, base)?;
        let mut bytes = Vec::new(alloc);
        bytes.extend_from_slice(MAGIC)?;
        put_format(alloc, &mut bytes, time)?;
        put_base(&mut bytes, time, block.as_slice())?;
        Ok(LogWriter { alloc, bytes })
    }

    /// Writes a statement that stands alone, with this schema as its default. A schema of over 255
    /// bytes, or a text with which the events pass 64 MiB, makes a log that can't be read.
    pub fn ddl(
        &mut self,
        gtid: Gtid,
        schema: &[u8],
        text: &[u8],
        time: u32,
    ) -> Result<(), OutOfMemory>
        ensures ok { OnOk result (self.new ≡ self.old ++ statement_bytes gtid schema.now text.now time) }
        ensures err { OnErr result (self.new ≡ self.old) }
    {
        let mut events = Vec::new(self.alloc);
        put_gtid(self.alloc, &mut events, time, &gtid)?;
        put_query(self.alloc, &mut events, time, schema, text)?;
        self.bytes.extend_from_slice(events.as_slice())?;
        Ok(())
    }

    /// Writes a transaction that inserts these rows: a table map, and one event of the rows. Each cell is
    /// a text of its column's kind, and a row has one for each column.
    pub fn insert(
        &mut self,
        gtid: Gtid,
        schema: &[u8],
        table: &Table,
        rows: &[Image],
        time: u32,
    ) -> Result<(), OutOfMemory>
        ensures ok { OnOk result (WritesRows self.old self.new gtid schema.now table.now time 30 (map (inserted table.now.name) rows.now)) }
        ensures err { OnErr result (self.new ≡ self.old) }
    {
        let bodies = insert_bodies(self.alloc, schema, table, rows)?;
        let events = transaction(self.alloc, &gtid, schema, time, INSERTS, &bodies)?;
        self.bytes.extend_from_slice(events.as_slice())?;
        Ok(())
    }

    /// Writes a transaction that updates rows of the table: a table map, and one event of the rows. Each
    /// change names the table and has both images, of which the cells are as those of `insert`.
    pub fn update(
        &mut self,
        gtid: Gtid,
        schema: &[u8],
        table: &Table,
        rows: &[Change],
        time: u32,
    ) -> Result<(), OutOfMemory>
        ensures ok { OnOk result (WritesRows self.old self.new gtid schema.now table.now time 31 rows.now) }
        ensures err { OnErr result (self.new ≡ self.old) }
    {
        let bodies = update_bodies(self.alloc, schema, table, rows)?;
        let events = transaction(self.alloc, &gtid, schema, time, UPDATES, &bodies)?;
        self.bytes.extend_from_slice(events.as_slice())?;
        Ok(())
    }

    /// Writes a transaction that inserts the journal into the table of journals, for shards of the
    /// keyspace.
    pub fn journal(
        &mut self,
        gtid: Gtid,
        keyspace: &[u8],
        j: &JournalValue,
        time: u32,
    ) -> Result<(), OutOfMemory>
        ensures ok { OnOk result (WritesJournal self.old self.new gtid keyspace.now (plain_journal j.now) time) }
        ensures err { OnErr result (self.new ≡ self.old) }
    {
        let bodies = journal_bodies(self.alloc, keyspace, j)?;
        let events = transaction(self.alloc, &gtid, b"_vt", time, INSERTS, &bodies)?;
        self.bytes.extend_from_slice(events.as_slice())?;
        Ok(())
    }

    /// The log so far.
    pub fn bytes(&self) -> &[u8]
        ensures { result.now ≡ self.now }
    {
        self.bytes.as_slice()
    }
}

/// The events of a transaction of these bodies.
fn transaction(
    alloc: Global,
    gtid: &Gtid,
    schema: &[u8],
    time: u32,
    kind: u8,
    bodies: &Bodies,
) -> Result<Vec<u8>, OutOfMemory>
    ensures { IfOk result (λ v. v.items ≡ transaction_bytes gtid.now schema.now time kind bodies.now.map.items bodies.now.rows.items) }
{
    let mut events = Vec::new(alloc);
    put_gtid(alloc, &mut events, time, gtid)?;
    put_query(alloc, &mut events, time, schema, b"BEGIN")?;
    put_map(&mut events, time, bodies.map.as_slice())?;
    put_rows(&mut events, time, kind, bodies.rows.as_slice())?;
    put_xid(&mut events, time)?;
    Ok(events)
}

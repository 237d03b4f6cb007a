ghost use Rattle.std.specs.Prelude.{◌≡◌, ◌⊎◌, Err, IfOk};
ghost use Rattle.std.specs.List.{list_any};
ghost use Rattle.vs_schema.specs.Laws.{IsLawful};
ghost use Rattle.vs_schema.specs.Listing.{Lists};
ghost use Rattle.vs_schema.specs.Kinds.{same};
ghost use Rattle.vs_schema.specs.Reading.{draft_of};
ghost use Rattle.vs_schema.specs.Rules.{closed, finished, schema_of};

use crate::SchemaRefusal;
use crate::builder::Builder;
use crate::cut::{cut_line, is_same};
use crate::fault::LineFault;
use std::alloc::Global;
use vs_base::{List, OutOfMemory, Table, Text};

/// The tables of a log, as a schema text lists them.
#[derive(Debug, Drop)]
pub struct Schema {
    /// ascending by name
    pub tables: List<Table>,
    /// the names of the tables whose rows are passed over
    pub skipped: List<Text>,
}

/// What a schema says of a table.
#[derive(Debug, Clone, Copy)]
pub enum Listed<'a> {
    Known(&'a Table),
    /// Its rows are passed over.
    Skipped,
    Absent,
}

impl Schema {
    /// Reads a schema text. Its lines are `table NAME`, `column NAME KIND`, `key NAME ..` and `skip NAME`;
    /// those that are empty or begin with `#` say nothing.
    pub fn read(alloc: Global, text: &[u8]) -> Result<Schema, SchemaRefusal>
        ensures schema { (result ≡ Err SchemaRefusal.Memory) ⊎ (result ≡ schema_of text.now) }
        ensures lawful { IfOk result IsLawful }
    {
        read_text(alloc, text)
    }

    /// What the schema says of the table with this name.
    pub fn table(&self, name: &[u8]) -> Listed
        ensures { Lists self.now name.now result }
    {
        for table in self.tables.as_slice() {
            if is_same(table.name.as_bytes(), name) {
                return Listed::Known(table);
            }
        }
        if is_skipped(self.skipped.as_slice(), name) {
            return Listed::Skipped;
        }
        Listed::Absent
    }

    /// The tables, ascending by name; without those that are skipped.
    pub fn tables(&self) -> &[Table]
        ensures { result.now ≡ self.now.tables }
    {
        self.tables.as_slice()
    }

    pub fn copy(&self, alloc: Global) -> Result<Schema, OutOfMemory>
        ensures { IfOk result (λ s. s ≡ self.now) }
    {
        Ok(Schema {
            tables: copy_tables(alloc, self.tables.as_slice())?,
            skipped: self.skipped.copy(alloc)?,
        })
    }
}

/// Reads the lines of a text one by one.
#[tactic(auto, unfolding(crate::specs::Rules::by_lines))]
fn read_text(alloc: Global, text: &[u8]) -> Result<Schema, SchemaRefusal>
    ensures { (result ≡ Err SchemaRefusal.Memory) ⊎ (result ≡ schema_of text.now) }
{
    let mut builder = Builder::new(alloc);
    let mut line_number = 1;
    let mut rest = text;
    while rest.len() > 0 {
        let (line, more) = cut_line(rest);
        match builder.take_line(alloc, line) {
            Ok(()) => {}
            Err(LineFault::Wrong) => return Err(SchemaRefusal::BadSchema { line: line_number }),
            Err(LineFault::Memory) => return Err(SchemaRefusal::Memory),
        }
        line_number += 1;
        rest = more;
    }
    finish(alloc, builder, line_number)
}

/// The schema of what was said up to the line of this number, which is behind the last.
fn finish(alloc: Global, mut builder: Builder, line_number: usize) -> Result<Schema, SchemaRefusal>
    ensures { (result ≡ Err SchemaRefusal.Memory) ⊎ (result ≡ finished line_number (draft_of builder) (closed builder.tables builder.current)) }
{
    match builder.close(alloc) {
        Ok(()) => {}
        Err(LineFault::Wrong) => return Err(SchemaRefusal::BadSchema { line: line_number }),
        Err(LineFault::Memory) => return Err(SchemaRefusal::Memory),
    }
    let Builder {
        tables,
        skipped,
        ..
    } = builder;
    match tables.into_list(alloc) {
        Ok(tables) => Ok(Schema {
            tables,
            skipped: skipped.into_list(),
        }),
        Err(_) => Err(SchemaRefusal::Memory),
    }
}

/// Copies of tables, in order.
fn copy_tables(alloc: Global, tables: &[Table]) -> Result<List<Table>, OutOfMemory>
    ensures { IfOk result (λ copy. copy ≡ tables.now) }
{
    let mut copy = List::new(alloc);
    for table in tables {
        copy.push(table.copy(alloc)?)?;
    }
    Ok(copy)
}

fn is_skipped(skipped: &[Text], name: &[u8]) -> bool
    ensures { result ≡ list_any (λ skipped. same skipped name.now) skipped.now }
{
    skipped
        .iter()
        .any(|skipped| is_same(skipped.as_bytes(), name))
}

//! The groups of an entry's changes: each is a message of its own.
ghost use Rattle.std.specs.Prelude.{
  ◌≡◌,
  ◌++◌,
  ◌+◌,
  ◌-◌,
  ◌^◌,
  [],
  ◌∷◌,
  IfErr,
  IfOk,
  List,
  OnOk,
  false,
  if◌then◌else◌,
  length,
  min,
  true,
  ℕ,
};
ghost use Rattle.std.specs.List.{filter_map};
ghost use Rattle.vs_base.specs.declared.Change.{Change as Changing};
ghost use Rattle.vs_base.specs.declared.table.Column.{Column as Columned};
ghost use Rattle.vs_filter.specs.Picks.{pick_in};
ghost use Rattle.vs_render.specs.Bodies.{IsWritten, changes_body, columns_in};
ghost use Rattle.vs_render.specs.Events.{Columns, Commits, head_of};
ghost use Rattle.vs_render.specs.Refusals.{RefusalIs};
ghost use Rattle.vs_render.specs.Rendering.{Stage, told_with};
ghost use Rattle.vs_render.specs.Spelling.{said_bytes};

use crate::body::Lengths;
use crate::columns::SpelledColumns;
use crate::spelled::SpelledRow;
use crate::spelling::put_plain_event;
use crate::told::Told;
use crate::{OutOfMemory, RenderRefusal};
use std::alloc::Global;
use vs_base::{Change, ShardName};
use vs_filter::Bound;
use vs_proto::event_kind;

/// The most bytes that a message may have, without its vector and with a closing event.
pub(crate) const MOST: usize = 8_388_608;

/// The events of a change, spelled.
#[derive(Debug, Drop)]
struct Spelled {
    /// Its ROW event.
    row: SpelledRow,
    /// The FIELD event of its table.
    columns: SpelledColumns,
}

/// Appends the ROW event of a change, behind the FIELD event of its table where that isn't known.
fn put_spelled(
    out: &mut Vec<u8>,
    known: bool,
    columns: &[u8],
    row: &[u8],
) -> Result<(), OutOfMemory>
    ensures { OnOk result (out.new.items ≡ out.old.items ++ (if known then row.now else (columns.now ++ row.now))) }
{
    if known {
        return out.extend_from_slice(row);
    }
    out.extend_from_slice(columns)?;
    out.extend_from_slice(row)?;
    Ok(())
}

/// Spells the FIELD event of a table, unless the table is known, and gives its size.
fn columns_size(
    alloc: Global,
    columns: &mut SpelledColumns,
    bound: &Bound,
    name: &ShardName,
    time: u32,
    table: &[u8],
    known: bool,
) -> Result<usize, OutOfMemory>
    ensures size { IfOk result (λ n. n ≡ (if known then 0 else (min (length (said_bytes (head_of name.now time) (Columns table.now (columns_in bound.now.tables table.now) ∷ []))) (2 ^ 64 - 1)))) }
    ensures spelled { known ≡ false → OnOk result (columns.new.bytes.items ≡ said_bytes (head_of name.now time) (Columns table.now (columns_in bound.now.tables table.now) ∷ [])) }
{
    if known {
        return Ok(0);
    }
    columns.spell(alloc, bound, name, time, table)?;
    Ok(columns.bytes.len())
}

/// The size of a COMMIT event.
fn commit_size(alloc: Global, name: &ShardName, time: u32) -> Result<usize, OutOfMemory>
    ensures { IfOk result (λ n. n ≡ min (length (said_bytes (head_of name.now time) (Commits ∷ []))) (2 ^ 64 - 1)) }
{
    let mut commit = Vec::new(alloc);
    put_plain_event(alloc, &mut commit, name, time, event_kind::COMMIT as u32)?;
    Ok(commit.len())
}

/// The size of a message with a change more, of which the events have these sizes.
fn size_with(length: usize, columns: usize, row: usize, closing: usize) -> usize
    ensures { result ≡ min (length + (columns + row) + closing) (2 ^ 64 - 1) }
{
    length
        .saturating_add(columns.saturating_add(row))
        .saturating_add(closing)
}

/// The groups of an entry's changes, as far as they are written.
#[derive(Debug, Drop)]
struct Groups {
    /// The lengths of those that are finished.
    earlier: Vec<usize>,
    /// The tables whose columns the open one has.
    told: Told,
    /// Where it begins.
    start: usize,
    /// Whether it has a change.
    some: bool,
}

impl Groups {
    fn new(alloc: Global) -> Groups
        ensures told { result.told ≡ [] }
        ensures earlier { result.earlier.items ≡ [] }
        ensures start { result.start ≡ 0 }
        ensures some { result.some ≡ false }
    {
        Groups {
            earlier: Vec::new(alloc),
            told: Told::new(alloc),
            start: 0,
            some: false,
        }
    }

    /// Writes the events of a change into the open group.
    fn join(
        &mut self,
        alloc: Global,
        out: &mut Vec<u8>,
        spelled: &Spelled,
        table: &[u8],
        known: bool,
    ) -> Result<(), OutOfMemory>
        ensures written { OnOk result (out.new.items ≡ out.old.items ++ (if known then spelled.now.row.bytes.items else (spelled.now.columns.bytes.items ++ spelled.now.row.bytes.items))) }
        ensures told { OnOk result (self.new.told ≡ told_with known self.old.told table.now) }
        ensures earlier { OnOk result (self.new.earlier.items ≡ self.old.earlier.items) }
        ensures start { OnOk result (self.new.start ≡ self.old.start) }
        ensures some { OnOk result (self.new.some ≡ true) }
    {
        put_spelled(
            out,
            known,
            spelled.columns.bytes.as_slice(),
            spelled.row.bytes.as_slice(),
        )?;
        self.told.add(alloc, known, table)?;
        self.some = true;
        Ok(())
    }

    /// Finishes the open group, and writes the events of a change into the next one.
    fn begin_next(
        &mut self,
        alloc: Global,
        out: &mut Vec<u8>,
        spelled: &Spelled,
        table: &[u8],
    ) -> Result<(), OutOfMemory>
        ensures written { OnOk result (out.new.items ≡ out.old.items ++ (spelled.now.columns.bytes.items ++ spelled.now.row.bytes.items)) }
        ensures told { OnOk result (self.new.told ≡ table.now ∷ []) }
        ensures earlier { OnOk result (self.new.earlier.items ≡ self.old.earlier.items ++ (length out.old.items - self.old.start) ∷ []) }
        ensures start { OnOk result (self.new.start ≡ length out.old.items) }
        ensures some { OnOk result (self.new.some ≡ true) }
    {
        let end = out.len();
        self.earlier.push(end.saturating_sub(self.start))?;
        self.start = end;
        self.told.clear();
        self.join(alloc, out, spelled, table, false)?;
        Ok(())
    }

    /// Writes a change, if it is picked: into the open group, or where that would pass the limit
    /// into the next one.
    fn take(
        &mut self,
        alloc: Global,
        out: &mut Vec<u8>,
        spelled: &mut Spelled,
        bound: &Bound,
        name: &ShardName,
        time: u32,
        change: &Change,
        closing: usize,
    ) -> Result<(), RenderRefusal>
        requires { closing ≡ min (length (said_bytes (head_of name.now time) (Commits ∷ []))) (2 ^ 64 - 1) }
        ensures ok { (all left : List Changing) → Stage (head_of name.now time) (columns_in bound.now.tables) all (filter_map (pick_in bound.now.tables) (change.now ∷ left)) self.old.told out.old.items self.old.earlier.items self.old.start self.old.some → OnOk result (Stage (head_of name.now time) (columns_in bound.now.tables) all (filter_map (pick_in bound.now.tables) left) self.new.told out.new.items self.new.earlier.items self.new.start self.new.some) }
        ensures err { (all left : List Changing) → Stage (head_of name.now time) (columns_in bound.now.tables) all (filter_map (pick_in bound.now.tables) (change.now ∷ left)) self.old.told out.old.items self.old.earlier.items self.old.start self.old.some → IfErr result (λ e. RefusalIs (changes_body (head_of name.now time) (columns_in bound.now.tables) all) e) }
    {
        let picked = spelled.row.spell(alloc, bound, name, time, change)?;
        if !picked {
            return Ok(());
        }
        let table = change.table.as_bytes();
        let known = self.told.has(table);
        let columns = columns_size(alloc, &mut spelled.columns, bound, name, time, table, known)?;
        let row = spelled.row.bytes.len();
        let size = size_with(out.len().saturating_sub(self.start), columns, row, closing);
        if size <= MOST {
            self.join(alloc, out, spelled, table, known)?;
            return Ok(());
        }
        if !self.some {
            return Err(RenderRefusal::TooLarge { bytes: size as u64 });
        }
        let anew = columns_size(alloc, &mut spelled.columns, bound, name, time, table, false)?;
        let alone = size_with(0, anew, row, closing);
        if alone > MOST {
            return Err(RenderRefusal::TooLarge {
                bytes: alone as u64,
            });
        }
        self.begin_next(alloc, out, spelled, table)?;
        Ok(())
    }

    /// Writes the closing event behind the open group, which is the last.
    fn finish(
        self,
        alloc: Global,
        out: &mut Vec<u8>,
        name: &ShardName,
        time: u32,
        closing: usize,
    ) -> Result<Lengths, RenderRefusal>
        requires { closing ≡ min (length (said_bytes (head_of name.now time) (Commits ∷ []))) (2 ^ 64 - 1) }
        ensures ok { (fields : List ℕ → List Columned) (all : List Changing) → Stage (head_of name.now time) fields all [] self.told out.old.items self.earlier.items self.start self.some → IfOk result (λ l. IsWritten (l.earlier.items ++ l.last ∷ []) out.new.items (changes_body (head_of name.now time) fields all)) }
        ensures err { (fields : List ℕ → List Columned) (all : List Changing) → Stage (head_of name.now time) fields all [] self.told out.old.items self.earlier.items self.start self.some → IfErr result (λ e. RefusalIs (changes_body (head_of name.now time) fields all) e) }
    {
        let last = out.len().saturating_sub(self.start);
        let size = last.saturating_add(closing);
        if size > MOST {
            return Err(RenderRefusal::TooLarge { bytes: size as u64 });
        }
        put_plain_event(alloc, out, name, time, event_kind::COMMIT as u32)?;
        let Groups {
            earlier,
            told: _,
            start: _,
            some: _,
        } = self;
        Ok(Lengths { earlier, last })
    }
}

/// Appends the messages of an entry's changes, as far as the changes are picked, and the closing
/// event behind the last one.
pub(crate) fn put_changes(
    alloc: Global,
    out: &mut Vec<u8>,
    bound: &Bound,
    name: &ShardName,
    time: u32,
    changes: &[Change],
) -> Result<Lengths, RenderRefusal>
    requires { out.old.items ≡ [] }
    ensures written { IfOk result (λ l. IsWritten (l.earlier.items ++ l.last ∷ []) out.new.items (changes_body (head_of name.now time) (columns_in bound.now.tables) (filter_map (pick_in bound.now.tables) changes.now))) }
    ensures refused { IfErr result (λ e. RefusalIs (changes_body (head_of name.now time) (columns_in bound.now.tables) (filter_map (pick_in bound.now.tables) changes.now)) e) }
{
    put_plain_event(alloc, out, name, time, event_kind::BEGIN as u32)?;
    let closing = commit_size(alloc, name, time)?;
    let mut spelled = Spelled {
        row: SpelledRow::new(alloc),
        columns: SpelledColumns::new(alloc),
    };
    let mut groups = Groups::new(alloc);
    for change in changes {
        match groups.take(alloc, out, &mut spelled, bound, name, time, change, closing) {
            Ok(()) => {}
            Err(refusal) => return Err(refusal),
        }
    }
    groups.finish(alloc, out, name, time, closing)
}

ghost use Rattle.std.specs.Prelude.{◌≡◌, ◌++◌, OnOk, codes, decimal};
ghost use Rattle.std.specs.List.{flat_map};
ghost use Rattle.vs_show.specs.Lines.{
  change_line,
  copied_line,
  counted_line,
  event_lines,
  field_line,
  field_text,
  fields_line,
  frame_lines,
  journal_line,
  kind_lines,
  placed_line,
  row_lines,
  shard_text,
  statement_line,
};

use crate::OutOfMemory;
use crate::cell::{put_bytes, put_image};
use crate::kind::Kind;
use crate::shown::{Shown, put_all, put_joined, put_number};
use crate::vector::put_vector;
use itoa::Buffer;
use vs_proto::{Field, FieldEvent, Journal, RowChange, RowEvent, VEvent, VStreamResponse};

/// Appends the names of an event's shard.
#[tactic(auto, unfolding(crate::specs::Lines::shard_text))]
fn put_shard(event: &VEvent, out: &mut Vec<u8>) -> Result<(), OutOfMemory>
    ensures { OnOk result (out.new.items ≡ out.old.items ++ shard_text event.now) }
{
    out.extend_from_slice(event.keyspace.as_bytes())?;
    out.extend_from_slice(b"/")?;
    out.extend_from_slice(event.shard.as_bytes())
}

/// Appends the line of a word and the names of the shard.
#[tactic(auto, unfolding(crate::specs::Lines::placed_line))]
fn put_placed(word: &[u8], event: &VEvent, out: &mut Vec<u8>) -> Result<(), OutOfMemory>
    ensures { OnOk result (out.new.items ≡ out.old.items ++ placed_line word.now event.now) }
{
    out.extend_from_slice(word)?;
    out.extend_from_slice(b" ")?;
    put_shard(event, out)?;
    out.extend_from_slice(b"\n")
}

/// Appends the line of a word and a number.
#[tactic(auto, unfolding(crate::specs::Lines::counted_line))]
fn put_counted(word: &[u8], number: i64, out: &mut Vec<u8>) -> Result<(), OutOfMemory>
    ensures { OnOk result (out.new.items ≡ out.old.items ++ counted_line word.now number) }
{
    out.extend_from_slice(word)?;
    out.extend_from_slice(b" ")?;
    put_number(number, out)?;
    out.extend_from_slice(b"\n")
}

#[tactic(auto, unfolding(crate::specs::Lines::statement_line))]
fn put_statement(event: &VEvent, out: &mut Vec<u8>) -> Result<(), OutOfMemory>
    ensures { OnOk result (out.new.items ≡ out.old.items ++ statement_line event.now) }
{
    out.extend_from_slice(b"DDL ")?;
    put_shard(event, out)?;
    out.extend_from_slice(b" ")?;
    put_bytes(event.statement.as_bytes(), out)?;
    out.extend_from_slice(b"\n")
}

#[tactic(auto, unfolding(crate::specs::Lines::field_text))]
impl Shown for Field {
    ghost text = { field_text };

    fn put(&self, out: &mut Vec<u8>) -> Result<(), OutOfMemory> {
        out.extend_from_slice(self.name.as_bytes())?;
        out.extend_from_slice(b":")?;
        put_number(i64::from(self.kind), out)
    }
}

#[tactic(auto, unfolding(crate::specs::Lines::fields_line))]
fn put_fields(
    event: &VEvent,
    table: &[u8],
    fields: &[Field],
    out: &mut Vec<u8>,
) -> Result<(), OutOfMemory>
    ensures { OnOk result (out.new.items ≡ out.old.items ++ fields_line event.now table.now fields.now) }
{
    out.extend_from_slice(b"FIELD ")?;
    put_shard(event, out)?;
    out.extend_from_slice(b" ")?;
    out.extend_from_slice(table)?;
    out.extend_from_slice(b" ")?;
    put_joined(fields, b",", out)?;
    out.extend_from_slice(b"\n")
}

fn put_field_event(
    event: &VEvent,
    columns: &Option<FieldEvent>,
    out: &mut Vec<u8>,
) -> Result<(), OutOfMemory>
    ensures { OnOk result (out.new.items ≡ out.old.items ++ field_line event.now columns.now) }
{
    match columns {
        Some(columns) => put_fields(
            event,
            columns.table_name.as_bytes(),
            columns.fields.as_slice(),
            out,
        ),
        None => put_fields(event, b"", &[], out),
    }
}

#[tactic(auto, unfolding(crate::specs::Lines::change_line))]
fn put_change(
    event: &VEvent,
    table: &[u8],
    change: &RowChange,
    out: &mut Vec<u8>,
) -> Result<(), OutOfMemory>
    ensures { OnOk result (out.new.items ≡ out.old.items ++ change_line event.now table.now change.now) }
{
    out.extend_from_slice(b"ROW ")?;
    put_shard(event, out)?;
    out.extend_from_slice(b" ")?;
    out.extend_from_slice(table)?;
    out.extend_from_slice(b" ")?;
    put_image(&change.before, out)?;
    out.extend_from_slice(b" -> ")?;
    put_image(&change.after, out)?;
    out.extend_from_slice(b"\n")
}

fn put_changes(
    event: &VEvent,
    table: &[u8],
    changes: &[RowChange],
    out: &mut Vec<u8>,
) -> Result<(), OutOfMemory>
    ensures { OnOk result (out.new.items ≡ out.old.items ++ flat_map (change_line event.now table.now) changes.now) }
{
    for change in changes {
        put_change(event, table, change, out)?;
    }
    Ok(())
}

fn put_rows(event: &VEvent, rows: &Option<RowEvent>, out: &mut Vec<u8>) -> Result<(), OutOfMemory>
    ensures { OnOk result (out.new.items ≡ out.old.items ++ row_lines event.now rows.now) }
{
    match rows {
        Some(rows) => put_changes(
            event,
            rows.table_name.as_bytes(),
            rows.row_changes.as_slice(),
            out,
        ),
        None => Ok(()),
    }
}

fn put_journal(journal: &Option<Journal>, out: &mut Vec<u8>) -> Result<(), OutOfMemory>
    ensures { OnOk result (out.new.items ≡ out.old.items ++ journal_line journal.now) }
{
    match journal {
        Some(journal) => put_counted(b"JOURNAL", journal.id, out),
        None => put_counted(b"JOURNAL", 0, out),
    }
}

#[tactic(auto, unfolding(crate::specs::Lines::copied_line))]
fn put_copied(event: &VEvent, out: &mut Vec<u8>) -> Result<(), OutOfMemory>
    ensures { OnOk result (out.new.items ≡ out.old.items ++ copied_line event.now) }
{
    if event.keyspace.as_bytes().is_empty() && event.shard.as_bytes().is_empty() {
        return out.extend_from_slice(b"COPY_COMPLETED\n");
    }
    put_placed(b"COPY_COMPLETED", event, out)
}

fn put_kind(kind: Kind, event: &VEvent, out: &mut Vec<u8>) -> Result<(), OutOfMemory>
    ensures { OnOk result (out.new.items ≡ out.old.items ++ kind_lines kind event.now) }
{
    match kind {
        Kind::Begin => put_placed(b"BEGIN", event, out),
        Kind::Commit => put_placed(b"COMMIT", event, out),
        Kind::Other => put_placed(b"OTHER", event, out),
        Kind::Ddl => put_statement(event, out),
        Kind::Field => put_field_event(event, &event.field_event, out),
        Kind::Row => put_rows(event, &event.row_event, out),
        Kind::Vgtid => put_vector(&event.vgtid, out),
        Kind::Journal => put_journal(&event.journal, out),
        Kind::CopyCompleted => put_copied(event, out),
        Kind::Heartbeat => put_counted(b"HEARTBEAT", event.current_time, out),
        Kind::Unnamed => put_counted(b"EVENT", i64::from(event.kind), out),
    }
}

#[tactic(auto, unfolding(crate::specs::Lines::event_lines))]
impl Shown for VEvent {
    ghost text = { event_lines };

    fn put(&self, out: &mut Vec<u8>) -> Result<(), OutOfMemory> {
        put_kind(Kind::of(self.kind), self, out)
    }
}

/// Appends the lines of the frame with this number.
#[tactic(auto, unfolding(crate::specs::Lines::frame_lines))]
pub(crate) fn put_response(
    number: u64,
    response: &VStreamResponse,
    out: &mut Vec<u8>,
) -> Result<(), OutOfMemory>
    ensures { OnOk result (out.new.items ≡ out.old.items ++ frame_lines number response.now) }
{
    let mut buffer = Buffer::new();
    out.extend_from_slice(b"#")?;
    out.extend_from_slice(buffer.format(number).as_bytes())?;
    out.extend_from_slice(b"\n")?;
    put_all(response.events.as_slice(), out)
}

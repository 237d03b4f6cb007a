//! The text of a journal.
ghost use Rattle.std.specs.Prelude.{◌≡◌, ◌++◌, OnErr, OnOk, codes, map};
ghost use Rattle.std.specs.Fmt.{signed_decimal};
ghost use Rattle.std.specs.List.{flat_map};
ghost use Rattle.vs_journal.specs.Judgement.{plain_journal, plain_name, plain_successor};
ghost use Rattle.vs_journal.specs.Texts.{
  gtid_text,
  journal_text,
  kind_text,
  name_text,
  participant_text,
  string_byte,
  string_text,
  successor_text,
};

use itoa::Buffer;
use std::alloc::Global;
use vs_base::{OutOfMemory, ShardName};
use vs_gtid::{GtidSet, JournalValue, Successor};

/// The bytes of a string, with a backslash before a quote and a backslash.
fn put_bytes(bytes: &[u8], text: &mut Vec<u8>) -> Result<(), OutOfMemory>
    ensures { OnOk result (text.new.items ≡ text.old.items ++ flat_map string_byte bytes.now) }
{
    for byte in bytes {
        if *byte == b'"' || *byte == b'\\' {
            text.push(b'\\')?;
        }
        text.push(*byte)?;
    }
    Ok(())
}

fn put_string(bytes: &[u8], text: &mut Vec<u8>) -> Result<(), OutOfMemory>
    ensures { OnOk result (text.new.items ≡ text.old.items ++ string_text bytes.now) }
{
    text.extend_from_slice(b"\"")?;
    put_bytes(bytes, text)?;
    text.extend_from_slice(b"\"")
}

fn put_name(name: &ShardName, text: &mut Vec<u8>) -> Result<(), OutOfMemory>
    ensures { OnOk result (text.new.items ≡ text.old.items ++ name_text (plain_name name.now)) }
{
    text.extend_from_slice(b"keyspace:")?;
    put_string(name.keyspace.as_bytes(), text)?;
    text.extend_from_slice(b" shard:")?;
    put_string(name.shard.as_bytes(), text)
}

fn put_participant(name: &ShardName, text: &mut Vec<u8>) -> Result<(), OutOfMemory>
    ensures { OnOk result (text.new.items ≡ text.old.items ++ participant_text (plain_name name.now)) }
{
    text.extend_from_slice(b" participants:{")?;
    put_name(name, text)?;
    text.extend_from_slice(b"}")
}

fn put_participants(names: &[ShardName], text: &mut Vec<u8>) -> Result<(), OutOfMemory>
    ensures { OnOk result (text.new.items ≡ text.old.items ++ flat_map participant_text (map plain_name names.now)) }
{
    for name in names {
        put_participant(name, text)?;
    }
    Ok(())
}

fn put_gtid(alloc: Global, position: &GtidSet, text: &mut Vec<u8>) -> Result<(), OutOfMemory>
    ensures { OnOk result (text.new.items ≡ text.old.items ++ gtid_text position.now) }
{
    text.extend_from_slice(b" gtid:\"MySQL56/")?;
    position.put_text(alloc, text)?;
    text.extend_from_slice(b"\"")?;
    Ok(())
}

fn put_successor(
    alloc: Global,
    successor: &Successor,
    text: &mut Vec<u8>,
) -> Result<(), OutOfMemory>
    ensures { OnOk result (text.new.items ≡ text.old.items ++ successor_text (plain_successor successor.now)) }
{
    text.extend_from_slice(b" shard_gtids:{")?;
    put_name(&successor.name, text)?;
    put_gtid(alloc, &successor.position, text)?;
    text.extend_from_slice(b"}")
}

fn put_successors(
    alloc: Global,
    successors: &[Successor],
    text: &mut Vec<u8>,
) -> Result<(), OutOfMemory>
    ensures { OnOk result (text.new.items ≡ text.old.items ++ flat_map successor_text (map plain_successor successors.now)) }
{
    for successor in successors {
        put_successor(alloc, successor, text)?;
    }
    Ok(())
}

fn put_head(id: i64, shards: bool, text: &mut Vec<u8>) -> Result<(), OutOfMemory>
    ensures { OnOk result (text.new.items ≡ text.old.items ++ codes "id:" ++ signed_decimal id ++ codes " migration_type:" ++ kind_text shards) }
{
    let mut buffer = Buffer::new();
    text.extend_from_slice(b"id:")?;
    text.extend_from_slice(buffer.format(id).as_bytes())?;
    text.extend_from_slice(b" migration_type:")?;
    if shards {
        text.extend_from_slice(b"SHARDS")
    } else {
        text.extend_from_slice(b"TABLES")
    }
}

fn put_journal(alloc: Global, j: &JournalValue, text: &mut Vec<u8>) -> Result<(), OutOfMemory>
    ensures { OnOk result (text.new.items ≡ text.old.items ++ journal_text (plain_journal j.now)) }
{
    put_head(j.id, j.shards, text)?;
    put_successors(alloc, j.successors.as_slice(), text)?;
    put_participants(j.participants.as_slice(), text)
}

/// Appends the protobuf text of a journal: its id, its kind, its successors and its participants,
/// with a single space between two fields.
pub fn write_text(alloc: Global, out: &mut Vec<u8>, j: &JournalValue) -> Result<(), OutOfMemory>
    ensures ok { OnOk result (out.new.items ≡ out.old.items ++ journal_text (plain_journal j.now)) }
    ensures err { OnErr result (out.new.items ≡ out.old.items) }
{
    let mut text = Vec::new(alloc);
    put_journal(alloc, j, &mut text)?;
    out.extend_from_slice(text.as_slice())
}

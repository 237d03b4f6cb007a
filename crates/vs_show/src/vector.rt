ghost use Rattle.std.specs.Prelude.{◌≡◌, ◌++◌, OnOk};
ghost use Rattle.vs_show.specs.Lines.{
  entries_line,
  entry_text,
  key_text,
  vector_line,
};

use crate::OutOfMemory;
use crate::cell::put_image;
use crate::shown::{Shown, put_all, put_joined};
use vs_proto::{ShardGtid, TableKey, VGtid};

#[tactic(auto, unfolding(crate::specs::Lines::key_text))]
impl Shown for TableKey {
    ghost text = { key_text };

    fn put(&self, out: &mut Vec<u8>) -> Result<(), OutOfMemory> {
        out.extend_from_slice(b"+")?;
        out.extend_from_slice(self.table_name.as_bytes())?;
        put_image(&self.key, out)
    }
}

#[tactic(auto, unfolding(crate::specs::Lines::entry_text))]
impl Shown for ShardGtid {
    ghost text = { entry_text };

    fn put(&self, out: &mut Vec<u8>) -> Result<(), OutOfMemory> {
        out.extend_from_slice(self.keyspace.as_bytes())?;
        out.extend_from_slice(b"/")?;
        out.extend_from_slice(self.shard.as_bytes())?;
        out.extend_from_slice(b"@")?;
        out.extend_from_slice(self.gtid.as_bytes())?;
        put_all(self.table_p_ks.as_slice(), out)
    }
}

#[tactic(auto, unfolding(crate::specs::Lines::entries_line))]
fn put_entries(entries: &[ShardGtid], out: &mut Vec<u8>) -> Result<(), OutOfMemory>
    ensures { OnOk result (out.new.items ≡ out.old.items ++ entries_line entries.now) }
{
    out.extend_from_slice(b"VGTID ")?;
    put_joined(entries, b";", out)?;
    out.extend_from_slice(b"\n")
}

/// Appends the line of a position vector.
pub(crate) fn put_vector(vector: &Option<VGtid>, out: &mut Vec<u8>) -> Result<(), OutOfMemory>
    ensures { OnOk result (out.new.items ≡ out.old.items ++ vector_line vector.now) }
{
    match vector {
        Some(vector) => put_entries(vector.shard_gtids.as_slice(), out),
        None => put_entries(&[], out),
    }
}

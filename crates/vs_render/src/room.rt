ghost use Rattle.std.specs.Prelude.{◌≡◌, ◌++◌, ◌≤◌, ◌<◌, ◌+◌, ◌-◌, OnErr, OnOk, [], drop, length, take};
ghost use Rattle.vs_pool.specs.Buffers.{emptied};
ghost use Rattle.vs_render.specs.Bodies.{buffer_of};

use crate::OutOfMemory;
use vs_pool::Buf;

/// Where a body is written: a buffer of a pool, and the bytes that it can't hold.
#[derive(Debug, Drop)]
pub struct Room {
    pub buf: Buf,
    pub rest: Vec<u8>,
}

impl Room {
    /// Empties it. What memory it has stays.
    pub(crate) fn clear(&mut self)
        ensures buf { self.new.buf ≡ emptied self.old.buf.size }
        ensures rest { self.new.rest.items ≡ [] }
    {
        self.buf.clear();
        self.rest.clear();
    }

    /// Moves what was written behind the empty buffer into it, as far as it holds it.
    pub(crate) fn settle(&mut self)
        requires { self.old.buf.bytes ≡ [] }
        ensures buf { self.new.buf ≡ buffer_of self.old.buf.size self.old.rest.items }
        ensures rest { self.new.rest.items ≡ drop self.old.buf.size self.old.rest.items }
    {
        let held = self.rest.len().min(self.buf.size());
        let _fits = self.buf.push_slice(&self.rest[..held]);
        let _moved = self.rest.drain(..held);
    }

    /// How many bytes it has.
    pub(crate) fn len(&self) -> usize
        ensures { result ≡ length (self.now.buf.bytes ++ self.now.rest.items) }
    {
        self.buf.bytes().len() + self.rest.len()
    }

    /// Appends so many of its bytes, from this place on.
    #[tactic(auto, using(crate::proofs::RoomLemmas::rest_part, crate::proofs::RoomLemmas::first_part))]
    pub(crate) fn put(
        &self,
        out: &mut Vec<u8>,
        from: usize,
        count: usize,
    ) -> Result<(), OutOfMemory>
        requires { from + count ≤ length (self.now.buf.bytes ++ self.now.rest.items) }
        ensures ok { OnOk result (out.new.items ≡ out.old.items ++ take count (drop from (self.now.buf.bytes ++ self.now.rest.items))) }
        ensures err { OnErr result (take (length out.old.items) out.new.items ≡ out.old.items) }
    {
        let first = self.buf.bytes();
        let rest = self.rest.as_slice();
        if first.len() <= from {
            return put_part(out, rest, from - first.len(), count);
        }
        if count <= first.len() - from {
            return put_part(out, first, from, count);
        }
        put_both(out, first, rest, from, count)
    }
}

fn put_part(out: &mut Vec<u8>, bytes: &[u8], from: usize, count: usize) -> Result<(), OutOfMemory>
    requires { from + count ≤ length bytes.now }
    ensures ok { OnOk result (out.new.items ≡ out.old.items ++ take count (drop from bytes.now)) }
    ensures err { OnErr result (out.new.items ≡ out.old.items) }
{
    out.extend_from_slice(&bytes[from..from + count])
}

/// A part that goes over the end of the first.
#[tactic(auto, using(crate::proofs::RoomLemmas::both_parts, crate::proofs::RoomLemmas::kept_front))]
fn put_both(
    out: &mut Vec<u8>,
    first: &[u8],
    rest: &[u8],
    from: usize,
    count: usize,
) -> Result<(), OutOfMemory>
    requires starts { from < length first.now }
    requires more { length first.now - from < count }
    requires within { count - (length first.now - from) ≤ length rest.now }
    ensures ok { OnOk result (out.new.items ≡ out.old.items ++ take count (drop from (first.now ++ rest.now))) }
    ensures err { OnErr result (take (length out.old.items) out.new.items ≡ out.old.items) }
{
    let held = first.len() - from;
    put_part(out, first, from, held)?;
    put_part(out, rest, 0, count - held)?;
    Ok(())
}

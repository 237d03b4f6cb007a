ghost use Rattle.std.specs.Prelude.{◌≡◌, ◌≤◌, ◌<◌, ◌^◌, ◌*◌, ◌+◌, ◌-◌, ◌++◌, OnOk, length};
ghost use Rattle.vs_wire.specs.Fields.{field_bytes, number, sized};
ghost use Rattle.vs_wire.specs.Varint.{varint};

use crate::OutOfMemory;
use crate::backward::Backward;

/// Writes a number, the last group of seven bits first.
pub(crate) fn put_varint(out: &mut Backward, n: u64) -> Result<(), OutOfMemory>
    ensures { OnOk result (out.new ≡ varint n ++ out.old) }
{
    if n < 128 {
        return out.push(n as u8);
    }
    put_varint(out, n / 128)?;
    out.push((128 + n % 128) as u8)
}

/// Writes the head of a field in front of its value, which is all that was written since the
/// output had `before` bytes.
pub(crate) fn put_head(out: &mut Backward, field: u32, before: usize) -> Result<(), OutOfMemory>
    requires high { field < 2 ^ 29 }
    requires grown { before ≤ length out.old }
    ensures { OnOk result (out.new ≡ varint (field * 8 + 2) ++ (varint (length out.old - before) ++ out.old)) }
{
    let len = out.len() - before;
    put_varint(out, len as u64)?;
    put_varint(out, field as u64 * 8 + 2)
}

/// Writes a field of some bytes.
pub(crate) fn put_bytes(out: &mut Backward, field: u32, bytes: &[u8]) -> Result<(), OutOfMemory>
    requires { field < 2 ^ 29 }
    ensures { OnOk result (out.new ≡ field_bytes field (sized bytes.now) ++ out.old) }
{
    let before = out.len();
    out.put(bytes)?;
    put_head(out, field, before)
}

/// Writes a field of a number.
pub(crate) fn put_number(out: &mut Backward, field: u32, n: u64) -> Result<(), OutOfMemory>
    requires { field < 2 ^ 29 }
    ensures { OnOk result (out.new ≡ field_bytes field (number n) ++ out.old) }
{
    put_varint(out, n)?;
    put_varint(out, field as u64 * 8)
}

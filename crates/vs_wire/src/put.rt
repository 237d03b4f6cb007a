ghost use Rattle.std.specs.Prelude.{◌≡◌, ◌≤◌, ◌<◌, ◌^◌, ◌++◌, OnErr, OnOk, length, take};
ghost use Rattle.vs_wire.specs.Fields.{field_bytes, number, sized};

use crate::OutOfMemory;
use crate::varint::push_varint;
use std::alloc::Global;

/// Appends a field whose value is some bytes. The field's number is 1 to 536,870,911.
pub fn put_bytes(
    _alloc: Global,
    out: &mut Vec<u8>,
    field: u32,
    bytes: &[u8],
) -> Result<(), OutOfMemory>
    requires low { 1 ≤ field }
    requires high { field < 2 ^ 29 }
    ensures ok { OnOk result (out.new.items ≡ out.old.items ++ field_bytes field (sized bytes.now)) }
    ensures err { OnErr result (out.new.items ≡ out.old.items) }
{
    let start = out.len();
    match push_bytes(out, field, bytes) {
        Ok(()) => Ok(()),
        Err(e) => {
            out.truncate(start);
            Err(e)
        }
    }
}

fn push_bytes(out: &mut Vec<u8>, field: u32, bytes: &[u8]) -> Result<(), OutOfMemory>
    requires { field < 2 ^ 29 }
    ensures ok { OnOk result (out.new.items ≡ out.old.items ++ field_bytes field (sized bytes.now)) }
    ensures err { OnErr result (take (length out.old.items) out.new.items ≡ out.old.items) }
{
    push_varint(out, field as u64 * 8 + 2)?;
    push_varint(out, bytes.len() as u64)?;
    out.extend_from_slice(bytes)?;
    Ok(())
}

/// Appends a field whose value is a number. The field's number is 1 to 536,870,911.
pub fn put_number(_alloc: Global, out: &mut Vec<u8>, field: u32, n: u64) -> Result<(), OutOfMemory>
    requires low { 1 ≤ field }
    requires high { field < 2 ^ 29 }
    ensures ok { OnOk result (out.new.items ≡ out.old.items ++ field_bytes field (number n)) }
    ensures err { OnErr result (out.new.items ≡ out.old.items) }
{
    let start = out.len();
    match push_number(out, field, n) {
        Ok(()) => Ok(()),
        Err(e) => {
            out.truncate(start);
            Err(e)
        }
    }
}

fn push_number(out: &mut Vec<u8>, field: u32, n: u64) -> Result<(), OutOfMemory>
    requires { field < 2 ^ 29 }
    ensures ok { OnOk result (out.new.items ≡ out.old.items ++ field_bytes field (number n)) }
    ensures err { OnErr result (take (length out.old.items) out.new.items ≡ out.old.items) }
{
    push_varint(out, field as u64 * 8)?;
    push_varint(out, n)?;
    Ok(())
}

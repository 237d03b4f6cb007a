ghost use Rattle.std.specs.Prelude.{
  if◌then◌else◌,
  nat_lt,
  All,
  Err,
  IfOk,
  List,
  Ok,
  OnErr,
  OnOk,
  length,
  take,
  ℕ,
  ◌%◌,
  ◌*◌,
  ◌+◌,
  ◌++◌,
  ◌<◌,
  ◌^◌,
  ◌≡◌,
  ◌≤◌,
};
ghost use Rattle.vs_wire.specs.Seen.{refused_at};
ghost use Rattle.vs_wire.specs.declared.refusal.Flaw.{Flaw};
ghost use Rattle.vs_wire.specs.Varint.{varint, varint_in};

use crate::{Flaw, OutOfMemory, WireRefusal};
use std::alloc::Global;

/// Appends the shortest spelling of a number: 1 to 10 bytes.
pub fn put_varint(_alloc: Global, out: &mut Vec<u8>, n: u64) -> Result<(), OutOfMemory>
    ensures ok { OnOk result (out.new.items ≡ out.old.items ++ varint n) }
    ensures err { OnErr result (out.new.items ≡ out.old.items) }
{
    let start = out.len();
    match push_varint(out, n) {
        Ok(()) => Ok(()),
        Err(e) => {
            out.truncate(start);
            Err(e)
        }
    }
}

/// Appends the shortest spelling of a number, or a part of it where memory runs out.
pub(crate) fn push_varint(out: &mut Vec<u8>, n: u64) -> Result<(), OutOfMemory>
    ensures ok { OnOk result (out.new.items ≡ out.old.items ++ varint n) }
    ensures err { OnErr result (take (length out.old.items) out.new.items ≡ out.old.items) }
{
    let mut rest = n;
    while rest >= 128 {
        out.push((128 + rest % 128) as u8)?;
        rest /= 128;
    }
    out.push(rest as u8)?;
    Ok(())
}

/// How many bytes the shortest spelling of a number has.
pub fn varint_len(n: u64) -> usize
    ensures { result ≡ length (varint n) }
{
    let mut len = 1;
    let mut rest = n;
    while rest >= 128 {
        len += 1;
        rest /= 128;
    }
    len
}

/// Reads the number at the front, of at most ten bytes, and how many bytes it takes. Bits past the
/// 64th are dropped.
pub fn get_varint(bytes: &[u8]) -> Result<(u64, usize), WireRefusal>
    ensures value { result ≡ refused_at 0 (varint_in bytes.now) }
    ensures within { IfOk result (λ found. (0 < found.1) × (found.1 ≤ length bytes.now)) }
{
    match read_varint(bytes) {
        Ok(found) => Ok(found),
        Err(flaw) => Err(WireRefusal::new(0, flaw)),
    }
}

/// Reads the number at the front; a flaw has no place yet.
pub(crate) fn read_varint(bytes: &[u8]) -> Result<(u64, usize), Flaw>
    ensures value { result ≡ varint_in bytes.now }
    ensures within { IfOk result (λ found. (0 < found.1) × (found.1 ≤ length bytes.now)) }
{
    let mut low = 0u64;
    let mut weight = 1u64;
    for (i, byte) in bytes.iter().enumerate() {
        if i == 9 {
            return last_group(low, *byte);
        }
        let group = *byte as u64;
        if group < 128 {
            return Ok((low + group * weight, i + 1));
        }
        low += (group - 128) * weight;
        weight *= 128;
    }
    Err(Flaw::Cut)
}

/// The number of nine groups and this last one, of which only the lowest bit counts.
fn last_group(low: u64, byte: u8) -> Result<(u64, usize), Flaw>
    requires { low < 2 ^ 63 }
    ensures { result ≡
        (if nat_lt byte 128 then Ok (low + 2 ^ 63 * (byte % 2), 10) else Err Flaw.Long) }
{
    if byte >= 128 {
        return Err(Flaw::Long);
    }
    Ok((low + (byte % 2) as u64 * 0x8000_0000_0000_0000, 10))
}

/// The spelling of a number is read again, whatever follows, and no other has fewer bytes.
pub fn law_varint()
    ensures read { (n : ℕ) (after : List ℕ) → n < 2 ^ 64 →
        varint_in (varint n ++ after) ≡ Ok (n, length (varint n)) }
    ensures shortest { (n taken : ℕ) (bytes : List ℕ) → All (λ b. b < 256) bytes →
        varint_in bytes ≡ Ok (n, taken) → length (varint n) ≤ taken }
{}

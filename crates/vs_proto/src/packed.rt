ghost use Rattle.std.specs.Prelude.{◌≡◌, ◌<◌, ◌^◌, ◌++◌, OnOk};
ghost use Rattle.vs_wire.specs.Fields.{sized};
ghost use Rattle.vs_wire.specs.Seen.{refusal, seen_value};
ghost use Rattle.vs_wire.specs.declared.refusal.Flaw.{Flaw};
ghost use Rattle.vs_proto.specs.Answers.{TakesField};
ghost use Rattle.vs_proto.specs.Kinds.{
  if_packed,
  packed_bytes,
  take_packed as packed_taken,
  unzigzag,
  zigzag,
};
ghost use Rattle.vs_proto.specs.Shapes.{values_bytes};

use crate::OutOfMemory;
use crate::backward::Backward;
use crate::head::{put_head, put_varint};
use crate::refusal::{Fault, Stop};
use vs_base::List;
use vs_wire::{FieldValue, WireRefusal, get_varint};

/// A signed number as an unsigned one: 0, -1, 1, -2 are 0, 1, 2, 3.
fn zigzag_of(n: i64) -> u64
    ensures { result ≡ zigzag n }
{
    if n < 0 {
        (-(n + 1)).cast_unsigned() * 2 + 1
    } else {
        n.cast_unsigned() * 2
    }
}

fn signed_of(n: u64) -> i64
    ensures { result ≡ unzigzag n }
{
    let half = (n / 2).cast_signed();
    if n % 2 == 0 { half } else { -half - 1 }
}

/// Takes one more number, or a packed list of them.
pub(crate) fn take_sint64s(slot: &mut List<i64>, value: FieldValue<'_>) -> Result<(), Stop>
    ensures { TakesField result slot.new (packed_taken slot.old (seen_value value.entry)) }
{
    match value {
        FieldValue::Bytes(bytes) => take_packed(slot, bytes),
        FieldValue::Varint(n) => {
            slot.push(signed_of(n))?;
            Ok(())
        }
        _ => Ok(()),
    }
}

/// Takes the numbers of a packed list. The place of a bad one is counted from the list's front.
fn take_packed(slot: &mut List<i64>, bytes: &[u8]) -> Result<(), Stop>
    ensures { TakesField result slot.new (packed_taken slot.old (sized bytes.now)) }
{
    let mut at = 0;
    while at < bytes.len() {
        let rest = bytes.split_at(at).1;
        match get_varint(rest) {
            Ok((n, taken)) => {
                slot.push(signed_of(n))?;
                at += taken;
            }
            Err(why) => return Err(Stop::Bad(Fault::Wire(moved(why, at)))),
        }
    }
    Ok(())
}

/// The refusal of a number at the front, as that of a number at this place.
fn moved(why: WireRefusal, at: usize) -> WireRefusal
    ensures { (flaw : Flaw) → why ≡ refusal 0 flaw → result ≡ refusal at flaw }
{
    match why {
        WireRefusal::Cut { at: _ } => WireRefusal::Cut { at },
        WireRefusal::LongVarint { at: _ } => WireRefusal::LongVarint { at },
        WireRefusal::BadWireType { at: _, kind } => WireRefusal::BadWireType { at, kind },
        WireRefusal::ZeroField { at: _ } => WireRefusal::ZeroField { at },
    }
}

/// Writes a packed field of the numbers, unless there are none.
pub(crate) fn put_sint64s(
    out: &mut Backward,
    field: u32,
    list: &List<i64>,
) -> Result<(), OutOfMemory>
    requires { field < 2 ^ 29 }
    ensures { OnOk result (out.new ≡ values_bytes field (if_packed list.now) ++ out.old) }
{
    let numbers = list.as_slice();
    if numbers.is_empty() {
        return Ok(());
    }
    let before = out.len();
    put_numbers(out, numbers)?;
    put_head(out, field, before)
}

/// Writes the numbers one after the other.
fn put_numbers(out: &mut Backward, numbers: &[i64]) -> Result<(), OutOfMemory>
    ensures { OnOk result (out.new ≡ packed_bytes numbers.now ++ out.old) }
{
    let mut left = numbers.len();
    while left > 0 {
        left -= 1;
        put_varint(out, zigzag_of(numbers[left]))?;
    }
    Ok(())
}

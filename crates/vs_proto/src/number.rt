ghost use Rattle.std.specs.Prelude.{◌≡◌, ◌<◌, ◌^◌, ◌++◌, OnOk};
ghost use Rattle.vs_wire.specs.Seen.{seen_value};
ghost use Rattle.vs_proto.specs.Answers.{TakesField};
ghost use Rattle.vs_proto.specs.Kinds.{enumeration, flag as flag_kind, if_some, int64, uint64};
ghost use Rattle.vs_proto.specs.Shapes.{values_bytes};

use crate::OutOfMemory;
use crate::backward::Backward;
use crate::head::put_number;
use crate::refusal::Stop;
use vs_wire::FieldValue;

pub(crate) fn take_u64(slot: &mut u64, value: FieldValue<'_>) -> Result<(), Stop>
    ensures { TakesField result slot.new (uint64.taken slot.old (seen_value value.entry)) }
{
    if let FieldValue::Varint(n) = value {
        *slot = n;
    }
    Ok(())
}

pub(crate) fn take_i64(slot: &mut i64, value: FieldValue<'_>) -> Result<(), Stop>
    ensures { TakesField result slot.new (int64.taken slot.old (seen_value value.entry)) }
{
    if let FieldValue::Varint(n) = value {
        *slot = n.cast_signed();
    }
    Ok(())
}

/// Takes the low 32 bits.
pub(crate) fn take_enum(slot: &mut i32, value: FieldValue<'_>) -> Result<(), Stop>
    ensures { TakesField result slot.new (enumeration.taken slot.old (seen_value value.entry)) }
{
    if let FieldValue::Varint(n) = value {
        *slot = ((n % 0x1_0000_0000) as u32).cast_signed();
    }
    Ok(())
}

pub(crate) fn take_flag(slot: &mut bool, value: FieldValue<'_>) -> Result<(), Stop>
    ensures { TakesField result slot.new (flag_kind.taken slot.old (seen_value value.entry)) }
{
    if let FieldValue::Varint(n) = value {
        *slot = n != 0;
    }
    Ok(())
}

/// Writes a field of a number, unless it is 0.
pub(crate) fn put_u64(out: &mut Backward, field: u32, n: &u64) -> Result<(), OutOfMemory>
    requires { field < 2 ^ 29 }
    ensures { OnOk result (out.new ≡ values_bytes field (uint64.spelled n.now) ++ out.old) }
{
    put_nonzero(out, field, *n)
}

pub(crate) fn put_i64(out: &mut Backward, field: u32, n: &i64) -> Result<(), OutOfMemory>
    requires { field < 2 ^ 29 }
    ensures { OnOk result (out.new ≡ values_bytes field (int64.spelled n.now) ++ out.old) }
{
    put_nonzero(out, field, n.cast_unsigned())
}

pub(crate) fn put_enum(out: &mut Backward, field: u32, n: &i32) -> Result<(), OutOfMemory>
    requires { field < 2 ^ 29 }
    ensures { OnOk result (out.new ≡ values_bytes field (enumeration.spelled n.now) ++ out.old) }
{
    put_nonzero(out, field, i64::from(*n).cast_unsigned())
}

pub(crate) fn put_flag(out: &mut Backward, field: u32, flag: &bool) -> Result<(), OutOfMemory>
    requires { field < 2 ^ 29 }
    ensures { OnOk result (out.new ≡ values_bytes field (flag_kind.spelled flag.now) ++ out.old) }
{
    put_nonzero(out, field, if *flag { 1 } else { 0 })
}

fn put_nonzero(out: &mut Backward, field: u32, n: u64) -> Result<(), OutOfMemory>
    requires { field < 2 ^ 29 }
    ensures { OnOk result (out.new ≡ values_bytes field (if_some n) ++ out.old) }
{
    if n == 0 {
        return Ok(());
    }
    put_number(out, field, n)
}

ghost use Rattle.std.specs.Prelude.{◌≡◌, ◌≤◌, IfOk, length};
ghost use Rattle.vs_wire.specs.Fields.{
  field_in,
  fixed32_in,
  fixed64_in,
  sized_in,
  tag_in,
  tag_parts,
  value_in,
  varint_value_in,
  wire_type_of,
};
ghost use Rattle.vs_wire.specs.Seen.{GivesAs, seen_value};

use crate::Flaw;
use crate::varint::read_varint;

/// A field of a message. `at` is where its tag begins, counted from the message's front.
#[derive(Debug, Clone, Copy, PartialEq, Eq)]
pub struct Field<'a> {
    pub number: u32,
    pub at: usize,
    pub value: FieldValue<'a>,
}

/// The value of a field, by wire type. Those of fixed size are the bytes as they stand.
#[derive(Debug, Clone, Copy, PartialEq, Eq)]
pub enum FieldValue<'a> {
    Varint(u64),
    Fixed64([u8; 8]),
    Bytes(&'a [u8]),
    Fixed32([u8; 4]),
}

/// How a value is spelled.
#[derive(Clone, Copy)]
enum WireType {
    Varint,
    Fixed64,
    Sized,
    Fixed32,
}

impl WireType {
    fn new(kind: u8) -> Result<WireType, Flaw>
        ensures { result ≡ wire_type_of kind }
    {
        match kind {
            0 => Ok(WireType::Varint),
            1 => Ok(WireType::Fixed64),
            2 => Ok(WireType::Sized),
            5 => Ok(WireType::Fixed32),
            _ => Err(Flaw::BadKind(kind)),
        }
    }
}

/// The number and the value of the field at the front, and how many bytes it takes.
#[tactic(auto, unfolding(crate::specs::Fields::field_in))]
pub(crate) fn read_field<'a>(bytes: &'a [u8]) -> Result<(u32, FieldValue<'a>, usize), Flaw>
    ensures value { GivesAs (λ f. (f.0, seen_value f.1, f.2)) result (field_in bytes.now) }
    ensures within { IfOk result (λ f. f.2 ≤ length bytes.now) }
{
    let (number, wire_type, taken) = read_tag(bytes)?;
    let (value, size) = read_value(wire_type, &bytes[taken..])?;
    Ok((number, value, taken + size))
}

#[tactic(auto, unfolding(crate::specs::Fields::tag_in))]
fn read_tag(bytes: &[u8]) -> Result<(u32, WireType, usize), Flaw>
    ensures value { result ≡ tag_in bytes.now }
    ensures within { IfOk result (λ tag. tag.2 ≤ length bytes.now) }
{
    let (tag, taken) = read_varint(bytes)?;
    let (number, wire_type) = split_tag(tag)?;
    Ok((number, wire_type, taken))
}

#[tactic(auto, unfolding(crate::specs::Fields::tag_parts))]
fn split_tag(tag: u64) -> Result<(u32, WireType), Flaw>
    ensures { result ≡ tag_parts tag }
{
    if tag > 0xffff_ffff {
        return Err(Flaw::Long);
    }
    let wire_type = WireType::new((tag % 8) as u8)?;
    let number = (tag / 8) as u32;
    if number == 0 {
        return Err(Flaw::ZeroField);
    }
    Ok((number, wire_type))
}

#[tactic(auto, unfolding(crate::specs::Fields::value_in))]
fn read_value<'a>(wire_type: WireType, bytes: &'a [u8]) -> Result<(FieldValue<'a>, usize), Flaw>
    ensures value { GivesAs (λ v. (seen_value v.0, v.1)) result (value_in wire_type bytes.now) }
    ensures within { IfOk result (λ v. v.1 ≤ length bytes.now) }
{
    match wire_type {
        WireType::Varint => read_number(bytes),
        WireType::Fixed64 => read_fixed64(bytes),
        WireType::Sized => read_sized(bytes),
        WireType::Fixed32 => read_fixed32(bytes),
    }
}

fn read_number<'a>(bytes: &'a [u8]) -> Result<(FieldValue<'a>, usize), Flaw>
    ensures value { GivesAs (λ v. (seen_value v.0, v.1)) result (varint_value_in bytes.now) }
    ensures within { IfOk result (λ v. v.1 ≤ length bytes.now) }
{
    let (n, taken) = read_varint(bytes)?;
    Ok((FieldValue::Varint(n), taken))
}

fn read_fixed64<'a>(bytes: &'a [u8]) -> Result<(FieldValue<'a>, usize), Flaw>
    ensures value { GivesAs (λ v. (seen_value v.0, v.1)) result (fixed64_in bytes.now) }
    ensures within { IfOk result (λ v. v.1 ≤ length bytes.now) }
{
    match bytes.split_first_chunk::<8>() {
        Some((chunk, _)) => Ok((FieldValue::Fixed64(*chunk), 8)),
        None => Err(Flaw::Cut),
    }
}

fn read_fixed32<'a>(bytes: &'a [u8]) -> Result<(FieldValue<'a>, usize), Flaw>
    ensures value { GivesAs (λ v. (seen_value v.0, v.1)) result (fixed32_in bytes.now) }
    ensures within { IfOk result (λ v. v.1 ≤ length bytes.now) }
{
    match bytes.split_first_chunk::<4>() {
        Some((chunk, _)) => Ok((FieldValue::Fixed32(*chunk), 4)),
        None => Err(Flaw::Cut),
    }
}

fn read_sized<'a>(bytes: &'a [u8]) -> Result<(FieldValue<'a>, usize), Flaw>
    ensures value { GivesAs (λ v. (seen_value v.0, v.1)) result (sized_in bytes.now) }
    ensures within { IfOk result (λ v. v.1 ≤ length bytes.now) }
{
    let (len, taken) = read_varint(bytes)?;
    let rest = &bytes[taken..];
    if len > rest.len() as u64 {
        return Err(Flaw::Cut);
    }
    let len = len as usize;
    Ok((FieldValue::Bytes(&rest[..len]), taken + len))
}

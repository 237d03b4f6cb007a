//! The values of columns in rows, from their texts, as MySQL stores them in a binlog.
ghost use Rattle.std.specs.Prelude.{◌≤◌};

use std::alloc::Global;
use vs_base::{ColumnKind, OutOfMemory, are_digits, digits_value};

/// The digits of a decimal that are stored together.
const GROUP: usize = 9;

/// The number that digits write; zero where they are none, or write a number of over 64 bits.
fn number(text: &[u8]) -> u64 {
    if are_digits(text) {
        digits_value(text).unwrap_or(0)
    } else {
        0
    }
}

/// The number of so many digits from a place on.
fn number_at(text: &[u8], from: usize, count: usize) -> u64 {
    if count <= text.len() && from <= text.len() - count {
        number(&text[from..from + count])
    } else {
        0
    }
}

/// A whole number, below zero in two's complement.
fn whole(text: &[u8]) -> u64 {
    match text {
        [b'-', digits @ ..] => 0u64.wrapping_sub(number(digits)),
        _ => number(text),
    }
}

/// Appends the lowest bytes of a number, the lowest first.
pub(crate) fn put_low(out: &mut Vec<u8>, n: u64, count: usize) -> Result<(), OutOfMemory>
    requires { count ≤ 8 }
{
    out.extend_from_slice(&n.to_le_bytes()[..count])?;
    Ok(())
}

/// The same, the highest of them first.
fn put_high(out: &mut Vec<u8>, n: u64, count: usize) -> Result<(), OutOfMemory>
    requires { count ≤ 8 }
{
    out.extend_from_slice(&n.to_be_bytes()[8 - count..])?;
    Ok(())
}

fn put_with_length(out: &mut Vec<u8>, text: &[u8], width: usize) -> Result<(), OutOfMemory>
    requires { width ≤ 8 }
{
    put_low(out, text.len() as u64, width)?;
    out.extend_from_slice(text)?;
    Ok(())
}

/// From the low end 5 bits of the day, 4 of the month, 15 of the year.
fn packed_date(text: &[u8]) -> u64 {
    let year = number_at(text, 0, 4);
    let month = number_at(text, 5, 2);
    let day = number_at(text, 8, 2);
    year.wrapping_mul(512)
        .wrapping_add(month.wrapping_mul(32))
        .wrapping_add(day)
}

/// The sign bit, 17 bits of thirteen times the year and the month, 5 of the day, 5 of the hour, 6 of
/// the minute, 6 of the second.
fn packed_datetime(text: &[u8]) -> u64 {
    let month = number_at(text, 0, 4)
        .wrapping_mul(13)
        .wrapping_add(number_at(text, 5, 2));
    let hour = month
        .wrapping_mul(32)
        .wrapping_add(number_at(text, 8, 2))
        .wrapping_mul(32)
        .wrapping_add(number_at(text, 11, 2));
    hour.wrapping_mul(64)
        .wrapping_add(number_at(text, 14, 2))
        .wrapping_mul(64)
        .wrapping_add(number_at(text, 17, 2))
        .wrapping_add(0x80_0000_0000)
}

/// Appends the fraction of a second with which a text ends, as an even number of digits.
fn put_fraction(out: &mut Vec<u8>, text: &[u8], digits: usize) -> Result<(), OutOfMemory>
    requires { digits ≤ 6 }
{
    let fraction = number_at(text, text.len().saturating_sub(digits), digits);
    let even = if digits % 2 == 1 {
        fraction.wrapping_mul(10)
    } else {
        fraction
    };
    put_high(out, even, (digits + 1) / 2)
}

fn put_timestamp(out: &mut Vec<u8>, text: &[u8], digits: usize) -> Result<(), OutOfMemory>
    requires { digits ≤ 6 }
{
    let behind = if digits == 0 { 0 } else { digits + 1 };
    let seconds = number_at(text, 0, text.len().saturating_sub(behind));
    put_high(out, seconds, 4)?;
    put_fraction(out, text, digits)
}

/// How many bytes so many digits of a group take.
fn group_size(digits: usize) -> usize
    ensures { result ≤ 4 }
{
    match digits {
        0 => 0,
        1 | 2 => 1,
        3 | 4 => 2,
        5 | 6 => 3,
        _ => 4,
    }
}

/// Appends digits in groups of nine, of which the last may be shorter.
fn put_groups(out: &mut Vec<u8>, digits: &[u8]) -> Result<(), OutOfMemory> {
    for group in digits.chunks(GROUP) {
        put_high(out, number(group), group_size(group.len()))?;
    }
    Ok(())
}

/// The digits before the point, filled up with zeros in front to so many.
fn filled(alloc: Global, digits: &[u8], count: usize) -> Result<Vec<u8>, OutOfMemory> {
    let mut all = Vec::new(alloc);
    for _ in digits.len()..count {
        all.push(b'0')?;
    }
    all.extend_from_slice(digits)?;
    Ok(all)
}

/// Appends stored bytes with the first bit turned, and all others too where the value is negative.
fn put_turned(out: &mut Vec<u8>, bytes: &[u8], negative: bool) -> Result<(), OutOfMemory> {
    let mut turn = 0x80u8;
    for byte in bytes {
        let stored = if negative { 255 - *byte } else { *byte };
        out.push(stored.wrapping_add(turn))?;
        turn = 0;
    }
    Ok(())
}

fn put_decimal(
    alloc: Global,
    out: &mut Vec<u8>,
    text: &[u8],
    precision: usize,
    scale: usize,
) -> Result<(), OutOfMemory> {
    let (negative, digits) = match text {
        [b'-', digits @ ..] => (true, digits),
        _ => (false, text),
    };
    let behind = scale.min(digits.len());
    let point = digits.len() - behind;
    let before = if scale == 0 {
        point
    } else {
        point.saturating_sub(1)
    };
    let count = precision.saturating_sub(scale);
    let front = filled(alloc, &digits[before.saturating_sub(count)..before], count)?;
    let first = front.len() % GROUP;
    let mut bytes = Vec::new(alloc);
    put_groups(&mut bytes, &front.as_slice()[..first])?;
    put_groups(&mut bytes, &front.as_slice()[first..])?;
    put_groups(&mut bytes, &digits[point..])?;
    put_turned(out, bytes.as_slice(), negative)
}

/// How many bytes the length of a text has whose greatest length is this.
fn width_of(length: u16) -> usize
    ensures { result ≤ 2 }
{
    if length <= 255 { 1 } else { 2 }
}

/// Appends the value of a column of this kind that has this text.
pub(crate) fn put_stored(
    alloc: Global,
    out: &mut Vec<u8>,
    kind: ColumnKind,
    text: &[u8],
) -> Result<(), OutOfMemory> {
    match kind {
        ColumnKind::TinyInt { .. } => put_low(out, whole(text), 1),
        ColumnKind::SmallInt { .. } => put_low(out, whole(text), 2),
        ColumnKind::MediumInt { .. } => put_low(out, whole(text), 3),
        ColumnKind::Int { .. } => put_low(out, whole(text), 4),
        ColumnKind::BigInt { .. } => put_low(out, whole(text), 8),
        ColumnKind::Date => put_low(out, packed_date(text), 3),
        ColumnKind::Timestamp { precision } => put_timestamp(out, text, fraction(precision)),
        ColumnKind::DateTime { precision } => {
            put_high(out, packed_datetime(text), 5)?;
            put_fraction(out, text, fraction(precision))
        }
        ColumnKind::Decimal { precision, scale } => {
            put_decimal(alloc, out, text, precision as usize, scale as usize)
        }
        ColumnKind::VarChar { length } | ColumnKind::VarBinary { length } => {
            put_with_length(out, text, width_of(length))
        }
        ColumnKind::Text | ColumnKind::Blob => put_with_length(out, text, 4),
        ColumnKind::Char { .. } | ColumnKind::Binary { .. } => put_with_length(out, text, 1),
    }
}

/// The digits of a fraction of a second: at most 6.
fn fraction(precision: u8) -> usize
    ensures { result ≤ 6 }
{
    (precision as usize).min(6)
}

/// The number of the type that a log gives to columns of this kind.
pub(crate) fn code_of(kind: ColumnKind) -> u8 {
    match kind {
        ColumnKind::TinyInt { .. } => 1,
        ColumnKind::SmallInt { .. } => 2,
        ColumnKind::MediumInt { .. } => 9,
        ColumnKind::Int { .. } => 3,
        ColumnKind::BigInt { .. } => 8,
        ColumnKind::Date => 10,
        ColumnKind::VarChar { .. } | ColumnKind::VarBinary { .. } => 15,
        ColumnKind::Timestamp { .. } => 17,
        ColumnKind::DateTime { .. } => 18,
        ColumnKind::Decimal { .. } => 246,
        ColumnKind::Text | ColumnKind::Blob => 252,
        ColumnKind::Char { .. } | ColumnKind::Binary { .. } => 254,
    }
}

/// Appends the metadata of a column of this kind.
pub(crate) fn put_meta(out: &mut Vec<u8>, kind: ColumnKind) -> Result<(), OutOfMemory> {
    match kind {
        ColumnKind::VarChar { length } | ColumnKind::VarBinary { length } => {
            out.extend_from_slice(&length.to_le_bytes())?
        }
        ColumnKind::Timestamp { precision } | ColumnKind::DateTime { precision } => {
            out.push(precision)?
        }
        ColumnKind::Decimal { precision, scale } => out.extend_from_slice(&[precision, scale])?,
        ColumnKind::Text | ColumnKind::Blob => out.push(4)?,
        ColumnKind::Char { length } | ColumnKind::Binary { length } => {
            out.extend_from_slice(&[254, length])?
        }
        _ => {}
    }
    Ok(())
}

//! Whole numbers in columns, by their decimal texts.
ghost use Rattle.std.specs.Prelude.{◌≡◌, ◌≤◌, ◌^◌, IfSome, is_some, min};
ghost use Rattle.std.specs.List.{list_all};
ghost use Rattle.vs_base.specs.Numbers.{
  below_zero,
  digits_value,
  from_zero,
  is_digit,
  is_numeral,
  number_of,
  small_value,
  whole_range,
};

use crate::ColumnKind;

/// The least number that is in no column.
const BEYOND: u128 = 1 << 64;

/// How many numbers a kind of whole numbers has below zero, and how many from zero on.
fn whole_range(kind: ColumnKind) -> Option<(u128, u128)>
    ensures is { result ≡ whole_range kind }
    ensures within { IfSome result (λ r. (r.0 ≤ 2 ^ 63) × (r.1 ≤ 2 ^ 64)) }
{
    match kind {
        ColumnKind::TinyInt { unsigned: true } => Some((0, 1 << 8)),
        ColumnKind::TinyInt { unsigned: false } => Some((1 << 7, 1 << 7)),
        ColumnKind::SmallInt { unsigned: true } => Some((0, 1 << 16)),
        ColumnKind::SmallInt { unsigned: false } => Some((1 << 15, 1 << 15)),
        ColumnKind::MediumInt { unsigned: true } => Some((0, 1 << 24)),
        ColumnKind::MediumInt { unsigned: false } => Some((1 << 23, 1 << 23)),
        ColumnKind::Int { unsigned: true } => Some((0, 1 << 32)),
        ColumnKind::Int { unsigned: false } => Some((1 << 31, 1 << 31)),
        ColumnKind::BigInt { unsigned: true } => Some((0, 1 << 64)),
        ColumnKind::BigInt { unsigned: false } => Some((1 << 63, 1 << 63)),
        _ => None,
    }
}

/// Whether the kind has whole numbers.
pub fn is_whole(kind: ColumnKind) -> bool
    ensures { result ≡ is_some (whole_range kind) }
{
    whole_range(kind).is_some()
}

/// Whether the byte is a decimal digit.
pub fn is_digit(byte: u8) -> bool
    ensures { result ≡ is_digit byte }
{
    b'0' <= byte && byte <= b'9'
}

/// Whether each byte is a decimal digit.
pub fn are_digits(text: &[u8]) -> bool
    ensures { result ≡ list_all is_digit text.now }
{
    text.iter().all(|byte| is_digit(*byte))
}

/// Whether the bytes are digits without a zero in front, but for 0 itself.
fn is_numeral(text: &[u8]) -> bool
    ensures { result ≡ is_numeral text.now }
{
    match text {
        [] => false,
        [digit] => is_digit(*digit),
        [first, ..] => are_digits(text) && *first != b'0',
    }
}

/// The value of digits, or 2^64 where it is no less.
fn value_of(digits: &[u8]) -> u128
    ensures { result ≡ min (digits_value digits.now) (2 ^ 64) }
{
    let mut value = 0;
    for digit in digits {
        value = (10 * value + digit.saturating_sub(b'0') as u128).min(BEYOND);
    }
    value
}

/// The value of digits, where it is below 2^64.
pub fn digits_value(digits: &[u8]) -> Option<u64>
    ensures { result ≡ small_value digits.now }
{
    let value = value_of(digits);
    if value < BEYOND {
        Some(value as u64)
    } else {
        None
    }
}

fn below_zero(count: u128, digits: &[u8]) -> Option<i128>
    requires { count ≤ 2 ^ 63 }
    ensures { result ≡ below_zero count digits.now }
{
    if !is_numeral(digits) {
        return None;
    }
    let value = value_of(digits);
    if 1 <= value && value <= count {
        Some(-(value as i128))
    } else {
        None
    }
}

fn from_zero(count: u128, digits: &[u8]) -> Option<i128>
    requires { count ≤ 2 ^ 64 }
    ensures { result ≡ from_zero count digits.now }
{
    if !is_numeral(digits) {
        return None;
    }
    let value = value_of(digits);
    if value < count {
        Some(value as i128)
    } else {
        None
    }
}

/// The number of the kind whose decimal text this is.
pub fn number_of(kind: ColumnKind, text: &[u8]) -> Option<i128>
    ensures { result ≡ number_of kind text.now }
{
    let (below, from) = whole_range(kind)?;
    match text {
        [] => None,
        [b'-', digits @ ..] => below_zero(below, digits),
        _ => from_zero(from, text),
    }
}

//! Decimals, as MySQL packs them.
ghost use Rattle.std.specs.Prelude.{◌≡◌, ◌≤◌, ◌<◌, ◌⊎◌, ◌+◌, ◌*◌, ◌^◌, ◌++◌, ◌-◌, IfOk, OnErr, OnOk, drop, length, map, take};
ghost use Rattle.byteorder.specs.Endian.{big_number};
ghost use Rattle.vs_columns.specs.Decimals.{
  decimal_size,
  decimal_text,
  fit_nines,
  fits_group,
  fits_scale,
  fits_whole,
  group_digits,
  group_size,
  nines_digits,
  plain,
  scale_digits,
  scale_size,
  scale_text,
  sign_text,
  whole_digits,
  whole_size,
  whole_text,
};
ghost use Rattle.vs_columns.specs.Digits.{begun_by, shown};
ghost use Rattle.vs_columns.specs.Values.{done, said};

use crate::ValueRefusal;
use crate::digits::{behind, nine_digits, shown};
use byteorder::{BigEndian, ByteOrder};
use vs_base::OutOfMemory;

/// The bytes of a decimal of so many digits, so many of them behind the point.
pub(crate) fn decimal_size(precision: u8, scale: u8) -> usize
    ensures { result ≡ decimal_size precision scale }
{
    let whole = precision.saturating_sub(scale) as usize;
    whole_size(whole) + scale_size(scale as usize)
}

fn whole_size(digits: usize) -> usize
    requires { digits ≤ 255 }
    ensures { result ≡ whole_size digits }
{
    group_size(digits % 9) + 4 * (digits / 9)
}

fn scale_size(digits: usize) -> usize
    requires { digits ≤ 255 }
    ensures { result ≡ scale_size digits }
{
    4 * (digits / 9) + group_size(digits % 9)
}

fn group_size(digits: usize) -> usize
    requires { digits ≤ 9 }
    ensures { result ≡ group_size digits }
{
    ((digits + 1) / 2).min(4)
}

/// Appends a decimal of so many digits, so many of them behind the point.
pub(crate) fn push_decimal(
    body: &[u8],
    precision: u8,
    scale: u8,
    out: &mut Vec<u8>,
) -> Result<(), ValueRefusal>
    requires some { 1 ≤ precision }
    requires few { precision ≤ 65 }
    requires scale { scale ≤ precision }
    requires size { length body.now ≡ decimal_size precision scale }
    ensures told { (result ≡ Err ValueRefusal.Memory) ⊎ (result ≡ done (decimal_text precision scale body.now)) }
    ensures ok { OnOk result (out.new.items ≡ out.old.items ++ said (decimal_text precision scale body.now)) }
    ensures err { OnErr result (take (length out.old.items) out.new.items ≡ out.old.items) }
{
    let whole = (precision - scale) as usize;
    let scale = scale as usize;
    let mut copy = [0; 36];
    let bytes = &mut copy[..body.len()];
    bytes.copy_from_slice(body);
    make_plain(bytes);
    let rest = behind(bytes, whole_size(whole));
    if !fits_whole(bytes, whole) || !fits_scale(rest, scale) {
        return Err(ValueRefusal::BadValue);
    }
    push_sign(body[0] < 128, out)?;
    push_whole(bytes, whole, out)?;
    push_scale(rest, scale, out)?;
    Ok(())
}

fn push_sign(negative: bool, out: &mut Vec<u8>) -> Result<(), OutOfMemory>
    ensures ok { OnOk result (out.new.items ≡ out.old.items ++ sign_text negative) }
    ensures err { OnErr result (out.new.items ≡ out.old.items) }
{
    if negative {
        out.push(b'-')?;
    }
    Ok(())
}

/// Turns the bytes of a decimal into those of its digits.
fn make_plain(bytes: &mut [u8])
    requires { 1 ≤ length bytes.old }
    ensures { bytes.new ≡ plain bytes.old }
{
    if bytes[0] < 128 {
        flip(bytes);
    }
    bytes[0] -= 128;
}

/// Flips each bit.
fn flip(bytes: &mut [u8])
    ensures { bytes.new ≡ map (λ x. 255 - x) bytes.old }
{
    for byte in bytes.iter_mut() {
        *byte = 255 - *byte;
    }
}

#[tactic(auto, unfolding(crate::specs::Decimals::fits_whole))]
fn fits_whole(bytes: &[u8], digits: usize) -> bool
    requires few { digits ≤ 65 }
    requires size { whole_size digits ≤ length bytes.now }
    ensures { result ≡ fits_whole digits bytes.now }
{
    let first = digits % 9;
    fits_group(bytes, first) && fit_nines(behind(bytes, group_size(first)), digits / 9)
}

#[tactic(auto, unfolding(crate::specs::Decimals::fits_scale))]
fn fits_scale(bytes: &[u8], digits: usize) -> bool
    requires few { digits ≤ 65 }
    requires size { scale_size digits ≤ length bytes.now }
    ensures { result ≡ fits_scale digits bytes.now }
{
    let nines = digits / 9;
    fit_nines(bytes, nines) && fits_group(behind(bytes, 4 * nines), digits % 9)
}

#[tactic(auto, unfolding(crate::specs::Decimals::fit_nines))]
fn fit_nines(bytes: &[u8], count: usize) -> bool
    requires few { count ≤ 7 }
    requires size { 4 * count ≤ length bytes.now }
    ensures { result ≡ fit_nines count bytes.now }
{
    count == 0 || fits_group(bytes, 9) && fit_nines(behind(bytes, 4), count - 1)
}

#[tactic(auto, unfolding(crate::specs::Decimals::fits_group))]
fn fits_group(bytes: &[u8], digits: usize) -> bool
    requires few { digits ≤ 9 }
    requires size { group_size digits ≤ length bytes.now }
    ensures { result ≡ fits_group digits bytes.now }
{
    group_number(bytes, digits) < power_of_ten(digits)
}

fn group_number(bytes: &[u8], digits: usize) -> u64
    requires few { digits ≤ 9 }
    requires size { group_size digits ≤ length bytes.now }
    ensures { result ≡ big_number (group_size digits) bytes.now }
{
    if digits == 0 {
        return 0;
    }
    BigEndian::read_uint(bytes, group_size(digits))
}

fn power_of_ten(digits: usize) -> u64
    requires { digits ≤ 9 }
    ensures { result ≡ 10 ^ digits }
{
    match digits {
        0 => 1,
        1 => 10,
        2 => 100,
        3 => 1_000,
        4 => 10_000,
        5 => 100_000,
        6 => 1_000_000,
        7 => 10_000_000,
        8 => 100_000_000,
        _ => 1_000_000_000,
    }
}

/// Appends the digits in front of the point, without zeros in front of others.
#[tactic(auto, unfolding(crate::specs::Decimals::whole_digits), using(crate::proofs::KeptLemmas::kept_behind))]
fn push_whole(bytes: &[u8], digits: usize, out: &mut Vec<u8>) -> Result<(), OutOfMemory>
    requires few { digits ≤ 65 }
    requires size { whole_size digits ≤ length bytes.now }
    ensures ok { OnOk result (out.new.items ≡ out.old.items ++ whole_text digits bytes.now) }
    ensures err { OnErr result (take (length out.old.items) out.new.items ≡ out.old.items) }
{
    let first = digits % 9;
    let begun = push_group(bytes, first, false, out)?;
    let begun = push_nines(behind(bytes, group_size(first)), digits / 9, begun, out)?;
    if !begun {
        out.push(b'0')?;
    }
    Ok(())
}

/// Appends a point and the digits behind it, if there are any.
#[tactic(auto, unfolding(crate::specs::Decimals::scale_digits))]
fn push_scale(bytes: &[u8], digits: usize, out: &mut Vec<u8>) -> Result<(), OutOfMemory>
    requires few { digits ≤ 65 }
    requires size { scale_size digits ≤ length bytes.now }
    ensures ok { OnOk result (out.new.items ≡ out.old.items ++ scale_text digits bytes.now) }
    ensures err { OnErr result (take (length out.old.items) out.new.items ≡ out.old.items) }
{
    if digits == 0 {
        return Ok(());
    }
    let nines = digits / 9;
    out.push(b'.')?;
    push_nines(bytes, nines, true, out)?;
    push_group(behind(bytes, 4 * nines), digits % 9, true, out)?;
    Ok(())
}

/// Appends so many groups of nine digits, and answers whether a digit but 0 has been shown by then.
#[tactic(auto, unfolding(crate::specs::Decimals::nines_digits))]
fn push_nines(
    bytes: &[u8],
    count: usize,
    begun: bool,
    out: &mut Vec<u8>,
) -> Result<bool, OutOfMemory>
    requires few { count ≤ 7 }
    requires size { 4 * count ≤ length bytes.now }
    ensures ok { OnOk result (out.new.items ≡ out.old.items ++ shown begun (nines_digits count bytes.now)) }
    ensures begun { IfOk result (λ b. b ≡ begun_by begun (nines_digits count bytes.now)) }
    ensures err { OnErr result (take (length out.old.items) out.new.items ≡ out.old.items) }
{
    if count == 0 {
        return Ok(begun);
    }
    let begun = push_group(bytes, 9, begun, out)?;
    push_nines(behind(bytes, 4), count - 1, begun, out)
}

/// Appends the digits of a group, from the first that isn't 0 where no such digit has been shown.
fn push_group(
    bytes: &[u8],
    digits: usize,
    begun: bool,
    out: &mut Vec<u8>,
) -> Result<bool, OutOfMemory>
    requires few { digits ≤ 9 }
    requires size { group_size digits ≤ length bytes.now }
    ensures ok { OnOk result (out.new.items ≡ out.old.items ++ shown begun (group_digits digits bytes.now)) }
    ensures begun { IfOk result (λ b. b ≡ begun_by begun (group_digits digits bytes.now)) }
    ensures err { OnErr result (out.new.items ≡ out.old.items) }
{
    let all = nine_digits(group_number(bytes, digits));
    let shown = shown(behind(&all, 9 - digits), begun);
    out.extend_from_slice(shown)?;
    Ok(begun || !shown.is_empty())
}

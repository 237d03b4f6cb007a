//! Select texts cut into their parts.
ghost use Rattle.std.specs.Prelude.{◌∷◌, ◌≡◌, false, true, ◌≤◌, IfOk, length, option_map};
ghost use Rattle.std.specs.List.{prefix_len, take_while};
ghost use Rattle.vs_select.specs.declared.part.Part.TheVariants.{Bytes, Quoted, Word};
ghost use Rattle.vs_select.specs.Parts.{
  behind,
  closed,
  is_blank,
  is_word_byte,
  left_at,
  long_sign,
  next_part,
  number_of_run,
  part_at,
  run_at,
  short_sign,
  sign_at,
  up_to_backquote,
  up_to_quote,
};

use crate::Comparison;
use crate::part::Part;
use std::alloc::Global;
use vs_base::{OutOfMemory, Text, are_digits, digits_value, is_digit};

/// The next part of a text, how much of the text is left where it begins, and the text behind it.
#[derive(Drop)]
pub(crate) struct Cut<'a> {
    pub left: usize,
    pub part: Part,
    pub rest: &'a [u8],
}

fn is_blank(byte: u8) -> bool
    ensures { result ≡ is_blank byte }
{
    byte == b' ' || (byte == b'\t' || (byte == b'\r' || byte == b'\n'))
}

fn is_word_byte(byte: u8) -> bool
    ensures { result ≡ is_word_byte byte }
{
    ((b'A' <= byte && byte <= b'Z') || (b'a' <= byte && byte <= b'z'))
        || (is_digit(byte) || byte == b'_')
}

fn behind_blanks(text: &[u8]) -> &[u8]
    ensures { result.now ≡ behind is_blank text.now }
{
    let mut count = 0;
    while count < text.len() && is_blank(text[count]) {
        count += 1;
    }
    &text[count..]
}

/// The bytes up to the closing backquote, and the text behind it.
#[tactic(auto, using(crate::proofs::QuoteLemmas::with_front_none, crate::proofs::QuoteLemmas::with_front_more))]
fn up_to_backquote(alloc: Global, text: &[u8]) -> Result<Option<(Vec<u8>, &[u8])>, OutOfMemory>
    ensures { IfOk result (λ o. option_map (λ p. (p.0.items, p.1.now)) o ≡ up_to_backquote text.now) }
{
    let mut name = Vec::new(alloc);
    let mut left = text;
    while let [byte, rest @ ..] = left {
        if *byte == b'`' {
            return Ok(Some((name, rest)));
        }
        name.push(*byte)?;
        left = rest;
    }
    Ok(None)
}

/// The bytes up to the closing quote, and the text behind it. Two quotes stand for one.
#[tactic(auto, using(crate::proofs::QuoteLemmas::with_front_none, crate::proofs::QuoteLemmas::with_front_more))]
fn up_to_quote(alloc: Global, text: &[u8]) -> Result<Option<(Vec<u8>, &[u8])>, OutOfMemory>
    ensures { IfOk result (λ o. option_map (λ p. (p.0.items, p.1.now)) o ≡ up_to_quote false text.now) }
{
    let mut bytes = Vec::new(alloc);
    let mut left = text;
    loop {
        match left {
            [] => return Ok(None),
            [b'\'', b'\'', rest @ ..] => {
                bytes.push(b'\'')?;
                left = rest;
            }
            [b'\'', rest @ ..] => return Ok(Some((bytes, rest))),
            [byte, rest @ ..] => {
                bytes.push(*byte)?;
                left = rest;
            }
        }
    }
}

/// The letters, digits and `_` that stand there, and the text behind them.
fn run_at(text: &[u8]) -> (&[u8], &[u8])
    ensures run { result.0.now ≡ take_while is_word_byte text.now }
    ensures rest { result.1.now ≡ behind is_word_byte text.now }
{
    let mut count = 0;
    while count < text.len() && is_word_byte(text[count]) {
        count += 1;
    }
    (&text[..count], &text[count..])
}

fn long_sign(first: u8, second: u8) -> Option<Comparison>
    ensures { result ≡ long_sign first second }
{
    match (first, second) {
        (b'!', b'=') | (b'<', b'>') => Some(Comparison::NotEqual),
        (b'<', b'=') => Some(Comparison::AtMost),
        (b'>', b'=') => Some(Comparison::AtLeast),
        _ => None,
    }
}

fn short_sign(first: u8) -> Option<Comparison>
    ensures { result ≡ short_sign first }
{
    match first {
        b'=' => Some(Comparison::Equal),
        b'<' => Some(Comparison::Less),
        b'>' => Some(Comparison::Greater),
        _ => None,
    }
}

/// The longest operator that begins with this byte, and the text behind it.
fn sign_at(first: u8, rest: &[u8]) -> (Part, &[u8])
    ensures { (result.0, result.1.now) ≡ sign_at first rest.now }
{
    if let [second, behind @ ..] = rest
        && let Some(by) = long_sign(first, *second)
    {
        return (Part::Sign(by), behind);
    }
    match short_sign(first) {
        Some(by) => (Part::Sign(by), rest),
        None => (Part::Wrong, rest),
    }
}

/// A run of letters, digits and `_` as a number.
fn number_of_run(negative: bool, run: &[u8]) -> Part
    ensures { result ≡ number_of_run negative run.now }
{
    if !(are_digits(run) && (1 <= run.len() && run.len() <= 19)) {
        return Part::Wrong;
    }
    match digits_value(run) {
        Some(size) => Part::Number { negative, size },
        None => Part::Wrong,
    }
}

/// A name between backquotes, and the text behind it; an unclosed one takes all.
fn quoted_at(alloc: Global, text: &[u8]) -> Result<(Part, &[u8]), OutOfMemory>
    ensures { IfOk result (λ r. (r.0, r.1.now) ≡ closed Quoted (up_to_backquote text.now)) }
{
    match up_to_backquote(alloc, text)? {
        Some((name, rest)) => Ok((Part::Quoted(Text::from_vec(name)), rest)),
        None => Ok((Part::Unclosed, b"")),
    }
}

/// Bytes between quotes, likewise.
fn bytes_at(alloc: Global, text: &[u8]) -> Result<(Part, &[u8]), OutOfMemory>
    ensures { IfOk result (λ r. (r.0, r.1.now) ≡ closed Bytes (up_to_quote false text.now)) }
{
    match up_to_quote(alloc, text)? {
        Some((bytes, rest)) => Ok((Part::Bytes(Text::from_vec(bytes)), rest)),
        None => Ok((Part::Unclosed, b"")),
    }
}

fn number_at(negative: bool, text: &[u8]) -> (Part, &[u8])
    ensures { (result.0, result.1.now) ≡ run_at (number_of_run negative) text.now }
{
    let (run, rest) = run_at(text);
    (number_of_run(negative, run), rest)
}

fn word_at(alloc: Global, text: &[u8]) -> Result<(Part, &[u8]), OutOfMemory>
    ensures { IfOk result (λ r. (r.0, r.1.now) ≡ run_at Word text.now) }
{
    let (run, rest) = run_at(text);
    Ok((Part::Word(Text::from_bytes(alloc, run)?), rest))
}

/// The part with which a text begins that has no blank in front, and the text behind it.
fn part_at<'a>(
    alloc: Global,
    text: &'a [u8],
    first: u8,
    tail: &'a [u8],
) -> Result<(Part, &'a [u8]), OutOfMemory>
    requires { text.now ≡ first ∷ tail.now }
    ensures { IfOk result (λ r. (r.0, r.1.now) ≡ part_at first tail.now) }
{
    match first {
        b'`' => quoted_at(alloc, tail),
        b'\'' => bytes_at(alloc, tail),
        b'*' => Ok((Part::Star, tail)),
        b',' => Ok((Part::Comma, tail)),
        b'-' => Ok(number_at(true, tail)),
        _ if is_digit(first) => Ok(number_at(false, text)),
        _ if is_word_byte(first) => word_at(alloc, text),
        _ => Ok(sign_at(first, tail)),
    }
}

/// How much of a text is left where a part begins; what isn't closed is missed at the text's end.
fn left_at(part: &Part, left: usize) -> usize
    ensures { result ≡ left_at part.now left }
{
    match part {
        Part::Unclosed => 0,
        _ => left,
    }
}

/// The next part of a text; none at its end.
pub(crate) fn next_part(alloc: Global, text: &[u8]) -> Result<Option<Cut<'_>>, OutOfMemory>
    ensures { IfOk result (λ o. option_map (λ c. (c.left, (c.part, c.rest.now))) o ≡ next_part text.now) }
{
    let text = behind_blanks(text);
    let [first, tail @ ..] = text else {
        return Ok(None);
    };
    let (part, rest) = part_at(alloc, text, *first, tail)?;
    let left = left_at(&part, text.len());
    Ok(Some(Cut { left, part, rest }))
}

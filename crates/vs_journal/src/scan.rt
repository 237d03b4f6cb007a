//! Journal texts cut into their tokens.
ghost use Rattle.std.specs.Prelude.{◌∷◌, ◌≡◌, ◌≤◌, false, true, zero, IfOk, length, option_map};
ghost use Rattle.std.specs.List.{take_while};
ghost use Rattle.vs_base.specs.Blanks.{is_blank};
ghost use Rattle.vs_journal.specs.declared.token.Token.TheVariants.{Word};
ghost use Rattle.vs_journal.specs.Tokens.{
  gap_behind,
  is_identifier_byte,
  mark_of,
  next_token,
  number_token,
  past_gap,
  past_run,
  place_left,
  run_token,
  string_from,
  string_token,
  token_at,
};

use crate::escape::{Escape, escape_at};
use crate::token::{Bracket, Token};
use std::alloc::Global;
use vs_base::{OutOfMemory, Text, are_digits, digits_value, is_digit};

/// The next token of a text, how much of the text is left where it begins, and the text behind it.
#[derive(Drop)]
pub(crate) struct Cut<'a> {
    pub left: usize,
    pub token: Token,
    pub rest: &'a [u8],
}

fn is_blank(byte: u8) -> bool
    ensures { result ≡ is_blank byte }
{
    byte == b' ' || (byte == b'\t' || (byte == b'\r' || byte == b'\n'))
}

fn is_identifier_byte(byte: u8) -> bool
    ensures { result ≡ is_identifier_byte byte }
{
    (b'A' <= byte && byte <= b'Z')
        || ((b'a' <= byte && byte <= b'z') || (is_digit(byte) || byte == b'_'))
}

/// Whether the byte belongs to a gap between tokens, and whether a comment is open behind it.
fn gap_behind(comment: bool, byte: u8) -> Option<bool>
    ensures { result ≡ gap_behind comment byte }
{
    if comment {
        return Some(byte != b'\n');
    }
    if byte == b'#' {
        return Some(true);
    }
    if is_blank(byte) { Some(false) } else { None }
}

/// The text without the blanks and comments that it begins with.
fn past_gap(text: &[u8]) -> &[u8]
    ensures { result.now ≡ past_gap false text.now }
{
    let mut comment = false;
    let mut left = text;
    while let [byte, rest @ ..] = left {
        match gap_behind(comment, *byte) {
            Some(more) => comment = more,
            None => return left,
        }
        left = rest;
    }
    left
}

/// The letters, digits and `_` that stand there, and the text behind them.
fn run_at(text: &[u8]) -> (&[u8], &[u8])
    ensures run { result.0.now ≡ take_while is_identifier_byte text.now }
    ensures rest { result.1.now ≡ past_run text.now }
{
    let mut count = 0;
    while count < text.len() && is_identifier_byte(text[count]) {
        count += 1;
    }
    (&text[..count], &text[count..])
}

/// The bytes up to the closing quote, and the text behind it; or how much of the text is left where
/// it is no string.
#[tactic(auto, using(crate::proofs::ScanLemmas::with_front_none, crate::proofs::ScanLemmas::with_front_more, crate::proofs::ScanLemmas::with_front_escaped))]
fn string_at(alloc: Global, quote: u8, text: &[u8]) -> Result<(Token, &[u8]), OutOfMemory>
    ensures { IfOk result (λ r. (r.0, r.1.now) ≡ string_token (string_from quote zero text.now)) }
{
    let mut bytes = Vec::new(alloc);
    let mut left = text;
    while let [byte, rest @ ..] = left {
        if *byte == quote {
            return Ok((Token::Bytes(Text::from_vec(bytes)), rest));
        }
        if *byte == b'\\' {
            match escape_at(rest) {
                Escape::Stands { value, width } => {
                    bytes.push(value)?;
                    left = &rest[width..];
                }
                Escape::Unknown => return Ok((Token::Faulty { left: left.len() }, b"")),
                Escape::Cut => return Ok((Token::Faulty { left: 0 }, b"")),
            }
        } else {
            bytes.push(*byte)?;
            left = rest;
        }
    }
    Ok((Token::Faulty { left: 0 }, b""))
}

/// A run of letters, digits and `_` as a number.
fn number_token(negative: bool, run: &[u8]) -> Token
    ensures { result ≡ number_token negative run.now }
{
    if are_digits(run) && 1 <= run.len() {
        Token::Number {
            negative,
            size: digits_value(run),
        }
    } else {
        Token::Wrong
    }
}

fn number_at(negative: bool, text: &[u8]) -> (Token, &[u8])
    ensures { (result.0, result.1.now) ≡ run_token (number_token negative) text.now }
{
    let (run, rest) = run_at(text);
    (number_token(negative, run), rest)
}

fn word_at(alloc: Global, text: &[u8]) -> Result<(Token, &[u8]), OutOfMemory>
    ensures { IfOk result (λ r. (r.0, r.1.now) ≡ run_token Word text.now) }
{
    let (run, rest) = run_at(text);
    Ok((Token::Word(Text::from_bytes(alloc, run)?), rest))
}

/// The token of one byte.
fn mark_of(byte: u8) -> Token
    ensures { result ≡ mark_of byte }
{
    match byte {
        b':' => Token::Colon,
        b',' => Token::Comma,
        b';' => Token::Semicolon,
        b'[' => Token::OpenList,
        b']' => Token::CloseList,
        b'{' => Token::Open(Bracket::Curly),
        b'}' => Token::Close(Bracket::Curly),
        b'<' => Token::Open(Bracket::Angle),
        b'>' => Token::Close(Bracket::Angle),
        _ => Token::Wrong,
    }
}

/// The token with which a text begins that has no gap in front, and the text behind it.
fn token_at<'a>(
    alloc: Global,
    text: &'a [u8],
    first: u8,
    tail: &'a [u8],
) -> Result<(Token, &'a [u8]), OutOfMemory>
    requires { text.now ≡ first ∷ tail.now }
    ensures { IfOk result (λ r. (r.0, r.1.now) ≡ token_at first tail.now) }
{
    if first == b'"' || first == b'\'' {
        return string_at(alloc, first, tail);
    }
    if first == b'-' {
        return Ok(number_at(true, past_gap(tail)));
    }
    if is_digit(first) {
        return Ok(number_at(false, text));
    }
    if is_identifier_byte(first) {
        return word_at(alloc, text);
    }
    Ok((mark_of(first), tail))
}

/// How much of a text is left where a token begins; what is no string shows further on.
fn place_left(token: &Token, here: usize) -> usize
    ensures { result ≡ place_left token.now here }
{
    match token {
        Token::Faulty { left } => *left,
        _ => here,
    }
}

/// The next token of a text; none at its end.
pub(crate) fn next_token(alloc: Global, text: &[u8]) -> Result<Option<Cut<'_>>, OutOfMemory>
    ensures { IfOk result (λ o. option_map (λ c. (c.left, (c.token, c.rest.now))) o ≡ next_token text.now) }
{
    let text = past_gap(text);
    let [first, tail @ ..] = text else {
        return Ok(None);
    };
    let (token, rest) = token_at(alloc, text, *first, tail)?;
    let left = place_left(&token, text.len());
    Ok(Some(Cut { left, token, rest }))
}

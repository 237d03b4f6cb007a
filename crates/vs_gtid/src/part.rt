//! What may come next in the text of a set, byte by byte.
ghost use Rattle.std.specs.Prelude.{
  ◌≡◌,
  ◌+◌,
  ◌-◌,
  ◌*◌,
  ◌^◌,
  ◌≤◌,
  ◌<◌,
  length,
  take,
  [],
  ◌∷◌,
  true,
  ℕ,
  IfSome,
  MatchOption,
};
ghost use Rattle.std.specs.Char.{digit_value, is_ascii_digit};
ghost use Rattle.uuid.specs.Text.{is_hex_digit, parsed_hyphenated};
ghost use Rattle.vs_gtid.specs.SetTexts.{is_blank};
ghost use Rattle.vs_gtid.specs.Parts.{
  begun,
  behind_item,
  behind_span,
  fits_uuid,
  goes_on,
  in_first,
  in_gap,
  in_last,
  in_opening,
  in_prefix,
  in_uuid,
  may_end,
  next,
  span,
  with_digit,
  IsWithin,
};

use crate::Interval;
use crate::span::Span;
use uuid::Uuid;

/// What comes next in a text.
#[derive(Clone, Copy)]
pub(crate) enum Part {
    /// The rest of the prefix, of which so many bytes came.
    Prefix {
        count: usize,
    },
    /// The prefix at the very front, a blank in front of the items, the first item, or the end.
    Opening,
    /// A blank behind a comma, or an item.
    Gap,
    /// The rest of a UUID that begins at this place, or the colon behind it.
    UuidText {
        from: usize,
    },
    /// A digit of a span's first number, which begins at this place, or what follows the number.
    First {
        uuid: [u8; 16],
        from: usize,
        number: u64,
    },
    /// The same of a span's last number.
    Last {
        uuid: [u8; 16],
        first: u64,
        first_at: usize,
        from: usize,
        number: u64,
    },
    /// A blank behind the items, a comma, or the end.
    Closing,
}

const PREFIX: &[u8; 8] = b"MySQL56/";

impl Part {
    /// What comes behind the byte at this place, or none where that byte doesn't fit.
    pub(crate) fn next(self, text: &[u8], at: usize, byte: u8) -> Option<Part>
        requires place { at < length text.now }
        requires within { IsWithin at self }
        ensures next { result ≡ next (take at text.now) self byte }
        ensures within { IfSome result (λ p. IsWithin (at + 1) p) }
    {
        match self {
            Part::Prefix { count } => in_prefix(count, byte),
            Part::Opening => in_opening(at, byte),
            Part::Gap => in_gap(at, byte),
            Part::UuidText { from } => in_uuid(&text[from..at], from, byte),
            Part::First { uuid, from, number } => in_first(uuid, from, number, at, byte),
            Part::Last {
                uuid,
                first,
                first_at,
                from,
                number,
            } => in_last(uuid, first, first_at, from, number, at, byte),
            Part::Closing => behind_item(byte),
        }
    }

    /// Whether a text may end at this place.
    pub(crate) fn may_end(self, at: usize) -> bool
        ensures { result ≡ may_end at self }
    {
        match self {
            Part::Opening | Part::Closing => true,
            Part::Prefix { .. } | Part::Gap | Part::UuidText { .. } => false,
            Part::First { from, .. } | Part::Last { from, .. } => from < at,
        }
    }

    /// The span that has begun, with its numbers so far.
    pub(crate) fn begun(self) -> Option<Span>
        ensures { MatchOption result (begun self ≡ []) (λ s. begun self ≡ s ∷ []) }
    {
        match self {
            Part::First { uuid, from, number } => Some(span_of(uuid, number, from, number, from)),
            Part::Last {
                uuid,
                first,
                first_at,
                from,
                number,
            } => Some(span_of(uuid, first, first_at, number, from)),
            _ => None,
        }
    }
}

/// Whether a span goes on with the byte.
pub(crate) fn goes_on(byte: u8) -> bool
    ensures { result ≡ goes_on byte }
{
    byte.is_ascii_digit() || byte == b'-'
}

fn span_of(uuid: [u8; 16], first: u64, first_at: usize, last: u64, last_at: usize) -> Span
    ensures { result ≡ span uuid first first_at last last_at }
{
    Span {
        interval: Interval { uuid, first, last },
        first_at,
        last_at,
    }
}

fn is_blank(byte: u8) -> bool
    ensures { result ≡ is_blank byte }
{
    byte == b' ' || byte == b'\t' || byte == b'\n' || byte == b'\r'
}

fn is_hex_digit(byte: u8) -> bool
    ensures { result ≡ is_hex_digit byte }
{
    (b'0'..=b'9').contains(&byte) || (b'a'..=b'f').contains(&byte) || (b'A'..=b'F').contains(&byte)
}

/// The prefix at the very front, a blank, or the first digit of a UUID.
fn in_opening(at: usize, byte: u8) -> Option<Part>
    ensures opening { result ≡ in_opening at byte }
    ensures within { IfSome result (λ p. IsWithin (at + 1) p) }
{
    if is_blank(byte) {
        Some(Part::Opening)
    } else if is_hex_digit(byte) {
        Some(Part::UuidText { from: at })
    } else if at == 0 && byte == PREFIX[0] {
        Some(Part::Prefix { count: 1 })
    } else {
        None
    }
}

/// A blank, or the first digit of a UUID.
fn in_gap(at: usize, byte: u8) -> Option<Part>
    ensures gap { result ≡ in_gap at byte }
    ensures within { IfSome result (λ p. IsWithin (at + 1) p) }
{
    if is_blank(byte) {
        Some(Part::Gap)
    } else if is_hex_digit(byte) {
        Some(Part::UuidText { from: at })
    } else {
        None
    }
}

fn in_prefix(count: usize, byte: u8) -> Option<Part>
    requires { count < 8 }
    ensures prefix { result ≡ in_prefix count byte }
    ensures within { (at : ℕ) → IfSome result (λ p. IsWithin at p) }
{
    if byte != PREFIX[count] {
        None
    } else if count == 7 {
        Some(Part::Opening)
    } else {
        Some(Part::Prefix { count: count + 1 })
    }
}

/// A UUID whose text so far is this and begins at this place.
fn in_uuid(text: &[u8], from: usize, byte: u8) -> Option<Part>
    requires long { length text.now ≤ 36 }
    requires some { 1 ≤ length text.now }
    requires place { from < 2 ^ 63 }
    ensures uuid { result ≡ in_uuid text.now from byte }
    ensures within { IfSome result (λ p. IsWithin (from + length text.now + 1) p) }
{
    if text.len() < 36 {
        return fits_uuid(text.len(), byte).then_some(Part::UuidText { from });
    }
    if byte != b':' {
        return None;
    }
    let uuid = read_uuid(text)?;
    Some(Part::First {
        uuid,
        from: from + 37,
        number: 0,
    })
}

/// Whether the byte may stand at the place of a UUID's text.
fn fits_uuid(place: usize, byte: u8) -> bool
    ensures { result ≡ fits_uuid place byte }
{
    if place == 8 || place == 13 || place == 18 || place == 23 {
        byte == b'-'
    } else {
        is_hex_digit(byte)
    }
}

fn read_uuid(text: &[u8]) -> Option<[u8; 16]>
    requires { length text.now ≡ 36 }
    ensures { result ≡ parsed_hyphenated text.now }
{
    match Uuid::try_parse_ascii(text) {
        Ok(uuid) => Some(uuid.into_bytes()),
        Err(_) => None,
    }
}

fn behind_item(byte: u8) -> Option<Part>
    ensures item { result ≡ behind_item byte }
    ensures within { (at : ℕ) → IfSome result (λ p. IsWithin at p) }
{
    if is_blank(byte) {
        Some(Part::Closing)
    } else if byte == b',' {
        Some(Part::Gap)
    } else {
        None
    }
}

fn behind_span(uuid: [u8; 16], at: usize, byte: u8) -> Option<Part>
    requires { at < 2 ^ 63 }
    ensures span { result ≡ behind_span uuid at byte }
    ensures within { IfSome result (λ p. IsWithin (at + 1) p) }
{
    if byte == b':' {
        Some(Part::First {
            uuid,
            from: at + 1,
            number: 0,
        })
    } else {
        behind_item(byte)
    }
}

/// The number of so many digits with one digit more, of which it has at most 19.
fn with_digit(count: usize, number: u64, byte: u8) -> Option<u64>
    requires digit { is_ascii_digit byte ≡ true }
    requires digits { number < 10 ^ count }
    requires few { count ≤ 19 }
    ensures number { result ≡ with_digit count number byte }
    ensures digits { IfSome result (λ n. (n < 10 ^ (count + 1)) × (count < 19)) }
{
    if count == 19 {
        return None;
    }
    Some(number * 10 + u64::from(byte - b'0'))
}

fn in_first(uuid: [u8; 16], from: usize, number: u64, at: usize, byte: u8) -> Option<Part>
    requires place { at < 2 ^ 63 }
    requires within { (from ≤ at) × (at ≤ from + 19) × (number < 10 ^ (at - from)) }
    ensures first { result ≡ in_first uuid from number at byte }
    ensures within { IfSome result (λ p. IsWithin (at + 1) p) }
{
    if byte.is_ascii_digit() {
        let number = with_digit(at - from, number, byte)?;
        Some(Part::First { uuid, from, number })
    } else if at == from {
        None
    } else if byte == b'-' {
        Some(Part::Last {
            uuid,
            first: number,
            first_at: from,
            from: at + 1,
            number: 0,
        })
    } else {
        behind_span(uuid, at, byte)
    }
}

fn in_last(
    uuid: [u8; 16],
    first: u64,
    first_at: usize,
    from: usize,
    number: u64,
    at: usize,
    byte: u8,
) -> Option<Part>
    requires place { at < 2 ^ 63 }
    requires within { (from ≤ at) × (at ≤ from + 19) × (number < 10 ^ (at - from)) }
    ensures last { result ≡ in_last uuid first first_at from number at byte }
    ensures within { IfSome result (λ p. IsWithin (at + 1) p) }
{
    if byte.is_ascii_digit() {
        let number = with_digit(at - from, number, byte)?;
        Some(Part::Last {
            uuid,
            first,
            first_at,
            from,
            number,
        })
    } else if at == from {
        None
    } else {
        behind_span(uuid, at, byte)
    }
}

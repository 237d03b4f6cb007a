//! What stands behind a backslash in a string.
ghost use Rattle.std.specs.Prelude.{◌≡◌, ◌<◌, ◌≤◌, ◌∷◌, true, length, IfSome};
ghost use Rattle.vs_journal.specs.Escapes.{
  IsWide,
  escape_at,
  hex_escape,
  hex_value,
  is_octal,
  octal_byte,
  octal_escape,
  simple_escape,
};

/// What an escape is.
#[derive(Debug, Clone, Copy, PartialEq, Eq)]
pub enum Escape {
    /// A byte, and how many bytes of the text behind the backslash stand for it.
    Stands { value: u8, width: usize },
    /// No escape begins so.
    Unknown,
    /// The text ends first.
    Cut,
}

fn simple_escape(byte: u8) -> Option<u8>
    ensures { result ≡ simple_escape byte }
{
    match byte {
        b'"' | b'\'' | b'\\' => Some(byte),
        b'n' => Some(b'\n'),
        b'r' => Some(b'\r'),
        b't' => Some(b'\t'),
        _ => None,
    }
}

fn hex_value(byte: u8) -> Option<u8>
    ensures is { result ≡ hex_value byte }
    ensures small { IfSome result (λ v. v < 16) }
{
    match byte {
        b'0'..=b'9' => Some(byte - b'0'),
        b'A'..=b'F' => Some(byte - b'A' + 10),
        b'a'..=b'f' => Some(byte - b'a' + 10),
        _ => None,
    }
}

/// Two hexadecimal digits, behind `\x`.
fn hex_escape(text: &[u8]) -> Escape
    ensures { result ≡ hex_escape text.now }
{
    match text {
        [] => Escape::Cut,
        [high] => match hex_value(*high) {
            Some(_) => Escape::Cut,
            None => Escape::Unknown,
        },
        [high, low, ..] => match (hex_value(*high), hex_value(*low)) {
            (Some(high), Some(low)) => Escape::Stands {
                value: 16 * high + low,
                width: 3,
            },
            _ => Escape::Unknown,
        },
    }
}

fn is_octal(byte: u8) -> bool
    ensures { result ≡ is_octal byte }
{
    b'0' <= byte && byte <= b'7'
}

fn octal_byte(value: u16, width: usize) -> Escape
    ensures { result ≡ octal_byte value width }
{
    if value <= 255 {
        Escape::Stands {
            value: value as u8,
            width,
        }
    } else {
        Escape::Unknown
    }
}

/// One to three octal digits, of which this is the first: as many as stand there.
fn octal_escape(first: u8, rest: &[u8]) -> Escape
    requires { is_octal first ≡ true }
    ensures { result ≡ octal_escape first rest.now }
{
    let high = (first - b'0') as u16;
    match rest {
        [second, third, ..] if is_octal(*second) && is_octal(*third) => {
            let middle = (*second - b'0') as u16;
            let low = (*third - b'0') as u16;
            octal_byte(64 * high + (8 * middle + low), 3)
        }
        [second, ..] if is_octal(*second) => {
            let low = (*second - b'0') as u16;
            octal_byte(8 * high + low, 2)
        }
        _ => octal_byte(high, 1),
    }
}

/// What the text behind a backslash begins with.
pub(crate) fn escape_at(text: &[u8]) -> Escape
    ensures is { result ≡ escape_at text.now }
    ensures wide { IsWide (length text.now) result }
{
    let [first, rest @ ..] = text else {
        return Escape::Cut;
    };
    match simple_escape(*first) {
        Some(value) => Escape::Stands { value, width: 1 },
        None if *first == b'x' => hex_escape(rest),
        None if is_octal(*first) => octal_escape(*first, rest),
        None => Escape::Unknown,
    }
}

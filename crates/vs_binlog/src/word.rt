ghost use Rattle.std.specs.Prelude.{◌≡◌, ◌≤◌, ◌<◌, length, drop, map, nat_eq, MatchOption, false};
ghost use Rattle.std.specs.List.{take_while};
ghost use Rattle.std.specs.Cmp.Lexicographic.{pointwise};
ghost use Rattle.vs_binlog.specs.Words.{
  behind,
  closes_comment,
  is_blank,
  is_word,
  opens_comment,
  upper,
  word_in,
};

/// The first word of a statement, as it stands there: behind blanks and comments, the longest run of
/// letters, digits and `_`.
pub fn first_word(text: &[u8]) -> &[u8]
    ensures { result.now ≡ word_in text.now }
{
    leading_word(text_behind_comments(text))
}

/// Whether the word is this one, which is in upper case, in any case of its letters.
pub fn is_same_word(word: &[u8], wanted: &[u8]) -> bool
    ensures { result ≡ pointwise nat_eq (map upper word.now) wanted.now }
{
    if word.len() != wanted.len() {
        return false;
    }
    for i in 0..word.len() {
        if upper_byte(word[i]) != wanted[i] {
            return false;
        }
    }
    true
}

fn leading_word(text: &[u8]) -> &[u8]
    ensures { result.now ≡ take_while is_word text.now }
{
    let mut length = 0;
    while length < text.len() && is_word_byte(text[length]) {
        length += 1;
    }
    &text[..length]
}

fn text_behind_comments(text: &[u8]) -> &[u8]
    ensures { result.now ≡ behind false text.now }
{
    let mut inside = false;
    let mut at = 0;
    while at < text.len() {
        match skipped(inside, &text[at..]) {
            Some((inside_then, bytes)) => {
                inside = inside_then;
                at += bytes;
            }
            None => return &text[at..],
        }
    }
    &text[at..]
}

/// How many bytes are passed over at the front of a text, and whether a comment is open behind them;
/// or that a word may begin here.
fn skipped(inside: bool, text: &[u8]) -> Option<(bool, usize)>
    requires { 0 < length text.now }
    ensures { MatchOption result (behind inside text.now ≡ text.now) (λ s. (behind inside text.now ≡ behind s.0 (drop s.1 text.now)) × (1 ≤ s.1) × (s.1 ≤ length text.now)) }
{
    if inside {
        if ends_comment(text) {
            return Some((false, 2));
        }
        return Some((true, 1));
    }
    if is_blank_byte(text[0]) {
        return Some((false, 1));
    }
    if begins_comment(text) {
        return Some((true, 2));
    }
    None
}

fn begins_comment(text: &[u8]) -> bool
    ensures { result ≡ opens_comment text.now }
{
    text.len() > 1 && text[0] == b'/' && text[1] == b'*' && !(text.len() > 2 && text[2] == b'!')
}

fn ends_comment(text: &[u8]) -> bool
    ensures { result ≡ closes_comment text.now }
{
    text.len() > 1 && text[0] == b'*' && text[1] == b'/'
}

fn is_blank_byte(byte: u8) -> bool
    ensures { result ≡ is_blank byte }
{
    byte == b' ' || (byte == b'\t' || (byte == b'\r' || byte == b'\n'))
}

fn is_word_byte(byte: u8) -> bool
    ensures { result ≡ is_word byte }
{
    (byte >= b'0' && byte <= b'9')
        || ((byte >= b'A' && byte <= b'Z') || ((byte >= b'a' && byte <= b'z') || byte == b'_'))
}

fn upper_byte(byte: u8) -> u8
    ensures { result ≡ upper byte }
{
    if byte >= b'a' && byte <= b'z' {
        byte - 32
    } else {
        byte
    }
}

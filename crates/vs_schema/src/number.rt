ghost use Rattle.std.specs.Prelude.{◌≡◌, ◌≤◌};
ghost use Rattle.std.specs.List.{list_all};
ghost use Rattle.vs_schema.specs.Kinds.{is_digit, is_numeral, number_of};

/// The number up to a limit that a numeral without leading zeros is.
pub fn read_number(text: &[u8], limit: u32) -> Option<u32>
    requires { limit ≤ 65535 }
    ensures { result ≡ number_of limit text.now }
{
    if !is_numeral(text) {
        return None;
    }
    let mut number = 0;
    for digit in text {
        number = number * 10 + (*digit - b'0') as u32;
        if number > limit {
            return None;
        }
    }
    Some(number)
}

fn is_numeral(text: &[u8]) -> bool
    ensures { result ≡ is_numeral text.now }
{
    match text {
        [] => false,
        [digit] => is_digit(*digit),
        [first, ..] => are_digits(text) && *first > b'0',
    }
}

fn are_digits(text: &[u8]) -> bool
    ensures { result ≡ list_all is_digit text.now }
{
    text.iter().all(|byte| is_digit(*byte))
}

fn is_digit(byte: u8) -> bool
    ensures { result ≡ is_digit byte }
{
    b'0' <= byte && byte <= b'9'
}

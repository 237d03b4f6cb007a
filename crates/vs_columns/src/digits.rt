//! Digits of numbers, as bytes of a text.
ghost use Rattle.std.specs.Prelude.{◌≡◌, ◌≤◌, ◌+◌, ◌%◌, drop, length};
ghost use Rattle.vs_columns.specs.Digits.{padded, shown, without_zeros};

/// The last digit of the number.
pub(crate) fn digit(number: u64) -> u8
    ensures { result ≡ 48 + number % 10 }
{
    b'0' + (number % 10) as u8
}

/// The last six digits of the number.
#[tactic(auto, unfolding(crate::specs::Digits::padded))]
pub(crate) fn six_digits(number: u64) -> [u8; 6]
    ensures { result ≡ padded 6 number }
{
    [
        digit(number / 10 / 10 / 10 / 10 / 10),
        digit(number / 10 / 10 / 10 / 10),
        digit(number / 10 / 10 / 10),
        digit(number / 10 / 10),
        digit(number / 10),
        digit(number),
    ]
}

/// The last nine digits of the number.
#[tactic(auto, unfolding(crate::specs::Digits::padded))]
pub(crate) fn nine_digits(number: u64) -> [u8; 9]
    ensures { result ≡ padded 9 number }
{
    let thousands = number / 10 / 10 / 10;
    let millions = thousands / 10 / 10 / 10;
    [
        digit(millions / 10 / 10),
        digit(millions / 10),
        digit(millions),
        digit(thousands / 10 / 10),
        digit(thousands / 10),
        digit(thousands),
        digit(number / 10 / 10),
        digit(number / 10),
        digit(number),
    ]
}

/// The digits from the first that isn't 0.
pub(crate) fn without_zeros(digits: &[u8]) -> &[u8]
    ensures { result.now ≡ without_zeros digits.now }
{
    match digits {
        [b'0', rest @ ..] => without_zeros(rest),
        _ => digits,
    }
}

/// The digits that are shown behind others: all, once a digit but 0 has been shown.
pub(crate) fn shown(digits: &[u8], begun: bool) -> &[u8]
    ensures { result.now ≡ shown begun digits.now }
{
    if begun { digits } else { without_zeros(digits) }
}

/// The bytes behind the first ones.
pub(crate) fn behind(bytes: &[u8], count: usize) -> &[u8]
    requires { count ≤ length bytes.now }
    ensures { result.now ≡ drop count bytes.now }
{
    &bytes[count..]
}

ghost use Rattle.std.specs.Prelude.{◌≡◌, ◌<◌, ◌==◌, ◌∷◌, [], MatchOption, None, Some, length};
ghost use Rattle.std.specs.List.{after_first, before_first, position, position_or_len};
ghost use Rattle.vs_schema.specs.Kinds.{same};
ghost use Rattle.vs_schema.specs.Lines.{lines_of, sole, words_of};

/// What stands before and behind the first byte of this value.
#[tactic(auto, using(crate::proofs::CutLemmas::position_none))]
pub fn cut_at(text: &[u8], byte: u8) -> Option<(&[u8], &[u8])>
    ensures { MatchOption result (position_or_len (λ c. c == byte) text.now ≡ length text.now)
        (λ parts. (position_or_len (λ c. c == byte) text.now < length text.now) × (parts.0.now ≡ before_first (λ c. c == byte) text.now) × (parts.1.now ≡ after_first (λ c. c == byte) text.now)) }
{
    match place_of_byte(text, byte) {
        Some(at) => Some((&text[..at], &text[at + 1..])),
        None => None,
    }
}

fn place_of_byte(text: &[u8], byte: u8) -> Option<usize>
    ensures { result ≡ position (λ c. c == byte) text.now }
{
    text.iter().position(|c| *c == byte)
}

/// The first line, and what stands behind its end.
#[tactic(auto, using(crate::proofs::CutLemmas::first_line, crate::proofs::CutLemmas::last_line))]
pub fn cut_line(text: &[u8]) -> (&[u8], &[u8])
    requires { 0 < length text.now }
    ensures lines { lines_of text.now ≡ result.0.now ∷ lines_of result.1.now }
    ensures shorter { length result.1.now < length text.now }
{
    match cut_at(text, b'\n') {
        Some((line, rest)) => (line, rest),
        None => (text, b""),
    }
}

/// The first word and what stands behind the space at its end; none where the text is one word.
#[tactic(auto, using(crate::proofs::CutLemmas::next_word, crate::proofs::CutLemmas::last_word))]
pub fn cut_word(text: &[u8]) -> Option<(&[u8], &[u8])>
    ensures { MatchOption result (words_of text.now ≡ text.now ∷ [])
        (λ parts. (words_of text.now ≡ parts.0.now ∷ words_of parts.1.now) × (length parts.1.now < length text.now)) }
{
    match place_of_byte(text, b' ') {
        Some(at) => Some((&text[..at], &text[at + 1..])),
        None => None,
    }
}

/// The text, where it is one word.
#[tactic(auto, using(crate::proofs::CutLemmas::none_alone))]
pub fn sole_word(text: &[u8]) -> Option<&[u8]>
    ensures { MatchOption result (sole (words_of text.now) ≡ None) (λ word. sole (words_of text.now) ≡ Some word.now) }
{
    match cut_word(text) {
        Some(_) => None,
        None => Some(text),
    }
}

/// Whether the texts are equal.
pub fn is_same(a: &[u8], b: &[u8]) -> bool
    ensures { result ≡ same a.now b.now }
{
    a == b
}

ghost use Rattle.std.specs.Prelude.{◌≡◌};
ghost use Rattle.vs_schema.specs.Kinds.{
  decimal,
  integer,
  kind_of,
  one_word,
  plain,
  sized,
  sized_by,
  with_sizes,
};
ghost use Rattle.vs_schema.specs.Lines.{words_of};

use crate::cut::{cut_at, cut_word, is_same, sole_word};
use crate::number::read_number;
use vs_base::ColumnKind;

/// The kind of a column that the words are.
#[tactic(auto, unfolding(crate::specs::Kinds::kind_of), using(crate::proofs::CutLemmas::some_words))]
pub fn read_kind(words: &[u8]) -> Option<ColumnKind>
    ensures { result ≡ kind_of (words_of words.now) }
{
    let Some((word, rest)) = cut_word(words) else {
        return read_one_word(words);
    };
    let Some(next) = sole_word(rest) else {
        return None;
    };
    if !is_same(next, b"unsigned") {
        return None;
    }
    read_integer(word, true)
}

fn read_one_word(word: &[u8]) -> Option<ColumnKind>
    ensures { result ≡ one_word word.now }
{
    if let Some(kind) = read_integer(word, false) {
        return Some(kind);
    }
    if let Some(kind) = read_plain(word) {
        return Some(kind);
    }
    read_with_sizes(word)
}

fn read_integer(word: &[u8], unsigned: bool) -> Option<ColumnKind>
    ensures { result ≡ integer word.now unsigned }
{
    if is_same(word, b"tinyint") {
        return Some(ColumnKind::TinyInt { unsigned });
    }
    if is_same(word, b"smallint") {
        return Some(ColumnKind::SmallInt { unsigned });
    }
    if is_same(word, b"mediumint") {
        return Some(ColumnKind::MediumInt { unsigned });
    }
    if is_same(word, b"int") {
        return Some(ColumnKind::Int { unsigned });
    }
    if is_same(word, b"bigint") {
        return Some(ColumnKind::BigInt { unsigned });
    }
    None
}

fn read_plain(word: &[u8]) -> Option<ColumnKind>
    ensures { result ≡ plain word.now }
{
    if is_same(word, b"date") {
        return Some(ColumnKind::Date);
    }
    if is_same(word, b"text") {
        return Some(ColumnKind::Text);
    }
    if is_same(word, b"blob") {
        return Some(ColumnKind::Blob);
    }
    if is_same(word, b"timestamp") {
        return Some(ColumnKind::Timestamp { precision: 0 });
    }
    if is_same(word, b"datetime") {
        return Some(ColumnKind::DateTime { precision: 0 });
    }
    None
}

fn read_with_sizes(word: &[u8]) -> Option<ColumnKind>
    ensures { result ≡ with_sizes word.now }
{
    let (name, rest) = cut_at(word, b'(')?;
    read_sized_by(name, rest)
}

fn read_sized_by(name: &[u8], rest: &[u8]) -> Option<ColumnKind>
    ensures { result ≡ sized_by name.now rest.now }
{
    match rest {
        [sizes @ .., b')'] => read_sized(name, sizes),
        _ => None,
    }
}

fn read_sized(name: &[u8], sizes: &[u8]) -> Option<ColumnKind>
    ensures { result ≡ sized name.now sizes.now }
{
    if is_same(name, b"varchar") {
        let length = read_number(sizes, 65_535)? as u16;
        return Some(ColumnKind::VarChar { length });
    }
    if is_same(name, b"varbinary") {
        let length = read_number(sizes, 65_535)? as u16;
        return Some(ColumnKind::VarBinary { length });
    }
    if is_same(name, b"char") {
        let length = read_number(sizes, 255)? as u8;
        return Some(ColumnKind::Char { length });
    }
    if is_same(name, b"binary") {
        let length = read_number(sizes, 255)? as u8;
        return Some(ColumnKind::Binary { length });
    }
    if is_same(name, b"timestamp") {
        let precision = read_number(sizes, 6)? as u8;
        return Some(ColumnKind::Timestamp { precision });
    }
    if is_same(name, b"datetime") {
        let precision = read_number(sizes, 6)? as u8;
        return Some(ColumnKind::DateTime { precision });
    }
    if is_same(name, b"decimal") {
        return read_decimal(sizes);
    }
    None
}

fn read_decimal(sizes: &[u8]) -> Option<ColumnKind>
    ensures { result ≡ decimal sizes.now }
{
    let (precision, scale) = cut_at(sizes, b',')?;
    let precision = read_number(precision, 65)? as u8;
    let scale = read_number(scale, 30)? as u8;
    if precision < 1 || scale > precision {
        return None;
    }
    Some(ColumnKind::Decimal { precision, scale })
}

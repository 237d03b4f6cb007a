//! The types of columns in a table map, and what agrees with a schema's kinds.
ghost use Rattle.std.specs.Prelude.{◌≡◌};
ghost use Rattle.vs_columns.specs.Kinds.{
  agreed,
  are_bytes,
  code_of,
  fits_meta,
  is_byte,
  is_length_size,
  may_stand,
  meta_length_of,
};

use vs_base::ColumnKind;

/// Whether a column of this type and metadata in a table map is one of this kind. Text and blob,
/// varchar and varbinary, char and binary have the same types. Lengths aren't compared, but for binary.
pub fn agrees(kind: &ColumnKind, code: u8, meta: &[u8]) -> bool
    ensures { result ≡ agreed kind.now code meta.now }
{
    code == code_of(*kind) && fits_meta(*kind, meta)
}

/// How many bytes of metadata a table map has for a column of this type (`field.types.h` and
/// `Table_map_event` in MySQL's sources); none for a type that no row has.
pub fn meta_length(code: u8) -> Option<usize>
    ensures { result ≡ meta_length_of code }
{
    match code {
        1 | 2 | 3 | 8 | 9 | 10 | 13 => Some(0),
        4 | 5 | 17 | 18 | 19 | 245 | 252 | 255 => Some(1),
        15 | 16 | 246 | 253 | 254 => Some(2),
        _ => None,
    }
}

pub(crate) fn code_of(kind: ColumnKind) -> u8
    ensures { result ≡ code_of kind }
{
    match kind {
        ColumnKind::TinyInt { .. } => 1,
        ColumnKind::SmallInt { .. } => 2,
        ColumnKind::MediumInt { .. } => 9,
        ColumnKind::Int { .. } => 3,
        ColumnKind::BigInt { .. } => 8,
        ColumnKind::Date => 10,
        ColumnKind::VarChar { .. } | ColumnKind::VarBinary { .. } => 15,
        ColumnKind::Timestamp { .. } => 17,
        ColumnKind::DateTime { .. } => 18,
        ColumnKind::Decimal { .. } => 246,
        ColumnKind::Text | ColumnKind::Blob => 252,
        ColumnKind::Char { .. } | ColumnKind::Binary { .. } => 254,
    }
}

fn fits_meta(kind: ColumnKind, meta: &[u8]) -> bool
    ensures { result ≡ fits_meta kind meta.now }
{
    match kind {
        ColumnKind::TinyInt { .. }
        | ColumnKind::SmallInt { .. }
        | ColumnKind::MediumInt { .. }
        | ColumnKind::Int { .. }
        | ColumnKind::BigInt { .. }
        | ColumnKind::Date => meta.is_empty(),
        ColumnKind::VarChar { .. } | ColumnKind::VarBinary { .. } => meta.len() == 2,
        ColumnKind::Timestamp { precision } | ColumnKind::DateTime { precision } => {
            is_byte(meta, precision)
        }
        ColumnKind::Decimal { precision, scale } => are_bytes(meta, precision, scale),
        ColumnKind::Text | ColumnKind::Blob => is_length_size(meta),
        ColumnKind::Char { .. } => meta.len() == 2 && meta[0] == 254,
        ColumnKind::Binary { length } => are_bytes(meta, 254, length),
    }
}

fn is_byte(meta: &[u8], byte: u8) -> bool
    ensures { result ≡ is_byte meta.now byte }
{
    meta.len() == 1 && meta[0] == byte
}

fn are_bytes(meta: &[u8], first: u8, second: u8) -> bool
    ensures { result ≡ are_bytes meta.now first second }
{
    meta.len() == 2 && meta[0] == first && meta[1] == second
}

fn is_length_size(meta: &[u8]) -> bool
    ensures { result ≡ is_length_size meta.now }
{
    meta.len() == 1 && meta[0] >= 1 && meta[0] <= 4
}

/// Whether a table can have a column of this kind.
pub(crate) fn may_stand(kind: ColumnKind) -> bool
    ensures { result ≡ may_stand kind }
{
    match kind {
        ColumnKind::Timestamp { precision } | ColumnKind::DateTime { precision } => precision <= 6,
        ColumnKind::Decimal { precision, scale } => {
            1 <= precision && precision <= 65 && scale <= 30 && scale <= precision
        }
        _ => true,
    }
}

ghost use Rattle.std.specs.Prelude.{◌≡◌, ◌&&◌};
ghost use Rattle.std.specs.List.{list_all};
ghost use Rattle.vs_outside.specs.Names.{
  has_name_length,
  is_dots,
  is_keyspace_text,
  is_name_byte,
  is_shard_byte,
  is_shard_text,
};

/// Whether the text may name a keyspace: 1 to 64 ASCII letters, digits, `-` or `_`.
pub fn names_keyspace(text: &[u8]) -> bool
    ensures { result ≡ is_keyspace_text text.now }
{
    has_name_length(text) && are_name_bytes(text)
}

/// Whether the text may name a shard: 1 to 64 ASCII letters, digits, `-`, `_` or `.`, but neither
/// `.` nor `..`.
pub fn names_shard(text: &[u8]) -> bool
    ensures { result ≡ is_shard_text text.now }
{
    if is_dots(text) {
        return false;
    }
    has_name_length(text) && are_shard_bytes(text)
}

fn is_name_byte(byte: u8) -> bool
    ensures { result ≡ is_name_byte byte }
{
    matches!(byte, b'a'..=b'z' | b'A'..=b'Z' | b'0'..=b'9' | b'-' | b'_')
}

fn is_shard_byte(byte: u8) -> bool
    ensures { result ≡ is_shard_byte byte }
{
    is_name_byte(byte) || byte == b'.'
}

fn are_name_bytes(text: &[u8]) -> bool
    ensures { result ≡ list_all is_name_byte text.now }
{
    text.iter().all(|byte| is_name_byte(*byte))
}

fn are_shard_bytes(text: &[u8]) -> bool
    ensures { result ≡ list_all is_shard_byte text.now }
{
    text.iter().all(|byte| is_shard_byte(*byte))
}

fn has_name_length(text: &[u8]) -> bool
    ensures { result ≡ has_name_length text.now }
{
    1 <= text.len() && text.len() <= 64
}

fn is_dots(text: &[u8]) -> bool
    ensures { result ≡ is_dots text.now }
{
    text == b".".as_slice() || text == b"..".as_slice()
}

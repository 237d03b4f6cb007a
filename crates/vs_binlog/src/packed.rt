ghost use Rattle.std.specs.Prelude.{◌≡◌, ◌≤◌, ◌+◌, IfSome, length};
ghost use Rattle.vs_binlog.specs.Packed.{long_in, packed_in};

use byteorder::{ByteOrder, LittleEndian};

/// The packed number at the front of the bytes, and how many bytes it takes; none where no number
/// stands there whole. MySQL calls this form a length-encoded integer; it need not be the shortest.
#[tactic(auto, unfolding(crate::specs::Packed::packed_in))]
pub fn read_packed(bytes: &[u8]) -> Option<(u64, usize)>
    ensures number { result ≡ packed_in bytes.now }
    ensures within { IfSome result (λ read. read.1 ≤ length bytes.now) }
{
    let [first, rest @ ..] = bytes else {
        return None;
    };
    match *first {
        0..=250 => Some((*first as u64, 1)),
        252 => read_long(rest, 2),
        253 => read_long(rest, 3),
        254 => read_long(rest, 8),
        _ => None,
    }
}

/// The number of so many bytes at the front, where they and the byte before them are there.
fn read_long(rest: &[u8], count: usize) -> Option<(u64, usize)>
    requires few { count ≤ 8 }
    requires some { 1 ≤ count }
    ensures number { result ≡ long_in count rest.now }
    ensures within { IfSome result (λ read. read.1 ≤ length rest.now + 1) }
{
    if rest.len() < count {
        return None;
    }
    Some((LittleEndian::read_uint(rest, count), count + 1))
}

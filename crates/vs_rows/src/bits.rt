//! Bits in bytes, as MySQL packs them: the lowest first.
ghost use Rattle.std.specs.Prelude.{◌≡◌, ◌≤◌, ◌*◌, ◌<◌, ◌^◌, length};
ghost use Rattle.vs_rows.specs.Bits.{all_set, bit_bytes, has_bit};

/// The bytes that so many bits take.
pub(crate) fn bit_bytes(count: usize) -> usize
    ensures { result ≡ bit_bytes count }
{
    count / 8 + (count % 8 + 7) / 8
}

#[tactic(auto, unfolding(crate::specs::Bits::has_bit))]
pub(crate) fn has_bit(bytes: &[u8], place: usize) -> bool
    requires { place < 8 * length bytes.now }
    ensures { result ≡ has_bit bytes.now place }
{
    (bytes[place / 8] >> (place % 8)) & 1 == 1
}

/// Whether each of the first bits is 1.
pub(crate) fn all_set(bytes: &[u8], count: usize) -> bool
    requires { bit_bytes count ≤ length bytes.now }
    ensures { result ≡ all_set count bytes.now }
{
    for place in 0..count {
        if !has_bit(bytes, place) {
            return false;
        }
    }
    true
}

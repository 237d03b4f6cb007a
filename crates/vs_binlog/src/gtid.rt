ghost use Rattle.std.specs.Prelude.{◌≡◌};
ghost use Rattle.vs_binlog.specs.Bodies.{gtid_body};

use byteorder::{ByteOrder, LittleEndian};
use vs_base::Gtid;

/// The GTID in the body of a GTID event; none where the body is too short, or the number out of range.
#[tactic(auto, unfolding(crate::specs::Bodies::gtid_body))]
pub fn read_gtid(body: &[u8]) -> Option<Gtid>
    ensures { result ≡ gtid_body body.now }
{
    if body.len() < 25 {
        return None;
    }
    let mut uuid = [0u8; 16];
    uuid.copy_from_slice(&body[1..17]);
    Gtid::new(uuid, LittleEndian::read_u64(&body[17..]))
}

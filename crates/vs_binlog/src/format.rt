ghost use Rattle.std.specs.Prelude.{◌≡◌};
ghost use Rattle.vs_binlog.specs.Bodies.{format_body};

use byteorder::{ByteOrder, LittleEndian};
use thiserror::Error;

/// Why a log with this format description isn't read.
#[derive(Debug, Drop, Clone, Copy, PartialEq, Eq, Error)]
pub enum FormatRefusal {
    #[error("short format description")]
    ShortFormat,
    /// The format is not that of version 4.
    #[error("version {version}")]
    BadVersion { version: u16 },
    /// The heads of the log have another length than 19.
    #[error("heads of {length} bytes")]
    HeadLength { length: u8 },
    /// The log has checksums of this kind.
    #[error("checksums of kind {kind}")]
    Checksummed { kind: u8 },
}

/// Whether the body of a format description is one of version 4, with heads of 19 bytes and without
/// checksums; or the first of these that it isn't.
pub fn read_format(body: &[u8]) -> Result<(), FormatRefusal>
    ensures { result ≡ format_body body.now }
{
    if body.len() < 62 {
        return Err(FormatRefusal::ShortFormat);
    }
    let version = LittleEndian::read_u16(body);
    if version != 4 {
        return Err(FormatRefusal::BadVersion { version });
    }
    let length = body[56];
    if length != 19 {
        return Err(FormatRefusal::HeadLength { length });
    }
    let kind = body[body.len() - 5];
    if kind != 0 {
        return Err(FormatRefusal::Checksummed { kind });
    }
    Ok(())
}

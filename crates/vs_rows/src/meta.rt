ghost use Rattle.std.specs.Prelude.{◌≡◌, ◌≤◌, length};

use std::marker::Model;

/// The metadata of a column in a table map: at most two bytes.
#[derive(Debug, Drop)]
pub(crate) struct Meta {
    bytes: [u8; 2],
    size: usize,
}

impl Model for Meta {
    ghost use Rattle.std.specs.Prelude.{List, ℕ, ◌≤◌, take};

    ghost Value = { List ℕ };

    ghost view = { λ m. take m.size m.bytes };

    ghost invariant = { λ m. m.size ≤ 2 };
}

impl Meta {
    pub fn new(bytes: &[u8]) -> Meta
        requires { length bytes.now ≤ 2 }
        ensures { result ≡ bytes.now }
    {
        match bytes {
            [first, second] => Meta {
                bytes: [*first, *second],
                size: 2,
            },
            [first] => Meta {
                bytes: [*first, 0],
                size: 1,
            },
            _ => Meta {
                bytes: [0, 0],
                size: 0,
            },
        }
    }

    pub fn as_bytes(&self) -> &[u8]
        ensures { result.now ≡ self.now }
    {
        &self.bytes[..self.size]
    }

    pub fn copy(&self) -> Meta
        ensures { result ≡ self.now }
    {
        Meta {
            bytes: self.bytes,
            size: self.size,
        }
    }
}

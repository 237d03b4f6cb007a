ghost use Rattle.std.specs.Prelude.{◌≡◌, MatchOption, None, Some};
ghost use Rattle.vs_binlog.specs.Bodies.{query_body};
ghost use Rattle.vs_binlog.specs.Lent.{said_by};

use byteorder::{ByteOrder, LittleEndian};

/// What a query event says, lent from its body.
#[derive(Debug, Clone, Copy, PartialEq, Eq)]
pub struct Query<'a> {
    /// the session's default schema
    pub schema: &'a [u8],
    /// the statement
    pub text: &'a [u8],
}

/// What the body of a query event says; none where it is too short, or the byte behind the schema
/// isn't 0.
#[tactic(auto, unfolding(crate::specs::Bodies::query_body))]
pub fn read_query(body: &[u8]) -> Option<Query>
    ensures { MatchOption result (query_body body.now ≡ None) (λ query. query_body body.now ≡ Some (said_by query)) }
{
    if body.len() < 14 {
        return None;
    }
    let schema_length = body[8] as usize;
    let at = 13 + LittleEndian::read_u16(&body[11..]) as usize;
    if at + schema_length + 1 > body.len() {
        return None;
    }
    if body[at + schema_length] != 0 {
        return None;
    }
    let rest = &body[at..];
    Some(Query {
        schema: &rest[..schema_length],
        text: &rest[schema_length + 1..],
    })
}

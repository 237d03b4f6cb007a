//! The schema in which the tables of a keyspace stand.
ghost use Rattle.std.specs.Prelude.{◌≡◌};
ghost use Rattle.vs_schema.specs.Kinds.{same};
ghost use Rattle.vs_rows.specs.Tables.{schema_of};

/// Whether the schema is `vt_` and the keyspace.
pub fn is_schema_of(schema: &[u8], keyspace: &[u8]) -> bool
    ensures { result ≡ same schema.now (schema_of keyspace.now) }
{
    match schema {
        [b'v', b't', b'_', name @ ..] => name == keyspace,
        _ => false,
    }
}

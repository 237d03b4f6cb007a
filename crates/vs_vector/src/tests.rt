//! Changes of a vector, and its messages.
use crate::{Place, ShardAt, Vector, VectorRefusal};
use std::alloc::Global;
use std::process::Abort;
use std::test::Fail;
use vs_base::{Gtid, ShardName, Text};
use vs_gtid::{GtidSet, Successor};

/// The shard of the keyspace c.
fn shard(alloc: Global, shard: &[u8]) -> Result<ShardName, Fail> {
    let keyspace = Text::from_bytes(alloc, b"c")?;
    let shard = Text::from_bytes(alloc, shard)?;
    Ok(ShardName::new(keyspace, shard).ok_or("the name is too long")?)
}

/// The first GTID of the UUID of zeros that ends with this byte.
fn first_of(last: u8) -> Result<Gtid, Fail> {
    let uuid = [0, 0, 0, 0, 0, 0, 0, 0, 0, 0, 0, 0, 0, 0, 0, last];
    Ok(Gtid::new(uuid, 1).ok_or("the number is out of range")?)
}

/// A shard that streams from the empty set.
fn streaming(alloc: Global) -> ShardAt {
    ShardAt {
        start: Place::At(GtidSet::new(alloc)),
        last_key: None,
    }
}

/// c/-80 and c/80- at the empty set.
fn halves(alloc: Global) -> Result<Vector, Fail> {
    let mut vector = Vector::new(alloc);
    vector.push(shard(alloc, b"-80")?, streaming(alloc))?;
    vector.push(shard(alloc, b"80-")?, streaming(alloc))?;
    Ok(vector)
}

/// The message has these shards, with these positions.
fn expect_shards(
    rt: &impl Abort,
    alloc: Global,
    vector: &Vector,
    expected: &[(&[u8], &[u8])],
) -> Result<(), Fail> {
    let message = vector.message(alloc)?;
    let shards = message.shard_gtids.as_slice();
    assert_eq!(rt; shards.len(), expected.len());
    for (shard, (name, position)) in shards.iter().zip(expected) {
        assert_eq!(rt; shard.shard.as_bytes(), *name);
        assert_eq!(rt; shard.gtid.as_bytes(), *position);
    }
    Ok(())
}

#[test]
fn a_shard_is_replaced(rt: HostRuntime) -> Result<(), Fail> {
    let alloc = rt.alloc();
    let mut vector = halves(alloc)?;
    vector.add(&shard(alloc, b"-80")?, first_of(10)?)?;
    expect_shards(
        &rt,
        alloc,
        &vector,
        &[
            (b"-80", b"MySQL56/00000000-0000-0000-0000-00000000000a:1"),
            (b"80-", b"MySQL56/"),
        ],
    )?;
    let mut position = GtidSet::new(alloc);
    position.add(first_of(13)?)?;
    let successor = Successor {
        name: shard(alloc, b"0")?,
        position,
    };
    vector.replace(&[shard(alloc, b"-80")?], &[successor])?;
    expect_shards(
        &rt,
        alloc,
        &vector,
        &[
            (b"80-", b"MySQL56/"),
            (b"0", b"MySQL56/00000000-0000-0000-0000-00000000000d:1"),
        ],
    )?;
    Ok(())
}

#[test]
fn changes_are_refused(rt: HostRuntime) -> Result<(), Fail> {
    let alloc = rt.alloc();
    let mut vector = halves(alloc)?;
    let again = vector.push(shard(alloc, b"80-")?, streaming(alloc));
    assert!(rt; matches!(&again, Err(VectorRefusal::Present { .. })));
    let absent = vector.set(&shard(alloc, b"0")?, streaming(alloc));
    assert!(rt; matches!(&absent, Err(VectorRefusal::Absent { .. })));
    assert_eq!(rt; vector.len(), 2);
    Ok(())
}

#[test]
fn an_entry_is_prepared(rt: HostRuntime) -> Result<(), Fail> {
    let alloc = rt.alloc();
    let mut vector = halves(alloc)?;
    let name = shard(alloc, b"-80")?;
    let entry = vector.entry_with(&name, first_of(10)?)?;
    assert_eq!(rt; entry.intervals(), 1);
    let message = vector.message_with(alloc, &name, &entry)?;
    assert_eq!(rt; message.shard_gtids.as_slice().len(), 2);
    let old = vector.exchange(&name, entry);
    assert_eq!(rt; old.intervals(), 0);
    Ok(())
}

//! Shards that come to journals, by the texts that logs have of them.
use std::alloc::Global;
use std::process::Abort;
use std::test::Fail;
use vs_base::{ShardName, Text};
use vs_gather::{Arrival, Gather, GatherRefusal};
use vs_gtid::{GtidSet, JournalValue};
use vs_journal::read_text;
use vs_vector::{Place, ShardAt, Vector};

/// c/-80 is split.
const SPLIT: &[u8] =
    b"id:7 migration_type:SHARDS shard_gtids:{keyspace:'c' shard:'40-80' gtid:'00000000-0000-0000-0000-00000000000d:1'} shard_gtids:{keyspace:'c' shard:'-40' gtid:'00000000-0000-0000-0000-00000000000b:1'} participants:{keyspace:'c' shard:'-80'}";

/// c/-80 and c/80- are merged.
const MERGE: &[u8] =
    b"id:9 migration_type:SHARDS shard_gtids:{keyspace:'c' shard:'0' gtid:'00000000-0000-0000-0000-00000000000f:1'} participants:{keyspace:'c' shard:'-80'} participants:{keyspace:'c' shard:'80-'}";

/// The same journal, with another position of its successor.
const OTHER_MERGE: &[u8] =
    b"id:9 migration_type:SHARDS shard_gtids:{keyspace:'c' shard:'0' gtid:'00000000-0000-0000-0000-00000000000f:1-2'} participants:{keyspace:'c' shard:'-80'} participants:{keyspace:'c' shard:'80-'}";

/// What an arrival comes to.
#[derive(Debug, Clone, Copy, PartialEq, Eq)]
enum Told {
    Waits,
    Completes,
    Differs,
    Clashes,
    Memory,
}

/// A shard comes to a journal.
struct Step {
    shard: &'static [u8],
    journal: &'static [u8],
    told: Told,
    /// of the journals that wait then
    ids: &'static [i64],
}

struct Case {
    vector: &'static [&'static [u8]],
    steps: &'static [Step],
}

const CASES: &[Case] = &[
    Case {
        vector: &[b"-80", b"80-"],
        steps: &[Step {
            shard: b"-80",
            journal: SPLIT,
            told: Told::Completes,
            ids: &[],
        }],
    },
    Case {
        vector: &[b"-80", b"80-", b"-40"],
        steps: &[Step {
            shard: b"-80",
            journal: SPLIT,
            told: Told::Clashes,
            ids: &[],
        }],
    },
    Case {
        vector: &[b"-80", b"80-", b"1"],
        steps: &[
            Step {
                shard: b"-80",
                journal: MERGE,
                told: Told::Waits,
                ids: &[9],
            },
            Step {
                shard: b"-80",
                journal: MERGE,
                told: Told::Waits,
                ids: &[9],
            },
            Step {
                shard: b"1",
                journal: MERGE,
                told: Told::Waits,
                ids: &[9],
            },
            Step {
                shard: b"80-",
                journal: MERGE,
                told: Told::Completes,
                ids: &[],
            },
        ],
    },
    Case {
        vector: &[b"-80", b"80-", b"1"],
        steps: &[
            Step {
                shard: b"-80",
                journal: MERGE,
                told: Told::Waits,
                ids: &[9],
            },
            Step {
                shard: b"80-",
                journal: OTHER_MERGE,
                told: Told::Differs,
                ids: &[9],
            },
        ],
    },
    Case {
        vector: &[b"-80"],
        steps: &[Step {
            shard: b"-80",
            journal: MERGE,
            told: Told::Waits,
            ids: &[9],
        }],
    },
];

/// The shard of the keyspace c.
fn shard(alloc: Global, shard: &[u8]) -> Result<ShardName, Fail> {
    let keyspace = Text::from_bytes(alloc, b"c")?;
    let shard = Text::from_bytes(alloc, shard)?;
    Ok(ShardName::new(keyspace, shard).ok_or("the name is too long")?)
}

/// The shards, each at the empty set.
fn vector_of(alloc: Global, shards: &[&[u8]]) -> Result<Vector, Fail> {
    let mut vector = Vector::new(alloc);
    for name in shards {
        let at = ShardAt {
            start: Place::At(GtidSet::new(alloc)),
            last_key: None,
        };
        vector.push(shard(alloc, name)?, at)?;
    }
    Ok(vector)
}

fn refused(why: &GatherRefusal) -> Told {
    match why {
        GatherRefusal::Differs { .. } => Told::Differs,
        GatherRefusal::Clash { .. } => Told::Clashes,
        GatherRefusal::Memory => Told::Memory,
    }
}

/// What came of an arrival.
fn told_of(arrived: &Result<Arrival, GatherRefusal>) -> Told {
    match arrived {
        Ok(Arrival::Complete(_)) => Told::Completes,
        Ok(Arrival::Waiting) => Told::Waits,
        Err(why) => refused(why),
    }
}

/// What is foreseen of one.
fn foreseen_of(foreseen: &Result<bool, GatherRefusal>) -> Told {
    match foreseen {
        Ok(true) => Told::Completes,
        Ok(false) => Told::Waits,
        Err(why) => refused(why),
    }
}

/// What is foreseen of an arrival, and what comes of it; none where the shard isn't in the vector.
fn arrived(
    alloc: Global,
    vector: &Vector,
    gather: &mut Gather,
    name: &ShardName,
    journal: JournalValue,
) -> Option<(Told, Told)> {
    if !vector.stands(name) {
        return None;
    }
    let foreseen = foreseen_of(&gather.check(alloc, vector, name, &journal));
    let came = told_of(&gather.arrive(vector, name, journal));
    Some((foreseen, came))
}

fn expect_step(
    rt: &impl Abort,
    alloc: Global,
    vector: &Vector,
    gather: &mut Gather,
    step: &Step,
) -> Result<(), Fail> {
    let journal = read_text(alloc, step.journal)?;
    let told = arrived(alloc, vector, gather, &shard(alloc, step.shard)?, journal);
    assert_eq!(rt; told, Some((step.told, step.told)));
    assert_eq!(rt; gather.waiting(alloc)?.as_slice(), step.ids);
    Ok(())
}

fn expect_case(rt: &impl Abort, alloc: Global, case: &Case) -> Result<(), Fail> {
    let vector = vector_of(alloc, case.vector)?;
    let mut gather = Gather::new(alloc);
    for step in case.steps {
        expect_step(rt, alloc, &vector, &mut gather, step)?;
    }
    Ok(())
}

#[test]
fn shards_come_to_journals(rt: HostRuntime) -> Result<(), Fail> {
    for case in CASES {
        expect_case(&rt, rt.alloc(), case)?;
    }
    Ok(())
}

#[test]
fn a_journal_concerns_its_participants(rt: HostRuntime) -> Result<(), Fail> {
    let alloc = rt.alloc();
    let name = shard(alloc, b"1")?;
    let concerns = |shards: &[&[u8]]| -> Result<bool, Fail> {
        let vector = vector_of(alloc, shards)?;
        Ok(Gather::new(alloc).foreign(&vector, &name, &read_text(alloc, SPLIT)?))
    };
    assert!(rt; concerns(&[b"1", b"-80"])?);
    assert!(rt; !concerns(&[b"1", b"80-"])?);
    Ok(())
}

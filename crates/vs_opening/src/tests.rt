ghost use Rattle.std.specs.Prelude.{IfOk};
ghost use Rattle.std.specs.List.{AllByRecursion};
ghost use Rattle.vs_base.specs.Names.{FitsName};

use crate::{Named, NamesEnd, OpenEnd, law_asked, names_of, open_shard};
use std::alloc::{AllocError, Global};
use vs_base::{List, RuleText, ShardName, Text};
use vs_filter::{Filter, FilterRefusal};
use vs_outside::{MemTablets, Tablets, names_keyspace, names_shard};
use vs_request::{StartAt, Wanted};

/// A keyspace and a shard.
type Name = (&'static [u8], &'static [u8]);

/// The shards of the cluster; the schema text of the last is none.
const SHARDS: [Name; 4] = [(b"c", b"80-"), (b"d", b"0"), (b"c", b"-80"), (b"d", b"bad")];

/// One name, 65 times.
const MANY: [Name; 65] = [(b"c", b"-80"); 65];

/// Entries, and what they name or why they don't.
struct Asking {
    entries: &'static [Name],
    answer: &'static [u8],
}

static ASKING: [Asking; 8] = [
    Asking {
        entries: &[(b"c", b"")],
        answer: b"failed c/",
    },
    Asking {
        entries: &[(b"d", b"0"), (b"c", b"")],
        answer: b"d/0 c/-80 c/80- ",
    },
    Asking {
        entries: &[(b"x", b"1"), (b"c", b"80-")],
        answer: b"x/1 c/80- ",
    },
    Asking {
        entries: &[(b"c", b"-80"), (b"c", b"-80")],
        answer: b"twice c/-80",
    },
    Asking {
        entries: &[(b"c", b""), (b"d", b"0"), (b"d", b"0"), (b"c", b"80-")],
        answer: b"twice d/0",
    },
    Asking {
        entries: &[(b"c", b"80-"), (b"x", b""), (b"c", b"80-")],
        answer: b"unknown x/",
    },
    Asking {
        entries: &MANY,
        answer: b"too many",
    },
    Asking {
        entries: &[],
        answer: b"",
    },
];

/// The filter of a rule on the table `t`, a shard, and what opening it by that rule gives.
struct Opening {
    filter: &'static [u8],
    name: Name,
    answer: &'static [u8],
}

static OPENING: [Opening; 5] = [
    Opening {
        filter: b"",
        name: (b"c", b"-80"),
        answer: b"failed",
    },
    Opening {
        filter: b"",
        name: (b"c", b"-80"),
        answer: b"t",
    },
    Opening {
        filter: b"",
        name: (b"c", b"0"),
        answer: b"unknown",
    },
    Opening {
        filter: b"",
        name: (b"d", b"bad"),
        answer: b"bad schema",
    },
    Opening {
        filter: b"select b from t",
        name: (b"c", b"-80"),
        answer: b"unbound",
    },
];

fn name_of(alloc: Global, name: Name) -> Result<ShardName, AllocError> {
    let keyspace = Text::from_bytes(alloc, name.0)?;
    ShardName::new(keyspace, Text::from_bytes(alloc, name.1)?).ok_or(AllocError)
}

/// Tablets of the shards, whose first fetch and first listing fail.
fn make_tablets(alloc: Global) -> Result<MemTablets, AllocError> {
    let mut tablets = MemTablets::new(alloc)?;
    for (keyspace, shard) in SHARDS {
        let name = name_of(alloc, (keyspace, shard))?;
        if !names_keyspace(name.keyspace.as_bytes()) || !names_shard(name.shard.as_bytes()) {
            return Err(AllocError);
        }
        let schema: &[u8] = if shard == b"bad".as_slice() {
            b"row t"
        } else {
            b"table t\ncolumn a int\n"
        };
        tablets.add(name, b"", schema, Vec::new(alloc))?;
    }
    tablets.fails(alloc, &[true], &[true])?;
    Ok(tablets)
}

fn entries_of(alloc: Global, names: &[Name]) -> Result<List<Wanted>, AllocError>
    ensures { IfOk result (AllByRecursion (λ w. FitsName w.keyspace w.shard)) }
{
    let mut entries = List::new(alloc);
    for name in names {
        let ShardName { keyspace, shard } = name_of(alloc, *name)?;
        entries.push(Wanted {
            keyspace,
            shard,
            start: StartAt::Current,
            last_key: None,
        })?;
    }
    Ok(entries)
}

fn put_name(line: &mut Text, name: &ShardName) -> Result<(), AllocError> {
    line.append(name.keyspace.as_bytes())?;
    line.append(b"/")?;
    line.append(name.shard.as_bytes())
}

/// What was answered, as a line.
fn line_of(alloc: Global, named: Result<Vec<Named>, NamesEnd>) -> Result<Text, AllocError> {
    let mut line = Text::new(alloc);
    match named {
        Ok(named) => {
            for one in &named {
                put_name(&mut line, &one.name)?;
                line.append(b" ")?;
            }
        }
        Err(NamesEnd::Unknown { name }) => {
            line.append(b"unknown ")?;
            put_name(&mut line, &name)?;
        }
        Err(NamesEnd::Failed { name }) => {
            line.append(b"failed ")?;
            put_name(&mut line, &name)?;
        }
        Err(NamesEnd::Repeated { name }) => {
            line.append(b"twice ")?;
            put_name(&mut line, &name)?;
        }
        Err(NamesEnd::TooMany { n }) => line.append(if n == 65 { b"too many" } else { b"other" })?,
        Err(NamesEnd::Memory) => return Err(AllocError),
    }
    Ok(line)
}

#[test]
fn entries_name_shards(rt: HostRuntime) -> Result<(), AllocError> {
    law_asked();
    let alloc = rt.alloc();
    let mut tablets = make_tablets(alloc)?;
    for case in &ASKING {
        let entries = entries_of(alloc, case.entries)?;
        let named = names_of(alloc, &mut tablets, entries.as_slice());
        let line = line_of(alloc, named)?;
        assert_eq!(rt; line.as_bytes(), case.answer);
    }
    Ok(())
}

fn filter_of(
    alloc: Global,
    filter: &[u8],
    tablets: &mut MemTablets,
) -> Result<Filter, FilterRefusal> {
    let rule = RuleText {
        pattern: Text::from_bytes(alloc, b"t")?,
        filter: Text::from_bytes(alloc, filter)?,
    };
    Filter::build(alloc, &[rule], tablets)
}

/// What opening the shard gives: the name of the first table of which rows are taken, or why nothing.
fn opened(alloc: Global, tablets: &mut MemTablets, case: &Opening) -> Result<Text, AllocError> {
    let Ok(filter) = filter_of(alloc, case.filter, tablets) else {
        return Err(AllocError);
    };
    let name = name_of(alloc, case.name)?;
    let why: &[u8] = match open_shard(alloc, tablets, &filter, &name) {
        Ok(ready) => {
            tablets.give_back(&name, ready.feed);
            return match ready.bound.tables.as_slice().first() {
                Some(picked) => picked.name.copy(alloc),
                None => Ok(Text::new(alloc)),
            };
        }
        Err(OpenEnd::Unknown) => b"unknown",
        Err(OpenEnd::Failed) => b"failed",
        Err(OpenEnd::BadSchema { line: 1 }) => b"bad schema",
        Err(OpenEnd::BadSchema { .. }) => b"another line",
        Err(OpenEnd::Unbound { index: 0, .. }) => b"unbound",
        Err(OpenEnd::Unbound { .. }) => b"another rule",
        Err(OpenEnd::Memory) => return Err(AllocError),
    };
    Text::from_bytes(alloc, why)
}

#[test]
fn shards_open(rt: HostRuntime) -> Result<(), AllocError> {
    let mut tablets = make_tablets(rt.alloc())?;
    for case in &OPENING {
        let line = opened(rt.alloc(), &mut tablets, case)?;
        assert_eq!(rt; line.as_bytes(), case.answer);
    }
    Ok(())
}

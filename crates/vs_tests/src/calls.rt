//! Each public call that the program does not make itself.

use crate::requests::NO_SHARD;
use std::alloc::{AllocError, Global};
use std::sync::Wait;
use vs_base::{Column, ColumnKind, Gtid, List, ShardName, Text, Why};
use vs_columns::{law_digits, law_value};
use vs_command::connection::connection;
use vs_command::{Options, Status};
use vs_frame::{law_frames, law_front};
use vs_gtid::{GtidSet, law_added, law_equal_sets, law_printed, law_readings, law_united};
use vs_journal::{Entry, JournalValue, Successor, Work};
use vs_outside::{MemClock, MemSink, MemSource, MemTablets};
use vs_proto::{law_messages, law_spelling};
use vs_request::{law_keys, law_requests};
use vs_wire::{law_fields, law_varint};

/// A law is a call that does nothing; what it ensures is proved.
#[test]
fn laws_are_called() {
    law_added();
    law_united();
    law_equal_sets();
    law_readings();
    law_printed();
    law_frames();
    law_front();
    law_messages();
    law_spelling();
    law_requests();
    law_keys();
    law_value();
    law_digits();
    law_varint();
    law_fields();
}

/// What a connection over an empty cluster answers.
fn connect<R: Wait>(
    rt: &R,
    alloc: Global,
    input: &mut MemSource,
    output: &mut MemSink,
) -> Result<Status, AllocError> {
    let options = Options {
        until_end: true,
        capacity: 4,
    };
    let mut tablets = MemTablets::new(alloc)?;
    let mut clock = MemClock::new(alloc, &[])?;
    Ok(connection(rt, alloc, options, input, output, &mut tablets, &mut clock))
}

#[test]
fn a_connection_reads_its_request(rt: HostRuntime) -> Result<(), AllocError> {
    let alloc = rt.alloc();
    let mut input = MemSource::new(alloc, NO_SHARD, &[])?;
    let mut output = MemSink::new(alloc, &[])?;
    let status = connect(&rt, alloc, &mut input, &mut output)?;
    assert_eq!(rt; status.number(), 3);
    Ok(())
}

/// The name of all shards of the keyspace c.
fn whole_keyspace(alloc: Global) -> Result<ShardName, AllocError> {
    let keyspace = Text::from_bytes(alloc, b"c")?;
    ShardName::new(keyspace, Text::new(alloc)).ok_or(AllocError)
}

/// The refusal of a log, with a table's name that isn't UTF-8.
fn bad_log(alloc: Global) -> Result<Status, AllocError> {
    let table = Text::from_bytes(alloc, b"t\xff")?;
    Ok(Status::BadLog {
        name: whole_keyspace(alloc)?,
        offset: 9,
        why: Why::Disagrees { table },
    })
}

/// The line of a refused log, on an output.
#[test]
fn a_line_is_written_as_its_bytes(rt: HostRuntime) -> Result<(), AllocError> {
    let alloc = rt.alloc();
    let status = bad_log(alloc)?;
    let mut output = MemSink::new(alloc, &[])?;
    assert!(rt; status.write_line(&mut output).is_ok());
    let line = b"bad log c/ at 9: table t\xff disagrees\n".as_slice();
    assert_eq!(rt; output.sent(), line);
    Ok(())
}

#[test]
fn an_entry_is_copied(rt: HostRuntime) -> Result<(), AllocError> {
    let entry = Entry {
        gtid: Gtid::new([1; 16], 5).ok_or(AllocError)?,
        time: 100,
        work: Work::Other,
    };
    assert_eq!(rt; entry.copy(rt.alloc())?.time, 100);
    Ok(())
}

#[test]
fn a_column_is_copied(rt: HostRuntime) -> Result<(), AllocError> {
    let alloc = rt.alloc();
    let column = Column {
        name: Text::from_bytes(alloc, b"id")?,
        kind: ColumnKind::Date,
    };
    assert_eq!(rt; column.copy(alloc)?.kind, ColumnKind::Date);
    Ok(())
}

#[test]
fn a_journal_is_copied(rt: HostRuntime) -> Result<(), AllocError> {
    let alloc = rt.alloc();
    let journal = JournalValue {
        id: 7,
        shards: true,
        participants: List::new(alloc),
        successors: List::new(alloc),
    };
    assert_eq!(rt; journal.copy(alloc)?.id, 7);
    Ok(())
}

#[test]
fn a_successor_is_copied(rt: HostRuntime) -> Result<(), AllocError> {
    let alloc = rt.alloc();
    let successor = Successor {
        name: whole_keyspace(alloc)?,
        position: GtidSet::new(alloc),
    };
    assert_eq!(rt; successor.copy(alloc)?.position.intervals(), 0);
    Ok(())
}

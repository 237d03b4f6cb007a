use crate::{
    BuiltPatterns, Clock, Failed, Feed, FeedAnswer, Got, MemClock, MemFeed, MemSink, MemSource,
    MemTablets, PatternEnd, Sink, SinkAnswer, Source, Tablets, law_feeds, names_keyspace,
    names_shard, write_all,
};
use std::alloc::{AllocError, Global};
use vs_base::{ShardName, Text};

/// Names, and whether they are those of a keyspace and of a shard.
const NAMES: [(&[u8], bool, bool); 5] = [
    (b"", false, false),
    (b"-80", true, true),
    (b"a.b", false, true),
    (b"..", false, false),
    (b"a/b", false, false),
];

/// Texts that are no patterns.
const NO_PATTERNS: [&[u8]; 3] = [b"(", b"a**{", b"\xff"];

#[test]
fn a_source_fails_by_its_script(rt: HostRuntime) -> Result<(), AllocError> {
    let mut source = MemSource::new(rt.alloc(), b"ab", &[true])?;
    let mut buf = [0u8; 1];
    assert_eq!(rt; source.read(&mut buf), Err(Failed));
    assert_eq!(rt; source.read(&mut buf), Ok(1));
    assert_eq!(rt; buf, *b"a");
    Ok(())
}

#[test]
fn a_sink_takes_by_its_script(rt: HostRuntime) -> Result<(), AllocError> {
    let mut sink = MemSink::new(rt.alloc(), &[SinkAnswer::Take(0), SinkAnswer::Take(3)])?;
    assert_eq!(rt; sink.write(b"abc"), Ok(1));
    assert_eq!(rt; write_all(&mut sink, b"bcdef"), Ok(()));
    assert_eq!(rt; sink.sent(), b"abcdef".as_slice());
    Ok(())
}

#[test]
fn a_clock_repeats_its_last_time(rt: HostRuntime) -> Result<(), AllocError> {
    let mut clock = MemClock::new(rt.alloc(), &[5, 7])?;
    assert_eq!(rt; (clock.now(), clock.now(), clock.now()), (5, 7, 7));
    Ok(())
}

#[test]
fn names_have_their_letters(rt: HostRuntime) {
    for (text, keyspace, shard) in NAMES {
        assert_eq!(rt; names_keyspace(text), keyspace);
        assert_eq!(rt; names_shard(text), shard);
    }
}

fn name_of(alloc: Global) -> Result<ShardName, AllocError> {
    let keyspace = Text::from_bytes(alloc, b"c")?;
    ShardName::new(keyspace, Text::from_bytes(alloc, b"0")?).ok_or(AllocError)
}

/// A feed that waits once, fails once and has two bytes.
fn make_feed(alloc: Global) -> Result<MemFeed, AllocError> {
    let script = Vec::from_slice(alloc, &[FeedAnswer::Wait, FeedAnswer::Fail])?;
    let log = Vec::from_slice(alloc, b"ab")?;
    Ok(MemFeed::new(name_of(alloc)?, log, script))
}

#[test]
fn a_feed_answers_by_its_script(rt: HostRuntime) -> Result<(), AllocError> {
    let mut feed = make_feed(rt.alloc())?;
    let mut buf = [0u8; 3];
    assert_eq!(rt; feed.read(&mut buf), Ok(Got::NotYet));
    assert_eq!(rt; feed.read(&mut buf), Err(Failed));
    assert_eq!(rt; feed.read(&mut buf), Ok(Got::Bytes(2)));
    assert_eq!(rt; feed.read(&mut buf), Ok(Got::End));
    assert_eq!(rt; (feed.faults(), feed.waits()), (1, 1));
    Ok(())
}

#[test]
fn texts_are_patterns_or_none(rt: HostRuntime) {
    let mut patterns = BuiltPatterns::new();
    for text in NO_PATTERNS {
        assert!(rt; matches!(patterns.pattern(rt.alloc(), text), Err(PatternEnd::Syntax)));
    }
    assert!(rt; patterns.pattern(rt.alloc(), b"^t[0-9]").is_ok());
    assert_eq!(rt; patterns.refused, 0);
}

/// Tablets of one shard, whose first listing and first fetch fail.
fn make_tablets(alloc: Global) -> Result<MemTablets, AllocError> {
    let mut tablets = MemTablets::new(alloc)?;
    tablets.point(alloc, "anywhere")?;
    tablets.fails(alloc, &[true], &[true])?;
    let name = name_of(alloc)?;
    if names_keyspace(name.keyspace.as_bytes()) && names_shard(name.shard.as_bytes()) {
        tablets.add(name, b"log", b"s", Vec::new(alloc))?;
    }
    Ok(tablets)
}

/// How many bytes the first read of the log gives; or none where it isn't opened or fails.
fn read_once<T: Tablets>(alloc: Global, tablets: &mut T, name: &ShardName) -> Option<usize> {
    let Ok(Some(mut opened)) = tablets.open_log(alloc, name) else {
        return None;
    };
    let mut buf = [0u8; 4];
    let got = opened.feed.read(&mut buf);
    tablets.give_back(name, opened.feed);
    match got {
        Ok(Got::Bytes(n)) => Some(n),
        _ => None,
    }
}

#[test]
fn tablets_answer_by_their_scripts(rt: HostRuntime) -> Result<(), AllocError> {
    let mut tablets = make_tablets(rt.alloc())?;
    assert!(rt; tablets.list(rt.alloc(), b"c").is_err());
    let listed = tablets.list(rt.alloc(), b"c").map_err(|_| AllocError)?;
    assert!(rt; listed.is_some_and(|names| names.len() == 1));
    assert!(rt; tablets.pattern(rt.alloc(), b"a|b").is_ok());
    Ok(())
}

#[test]
fn tablets_open_logs_by_their_scripts(rt: HostRuntime) -> Result<(), AllocError> {
    let mut tablets = make_tablets(rt.alloc())?;
    let name = name_of(rt.alloc())?;
    assert_eq!(rt; read_once(rt.alloc(), &mut tablets, &name), None);
    assert_eq!(rt; read_once(rt.alloc(), &mut tablets, &name), Some(3));
    Ok(())
}

#[test]
fn the_laws_are_called() {
    law_feeds();
}

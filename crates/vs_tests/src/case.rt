//! A stream over memory, and what is to come of it.

use crate::logs::LOG;
use crate::requests::REQUEST;
use std::alloc::{AllocError, Global};
use std::process::Abort;
use std::sync::Wait;
use vs_base::{ShardName, Text};
use vs_command::Status;
use vs_command::run::run;
use vs_outside::{
    FeedAnswer, MemClock, MemSink, MemSource, MemTablets, SinkAnswer, names_keyspace, names_shard,
};

/// What happens to a stream over memory, and what comes of it.
#[derive(Clone, Copy)]
pub struct Case<'a> {
    pub what: &'a str,
    pub input: &'a [u8],
    /// The log, event by event.
    pub log: &'a [&'a [u8]],
    /// How many bytes `a` stand behind these.
    pub padding: usize,
    pub schema: &'a [u8],
    pub input_fails: bool,
    pub fetch_fails: bool,
    pub feed: &'a [FeedAnswer],
    pub sink: &'a [SinkAnswer],
    pub number: u8,
    pub line: &'a str,
    pub written: &'a [u8],
}

/// Nothing fails, the statements are asked for, and nothing more is written.
pub const CASE: Case<'static> = Case {
    what: "",
    input: REQUEST,
    log: LOG,
    padding: 0,
    schema: b"",
    input_fails: false,
    fetch_fails: false,
    feed: &[],
    sink: &[],
    number: 0,
    line: "",
    written: b"",
};

fn name_of(alloc: Global) -> Result<ShardName, AllocError> {
    let keyspace = Text::from_bytes(alloc, b"c")?;
    ShardName::new(keyspace, Text::from_bytes(alloc, b"0")?).ok_or(AllocError)
}

/// The bytes of the events, one behind another, and of what stands behind them.
fn log_of(alloc: Global, events: &[&[u8]], padding: usize) -> Result<Vec<u8>, AllocError> {
    let mut log = Vec::new(alloc);
    for event in events {
        log.extend_from_slice(event)?;
    }
    let behind = vec![in alloc; b'a'; padding]?;
    log.extend_from_slice(behind.as_slice())?;
    Ok(log)
}

/// The answers of the one feed of the shard.
fn scripts_of(alloc: Global, feed: &[FeedAnswer]) -> Result<Vec<Vec<FeedAnswer>>, AllocError> {
    let mut scripts = Vec::new(alloc);
    scripts.push(Vec::from_slice(alloc, feed)?)?;
    Ok(scripts)
}

/// Adds the shard c/0 with the log of the case.
fn add_shard(alloc: Global, tablets: &mut MemTablets, case: &Case<'_>) -> Result<(), AllocError> {
    let name = name_of(alloc)?;
    if !names_keyspace(name.keyspace.as_bytes()) || !names_shard(name.shard.as_bytes()) {
        return Err(AllocError);
    }
    let log = log_of(alloc, case.log, case.padding)?;
    tablets.add(name, &log, case.schema, scripts_of(alloc, case.feed)?)
}

/// Tablets with the one shard c/0.
fn tablets_of(alloc: Global, case: &Case<'_>) -> Result<MemTablets, AllocError> {
    let mut tablets = MemTablets::new(alloc)?;
    add_shard(alloc, &mut tablets, case)?;
    tablets.fails(alloc, &[case.fetch_fails], &[])?;
    Ok(tablets)
}

/// Runs the program's call on the case.
fn run_case<R: Wait>(
    rt: &R,
    alloc: Global,
    words: &[String],
    case: &Case<'_>,
    output: &mut MemSink,
) -> Result<Status, AllocError> {
    let mut tablets = tablets_of(alloc, case)?;
    let mut input = MemSource::new(alloc, case.input, &[case.input_fails])?;
    let mut clock = MemClock::new(alloc, &[])?;
    Ok(run(
        rt,
        alloc,
        words,
        &mut input,
        output,
        &mut tablets,
        &mut clock,
    ))
}

/// Runs the case, and compares its status, its line and what was written.
pub fn check_words<R: Wait + Abort>(
    rt: &R,
    alloc: Global,
    words: &[String],
    case: &Case<'_>,
) -> Result<(), AllocError> {
    let what = case.what;
    let mut output = MemSink::new(alloc, case.sink)?;
    let status = run_case(rt, alloc, words, case, &mut output)?;
    let line = status.line(alloc)?;
    assert_eq!(rt; status.number(), case.number, "{what}");
    assert_eq!(rt; line.as_bytes(), case.line.as_bytes(), "{what}");
    assert_eq!(rt; output.sent(), case.written, "{what}");
    Ok(())
}

fn stream_words(alloc: Global) -> Result<Vec<String>, AllocError> {
    let mut words = Vec::new(alloc);
    words.push(String::from_str(alloc, "stream")?)?;
    words.push(String::from_str(alloc, "logs")?)?;
    Ok(words)
}

/// Runs the cases of a stream.
pub fn check<R: Wait + Abort>(rt: &R, alloc: Global, cases: &[Case<'_>]) -> Result<(), AllocError> {
    let words = stream_words(alloc)?;
    for case in cases {
        check_words(rt, alloc, &words, case)?;
    }
    Ok(())
}

/// Streams the case to its end.
pub fn record<R: Wait>(
    rt: &R,
    alloc: Global,
    case: &Case<'_>,
    output: &mut MemSink,
) -> Result<Status, AllocError> {
    let words = stream_words(alloc)?;
    run_case(rt, alloc, &words, case, output)
}

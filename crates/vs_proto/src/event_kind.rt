//! The kinds of events, by the numbers of `VEventType` in `proto/vstream.proto`.

pub const UNKNOWN: i32 = 0;

pub const GTID: i32 = 1;

pub const BEGIN: i32 = 2;

pub const COMMIT: i32 = 3;

pub const DDL: i32 = 5;

pub const OTHER: i32 = 11;

pub const ROW: i32 = 12;

pub const FIELD: i32 = 13;

pub const HEARTBEAT: i32 = 14;

pub const VGTID: i32 = 15;

pub const JOURNAL: i32 = 16;

pub const LASTPK: i32 = 18;

pub const COPY_COMPLETED: i32 = 20;

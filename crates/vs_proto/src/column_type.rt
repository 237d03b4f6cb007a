//! The types of columns, by the numbers of `Type` in `proto/vstream.proto`.

pub const NULL_TYPE: i32 = 0;

pub const DECIMAL: i32 = 18;

pub const INT8: i32 = 257;

pub const INT16: i32 = 259;

pub const INT24: i32 = 261;

pub const INT32: i32 = 263;

pub const INT64: i32 = 265;

pub const UINT8: i32 = 770;

pub const UINT16: i32 = 772;

pub const UINT24: i32 = 774;

pub const UINT32: i32 = 776;

pub const UINT64: i32 = 778;

pub const TIMESTAMP: i32 = 2061;

pub const DATE: i32 = 2062;

pub const DATETIME: i32 = 2064;

pub const TEXT: i32 = 6163;

pub const VARCHAR: i32 = 6165;

pub const CHAR: i32 = 6167;

pub const BLOB: i32 = 10260;

pub const VARBINARY: i32 = 10262;

pub const BINARY: i32 = 10264;

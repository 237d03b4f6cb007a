/// How a session is to run.
#[derive(Debug, Clone, Copy, PartialEq, Eq)]
pub struct Options {
    /// Whether the end of a log ends its stream.
    pub until_end: bool,
    /// How many pieces the queue of a shard holds, 1 to 16.
    pub capacity: usize,
}

//! The bytes of a log, of which the front is let go once it is read.
ghost use Rattle.std.specs.Prelude.{◌≡◌, ◌≤◌, ◌<◌, ◌+◌, ◌⊎◌, ◌++◌, [], OnErr, OnOk, drop, length, take, true, vec_len};
ghost use Rattle.vs_entries.specs.Windows.{LetsGo, gone_of};

use std::alloc::Global;
use std::marker::Model;
use std::snapshot::Snapshot;
use vs_base::OutOfMemory;

/// The fewest bytes that are let go at once, where others behind them stay.
const STEP: usize = 65_536;

/// Bytes that were let go, for the contracts: the first so many of what was held. It has no bytes
/// itself.
#[derive(Drop)]
pub struct Gone {
    bytes: Snapshot<Vec<u8>>,
    count: Snapshot<usize>,
}

/// The bytes of a log from some place on. A contract sees all of them, and that place.
#[derive(Drop)]
pub struct Window {
    gone: Vec<Gone>,
    /// the place of the first byte that is held
    from: usize,
    held: Vec<u8>,
}

impl Model for Window {
    ghost use Rattle.std.specs.Prelude.{◌≡◌, ◌++◌, length};
    ghost use Rattle.vs_entries.specs.Windows.{Windowed, gone_of};

    ghost Value = { Windowed };

    ghost view = { λ w. record { bytes = gone_of w.gone.items ++ w.held.items; from = w.from } };

    ghost invariant = { λ w. length (gone_of w.gone.items) ≡ w.from };
}

impl Window {
    pub fn new(alloc: Global) -> Window
        ensures { result ≡ record { bytes = []; from = 0 } }
    {
        Window {
            gone: Vec::new(alloc),
            from: 0,
            held: Vec::new(alloc),
        }
    }

    /// Takes the next bytes of the log.
    pub fn feed(&mut self, piece: &[u8]) -> Result<(), OutOfMemory>
        ensures ok { OnOk result (self.new ≡ record self.old { bytes = self.old.bytes ++ piece.now }) }
        ensures err { OnErr result (self.new ≡ self.old) }
    {
        self.held.extend_from_slice(piece)
    }

    /// The place of the first byte that is held.
    pub fn from(&self) -> usize
        ensures { result ≡ self.now.from }
    {
        self.from
    }

    /// How many bytes are held.
    pub fn len(&self) -> usize
        ensures { self.now.from + result ≡ length self.now.bytes }
    {
        self.held.len()
    }

    /// Takes back what was fed behind so many bytes that are held.
    pub fn take_back(&mut self, len: usize)
        ensures { self.new ≡ record self.old { bytes = take (self.old.from + len) self.old.bytes } }
    {
        self.held.truncate(len);
    }

    /// The bytes from a place on.
    pub fn rest(&self, at: usize) -> &[u8]
        requires from { self.now.from ≤ at }
        requires within { at ≤ length self.now.bytes }
        ensures { result.now ≡ drop at self.now.bytes }
    {
        &self.held[at - self.from..]
    }

    /// Lets the bytes before a place go, if they are many enough. All such calls together take time
    /// in proportion to the bytes that were fed.
    pub fn let_go(&mut self, at: usize) -> Result<(), OutOfMemory>
        requires from { self.old.from ≤ at }
        requires within { at ≤ length self.old.bytes }
        ensures ok { OnOk result (LetsGo at self.old self.new) }
        ensures few { OnOk result ((at < self.new.from + 65536) ⊎ (at + at ≤ self.new.from + length self.old.bytes)) }
        ensures err { OnErr result (self.new ≡ self.old) }
    {
        let done = at - self.from;
        if !is_worth_it(done, self.held.len() - done) {
            return Ok(());
        }
        note_gone(&mut self.gone, &self.held, done)?;
        drop_front(&mut self.held, done);
        self.from = at;
        Ok(())
    }
}

/// Whether so many bytes are let go, where so many stay behind them and have to be moved.
fn is_worth_it(done: usize, left: usize) -> bool
    ensures moves { result ≡ true → left ≤ done }
    ensures few { (result ≡ true) ⊎ ((done < 65536) ⊎ (done ≤ left)) }
{
    left == 0 || (STEP <= done && left <= done)
}

/// Notes for the contracts that the first so many bytes of what is held were let go.
fn note_gone(gone: &mut Vec<Gone>, held: &Vec<u8>, done: usize) -> Result<(), OutOfMemory>
    ensures ok { OnOk result (gone_of gone.new.items ≡ gone_of gone.old.items ++ take done held.now.items) }
    ensures err { OnErr result (gone.new.items ≡ gone.old.items) }
{
    gone.push(Gone {
        bytes: Snapshot::of(held),
        count: Snapshot::of(&done),
    })?;
    Ok(())
}

/// Drops the first bytes.
fn drop_front(held: &mut Vec<u8>, done: usize)
    requires { done ≤ vec_len held.old }
    ensures { held.new.items ≡ drop done held.old.items }
{
    let left = held.len() - done;
    held.copy_within(done.., 0);
    held.truncate(left);
}

ghost use Rattle.std.specs.Prelude.{◌≡◌, ◌≤◌, length};
ghost use Rattle.vs_binlog.specs.Heads.{body_of, kind_of};
ghost use Rattle.vs_log.specs.Events.{sort, sort_of};
ghost use Rattle.vs_entries.specs.Reading.{misplaced};

use vs_base::Why;
use vs_binlog::{HEAD, read_head};
use vs_log::Sort;

/// What stands behind the head of an event.
#[tactic(auto, unfolding(vs_binlog::specs::Heads::body_of))]
pub fn body_of(event: &[u8]) -> &[u8]
    requires { 19 ≤ length event.now }
    ensures { result.now ≡ body_of event.now }
{
    &event[HEAD..]
}

/// What the event is to a log.
#[tactic(auto, unfolding(vs_log::specs::Events::sort_of))]
pub fn sort_in(event: &[u8]) -> Sort
    requires { 19 ≤ length event.now }
    ensures { result ≡ sort_of event.now }
{
    let head = read_head(event);
    sort_by(head.kind, head.flags)
}

fn sort_by(kind: u8, flags: u16) -> Sort
    ensures { result ≡ sort kind flags }
{
    match kind {
        34 => Sort::AnonymousEvent,
        3 | 4 => Sort::PassedOver,
        15 => Sort::FormatEvent,
        35 => Sort::PreviousEvent,
        33 => Sort::GtidEvent,
        2 => Sort::QueryEvent,
        16 => Sort::XidEvent,
        19 => Sort::MapEvent,
        30 | 31 | 32 => Sort::RowsEvent,
        _ if (flags / 128) % 2 == 1 => Sort::PassedOver,
        _ => Sort::ForeignEvent,
    }
}

/// What is wrong with an event where none of its sort is taken.
#[inline(never)]
pub fn misplaced(event: &[u8], sort: Sort) -> Why
    requires { 19 ≤ length event.now }
    ensures { result ≡ misplaced sort (kind_of event.now) }
{
    let kind = read_head(event).kind;
    match sort {
        Sort::AnonymousEvent => Why::Anonymous,
        Sort::ForeignEvent => Why::Unsupported { kind },
        _ => Why::BadOrder { kind },
    }
}

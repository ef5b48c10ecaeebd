//! The end of a DCS sequence after its payload, and how many bytes belong to it.

ghost use Rattle.std.specs.Prelude.{◌≡◌, ◌+◌, ◌≤◌, ◌++◌, List, ℕ, length, Some};
ghost use Rattle.sixel_base.specs.{Bytes.{count, first_terminator}, Dcs.{end_count, end_status}};
ghost use Rattle.sixel_base.specs.Dcs.{ended_with, escape_count, escape_status};
ghost use Rattle.sixel_base.specs.declared.status.SixelDcsFeedStatus.TheVariants.{NeedMoreData};
ghost use Rattle.sixel_decoder.specs.inside.DcsState.{GoesTo};

use sixel_base::status::{SixelDcsFeedResult, SixelDcsFeedStatus};

/// Returns the result of a feed whose payload has ended after `consumed` bytes.
pub fn end_now(
    ended: Option<SixelDcsFeedStatus>,
    terminator: u8,
    consumed: usize,
    chunk: &[u8],
) -> SixelDcsFeedResult
    requires { consumed ≤ length chunk.now }
    ensures within { result.consumed ≤ length chunk.now + 2 }
    ensures ends { (payload : List ℕ) → ended ≡ ended_with payload
        → first_terminator (payload ++ chunk.now) ≡ Some terminator
        → count payload + consumed ≡ count (payload ++ chunk.now)
        → GoesTo payload (payload ++ chunk.now) result }
{
    let rest = &chunk[chunk.len().min(consumed + 1)..];
    let end = match ended {
        None => end_at(terminator, rest),
        Some(status) => end_later(status, chunk),
    };
    SixelDcsFeedResult {
        consumed: consumed + end.consumed,
        status: end.status,
    }
}

/// Returns the end at a terminator with these bytes after it.
fn end_at(terminator: u8, rest: &[u8]) -> SixelDcsFeedResult
    ensures count { result.consumed ≡ end_count terminator rest.now }
    ensures status { result.status ≡ end_status terminator rest.now }
    ensures few { result.consumed ≤ 2 }
{
    match terminator {
        0x9c => SixelDcsFeedResult {
            consumed: 1,
            status: SixelDcsFeedStatus::Complete,
        },
        0x18 | 0x1a => SixelDcsFeedResult {
            consumed: 1,
            status: SixelDcsFeedStatus::Cancelled(terminator),
        },
        0x1b => {
            let end = end_after_escape(rest);
            SixelDcsFeedResult {
                consumed: end.consumed + 1,
                status: end.status,
            }
        }
        _ => SixelDcsFeedResult {
            consumed: 0,
            status: SixelDcsFeedStatus::Interrupted(terminator),
        },
    }
}

/// Returns the end once ESC was consumed, with these bytes after it.
fn end_after_escape(rest: &[u8]) -> SixelDcsFeedResult
    ensures count { result.consumed + 1 ≡ escape_count rest.now }
    ensures status { result.status ≡ escape_status rest.now }
    ensures few { result.consumed ≤ 1 }
{
    match rest {
        [] => SixelDcsFeedResult {
            consumed: 0,
            status: SixelDcsFeedStatus::NeedMoreData,
        },
        [b'\\', ..] => SixelDcsFeedResult {
            consumed: 1,
            status: SixelDcsFeedStatus::Complete,
        },
        _ => SixelDcsFeedResult {
            consumed: 0,
            status: SixelDcsFeedStatus::Interrupted(0x1b),
        },
    }
}

/// Returns the end of a sequence that had this status, with these bytes after it.
pub fn end_later(status: SixelDcsFeedStatus, rest: &[u8]) -> SixelDcsFeedResult
    ensures waiting { status ≡ NeedMoreData → (result.consumed + 1 ≡ escape_count rest.now)
        × (result.status ≡ escape_status rest.now) }
    ensures over { (status ≡ NeedMoreData → ⊥)
        → (result.consumed ≡ 0) × (result.status ≡ status) }
    ensures few { result.consumed ≤ 1 }
{
    match status {
        SixelDcsFeedStatus::NeedMoreData => end_after_escape(rest),
        _ => SixelDcsFeedResult {
            consumed: 0,
            status,
        },
    }
}

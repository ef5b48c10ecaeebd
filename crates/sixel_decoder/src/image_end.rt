//! Where an image ends, whatever faults its bytes have.
//!
//! A feed that fails and each feed after it are counted by these functions.

ghost use Rattle.std.specs.Prelude.{◌≡◌, ◌*◌, ◌+◌, ◌≤◌, ◌++◌, List, ℕ, drop, length, true, false};
ghost use Rattle.sixel_base.specs.{Bytes.{count, first_terminator}, Dcs.ended_with};
ghost use Rattle.sixel_base.specs.{Settings.Settings, Status.status_of};
ghost use Rattle.sixel_decoder.specs.{ImageEnds.{Extends, IsEnd, inside}, Reception.OfPayload};
ghost use Rattle.sixel_decoder.specs.{Reception.OfString, inside.DcsState.GoesTo};

use crate::bytes::is_terminator;
use crate::dcs_end::{end_later, end_now};
use crate::received::{FailedRead, Received, Status};
use sixel_base::SixelError;
use sixel_base::status::{
    SixelDcsFeedResult, SixelDcsFeedStatus, SixelFeedResult, SixelFeedStatus,
};

/// Counts a chunk of a payload that failed, and stores its first terminator.
#[cold]
#[inline(never)]
pub fn payload_end(terminator: &mut Option<u8>, chunk: &[u8], error: SixelError) -> FailedRead
    ensures error { result.error ≡ error }
    ensures counted { (settings : Settings) (bytes : List ℕ)
        → first_terminator bytes ≡ terminator.old
        → (first_terminator (bytes ++ chunk.now) ≡ terminator.new)
        × Extends (OfPayload settings) bytes (bytes ++ chunk.now) chunk.now result.fed }
{
    let fed = match *terminator {
        Some(byte) => SixelFeedResult {
            consumed: 0,
            status: SixelFeedStatus::Terminated(byte),
        },
        None => to_terminator(chunk),
    };
    *terminator = fed.status.terminator();
    FailedRead {
        fed: Received::of_payload(fed),
        error,
    }
}

/// Returns how many bytes stand before the first terminator, which is the status.
fn to_terminator(chunk: &[u8]) -> SixelFeedResult
    ensures within { result.consumed ≤ length chunk.now }
    ensures count { result.consumed ≡ count chunk.now }
    ensures status { result.status ≡ status_of (first_terminator chunk.now) }
{
    'bytes: for index in 0..chunk.len() {
        if is_terminator(chunk[index]) {
            return SixelFeedResult {
                consumed: index,
                status: SixelFeedStatus::Terminated(chunk[index]),
            };
        }
    }
    SixelFeedResult {
        consumed: chunk.len(),
        status: SixelFeedStatus::NeedMoreData,
    }
}

/// Counts a chunk of a DCS sequence that failed, and stores how it has ended.
#[cold]
#[inline(never)]
pub fn sequence_end(
    is_begun: bool,
    ended: &mut Option<SixelDcsFeedStatus>,
    chunk: &[u8],
    error: SixelError,
) -> FailedRead
    ensures error { result.error ≡ error }
    ensures counted { (bytes : List ℕ) → IsEnd is_begun ended.old bytes
        → (ended.new ≡ ended_with (inside (bytes ++ chunk.now)))
        × Extends OfString bytes (bytes ++ chunk.now) chunk.now result.fed }
{
    let start = inside_start(is_begun, chunk);
    let fed = add_inside(ended, &chunk[start..]);
    FailedRead {
        fed: Received {
            consumed: start + fed.consumed,
            status: Status::Dcs(fed.status),
        },
        error,
    }
}

/// Returns where the bytes after the first one of an introducer begin.
fn inside_start(is_begun: bool, chunk: &[u8]) -> usize
    ensures within { result ≤ length chunk.now }
    ensures later { is_begun ≡ true → result ≡ 0 }
    ensures first { is_begun ≡ false → inside chunk.now ≡ drop result chunk.now }
{
    if is_begun || chunk.is_empty() {
        return 0;
    }
    usize::from(matches!(chunk[0], 0x1b | 0x90))
}

/// Adds bytes after the introducer, and returns how many of them belong to the sequence.
#[tactic(auto, using(crate::proofs::images::ImageEnds::inside_ends))]
fn add_inside(ended: &mut Option<SixelDcsFeedStatus>, chunk: &[u8]) -> SixelDcsFeedResult
    ensures within { result.consumed ≤ length chunk.now + 2 }
    ensures goes { (before : List ℕ) → ended.old ≡ ended_with before
        → GoesTo before (before ++ chunk.now) result
        × (ended.new ≡ ended_with (before ++ chunk.now)) }
{
    let end = match *ended {
        Some(status) => end_later(status, chunk),
        None => {
            let fed = to_terminator(chunk);
            let Some(terminator) = fed.status.terminator() else {
                return SixelDcsFeedResult {
                    consumed: fed.consumed,
                    status: SixelDcsFeedStatus::NeedMoreData,
                };
            };
            end_now(None, terminator, fed.consumed, chunk)
        }
    };
    *ended = Some(end.status);
    end
}

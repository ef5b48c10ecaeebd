//! The segments of a band: pixels of one palette entry, close together.

ghost use Rattle.std.specs.Prelude.{◌≡◌, ◌≢◌, ◌+◌, ◌-◌, ◌*◌, ◌<◌, ◌^◌, ◌++◌, IfOk, OnOk};
ghost use Rattle.std.specs.Prelude.{length, true, false};
ghost use Rattle.sixel_encoder.specs.Segments.{band_segments, gap_of, passes, in_pass, after_pass};
ghost use Rattle.sixel_encoder.specs.inside.Indexed.{drawing_of};
ghost use Rattle.sixel_encoder.specs.inside.Compact.{AreLanes, AreLast, with_run};

use crate::band_entries::{BandEntries, TRANSPARENT};
use crate::text::IndexedImage;
use std::alloc::{AllocError, Global};

/// The pixels of a palette entry between two columns of a band.
#[derive(Clone, Copy)]
pub struct Segment {
    /// The palette entry.
    pub entry: usize,
    /// The first column.
    pub first: usize,
    /// The column after the last.
    pub end: usize,
}

/// Returns the segments of a band, in the order in which they begin.
pub fn band_segments(alloc: Global, entries: &BandEntries<'_>) -> Result<Vec<Segment>, AllocError>
    requires { AreLanes entries.now }
    ensures { IfOk result (λ segments.
        segments.items ≡ band_segments (drawing_of entries.now.image.now) entries.now.band) }
{
    let gap = gap_of(entries.image);
    let mut segments = Vec::new(alloc);
    let mut last: [Option<usize>; 256] = [None; 256];
    let mut column = 0;
    'columns: while column < entries.image.width {
        if entries.is_uniform(column) {
            let lane = entries.lane(column, 0);
            let first = column;
            column = entries.end_of_repeats(column);
            if lane != TRANSPARENT {
                let run = run_of(lane, first, column);
                push_run(&mut segments, &mut last, gap, run)?;
            }
        } else {
            let mut above = TRANSPARENT;
            for bit in 0..6 {
                let lane = entries.lane(column, bit);
                if lane != above && lane != TRANSPARENT {
                    let run = run_of(lane, column, column + 1);
                    push_run(&mut segments, &mut last, gap, run)?;
                }
                above = lane;
            }
            column += 1;
        }
    }
    Ok(segments)
}

/// Returns how many blank columns cut a row: as many as none has, if there are few colors.
fn gap_of(image: &IndexedImage<'_>) -> usize
    ensures { result ≡ gap_of (drawing_of image.now) }
{
    if image.colors.len() <= 24 {
        image.width
    } else {
        10
    }
}

/// Returns a run of pixels of a lane.
#[inline(always)]
fn run_of(lane: u16, first: usize, end: usize) -> Segment
    ensures entry { result.entry ≡ lane }
    ensures first { result.first ≡ first }
    ensures end { result.end ≡ end }
{
    Segment {
        entry: usize::from(lane),
        first,
        end,
    }
}

/// Adds a run of pixels to the last segment of its palette entry, or as a new one.
///
/// `last` has the index of the last segment of each entry.
#[inline(always)]
fn push_run(
    segments: &mut Vec<Segment>,
    last: &mut [Option<usize>],
    gap: usize,
    run: Segment,
) -> Result<(), AllocError>
    requires entry { run.entry < length last.old }
    requires some { run.first < run.end }
    requires last { AreLast segments.old.items last.old gap run.first }
    requires small { run.end + gap < 2 ^ 32 }
    ensures segments { OnOk result (segments.new.items ≡ with_run gap run segments.old.items) }
    ensures last { OnOk result (AreLast segments.new.items last.new gap (run.end - 1)) }
    ensures size { length last.new ≡ length last.old }
{
    match last[run.entry] {
        Some(index) => {
            let near = segments[index];
            if run.first < near.end + gap {
                segments[index] = Segment {
                    entry: near.entry,
                    first: near.first,
                    end: run.end,
                };
                return Ok(());
            }
        }
        None => {}
    }
    last[run.entry] = Some(segments.len());
    segments.push(run)?;
    Ok(())
}

/// Returns segments pass by pass, each pass from left to right.
pub fn in_passes(alloc: Global, segments: &[Segment]) -> Result<Vec<Segment>, AllocError>
    ensures { IfOk result (λ ordered.
        ordered.items ≡ passes (length segments.now) segments.now) }
{
    let mut ordered = Vec::with_capacity(alloc, segments.len())?;
    let mut left = Vec::with_capacity(alloc, segments.len())?;
    left.extend_from_slice(segments)?;
    for _ in 0..segments.len() {
        if left.is_empty() {
            return Ok(ordered);
        }
        let mut rest = Vec::with_capacity(alloc, left.len())?;
        push_pass(&mut ordered, &mut rest, &left)?;
        left = rest;
    }
    ordered.extend_from_slice(&left)?;
    Ok(ordered)
}

/// Appends the segments of the next pass to `ordered` and the others to `rest`.
fn push_pass(
    ordered: &mut Vec<Segment>,
    rest: &mut Vec<Segment>,
    segments: &[Segment],
) -> Result<(), AllocError>
    ensures ordered { OnOk result
        (ordered.new.items ≡ ordered.old.items ++ in_pass 0 segments.now) }
    ensures rest { OnOk result
        (rest.new.items ≡ rest.old.items ++ after_pass 0 segments.now) }
{
    let mut column = 0;
    for segment in segments {
        if column <= segment.first {
            ordered.push(*segment)?;
            column = segment.end;
        } else {
            rest.push(*segment)?;
        }
    }
    Ok(())
}

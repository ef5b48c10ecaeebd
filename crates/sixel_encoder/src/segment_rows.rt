//! The rows of a band's segments, drawn over one another.

ghost use Rattle.std.specs.Prelude.{◌≡◌, ◌-◌, ◌≤◌, IfOk, OnOk, length};
ghost use Rattle.sixel_encoder.specs.Compact.{blocked_after, segment_row, transparent_row, union};
ghost use Rattle.sixel_encoder.specs.inside.{Compact.{AreLanes, IsSegment}, Indexed.drawing_of};

use crate::band_entries::BandEntries;
use crate::segments::Segment;
use std::alloc::{AllocError, Global};

/// The rows of sixels that drawing a segment needs.
#[derive(Drop)]
pub struct SegmentRows {
    /// The sixels that are drawn for a segment.
    pub row: Vec<u8>,
    /// The sixels of the band that may not be covered.
    blocked: Vec<u8>,
}

impl SegmentRows {
    /// Returns rows for bands of a width.
    pub fn new(alloc: Global, width: usize) -> Result<SegmentRows, AllocError>
        ensures { IfOk result (λ rows. length rows.blocked.items ≡ width) }
    {
        let row = Vec::with_capacity(alloc, width)?;
        let blocked = vec![in alloc; 0; width]?;
        Ok(SegmentRows { row, blocked })
    }

    /// Begins a band: only its transparent pixels are blocked.
    pub fn begin(&mut self, entries: &BandEntries<'_>)
        requires entries { AreLanes entries.now }
        requires wide { length self.old.blocked.items ≡ entries.now.image.now.width }
        ensures { self.new.blocked.items
            ≡ transparent_row (drawing_of entries.now.image.now) entries.now.band }
    {
        for column in 0..self.blocked.len() {
            self.blocked[column] = entries.transparent(column);
        }
    }

    /// Draws the row of a segment from a column on, and blocks its pixels.
    ///
    /// A run goes on as long as it covers its own pixels and none that is blocked.
    pub fn draw(
        &mut self,
        entries: &BandEntries<'_>,
        segment: &Segment,
        from: usize,
    ) -> Result<(), AllocError>
        requires entries { AreLanes entries.now }
        requires wide { length self.old.blocked.items ≡ entries.now.image.now.width }
        requires from { from ≤ segment.now.first }
        requires within { IsSegment (drawing_of entries.now.image.now) segment.now }
        ensures row { OnOk result (self.new.row.items ≡ segment_row
            (drawing_of entries.now.image.now) entries.now.band self.old.blocked.items segment.now
            from) }
        ensures blocked { OnOk result (self.new.blocked.items ≡ blocked_after
            (drawing_of entries.now.image.now) entries.now.band self.old.blocked.items
            segment.now) }
    {
        let mut bits = 0;
        let mut ban = union_of(&self.blocked, from, segment.first);
        self.row.clear();
        for column in segment.first..segment.end {
            let own = entries.sixel(column, segment.entry);
            let blocked = self.blocked[column];
            self.blocked[column] = blocked | own;
            let more = bits | own;
            let wider = ban | blocked;
            if more & wider == 0 {
                bits = more;
                ban = wider;
            } else {
                self.row.resize(column - from, bits)?;
                bits = own;
                ban = blocked;
            }
        }
        self.row.resize(segment.end - from, bits)?;
        Ok(())
    }
}

/// Returns the bits that some sixels of a row from a column up to another have.
fn union_of(row: &[u8], from: usize, end: usize) -> u8
    requires from { from ≤ end }
    requires end { end ≤ length row.now }
    ensures { result ≡ union row.now from (end - from) }
{
    let mut union = 0;
    for column in from..end {
        union |= row[column];
    }
    union
}

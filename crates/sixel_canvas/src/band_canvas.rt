//! A canvas of one band: the rows above it are final, and stored as those of the image.
ghost use Rattle.std.specs.Prelude.{◌≡◌, ℕ, ◌+◌, ◌*◌, ◌≤◌, ◌<◌, List, max, OnErr, OnOk, ◌-◌};
ghost use Rattle.std.specs.Prelude.{length, nat_lt, if◌then◌else◌};
ghost use Rattle.sixel_canvas.specs.{Drawn.Run, Layout.{AreCopied, AreRowsIn}, Paints.counted};
ghost use Rattle.sixel_canvas.specs.inside.{Band.cell, BandCanvas.{above_band, band_canvas_held}};
ghost use Rattle.sixel_canvas.specs.inside.BandCanvas.{band_canvas_shown, AreMoved, AreStored};
ghost use Rattle.sixel_canvas.specs.inside.{BandCanvas.{HasColumns, IsPaid}, RowsState.final};
ghost use Rattle.sixel_canvas.specs.inside.{RowsState.stored_area, TaggedBand.capacity};
ghost use Rattle.sixel_canvas.specs.inside.TaggedBand.{tagged_cell};

use crate::channels::RowLayout;
use crate::drawing::Canvas;
use crate::final_rows::FinalRows;
use crate::released_rows::{ReleasedRow, append_rows};
use crate::tagged_band::TaggedBand;
use sixel_base::ghost_list::GhostList;
use sixel_base::limits::MAX_SIDE;
use std::alloc::{AllocError, Global};
use std::marker::Model;

/// A canvas that is drawn on in six rows that stay in the cache.
///
/// Once the band moves down, its six rows are appended to the final ones, if anything was drawn
/// on them. Their memory is reserved before the band is drawn on, so that moving never fails.
///
/// The first final rows can be released. Then the canvas stores only the rows below them.
#[derive(Drop)]
pub struct BandCanvas {
    gone: GhostList<ReleasedRow>,
    released: usize,
    rows: FinalRows,
    band: TaggedBand,
    top: usize,
    held: usize,
    expected_width: usize,
}

impl Model for BandCanvas {
    ghost use Rattle.sixel_canvas.specs.inside.BandCanvas.{BandCanvasState, IsBandCanvas};
    ghost use Rattle.sixel_canvas.specs.inside.BandCanvas.{band_canvas_state};

    ghost Value = { BandCanvasState };

    ghost view = { λ canvas. band_canvas_state canvas.gone canvas.released canvas.rows
        canvas.band canvas.top canvas.held canvas.expected_width };

    ghost invariant = { λ canvas. IsBandCanvas (band_canvas_state canvas.gone canvas.released
        canvas.rows canvas.band canvas.top canvas.held canvas.expected_width) };
}

impl Canvas for BandCanvas {
    ghost shown = { band_canvas_shown };

    ghost top = { λ canvas. canvas.top };

    ghost held = { band_canvas_held };

    ghost released = { λ canvas. canvas.released };

    ghost work = { λ canvas. record {
      writes = canvas.rows.moved;
      room = 6 * capacity canvas.band;
      paints = canvas.band.painted;
    } };

    ghost paid = { λ canvas named runs. IsPaid (capacity canvas.band) canvas.band.painted
        canvas.band.pixels.extent canvas.band.tags.extent canvas.top runs
        × AreMoved canvas named runs
        × AreStored canvas runs };

    fn new(alloc: Global, background: [u8; 4]) -> BandCanvas {
        BandCanvas {
            gone: GhostList::new(),
            released: 0,
            rows: FinalRows::new(alloc, background),
            band: TaggedBand::new(alloc, background),
            top: 0,
            held: 0,
            expected_width: 0,
        }
    }

    #[inline(always)]
    fn top(&self) -> usize {
        self.top
    }

    fn released(&self) -> usize {
        self.released
    }

    #[inline(always)]
    fn held(&self) -> usize {
        if self.band.is_tagged() { 0 } else { self.held }
    }

    #[tactic(auto, using(crate::proofs::MovedRows::moves))]
    fn expect_width(&mut self, width: usize) {
        self.expected_width = self.expected_width.max(width);
    }

    #[tactic(auto, using(crate::proofs::BandStates::canvas_over))]
    #[inline(always)]
    fn draw(&mut self, from: usize, to: usize, bits: u8, color: [u8; 4]) -> Result<(), AllocError> {
        if bits == 0 {
            return Ok(());
        }
        self.ensure_columns(to)?;
        self.band.draw(from, to, bits, color);
        Ok(())
    }

    #[inline(always)]
    fn column(&mut self, at: usize, bits: u8, color: [u8; 4]) {
        if bits == 0 {
            return;
        }
        self.band.draw_column(at, bits, color);
    }

    #[tactic(auto, using(crate::proofs::BandStates::canvas_over))]
    #[inline(always)]
    fn draw_eight(
        &mut self,
        from: usize,
        len: usize,
        sixels: [u8; 8],
        color: [u8; 4],
    ) -> Result<(), AllocError> {
        self.ensure_columns(from + len)?;
        self.band.draw_eight(from, from + len, sixels, color);
        Ok(())
    }

    #[tactic(auto, using(crate::proofs::MovedRows::moves))]
    fn new_line(&mut self) {
        let top = self.top + 6;
        self.finish_rows();
        self.top = top;
    }

    #[tactic(auto, using(crate::proofs::ReleasedRows::rows_left))]
    fn take_picture(&mut self, width: usize, height: usize) -> Result<Vec<u8>, AllocError> {
        self.finish_rows();
        let rows = height.saturating_sub(self.released);
        self.rows.take(width, rows)
    }
}

impl BandCanvas {
    /// Returns how many pixels were written to give final rows another width. The number saturates.
    pub fn writes(&self) -> u64
        ensures { result ≡ self.now.rows.moved }
    {
        self.rows.moved()
    }

    /// Returns how many columns and tags were painted so far. The number saturates.
    ///
    /// The tags of a band are painted once it moves down, as the columns of their tiles.
    pub fn paints(&self) -> u64
        ensures { result ≡ self.now.band.painted }
    {
        self.band.painted()
    }

    /// Copies `rows` final rows from row `first` on to a caller's memory.
    #[tactic(auto, using(crate::proofs::ReleasedRows::rows_left))]
    pub fn copy_rows(&self, first: usize, rows: usize, layout: RowLayout, out: &mut [u8])
        requires stored { self.now.released ≤ first }
        requires above { first + rows ≤ self.now.top }
        requires fits { AreRowsIn layout rows (length out.old) }
        ensures len { length out.new ≡ length out.old }
        ensures copied { AreCopied (band_canvas_shown self.now) first rows layout out.old out.new }
    {
        // The proof reads the top for the range of its type.
        let _top = self.top;
        let stored = self.rows.stored();
        stored.copy(first - self.released, rows, layout, out);
    }

    /// Releases the final rows above row `rows`.
    ///
    /// Their memory is reused. It is freed if no other row is stored and the band is empty.
    #[tactic(auto, using(crate::proofs::MovedRows::moved_released))]
    pub fn release_rows(&mut self, rows: usize)
        requires above { rows ≤ self.old.top }
        ensures shown { (column row : ℕ) → band_canvas_shown self.new column row
            ≡ band_canvas_shown self.old column row }
        ensures released { self.new.released ≡ max self.old.released rows }
        ensures top { self.new.top ≡ self.old.top }
        ensures band { self.new.band ≡ self.old.band }
        ensures writes { self.new.rows.moved ≡ self.old.rows.moved }
        ensures moved { (named : ℕ) (runs : List Run) → AreMoved self.old named runs
            → AreMoved self.new named runs }
        ensures stored { (runs : List Run) → AreStored self.old runs → AreStored self.new runs }
        ensures room { self.old.band.pixels.extent ≡ 0
            → self.old.released + self.old.rows.rows ≤ rows → self.new.rows.room ≡ 0 }
    {
        let count = rows.saturating_sub(self.released);
        append_rows(&mut self.gone, &self.rows, count);
        self.rows.remove(count);
        self.released += count;
        self.free_unused();
    }

    /// Frees the memory of the rows, if none is stored and the band is empty.
    fn free_unused(&mut self)
        ensures shown { (column row : ℕ) → band_canvas_shown self.new column row
            ≡ band_canvas_shown self.old column row }
        ensures released { self.new.released ≡ self.old.released }
        ensures top { self.new.top ≡ self.old.top }
        ensures band { self.new.band ≡ self.old.band }
        ensures moved { self.new.rows.moved ≡ self.old.rows.moved }
        ensures width { self.new.rows.width ≡ self.old.rows.width }
        ensures rows { self.new.rows.rows ≡ self.old.rows.rows }
        ensures expected { self.new.expected ≡ self.old.expected }
        ensures room { self.old.band.pixels.extent ≡ 0 → self.old.rows.rows ≡ 0
            → self.new.rows.room ≡ 0 }
    {
        if self.band.extent() == 0 {
            self.rows.free_unused();
            self.held = 0;
        }
    }

    /// Makes sure that `columns` columns can be drawn and appended without an allocation.
    #[inline(always)]
    fn ensure_columns(&mut self, columns: usize) -> Result<(), AllocError>
        requires some { 0 < columns }
        requires within { columns ≤ 1000000 }
        requires above_bottom { self.old.top + 6 ≤ 1000000 }
        ensures { OnOk result (HasColumns self.old self.new columns) }
    {
        if columns <= self.held {
            return Ok(());
        }
        self.widen(columns)
    }

    /// Allocates memory for `columns` columns of a band that has too little.
    #[tactic(auto, using(crate::proofs::MovedRows::moves))]
    #[cold]
    #[inline(never)]
    fn widen(&mut self, columns: usize) -> Result<(), AllocError>
        requires some { 0 < columns }
        requires within { columns ≤ 1000000 }
        requires above_bottom { self.old.top + 6 ≤ 1000000 }
        ensures { OnOk result (HasColumns self.old self.new columns) }
    {
        let least = columns
            .max(self.held)
            .max(self.expected_width.min(MAX_SIDE));
        self.rows.reserve(least, self.top - self.released + 6)?;
        if self.band.cap() < columns + 8 {
            self.band.widen(columns + 8)?;
        }
        self.held = self.rows.width().min(self.band.cap() - 8);
        Ok(())
    }

    /// Makes all that was drawn final, and moves the band below it.
    fn finish_rows(&mut self)
        ensures shown { (column row : ℕ) → above_band self.new column row
            ≡ band_canvas_shown self.old column row }
        ensures empty { (column k : ℕ) → tagged_cell self.new.band column k
            ≡ self.new.rows.background }
        ensures extent { self.new.band.pixels.extent ≡ 0 }
        ensures capacity { capacity self.new.band ≡ capacity self.old.band }
        ensures top { self.new.top ≤ self.old.top + 6 }
        ensures released { self.new.released ≡ self.old.released }
        ensures held { self.new.held ≡ 0 }
        ensures tagged { self.new.band.tags.extent ≡ 0 }
        ensures painted { self.new.band.painted
            ≤ self.old.band.painted + 128 * self.old.band.tags.extent }
        ensures counted { counted self.old.band.painted 0 ≤ self.new.band.painted }
        ensures moved { (named : ℕ) (runs : List Run) → AreMoved self.old named runs
            → AreMoved self.new named runs }
        ensures stored { self.new.released + self.new.rows.rows
            ≡ (if nat_lt 0 self.old.band.pixels.extent then self.old.top + 6
            else self.old.released + self.old.rows.rows) }
    {
        if self.band.extent() > 0 {
            let width = self.expected_width;
            let top = self.top - self.released;
            append_band(&mut self.rows, &mut self.band, top, width);
            self.top += 6;
        }
        self.held = 0;
    }
}

/// Appends the six rows of a band to the rows above it, with background between them.
fn append_band(rows: &mut FinalRows, band: &mut TaggedBand, top: usize, expected_width: usize)
    requires above { rows.old.rows ≤ top }
    requires bottom { top + 6 ≤ 1000000 }
    requires background { rows.old.background ≡ band.old.pixels.background }
    requires stored { band.old.pixels.extent ≤ rows.old.width }
    requires room { 4 * ((top + 6) * rows.old.width) ≤ rows.old.room }
    ensures shown { (column row : ℕ) → final rows.new column row ≡ (if nat_lt row top
        then final rows.old column row else tagged_cell band.old column (row - top)) }
    ensures rows { rows.new.rows ≡ top + 6 }
    ensures rows_background { rows.new.background ≡ rows.old.background }
    ensures moved { rows.new.moved ≡ rows.old.moved }
    ensures shifts { rows.new.shifts ≡ rows.old.shifts }
    ensures width { rows.new.width ≤ rows.old.width }
    ensures area { stored_area rows.old ≤ stored_area rows.new }
    ensures cleared { (column k : ℕ) → tagged_cell band.new column k ≡ band.old.pixels.background }
    ensures background { band.new.pixels.background ≡ band.old.pixels.background }
    ensures extent { band.new.pixels.extent ≡ 0 }
    ensures capacity { capacity band.new ≡ capacity band.old }
    ensures tagged { band.new.tags.extent ≡ 0 }
    ensures painted { band.new.painted ≡ counted band.old.painted (128 * band.old.tags.extent) }
{
    band.untag_all();
    let width = expected_width.min(rows.width()).max(band.extent());
    rows.fit(width);
    'blank: for _row in rows.len()..top {
        rows.append(&[]);
    }
    'appended: for k in 0..6 {
        rows.append(band.row(k));
    }
    band.clear();
}

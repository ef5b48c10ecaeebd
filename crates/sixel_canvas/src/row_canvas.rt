//! A canvas of rows that grow as far as they are drawn on.
ghost use Rattle.std.specs.Prelude.{◌≡◌, ℕ, ◌+◌, ◌*◌, ◌/◌, ◌%◌, ◌^◌, ◌≤◌, ◌<◌, ◌++◌, List, max};
ghost use Rattle.std.specs.Prelude.{◌-◌, [], length, true, All, vec_len, vec_capacity};
ghost use Rattle.std.specs.Prelude.{slice_index_or, IfOk, IsOk, OnOk, if◌then◌else◌};
ghost use Rattle.sixel_base.specs.{Limits.{area_limit, side_limit}, Picture.{covers, is_struck}};
ghost use Rattle.sixel_base.specs.Picture.{joined, picture};
ghost use Rattle.sixel_canvas.specs.Paints.{counted, ends_and_tags, least_painted};
ghost use Rattle.sixel_canvas.specs.inside.{RowBand.{IsRowBand, line_in}, RowCanvas.AreFewTags};
ghost use Rattle.sixel_canvas.specs.inside.RowCanvas.{IsDrawnBy, IsRowCanvas, band_line, band_rows};
ghost use Rattle.sixel_canvas.specs.inside.RowCanvas.{row_canvas_held, row_canvas_shown};
ghost use Rattle.sixel_canvas.specs.inside.{RowCanvas.{row_canvas_work, row_len}, Tags.is_tag};

use crate::drawing::Canvas;
use crate::row_band::RowBand;
use crate::span::{AllocResult, add_pixels};
use crate::tag::TILE;
use sixel_base::limits::MAX_SIDE;
use std::alloc::{AllocError, Global};
use std::marker::Model;

/// How many bands an image has at most.
const MAX_BANDS: usize = MAX_SIDE / 6;

/// A canvas that stores each row up to its last column that was drawn on.
///
/// A band without a set pixel has no rows. Work and capacity are counted: they are in proportion to
/// the area of the right edges of the rows.
#[derive(Drop)]
pub struct RowCanvas {
    /// The bands from the top, as far as one was drawn on.
    bands: Vec<RowBand>,
    /// How many bands are above the one that is drawn on.
    band: usize,
    background: [u8; 4],
    paints: u64,
}

impl Model for RowCanvas {
    ghost use Rattle.sixel_canvas.specs.inside.RowCanvas.{RowCanvasState, IsRowCanvas};
    ghost use Rattle.sixel_canvas.specs.inside.RowCanvas.{row_canvas_state};

    ghost Value = { RowCanvasState };

    ghost view = { λ canvas.
        row_canvas_state canvas.background canvas.bands.items canvas.band canvas.paints };

    ghost invariant = { λ canvas. IsRowCanvas
        (row_canvas_state canvas.background canvas.bands.items canvas.band canvas.paints) };
}

impl Canvas for RowCanvas {
    ghost shown = { row_canvas_shown };

    ghost top = { λ canvas. 6 * canvas.band };

    ghost held = { row_canvas_held };

    ghost released = { λ _. 0 };

    ghost work = { row_canvas_work };

    ghost paid = { λ canvas named runs. IsDrawnBy canvas runs };

    fn new(alloc: Global, background: [u8; 4]) -> RowCanvas {
        RowCanvas {
            bands: Vec::new(alloc),
            band: 0,
            background,
            paints: 0,
        }
    }

    #[inline(always)]
    fn top(&self) -> usize {
        6 * self.band
    }

    fn released(&self) -> usize {
        0
    }

    #[inline(always)]
    fn held(&self) -> usize {
        match self.bands.get(self.band) {
            Some(band) => band.held(),
            None => 0,
        }
    }

    fn expect_width(&mut self, _width: usize) {}

    #[inline(always)]
    fn draw(&mut self, from: usize, to: usize, bits: u8, color: [u8; 4]) -> Result<(), AllocError> {
        if bits == 0 {
            return Ok(());
        }
        make_band(&mut self.bands, self.band, self.background)?;
        self.draw_band(from, to, bits, color)
    }

    #[inline(always)]
    fn column(&mut self, at: usize, bits: u8, color: [u8; 4]) {
        if bits == 0 {
            return;
        }
        let _drawn = self.draw_band(at, at + 1, bits, color);
    }

    fn new_line(&mut self) {
        self.band += 1;
    }

    fn take_picture(&mut self, width: usize, height: usize) -> Result<Vec<u8>, AllocError> {
        self.pack(width, height)
    }
}

impl RowCanvas {
    /// Returns how many pixels were copied or filled to grow the rows.
    ///
    /// Painting, packing and tags do not count. A row has at most one tag for each whole 128
    /// columns, and capacity for at most twice as many.
    pub fn writes(&self) -> u64
        ensures value { result ≡ (row_canvas_work self.now).writes }
        ensures at_most { result ≤ 3000000000000 }
        ensures tags { AreFewTags self.now }
    {
        let mut writes = 0;
        'counted: for band in &self.bands {
            writes += band.writes();
        }
        writes
    }

    /// Returns how many pixels and tags were painted at most.
    ///
    /// The number saturates.
    pub fn paints(&self) -> u64
        ensures { result ≡ (row_canvas_work self.now).paints }
    {
        let mut appended = 0;
        'counted: for band in &self.bands {
            appended += band.appended();
        }
        self.paints.saturating_add(appended)
    }

    /// Counts a sixel, and draws it on the rows of the band, which were made.
    #[inline(always)]
    fn draw_band(&mut self, from: usize, to: usize, bits: u8, color: [u8; 4]) -> AllocResult<()>
        requires ordered { from < to }
        requires within { to ≤ side_limit }
        requires made { 0 < length (band_rows self.old) }
        requires visible { is_tag color ≡ true }
        ensures drawn { OnOk result ((column row : ℕ) → row_canvas_shown self.new column row
            ≡ (if covers from to (6 * self.old.band) bits column row then color
            else row_canvas_shown self.old column row)) }
        ensures grown { OnOk result ((row : ℕ) → row_len self.new row
            ≡ (if is_struck (6 * self.old.band) bits row then max (row_len self.old row) to
            else row_len self.old row)) }
        ensures band { self.new.band ≡ self.old.band }
        ensures paints { self.new.paints ≡ counted self.old.paints (least_painted (to - from)) }
        ensures held { to ≡ from + 1
            → ((k : ℕ) → k < 6 → to ≤ length (band_line self.old k).row.pixels) → IsOk result }
        ensures sound { IsRowCanvas self.new }
    {
        self.paints = self.paints.saturating_add(run_paints(to - from));
        self.bands[self.band].draw(from, to, bits, color)
    }

    /// Returns the bytes of the picture of this size.
    fn pack(&self, width: usize, height: usize) -> AllocResult<Vec<u8>>
        requires { width * height ≤ area_limit }
        ensures ok { IfOk result (λ bytes. bytes.items
            ≡ picture (row_canvas_shown self.now) width height) }
        ensures len { IfOk result (λ bytes. length bytes.items ≡ 4 * (width * height)) }
    {
        let alloc = *self.bands.allocator();
        let mut bytes = Vec::with_capacity(alloc, 4 * (width * height))?;
        'packed: for row in 0..height {
            self.pack_row(&mut bytes, row, width)?;
        }
        Ok(bytes)
    }

    /// Appends a row of the picture of this width.
    fn pack_row(&self, bytes: &mut Vec<u8>, row: usize, width: usize) -> AllocResult<()>
        requires { vec_len bytes.old + 4 * width < 2 ^ 63 }
        ensures ok { OnOk result (bytes.new.items ≡ bytes.old.items
            ++ joined (λ column. row_canvas_shown self.now column row) width) }
        ensures len { OnOk result (vec_len bytes.new ≡ vec_len bytes.old + 4 * width) }
    {
        match self.bands.get(row / 6) {
            Some(band) => band.pack_row(row % 6, bytes, width, self.background),
            None => add_pixels(bytes, width, self.background),
        }
    }
}

/// Returns what a run over `columns` columns is counted as.
fn run_paints(columns: usize) -> u64
    requires { columns ≤ side_limit }
    ensures least { result ≡ least_painted columns }
    ensures most { result ≤ ends_and_tags columns }
{
    let painted = 6 * columns.min(columns / TILE + 2 * TILE);
    painted as u64
}

/// Makes the rows of a band.
#[inline(always)]
fn make_band(bands: &mut Vec<RowBand>, band: usize, background: [u8; 4]) -> AllocResult<()>
    requires { 6 * band + 6 ≤ side_limit }
    ensures made { OnOk result (length (slice_index_or bands.new.items band []) ≡ 6) }
    ensures same { (other k : ℕ) → line_in (slice_index_or bands.new.items other []) background k
        ≡ line_in (slice_index_or bands.old.items other []) background k }
    ensures others { (other : ℕ) → (other ≡ band → ⊥)
        → slice_index_or bands.new.items other [] ≡ slice_index_or bands.old.items other [] }
    ensures few { vec_len bands.new ≤ max (vec_len bands.old) (band + 1) }
    ensures bands { All IsRowBand bands.old.items → All IsRowBand bands.new.items }
{
    if band >= bands.len() {
        add_bands(bands, band + 1)?;
    }
    bands[band].make_rows(background)
}

/// Appends bands without rows until there are `count` bands.
#[cold]
#[inline(never)]
fn add_bands(bands: &mut Vec<RowBand>, count: usize) -> AllocResult<()>
    requires more { vec_len bands.old < count }
    requires few { 6 * count ≤ side_limit }
    ensures enough { OnOk result (vec_len bands.new ≡ count) }
    ensures same { (band : ℕ) → slice_index_or bands.new.items band []
        ≡ slice_index_or bands.old.items band [] }
    ensures few { vec_len bands.new ≤ count }
    ensures bands { All IsRowBand bands.old.items → All IsRowBand bands.new.items }
    ensures capacity { vec_capacity bands.new ≤ max (vec_capacity bands.old) (2 * count) }
{
    let alloc = *bands.allocator();
    let len = bands.len();
    bands.reserve_exact(count.max(MAX_BANDS.min(2 * len)) - len)?;
    'made: for _band in len..count {
        bands.push_reserved(RowBand::new(alloc));
    }
    Ok(())
}

//! The rows of one band of a canvas whose rows grow.
ghost use Rattle.std.specs.Prelude.{◌≡◌, ℕ, ◌+◌, ◌*◌, ◌^◌, ◌≤◌, ◌<◌, ◌++◌, List, [], max, length};
ghost use Rattle.std.specs.Prelude.{nat_le, nat_lt, ◌&&◌, true, vec_len, All, IsOk, OnOk, sum_by};
ghost use Rattle.std.specs.Prelude.{if◌then◌else◌};
ghost use Rattle.sixel_base.specs.{Limits.side_limit, Picture.{covers, is_struck, joined}};
ghost use Rattle.sixel_canvas.specs.inside.RowBand.{IsRowBand, least, line_in};
ghost use Rattle.sixel_canvas.specs.inside.{TaggedRow.{IsTaggedRow, tagged_pixel}, Tags.is_tag};

use crate::span::{AllocResult, add_pixels};
use crate::tagged_row::TaggedRow;
use sixel_base::limits::MAX_SIDE;
use std::alloc::Global;
use std::marker::Model;

/// How many rows a band has.
const ROWS: usize = 6;

/// The six rows of a band, or none as long as no pixel of the band is set.
#[derive(Drop)]
pub struct RowBand {
    rows: Vec<TaggedRow>,
}

impl Model for RowBand {
    ghost use Rattle.std.specs.Prelude.{List};
    ghost use Rattle.sixel_canvas.specs.inside.RowBand.{IsRowBand};
    ghost use Rattle.sixel_canvas.specs.inside.TaggedRow.{TaggedRowState};

    ghost Value = { List TaggedRowState };

    ghost view = { λ band. band.rows.items };

    ghost invariant = { λ band. IsRowBand band.rows.items };
}

impl RowBand {
    /// Returns a band without a row. It does not allocate.
    pub fn new(alloc: Global) -> RowBand
        ensures { result ≡ [] }
    {
        RowBand {
            rows: Vec::new(alloc),
        }
    }

    /// Makes the six rows if there are none.
    #[inline(always)]
    pub fn make_rows(&mut self, background: [u8; 4]) -> AllocResult<()>
        ensures made { OnOk result (length self.new ≡ 6) }
        ensures same { (k : ℕ) → line_in self.new background k ≡ line_in self.old background k }
        ensures sound { IsRowBand self.new }
    {
        if !self.rows.is_empty() {
            return Ok(());
        }
        self.add_rows(background)
    }

    /// Makes the six rows, of which none was made.
    #[cold]
    #[inline(never)]
    fn add_rows(&mut self, background: [u8; 4]) -> AllocResult<()>
        requires none { self.old ≡ [] }
        ensures made { OnOk result (length self.new ≡ 6) }
        ensures same { (k : ℕ) → line_in self.new background k ≡ line_in self.old background k }
        ensures sound { IsRowBand self.new }
    {
        let alloc = *self.rows.allocator();
        let mut rows = Vec::with_capacity(alloc, ROWS)?;
        'made: for _row in 0..ROWS {
            rows.push_reserved(TaggedRow::new(alloc, background));
        }
        self.rows = rows;
        Ok(())
    }

    /// Returns how many columns all six rows have.
    #[inline(always)]
    pub fn held(&self) -> usize
        ensures { (background : List ℕ)
            → result ≡ least (λ k. length (line_in self.now background k).row.pixels) 6 }
    {
        let mut held = MAX_SIDE;
        'rows: for k in 0..ROWS {
            held = held.min(self.len_of(k));
        }
        held
    }

    /// Returns how many columns row `k` has.
    fn len_of(&self, k: usize) -> usize
        ensures { (background : List ℕ)
            → result ≡ length (line_in self.now background k).row.pixels }
    {
        match self.rows.get(k) {
            Some(line) => line.len(),
            None => 0,
        }
    }

    /// Draws a sixel on the six rows.
    pub fn draw(&mut self, from: usize, to: usize, bits: u8, color: [u8; 4]) -> AllocResult<()>
        requires ordered { from < to }
        requires within { to ≤ side_limit }
        requires made { length self.old ≡ 6 }
        requires visible { is_tag color ≡ true }
        ensures drawn { OnOk result ((background : List ℕ) (column k : ℕ)
            → tagged_pixel (line_in self.new background k) column
            ≡ (if covers from to 0 bits column k then color
            else tagged_pixel (line_in self.old background k) column)) }
        ensures grown { OnOk result ((background : List ℕ) (k : ℕ)
            → length (line_in self.new background k).row.pixels
            ≡ (if is_struck 0 bits k
            then max (length (line_in self.old background k).row.pixels) to
            else length (line_in self.old background k).row.pixels)) }
        ensures held { (background : List ℕ) → to ≡ from + 1
            → ((k : ℕ) → k < 6 → to ≤ length (line_in self.old background k).row.pixels)
            → IsOk result }
        ensures made { length self.new ≡ 6 }
        ensures sound { IsRowBand self.new }
    {
        'drawn: for bit in 0..ROWS {
            if (bits >> bit) % 2 == 1 {
                draw_row(&mut self.rows, bit, from, to, color)?;
            }
        }
        Ok(())
    }

    /// Appends `width` pixels of row `k`, with background where it is short.
    pub fn pack_row(
        &self,
        k: usize,
        bytes: &mut Vec<u8>,
        width: usize,
        background: [u8; 4],
    ) -> AllocResult<()>
        requires { vec_len bytes.old + 4 * width < 2 ^ 63 }
        ensures ok { OnOk result (bytes.new.items ≡ bytes.old.items
            ++ joined (λ column. tagged_pixel (line_in self.now background k) column) width) }
        ensures len { OnOk result (vec_len bytes.new ≡ vec_len bytes.old + 4 * width) }
    {
        match self.rows.get(k) {
            Some(line) => line.pack(bytes, width),
            None => add_pixels(bytes, width, background),
        }
    }

    /// Returns how many pixels were copied or filled to grow the rows.
    pub fn writes(&self) -> u64
        ensures value { result ≡ sum_by (λ line. line.row.writes) self.now }
        ensures sound { IsRowBand self.now }
    {
        let mut writes = 0;
        'counted: for line in &self.rows {
            writes += line.writes();
        }
        writes
    }

    /// Returns how many pixels runs have painted past all that was drawn on.
    pub fn appended(&self) -> u64
        ensures value { result ≡ sum_by (λ line. line.appended) self.now }
        ensures sound { IsRowBand self.now }
    {
        let mut appended = 0;
        'counted: for line in &self.rows {
            appended += line.appended();
        }
        appended
    }
}

/// Draws a run on one row.
#[inline(always)]
fn draw_row(
    rows: &mut Vec<TaggedRow>,
    row: usize,
    from: usize,
    to: usize,
    color: [u8; 4],
) -> AllocResult<()>
    requires made { row < vec_len rows.old }
    requires ordered { from < to }
    requires within { to ≤ side_limit }
    requires visible { is_tag color ≡ true }
    ensures drawn { OnOk result ((background : List ℕ) (column : ℕ)
        → tagged_pixel (line_in rows.new.items background row) column
        ≡ (if nat_le from column && nat_lt column to then color
        else tagged_pixel (line_in rows.old.items background row) column)) }
    ensures grown { OnOk result ((background : List ℕ)
        → length (line_in rows.new.items background row).row.pixels
        ≡ max (length (line_in rows.old.items background row).row.pixels) to) }
    ensures others { (background : List ℕ) (other : ℕ) → (other ≡ row → ⊥)
        → line_in rows.new.items background other ≡ line_in rows.old.items background other }
    ensures len { vec_len rows.new ≡ vec_len rows.old }
    ensures held { to ≡ from + 1 → ((background : List ℕ)
        → to ≤ length (line_in rows.old.items background row).row.pixels) → IsOk result }
    ensures rows { All IsTaggedRow rows.old.items → All IsTaggedRow rows.new.items }
{
    rows[row].draw(from, to, color)
}

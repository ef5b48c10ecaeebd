//! The rows of an image that are final, in the bytes of the image.
ghost use Rattle.std.specs.Prelude.{◌≡◌, ℕ, ◌+◌, ◌-◌, ◌*◌, ◌^◌, ◌≤◌, ◌<◌, ◌++◌, ◌==◌, List, length};
ghost use Rattle.std.specs.Prelude.{max, nat_lt, ◌&&◌, drop, slice_index_or, IfOk, IsOk, OnErr};
ghost use Rattle.std.specs.Prelude.{OnOk, if◌then◌else◌, vec_len, vec_capacity};
ghost use Rattle.sixel_base.specs.Picture.{joined, picture};
ghost use Rattle.sixel_canvas.specs.{Layout.stored_pixel, Paints.counted};
ghost use Rattle.sixel_canvas.specs.inside.RowsState.{AreMovedWithin, AreRows, AreShrunk, final};
ghost use Rattle.sixel_canvas.specs.inside.RowsState.{stored_area};

use crate::span::add_pixels;
use crate::stored_rows::StoredRows;
use std::alloc::{AllocError, Global};
use std::marker::Model;
use std::mem;

/// The widest rows: twice as wide as an image may be.
const MAX_WIDTH: usize = 2_000_000;

/// Rows of `width` pixels each, from the top of an image, in RGBA.
///
/// The memory of the rows becomes that of the image, so that no pixel is copied at the end.
#[derive(Drop)]
pub struct FinalRows {
    bytes: Vec<u8>,
    width: usize,
    rows: usize,
    /// How many removed rows still have memory, above the others.
    free: usize,
    background: [u8; 4],
    /// How many pixels were written to give rows another width.
    moved: u64,
    /// How many rows were moved to the memory of removed rows.
    shifted: u64,
}

impl Model for FinalRows {
    ghost use Rattle.std.specs.Prelude.{◌+◌, ◌-◌, ◌*◌, ◌≤◌, drop, length, vec_capacity};
    ghost use Rattle.sixel_canvas.specs.inside.RowsState.{RowsState, AreRows, rows_state};

    ghost Value = { RowsState };

    ghost view = { λ all. rows_state all.background
        (drop (4 * (all.free * all.width)) all.bytes.items) all.width all.rows
        (vec_capacity all.bytes - 4 * (all.free * all.width)) all.moved
        (all.shifted + all.free) };

    // At most half of the memory in use is that of removed rows.
    ghost invariant = { λ all. AreRows (rows_state all.background
        (drop (4 * (all.free * all.width)) all.bytes.items) all.width all.rows
        (vec_capacity all.bytes - 4 * (all.free * all.width)) all.moved
        (all.shifted + all.free))
        × (4 * (all.free * all.width) ≤ length all.bytes.items)
        × (all.free ≤ all.rows) };
}

impl FinalRows {
    /// Creates an empty list of rows. It does not allocate.
    pub fn new(alloc: Global, background: [u8; 4]) -> FinalRows
        ensures shown { (column row : ℕ) → final result column row ≡ background }
        ensures background { result.background ≡ background }
        ensures width { result.width ≡ 0 }
        ensures rows { result.rows ≡ 0 }
        ensures moved { result.moved ≡ 0 }
        ensures shifts { result.shifts ≡ 0 }
    {
        FinalRows {
            bytes: Vec::new(alloc),
            width: 0,
            rows: 0,
            free: 0,
            background,
            moved: 0,
            shifted: 0,
        }
    }

    /// Returns how many columns each row has.
    pub fn width(&self) -> usize
        ensures { result ≡ self.now.width }
    {
        self.width
    }

    /// Returns how many rows there are.
    pub fn len(&self) -> usize
        ensures { result ≡ self.now.rows }
    {
        self.rows
    }

    /// Returns how many pixels were written to give rows another width. The number saturates.
    pub fn moved(&self) -> u64
        ensures { result ≡ self.now.moved }
    {
        self.moved
    }

    /// Allocates memory for `rows` rows of at least `columns` columns.
    ///
    /// Rows that are too narrow become at least twice as wide, so that they seldom move. Memory
    /// that is too small grows by half of what the rows need: so they never take more than three
    /// times the memory of a picture as wide as the columns that were allocated.
    pub fn reserve(&mut self, columns: usize, rows: usize) -> Result<(), AllocError>
        requires narrow { columns ≤ 1000000 }
        requires few { rows ≤ 1000006 }
        ensures shown { OnOk result ((column row : ℕ) → final self.new column row
            ≡ final self.old column row) }
        ensures width { OnOk result (max columns self.old.width ≤ self.new.width) }
        ensures narrow { OnOk result (self.new.width
            ≤ (if nat_lt self.old.width columns then 2 * columns else self.old.width)) }
        ensures room { OnOk result (4 * (rows * self.new.width) ≤ self.new.room) }
        ensures spare { OnOk result (columns ≤ self.old.width
            → self.new.room ≤ max self.old.room (6 * (rows * self.new.width))) }
        ensures rows { OnOk result (self.new.rows ≡ self.old.rows) }
        ensures background { OnOk result (self.new.background ≡ self.old.background) }
        ensures moved { OnOk result (self.new.moved ≡ (if nat_lt self.old.width columns
            then counted self.old.moved (self.old.rows * self.new.width) else self.old.moved)) }
        ensures moved_within { OnOk result (AreMovedWithin self.old self.new) }
        ensures shifts { OnOk result (self.new.shifts ≤ self.old.shifts) }
        ensures refused { OnErr result (AreShrunk self.old self.new rows) }
    {
        if columns > self.width {
            let width = columns.max(2 * self.width).min(MAX_WIDTH);
            return self.lay_out(width, rows);
        }
        let len = 4 * ((self.free + rows) * self.width);
        if len <= self.bytes.capacity() {
            return Ok(());
        }
        let spare = 2 * (rows * self.width);
        self.bytes.reserve_exact(len + spare - self.bytes.len())
    }

    /// Makes the rows no wider than `columns` if no row is stored yet.
    pub fn fit(&mut self, columns: usize)
        requires { columns ≤ self.old.width }
        ensures shown { (column row : ℕ) → final self.new column row ≡ final self.old column row }
        ensures least { columns ≤ self.new.width }
        ensures most { self.new.width ≤ self.old.width }
        ensures rows { self.new.rows ≡ self.old.rows }
        ensures room { self.new.room ≡ self.old.room }
        ensures background { self.new.background ≡ self.old.background }
        ensures moved { self.new.moved ≡ self.old.moved }
        ensures area { stored_area self.new ≡ stored_area self.old }
        ensures shifts { self.new.shifts ≡ self.old.shifts }
    {
        if self.rows == 0 {
            self.width = columns;
        }
    }

    /// Lays the rows out in this width, and allocates memory for `rows` of them.
    ///
    /// It counts the pixels that it writes. Before that it frees the memory that no row needs.
    #[tactic(auto, using(crate::proofs::MovedRows::layouts))]
    fn lay_out(&mut self, width: usize, rows: usize) -> Result<(), AllocError>
        requires narrow { width ≤ 2000000 }
        requires few { rows ≤ 1000006 }
        ensures shown { OnOk result ((column row : ℕ) → column < width
            → final self.new column row ≡ final self.old column row) }
        ensures all { OnOk result (self.old.width ≤ width → (column row : ℕ)
            → final self.new column row ≡ final self.old column row) }
        ensures width { OnOk result (self.new.width ≡ width) }
        ensures room { OnOk result (4 * (rows * self.new.width) ≤ self.new.room) }
        ensures rows { OnOk result (self.new.rows ≡ self.old.rows) }
        ensures background { OnOk result (self.new.background ≡ self.old.background) }
        ensures moved { OnOk result
            (self.new.moved ≡ counted self.old.moved (self.old.rows * width)) }
        ensures moved_within { OnOk result (2 * self.old.width ≤ width
            → AreMovedWithin self.old self.new) }
        ensures shifts { OnOk result (self.new.shifts ≤ self.old.shifts) }
        ensures refused { OnErr result (AreShrunk self.old self.new rows) }
    {
        self.bytes.shrink_to(4 * ((self.free + rows) * self.width));
        let alloc = *self.bytes.allocator();
        let mut bytes = Vec::with_capacity(alloc, 4 * (rows.max(self.rows) * width))?;
        let kept = width.min(self.width);
        'copied: for row in 0..self.rows {
            let start = 4 * ((self.free + row) * self.width);
            let old = &self.bytes[start..start + 4 * kept];
            let _added = add_row(&mut bytes, old, width - kept, self.background);
        }
        self.bytes = bytes;
        self.free = 0;
        self.width = width;
        self.moved = self.moved.saturating_add((self.rows * width) as u64);
        Ok(())
    }

    /// Appends a row of these pixels, and background to their right. It does not allocate.
    pub fn append(&mut self, pixels: &[[u8; 4]])
        requires within { length pixels.now ≤ self.old.width }
        requires few { self.old.rows < 1000006 }
        requires room { 4 * ((self.old.rows + 1) * self.old.width) ≤ self.old.room }
        ensures shown { (column row : ℕ) → final self.new column row
            ≡ (if row == self.old.rows
            then slice_index_or pixels.now column self.old.background
            else final self.old column row) }
        ensures width { self.new.width ≡ self.old.width }
        ensures rows { self.new.rows ≡ self.old.rows + 1 }
        ensures room { self.old.room ≤ self.new.room }
        ensures background { self.new.background ≡ self.old.background }
        ensures moved { self.new.moved ≡ self.old.moved }
        ensures shifts { self.new.shifts ≡ self.old.shifts }
    {
        let rest = self.width - pixels.len();
        let _added = add_row(
            &mut self.bytes,
            pixels.as_flattened(),
            rest,
            self.background,
        );
        self.rows += 1;
    }

    /// Removes `count` rows from the top, or all if there are fewer. Their memory is reused.
    ///
    /// The others move once they are not more than those removed before, so that each removed row
    /// costs the move of at most one other.
    pub fn remove(&mut self, count: usize)
        ensures sound { AreRows self.old }
        ensures shown { (column row : ℕ) → final self.new column row
            ≡ final self.old column (row + count) }
        ensures rows { self.new.rows ≡ self.old.rows - count }
        ensures width { self.new.width ≡ self.old.width }
        ensures room { self.old.room
            ≤ self.new.room + 4 * ((self.old.rows - self.new.rows) * self.old.width) }
        ensures background { self.new.background ≡ self.old.background }
        ensures moved { self.new.moved ≡ self.old.moved }
        ensures shifts { self.new.shifts ≤ self.old.shifts + count }
    {
        let count = count.min(self.rows);
        self.rows -= count;
        self.free += count;
        if self.free >= self.rows {
            remove_front(&mut self.bytes, 4 * (self.free * self.width));
            self.shifted = self.shifted.saturating_add(self.rows as u64);
            self.free = 0;
        }
    }

    /// Frees the memory, if there is no row.
    pub fn free_unused(&mut self)
        ensures shown { (column row : ℕ) → final self.new column row ≡ final self.old column row }
        ensures rows { self.new.rows ≡ self.old.rows }
        ensures width { self.new.width ≡ self.old.width }
        ensures room { self.old.rows ≡ 0 → self.new.room ≡ 0 }
        ensures background { self.new.background ≡ self.old.background }
        ensures moved { self.new.moved ≡ self.old.moved }
        ensures shifts { self.new.shifts ≡ self.old.shifts }
    {
        if self.rows == 0 {
            self.bytes.shrink_to_fit();
        }
    }

    /// Returns the stored rows, to copy them.
    pub fn stored(&self) -> StoredRows<'_>
        ensures whole { length result.bytes.now ≡ 4 * (result.rows * result.width) }
        ensures shown { (column row : ℕ) → stored_pixel result.bytes.now result.width result.rows
            result.background column row ≡ final self.now column row }
    {
        StoredRows {
            bytes: &self.bytes[4 * (self.free * self.width)..],
            width: self.width,
            rows: self.rows,
            background: self.background,
        }
    }

    /// Returns the bytes of the picture of this size, and removes all rows.
    pub fn take(&mut self, width: usize, height: usize) -> Result<Vec<u8>, AllocError>
        requires narrow { width ≤ 1000000 }
        requires few { height ≤ 1000000 }
        requires small { width * height ≤ 67108864 }
        ensures ok { IfOk result (λ bytes. bytes.items ≡ picture (final self.old) width height) }
        ensures len { IfOk result (λ bytes. length bytes.items ≡ 4 * (width * height)) }
        ensures left { self.new.rows ≤ self.old.rows }
        ensures background { self.new.background ≡ self.old.background }
        ensures shifts { self.new.shifts ≤ self.old.shifts }
    {
        self.match_width(width, height)?;
        let alloc = *self.bytes.allocator();
        let rows = mem::replace(&mut self.rows, 0);
        let free = mem::replace(&mut self.free, 0);
        let mut bytes = mem::replace(&mut self.bytes, Vec::new(alloc));
        remove_front(&mut bytes, 4 * (free * width));
        bytes.truncate(4 * (height * width));
        add_pixels(
            &mut bytes,
            height.saturating_sub(rows) * width,
            self.background,
        )?;
        Ok(bytes)
    }

    /// Lays the rows out in this width if they have another, and allocates memory for `rows`.
    fn match_width(&mut self, width: usize, rows: usize) -> Result<(), AllocError>
        requires narrow { width ≤ 1000000 }
        requires few { rows ≤ 1000000 }
        ensures shown { OnOk result ((column row : ℕ) → column < width
            → final self.new column row ≡ final self.old column row) }
        ensures width { OnOk result (self.new.width ≡ width) }
        ensures rows { OnOk result (self.new.rows ≡ self.old.rows) }
        ensures background { OnOk result (self.new.background ≡ self.old.background) }
        ensures shifts { OnOk result (self.new.shifts ≤ self.old.shifts) }
        ensures refused { OnErr result (AreShrunk self.old self.new rows) }
    {
        if width == self.width {
            return Ok(());
        }
        self.lay_out(width, rows)
    }
}

/// Removes `len` bytes from the front. Removing all of them is fast.
fn remove_front(bytes: &mut Vec<u8>, len: usize)
    requires { len ≤ length bytes.old.items }
    ensures items { bytes.new.items ≡ drop len bytes.old.items }
    ensures capacity { vec_capacity bytes.new ≡ vec_capacity bytes.old }
{
    if len == bytes.len() {
        bytes.clear();
        return;
    }
    bytes.drain(..len);
}

/// Appends a row of these pixels and `rest` pixels of the background.
fn add_row(
    bytes: &mut Vec<u8>,
    pixels: &[u8],
    rest: usize,
    background: [u8; 4],
) -> Result<(), AllocError>
    requires { length bytes.old.items + length pixels.now + 4 * rest < 2 ^ 63 }
    ensures ok { OnOk result (bytes.new.items
        ≡ bytes.old.items ++ (pixels.now ++ joined (λ _. background) rest)) }
    ensures within_capacity { length bytes.old.items + length pixels.now + 4 * rest
        ≤ vec_capacity bytes.old → IsOk result }
    ensures capacity { vec_capacity bytes.old ≤ vec_capacity bytes.new }
{
    bytes.extend_from_slice(pixels)?;
    add_pixels(bytes, rest, background)
}

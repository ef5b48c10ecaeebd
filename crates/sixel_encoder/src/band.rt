//! The rows of sixels of one band, for all palette entries or for a part of them.

ghost use Rattle.std.specs.Prelude.{◌≡◌, ◌≢◌, ℕ, ◌+◌, ◌*◌, ◌^◌, ◌<◌, ◌≤◌, ◌++◌, IfOk, OnOk};
ghost use Rattle.std.specs.Prelude.{string_bytes, true, false, length, slice_index};
ghost use Rattle.sixel_base.specs.Picture.{joined};
ghost use Rattle.sixel_encoder.specs.Text.{sixel_of, row_text, band_text};
ghost use Rattle.sixel_encoder.specs.inside.Grid.{cell, pixel_bit, grid_row, grid_text, AreRows};
ghost use Rattle.sixel_encoder.specs.inside.Grid.{AreBelow, AreMarks, AreClear, IsPart};
ghost use Rattle.sixel_encoder.specs.inside.Grid.{AreEmptyRows, IsSameShape, HasColumns, between};
ghost use Rattle.sixel_encoder.specs.inside.Indexed.{IsIndexed, drawing_of, entry_of};

use crate::decimal::push_number;
use crate::entries::others_from;
use crate::register_order::{RUN_LANES, are_opaque};
use crate::run_tokens::push_row;
use crate::runs::equal_from;
use crate::text::IndexedImage;
use sixel_palette::palette::colors::is_opaque;
use std::alloc::{AllocError, Global};
use std::simd::prelude::*;

/// How many bytes the rows and their marks may take.
const CAPACITY: usize = 2 * 1024 * 1024;

/// The rows of sixels of a band, for some palette entries.
#[derive(Drop)]
pub struct BandRows {
    /// The sixels, row after row.
    rows: Vec<u8>,
    /// Whether a row has a set pixel, for each row.
    used: Vec<bool>,
    /// How many sixels a row has.
    width: usize,
    /// The entry of the first row.
    first: usize,
}

impl BandRows {
    /// Returns empty rows: for all entries, or for as many as fit into the capacity.
    pub fn new(alloc: Global, image: &IndexedImage<'_>) -> Result<BandRows, AllocError>
        requires { IsIndexed image.now }
        ensures empty { IfOk result (AreEmptyRows image.now) }
        ensures most { IfOk result (λ band. (count : ℕ) → count ≤ length image.now.colors.now
            → count * (image.now.width + 1) ≤ 2097152 → count ≤ length band.used.items) }
    {
        let most = CAPACITY / (image.width + 1);
        let count = most.min(image.colors.len()).max(1);
        let rows = vec![in alloc; 0; count * image.width]?;
        let used = vec![in alloc; false; count]?;
        Ok(BandRows {
            rows,
            used,
            width: image.width,
            first: 0,
        })
    }

    /// Appends a band, in one pass over its pixels for each part of the entries.
    ///
    /// The rows are empty before and after it.
    pub fn push_band(
        &mut self,
        text: &mut String,
        image: &IndexedImage<'_>,
        band: usize,
    ) -> Result<(), AllocError>
        requires image { IsIndexed image.now }
        requires band { 6 * band < image.now.height }
        requires empty { AreEmptyRows image.now self.old }
        ensures text { OnOk result (string_bytes text.new
            ≡ string_bytes text.old ++ band_text (drawing_of image.now) band) }
        ensures empty { OnOk result (AreEmptyRows image.now self.new) }
    {
        for part in 0..image.colors.len().div_ceil(self.used.len()) {
            self.first = part * self.used.len();
            self.fill(image, band);
            self.push_rows(text)?;
        }
        text.push('-')
    }

    /// Sets the pixels of a band in empty rows.
    #[inline(never)]
    fn fill(&mut self, image: &IndexedImage<'_>, band: usize)
        requires image { IsIndexed image.now }
        requires band { 6 * band < image.now.height }
        requires empty { AreEmptyRows image.now self.old }
        requires part { IsPart self.old.first (length self.old.used.items)
            (length image.now.colors.now) }
        ensures shape { IsSameShape self.old self.new }
        ensures cells { (e x : ℕ) → e < length self.old.used.items → x < image.now.width
            → cell self.new.rows.items image.now.width e x
            ≡ sixel_of (drawing_of image.now) band (self.old.first + e) x }
        ensures marks { AreMarks self.new.rows.items self.new.used.items image.now.width }
    {
        let is_whole = self.used.len() == image.colors.len();
        let mut weight = 1;
        for bit in 0..6 {
            let row = 6 * band + bit;
            if row < image.height {
                let start = row * image.width;
                let line = Line { start, weight };
                if is_whole {
                    add_whole_line(&mut self.rows, &mut self.used, image, line);
                } else {
                    add_part_of_line(&mut self.rows, &mut self.used, image, self.first, line);
                }
            }
            weight *= 2;
        }
    }

    /// Appends the rows that have a set pixel, and empties them.
    fn push_rows(&mut self, text: &mut String) -> Result<(), AllocError>
        requires rows { AreRows self.old.rows.items self.old.used.items self.old.width }
        requires numbers { self.old.first + length self.old.used.items ≤ 512 }
        requires below { AreBelow self.old.rows.items self.old.width
            (length self.old.used.items) 64 }
        requires marks { AreMarks self.old.rows.items self.old.used.items self.old.width }
        ensures text { OnOk result (string_bytes text.new ≡ string_bytes text.old
            ++ joined (grid_text self.old.rows.items self.old.width self.old.first)
            (length self.old.used.items)) }
        ensures shape { IsSameShape self.old self.new }
        ensures clear { OnOk result (AreClear self.new.rows.items self.new.used.items
            self.old.width (length self.old.used.items)) }
    {
        for row in 0..self.used.len() {
            if !self.used[row] {
                continue;
            }
            let start = row * self.width;
            let end = start + self.width;
            text.push('#')?;
            push_number(text, self.first + row)?;
            push_row(text, &self.rows[start..end])?;
            text.push('$')?;
            self.rows[start..end].fill(0);
            self.used[row] = false;
        }
        Ok(())
    }
}

/// A line of a band: its first pixel, and the weight of its bit in a sixel.
#[derive(Clone, Copy)]
struct Line {
    start: usize,
    weight: u8,
}

/// Sets the opaque pixels of a line, in rows of all entries.
#[inline(always)]
fn add_whole_line(rows: &mut [u8], used: &mut [bool], image: &IndexedImage<'_>, line: Line)
    requires image { IsIndexed image.now }
    requires entries { length used.old ≡ length image.now.colors.now }
    requires rows { AreRows rows.old used.old image.now.width }
    requires line { line.start + image.now.width ≤ image.now.width * image.now.height }
    requires weight { 0 < line.weight }
    requires fits { (e x : ℕ) → e < length used.old → x < image.now.width
        → cell rows.old image.now.width e x + line.weight < 256 }
    requires marks { AreMarks rows.old used.old image.now.width }
    ensures cells { (e x : ℕ) → e < length used.old → x < image.now.width
        → cell rows.new image.now.width e x ≡ cell rows.old image.now.width e x
        + pixel_bit line.weight e
        (entry_of image.now.pixels.now image.now.indices.now (line.start + x)) }
    ensures marks { AreMarks rows.new used.new image.now.width }
{
    // A copy of its own stays in registers while rows change.
    let own = *image;
    let sixteens = own.width / RUN_LANES;
    for sixteen in 0..sixteens {
        add_sixteen(rows, used, &own, line, RUN_LANES * sixteen);
    }
    for column in RUN_LANES * sixteens..own.width {
        add_pixel(rows, used, &own, line, column);
    }
}

/// Sets the opaque pixels of sixteen columns of a line.
///
/// Sixteen opaque pixels of one entry are set at once.
#[inline(always)]
fn add_sixteen(
    rows: &mut [u8],
    used: &mut [bool],
    image: &IndexedImage<'_>,
    line: Line,
    column: usize,
)
    requires image { IsIndexed image.now }
    requires entries { length used.old ≡ length image.now.colors.now }
    requires rows { AreRows rows.old used.old image.now.width }
    requires line { line.start + image.now.width ≤ image.now.width * image.now.height }
    requires weight { 0 < line.weight }
    requires columns { column + 16 ≤ image.now.width }
    requires fits { (e x : ℕ) → e < length used.old → column ≤ x → x < column + 16
        → cell rows.old image.now.width e x + line.weight < 256 }
    requires marks { AreMarks rows.old used.old image.now.width }
    ensures cells { HasColumns image.now line column (column + 16) rows.old rows.new }
    ensures marks { AreMarks rows.new used.new image.now.width }
{
    let pixel = line.start + column;
    let entry = image.indices[pixel];
    if equal_from(image.indices, pixel, entry) >= RUN_LANES && are_opaque(image.pixels, pixel) {
        let row = usize::from(entry);
        let from = row * image.width + column;
        let sixels = u8x16::from_slice(&rows[from..]) + u8x16::splat(line.weight);
        sixels.copy_to_slice(&mut rows[from..]);
        used[row] = true;
        return;
    }
    for one in column..column + RUN_LANES {
        add_pixel(rows, used, image, line, one);
    }
}

/// Sets a pixel of a line if it is opaque.
#[inline(always)]
fn add_pixel(
    rows: &mut [u8],
    used: &mut [bool],
    image: &IndexedImage<'_>,
    line: Line,
    column: usize,
)
    requires image { IsIndexed image.now }
    requires entries { length used.old ≡ length image.now.colors.now }
    requires rows { AreRows rows.old used.old image.now.width }
    requires line { line.start + image.now.width ≤ image.now.width * image.now.height }
    requires weight { 0 < line.weight }
    requires column { column < image.now.width }
    requires fits { (e : ℕ) → e < length used.old
        → cell rows.old image.now.width e column + line.weight < 256 }
    requires marks { AreMarks rows.old used.old image.now.width }
    ensures cells { HasColumns image.now line column (column + 1) rows.old rows.new }
    ensures marks { AreMarks rows.new used.new image.now.width }
{
    let pixel = line.start + column;
    if !is_opaque(image.pixels, pixel) {
        return;
    }
    let row = usize::from(image.indices[pixel]);
    rows[row * image.width + column] += line.weight;
    used[row] = true;
}

/// Sets the opaque pixels of a line, in rows of a part of the entries.
#[inline(never)]
fn add_part_of_line(
    rows: &mut [u8],
    used: &mut [bool],
    image: &IndexedImage<'_>,
    first: usize,
    line: Line,
)
    requires image { IsIndexed image.now }
    requires first { first < 256 }
    requires count { length used.old < 256 }
    requires rows { AreRows rows.old used.old image.now.width }
    requires line { line.start + image.now.width ≤ image.now.width * image.now.height }
    requires weight { 0 < line.weight }
    requires fits { (e x : ℕ) → e < length used.old → x < image.now.width
        → cell rows.old image.now.width e x + line.weight < 256 }
    requires marks { AreMarks rows.old used.old image.now.width }
    ensures cells { (e x : ℕ) → e < length used.old → x < image.now.width
        → cell rows.new image.now.width e x ≡ cell rows.old image.now.width e x
        + pixel_bit line.weight (first + e)
        (entry_of image.now.pixels.now image.now.indices.now (line.start + x)) }
    ensures marks { AreMarks rows.new used.new image.now.width }
{
    let mut column = 0;
    'columns: while column < image.width {
        let pixel = line.start + column;
        let entry = usize::from(image.indices[pixel]);
        let has_row = first <= entry && entry < first + used.len();
        if has_row && is_opaque(image.pixels, pixel) {
            let row = entry - first;
            rows[row * image.width + column] += line.weight;
            used[row] = true;
        }
        column += 1 + others_from(image.indices, pixel + 1, first, used.len());
    }
}

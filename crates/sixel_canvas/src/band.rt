//! Six rows of pixels in one buffer, for the bands of an image one after another.
ghost use Rattle.std.specs.Prelude.{◌≡◌, ℕ, ◌+◌, ◌≤◌, ◌<◌, length, max, false, nat_le, nat_lt};
ghost use Rattle.std.specs.Prelude.{◌&&◌, ◌==◌, slice_index_or, IfOk, if◌then◌else◌};
ghost use Rattle.sixel_base.specs.Picture.{covers};
ghost use Rattle.sixel_canvas.specs.{Drawn.covers_eight, inside.Band.{cell, IsBand}};

use crate::pixel_row::fill;
use crate::six_rows::{draw_rows, fill_rows, mix_rows, widened};
use std::alloc::{AllocError, Global};
use std::marker::Model;

/// The greatest capacity of a band in columns: those of an image, and eight blank ones.
pub const MAX_CAP: usize = 1_000_008;

/// Six rows of `cap` columns each, which are background from `extent` on.
///
/// A row never moves while a band is drawn in memory that is wide enough, and blank columns
/// past a run's end are written as they are. So eight sixels need no branch for a bit.
#[derive(Drop)]
pub struct Band {
    pixels: Vec<[u8; 4]>,
    cap: usize,
    extent: usize,
    background: [u8; 4],
}

impl Model for Band {
    ghost use Rattle.sixel_canvas.specs.inside.Band.{BandState, IsBand, band_state};

    ghost Value = { BandState };

    ghost view = { λ band. band_state band.background band.pixels.items band.cap band.extent };

    ghost invariant = { λ band. IsBand
        (band_state band.background band.pixels.items band.cap band.extent) };
}

impl Band {
    /// Returns a band of background with memory for no column.
    pub fn new(alloc: Global, background: [u8; 4]) -> Band
        ensures shown { (column k : ℕ) → cell result column k ≡ background }
        ensures background { result.background ≡ background }
        ensures extent { result.extent ≡ 0 }
        ensures cap { result.cap ≡ 0 }
        ensures whole { IsBand result }
    {
        Band {
            pixels: Vec::new(alloc),
            cap: 0,
            extent: 0,
            background,
        }
    }

    /// Returns how many columns there is memory for.
    #[inline(always)]
    pub fn cap(&self) -> usize
        ensures value { result ≡ self.now.cap }
        ensures few { result ≤ 1000008 }
        ensures reached { self.now.extent ≤ result }
    {
        self.cap
    }

    /// Returns the column from which on all six rows are background.
    #[inline(always)]
    pub fn extent(&self) -> usize
        ensures value { result ≡ self.now.extent }
        ensures within { result ≤ self.now.cap }
        ensures few { result ≤ 1000008 }
        ensures clean { (column k : ℕ) → result ≤ column
            → cell self.now column k ≡ self.now.background }
    {
        self.extent
    }

    /// Returns a copy of the band with memory for `cap` columns.
    #[inline(never)]
    pub fn wider(&self, cap: usize) -> Result<Band, AllocError>
        requires more { self.now.cap ≤ cap }
        requires few { cap ≤ 1000008 }
        ensures cap { IfOk result (λ new. new.cap ≡ cap) }
        ensures shown { IfOk result (λ new. (column k : ℕ) → cell new column k
            ≡ cell self.now column k) }
        ensures background { IfOk result (λ new. new.background ≡ self.now.background) }
        ensures extent { IfOk result (λ new. new.extent ≡ self.now.extent) }
        ensures whole { IfOk result (λ new. IsBand new) }
    {
        let alloc = *self.pixels.allocator();
        let pixels = widened(alloc, &self.pixels, self.cap, cap, self.background)?;
        Ok(Band {
            pixels,
            cap,
            extent: self.extent,
            background: self.background,
        })
    }

    /// Draws a sixel over the columns from `from` up to before `to`, for which there is memory.
    #[inline(always)]
    pub fn draw(&mut self, from: usize, to: usize, bits: u8, color: [u8; 4])
        requires ordered { from ≤ to }
        requires held { to ≤ self.old.cap }
        ensures drawn { (column k : ℕ) → cell self.new column k
            ≡ (if covers from to 0 bits column k then color else cell self.old column k) }
        ensures background { self.new.background ≡ self.old.background }
        ensures cap { self.new.cap ≡ self.old.cap }
        ensures extent { self.new.extent ≡ max self.old.extent to }
        ensures whole { IsBand self.new }
    {
        draw_rows(&mut self.pixels, self.cap, from, to, bits, color);
        self.extent = self.extent.max(to);
    }

    /// Gives one color to a part of row `k` that was drawn on.
    pub fn draw_row(&mut self, k: usize, from: usize, to: usize, color: [u8; 4])
        requires six { k < 6 }
        requires ordered { from ≤ to }
        requires reached { to ≤ self.old.extent }
        ensures drawn { (column j : ℕ) → cell self.new column j
            ≡ (if nat_le from column && nat_lt column to && j == k then color
            else cell self.old column j) }
        ensures background { self.new.background ≡ self.old.background }
        ensures cap { self.new.cap ≡ self.old.cap }
        ensures extent { self.new.extent ≡ self.old.extent }
        ensures whole { IsBand self.new }
    {
        let start = k * self.cap;
        fill(&mut self.pixels, start + from, start + to, color);
    }

    /// Draws eight sixels of one column each, from `from` on: those past `to` are blank.
    #[inline(always)]
    pub fn draw_eight(&mut self, from: usize, to: usize, sixels: [u8; 8], color: [u8; 4])
        requires held { from + 8 ≤ self.old.cap }
        requires few { to ≤ from + 8 }
        requires blank { (column k : ℕ) → to ≤ column
            → covers_eight from sixels 0 column k ≡ false }
        ensures drawn { (column k : ℕ) → cell self.new column k
            ≡ (if covers_eight from sixels 0 column k then color else cell self.old column k) }
        ensures background { self.new.background ≡ self.old.background }
        ensures cap { self.new.cap ≡ self.old.cap }
        ensures extent { self.new.extent ≡ max self.old.extent to }
        ensures whole { IsBand self.new }
    {
        mix_rows(&mut self.pixels, self.cap, from, sixels, color);
        self.extent = self.extent.max(to);
    }

    /// Returns the pixels of row `k` up to `extent`.
    pub fn row(&self, k: usize) -> &[[u8; 4]]
        requires { k < 6 }
        ensures len { length result.now ≡ self.now.extent }
        ensures pixels { (column : ℕ) → slice_index_or result.now column self.now.background
            ≡ cell self.now column k }
    {
        let start = k * self.cap;
        &self.pixels[start..start + self.extent]
    }

    /// Fills the band with background.
    pub fn clear(&mut self)
        ensures shown { (column k : ℕ) → cell self.new column k ≡ self.old.background }
        ensures background { self.new.background ≡ self.old.background }
        ensures cap { self.new.cap ≡ self.old.cap }
        ensures extent { self.new.extent ≡ 0 }
        ensures whole { IsBand self.new }
    {
        fill_rows(
            &mut self.pixels,
            self.cap,
            0,
            self.extent,
            63,
            self.background,
        );
        self.extent = 0;
    }
}

//! What a decoder keeps from one image to the next.

ghost use Rattle.std.specs.Prelude.{◌≡◌, ◌≤◌};
ghost use Rattle.sixel_base.specs.Limits.{area_limit, side_limit, whole_limit};
ghost use Rattle.sixel_base.specs.Decoder.{clip_side_of, limit_of, new_decoder};

use crate::limits::{MAX_AREA, MAX_SIDE};
use crate::registers::Registers;
use std::marker::Model;

/// Which pixels an image may have: how many, in which columns and rows.
///
/// The columns from the left and the rows from the top are its clip. Nothing outside is drawn or
/// stored.
#[derive(Debug, Clone, Copy)]
pub struct PixelLimit {
    pixels: usize,
    columns: usize,
    rows: usize,
    lenient: bool,
    transparent: bool,
    first_register: u8,
}

impl Model for PixelLimit {
    ghost use Rattle.std.specs.Prelude.{◌≤◌};
    ghost use Rattle.sixel_base.specs.Limits.{Limit, area_limit, side_limit};

    ghost Value = { Limit };

    ghost view = { λ limit. record {
      pixels = limit.pixels;
      columns = limit.columns;
      rows = limit.rows;
      lenient = limit.lenient;
      transparent = limit.transparent;
      first_register = limit.first_register;
    } };

    ghost inverse = { λ limit. record {
      pixels = limit.pixels;
      columns = limit.columns;
      rows = limit.rows;
      lenient = limit.lenient;
      transparent = limit.transparent;
      first_register = limit.first_register;
    } };

    ghost invariant = { λ limit. (1 ≤ limit.pixels) × (limit.pixels ≤ area_limit)
        × (1 ≤ limit.columns) × (limit.columns ≤ side_limit)
        × (1 ≤ limit.rows) × (limit.rows ≤ side_limit) };
}

impl PixelLimit {
    /// The limit of a new decoder, which clips nothing.
    pub fn new() -> Self
        ensures { result ≡ whole_limit }
    {
        Self {
            pixels: MAX_AREA,
            columns: MAX_SIDE,
            rows: MAX_SIDE,
            lenient: false,
            transparent: false,
            first_register: 0,
        }
    }

    /// The same limit with the number of pixels that is nearest to this one.
    pub fn with_pixels(self, pixels: usize) -> Self
        ensures { result ≡ record self { pixels = limit_of pixels } }
    {
        Self {
            pixels: pixels.clamp(1, MAX_AREA),
            ..self
        }
    }

    /// The same limit with the clip that is nearest to this one.
    pub fn with_clip(self, width: usize, height: usize) -> Self
        ensures { result
            ≡ record self { columns = clip_side_of width; rows = clip_side_of height } }
    {
        Self {
            columns: width.clamp(1, MAX_SIDE),
            rows: height.clamp(1, MAX_SIDE),
            ..self
        }
    }

    /// The same limit, by which a faulty command is ignored, or rejects the image.
    pub fn with_lenient(self, on: bool) -> Self
        ensures { result ≡ record self { lenient = on } }
    {
        Self {
            lenient: on,
            ..self
        }
    }

    /// Whether a faulty command is ignored.
    #[inline(always)]
    pub fn lenient(self) -> bool
        ensures { result ≡ self.lenient }
    {
        self.lenient
    }

    /// The same limit, by which pixels that are not drawn are transparent, or as P2 says.
    pub fn with_transparent(self, on: bool) -> Self
        ensures { result ≡ record self { transparent = on } }
    {
        Self {
            transparent: on,
            ..self
        }
    }

    /// Whether pixels that are not drawn are transparent in all images.
    pub fn transparent(self) -> bool
        ensures { result ≡ self.transparent }
    {
        self.transparent
    }

    /// The same limit, by which an image draws in this register until it selects one.
    pub fn with_first_register(self, register: u8) -> Self
        ensures { result ≡ record self { first_register = register } }
    {
        Self {
            first_register: register,
            ..self
        }
    }

    /// The register in which an image draws until it selects one.
    pub fn first_register(self) -> u8
        ensures { result ≡ self.first_register }
    {
        self.first_register
    }

    /// How many pixels an image may have.
    #[inline(always)]
    pub fn pixels(self) -> usize
        ensures value { result ≡ self.pixels }
        ensures some { 1 ≤ self.pixels }
        ensures within { self.pixels ≤ area_limit }
    {
        self.pixels
    }

    /// How many columns of an image are inside the clip.
    #[inline(always)]
    pub fn columns(self) -> usize
        ensures value { result ≡ self.columns }
        ensures some { 1 ≤ self.columns }
        ensures within { self.columns ≤ side_limit }
    {
        self.columns
    }

    /// How many rows of an image are inside the clip.
    #[inline(always)]
    pub fn rows(self) -> usize
        ensures value { result ≡ self.rows }
        ensures some { 1 ≤ self.rows }
        ensures within { self.rows ≤ side_limit }
    {
        self.rows
    }
}

/// The color registers, and what the host has set.
#[derive(Debug, Clone, Copy)]
pub struct DecoderState {
    /// The colors that images leave to those after them.
    pub registers: Registers,
    /// Whether an image has the height that its raster attributes name.
    pub raster_crop: bool,
    /// Which pixels an image may have.
    pub pixel_limit: PixelLimit,
}

impl DecoderState {
    /// The state of a new decoder.
    pub fn new() -> Self
        ensures { result ≡ new_decoder }
    {
        Self {
            registers: Registers::new(),
            raster_crop: false,
            pixel_limit: PixelLimit::new(),
        }
    }
}

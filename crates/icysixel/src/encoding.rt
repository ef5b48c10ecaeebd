//! How pixels in the caller's memory are encoded: `icysixel_encoding` of the header.

ghost use Rattle.std.specs.Prelude.{◌≡◌};
ghost use Rattle.sixel_encoder.specs.Encoding.{source_value};
ghost use Rattle.icysixel.specs.Encodings.{background_of, color_background, color_limit};
ghost use Rattle.icysixel.specs.Encodings.{form_of, format_of, given_colors, has_options};
ghost use Rattle.icysixel.specs.Encodings.{mapping_of, mode_of, ratio_of};

use crate::format::Format;
use icy_sixel::encoder::{Amplitude, Background, Dither, Mapping, Source, TextForm, Tolerance};
use icy_sixel::{BackgroundMode, PixelAspectRatio};

/// How each pixel gets an entry of the palette.
#[repr(C)]
#[derive(Clone, Copy)]
pub struct Dithering {
    /// 0 is none, 1 error diffusion, 2 an ordered pattern.
    pub kind: u8,
    /// The eighths of the error that are diffused, or the amplitude of the pattern.
    ///
    /// 0 means 7 eighths, or the amplitude of the palette.
    pub amount: u8,
}

impl Dithering {
    /// How pixels get their entries, with this tolerance.
    pub fn mapping(&self, tolerance: u32) -> Mapping
        ensures { result ≡ mapping_of self.now tolerance }
    {
        let tolerance = if tolerance == u32::MAX {
            Tolerance::Auto
        } else {
            Tolerance::Squared(tolerance)
        };
        let dither = match (self.kind, self.amount) {
            (1, 0) => Dither::Diffusion { strength: 7 },
            (1, strength) => Dither::Diffusion { strength },
            (2, 0) => Dither::Ordered {
                amplitude: Amplitude::Auto,
            },
            (2, levels) => Dither::Ordered {
                amplitude: Amplitude::Levels(levels),
            },
            _ => Dither::Off,
        };
        Mapping { dither, tolerance }
    }
}

/// Where the palette of an output is from.
#[derive(Clone, Copy)]
pub enum PaletteMode {
    /// It is refined.
    Refined,
    /// It is refined, behind a background of its own color.
    OnBackground,
    /// It is chosen farthest first.
    Farthest,
    /// It is the caller's.
    Given,
    /// It is the caller's, and the pixels are palette indices.
    Indexed,
}

/// The layout of pixels, and how they are encoded.
#[repr(C)]
#[derive(Clone, Copy)]
pub struct Encoding {
    pub width: usize,
    pub height: usize,
    /// The number of bytes from row to row, or 0 for rows without gaps.
    pub stride: usize,
    /// The squared distance to a nearer entry at which a pixel keeps a neighbor's.
    ///
    /// The greatest number means the automatic one.
    pub tolerance: u32,
    /// The most entries of a palette that is not given, where 0 means 256.
    pub max_colors: u16,
    /// The number of colors that are given.
    pub color_count: u16,
    /// 0 is RGBA, 1 BGRA, 2 RGB, 3 BGR, 4 indices, 5 indices with a transparent one.
    pub format: u8,
    /// The height of a pixel of width 1: 2, 3 or 5. Any other number means 1.
    pub pixel_height: u8,
    /// 0 is a transparent background, 1 one in the color of register 0.
    ///
    /// 2 is the same, and register 0 has the first of the colors.
    pub background: u8,
    /// 0 is a refined palette, 1 one that is chosen farthest first, 2 the given one.
    pub palette: u8,
    pub dithering: Dithering,
    /// 0 is the plain form, 1 the compact one.
    pub form: u8,
    /// The transparent index, if the format has one.
    pub transparent: u8,
    pub colors: [[u8; 3]; 256],
}

impl Encoding {
    /// Whether the header names each number that stands for an option.
    pub fn has_options(&self) -> bool
        ensures { result ≡ has_options self.now }
    {
        self.format <= 5
            && self.background <= 2
            && self.palette <= 2
            && self.dithering.kind <= 2
            && self.form <= 1
            && !(self.background == 2 && self.palette == 1)
    }

    /// The format of the pixels.
    pub fn pixel_format(&self) -> Format
        ensures { result ≡ format_of self.now }
    {
        match self.format {
            1 => Format::Bgra,
            2 => Format::Rgb,
            3 => Format::Bgr,
            4 => Format::Indexed(None),
            5 => Format::Indexed(Some(self.transparent)),
            _ => Format::Rgba,
        }
    }

    /// The image of these pixels in RGBA.
    pub fn source<'a>(&self, pixels: &'a [u8]) -> Source<'a>
        ensures { source_value result ≡ record {
          pixels = pixels.now;
          width = self.now.width;
          height = self.now.height;
          aspect_ratio = ratio_of self.now;
          background_mode = background_of self.now;
        } }
    {
        let aspect_ratio = match self.pixel_height {
            2 => PixelAspectRatio::Ratio2To1,
            3 => PixelAspectRatio::Ratio3To1,
            5 => PixelAspectRatio::Ratio5To1,
            _ => PixelAspectRatio::Square,
        };
        let background_mode = if self.background == 0 {
            BackgroundMode::Transparent
        } else {
            BackgroundMode::Opaque
        };
        Source {
            pixels,
            width: self.width,
            height: self.height,
            aspect_ratio,
            background_mode,
        }
    }

    /// Where the palette is from.
    pub fn mode(&self) -> PaletteMode
        ensures { result ≡ mode_of self.now }
    {
        match (self.format, self.palette) {
            (4 | 5, _) => PaletteMode::Indexed,
            (_, 1) => PaletteMode::Farthest,
            (_, 2) => PaletteMode::Given,
            _ if self.background == 2 => PaletteMode::OnBackground,
            _ => PaletteMode::Refined,
        }
    }

    /// The most entries of a palette that is not given.
    pub fn color_limit(&self) -> u16
        ensures { result ≡ color_limit self.now }
    {
        if self.max_colors == 0 {
            256
        } else {
            self.max_colors
        }
    }

    /// The background of a refined palette, and the most entries with it.
    pub fn color_background(&self) -> Background
        ensures { result ≡ color_background self.now }
    {
        Background {
            color: self.colors[0],
            max_colors: self.color_limit(),
        }
    }

    /// The colors that are given, or none if their number is above 256.
    pub fn given_colors(&self) -> &[[u8; 3]]
        ensures { result.now ≡ given_colors self.now }
    {
        let count = usize::from(self.color_count);
        if count > 256 {
            &self.colors[..0]
        } else {
            &self.colors[..count]
        }
    }

    /// The form of the output.
    pub fn text_form(&self) -> TextForm
        ensures { result ≡ form_of self.now }
    {
        if self.form == 0 {
            TextForm::Plain
        } else {
            TextForm::Compact
        }
    }
}

//! The parameters of a DCS sequence before its data: background, pixel shape, grid.

ghost use Rattle.std.specs.Prelude.{◌≡◌, ◌↔◌, IsTrue, Some};
ghost use Rattle.sixel_base.specs.declared.settings.BackgroundMode.TheVariants.{Transparent};
ghost use Rattle.sixel_base.specs.declared.settings.PixelAspectRatio.TheVariants.{Square};
ghost use Rattle.sixel_base.specs.Settings.{mode_of_p2, p2_of, ratio_of_p1, p1_of, pad_of};
ghost use Rattle.sixel_base.specs.Settings.{mode_of, ratio_of};

use std::marker::Model;

/// The background, as parameter P2 of a DCS sequence selects it.
#[derive(Debug, Clone, Copy, PartialEq, Eq, Default)]
pub enum BackgroundMode {
    /// It has the color that register 0 had when the image began.
    Opaque,
    /// It is transparent.
    #[default]
    Transparent,
}

impl BackgroundMode {
    /// Returns the mode that P2 selects: 1 is transparent, any other value opaque.
    pub fn from_p2(p2: u16) -> Self
        ensures { result ≡ mode_of_p2 p2 }
    {
        match p2 {
            1 => Self::Transparent,
            _ => Self::Opaque,
        }
    }

    /// Returns a P2 that selects this mode.
    pub fn to_p2_value(self) -> u8
        ensures value { result ≡ p2_of self }
        ensures read_back { mode_of_p2 result ≡ self }
    {
        match self {
            Self::Opaque => 0,
            Self::Transparent => 1,
        }
    }

    /// Whether this is the transparent mode.
    pub fn is_transparent(self) -> bool
        ensures { IsTrue result ↔ (self ≡ Transparent) }
    {
        matches!(self, Self::Transparent)
    }
}

/// The pixel aspect ratio, as parameter P1 of a DCS sequence selects it.
#[derive(Debug, Clone, Copy, PartialEq, Eq, Default)]
pub enum PixelAspectRatio {
    /// Five times as high as wide.
    Ratio5To1,
    /// Three times as high as wide.
    Ratio3To1,
    /// Twice as high as wide.
    Ratio2To1,
    /// As high as wide.
    #[default]
    Square,
}

impl PixelAspectRatio {
    /// Returns the shape that P1 selects: DEC's table up to 9, square above.
    pub fn from_p1(p1: u16) -> Self
        ensures { result ≡ ratio_of_p1 p1 }
    {
        match p1 {
            0 | 1 | 5 | 6 => Self::Ratio2To1,
            2 => Self::Ratio5To1,
            3 | 4 => Self::Ratio3To1,
            _ => Self::Square,
        }
    }

    /// Returns a P1 that selects this shape.
    pub fn to_p1_value(self) -> u8
        ensures value { result ≡ p1_of self }
        ensures read_back { ratio_of_p1 result ≡ self }
    {
        match self {
            Self::Ratio5To1 => 2,
            Self::Ratio3To1 => 3,
            Self::Ratio2To1 => 0,
            Self::Square => 9,
        }
    }

    /// The displayed width of a pixel, in the units of [`pad`](Self::pad).
    ///
    /// The name is misleading: DEC's Pan is the height of a pixel.
    pub fn pan(self) -> u16
        ensures { result ≡ 1 }
    {
        1
    }

    /// The displayed height of a pixel, in the units of [`pan`](Self::pan).
    ///
    /// The name is misleading: DEC's Pad is the width of a pixel.
    pub fn pad(self) -> u16
        ensures { result ≡ pad_of self }
    {
        match self {
            Self::Ratio5To1 => 5,
            Self::Ratio3To1 => 3,
            Self::Ratio2To1 => 2,
            Self::Square => 1,
        }
    }

    /// Whether a pixel is as high as wide.
    pub fn is_square(self) -> bool
        ensures { IsTrue result ↔ (self ≡ Square) }
    {
        matches!(self, Self::Square)
    }
}

/// The parameters P1 to P3, between the introducer of a DCS sequence and its `q`.
///
/// Each may be left out, and by default all are. An image is then opaque and its pixels square.
#[derive(Debug, Clone, Copy, PartialEq, Eq, Default)]
pub struct DcsSettings {
    aspect_ratio: Option<u16>,
    zero_color: Option<u16>,
    grid_size: Option<u16>,
}

impl Model for DcsSettings {
    ghost use Rattle.sixel_base.specs.Settings.{Settings};

    ghost Value = { Settings };

    ghost view = { λ s. record {
      aspect_ratio = s.aspect_ratio;
      zero_color = s.zero_color;
      grid_size = s.grid_size;
    } };

    ghost inverse = { λ s. record {
      aspect_ratio = s.aspect_ratio;
      zero_color = s.zero_color;
      grid_size = s.grid_size;
    } };
}

impl DcsSettings {
    /// Creates settings with P1 (pixel shape), P2 (background) and P3 (grid size).
    pub fn new(aspect_ratio: Option<u16>, zero_color: Option<u16>, grid_size: Option<u16>) -> Self
        ensures { result ≡ record {
          aspect_ratio = aspect_ratio;
          zero_color = zero_color;
          grid_size = grid_size;
        } }
    {
        Self {
            aspect_ratio,
            zero_color,
            grid_size,
        }
    }

    /// These settings with the P1 of this shape.
    pub fn with_pixel_aspect_ratio(self, ratio: PixelAspectRatio) -> Self
        ensures { result ≡ record self { aspect_ratio = Some (p1_of ratio) } }
    {
        Self {
            aspect_ratio: Some(u16::from(ratio.to_p1_value())),
            ..self
        }
    }

    /// These settings with the P2 of this mode.
    pub fn with_background_mode(self, mode: BackgroundMode) -> Self
        ensures { result ≡ record self { zero_color = Some (p2_of mode) } }
    {
        Self {
            zero_color: Some(u16::from(mode.to_p2_value())),
            ..self
        }
    }

    /// Returns these settings with this P3, which changes no image.
    pub fn with_grid_size(self, grid_size: u16) -> Self
        ensures { result ≡ record self { grid_size = Some grid_size } }
    {
        Self {
            grid_size: Some(grid_size),
            ..self
        }
    }

    /// Returns the background with these settings: transparent only if P2 is 1.
    pub fn background_mode(self) -> BackgroundMode
        ensures { result ≡ mode_of self }
    {
        match self.zero_color {
            Some(p2) => BackgroundMode::from_p2(p2),
            None => BackgroundMode::Opaque,
        }
    }

    /// Returns the pixel shape that P1 selects, square without a P1.
    pub fn pixel_aspect_ratio(self) -> PixelAspectRatio
        ensures { result ≡ ratio_of self }
    {
        match self.aspect_ratio {
            Some(p1) => PixelAspectRatio::from_p1(p1),
            None => PixelAspectRatio::Square,
        }
    }
}

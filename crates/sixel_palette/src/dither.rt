//! How the colors of pixels are replaced by the entries of a palette.

/// Which color a pixel's entry is chosen for: its target.
#[derive(Debug, Clone, Copy, PartialEq, Eq)]
pub enum Dither {
    /// The target of a pixel is its color, or its gray: see `palette_indices`.
    Off,
    /// Error diffusion by Floyd and Steinberg, in serpentine order.
    ///
    /// Each pixel passes the difference to its entry on to its neighbors.
    Diffusion {
        /// How many eighths of the difference are passed on, clamped to 1 to 8.
        ///
        /// 7 suits palettes chosen for an image, 8 fixed palettes.
        strength: u8,
    },
    /// A fixed pattern is added to the pixels, which is stable from frame to frame.
    Ordered {
        /// How far apart the pattern moves a channel at most.
        amplitude: Amplitude,
    },
}

/// How far apart the pattern of ordered dithering moves a channel at most.
#[derive(Debug, Clone, Copy, PartialEq, Eq)]
pub enum Amplitude {
    /// Twice the square root of the palette's mean squared error over the opaque pixels.
    ///
    /// Evenly spaced levels are so far apart. It is rounded down, and at most 255. In a palette of
    /// grays the error is that of the brightness. A color is not moved if its squared distance to
    /// the nearest entry is at most 12 and at most a quarter of the mean. `encode_refined` takes it
    /// as `Refined`.
    Auto,
    /// The square root of the mean squared error, for palettes refined for the image.
    ///
    /// The error is that of `Auto`. A color is not moved if its squared distance to the nearest
    /// entry is at most a quarter of the mean. Among evenly spaced levels, the pattern would not
    /// change its entry.
    Refined,
    /// A number of the 256 levels, for all colors. 0 and 1 move nothing.
    ///
    /// The distance of neighboring entries suits a fixed palette, as 51 six equal levels.
    Levels(u8),
}

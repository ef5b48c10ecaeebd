//! How pixels get entries of a palette, and how far an entry may be from the nearest one.

use crate::dither::Dither;

/// How each pixel of an image gets an entry of a palette.
///
/// ```rust
/// let mapping = Mapping {
///     dither: Dither::Diffusion { strength: 7 },
///     tolerance: Tolerance::Auto,
/// };
/// ```
#[derive(Debug, Clone, Copy, PartialEq, Eq)]
pub struct Mapping {
    /// Which color a pixel's entry is chosen for.
    pub dither: Dither,
    /// How far a neighbor's entry may be from that color.
    pub tolerance: Tolerance,
}

/// By how much an entry may be farther from a color than the nearest one.
///
/// By diffusion, a pixel keeps a neighbor's entry if its squared distance is below that of the
/// nearest entry plus the tolerance. Otherwise, the tolerance is the price of an entry that both
/// columns beside the pixel lack. So runs are longer, and the output takes fewer bytes.
#[derive(Debug, Clone, Copy, PartialEq, Eq)]
pub enum Tolerance {
    /// The mean squared error of the palette, by a pattern twice and without dithering three times.
    ///
    /// The mean is over the opaque pixels, and taken as at least 12. The tolerance is 0 if each of
    /// their colors is an entry. In a palette of grays the error is that of the brightness.
    Auto,
    /// A squared distance. With 0 each pixel has the nearest entry.
    Squared(u32),
}

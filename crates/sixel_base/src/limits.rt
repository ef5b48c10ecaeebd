//! The limits of the format, as this library sets them.

/// The greatest count of a repeat introducer.
pub const MAX_REPEAT: u32 = 65535;

/// The greatest width, height, edge of a sixel and raster size, in pixels.
pub const MAX_SIDE: usize = 1_000_000;

/// The greatest area of an image, in pixels.
pub const MAX_AREA: usize = 67_108_864;

//! The SIXEL output of an image or of borrowed pixels, by [`sixel_encoder`], and dithering, by
//! [`sixel_palette`].

pub use sixel_encoder::{
    Background, EncodeOptions, Source, TextForm, encode_in_palette, encode_on_background,
    encode_refined, encode_source, encode_with_indices, one_drawing, sixel_encode,
    sixel_encode_default,
};
pub use sixel_palette::dither::{Amplitude, Dither};
pub use sixel_palette::dithering::palette_indices;
pub use sixel_palette::mapping::{Mapping, Tolerance};

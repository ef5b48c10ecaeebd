//! SIXEL images: an encoder and a streaming decoder, every function proved.
#![tactic(auto, using(std::proofs::lemmas::Bool::Decides::nat_tests))]

pub mod canvas;
pub mod decoder;
pub mod encoder;
pub mod laws;
pub mod receiver;
pub mod script;
pub mod sixel_image;

pub use decoder::{
    DcsSettings, SixelDcsFeedResult, SixelDcsFeedStatus, SixelDcsStreamDecoder, SixelDecoder,
    SixelFeedResult, SixelFeedStatus, SixelStreamDecoder, sixel_decode, sixel_decode_from_dcs,
};
pub use encoder::{
    Amplitude, Dither, EncodeOptions, Mapping, TextForm, Tolerance, palette_indices, sixel_encode,
    sixel_encode_default,
};
pub use receiver::{
    BandStatus, FailedFeed, Height, Received, ReceivedBand, ReceivedImage, SixelReceiver,
};
pub use script::Status;
pub use sixel_base::size::validate_encode_dimensions;
pub use sixel_base::{Result, SixelError, error, limits};
pub use sixel_canvas::channels::{ChannelOrder, RowLayout};
pub use sixel_image::{BackgroundMode, PixelAspectRatio, SixelImage};
pub use sixel_palette::palette;
pub use sixel_palette::palette::{
    DistinctColors, PaletteChoice, RefinedPalette, choose_palette, count_colors, refine_palette,
    witnesses_hold,
};

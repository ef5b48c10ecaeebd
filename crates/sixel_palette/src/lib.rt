//! The palette of an image, and the palette indices of its pixels, for the SIXEL encoder.
#![tactic(auto, using(std::proofs::lemmas::Bool::Decides::nat_tests))]

pub mod dither;
pub mod dithering;
pub mod mapping;
pub mod palette;

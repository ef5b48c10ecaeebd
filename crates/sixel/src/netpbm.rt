//! Images in netpbm's formats PAM, PPM and PGM, read to four bytes per pixel.
//!
//! The rules are those of netpbm's manual pages pam(5), ppm(5) and pgm(5).

mod error;
mod header;
mod image;
mod pam;
mod raster;
mod words;

pub use error::NetpbmError;
pub use image::read_image;

//! The pictures that are drawn, and the registers before and after.

use icy_sixel::{Result, SixelDecoder, SixelError, SixelImage};

/// A picture that is red on the left, and has the color of a register on the right.
pub struct Picture {
    width: usize,
    /// How many columns of each row are red.
    red: &'static [usize],
    register: u8,
}

/// The picture of the chunks of two bands.
pub static BANDS: Picture = Picture {
    width: 301,
    red: &[301, 301, 301, 301, 301, 301, 5, 5, 5, 5, 5, 5],
    register: 0,
};

/// The picture of [`RUN_CHUNKS`](crate::allocations::session::RUN_CHUNKS).
pub static RUN: Picture = Picture {
    width: 300,
    red: &[255; 6],
    register: 4,
};

/// The picture of [`TAGGED_CHUNKS`](crate::allocations::session::TAGGED_CHUNKS).
pub static TAGGED: Picture = Picture {
    width: 300,
    red: &[256; 6],
    register: 4,
};

impl Picture {
    /// Checks the image and the registers after a call, and sets all registers again.
    pub fn check(&self, answer: Result<SixelImage>, decoder: &mut SixelDecoder) -> Result<bool> {
        let is_right = match answer {
            Ok(image) => Ok(self.is_of(&image) & has_colors(decoder, [255, 0, 0])),
            Err(error) => error_if(has_colors(decoder, color_of(42)), error),
        };
        set_colors(decoder);
        is_right
    }

    /// Whether this is the picture of an image.
    fn is_of(&self, image: &SixelImage) -> bool {
        let mut rest = image.pixels.as_slice();
        for red in self.red {
            for column in 0..self.width {
                let is_red = column < *red;
                let [r, g, b] = if is_red {
                    [255, 0, 0]
                } else {
                    color_of(self.register)
                };
                match rest.strip_prefix(&[r, g, b, 255]) {
                    Some(after) => rest = after,
                    None => return false,
                }
            }
        }
        rest.is_empty() & (image.dimensions() == (self.width, self.red.len()))
    }
}

/// The error of a call that left the right state.
pub fn error_if(is_right: bool, error: SixelError) -> Result<bool> {
    if is_right { Err(error) } else { Ok(false) }
}

/// Gives each register a color of its own.
pub fn set_colors(decoder: &mut SixelDecoder) {
    for register in 0..=255 {
        decoder.set_register(register, color_of(register));
    }
}

/// The color that a register is given, which it does not have by default.
pub fn color_of(register: u8) -> [u8; 3] {
    [register, 255 - register, 7]
}

/// Whether register 42 has a color, and all others have their own.
pub fn has_colors(decoder: &SixelDecoder, color: [u8; 3]) -> bool {
    let mut is_right = true;
    for register in 0..=255 {
        let expected = if register == 42 {
            color
        } else {
            color_of(register)
        };
        is_right &= decoder.register(register) == expected;
    }
    is_right
}

//! The formats of pixels in the caller's memory, and their conversion to RGBA.

ghost use Rattle.std.specs.Prelude.{◌≡◌, ◌+◌, ◌*◌, ◌≤◌, IfOk, length, slice_range};
ghost use Rattle.icy_sixel.specs.ReceivedRows.{usize_max};
ghost use Rattle.icysixel.specs.Formats.{pixel_len, rgba, rgba_pixels};

use std::alloc::{AllocError, Global};

/// What the bytes of a pixel are.
#[derive(Clone, Copy)]
pub enum Format {
    /// Red, green, blue and alpha.
    Rgba,
    /// Blue, green, red and alpha.
    Bgra,
    /// Red, green and blue.
    Rgb,
    /// Blue, green and red.
    Bgr,
    /// A palette index. All indices but this one are opaque.
    Indexed(Option<u8>),
}

impl Format {
    /// The number of bytes of a pixel.
    #[inline(always)]
    pub fn pixel_len(self) -> usize
        ensures { result ≡ pixel_len self }
    {
        match self {
            Format::Rgba | Format::Bgra => 4,
            Format::Rgb | Format::Bgr => 3,
            Format::Indexed(_) => 1,
        }
    }

    /// The first pixels of these bytes, in RGBA.
    pub fn to_rgba(self, alloc: Global, bytes: &[u8], count: usize) -> Result<Vec<u8>, AllocError>
        requires within { count * pixel_len self ≤ length bytes.now }
        requires counted { 4 * count ≤ usize_max }
        ensures pixels { IfOk result (λ pixels. pixels.items ≡ rgba_pixels self bytes.now count) }
        ensures size { IfOk result (λ pixels. length pixels.items ≡ 4 * count) }
    {
        let mut pixels = Vec::from_elem(alloc, 0, 4 * count)?;
        // A loop for each format, without a branch for each pixel.
        match self {
            Format::Bgra => Format::Bgra.fill(bytes, count, &mut pixels),
            Format::Rgb => Format::Rgb.fill(bytes, count, &mut pixels),
            Format::Bgr => Format::Bgr.fill(bytes, count, &mut pixels),
            format => format.fill(bytes, count, &mut pixels),
        }
        Ok(pixels)
    }

    /// Writes the first pixels of these bytes, in RGBA.
    #[inline(always)]
    #[tactic(auto, unfolding(sixel_base::specs::Picture::joined))]
    fn fill(self, bytes: &[u8], count: usize, pixels: &mut [u8])
        requires within { count * pixel_len self ≤ length bytes.now }
        requires size { length pixels.old ≡ 4 * count }
        ensures { pixels.new ≡ rgba_pixels self bytes.now count }
    {
        'pixels: for pixel in 0..count {
            let rgba = self.rgba(self.pixel_at(bytes, pixel));
            pixels[4 * pixel..4 * pixel + 4].copy_from_slice(&rgba);
        }
    }

    /// The bytes of a pixel.
    #[inline(always)]
    fn pixel_at(self, bytes: &[u8], pixel: usize) -> &[u8]
        requires { pixel * pixel_len self + pixel_len self ≤ length bytes.now }
        ensures bytes { result.now ≡ slice_range bytes.now (pixel * pixel_len self)
            (pixel * pixel_len self + pixel_len self) }
        ensures size { length result.now ≡ pixel_len self }
    {
        let len = self.pixel_len();
        let start = pixel * len;
        &bytes[start..start + len]
    }

    /// Red, green, blue and alpha of the pixel of these bytes.
    #[inline(always)]
    fn rgba(self, pixel: &[u8]) -> [u8; 4]
        requires { length pixel.now ≡ pixel_len self }
        ensures { result ≡ rgba self pixel.now }
    {
        match self {
            Format::Rgba => [pixel[0], pixel[1], pixel[2], pixel[3]],
            Format::Bgra => [pixel[2], pixel[1], pixel[0], pixel[3]],
            Format::Rgb => [pixel[0], pixel[1], pixel[2], 255],
            Format::Bgr => [pixel[2], pixel[1], pixel[0], 255],
            Format::Indexed(None) => [0, 0, 0, 255],
            Format::Indexed(Some(transparent)) => {
                let alpha = if pixel[0] == transparent { 0 } else { 255 };
                [0, 0, 0, alpha]
            }
        }
    }
}

//! The pixels of an image.

ghost use Rattle.std.specs.Prelude.{◌≡◌, ◌≤◌, ◌<◌, ◌*◌, ◌^◌, length, MatchOption, IfOk};
ghost use Rattle.sixel.specs.netpbm.{Fields.IsHeader, Raster.{level, pixel_at, pixel_len}};
ghost use Rattle.sixel.specs.netpbm.Raster.{pixels_of, raster_len, rgba};

use crate::netpbm::header::Header;
use std::alloc::{AllocError, Global};

impl Header {
    /// The bytes of a pixel.
    fn pixel_len(&self) -> usize
        requires { IsHeader self.now }
        ensures { result ≡ pixel_len self.now }
    {
        if self.maxval < 256 {
            self.depth
        } else {
            2 * self.depth
        }
    }

    /// The bytes of all pixels, if their number fits its type.
    pub fn raster_len(&self) -> Option<usize>
        requires { IsHeader self.now }
        ensures { MatchOption result (2 ^ 64 ≤ raster_len self.now) (λ n. n ≡ raster_len self.now) }
    {
        self.width
            .checked_mul(self.height)?
            .checked_mul(self.pixel_len())
    }

    /// The pixels of these bytes, four bytes each.
    #[tactic(auto, unfolding(sixel_base::specs::Picture::joined))]
    pub fn pixels(&self, alloc: Global, raster: &[u8]) -> Result<Vec<u8>, AllocError>
        requires header { IsHeader self.now }
        requires raster { raster_len self.now ≤ length raster.now }
        ensures { IfOk result (λ pixels. pixels.items ≡ pixels_of self.now raster.now) }
    {
        let count = self.width * self.height;
        let mut pixels = Vec::with_capacity(alloc, count.saturating_mul(4))?;
        'pixels: for pixel in 0..count {
            let rgba = self.rgba(self.pixel_at(raster, pixel));
            pixels.extend_from_slice(&rgba)?;
        }
        Ok(pixels)
    }

    /// The bytes of a pixel in those of all.
    fn pixel_at<'a>(&self, raster: &'a [u8], pixel: usize) -> &'a [u8]
        requires header { IsHeader self.now }
        requires raster { raster_len self.now ≤ length raster.now }
        requires pixel { pixel < self.now.width * self.now.height }
        ensures bytes { result.now ≡ pixel_at self.now raster.now pixel }
        ensures len { length result.now ≡ pixel_len self.now }
    {
        let len = self.pixel_len();
        let start = pixel * len;
        &raster[start..start + len]
    }

    /// Red, green, blue and alpha of the pixel of these bytes.
    fn rgba(&self, pixel: &[u8]) -> [u8; 4]
        requires header { IsHeader self.now }
        requires pixel { length pixel.now ≡ pixel_len self.now }
        ensures { result ≡ rgba self.now pixel.now }
    {
        let first = self.level(pixel, 0);
        match self.depth {
            1 => [first, first, first, 255],
            2 => [first, first, first, self.level(pixel, 1)],
            3 => [first, self.level(pixel, 1), self.level(pixel, 2), 255],
            _ => [
                first,
                self.level(pixel, 1),
                self.level(pixel, 2),
                self.level(pixel, 3),
            ],
        }
    }

    /// A sample of the pixel of these bytes, scaled to a byte.
    fn level(&self, pixel: &[u8], index: usize) -> u8
        requires header { IsHeader self.now }
        requires pixel { length pixel.now ≡ pixel_len self.now }
        requires index { index < self.now.depth }
        ensures { result ≡ level self.now.maxval pixel.now index }
    {
        // The sample is a byte already, and a division per sample is slow.
        if self.maxval == 255 {
            return pixel[index];
        }
        let sample = if self.maxval < 256 {
            usize::from(pixel[index])
        } else {
            256 * usize::from(pixel[2 * index]) + usize::from(pixel[2 * index + 1])
        };
        ((255 * sample.min(self.maxval) + self.maxval / 2) / self.maxval) as u8
    }
}

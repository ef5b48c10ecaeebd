//! The palette entries of an image's pixels.

ghost use Rattle.std.specs.Prelude.{◌≡◌, ℕ, ◌*◌, ◌<◌, length, slice_index_or, Some, None};
ghost use Rattle.sixel_encoder.specs.{Text.{bands, is_entry}, Trip.{is_used, bands_up_to}};
ghost use Rattle.sixel_encoder.specs.inside.Indexed.{IsIndexed, drawing_of, entry_of};

use crate::text::IndexedImage;

/// Returns the palette entry of a pixel, if it is opaque.
#[inline(always)]
pub fn entry_of(image: &IndexedImage<'_>, pixel: usize) -> Option<usize>
    requires image { IsIndexed image.now }
    requires pixel { pixel < image.now.width * image.now.height }
    ensures entry { result ≡ entry_of image.now.pixels.now image.now.indices.now pixel }
    ensures known { (e : ℕ) → result ≡ Some e → e < length image.now.colors.now }
{
    if image.pixels[4 * pixel + 3] < 128 {
        return None;
    }
    Some(usize::from(image.indices[pixel]))
}

/// Returns whether a pixel has this palette entry, where there is one.
#[inline(always)]
pub fn has_entry(image: &IndexedImage<'_>, pixel: usize, entry: usize) -> bool
    requires image { IsIndexed image.now }
    ensures { result
        ≡ is_entry entry (slice_index_or (drawing_of image.now).entries pixel None) }
{
    if pixel >= image.indices.len() {
        return false;
    }
    match entry_of(image, pixel) {
        Some(other) => other == entry,
        None => false,
    }
}

/// Returns how many bands there are down to the last with an opaque pixel.
pub fn used_bands(image: &IndexedImage<'_>) -> usize
    requires { IsIndexed image.now }
    ensures { result ≡ bands_up_to (is_used (drawing_of image.now)) (bands image.now.height) }
{
    let mut count = 0;
    for band in 0..image.height.div_ceil(6) {
        if is_used(image, band) {
            count = band + 1;
        }
    }
    count
}

/// Returns whether a band has an opaque pixel.
fn is_used(image: &IndexedImage<'_>, band: usize) -> bool
    requires image { IsIndexed image.now }
    requires band { 6 * band < image.now.height }
    ensures { result ≡ is_used (drawing_of image.now) band }
{
    let start = 6 * band * image.width;
    let end = (start + 6 * image.width).min(image.indices.len());
    for pixel in start..end {
        if let Some(_entry) = entry_of(image, pixel) {
            return true;
        }
    }
    false
}

//! The layout of rows in a caller's memory: stride and order of channels.
ghost use Rattle.std.specs.Prelude.{◌≡◌, ℕ, ◌/◌, ◌%◌, ◌<◌, nat_lt, length, slice_index};
ghost use Rattle.std.specs.Prelude.{if◌then◌else◌};
ghost use Rattle.sixel_canvas.specs.Layout.{in_order, pixel_at};

use crate::span::fill_rgba_span;

/// The order of a pixel's bytes in memory.
#[derive(Clone, Copy, Debug, PartialEq, Eq)]
pub enum ChannelOrder {
    /// Red, green, blue, alpha, as an image has them.
    Rgba,
    /// Blue, green, red, alpha, as most window systems have them.
    Bgra,
}

/// How rows of pixels lie in a caller's memory.
#[derive(Clone, Copy, Debug, PartialEq, Eq)]
pub struct RowLayout {
    /// How many bytes lie between the beginnings of two rows.
    pub stride: usize,
    /// How many pixels of a row are written. Bytes right of them are left as they are.
    pub columns: usize,
    /// The order of a pixel's bytes.
    pub order: ChannelOrder,
}

impl ChannelOrder {
    /// Returns the bytes of a pixel in this order.
    #[inline(always)]
    pub fn of(self, pixel: [u8; 4]) -> [u8; 4]
        ensures { result ≡ in_order self pixel }
    {
        match self {
            ChannelOrder::Rgba => pixel,
            ChannelOrder::Bgra => [pixel[2], pixel[1], pixel[0], pixel[3]],
        }
    }
}

/// Fills a row of the caller with these pixels, and background on their right.
pub fn copy_row(pixels: &[u8], background: [u8; 4], order: ChannelOrder, row: &mut [u8])
    requires stored { length pixels.now % 4 ≡ 0 }
    requires whole { length row.old % 4 ≡ 0 }
    ensures len { length row.new ≡ length row.old }
    ensures copied { (i : ℕ) → i < length row.old → slice_index row.new i
        ≡ slice_index (in_order order (if nat_lt (i / 4) (length pixels.now / 4)
        then pixel_at pixels.now (i / 4) else background)) (i % 4) }
{
    let len = pixels.len().min(row.len());
    let (stored, rest) = row.split_at_mut(len);
    stored.copy_from_slice(&pixels[..len]);
    reorder(stored, order);
    fill_rgba_span(rest, order.of(background));
}

/// Gives the bytes of each pixel this order, where they are RGBA.
pub fn reorder(pixels: &mut [u8], order: ChannelOrder)
    requires { length pixels.old % 4 ≡ 0 }
    ensures len { length pixels.new ≡ length pixels.old }
    ensures ordered { (i : ℕ) → i < length pixels.old → slice_index pixels.new i
        ≡ slice_index (in_order order (pixel_at pixels.old (i / 4))) (i % 4) }
{
    if order == ChannelOrder::Rgba {
        return;
    }
    'ordered: for column in 0..pixels.len() / 4 {
        let at = 4 * column;
        let bytes = order.of([pixels[at], pixels[at + 1], pixels[at + 2], pixels[at + 3]]);
        pixels[at] = bytes[0];
        pixels[at + 1] = bytes[1];
        pixels[at + 2] = bytes[2];
        pixels[at + 3] = bytes[3];
    }
}

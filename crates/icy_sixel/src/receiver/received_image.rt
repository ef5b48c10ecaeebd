//! An image that a decoder has finished, and copies of its rows.

ghost use Rattle.std.specs.Prelude.{◌≡◌, ℕ, ◌-◌, ◌*◌, ◌/◌, ◌%◌, ◌<◌, ◌≤◌, List, length};
ghost use Rattle.std.specs.Prelude.{slice_index, vec_capacity, Some, Ok, IfOk};
ghost use Rattle.sixel_base.specs.CallFault.{FailsBy, RowsReleased};
ghost use Rattle.sixel_canvas.specs.Layout.{in_order, pixel_at};
ghost use Rattle.sixel_decoder.specs.Memory.{most_capacity};
ghost use Rattle.sixel_decoder.specs.PictureView.{picture_report, picture_value, whole_image};

use crate::receiver::rows::check_rows;
use crate::sixel_image::{BackgroundMode, PixelAspectRatio, SixelImage};
use sixel_base::{Result, SixelError};
use sixel_canvas::channels::{ChannelOrder, RowLayout, reorder};
use sixel_canvas::stored_rows::StoredRows;
use sixel_decoder::DecodedPayload;

/// Where an image ends that a host crops.
#[derive(Clone, Copy, Debug, PartialEq, Eq)]
pub enum Height {
    /// At the last band of six rows, or at the raster height if that is greater.
    Bands,
    /// At the last height in raster attributes, or without one as [`Bands`](Self::Bands).
    Raster,
    /// At the greater one of the raster height and the drawn height, as other terminals do.
    Drawn,
}

/// An image that was decoded, without the rows that were released.
#[derive(Debug, Drop)]
pub struct ReceivedImage {
    /// The pixels of the rows from `first_row` on: red, green, blue, alpha.
    pub pixels: Vec<u8>,
    /// Pixels in a row.
    pub width: usize,
    /// Rows of the whole image.
    pub height: usize,
    /// How many rows from the top were released, at most the height.
    pub first_row: usize,
    /// Rows down to the last one with a set pixel, or 0 if there is none.
    ///
    /// It is at most the height, because crop can end an image above that row.
    pub drawn_height: usize,
    /// The last width above 0 that raster attributes name, or 0 if there is none.
    pub raster_width: usize,
    /// The last height above 0 that raster attributes name, or 0 if there is none.
    pub raster_height: usize,
    /// How many commands were ignored, if the image is lenient. The number saturates.
    pub ignored_commands: u64,
    /// The shape of a pixel.
    pub aspect_ratio: PixelAspectRatio,
    /// Whether pixels that were not drawn are opaque or transparent.
    pub background_mode: BackgroundMode,
    pub ghost rows: { length pixels.items ≡ 4 * (width * (height - first_row)) },
}

impl ReceivedImage {
    ghost use Rattle.icy_sixel.specs.ReceivedRows.{IsRowCopy};
    ghost use Rattle.icy_sixel.specs.ReceivedImages.{IsCropped, is_empty, left_image};
    ghost use Rattle.icy_sixel.specs.ReceivedImages.{left_value, received_fault, received_pixel};
    ghost use Rattle.icy_sixel.specs.ReceivedImages.{received_report, whole_value};

    /// Creates the image of a decoded payload.
    pub(crate) fn from_picture(picture: DecodedPayload) -> Self
        ensures image { (shown : ℕ → ℕ → List ℕ)
            → whole_value shown result ≡ whole_image shown picture }
        ensures first { result.first_row ≡ picture.first_row }
        ensures left { left_value result ≡ picture_value picture }
        ensures report { received_report result ≡ picture_report picture }
        ensures memory { vec_capacity result.pixels ≤ most_capacity (length result.pixels.items) }
    {
        Self {
            pixels: picture.pixels,
            width: picture.width,
            height: picture.height,
            first_row: picture.first_row,
            drawn_height: picture.drawn_height,
            raster_width: picture.raster_width,
            raster_height: picture.raster_height,
            ignored_commands: picture.ignored,
            aspect_ratio: picture.aspect_ratio,
            background_mode: picture.background_mode,
        }
    }

    /// Whether no pixel is set and no raster attributes name a height.
    ///
    /// Terminals do not move their cursor for such an image.
    pub fn is_empty(&self) -> bool
        ensures { result ≡ is_empty self.now }
    {
        self.drawn_height == 0 && self.raster_height == 0
    }

    /// Ends the image at this height, if the image is higher. It does not allocate.
    ///
    /// The decoder must not have cropped the image.
    pub fn crop(&mut self, height: Height)
        ensures { IsCropped self.old self.new height }
    {
        let end = match height {
            Height::Bands => self.height,
            Height::Raster if self.raster_height == 0 => self.height,
            Height::Raster => self.raster_height,
            Height::Drawn => self.raster_height.max(self.drawn_height),
        };
        let height = self.height.min(end);
        let first_row = self.first_row.min(height);
        self.pixels
            .truncate(4 * (self.width * (height - first_row)));
        self.height = height;
        self.first_row = first_row;
        self.drawn_height = self.drawn_height.min(height);
    }

    /// Copies rows of the image to the caller's memory.
    ///
    /// The rows are `first` up to before `first + rows`. They lie as those of
    /// [`SixelReceiver::copy_rows`]. Columns on the right of the image are transparent. The call
    /// does not allocate.
    ///
    /// The errors, in this order, leave `out` as it was:
    ///
    /// - `InvalidData("rows are not final")`: `first + rows` is greater than the height.
    /// - `InvalidData("rows were released")`: `first` is less than `first_row`.
    /// - The errors about the layout and the length of `out` that `SixelReceiver::copy_rows` has.
    ///
    /// [`SixelReceiver::copy_rows`]: crate::SixelReceiver::copy_rows
    pub fn copy_rows(
        &self,
        first: usize,
        rows: usize,
        layout: RowLayout,
        out: &mut [u8],
    ) -> Result<()>
        ensures len { length out.new ≡ length out.old }
        ensures copied { IsRowCopy (received_fault self.now first rows layout (length out.old))
            (received_pixel self.now) first rows layout out.old out.new result }
    {
        if first > self.height || rows > self.height - first {
            return Err(SixelError::rows_not_final());
        }
        if first < self.first_row {
            return Err(SixelError::rows_released());
        }
        check_rows(layout, rows, out.len())?;
        let stored = StoredRows {
            bytes: &self.pixels,
            width: self.width,
            rows: self.height - self.first_row,
            background: [0, 0, 0, 0],
        };
        stored.copy(first - self.first_row, rows, layout, out);
        Ok(())
    }

    /// Returns the whole image. No pixel is copied.
    ///
    /// The error is `InvalidData("rows were released")` if no memory has all rows.
    pub fn into_image(self) -> Result<SixelImage>
        ensures whole { self.first_row ≡ 0 → result ≡ Ok (left_image self) }
        ensures released { 0 < self.first_row → FailsBy (Some RowsReleased) result }
        ensures pixels { IfOk result (λ image.
            length image.pixels.items ≡ 4 * (image.width * image.height)) }
    {
        if self.first_row > 0 {
            return Err(SixelError::rows_released());
        }
        Ok(SixelImage {
            pixels: self.pixels,
            width: self.width,
            height: self.height,
            aspect_ratio: self.aspect_ratio,
            background_mode: self.background_mode,
        })
    }

    /// Returns the pixels of the rows from `first_row` on, in this order of channels.
    ///
    /// Red and blue are exchanged in place, so no pixel is copied and the call does not allocate.
    pub fn into_pixels(self, order: ChannelOrder) -> Vec<u8>
        ensures len { length result.items ≡ length self.pixels.items }
        ensures ordered { (i : ℕ) → i < length self.pixels.items → slice_index result.items i
            ≡ slice_index (in_order order (pixel_at self.pixels.items (i / 4))) (i % 4) }
    {
        let mut pixels = self.pixels;
        reorder(&mut pixels, order);
        pixels
    }
}

//! The call that encodes pixels in the caller's memory.

ghost use Rattle.std.specs.Prelude.{◌≡◌, ◌≢◌, ◌*◌, ◌≤◌, None, not, length, IfOk, IfErr, true};
ghost use Rattle.std.specs.Prelude.{false, string_bytes};
ghost use Rattle.sixel_base.specs.Size.{encode_fault};
ghost use Rattle.icysixel.specs.Encodings.{FailsByCode, IsEncoded, IsRowsText, IsTransferred};
ghost use Rattle.icysixel.specs.Encodings.{format_of, has_options, image_of, row_len, rows_fault};
ghost use Rattle.icysixel.specs.Formats.{is_rgba};

use crate::bytes::Bytes;
use crate::code::{Code, code_of};
use crate::encoding::{Encoding, PaletteMode};
use crate::format::Format;
use crate::layout::stride_of;
use crate::source_layout::SourceLayout;
use icy_sixel::encoder::{
    encode_in_palette, encode_on_background, encode_refined, encode_source, encode_with_indices,
};
use icy_sixel::validate_encode_dimensions;
use std::alloc::Global;

/// Encodes pixels and transfers the block of the text to the caller.
#[unsafe(no_mangle)]
pub extern "C" fn icysixel_encode(
    alloc: Global,
    pixels: &[u8],
    encoding: &Encoding,
    text: &mut Bytes,
) -> u32
    ensures option { has_options encoding.now ≡ false → result ≡ 5 }
    ensures encoded { has_options encoding.now ≡ true
        → IsTransferred encoding.now pixels.now text.old text.new result }
    ensures capacity { text.new.len ≤ text.new.capacity }
    ensures same { result ≢ 0 → text.new ≡ text.old }
{
    if !encoding.has_options() {
        return Code::BadOption as u32;
    }
    match encoding.text_of(alloc, pixels) {
        Ok(encoded) => {
            *text = Bytes::of(alloc, encoded.into_bytes());
            Code::Success as u32
        }
        Err(code) => code,
    }
}

impl Encoding {
    /// The SIXEL output of pixels, or the code of the error.
    pub fn text_of(&self, alloc: Global, pixels: &[u8]) -> Result<String, u32>
        ensures { IsEncoded self.now pixels.now result }
    {
        if let Err(error) = validate_encode_dimensions(self.width, self.height) {
            return Err(code_of(&error));
        }
        let row_len = self.pixel_format().pixel_len() * self.width;
        let layout = SourceLayout {
            stride: stride_of(self.stride, row_len),
            row_len,
            height: self.height,
        };
        match layout.byte_len() {
            None if layout.stride < row_len => Err(Code::BadStride as u32),
            None => Err(Code::Overflow as u32),
            Some(size) if size > pixels.len() => Err(Code::BufferMismatch as u32),
            Some(size) if layout.stride == row_len => self.text_of_rows(alloc, &pixels[..size]),
            Some(_) => match layout.gathered(alloc, pixels) {
                Ok(rows) => self.text_of_rows(alloc, &rows),
                Err(_) => Err(Code::OutOfMemory as u32),
            },
        }
    }

    /// The SIXEL output of rows without gaps, or the code of the error.
    fn text_of_rows(&self, alloc: Global, rows: &[u8]) -> Result<String, u32>
        requires sizes { encode_fault self.now.width self.now.height ≡ None }
        requires rows { length rows.now ≡ row_len self.now * self.now.height }
        ensures colors { FailsByCode (not (is_rgba (format_of self.now)))
            (rows_fault self.now rows.now) result }
        ensures refused { IfErr result (λ code. code ≢ 0) }
        ensures text { IfOk result (λ text. IsRowsText self.now rows.now (string_bytes text)) }
    {
        let format = self.pixel_format();
        if matches!(format, Format::Rgba) {
            return self.text_of_image(alloc, rows, rows);
        }
        match format.to_rgba(alloc, rows, self.width * self.height) {
            Ok(pixels) => self.text_of_image(alloc, &pixels, rows),
            Err(_) => Err(Code::OutOfMemory as u32),
        }
    }

    /// The SIXEL output of the image of these rows, or the code of the error.
    fn text_of_image(&self, alloc: Global, pixels: &[u8], rows: &[u8]) -> Result<String, u32>
        requires sizes { encode_fault self.now.width self.now.height ≡ None }
        requires pixels { pixels.now ≡ (image_of self.now rows.now).pixels }
        requires count { length pixels.now ≡ 4 * (self.now.width * self.now.height) }
        requires rows { length rows.now ≡ row_len self.now * self.now.height }
        ensures colors { FailsByCode false (rows_fault self.now rows.now) result }
        ensures refused { IfErr result (λ code. code ≢ 0) }
        ensures text { IfOk result (λ text. IsRowsText self.now rows.now (string_bytes text)) }
    {
        let source = self.source(pixels);
        let mapping = self.dithering.mapping(self.tolerance);
        let form = self.text_form();
        let text = match self.mode() {
            PaletteMode::Refined => {
                encode_refined(alloc, &source, self.color_limit(), mapping, form)
            }
            PaletteMode::OnBackground => {
                encode_on_background(alloc, &source, self.color_background(), mapping, form)
            }
            PaletteMode::Farthest => encode_source(alloc, &source, self.color_limit(), form),
            PaletteMode::Given => {
                encode_in_palette(alloc, &source, self.given_colors(), mapping, form)
            }
            PaletteMode::Indexed => {
                encode_with_indices(alloc, &source, self.given_colors(), rows, form)
            }
        };
        match text {
            Ok(text) => Ok(text),
            Err(error) => Err(code_of(&error)),
        }
    }
}

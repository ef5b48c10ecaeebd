//! The SIXEL output of an image.

ghost use Rattle.std.specs.Prelude.{◌≡◌, ℕ, ◌*◌, ◌<◌, ◌≤◌, List, None, All, OnOk, IfErr, IfOk};
ghost use Rattle.std.specs.Prelude.{◌++◌, Some, MatchOption, codes, length, string_bytes};
ghost use Rattle.sixel_base.specs.Limits.{Limit};

use crate::sixel_image::SixelImage;
use sixel_base::{Result, SixelError};
use sixel_encoder::{
    EncodeOptions, Source, TextForm, encode_in_palette, encode_refined, encode_source,
    encode_with_indices, one_drawing,
};
use sixel_palette::mapping::Mapping;
use std::alloc::Global;

impl SixelImage {
    ghost use Rattle.sixel_base.specs.Decoder.{new_decoder};
    ghost use Rattle.sixel_base.specs.declared.state.DecoderState.{DecoderState};
    ghost use Rattle.sixel_base.specs.Size.{banded};
    ghost use Rattle.sixel_base.specs.Payload.{Image};
    ghost use Rattle.sixel_encoder.specs.Compact.{IsCompactText};
    ghost use Rattle.sixel_encoder.specs.Text.{Drawing};
    ghost use Rattle.sixel_encoder.specs.Encoding.{image_fault, IsDrawing, IsText};
    ghost use Rattle.icy_sixel.specs.Headline.{IsFaithful};
    ghost use Rattle.icy_sixel.specs.ImageView.{image_value};
    ghost use Rattle.sixel_encoder.specs.Encoding.{shown_image};
    ghost use Rattle.sixel_encoder.specs.Trip.{CanRead, IsOneString, IsReadAs, trip};
    ghost use Rattle.sixel_base.specs.CallFault.{FailsBy};
    ghost use Rattle.sixel_encoder.specs.Encoding.{source_value};
    ghost use Rattle.sixel_encoder.specs.IndexedDrawing.{IsPaletteText, IsTextOf, indexed_drawing};
    ghost use Rattle.sixel_encoder.specs.IndexedDrawing.{indexed_fault, palette_fault};
    ghost use Rattle.sixel_encoder.specs.RefinedText.{IsRefinedText};

    /// Returns the SIXEL output of this image with the default options.
    pub fn encode(&self, alloc: Global) -> Result<String>
        ensures refused { MatchOption (image_fault (image_value self.now))
            (IfErr result (λ e. e ≡ SixelError.OutOfMemory))
            (λ fault. result ≡ Err fault) }
        ensures text { IfOk result (λ text. IsText (image_value self.now) 256 (string_bytes text)) }
    {
        self.encode_with(alloc, &EncodeOptions::default())
    }

    /// Returns the SIXEL output of this image.
    ///
    /// ```rust
    /// let image = SixelImage::try_from_rgba(pixels, width, height)?;
    /// image.encode_with(alloc, &EncodeOptions { max_colors: 16 })
    /// ```
    ///
    /// The errors are, in this order: a zero size (`InvalidDimensions`), bytes above `usize::MAX`
    /// (`IntegerOverflow`), sizes above the limits (`InvalidDimensions`), and pixels of another
    /// number of bytes (`BufferSizeMismatch`).
    ///
    /// A pixel whose alpha is below 128 is transparent. Its color and its alpha never affect the
    /// output. The output is the one text that [`headline`](crate::laws::headline) states of the
    /// image. [`image_trip`](sixel_encoder::laws::image_trip) states how decoders with other
    /// settings read it, and [`second_trip`](sixel_encoder::laws::second_trip) that a second round
    /// trip changes nothing.
    pub fn encode_with(&self, alloc: Global, options: &EncodeOptions) -> Result<String>
        ensures refused { MatchOption (image_fault (image_value self.now))
            (IfErr result (λ e. e ≡ SixelError.OutOfMemory))
            (λ fault. result ≡ Err fault) }
        ensures faithful { IfOk result (λ text.
            IsFaithful (image_value self.now) options.now.max_colors (string_bytes text)) }
        ensures bytes { OnOk result (All (λ byte. byte < 256) (image_value self.now).pixels) }
    {
        encode_source(alloc, &self.source(), options.max_colors, TextForm::Plain)
    }

    /// Returns the SIXEL output of this image in a given palette of 1 to 256 colors.
    ///
    /// The palette may be fixed, shared by the frames of an animation, or from another quantizer.
    ///
    /// ```rust
    /// let mapping = Mapping {
    ///     dither: Dither::Diffusion { strength: 8 },
    ///     tolerance: Tolerance::Squared(0),
    /// };
    /// image.encode_with_palette(alloc, colors, mapping, TextForm::Compact)
    /// ```
    ///
    /// The palette indices are those of [`palette_indices`](crate::encoder::palette_indices).
    /// Colors of transparent pixels never affect the output.
    ///
    /// # Errors
    ///
    /// Those of [`encode_with`](Self::encode_with), then
    /// `InvalidData("number of colors is not 1 to 256")`.
    pub fn encode_with_palette(
        &self,
        alloc: Global,
        colors: &[[u8; 3]],
        mapping: Mapping,
        form: TextForm,
    ) -> Result<String>
        ensures fault { FailsBy
            (palette_fault (image_value self.now) (length colors.now)) result }
        ensures text { IfOk result (λ text.
            IsPaletteText (image_value self.now) colors.now mapping form (string_bytes text)) }
        ensures hidden { (other : Image) (bytes : List ℕ)
            → shown_image other ≡ shown_image (image_value self.now)
            → IsPaletteText other colors.now mapping form bytes
            → IfOk result (λ text. string_bytes text ≡ bytes) }
        ensures readable { OnOk result (CanRead new_decoder self.now.width self.now.height) }
    {
        encode_in_palette(alloc, &self.source(), colors, mapping, form)
    }

    /// Returns the SIXEL output of this image by given palette indices.
    ///
    /// There is an index for each pixel, row by row. The indices of transparent pixels have no
    /// effect, and neither have the colors of pixels.
    ///
    /// ```rust
    /// let mapping = Mapping {
    ///     dither: Dither::Off,
    ///     tolerance: Tolerance::Squared(0),
    /// };
    /// let indices = palette_indices(alloc, &image.pixels, image.width, colors, mapping)?;
    /// image.encode_indexed(alloc, colors, &indices, TextForm::Plain)
    /// ```
    ///
    /// # Errors
    ///
    /// Those of [`encode_with_palette`](Self::encode_with_palette), then:
    ///
    /// - `BufferSizeMismatch` for another number of indices than there are pixels
    /// - `InvalidData("palette index out of range")` for an opaque pixel whose index is past the
    ///   palette
    pub fn encode_indexed(
        &self,
        alloc: Global,
        colors: &[[u8; 3]],
        indices: &[u8],
        form: TextForm,
    ) -> Result<String>
        ensures fault { FailsBy
            (indexed_fault (image_value self.now) (length colors.now) indices.now) result }
        ensures text { IfOk result (λ text. IsTextOf form
            (indexed_drawing (image_value self.now) colors.now indices.now)
            (string_bytes text)) }
        ensures readable { OnOk result (CanRead new_decoder self.now.width self.now.height) }
    {
        encode_with_indices(alloc, &self.source(), colors, indices, form)
    }

    /// Returns the SIXEL output of this image in a refined palette.
    ///
    /// The palette is that of [`refine_palette`](crate::palette::refine_palette), of 1 to 256
    /// colors. For error diffusion, up to 64 colors are moved away from the mean color, unless the
    /// image is flat art. They are colors of registers, so a decoder shows the very palette. The
    /// palette indices are those of [`palette_indices`](crate::encoder::palette_indices). Colors of
    /// transparent pixels never affect the output.
    ///
    /// ```rust
    /// let mapping = Mapping {
    ///     dither: Dither::Diffusion { strength: 7 },
    ///     tolerance: Tolerance::Auto,
    /// };
    /// image.encode_refined(alloc, 16, mapping, TextForm::Compact)
    /// ```
    ///
    /// # Errors
    ///
    /// Those of [`encode_with_palette`](Self::encode_with_palette), with `max_colors` as the number
    /// of colors.
    pub fn encode_refined(
        &self,
        alloc: Global,
        max_colors: u16,
        mapping: Mapping,
        form: TextForm,
    ) -> Result<String>
        ensures fault { FailsBy (palette_fault (image_value self.now) max_colors) result }
        ensures text { IfOk result (λ text.
            IsRefinedText (image_value self.now) max_colors mapping form (string_bytes text)) }
        ensures hidden { (other : Image) (bytes : List ℕ)
            → shown_image other ≡ shown_image (image_value self.now)
            → IsRefinedText other max_colors mapping form bytes
            → IfOk result (λ text. string_bytes text ≡ bytes) }
        ensures readable { OnOk result (CanRead new_decoder self.now.width self.now.height) }
    {
        encode_refined(alloc, &self.source(), max_colors, mapping, form)
    }

    /// Returns this image with its pixels borrowed.
    fn source(&self) -> Source<'_>
        ensures { source_value result ≡ image_value self.now }
    {
        Source {
            pixels: &self.pixels,
            width: self.width,
            height: self.height,
            aspect_ratio: self.aspect_ratio,
            background_mode: self.background_mode,
        }
    }

    /// Returns the compact SIXEL output of this image: the same pixels in fewer bytes.
    ///
    /// Its palette is that of [`encode_with`](Self::encode_with), and so are its errors. A decoder
    /// returns the same image from both outputs. The registers that it has afterwards differ. The
    /// compact output defines only palette entries that a pixel has, and numbers them by their runs
    /// of pixels. On an opaque background entry 0 is defined, too, in register 0. The compact
    /// output is never longer.
    ///
    /// Runs may cover pixels that a later run draws over. Rows of several colors share a pass. A
    /// row ends with its last set pixel.
    pub fn encode_compact(&self, alloc: Global, options: &EncodeOptions) -> Result<String>
        ensures refused { MatchOption (image_fault (image_value self.now))
            (IfErr result (λ e. e ≡ SixelError.OutOfMemory))
            (λ fault. result ≡ Err fault) }
        ensures text { IfOk result (λ text.
            IsCompactText (image_value self.now) options.now.max_colors (string_bytes text)) }
        ensures hidden { (other : Image) (bytes : List ℕ)
            → shown_image other ≡ shown_image (image_value self.now)
            → IsCompactText other options.now.max_colors bytes
            → IfOk result (λ text. string_bytes text ≡ bytes) }
        ensures short { (plain : List ℕ)
            → IsText (image_value self.now) options.now.max_colors plain
            → IfOk result (λ text. length (string_bytes text) ≤ length plain) }
        ensures one_string { (limit : Limit)
            → self.now.width * banded self.now.height ≤ limit.pixels
            → IfOk result (λ text. IsOneString limit (string_bytes text)) }
        ensures readable { OnOk result (CanRead new_decoder self.now.width self.now.height) }
        ensures read_back { (decoder : DecoderState)
            → CanRead decoder self.now.width self.now.height
            → IfOk result (λ text. (drawing : Drawing)
            × IsDrawing (image_value self.now) options.now.max_colors drawing
            × IsReadAs decoder (string_bytes text) (trip decoder.raster_crop drawing)) }
    {
        // A law without work: the clauses `hidden` and `short` follow from it.
        one_drawing();
        encode_source(alloc, &self.source(), options.max_colors, TextForm::Compact)
    }

    /// Returns the output of [`encode`](Self::encode), or a line with its error.
    ///
    /// The line is `[SIXEL encoding failed: ` with the text of the error and `]`.
    pub fn to_display_string(&self, alloc: Global) -> Result<String>
        ensures memory { IfErr result (λ e. e ≡ SixelError.OutOfMemory) }
        ensures text { image_fault (image_value self.now) ≡ None
            → IfOk result (λ text. IsText (image_value self.now) 256 (string_bytes text)) }
        ensures refused { (fault : SixelError) → image_fault (image_value self.now) ≡ Some fault
            → IfOk result (λ text. (words : List ℕ) × (string_bytes text
            ≡ codes "[SIXEL encoding failed: " ++ words ++ codes "]")) }
    {
        match self.encode(alloc) {
            Err(SixelError::OutOfMemory) => Err(SixelError::OutOfMemory),
            Err(error) => refusal_line(alloc, error),
            Ok(text) => Ok(text),
        }
    }
}

/// A line with the error of an image that has no SIXEL output.
fn refusal_line(alloc: Global, error: SixelError) -> Result<String>
    ensures memory { IfErr result (λ e. e ≡ SixelError.OutOfMemory) }
    ensures text { IfOk result (λ text. (words : List ℕ) × (string_bytes text
        ≡ codes "[SIXEL encoding failed: " ++ words ++ codes "]")) }
{
    let error = format!(in alloc; "{error}")?;
    Ok(format!(in alloc; "[SIXEL encoding failed: {error}]")?)
}

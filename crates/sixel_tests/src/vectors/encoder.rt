//! Vectors of `texts.tsv`, `trips.tsv`, `sizes.tsv`, `palettes.tsv` and `witnesses.tsv`.

use crate::vectors::chunks::Input;
use crate::vectors::decoder::{check_outcome, write_whole};
use crate::vectors::error::{Result, VectorError, ensure};
use crate::vectors::notation::{
    bytes, colors, image, numbers, pixels, push_error, push_image, ratio, size,
};
use crate::vectors::session::Form;
use icy_sixel::{
    DcsSettings, EncodeOptions, SixelDecoder, SixelError, SixelImage, choose_palette, count_colors,
    sixel_encode, sixel_encode_default, validate_encode_dimensions, witnesses_hold,
};
use std::alloc::Global;

/// Checks a vector of `texts.tsv`.
pub fn check_text(alloc: Global, [max_colors, source, expected]: [&str; 3]) -> Result<()> {
    let is_plain = source.contains(" 1:1 transparent");
    let (source, max_colors) = (image(alloc, source)?, max_colors.parse::<u16>()?);
    let options = EncodeOptions { max_colors };
    let (pixels, (width, height)) = (source.pixels.as_slice(), source.dimensions());
    check_encoded(alloc, source.encode_with(alloc, &options), expected)?;
    if is_plain {
        let encoded = sixel_encode(alloc, pixels, width, height, &options);
        check_encoded(alloc, encoded, expected)?;
    }
    if max_colors != EncodeOptions::default().max_colors {
        return Ok(());
    }
    if is_plain {
        let encoded = sixel_encode_default(alloc, pixels, width, height);
        check_encoded(alloc, encoded, expected)?;
    }
    check_encoded(alloc, source.encode(alloc), expected)?;
    check_shown(alloc, source.to_display_string(alloc)?, expected)
}

/// Checks the result of encoding.
fn check_encoded(alloc: Global, encoded: icy_sixel::Result<String>, expected: &str) -> Result<()> {
    let text = match encoded {
        Ok(text) => text,
        Err(error) => format!(in alloc; "error: {error}")?,
    };
    let expected = bytes(alloc, expected)?;
    ensure(text.as_bytes() == expected.as_slice(), "text")
}

/// Checks the text that shows an image, or the error that it has in place of one.
fn check_shown(alloc: Global, shown: String, expected: &str) -> Result<()> {
    if let Some(error) = expected.strip_prefix("error: ") {
        let failed = format!(in alloc; "[SIXEL encoding failed: {error}]")?;
        return ensure(shown == failed, "text of an error");
    }
    check_encoded(alloc, Ok(shown), expected)
}

/// Checks a vector of `trips.tsv`.
pub fn write_trip(alloc: Global, found: &mut String, colors: &str, source: &str) -> Result<()> {
    let (source, max_colors) = (image(alloc, source)?, colors.parse::<u16>()?);
    let options = EncodeOptions { max_colors };
    let text = source.encode_with(alloc, &options)?;
    write_decoded(alloc, found, Form::Dcs, &text)?;
    let settings = DcsSettings::default()
        .with_pixel_aspect_ratio(source.aspect_ratio)
        .with_background_mode(source.background_mode);
    let (_, payload) = text
        .split_once('q')
        .ok_or(VectorError::Check("no payload"))?;
    let mut decoded = String::new(alloc);
    write_decoded(alloc, &mut decoded, Form::Payload(settings), payload)?;
    ensure(decoded == *found, "payload")?;
    let compact = source.encode_compact(alloc, &options)?;
    check_outcome(alloc, found, &SixelImage::decode(alloc, compact.as_bytes()))?;
    let image = SixelImage::decode(alloc, text.as_bytes())?;
    if image.background_mode.is_transparent() {
        let again = image.encode_with(alloc, &options)?;
        check_outcome(alloc, found, &SixelImage::decode(alloc, again.as_bytes()))?;
    }
    check_cropped(alloc, image, source.dimensions(), &text)
}

/// Writes what a text decodes to, at once and in chunks.
fn write_decoded(alloc: Global, found: &mut String, form: Form, text: &str) -> Result<()> {
    let bytes = Vec::from_slice(alloc, text.as_bytes())?;
    let start = SixelDecoder::new();
    write_whole(alloc, found, &Input { form, start, bytes })
}

/// Checks that a decoder that crops gives the height that was encoded.
fn check_cropped(
    alloc: Global,
    mut image: SixelImage,
    (width, height): (usize, usize),
    text: &str,
) -> Result<()> {
    let (mut expected, mut decoder) = (String::new(alloc), SixelDecoder::new());
    image.height = height;
    let len = width.saturating_mul(height).saturating_mul(4);
    image.pixels.truncate(len);
    push_image(&mut expected, &image)?;
    decoder.set_raster_crop(true);
    check_outcome(alloc, &expected, &decoder.decode(alloc, text.as_bytes()))
}

/// Checks a vector of `sizes.tsv`.
pub fn write_size(alloc: Global, found: &mut String, columns: [&str; 4]) -> Result<()> {
    let [call, dimensions, buffer, _] = columns;
    let (buffer, (width, height)) = (bytes(alloc, buffer)?, size(dimensions)?);
    match call.split_once(' ').unwrap_or((call, "")) {
        ("corrected_dimensions", shape) => {
            if height > 1_000_000 {
                return Err(VectorError::Check("no height"));
            }
            let image = SixelImage::from_rgba(buffer, width, height);
            let (width, height) = image
                .with_aspect_ratio(ratio(shape)?)
                .corrected_dimensions();
            write!(found, "\t{width}x{height}")?;
        }
        ("has_transparency", _) => {
            let is_transparent = SixelImage::from_rgba(buffer, width, height).has_transparency();
            found.push_str(if is_transparent { "\tyes" } else { "\tno" })?;
        }
        ("count_colors", _) => {
            let colors = count_colors(alloc, &buffer)?;
            let kind = if colors.are_exact { "exact" } else { "other" };
            write!(found, "\t{} {kind}", colors.count)?;
        }
        _ => match size_error(alloc, call, buffer, (width, height))? {
            Some(error) => push_error(found, &error)?,
            None => found.push_str("\tok")?,
        },
    }
    Ok(())
}

/// The error of a call with pixels of a size.
fn size_error(
    alloc: Global,
    call: &str,
    buffer: Vec<u8>,
    (width, height): (usize, usize),
) -> Result<Option<SixelError>> {
    let options = EncodeOptions::default();
    Ok(match call {
        "choose_palette" => choose_palette(alloc, &buffer, 2).err(),
        "validate_encode_dimensions" => validate_encode_dimensions(width, height).err(),
        "sixel_encode" => sixel_encode(alloc, &buffer, width, height, &options).err(),
        "try_from_rgba" => SixelImage::try_from_rgba(buffer, width, height).err(),
        _ => return Err(VectorError::Check("no call")),
    })
}

/// Checks a vector of `palettes.tsv`.
pub fn check_palette(alloc: Global, columns: [&str; 6]) -> Result<()> {
    let [max_colors, runs, entries, indices, error, witnesses] = columns;
    let (pixels, max_colors) = (pixels(alloc, runs)?, max_colors.parse::<u16>()?);
    let choice = choose_palette(alloc, &pixels, max_colors)?;
    let places = choice.indices.iter().map(|index| usize::from(*index));
    let places: Vec<usize> = places.collect(alloc)?;
    ensure(places == numbers(alloc, indices)?, "indices")?;
    ensure(choice.colors == colors(alloc, entries)?, "colors")?;
    ensure(choice.error == error.parse::<u32>()?, "error")?;
    let witnesses = colors(alloc, witnesses)?;
    ensure(choice.witnesses == witnesses, "witnesses")?;
    Ok(())
}

/// Checks a vector of `witnesses.tsv`.
pub fn check_witnesses(alloc: Global, [list, distance, answer]: [&str; 3]) -> Result<()> {
    let holds = witnesses_hold(&colors(alloc, list)?, distance.parse::<u32>()?);
    ensure(answer == if holds { "yes" } else { "no" }, "witnesses")
}

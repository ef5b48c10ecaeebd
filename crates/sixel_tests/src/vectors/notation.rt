//! The notation that `data/README.md` defines: parsers, and results as columns after their tabs.

use crate::vectors::error::{Result, VectorError};
use icy_sixel::script::Status;
use icy_sixel::{
    BackgroundMode, PixelAspectRatio, SixelDcsFeedStatus, SixelError, SixelFeedStatus, SixelImage,
};
use std::alloc::Global;

/// What decoding gives.
pub type Outcome = icy_sixel::Result<SixelImage>;

/// The four bytes that hexadecimal digits write.
pub fn rgba(text: &str) -> Result<[u8; 4]> {
    Ok(u32::from_str_radix(text, 16)?.to_be_bytes())
}

/// The color that six hexadecimal digits write.
pub fn color(text: &str) -> Result<[u8; 3]> {
    let [_, red, green, blue] = rgba(text)?;
    Ok([red, green, blue])
}

/// The bytes of a column.
pub fn bytes(alloc: Global, text: &str) -> Result<Vec<u8>> {
    let mut bytes = Vec::new(alloc);
    for (index, part) in text.split('<').enumerate() {
        let (token, plain) = match index {
            0 => ("", part),
            _ => part
                .split_once('>')
                .ok_or(VectorError::Check("a token without an end"))?,
        };
        push_token(&mut bytes, token)?;
        bytes.extend_from_slice(plain.as_bytes())?;
    }
    Ok(bytes)
}

/// Adds the bytes of a token between `<` and `>`.
fn push_token(bytes: &mut Vec<u8>, token: &str) -> Result<()> {
    if let Some((count, text)) = token.split_once('*') {
        for _ in 0..count.parse::<usize>()? {
            bytes.extend_from_slice(text.as_bytes())?;
        }
    } else if !token.is_empty() {
        bytes.push(u8::from_str_radix(token, 16)?)?;
    }
    Ok(())
}

/// The numbers of a list.
pub fn numbers(alloc: Global, text: &str) -> Result<Vec<usize>> {
    let mut numbers = Vec::new(alloc);
    for word in text.split(' ').filter(|word| *word != "none") {
        numbers.push(word.parse::<usize>()?)?;
    }
    Ok(numbers)
}

/// The colors of a list.
pub fn colors(alloc: Global, text: &str) -> Result<Vec<[u8; 3]>> {
    let words = text.split(' ').filter(|word| *word != "none");
    words.map(|word| color(word)).try_collect(alloc)
}

/// The pixels of runs.
pub fn pixels(alloc: Global, text: &str) -> Result<Vec<u8>> {
    let mut pixels = Vec::new(alloc);
    for run in text.split(' ').filter(|run| *run != "none") {
        let (count, color) = run.split_once('*').ok_or(VectorError::Check("no run"))?;
        let color = rgba(color)?;
        for _ in 0..count.parse::<usize>()? {
            pixels.extend_from_slice(&color)?;
        }
    }
    Ok(pixels)
}

/// An image, whose count of pixels may differ from its size.
pub fn image(alloc: Global, text: &str) -> Result<SixelImage> {
    let (dimensions, rest) = text.split_once(' ').ok_or(VectorError::Check("no ratio"))?;
    let (shape, rest) = rest.split_once(' ').ok_or(VectorError::Check("no mode"))?;
    let (background, runs) = rest.split_once(' ').unwrap_or((rest, "none"));
    let ((width, height), ratio) = (size(dimensions)?, ratio(shape)?);
    let mode = BackgroundMode::from_p2(u16::from(background == "transparent"));
    let image = SixelImage::from_rgba(pixels(alloc, runs)?, width, height);
    Ok(image.with_aspect_ratio(ratio).with_background_mode(mode))
}

/// A size; `none` is that of no image.
pub fn size(text: &str) -> Result<(usize, usize)> {
    let (width, height) = text.split_once('x').unwrap_or(("0", "0"));
    Ok((width.parse::<usize>()?, height.parse::<usize>()?))
}

/// A pixel aspect ratio.
pub fn ratio(text: &str) -> Result<PixelAspectRatio> {
    match text {
        "1:1" => Ok(PixelAspectRatio::Square),
        "2:1" => Ok(PixelAspectRatio::Ratio2To1),
        "3:1" => Ok(PixelAspectRatio::Ratio3To1),
        "5:1" => Ok(PixelAspectRatio::Ratio5To1),
        _ => return Err(VectorError::Check("no ratio")),
    }
}

/// The word of a status, and its byte.
pub fn word(status: Status) -> (&'static str, Option<u8>) {
    match status {
        Status::Payload(SixelFeedStatus::NeedMoreData) => ("more", None),
        Status::Payload(SixelFeedStatus::Terminated(byte)) => ("terminated", Some(byte)),
        Status::Dcs(SixelDcsFeedStatus::NeedMoreData) => ("more", None),
        Status::Dcs(SixelDcsFeedStatus::Complete) => ("complete", None),
        Status::Dcs(SixelDcsFeedStatus::Cancelled(byte)) => ("cancelled", Some(byte)),
        Status::Dcs(SixelDcsFeedStatus::Interrupted(byte)) => ("interrupted", Some(byte)),
    }
}

/// Writes consumed bytes and a status.
pub fn push_fed(found: &mut String, consumed: usize, status: Status) -> Result<()> {
    match word(status) {
        (word, None) => write!(found, "\t{consumed} {word}")?,
        (word, Some(byte)) => write!(found, "\t{consumed} {word} {byte:02x}")?,
    }
    Ok(())
}

/// Writes an error.
pub fn push_error(found: &mut String, error: &SixelError) -> Result<()> {
    Ok(write!(found, "\terror: {error}")?)
}

/// Writes an image or an error.
pub fn push_outcome(found: &mut String, outcome: &Outcome) -> Result<()> {
    match outcome {
        Ok(image) => push_image(found, image),
        Err(error) => push_error(found, error),
    }
}

/// The word of a background mode.
pub fn mode_word(mode: BackgroundMode) -> &'static str {
    match mode {
        BackgroundMode::Opaque => "opaque",
        BackgroundMode::Transparent => "transparent",
    }
}

/// Writes an image.
pub fn push_image(found: &mut String, image: &SixelImage) -> Result<()> {
    let ((width, height), pad) = (image.dimensions(), image.aspect_ratio.pad());
    let mode = mode_word(image.background_mode);
    write!(found, "\t{width}x{height} {pad}:1 {mode}")?;
    let (mut count, mut last) = (0_usize, [].as_slice());
    for pixel in image.pixels.chunks(4) {
        if pixel != last {
            push_run(found, count, last)?;
            (count, last) = (0, pixel);
        }
        count = count.saturating_add(1);
    }
    push_run(found, count, last)
}

/// Writes a run of pixels.
fn push_run(found: &mut String, count: usize, pixel: &[u8]) -> Result<()> {
    if count == 0 {
        return Ok(());
    }
    write!(found, " {count}*")?;
    push_hexadecimal(found, pixel)
}

/// Writes two digits a byte.
pub fn push_hexadecimal(found: &mut String, bytes: &[u8]) -> Result<()> {
    for byte in bytes {
        write!(found, "{byte:02x}")?;
    }
    Ok(())
}

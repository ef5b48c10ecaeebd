//! Vectors of `settings.tsv` and `registers.tsv`.

use crate::vectors::error::{Result, VectorError, ensure};
use crate::vectors::notation::{mode_word, push_hexadecimal};
use crate::vectors::session::clip;
use icy_sixel::{BackgroundMode, DcsSettings, PixelAspectRatio, SixelDecoder};

/// Checks a vector of `settings.tsv`.
pub fn write_setting(found: &mut String, setting: &str) -> Result<()> {
    let (default, mut decoder) = (DcsSettings::default(), SixelDecoder::default());
    match setting
        .split_once('=')
        .ok_or(VectorError::Check("no value"))?
    {
        ("p1", value) => {
            let p1 = value.parse::<u16>()?;
            let ratio = PixelAspectRatio::from_p1(p1);
            let (pad, written) = (ratio.pad(), ratio.to_p1_value());
            let settings = DcsSettings::new(Some(u16::from(written)), None, None);
            let with_ratio = default.with_pixel_aspect_ratio(ratio);
            let shown = DcsSettings::new(Some(p1), None, None).pixel_aspect_ratio();
            ensure(shown == ratio && with_ratio == settings, "settings")?;
            ensure(ratio.pan() == 1 && ratio.is_square() == (pad == 1), "shape")?;
            write!(found, "\t{pad}:1\t{pad}\t{written}")?;
        }
        ("p2", value) => {
            let p2 = value.parse::<u16>()?;
            let mode = BackgroundMode::from_p2(p2);
            let written = mode.to_p2_value();
            let settings = DcsSettings::new(None, Some(u16::from(written)), Some(3));
            let with_mode = default.with_grid_size(3).with_background_mode(mode);
            let shown = DcsSettings::new(None, Some(p2), None).background_mode();
            ensure(shown == mode && with_mode == settings, "settings")?;
            ensure(mode.is_transparent() == (written == 1), "is_transparent")?;
            write!(found, "\t{}\t{written}", mode_word(mode))?;
        }
        ("limit", value) => {
            ensure(decoder.pixel_limit() == 67_108_864, "new limit")?;
            decoder.set_pixel_limit(value.parse::<usize>()?);
            write!(found, "\t{}", decoder.pixel_limit())?;
        }
        ("clip", value) => {
            ensure(decoder.clip() == (1_000_000, 1_000_000), "new clip")?;
            let (width, height) = clip(value)?;
            decoder.set_clip(width, height);
            let (columns, rows) = decoder.clip();
            write!(found, "\t{columns}x{rows}")?;
        }
        _ => return Err(VectorError::Check("no setting")),
    }
    Ok(())
}

/// Checks a vector of `registers.tsv`.
pub fn write_register(found: &mut String, register: &str) -> Result<()> {
    let (register, mut decoder) = (register.parse::<u8>()?, SixelDecoder::new());
    let color = decoder.register(register);
    decoder.set_register(register, [1, 2, 3]);
    ensure(decoder.register(register) == [1, 2, 3], "color that is set")?;
    decoder.reset_palette();
    ensure(decoder.register(register) == color, "color that is reset")?;
    found.push('\t')?;
    push_hexadecimal(found, &color)
}

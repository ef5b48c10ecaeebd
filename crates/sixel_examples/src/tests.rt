//! Each example does what the page that shows it says.

use crate::in_one_call::{decode, decode_payload, encode, palette};
use crate::lists::replay;
use crate::multiplexer::{Came, read};
use crate::palettes::{encode_by_indices, encode_diffused, encode_photograph};
use crate::rows::{draw_rest, draw_rows};
use crate::streaming::{decode_chunks, decode_payload_chunks};
use crate::terminal::{Images, Read};
use crate::viewer::open;
use icy_sixel::encoder::{Dither, Mapping, Tolerance, palette_indices};
use icy_sixel::receiver::SixelReceiver;
use icy_sixel::script::Outcome;
use icy_sixel::{Result, SixelDecoder, SixelError, SixelImage};
use std::alloc::Global;
use std::test::Fail;

const RED: [u8; 4] = [255, 0, 0, 255];

/// The background of the terminal.
const NAVY: [u8; 4] = [1, 2, 3, 255];

/// The color of register 1 of a new decoder.
const INDIGO: [u8; 4] = [51, 51, 204, 255];

/// Whether an image has a size and one color.
fn is_filled(image: &SixelImage, size: (usize, usize), color: [u8; 4]) -> bool {
    let mut are_equal = image.pixels.len() == size.0.saturating_mul(size.1).saturating_mul(4);
    for pixel in image.pixels.chunks(4) {
        are_equal &= pixel == color.as_slice();
    }
    image.dimensions() == size && are_equal
}

/// Whether a call returned an image of a size and one color.
fn is_drawn(decoded: Result<SixelImage>, size: (usize, usize), color: [u8; 4]) -> bool {
    match decoded {
        Ok(image) => is_filled(&image, size, color),
        Err(_) => false,
    }
}

/// Whether a session is replayed as finished, as aborted, and before a reset.
fn is_replayed(alloc: Global, decoder: &mut SixelDecoder) -> bool {
    match replay(alloc, decoder, b"\x1bPq#1;2;0;100;0~\x1b\\") {
        Ok(outcomes) => matches!(
            outcomes.as_slice(),
            [
                Outcome::Finished { consumed: 18, .. },
                Outcome::Aborted { consumed: 18, .. },
                Outcome::Reset,
            ]
        ),
        Err(_) => false,
    }
}

#[test]
fn decoders(rt: HostRuntime) {
    let mut decoder = SixelDecoder::new();
    let sequence = decode(rt.alloc(), &mut decoder, b"text\x1bPq#1~\x1b\\text");
    let payload = decode_payload(rt.alloc(), &mut decoder, b"#1~~");
    let chunks = decode_chunks(rt.alloc());
    let payload_chunks = decode_payload_chunks(rt.alloc(), &mut decoder);
    let are_drawn = is_drawn(sequence, (1, 6), INDIGO)
        & is_drawn(payload, (2, 6), INDIGO)
        & is_drawn(chunks, (12, 6), RED)
        & is_drawn(payload_chunks, (12, 6), INDIGO);
    let is_replayed = is_replayed(rt.alloc(), &mut decoder);
    assert!(rt; are_drawn & is_replayed & (decoder.register(1) == [51, 51, 204]));
}

#[test]
fn errors(rt: HostRuntime) -> std::result::Result<(), Fail> {
    for (error, expected) in [
        (
            SixelError::color_count(),
            "number of colors is not 1 to 256",
        ),
        (SixelError::index_range(), "palette index out of range"),
        (SixelError::rows_not_final(), "rows are not final"),
        (SixelError::rows_released(), "rows were released"),
        (SixelError::short_stride(), "stride is shorter than a row"),
    ] {
        let text = format!(in rt.alloc(); "{error}")?;
        let expected = format!(in rt.alloc(); "invalid argument: {expected}")?;
        assert!(rt; text == expected);
    }
    let error = SixelError::malformed();
    let text = format!(in rt.alloc(); "{error}")?;
    assert!(rt; text.as_str() == "invalid SIXEL data: malformed SIXEL data");
    Ok(())
}

/// Whether one color has a certified palette of itself.
fn is_certified(alloc: Global) -> bool {
    match palette(alloc, &NAVY) {
        Ok((choice, is_certified)) => {
            is_certified & (choice.colors.as_slice() == [[1, 2, 3]].as_slice())
        }
        Err(_) => false,
    }
}

/// Whether a call returned this text.
fn is_text(text: Result<String>, expected: &str) -> bool {
    match text {
        Ok(text) => text.as_str() == expected,
        Err(_) => false,
    }
}

/// Whether a red pixel is encoded.
fn is_encoded(alloc: Global) -> bool {
    match Vec::from_slice(alloc, &RED) {
        Ok(pixels) => is_text(
            encode(alloc, pixels, 1, 1),
            "\x1bP9;1;0q\"1;1;1;1#0;2;100;0;0#0@$-\x1b\\",
        ),
        Err(_) => false,
    }
}

/// Whether a viewer draws each row twice, on an opaque background.
fn is_viewed(alloc: Global) -> bool {
    match open(alloc, b"\x1bP0;1q~\x1b\\") {
        Ok(view) => (view.row_repeat == 2) & !view.has_transparency,
        Err(_) => false,
    }
}

#[test]
fn images(rt: HostRuntime) {
    let alloc = rt.alloc();
    assert!(rt; is_certified(alloc) & is_encoded(alloc) & is_viewed(alloc));
}

/// Whether a terminal consumed `consumed` bytes, and got an image in its background of this size.
fn is_read(read: Result<Read>, consumed: usize, size: Option<(usize, usize)>) -> bool {
    let Ok(read) = read else {
        return false;
    };
    let is_expected = match (&read.image, size) {
        (None, None) => true,
        (Some(image), Some(size)) => is_filled(image, size, NAVY),
        _ => false,
    };
    is_expected & (read.consumed == consumed)
}

#[test]
fn terminal(rt: HostRuntime) {
    let mut images = Images::new([1, 2, 3], 640, 480);
    images.begin(rt.alloc(), None, None);
    let is_open = is_read(images.read(b"!3"), 2, None);
    let is_ended = is_read(images.read(b"?@\x1b\\text"), 2, Some((4, 6)));
    images.begin(rt.alloc(), None, None);
    let is_cropped = is_read(images.read(b"\"1;1;2;3~~\x1b\\"), 10, Some((2, 3)));
    images.begin(rt.alloc(), None, None);
    let is_truncated = is_read(images.read(b"!641~\x1b\\"), 5, Some((640, 6)));
    images.begin(rt.alloc(), None, None);
    let is_low = is_read(images.read(b"\"1;1;640;481~\x1b\\"), 13, Some((640, 480)));
    assert!(rt; is_open & is_ended & is_cropped & is_truncated & is_low);
}

/// What bytes are to a multiplexer: part of a sequence, its end, or where it is cut short, and how
/// many of them belong to the sequence.
fn kind_of(came: Result<Came>) -> Option<(u8, usize)> {
    match came {
        Ok(Came::Part) => Some((0, 0)),
        Ok(Came::Whole(_, own)) => Some((1, own)),
        Ok(Came::CutShort(_, own)) => Some((2, own)),
        Err(_) => None,
    }
}

#[test]
fn multiplexer(rt: HostRuntime) {
    let mut receiver = SixelReceiver::new();
    receiver.begin_dcs(rt.alloc());
    let part = kind_of(read(&mut receiver, b"\x1bPq~"));
    let cut_short = kind_of(read(&mut receiver, b"~\x1b[31m"));
    receiver.begin_dcs(rt.alloc());
    let whole = kind_of(read(&mut receiver, b"\x90q~\x9ctext"));
    let are_kinds = (part == Some((0, 0))) & (cut_short == Some((2, 2))) & (whole == Some((1, 4)));
    assert!(rt; are_kinds & (receiver.into_decoder().register(1) == [51, 51, 204]));
}

/// A row of three pixels of gray, 100 of 255.
const GRAYS: &[u8] = &[100, 100, 100, 255, 100, 100, 100, 255, 100, 100, 100, 255];

/// Black and white.
const COLORS: &[[u8; 3]] = &[[0, 0, 0], [255, 255, 255]];

/// The row diffused: white in the middle, drawn over black.
const DIFFUSED: &str = "\x1bP9;1;0q\"1;1;3;1#0;2;0;0;0#1;2;100;100;100#0@@@$#1?@\x1b\\";

/// The row in black, which is nearest.
const BLACK: &str = "\x1bP9;1;0q\"1;1;3;1#0;2;0;0;0#1;2;100;100;100#0@@@$-\x1b\\";

/// The row in its refined palette: 100 of 255 is 39 percent.
const REFINED: &str = "\x1bP9;1;0q\"1;1;3;1#0;2;39;39;39#0@@@\x1b\\";

#[test]
fn palettes(rt: HostRuntime) -> std::result::Result<(), Fail> {
    let pixels = Vec::from_slice(rt.alloc(), GRAYS)?;
    let image = SixelImage::from_rgba(pixels, 3, 1);
    let is_diffused = is_text(encode_diffused(rt.alloc(), &image, COLORS), DIFFUSED);
    let is_black = is_text(encode_by_indices(rt.alloc(), &image, COLORS), BLACK);
    let is_refined = is_text(encode_photograph(rt.alloc(), &image), REFINED);
    assert!(rt; is_diffused & is_black & is_refined);
    Ok(())
}

/// A palette of two grays.
const DARK_GRAYS: &[[u8; 3]] = &[[0, 0, 0], [8, 8, 8]];

/// Whether pixels have these indices in the palette of two grays, without dithering.
fn are_kept(alloc: Global, grays: (&[u8], usize), tolerance: Tolerance, expected: &[u8]) -> bool {
    let mut pixels = Vec::new(alloc);
    for gray in grays.0 {
        // A gray of 255 stands for a transparent pixel.
        let alpha = if *gray == 255 { 0 } else { 255 };
        if pixels
            .extend_from_slice(&[*gray, *gray, *gray, alpha])
            .is_err()
        {
            return false;
        }
    }
    let mapping = Mapping {
        dither: Dither::Off,
        tolerance,
    };
    match palette_indices(alloc, &pixels, grays.1, DARK_GRAYS, mapping) {
        Ok(indices) => indices.as_slice() == expected,
        Err(_) => false,
    }
}

#[test]
fn tolerances(rt: HostRuntime) {
    let row: (&[u8], usize) = (&[0, 5, 0], 3);
    let most = Tolerance::Squared(49);
    // The entry before is at 75, the nearest one at 27, and both columns beside lack it.
    let is_nearest = are_kept(rt.alloc(), row, Tolerance::Squared(48), &[0, 1, 0]);
    let is_kept = are_kept(rt.alloc(), row, most, &[0, 0, 0]);
    let is_automatic = are_kept(rt.alloc(), row, Tolerance::Auto, &[0, 1, 0]);
    // The first pixel is at 192 from the entry of the column after, which lacks its own.
    let pair: (&[u8], usize) = (&[0, 5, 5], 3);
    let is_first = are_kept(rt.alloc(), pair, Tolerance::Squared(384), &[0, 1, 1]);
    let is_pair = are_kept(rt.alloc(), pair, Tolerance::Squared(385), &[1, 1, 1]);
    // The seventh row begins a band.
    let column: (&[u8], usize) = (&[0, 5, 5, 5, 5, 5, 5], 1);
    let is_band = are_kept(rt.alloc(), column, most, &[0, 0, 0, 0, 0, 0, 1]);
    // Transparent pixels have no entry.
    let rows: (&[u8], usize) = (&[255, 255, 5, 0], 2);
    let is_transparent = are_kept(rt.alloc(), rows, most, &[0, 0, 1, 0]);
    assert!(rt;
        is_nearest & is_kept & is_automatic & is_first & is_pair & is_band & is_transparent
    );
}

/// Draws a DCS sequence of two bands in chunks, and returns whether each row is drawn in time.
fn draw_window(receiver: &mut SixelReceiver, window: &mut [u8]) -> Result<bool> {
    let first = draw_rows(receiver, b"\x1bPq#1;2;100;0;0!640~", 0, window)?;
    let second = draw_rows(receiver, b"-!640", first, window)?;
    let last = draw_rows(receiver, b"~\x1b\\", second, window)?;
    let shape = draw_rest(receiver, last, window)?;
    let are_drawn = (first == 0) & (second == 6) & (last == 6);
    Ok(are_drawn & (shape.width == 640) & (shape.height == 12))
}

#[test]
fn window(rt: HostRuntime) -> std::result::Result<(), Fail> {
    let mut window = vec![in rt.alloc(); 9; 30_720]?;
    let mut receiver = SixelReceiver::new();
    receiver.begin_dcs(rt.alloc());
    let mut is_red = matches!(draw_window(&mut receiver, &mut window), Ok(true));
    for pixel in window.chunks(4) {
        is_red &= pixel == [0, 0, 255, 255].as_slice();
    }
    assert!(rt; is_red);
    Ok(())
}

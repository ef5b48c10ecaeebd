//! An image of three pixels with its texts, and a row.

use crate::allocations::picture::error_if;
use icy_sixel::canvas::Row;
use icy_sixel::{Result, SixelImage};
use std::alloc::Global;

/// Three pixels of one row.
pub const PIXELS: &[u8] = b"\x00\x00\x00\xff\x0a\x00\x00\xff\xff\xff\xff\xff";

/// The text of the pixels in all their colors.
pub const TEXT: &str =
    "\x1bP9;1;0q\"1;1;3;1#0;2;0;0;0#1;2;100;100;100#2;2;4;0;0#0@??$#1??@$#2?@?$-\x1b\\";

/// The text of an image that cannot be encoded.
pub const TEXT_OF_ERROR: &str = "[SIXEL encoding failed: invalid dimensions: 0x4]";

/// Lengths that a row grows to.
const COLUMNS: &[u16] = &[1, 300, 5000];

/// Whether a call returned this text.
pub fn is_text(answer: Result<String>, expected: &str) -> Result<bool> {
    match answer {
        Ok(text) => Ok(text.as_str() == expected),
        Err(error) => Err(error),
    }
}

/// Whether a call returned an image of this height that begins with the pixels.
pub fn is_shown(answer: Result<SixelImage>, height: usize) -> Result<bool> {
    match answer {
        Ok(image) => Ok(
            (image.dimensions() == (3, height))
                & image.pixels.starts_with(PIXELS)
                & (image.pixels.len() == height.saturating_mul(12)),
        ),
        Err(error) => Err(error),
    }
}

/// Grows a row three times. If that fails, the row must be unchanged, and grow the next time.
pub fn grow_row(alloc: Global) -> Result<bool> {
    let mut row = Row::new(alloc, [1, 2, 3, 4]);
    for columns in COLUMNS {
        let columns = usize::from(*columns);
        let (len, room, writes) = (row.len(), row.room(), row.writes());
        if let Err(error) = row.reach(columns) {
            let is_unchanged = (row.len() == len) & (row.room() == room) & (row.writes() == writes);
            return error_if(is_unchanged & row.reach(columns).is_ok(), error);
        }
    }
    Ok(row.len() == 5000)
}

//! A window that shows the rows of an image before it ends.

use icy_sixel::{ChannelOrder, ReceivedImage, Result, RowLayout, SixelReceiver};

/// How rows lie in the memory of a window: 640 columns in BGRA.
pub const WINDOW: RowLayout = RowLayout {
    stride: 2560,
    columns: 640,
    order: ChannelOrder::Bgra,
};

/// Reads a chunk, draws the rows that are final, and returns how many are drawn.
pub fn draw_rows(
    receiver: &mut SixelReceiver,
    chunk: &[u8],
    drawn: usize,
    window: &mut [u8],
) -> Result<usize> {
    receiver.feed(chunk)?;
    let rows = receiver.rows_so_far();
    let start = drawn.saturating_mul(WINDOW.stride).min(window.len());
    receiver.copy_rows(
        drawn,
        rows.saturating_sub(drawn),
        WINDOW,
        &mut window[start..],
    )?;
    receiver.release_rows(rows)?;
    Ok(rows)
}

/// Ends the image, and draws the rows that are left.
pub fn draw_rest(
    receiver: &mut SixelReceiver,
    drawn: usize,
    window: &mut [u8],
) -> Result<ReceivedImage> {
    let image = receiver.finish()?;
    let start = drawn.saturating_mul(WINDOW.stride).min(window.len());
    let rows = image.height.saturating_sub(image.first_row);
    image.copy_rows(image.first_row, rows, WINDOW, &mut window[start..])?;
    Ok(image)
}

//! How rows lie in a buffer, `icysixel_layout` of the header, and the codes of what is wrong.

ghost use Rattle.std.specs.Prelude.{◌≡◌};
ghost use Rattle.icysixel.specs.RowCopies.{IsRowsCode, is_order, layout_of, order_of};
ghost use Rattle.icysixel.specs.Rows.{stride_of};

use crate::code::Code;
use icy_sixel::{ChannelOrder, RowLayout, SixelError, error};

/// How rows lie in a buffer.
#[repr(C)]
#[derive(Clone, Copy)]
pub struct Layout {
    /// The number of bytes from row to row, or 0 for rows without gaps.
    pub stride: usize,
    /// How many pixels of a row are written, or 0 for all pixels of the image.
    pub columns: usize,
    /// 0 is RGBA, 1 BGRA.
    pub order: u8,
}

impl Layout {
    /// The layout of rows of an image with this width.
    pub fn row_layout(&self, width: usize) -> RowLayout
        ensures { result ≡ layout_of width self.now }
    {
        let columns = if self.columns == 0 {
            width
        } else {
            self.columns
        };
        RowLayout {
            stride: stride_of(self.stride, columns.saturating_mul(4)),
            columns,
            order: channel_order(self.order),
        }
    }
}

/// Whether the header names an order of channels.
pub fn is_order(order: u8) -> bool
    ensures { result ≡ is_order order }
{
    order <= 1
}

/// The order of a pixel's bytes.
pub fn channel_order(order: u8) -> ChannelOrder
    ensures { result ≡ order_of order }
{
    if order == 0 {
        ChannelOrder::Rgba
    } else {
        ChannelOrder::Bgra
    }
}

/// The code of what is wrong with rows and a buffer for them.
pub fn rows_code(error: &SixelError) -> u32
    ensures { IsRowsCode error.now result }
{
    match error {
        SixelError::BufferSizeMismatch { .. } => Code::BufferTooSmall as u32,
        SixelError::IntegerOverflow => Code::Overflow as u32,
        SixelError::InvalidData(error::ROWS_NOT_FINAL) => Code::RowsNotFinal as u32,
        SixelError::InvalidData(error::ROWS_RELEASED) => Code::RowsReleased as u32,
        _ => Code::BadStride as u32,
    }
}

/// The stride that C names: 0 stands for rows without gaps.
pub fn stride_of(stride: usize, row_len: usize) -> usize
    ensures { result ≡ stride_of stride row_len }
{
    if stride == 0 { row_len } else { stride }
}

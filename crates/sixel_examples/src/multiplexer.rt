//! A multiplexer that has to know which bytes of a pane belong to an image.

use icy_sixel::{Result, SixelDcsFeedStatus, SixelImage, SixelReceiver, Status};

/// How far the bytes of a pane belong to an image.
#[derive(Drop)]
pub enum Came {
    /// All of them belong to the image, and it has not ended.
    Part,
    /// The image has ended: the image, and how many bytes belong to it.
    Whole(SixelImage, usize),
    /// The sequence was cut short: the image so far, and how many bytes belong to it.
    ///
    /// The rest is for the pane.
    CutShort(SixelImage, usize),
}

/// Reads bytes of the DCS sequence that was begun by [`SixelReceiver::begin_dcs`].
pub fn read(receiver: &mut SixelReceiver, bytes: &[u8]) -> Result<Came> {
    let received = receiver.feed(bytes)?;
    match received.status {
        Status::Dcs(SixelDcsFeedStatus::Complete) => {
            Ok(Came::Whole(receiver.finish_image()?, received.consumed))
        }
        Status::Dcs(SixelDcsFeedStatus::Cancelled(_) | SixelDcsFeedStatus::Interrupted(_)) => {
            Ok(Came::CutShort(receiver.finish_image()?, received.consumed))
        }
        _ => Ok(Came::Part),
    }
}

//! The state behind a handle: a receiver and the stored image.

ghost use Rattle.std.specs.Prelude.{◌≡◌, ◌≢◌, None};
ghost use Rattle.sixel_base.specs.Decoder.{new_decoder};
ghost use Rattle.icy_sixel.specs.Receiver.{idle};
ghost use Rattle.icy_sixel.specs.declared.receiver.received_image.Height.TheVariants.{Bands};
ghost use Rattle.icysixel.specs.Heights.{IsStored};

use crate::code::{Code, code_of};
use crate::shape::Shape;
use icy_sixel::receiver::SixelReceiver;
use icy_sixel::{Height, ReceivedImage, SixelError};

/// A receiver, and the last image until the caller takes it.
#[derive(Drop)]
pub struct State {
    pub receiver: SixelReceiver,
    /// Where images end that are finished or decoded.
    pub height: Height,
    pub image: Option<ReceivedImage>,
}

impl State {
    /// A new decoder, with nothing stored.
    pub fn new() -> State
        ensures receiver { result.receiver ≡ idle new_decoder }
        ensures height { result.height ≡ Bands }
        ensures image { result.image ≡ None }
    {
        State {
            receiver: SixelReceiver::new(),
            height: Height::Bands,
            image: None,
        }
    }

    /// Stores the image of a result, ended at the height that is set.
    ///
    /// It writes the properties of the image. For an error it stores none and returns the code.
    pub fn store(
        &mut self,
        answer: Result<ReceivedImage, SixelError>,
        is_complete: bool,
        shape: &mut Shape,
    ) -> u32
        ensures stored { IsStored self.old.height is_complete answer self.new.image shape.new
            result }
        ensures told { result ≢ 0 → shape.new ≡ shape.old }
        ensures rest { self.new ≡ record self.old { image = self.new.image } }
    {
        match answer {
            Ok(whole) => {
                let mut image = whole;
                image.crop(self.height);
                *shape = Shape::of(&image, is_complete);
                self.image = Some(image);
                Code::Success as u32
            }
            Err(error) => {
                self.image = None;
                code_of(&error)
            }
        }
    }
}

//! What the host of a receiver sets: decoder, lenience, transparency and first register.

ghost use Rattle.std.specs.{Borrow.sem, Prelude.{◌≡◌}};
ghost use Rattle.icy_sixel.specs.Lending.{LendsDecoder};

use crate::decoder::SixelDecoder;
use crate::receiver::SixelReceiver;

impl SixelReceiver {
    /// Lends the decoder, whose registers and settings the caller sets.
    ///
    /// An open image keeps those that it began from, and its `finish` stores its own registers.
    pub fn decoder_mut(&mut self) -> &mut SixelDecoder
        ensures* writes_back { sem 𝓛 (LendsDecoder self.entry result) }
        ensures value { result.now ≡ self.old.decoder }
    {
        &mut self.decoder
    }

    /// Sets whether a command with a fault is ignored, in place of rejecting the image.
    ///
    /// It is off in a new receiver. The setting applies to each image that is begun or decoded by
    /// the receiver afterwards. It is no part of the decoder, so
    /// [`into_decoder`](Self::into_decoder) returns a decoder that rejects such images.
    ///
    /// - A repeat count, raster attributes or a graphics new line past a limit changes nothing.
    /// - A sixel outside the limits is not drawn and does not move the position. Its repeat count
    ///   is used up.
    /// - So [`feed`](Self::feed) and [`finish`](Self::finish) of a payload fail only if an
    ///   allocation fails. A DCS sequence can also have no introducer or a faulty header.
    /// - `finish` of a DCS sequence that has not ended returns its image so far, once its payload
    ///   has begun.
    ///
    /// The finished image reports how many commands were ignored, and
    /// [`has_ended`](Self::has_ended) before the end whether it is complete.
    pub fn set_lenient(&mut self, on: bool)
        ensures { self.new ≡ record self.old { lenient = on } }
    {
        self.lenient = on;
    }

    /// Whether images are lenient: off in a new receiver.
    pub fn is_lenient(&self) -> bool
        ensures { result ≡ self.now.lenient }
    {
        self.lenient
    }

    /// Sets whether pixels that no sixel draws are transparent, whatever P2 says.
    ///
    /// It is off in a new receiver, and applies to the same images as
    /// [`set_lenient`](Self::set_lenient). The `background_mode` of the image stays the one that P2
    /// selects. So a multiplexer can encode the image again with its P2, and the background shows
    /// through where nothing was drawn.
    pub fn set_transparent(&mut self, on: bool)
        ensures { self.new ≡ record self.old { transparent = on } }
    {
        self.transparent = on;
    }

    /// Whether the background is transparent whatever P2 says: off in a new receiver.
    pub fn is_transparent(&self) -> bool
        ensures { result ≡ self.now.transparent }
    {
        self.transparent
    }

    /// Sets the register in which an image draws until it selects one.
    ///
    /// It is 0 in a new receiver, and applies to the same images as
    /// [`set_lenient`](Self::set_lenient). Register 0 is also the background of opaque images, so
    /// an image that selects no register is invisible in it. foot and libsixel begin with register
    /// 15, xterm with 3.
    pub fn set_first_register(&mut self, register: u8)
        ensures { self.new ≡ record self.old { first_register = register } }
    {
        self.first_register = register;
    }

    /// The register in which an image draws until it selects one: 0 in a new receiver.
    pub fn first_register(&self) -> u8
        ensures { result ≡ self.now.first_register }
    {
        self.first_register
    }
}

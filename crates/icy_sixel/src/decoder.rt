//! The decoder of payloads and DCS sequences, in one call or in chunks.
//!
//! A payload is the data between the `q` and the terminator of a DCS sequence. `sixel_base`
//! specifies it by the list of its sixels and commands. `History` states which bytes these are,
//! `Place` and `Stroke` what they draw, and `Payload` when they are rejected. The contract of
//! decoding in one call is the record of `OneShotCalls` in `sixel_decoder`.

ghost use Rattle.std.specs.Prelude.{◌≡◌, ◌≤◌, [], length, slice_index_or, slice_set, IsOk, OnOk};
ghost use Rattle.std.specs.Prelude.{OnErr, IfOk, vec_capacity};
ghost use Rattle.sixel_base.specs.{Color.default_registers, Decoder.{IsSetAs, new_decoder}};
ghost use Rattle.sixel_base.specs.Decoder.{origin_of, with_clip, with_pixel_limit};
ghost use Rattle.sixel_base.specs.{Limits.area_limit, OneShot.{found, Payload, AreFoundRegisters}};
ghost use Rattle.sixel_base.specs.Payload.{payload_registers};
ghost use Rattle.icy_sixel.specs.{ImageView.image_value, Registers.with_colors};
ghost use Rattle.sixel_decoder.specs.{Memory.most_capacity, OneShotCalls.IsDecoded};
ghost use Rattle.sixel_decoder.specs.PayloadCalls.{begun};
ghost use Rattle.sixel_decoder.specs.DcsCalls.{begun as begun_dcs};

mod dcs_session;
mod drawn;
mod stream;

use crate::sixel_image::SixelImage;
pub use dcs_session::SixelDcsStreamDecoder;
use sixel_base::Result;
use sixel_base::registers::{REGISTERS, Registers};
pub use sixel_base::settings::DcsSettings;
use sixel_base::state::DecoderState;
pub use sixel_base::status::{
    SixelDcsFeedResult, SixelDcsFeedStatus, SixelFeedResult, SixelFeedStatus,
};
use sixel_decoder::{DcsReader, PayloadReader};
use std::alloc::Global;
use std::marker::Model;
pub use stream::SixelStreamDecoder;

/// A decoder: 256 color registers from image to image, and the host's settings.
///
/// A register has the color that the host set or a decoded image defined. An error changes no
/// register. The settings are whether images are cropped, how many pixels an image can have, and
/// its clip. A receiver also sets whether images are lenient or have a transparent background. All
/// apply to each image and session that is begun afterwards.
#[derive(Clone, Debug, Drop)]
pub struct SixelDecoder {
    pub(crate) state: DecoderState,
}

impl Model for SixelDecoder {
    ghost use Rattle.sixel_base.specs.declared.state.DecoderState.{DecoderState};

    ghost Value = { DecoderState };

    ghost view = { λ decoder. decoder.state };

    ghost inverse = { λ state. record { state = state } };

    ghost use Rattle.icy_sixel.specs.StrictDecoders.{IsStrict};

    ghost invariant = { λ decoder. IsStrict decoder.state };
}

impl Default for SixelDecoder {
    ghost use Rattle.sixel_base.specs.Decoder.{new_decoder};

    ghost is_default = { λ decoder. decoder ≡ new_decoder };

    fn default() -> Self {
        Self::new()
    }
}

impl SixelDecoder {
    ghost use Rattle.icy_sixel.specs.Sessions.{payload, payload_owner, sequence, sequence_owner};

    /// Creates a decoder with the registers that a terminal has when it is switched on.
    ///
    /// It crops and clips no image, and its limit is 67,108,864 pixels.
    pub fn new() -> Self
        ensures { result ≡ new_decoder }
    {
        Self {
            state: DecoderState::new(),
        }
    }

    /// Returns the color of a register: red, green and blue, a byte each.
    pub fn register(&self, register: u8) -> [u8; 3]
        ensures color { result ≡ slice_index_or self.now.registers register [] }
        ensures size { length self.now.registers ≡ 256 }
    {
        self.state.registers.get(register)
    }

    /// Sets the color of a register: red, green and blue, a byte each.
    ///
    /// A terminal has a palette of its own. Register 0 is the background of an opaque image.
    pub fn set_register(&mut self, register: u8, color: [u8; 3])
        ensures { self.new
            ≡ record self.old { registers = slice_set self.old.registers register color } }
    {
        self.state.registers.set(register, color);
    }

    /// Returns the colors of all registers: red, green and blue, a byte each.
    pub fn registers(&self) -> [[u8; 3]; REGISTERS]
        ensures { result ≡ self.now.registers }
    {
        let mut colors = [[0; 3]; REGISTERS];
        for number in 0..REGISTERS {
            colors[number] = self.state.registers.get(number as u8);
        }
        colors
    }

    /// Sets the colors of the registers from `first` on.
    ///
    /// A color is red, green and blue, a byte each. A terminal sets its whole palette by one call.
    /// Colors that are left after register 255 have no effect.
    pub fn set_registers(&mut self, first: u8, colors: &[[u8; 3]])
        ensures { self.new ≡ record self.old {
          registers = with_colors self.old.registers first colors.now;
        } }
    {
        let start = usize::from(first);
        let count = colors.len().min(REGISTERS - start);
        for place in 0..count {
            let number = (start + place) as u8;
            self.state.registers.set(number, colors[place]);
        }
    }

    /// Resets the registers to those of a new decoder, without changing the settings.
    ///
    /// An image does not reset them, so the next one starts with the registers that it defined.
    pub fn reset_palette(&mut self)
        ensures { self.new ≡ record self.old { registers = default_registers } }
    {
        self.state.registers = Registers::new();
    }

    /// Whether images are cropped to their raster attributes: off in a new decoder.
    pub fn raster_crop(&self) -> bool
        ensures { result ≡ self.now.raster_crop }
    {
        self.state.raster_crop
    }

    /// Sets whether images are cropped to their raster attributes.
    ///
    /// A sixel band has six rows, so an image whose height is no multiple of six is decoded with
    /// extra rows. With crop its height is the last height above zero in its raster attributes, if
    /// they have one. Crop does not change the width, the pixels of the remaining rows, the
    /// registers and the errors.
    pub fn set_raster_crop(&mut self, on: bool)
        ensures { self.new ≡ record self.old { raster_crop = on } }
    {
        self.state.raster_crop = on;
    }

    /// Returns how many pixels an image can have.
    ///
    /// The limit is 67,108,864 in a new decoder, and never more.
    pub fn pixel_limit(&self) -> usize
        ensures value { result ≡ self.now.pixel_limit.pixels }
        ensures some { 1 ≤ result }
        ensures within { result ≤ area_limit }
    {
        self.state.pixel_limit.pixels()
    }

    /// Sets how many pixels an image can have: at least 1, and at most 67,108,864.
    ///
    /// The extent of all sixels and raster attributes counts, also if the image is cropped or
    /// clipped. An image is rejected as soon as it has more pixels than the limit. Encoding has no
    /// such limit.
    pub fn set_pixel_limit(&mut self, pixels: usize)
        ensures { self.new ≡ with_pixel_limit self.old pixels }
    {
        self.state.pixel_limit = self.state.pixel_limit.with_pixels(pixels);
    }

    /// Returns the clip: how many columns and rows an image can have.
    ///
    /// They count from the left and from the top. Both are 1,000,000 in a new decoder, which clips
    /// nothing, because no image has more.
    pub fn clip(&self) -> (usize, usize)
        ensures columns { result.0 ≡ self.now.pixel_limit.columns }
        ensures rows { result.1 ≡ self.now.pixel_limit.rows }
    {
        (
            self.state.pixel_limit.columns(),
            self.state.pixel_limit.rows(),
        )
    }

    /// Sets the clip: each side is at least 1, and at most 1,000,000.
    ///
    /// An image is then the picture restricted to these columns and rows, and at most as large.
    /// What lies outside is not stored. The registers and the errors are those of the whole
    /// picture.
    pub fn set_clip(&mut self, width: usize, height: usize)
        ensures { self.new ≡ with_clip self.old width height }
    {
        self.state.pixel_limit = self.state.pixel_limit.with_clip(width, height);
    }

    /// Decodes the first DCS sequence in the bytes, or all of them as a payload.
    ///
    /// ```rust
    /// decoder.decode(alloc, bytes)
    /// ```
    ///
    /// Without a DCS sequence all bytes are the payload. Bytes before the introducer and after the
    /// payload have no effect. The errors are those of
    /// [`decode_from_dcs`](Self::decode_from_dcs), and
    /// [`SixelError::InvalidData`](crate::SixelError::InvalidData) for a header that is invalid or
    /// does not end. After an error the registers are unchanged.
    pub fn decode(&mut self, alloc: Global, bytes: &[u8]) -> Result<SixelImage>
        ensures decoded { IsDecoded image_value self.old (found bytes.now) result }
        ensures memory { IfOk result (λ image. vec_capacity image.pixels
            ≤ most_capacity (length image.pixels.items)) }
        ensures registers { OnOk result
            (AreFoundRegisters self.old (found bytes.now) self.new.registers) }
        ensures set { IsSetAs self.old self.new }
        ensures kept { OnErr result (self.new ≡ self.old) }
    {
        match self.decode_drawn(alloc, bytes) {
            Ok(image) => image.into_image(),
            Err(error) => Err(error),
        }
    }

    /// Begins a payload that is decoded in chunks.
    ///
    /// ```rust
    /// let mut session = decoder.begin_frame(alloc, DcsSettings::default())?;
    /// session.feed(b"#1!1")?;
    /// // 2 bytes are consumed, and the status is Terminated(0x1b): the terminator is left.
    /// session.feed(b"2~\x1b\\")?;
    /// session.finish()
    /// ```
    ///
    /// The call does not allocate and is always `Ok`. The session borrows this decoder until it
    /// ends, and starts with the decoder's current registers and settings.
    pub fn begin_frame(
        &mut self,
        alloc: Global,
        settings: DcsSettings,
    ) -> Result<SixelStreamDecoder<'_>>
        ensures ok { IsOk result }
        ensures owner { IfOk result
            (λ session. (payload_owner session).ghost_name ≡ self.entry.ghost_name) }
        ensures registers { IfOk result (λ session. (payload_owner session).now ≡ self.old) }
        ensures session { IfOk result
            (λ session. payload session ≡ begun (origin_of self.old settings)) }
    {
        let state = self.state;
        Ok(SixelStreamDecoder {
            owner: self,
            reader: PayloadReader::new(alloc, state, settings),
        })
    }

    /// Begins a DCS sequence that is decoded in chunks, from its introducer to its end.
    ///
    /// ```rust
    /// let mut session = decoder.begin_dcs(alloc);
    /// // A chunk can end anywhere, also inside a number.
    /// session.feed(b"\x1bP9;1q#1;2;100;0;0!1")?;
    /// // 4 bytes are consumed, and the status is Complete: the rest is left.
    /// session.feed(b"2~\x1b\\the terminal's own")?;
    /// // 12x6 pixels, all red. The decoder now has register 1.
    /// session.finish()
    /// ```
    ///
    /// The call does not allocate.
    pub fn begin_dcs(&mut self, alloc: Global) -> SixelDcsStreamDecoder<'_>
        ensures owner { (sequence_owner result).ghost_name ≡ self.entry.ghost_name }
        ensures registers { (sequence_owner result).now ≡ self.old }
        ensures session { sequence result ≡ begun_dcs self.old }
    {
        let state = self.state;
        SixelDcsStreamDecoder {
            owner: self,
            reader: DcsReader::new(alloc, state),
        }
    }

    /// Decodes one payload: the data between a DCS sequence's `q` and its terminator.
    ///
    /// ```rust
    /// let settings = DcsSettings::new(Some(9), Some(1), None);
    /// decoder.decode_from_dcs(alloc, payload, settings)
    /// ```
    ///
    /// Bytes from the first terminator on have no effect. An empty payload is an image of one
    /// pixel. After an error the registers are unchanged. The errors are:
    ///
    /// - [`SixelError::InvalidData`](crate::SixelError::InvalidData) for a repeat above 65,535, a
    ///   side above 1,000,000 or an area above [`pixel_limit`](Self::pixel_limit);
    /// - `IntegerOverflow` for more new lines than a row number can count;
    /// - `OutOfMemory` if an allocation fails.
    pub fn decode_from_dcs(
        &mut self,
        alloc: Global,
        bytes: &[u8],
        settings: DcsSettings,
    ) -> Result<SixelImage>
        ensures decoded { IsDecoded image_value self.old (Payload settings bytes.now) result }
        ensures memory { IfOk result (λ image. vec_capacity image.pixels
            ≤ most_capacity (length image.pixels.items)) }
        ensures registers { OnOk result (self.new.registers ≡ payload_registers
            (origin_of self.old settings) bytes.now) }
        ensures set { IsSetAs self.old self.new }
        ensures kept { OnErr result (self.new ≡ self.old) }
    {
        match self.decode_from_dcs_drawn(alloc, bytes, settings) {
            Ok(image) => image.into_image(),
            Err(error) => Err(error),
        }
    }
}

/// Does what [`SixelImage::decode`] does.
pub fn sixel_decode(alloc: Global, bytes: &[u8]) -> Result<SixelImage>
    ensures { IsDecoded image_value new_decoder (found bytes.now) result }
{
    SixelImage::decode(alloc, bytes)
}

/// Does what [`SixelImage::decode_from_dcs`] does.
pub fn sixel_decode_from_dcs(
    alloc: Global,
    bytes: &[u8],
    settings: DcsSettings,
) -> Result<SixelImage>
    ensures { IsDecoded image_value new_decoder (Payload settings bytes.now) result }
{
    SixelImage::decode_from_dcs(alloc, bytes, settings)
}

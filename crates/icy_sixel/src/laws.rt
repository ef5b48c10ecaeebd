//! Laws of decoded images, stated by functions with empty bodies.

ghost use Rattle.std.specs.Prelude.{◌≡◌, ℕ, List, None, Bool, true};
ghost use Rattle.sixel_base.specs.{Clip.{clipped_height, clipped_width}, Dcs.can_finish};
ghost use Rattle.sixel_base.specs.{Dcs.{dcs_status, has_ended}, Decoder.{origin_of, with_clip}};
ghost use Rattle.sixel_base.specs.{Decoder.with_transparent, History.History, Lenient.effective};
ghost use Rattle.sixel_base.specs.{Lenient.fault, OneShot.{Found, AreFoundRegisters, IsFoundImage}};
ghost use Rattle.sixel_base.specs.{OneShot.found_fault, PaintedArea.painted_area, Payload.Image};
ghost use Rattle.sixel_base.specs.{Payload.first_fault, Place.{height, width}, Settings.Settings};
ghost use Rattle.sixel_base.specs.{Settings.mode_of, Stroke.{background, background_of}};
ghost use Rattle.sixel_base.specs.declared.state.DecoderState.{DecoderState};
ghost use Rattle.sixel_decoder.specs.Report.{found_report};
ghost use Rattle.icy_sixel.specs.ClippedImages.{whole_painted_area, IsInsideClip, IsPartInside};
ghost use Rattle.icy_sixel.specs.ClippedImages.{IsWholeImage, part_report, whole_pixel, HasNoClip};
ghost use Rattle.icy_sixel.specs.{Headline.Headline, StrictDecoders.IsStrict};
ghost use Rattle.icy_sixel.specs.TransparentImages.{IsCleared, drawn_pixel_of};

use crate::decoder::SixelDecoder;

/// States the theorem of this library, for every decoder, image and chunk boundary.
///
/// - `tokens`, `no_others`: the bytes of a payload are one list of tokens.
/// - `cut`: cuts have no effect on the outcomes of a list of images and resets.
/// - `one`: memory aside, such a list has one list of outcomes, and leaves one decoder.
/// - `text`: every image within the limits has a text that means it.
///
/// The outcomes are those of [`run`](crate::script::run). The text is that of
/// [`encode_with`](crate::SixelImage::encode_with).
pub fn headline()
    ensures { Headline }
{}

/// States what bytes mean to a decoder, which has no settings of a receiver.
///
/// - `strict`: its images are strict, have the background of P2, and begin with register 0.
/// - `fault`, `tokens`: every token takes effect, and the error is that of the first faulty one.
/// - `background`: a pixel that is not drawn is as P2 says.
/// - `end`: a DCS sequence can be finished exactly if it has ended.
pub fn strict_decoders(decoder: &SixelDecoder)
    ensures strict { IsStrict decoder.now }
    ensures fault { (tokens : History)
        → fault decoder.now.pixel_limit tokens ≡ first_fault decoder.now.pixel_limit tokens }
    ensures tokens { (tokens : History) → effective decoder.now.pixel_limit tokens ≡ tokens }
    ensures background { (settings : Settings) → background (origin_of decoder.now settings)
        ≡ background_of decoder.now.registers (mode_of settings) }
    ensures end { (bytes : List ℕ)
        → can_finish decoder.now.pixel_limit bytes ≡ has_ended (dcs_status bytes) }
{
    // What is read of a decoder has its invariant.
    let _state = decoder.state;
}

/// States that a transparent background changes only pixels that no sixel covers.
///
/// - `image`: these pixels are transparent. The others, the sizes, the pixel shape and the
///   background mode stay.
/// - `fault`, `registers`: errors and registers do not depend on it.
///
/// The contracts of sessions, receiver and decoding in one call cite the same definitions. A new
/// decoder has no transparent background.
pub fn transparent_images()
    ensures image { (decoder : DecoderState) (payload : Found) (image clear : Image)
        → IsFoundImage decoder payload image
        → IsFoundImage (with_transparent decoder true) payload clear
        → IsCleared (drawn_pixel_of decoder payload) image clear }
    ensures fault { (decoder : DecoderState) (on : Bool) (payload : Found)
        → found_fault (with_transparent decoder on).pixel_limit payload
        ≡ found_fault decoder.pixel_limit payload }
    ensures registers { (decoder : DecoderState) (on : Bool) (payload : Found)
        (after : List (List ℕ)) → AreFoundRegisters decoder payload after
        → AreFoundRegisters (with_transparent decoder on) payload after }
{}

/// States that an image under a clip is the part of the image inside the clip.
///
/// - `whole`: without a clip, as in a new decoder, the image of a payload is its whole picture.
/// - `whole_size`, `whole_area`: then the size and the painted area, by which the work of a canvas
///   is counted, are those of the whole picture.
/// - `part`, `report`: a clip leaves the columns and rows inside it, pixel by pixel, and ends the
///   drawn height. The image that it is compared with has no clip or a larger one.
/// - `fault`, `registers`: errors and the registers after an image do not depend on the clip.
///
/// The contracts of sessions, receiver and decoding in one call cite the same definitions.
pub fn clipped_images()
    ensures whole { (decoder : DecoderState) (payload : Found) (image : Image)
        → HasNoClip decoder → found_fault decoder.pixel_limit payload ≡ None
        → IsFoundImage decoder payload image → IsWholeImage decoder payload image }
    ensures whole_size { (decoder : DecoderState) (tokens : History) → HasNoClip decoder
        → first_fault decoder.pixel_limit tokens ≡ None
        → (clipped_width decoder.pixel_limit tokens ≡ width tokens)
        × (clipped_height decoder.pixel_limit tokens ≡ height tokens) }
    ensures whole_area { (decoder : DecoderState) (tokens : History) → HasNoClip decoder
        → first_fault decoder.pixel_limit tokens ≡ None
        → painted_area decoder.pixel_limit tokens ≡ whole_painted_area tokens }
    ensures part { (decoder : DecoderState) (columns rows : ℕ) (payload : Found)
        (image part : Image) → IsInsideClip decoder columns rows
        → IsFoundImage decoder payload image
        → IsFoundImage (with_clip decoder columns rows) payload part
        → IsPartInside (whole_pixel decoder payload) columns rows image part }
    ensures report { (decoder : DecoderState) (columns rows : ℕ) (payload : Found)
        → IsInsideClip decoder columns rows
        → found_report (with_clip decoder columns rows) payload
        ≡ part_report (found_report decoder payload) rows }
    ensures fault { (decoder : DecoderState) (columns rows : ℕ) (payload : Found)
        → found_fault (with_clip decoder columns rows).pixel_limit payload
        ≡ found_fault decoder.pixel_limit payload }
    ensures registers { (decoder : DecoderState) (columns rows : ℕ) (payload : Found)
        (after : List (List ℕ)) → AreFoundRegisters decoder payload after
        → AreFoundRegisters (with_clip decoder columns rows) payload after }
{}

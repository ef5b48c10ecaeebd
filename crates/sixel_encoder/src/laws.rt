//! Laws of the SIXEL output and its meaning, stated by functions with empty bodies.
#![tactic(auto, using(crate::proofs::TextLaws::laws))]

ghost use Rattle.std.specs.Prelude.{◌≡◌, ℕ, ◌≤◌, ◌<◌, ◌*◌, Bool, List, ◌∷◌, ◌++◌, length, codes};
ghost use Rattle.std.specs.Prelude.{Some, None, All, false};
ghost use Rattle.sixel_base.specs.Bytes.{before_terminator, front, first_terminator, count};
ghost use Rattle.sixel_base.specs.{Color.byte_of, Dcs.{Reading, stage}, Decoder.new_decoder};
ghost use Rattle.sixel_base.specs.{Decoder.origin_of, Limits.Limit, OneShot.AreFoundRegisters};
ghost use Rattle.sixel_base.specs.{OneShot.{Payload, found}, Payload.{Image, payload_fault}};
ghost use Rattle.sixel_base.specs.{Payload.payload_image, Size.banded};
ghost use Rattle.sixel_base.specs.declared.settings.BackgroundMode.TheVariants.{Opaque};
ghost use Rattle.sixel_base.specs.declared.settings.BackgroundMode.TheVariants.{Transparent};
ghost use Rattle.sixel_base.specs.declared.state.DecoderState.{DecoderState};
ghost use Rattle.sixel_palette.specs.{Palette.{HasSize, IsShown}, Refined.IsRegisterColor};
ghost use Rattle.sixel_palette.specs.{Refined.percentage, declared.mapping.Mapping.Mapping};
ghost use Rattle.sixel_encoder.specs.{Compact.compact_text, Encoding.{image_fault, IsDrawing}};
ghost use Rattle.sixel_encoder.specs.{Encoding.{IsText, shown_image}, Form.form_text};
ghost use Rattle.sixel_encoder.specs.{IndexedDrawing.indexed_drawing, Marks.IsDrawnText};
ghost use Rattle.sixel_encoder.specs.RefinedText.{IsRefinedText, ShowsPixels, no_mapping};
ghost use Rattle.sixel_encoder.specs.{Text.{Drawing, parameters_text, text_of}, Trip.IsWritable};
ghost use Rattle.sixel_encoder.specs.Trip.{payload_text, drawing_settings, rounded, HasBackground};
ghost use Rattle.sixel_encoder.specs.Trip.{trip, CanRead, CanShow, IsTrip, IsReadAs, IsOneString};
ghost use Rattle.sixel_encoder.specs.declared.form.TextForm.{TextForm};

/// States that an output is its parameters, a payload and the string terminator.
///
/// Decoding the payload consumes every byte of it.
pub fn whole_payload()
    ensures text { (drawing : Drawing)
        → text_of drawing ≡ parameters_text drawing ++ (payload_text drawing ++ 27 ∷ codes "\\") }
    ensures own { (drawing : Drawing) (rest : List ℕ) → IsWritable drawing
        → before_terminator (payload_text drawing ++ 27 ∷ rest) ≡ payload_text drawing }
    ensures front { (drawing : Drawing) (rest : List ℕ) → IsWritable drawing
        → front (payload_text drawing ++ 27 ∷ rest) ≡ payload_text drawing }
    ensures counted { (drawing : Drawing) (rest : List ℕ) → IsWritable drawing
        → count (payload_text drawing ++ 27 ∷ rest) ≡ length (payload_text drawing) }
    ensures ended { (drawing : Drawing) (rest : List ℕ) → IsWritable drawing
        → first_terminator (payload_text drawing ++ 27 ∷ rest) ≡ Some 27 }
{}

/// States that decoding a payload succeeds and returns the drawing's trip.
pub fn round_trip()
    ensures sound { (limit : Limit) (drawing : Drawing) (rest : List ℕ) → IsWritable drawing
        → drawing.width * banded drawing.height ≤ limit.pixels
        → payload_fault limit (payload_text drawing ++ 27 ∷ rest) ≡ None }
    ensures image { (decoder : DecoderState) (drawing : Drawing) (rest : List ℕ)
        → IsWritable drawing → CanShow decoder drawing.width drawing.height
        → payload_image (origin_of decoder (drawing_settings drawing))
        (payload_text drawing ++ 27 ∷ rest)
        ≡ trip decoder.raster_crop drawing }
{}

/// States that an output is one DCS sequence with the drawing's settings.
///
/// The sequence ends with the last byte. A decoder that can read it returns the drawing's trip.
pub fn one_control_string()
    ensures found { (drawing : Drawing) → found (text_of drawing)
        ≡ Payload (drawing_settings drawing) (payload_text drawing ++ 27 ∷ codes "\\") }
    ensures staged { (drawing : Drawing) → stage (text_of drawing)
        ≡ Reading (drawing_settings drawing) (payload_text drawing ++ 27 ∷ codes "\\") }
    ensures whole { (limit : Limit) (drawing : Drawing) → IsWritable drawing
        → drawing.width * banded drawing.height ≤ limit.pixels
        → IsOneString limit (text_of drawing) }
    ensures read_back { (decoder : DecoderState) (drawing : Drawing) → IsWritable drawing
        → CanRead decoder drawing.width drawing.height
        → IsReadAs decoder (text_of drawing) (trip decoder.raster_crop drawing) }
{}

/// States that each text of marks that draw a drawing means the drawing's trip.
///
/// Such a text is one DCS sequence. A decoder that can read it returns the trip. The output for a
/// drawing is such a text.
pub fn drawn_text()
    ensures whole { (limit : Limit) (drawing : Drawing) (text : List ℕ) → IsWritable drawing
        → IsDrawnText drawing text → drawing.width * banded drawing.height ≤ limit.pixels
        → IsOneString limit text }
    ensures read_back { (decoder : DecoderState) (drawing : Drawing) (text : List ℕ)
        → IsWritable drawing → IsDrawnText drawing text
        → CanRead decoder drawing.width drawing.height
        → IsReadAs decoder text (trip decoder.raster_crop drawing) }
    ensures plain { (drawing : Drawing) → IsWritable drawing
        → IsDrawnText drawing (text_of drawing) }
{}

/// States that a compact text is a text of marks that draw the drawing.
///
/// So it is one DCS sequence, and a decoder returns the image of the plain text. It is never longer
/// than the plain text.
pub fn compact_text()
    ensures drawn { (drawing : Drawing) → IsWritable drawing
        → IsDrawnText drawing (compact_text drawing) }
    ensures whole { (limit : Limit) (drawing : Drawing) → IsWritable drawing
        → drawing.width * banded drawing.height ≤ limit.pixels
        → IsOneString limit (compact_text drawing) }
    ensures read_back { (decoder : DecoderState) (drawing : Drawing) → IsWritable drawing
        → CanRead decoder drawing.width drawing.height
        → IsReadAs decoder (compact_text drawing) (trip decoder.raster_crop drawing) }
    ensures short { (drawing : Drawing)
        → length (compact_text drawing) ≤ length (text_of drawing) }
{}

/// States that register 0 has the background after an opaque drawing.
///
/// The background is palette entry 0, as a percentage and back. Terminals that paint what is not
/// drawn in the color of register 0 paint it in the background. An image of an icy_sixel decoder
/// has the color there that register 0 had before.
pub fn background()
    ensures { (decoder : DecoderState) (drawing : Drawing) (form : TextForm)
        (after : List (List ℕ)) → IsWritable drawing → drawing.background_mode ≡ Opaque
        → 0 < length drawing.colors → length decoder.registers ≡ 256
        → decoder.pixel_limit.lenient ≡ false
        → AreFoundRegisters decoder (found (form_text form drawing)) after
        → HasBackground drawing after }
{}

/// States that a percentage survives the conversion to a byte.
///
/// So a second round trip does not round a channel again.
pub fn rounding()
    ensures percentages { (p : ℕ) → p ≤ 100 → percentage (byte_of p) ≡ p }
    ensures bytes { (channel : ℕ) → rounded (rounded channel) ≡ rounded channel }
{}

/// States that the output of an image means the trip of its drawing.
///
/// The output is one DCS sequence. Each decoder that can read it, as a new one can, returns that
/// trip. The trip is again an image that can be encoded.
pub fn image_trip()
    ensures writable { (image : Image) (max_colors : ℕ) (drawing : Drawing)
        → image_fault image ≡ None → All (λ byte. byte < 256) image.pixels
        → IsDrawing image max_colors drawing → IsWritable drawing }
    ensures readable { (image : Image) → image_fault image ≡ None
        → CanRead new_decoder image.width image.height }
    ensures whole { (limit : Limit) (image : Image) (max_colors : ℕ) (text : List ℕ)
        → image_fault image ≡ None → All (λ byte. byte < 256) image.pixels
        → image.width * banded image.height ≤ limit.pixels
        → IsText image max_colors text → IsOneString limit text }
    ensures read_back { (decoder : DecoderState) (image : Image) (max_colors : ℕ) (text : List ℕ)
        → image_fault image ≡ None → All (λ byte. byte < 256) image.pixels
        → CanRead decoder image.width image.height → IsText image max_colors text
        → (drawing : Drawing) × IsDrawing image max_colors drawing
        × IsReadAs decoder text (trip decoder.raster_crop drawing) }
    ensures sound { (raster_crop : Bool) (drawing : Drawing) → IsWritable drawing
        → image_fault (trip raster_crop drawing) ≡ None }
    ensures bytes { (raster_crop : Bool) (drawing : Drawing) → IsWritable drawing
        → All (λ byte. byte < 256) (trip raster_crop drawing).pixels }
{}

/// States that a second trip of a transparent image changes nothing.
///
/// The second trip has as many colors as the first.
pub fn second_trip()
    ensures trip { (raster_crop : Bool) (image : Image) (max_colors : ℕ) (drawing : Drawing)
        → IsTrip raster_crop image max_colors → image.background_mode ≡ Transparent
        → IsDrawing image max_colors drawing → trip raster_crop drawing ≡ image }
    ensures read_back { (decoder : DecoderState) (image : Image) (max_colors : ℕ) (text : List ℕ)
        → IsTrip decoder.raster_crop image max_colors → image.background_mode ≡ Transparent
        → CanRead decoder image.width image.height
        → IsText image max_colors text → IsReadAs decoder text image }
{}

/// States that images that look the same have the same refined outputs.
///
/// So colors of transparent pixels are no part of what a refined output has to be.
pub fn refined_text()
    ensures { (image other : Image) (max_colors : ℕ) (mapping : Mapping) (form : TextForm)
        (text : List ℕ) → image_fault image ≡ None → shown_image image ≡ shown_image other
        → IsRefinedText image max_colors mapping form text
        → IsRefinedText other max_colors mapping form text }
{}

/// States that a refined output shows few colors of registers unchanged.
///
/// [`count_colors`](sixel_palette::palette::count_colors) returns how many colors an image has, and
/// whether registers show them. Each opaque pixel is read back in its very color then.
pub fn exact_text()
    ensures { (image : Image) (max_colors n : ℕ) (form : TextForm) (text : List ℕ)
        → image_fault image ≡ None → HasSize (IsShown image.pixels) n → n ≤ max_colors
        → ((c : List ℕ) → IsShown image.pixels c → IsRegisterColor c)
        → (is : IsRefinedText image max_colors no_mapping form text)
        → ShowsPixels image (indexed_drawing image is.colors is.text.indices) }
{}

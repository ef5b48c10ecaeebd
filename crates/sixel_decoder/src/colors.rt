//! Colors of pixels: the background, and what a color introducer defines.

ghost use Rattle.std.specs.Prelude.{◌≡◌, ◌∷◌, ◌++◌, List, ℕ, [], slice_set, true, if◌then◌else◌};
ghost use Rattle.sixel_canvas.specs.inside.Tags.{is_tag};
ghost use Rattle.sixel_base.specs.{Decoder.origin_of, Stroke.{background, is_definition}};
ghost use Rattle.sixel_base.specs.{Stroke.definition, inside.Parameters.Keeps};

use sixel_base::parameters::Parameters;
use sixel_base::registers::Registers;
use sixel_base::settings::{BackgroundMode, DcsSettings};
use sixel_base::state::DecoderState;

/// Returns the color of a pixel that no sixel covers.
pub fn background(decoder: &DecoderState, settings: DcsSettings) -> [u8; 4]
    ensures { result ≡ background (origin_of decoder.now settings) }
{
    if decoder.pixel_limit.transparent() {
        return [0; 4];
    }
    match settings.background_mode() {
        BackgroundMode::Transparent => [0; 4],
        BackgroundMode::Opaque => opaque(decoder.registers.get(0)),
    }
}

/// Returns the opaque pixel of a color.
pub fn opaque(color: [u8; 3]) -> [u8; 4]
    ensures value { result ≡ color ++ 255 ∷ [] }
    ensures visible { is_tag result ≡ true }
{
    let [red, green, blue] = color;
    [red, green, blue, 255]
}

/// Stores the color that five parameters define in the register.
///
/// Fewer parameters, and other color systems than HLS and RGB, define none.
pub fn define(registers: &mut Registers, register: u8, parameters: &Parameters)
    ensures { (text : List ℕ) → Keeps parameters.now text
        → registers.new ≡ (if is_definition text
        then slice_set registers.old register (definition text) else registers.old) }
{
    if parameters.len() < 5 {
        return;
    }
    let (x, y, z) = (parameters.get(2), parameters.get(3), parameters.get(4));
    match parameters.get(1) {
        1 => registers.define_hls(register, x, y, z),
        2 => registers.define_rgb(register, x, y, z),
        _ => {}
    }
}

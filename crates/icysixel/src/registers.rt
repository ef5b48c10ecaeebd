//! The calls that read, set and reset the decoder's registers.

ghost use Rattle.std.specs.Prelude.{◌≡◌, [], ◌∷◌, drop, slice_index_or, slice_set};
ghost use Rattle.sixel_base.specs.Color.{default_registers};
ghost use Rattle.icy_sixel.specs.Registers.{with_colors};
ghost use Rattle.icysixel.specs.Changes.{IsSet, Writes};

use crate::code::Code;
use crate::handle::Handle;

/// A color, one byte for each channel.
#[repr(C)]
#[derive(Clone, Copy)]
pub struct Color {
    pub red: u8,
    pub green: u8,
    pub blue: u8,
}

impl Color {
    /// The color of these channels.
    fn of(channels: [u8; 3]) -> Color
        ensures color { channels ≡ result.red ∷ result.green ∷ result.blue ∷ [] }
    {
        let [red, green, blue] = channels;
        Color { red, green, blue }
    }
}

/// Writes the color of a register of the decoder.
#[unsafe(no_mangle)]
pub extern "C" fn icysixel_get_register(handle: &mut Handle, register: u8, color: &mut Color) -> u32
    ensures { Writes (λ state written. slice_index_or state.receiver.decoder.registers register []
        ≡ written.red ∷ written.green ∷ written.blue ∷ [])
        handle.old.pointer.state handle.new.pointer.state color.old color.new result }
{
    let Some(state) = handle.state() else {
        return Code::NoHandle as u32;
    };
    *color = Color::of(state.receiver.decoder().register(register));
    Code::Success as u32
}

/// Sets the color of a register of the decoder.
#[unsafe(no_mangle)]
pub extern "C" fn icysixel_set_register(
    handle: &mut Handle,
    register: u8,
    red: u8,
    green: u8,
    blue: u8,
)
    ensures { IsSet (λ decoder. record decoder {
      registers = slice_set decoder.registers register (red ∷ green ∷ blue ∷ []);
    })
        handle.old.pointer.state handle.new.pointer.state }
{
    if let Some(state) = handle.state() {
        let decoder = state.receiver.decoder_mut();
        decoder.set_register(register, [red, green, blue]);
    }
}

/// Writes the colors of the decoder's registers from `first` on, as far as both go.
#[unsafe(no_mangle)]
pub extern "C" fn icysixel_get_registers(
    handle: &mut Handle,
    first: u8,
    colors: &mut [[u8; 3]],
) -> u32
    ensures { Writes (λ state written. written
        ≡ with_colors colors.old 0 (drop first state.receiver.decoder.registers))
        handle.old.pointer.state handle.new.pointer.state colors.old colors.new result }
{
    let Some(state) = handle.state() else {
        return Code::NoHandle as u32;
    };
    let registers = state.receiver.decoder().registers();
    copy_colors(colors, registers.split_at(usize::from(first)).1);
    Code::Success as u32
}

/// Copies colors to the start of a buffer, as far as both go.
fn copy_colors(buf: &mut [[u8; 3]], colors: &[[u8; 3]])
    ensures { buf.new ≡ with_colors buf.old 0 colors.now }
{
    for place in 0..colors.len().min(buf.len()) {
        buf[place] = colors[place];
    }
}

/// Sets the colors of the decoder's registers from `first` on.
#[unsafe(no_mangle)]
pub extern "C" fn icysixel_set_registers(handle: &mut Handle, first: u8, colors: &[[u8; 3]])
    ensures { IsSet (λ decoder. record decoder {
      registers = with_colors decoder.registers first colors.now;
    })
        handle.old.pointer.state handle.new.pointer.state }
{
    if let Some(state) = handle.state() {
        state.receiver.decoder_mut().set_registers(first, colors);
    }
}

/// Resets the decoder's registers to those of a new one.
#[unsafe(no_mangle)]
pub extern "C" fn icysixel_reset_registers(handle: &mut Handle)
    ensures { IsSet (λ decoder. record decoder { registers = default_registers })
        handle.old.pointer.state handle.new.pointer.state }
{
    if let Some(state) = handle.state() {
        state.receiver.decoder_mut().reset_palette();
    }
}

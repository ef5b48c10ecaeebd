//! The 256 color registers of a terminal.

ghost use Rattle.std.specs.Prelude.{◌≡◌, [], length, slice_index_or, slice_set};
ghost use Rattle.sixel_base.specs.Color.{default_registers, rgb, hls};

use std::marker::Model;

mod color;
mod defaults;

use defaults::DEFAULT_CODES;

/// How many registers there are.
pub const REGISTERS: usize = 256;

/// A color for each register: red, green and blue, a byte each.
#[derive(Debug, Clone, Copy)]
pub struct Registers {
    colors: [[u8; 3]; REGISTERS],
}

impl Model for Registers {
    ghost use Rattle.std.specs.Prelude.{ℕ, List};

    ghost Value = { List (List ℕ) };

    ghost view = { λ r. r.colors };

    ghost inverse = { λ colors. record { colors = colors } };
}

impl Registers {
    /// The registers of a new terminal.
    ///
    /// They are DEC's sixteen colors, then a color cube in steps of 20 percent, and 24 grays in
    /// even steps from black to white.
    pub fn new() -> Self
        ensures colors { result ≡ default_registers }
        ensures size { length result ≡ 256 }
    {
        let mut colors = [[0; 3]; REGISTERS];
        for register in 0..REGISTERS {
            colors[register] = color::from_code(DEFAULT_CODES[register]);
        }
        Self { colors }
    }

    /// Returns the color of a register: red, green and blue.
    pub fn get(&self, register: u8) -> [u8; 3]
        ensures color { result ≡ slice_index_or self.now register [] }
        ensures size { length self.now ≡ 256 }
    {
        self.colors[register as usize]
    }

    /// Sets the color of a register: red, green and blue.
    pub fn set(&mut self, register: u8, color: [u8; 3])
        ensures defined { self.new ≡ slice_set self.old register color }
        ensures size { length self.new ≡ 256 }
    {
        self.colors[register as usize] = color;
    }

    /// Sets the color of a register by three percentages, where 100 is the greatest.
    pub fn define_rgb(&mut self, register: u8, red: u32, green: u32, blue: u32)
        ensures defined { self.new ≡ slice_set self.old register (rgb red green blue) }
        ensures size { length self.new ≡ 256 }
    {
        self.colors[register as usize] = color::rgb(red, green, blue);
    }

    /// Sets the color of a register by hue, lightness and saturation.
    ///
    /// The hue is in degrees, and 0 is blue, as on DEC's terminals. Lightness and saturation are
    /// percentages, where 100 is the greatest.
    pub fn define_hls(&mut self, register: u8, hue: u32, lightness: u32, saturation: u32)
        ensures defined { self.new ≡ slice_set self.old register (hls hue lightness saturation) }
        ensures size { length self.new ≡ 256 }
    {
        self.colors[register as usize] = color::hls(hue, lightness, saturation);
    }
}

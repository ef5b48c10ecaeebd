//! The pen of a compact output: the next column, and the register that is selected.

ghost use Rattle.std.specs.Prelude.{◌≡◌, ◌++◌, OnOk, Some, string_bytes};
ghost use Rattle.sixel_encoder.specs.Marks.{marks_text};
ghost use Rattle.sixel_encoder.specs.Compact.{start_column, to_band, to_register, to_segment};

use crate::decimal::push_number;
use crate::segments::Segment;
use std::alloc::AllocError;

/// Where the next sixel is written, and in which register.
#[derive(Drop)]
pub struct Pen {
    /// The column.
    pub column: usize,
    /// The register, once one is selected.
    pub register: Option<usize>,
}

impl Pen {
    /// Appends a graphics new line before each band but the first.
    pub fn begin_band(&mut self, text: &mut String, band: usize) -> Result<(), AllocError>
        ensures text { OnOk result
            (string_bytes text.new ≡ string_bytes text.old ++ marks_text (to_band band)) }
        ensures column { self.new.column ≡ 0 }
        ensures register { self.new.register ≡ self.old.register }
    {
        self.column = 0;
        if band == 0 {
            return Ok(());
        }
        text.push('-')
    }

    /// Appends a graphics carriage return, if the segment begins left of the pen.
    pub fn go_to(&mut self, text: &mut String, segment: &Segment) -> Result<(), AllocError>
        ensures text { OnOk result (string_bytes text.new
            ≡ string_bytes text.old ++ marks_text (to_segment self.old.column segment.now)) }
        ensures column { OnOk result
            (self.new.column ≡ start_column self.old.column segment.now) }
        ensures register { self.new.register ≡ self.old.register }
    {
        if self.column <= segment.first {
            return Ok(());
        }
        text.push('$')?;
        self.column = 0;
        Ok(())
    }

    /// Appends a color introducer, if another register is selected.
    pub fn select(&mut self, text: &mut String, register: usize) -> Result<(), AllocError>
        ensures text { OnOk result (string_bytes text.new
            ≡ string_bytes text.old ++ marks_text (to_register register self.old.register)) }
        ensures register { OnOk result (self.new.register ≡ Some register) }
        ensures column { self.new.column ≡ self.old.column }
    {
        if let Some(selected) = self.register {
            if register == selected {
                return Ok(());
            }
        }
        text.push('#')?;
        push_number(text, register)?;
        self.register = Some(register);
        Ok(())
    }
}

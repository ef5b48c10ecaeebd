//! What each closed command changes: position, extent, registers and canvas.

ghost use Rattle.std.specs.Prelude.{◌≡◌, ◌<◌, ◌≤◌, ◌+◌, ◌*◌, ◌∷◌, List, ℕ, true, false, [], max};
ghost use Rattle.std.specs.Prelude.{min, nat_lt, if◌then◌else◌, ◌&&◌, IfOk, OnOk, IfErr};
ghost use Rattle.std.specs.Prelude.{MatchResult};
ghost use Rattle.sixel_base.specs.{Clip.clipped_bits, Decoder.origin_of, DrawnHeight.drawn_height};
ghost use Rattle.sixel_base.specs.{Fault.is_fault, History.{History, Sixel, Repeat, Raster, Color}};
ghost use Rattle.sixel_base.specs.{History.{Return, Newline}, Limits.{Limit, area_limit}};
ghost use Rattle.sixel_base.specs.{Limits.{repeat_limit, side_limit}, Stroke.Origin};
ghost use Rattle.sixel_base.specs.declared.error.SixelError.TheVariants.{OutOfMemory};
ghost use Rattle.sixel_base.specs.inside.Parameters.{Keeps};
ghost use Rattle.sixel_canvas.specs.{Drawn.no_work, inside.Tags.is_tag};
ghost use Rattle.sixel_decoder.specs.{inside.Ready.IsReady, inside.Sizes.IsTooLarge};

mod ready;
mod sixels;

use crate::colors::{background, define, opaque};
use crate::decoded_payload::{DecodedPayload, fit_memory};
use crate::drawn_rows::DrawnRows;
use crate::raster::{check_size, last_side, shape};
use sixel_base::limits::MAX_REPEAT;
use sixel_base::parameters::Parameters;
use sixel_base::registers::Registers;
use sixel_base::settings::{DcsSettings, PixelAspectRatio};
use sixel_base::state::{DecoderState, PixelLimit};
use sixel_base::{Result, SixelError};
use sixel_canvas::band_canvas::BandCanvas;
use sixel_canvas::drawing::Canvas;
use std::alloc::Global;

/// A canvas, and where and in which color the next sixel is drawn on it.
#[derive(Drop)]
pub struct Painter<C: Canvas + Drop> {
    pub canvas: C,
    pub registers: Registers,
    pub settings: DcsSettings,
    pub raster_crop: bool,
    pub pixel_limit: PixelLimit,
    pub ratio: PixelAspectRatio,
    pub color: [u8; 4],
    /// How many columns the next sixel has.
    pub repeat: usize,
    /// The first of them.
    pub column: usize,
    pub width: usize,
    pub height: usize,
    /// The columns of the width that are inside the clip.
    pub clipped_width: usize,
    /// The rows of the height that are inside the clip.
    pub clipped_height: usize,
    /// The last width and the last height above 0 that raster attributes name, or 0.
    pub raster: (usize, usize),
    /// The rows down to the last one with a set pixel.
    pub drawn: DrawnRows,
    /// Left of this column, drawing the next sixel cannot fail. It is 0 until it is found.
    pub ready: usize,
    ghost visible: { is_tag color ≡ true },
    ghost repeat_some: { 0 < repeat },
    ghost repeat_fits: { repeat ≤ repeat_limit },
    ghost column_fits: { column ≤ side_limit },
    ghost width_fits: { width ≤ side_limit },
    ghost height_fits: { height ≤ side_limit },
    ghost raster_fits: { raster.1 ≤ height },
    ghost clipped_width_is: { clipped_width ≡ min width pixel_limit.columns },
    ghost clipped_height_is: { clipped_height ≡ min height pixel_limit.rows },
    ghost area_fits: { width * height ≤ pixel_limit.pixels },
    ghost limit_fits: { pixel_limit.pixels ≤ area_limit },
    ghost ready_is: { IsReady C.Canvas canvas repeat clipped_width clipped_height ready },
}

impl<C: Canvas + Drop> Painter<C> {
    ghost use Rattle.sixel_decoder.specs.inside.Painter.{Shows, Draws, Ends};
    ghost use Rattle.sixel_decoder.specs.inside.Painter.{IsDrawnInside, IsExtended};

    /// Creates a painter that has drawn nothing.
    pub fn new(alloc: Global, decoder: DecoderState, settings: DcsSettings) -> Painter<C>
        ensures shows { Shows (origin_of decoder settings) result [] }
        ensures work { C.work result.canvas ≡ no_work }
        ensures released { C.released result.canvas ≡ 0 }
    {
        let background = background(&decoder, settings);
        Painter {
            canvas: C::new(alloc, background),
            registers: decoder.registers,
            settings,
            raster_crop: decoder.raster_crop,
            pixel_limit: decoder.pixel_limit,
            ratio: settings.pixel_aspect_ratio(),
            color: opaque(decoder.registers.get(decoder.pixel_limit.first_register())),
            repeat: 1,
            column: 0,
            width: 1,
            height: 1,
            clipped_width: 1,
            clipped_height: 1,
            raster: (0, 0),
            drawn: DrawnRows::new(),
            ready: 0,
        }
    }

    /// Draws a sixel, and moves right by its columns.
    ///
    /// A sixel without a set pixel draws nothing, but extends the image as any other.
    #[inline(always)]
    fn draw(&mut self, bits: u8) -> Result<()>
        requires { bits < 64 }
        ensures draws { (o : Origin) (h : History) → Shows o self.old h
            → Draws result o self.new (Sixel bits ∷ h) true }
        ensures kept { IfErr result (λ error. is_fault error ≡ true → self.new ≡ self.old) }
        ensures released { OnOk result
            (C.released self.new.canvas ≡ C.released self.old.canvas) }
    {
        let from = self.column;
        let right = from + self.repeat;
        let bottom = self.canvas.top().saturating_add(6);
        match self.extend(right, bottom) {
            Ok(()) => {
                self.draw_inside(from, right, bits)?;
                self.column = right;
                self.repeat = 1;
                Ok(())
            }
            Err(error) => Err(error),
        }
    }

    /// Draws the part of a sixel that is inside the clip.
    #[inline(always)]
    fn draw_inside(&mut self, from: usize, right: usize, bits: u8) -> Result<()>
        requires some { from < right }
        requires within { right ≤ side_limit }
        requires above_bottom { C.top self.old.canvas + 6 ≤ side_limit }
        requires six { bits < 64 }
        ensures { MatchResult result (λ _. IsDrawnInside self.old self.new from right bits)
            (λ error. error ≡ OutOfMemory) }
    {
        let top = self.canvas.top();
        let columns = self.pixel_limit.columns();
        let rows = self.pixel_limit.rows();
        self.drawn.add(bits);
        if from < columns && top < rows {
            let bits = clipped_bits(bits, top, rows);
            self.ready = 0;
            self.canvas
                .draw(from, right.min(columns), bits, self.color)?;
        }
        Ok(())
    }

    /// Extends the image to at least this width and height, unless it is too large then.
    #[inline(always)]
    fn extend(&mut self, wide: usize, high: usize) -> Result<()>
        ensures extended { MatchResult result (λ _. IsExtended self.old self.new wide high)
            (λ error. IsTooLarge (max self.old.width wide) (max self.old.height high)
            self.old.pixel_limit error) }
        ensures kept { IfErr result (λ error. self.new ≡ self.old) }
    {
        if wide <= self.width && high <= self.height {
            return Ok(());
        }
        let width = self.width.max(wide);
        let height = self.height.max(high);
        match check_size(width, height, self.pixel_limit) {
            Ok(()) => {
                self.ready = 0;
                self.width = width;
                self.height = height;
                self.clipped_width = width.min(self.pixel_limit.columns());
                self.clipped_height = height.min(self.pixel_limit.rows());
                Ok(())
            }
            Err(error) => Err(error),
        }
    }

    /// Sets how many columns the next sixel has, where 0 means 1.
    ///
    /// Other commands do not change it.
    #[inline(never)]
    pub fn set_repeat(&mut self, parameters: &Parameters) -> Result<()>
        ensures draws { (o : Origin) (h : History) (text : List ℕ) → Keeps parameters.now text
            → Shows o self.old h → Draws result o self.new (Repeat text ∷ h) false }
        ensures kept { IfErr result (λ error. is_fault error ≡ true → self.new ≡ self.old) }
        ensures released { OnOk result
            (C.released self.new.canvas ≡ C.released self.old.canvas) }
    {
        let count = parameters.get(0);
        if count > MAX_REPEAT {
            return Err(SixelError::malformed());
        }
        self.ready = 0;
        self.repeat = count.max(1) as usize;
        Ok(())
    }

    /// Applies raster attributes: extent and pixel aspect ratio.
    ///
    /// The sizes are a least extent, and with crop the last height is that of the image.
    #[inline(never)]
    pub fn set_raster(&mut self, parameters: &Parameters) -> Result<()>
        ensures draws { (o : Origin) (h : History) (text : List ℕ) → Keeps parameters.now text
            → Shows o self.old h → Draws result o self.new (Raster text ∷ h) false }
        ensures kept { IfErr result (λ error. is_fault error ≡ true → self.new ≡ self.old) }
        ensures released { OnOk result
            (C.released self.new.canvas ≡ C.released self.old.canvas) }
    {
        let wide = parameters.get(2) as usize;
        let high = parameters.get(3) as usize;
        match self.extend(wide, high) {
            Ok(()) => {
                self.canvas.expect_width(self.clipped_width);
                self.raster = (
                    last_side(self.raster.0, wide),
                    last_side(self.raster.1, high),
                );
                self.ratio = shape(parameters, self.ratio, self.settings.pixel_aspect_ratio());
                Ok(())
            }
            Err(error) => Err(error),
        }
    }

    /// Selects a register, and defines it where there are five parameters that say how.
    #[inline(never)]
    pub fn select(&mut self, parameters: &Parameters)
        ensures shows { (o : Origin) (h : History) (text : List ℕ) → Keeps parameters.now text
            → Shows o self.old h → Shows o self.new (Color text ∷ h) }
        ensures ready { self.new.ready ≡ self.old.ready }
        ensures column { self.new.column ≡ self.old.column }
        ensures released { C.released self.new.canvas ≡ C.released self.old.canvas }
    {
        let register = parameters.get(0).min(255) as u8;
        define(&mut self.registers, register, parameters);
        self.color = opaque(self.registers.get(register));
    }

    /// Selects a register by fewer than five parameters, which define none.
    #[inline(always)]
    pub fn select_only(&mut self, parameters: &Parameters)
        requires few { parameters.now.count < 5 }
        ensures shows { (o : Origin) (h : History) (text : List ℕ) → Keeps parameters.now text
            → Shows o self.old h → Shows o self.new (Color text ∷ h) }
        ensures ready { self.new.ready ≡ self.old.ready }
        ensures column { self.new.column ≡ self.old.column }
        ensures released { C.released self.new.canvas ≡ C.released self.old.canvas }
    {
        let register = parameters.get(0).min(255) as u8;
        self.color = opaque(self.registers.get(register));
    }

    /// Moves to the first column.
    pub fn carriage_return(&mut self)
        ensures shows { (o : Origin) (h : History) → Shows o self.old h
            → Shows o self.new (Return ∷ h) }
        ensures released { C.released self.new.canvas ≡ C.released self.old.canvas }
    {
        self.column = 0;
    }

    /// Moves to the first column of the next band.
    #[tactic(auto, using(crate::proofs::drawing::ShownRows::shown_rows))]
    pub fn new_line(&mut self) -> Result<()>
        ensures draws { (o : Origin) (h : History) → Shows o self.old h
            → Draws result o self.new (Newline ∷ h) false }
        ensures kept { IfErr result (λ error. is_fault error ≡ true → self.new ≡ self.old) }
        ensures released { OnOk result
            (C.released self.new.canvas ≡ C.released self.old.canvas) }
    {
        let top = self.canvas.top();
        if top.checked_add(6).is_none() {
            return Err(SixelError::IntegerOverflow);
        }
        self.ready = 0;
        self.drawn.end_band(top);
        self.canvas.new_line();
        self.column = 0;
        Ok(())
    }

    /// Returns the last row with a set pixel, plus one, or 0 if there is none.
    ///
    /// It is at most the rows of the clip.
    #[tactic(auto, using(crate::proofs::drawing::ShownRows::shown_rows))]
    pub fn drawn_height(&self) -> usize
        ensures { (o : Origin) (h : History) → Shows o self.now h
            → result ≡ min (drawn_height h) o.pixel_limit.rows }
    {
        self.drawn
            .height(self.canvas.top())
            .min(self.pixel_limit.rows())
    }

    /// Takes the rows that are left off the canvas, and returns them with the registers.
    ///
    /// The number is how many commands were ignored.
    pub fn take_image(&mut self, ignored: u64) -> Result<DecodedPayload>
        ensures ends { (o : Origin) (h : History) → Shows o self.old h
            → Ends result o h ignored }
        ensures first { IfOk result (λ picture.
            picture.first_row ≡ min (C.released self.old.canvas) picture.height) }
    {
        let height = self.image_height();
        let first_row = self.canvas.released().min(height);
        let drawn_height = self.drawn_height().min(height);
        self.ready = 0;
        let picture = self.canvas.take_picture(self.clipped_width, height)?;
        let pixels = fit_memory(picture)?;
        Ok(DecodedPayload {
            pixels,
            width: self.clipped_width,
            height,
            first_row,
            drawn_height,
            raster_width: self.raster.0,
            raster_height: self.raster.1,
            ignored,
            aspect_ratio: self.ratio,
            background_mode: self.settings.background_mode(),
            registers: self.registers,
        })
    }

    /// Returns the height of the image inside the clip.
    ///
    /// With crop it is the last positive raster height.
    fn image_height(&self) -> usize
        ensures { result ≡ min (if self.now.raster_crop && nat_lt 0 self.now.raster.1
            then self.now.raster.1 else self.now.height) self.now.pixel_limit.rows }
    {
        if self.raster_crop && self.raster.1 > 0 {
            self.raster.1.min(self.pixel_limit.rows())
        } else {
            self.clipped_height
        }
    }
}

impl Painter<BandCanvas> {
    ghost use Rattle.sixel_decoder.specs.inside.Painter.{Shows};

    /// Releases the rows above row `rows`, which are final.
    pub fn release_rows(&mut self, rows: usize)
        requires above { rows ≤ self.old.canvas.top }
        ensures shows { (o : Origin) (h : History) → Shows o self.old h → Shows o self.new h }
        ensures released { self.new.canvas.released ≡ max self.old.canvas.released rows }
        ensures band { self.new.canvas.band ≡ self.old.canvas.band }
        ensures writes { self.new.canvas.rows.moved ≡ self.old.canvas.rows.moved }
    {
        self.ready = 0;
        self.canvas.release_rows(rows);
    }
}

/// Returns the bits of a sixel in rows that are inside the clip.
#[inline(always)]
fn clipped_bits(bits: u8, top: usize, rows: usize) -> u8
    requires six { bits < 64 }
    requires inside { top < rows }
    ensures value { (limit : Limit) → limit.rows ≡ rows → result ≡ clipped_bits limit top bits }
    ensures six { result < 64 }
{
    if rows - top >= 6 {
        bits
    } else {
        bits % (1 << (rows - top))
    }
}

//! How sixels at the front of a chunk are drawn, or ignored if the image is lenient.

ghost use Rattle.std.specs.Prelude.{◌≡◌, ◌<◌, ◌≤◌, ◌+◌, ◌∷◌, [], ℕ, length, IfOk, IsTrue, OnOk};
ghost use Rattle.std.specs.Prelude.{slice_index};
ghost use Rattle.sixel_base.specs.{History.{History, Repeat}, Stroke.Origin};
ghost use Rattle.sixel_decoder.specs.inside.{Lenient.{HasDrawn, ToleratesFront}, Runs.IsSixelByte};

use crate::front_sixels::FrontSixels;
use crate::painter::Painter;
use sixel_base::Result;
use sixel_canvas::drawing::Canvas;

impl<C: Canvas + Drop> Painter<C> {
    ghost use Rattle.sixel_decoder.specs.inside.Painter.{Shows};

    /// Draws or ignores sixels at the front of the bytes, one at least, and returns how many.
    ///
    /// Up to eight are drawn at once if they have one column each and lie inside the image and its
    /// clip.
    #[inline(always)]
    pub fn draw_sixels(&mut self, bytes: &[u8], ignored: &mut u64) -> Result<usize>
        requires some { 0 < length bytes.now }
        requires sixel { IsSixelByte (slice_index bytes.now 0) }
        ensures some { IfOk result (λ drawn. 0 < drawn) }
        ensures within { IfOk result (λ drawn. drawn ≤ length bytes.now) }
        ensures sixels { IfOk result (λ drawn. (k : ℕ) → k < drawn
            → IsSixelByte (slice_index bytes.now k)) }
        ensures tolerates { (o : Origin) (h : History) → HasDrawn o self.old ignored.old h
            → ToleratesFront result o self.new ignored.new h bytes.now }
        ensures released { OnOk result
            (C.released self.new.canvas ≡ C.released self.old.canvas) }
    {
        if bytes.len() >= 8
            && self.repeat == 1
            && self.clipped_height >= 6
            && self.canvas.top() <= self.clipped_height - 6
        {
            let front = FrontSixels::of(bytes);
            let len = front.len;
            if len > 0 && self.column + len <= self.clipped_width {
                self.ready = 0;
                self.canvas
                    .draw_eight(self.column, len, front.bits, self.color)?;
                self.drawn.add_eight(front.bits);
                self.column += len;
                return Ok(len);
            }
        }
        let lenient = self.pixel_limit.lenient();
        match self.draw(bytes[0] - 0x3f) {
            Ok(()) => {
                self.find_ready(bytes.len());
                Ok(1)
            }
            Err(error) => {
                if lenient && error.is_fault() {
                    self.drop_repeat();
                    *ignored = ignored.saturating_add(1);
                    Ok(1)
                } else {
                    Err(error)
                }
            }
        }
    }

    /// Gives the next sixel one column.
    #[cold]
    #[inline(never)]
    fn drop_repeat(&mut self)
        ensures shows { (o : Origin) (h : History) → Shows o self.old h
            → Shows o self.new (Repeat [] ∷ h) }
        ensures released { C.released self.new.canvas ≡ C.released self.old.canvas }
    {
        self.ready = 0;
        self.repeat = 1;
    }
}

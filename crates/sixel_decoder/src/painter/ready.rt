//! The columns in which drawing a sixel cannot fail.
//!
//! They are found near the end of a chunk, and lost as rows are released.

ghost use Rattle.std.specs.Prelude.{◌≡◌, ◌<◌, ◌∷◌};
ghost use Rattle.sixel_base.specs.{History.{History, Sixel}, Stroke.Origin};

use crate::painter::Painter;
use sixel_canvas::drawing::Canvas;

impl<C: Canvas + Drop> Painter<C> {
    ghost use Rattle.sixel_decoder.specs.inside.Painter.{Shows};

    /// Finds the columns in which drawing a sixel cannot fail, near the end of a chunk.
    ///
    /// If eight bytes or more are left, it finds none, because sixels are drawn eight at once.
    #[inline(always)]
    pub(super) fn find_ready(&mut self, left: usize)
        ensures shows { (o : Origin) (h : History) → Shows o self.old h → Shows o self.new h }
        ensures released { C.released self.new.canvas ≡ C.released self.old.canvas }
    {
        self.ready = if left < 8
            && self.repeat == 1
            && self.clipped_height >= 6
            && self.canvas.top() <= self.clipped_height - 6
        {
            self.clipped_width.min(self.canvas.held())
        } else {
            0
        };
    }

    /// Draws a sixel in such a column.
    #[inline(always)]
    pub fn draw_column(&mut self, bits: u8)
        requires ready { self.old.column < self.old.ready }
        requires six { bits < 64 }
        ensures shows { (o : Origin) (h : History) → Shows o self.old h
            → Shows o self.new (Sixel bits ∷ h) }
        ensures released { C.released self.new.canvas ≡ C.released self.old.canvas }
    {
        self.canvas.column(self.column, bits, self.color);
        self.drawn.add(bits);
        self.column += 1;
    }
}

//! The trait of everything that a SIXEL decoder draws on.
ghost use Rattle.std.specs.Prelude.{◌≡◌, ℕ, ◌+◌, ◌-◌, ◌*◌, ◌^◌, ◌≤◌, ◌<◌, List, [], ◌∷◌, length};
ghost use Rattle.std.specs.Prelude.{true, max, take, slice_index_or, IfOk, OnOk, if◌then◌else◌};
ghost use Rattle.sixel_base.specs.{Limits.{area_limit, side_limit}, Picture.{covers, picture}};
ghost use Rattle.sixel_canvas.specs.Drawn.{Run, run, with_sixels, covers_eight, Work, no_work};
ghost use Rattle.sixel_canvas.specs.inside.Tags.{is_tag};

use std::alloc::{AllocError, Global};

/// A canvas: a pixel for every column and row, and the band that is drawn on.
///
/// The band begins at the top, and goes down six rows at each graphics new line. Rows above it
/// are final. After an error the canvas can only be dropped.
pub trait Canvas {
    /// The pixel at a column and a row.
    ghost shown: { Self → ℕ → ℕ → List ℕ };

    /// The first row of the band.
    ghost top: { Self → ℕ };

    /// How many columns of the band can be drawn on without an allocation.
    ghost held: { Self → ℕ };

    /// How many rows from the top were released: the canvas does not store them any more.
    ghost released: { Self → ℕ };

    /// What it has cost: pixels written as it grew, capacity, and pixels painted.
    ghost work: { Self → Work };

    /// Its counts and its capacity are within its bounds for these runs, the newest first, where
    /// raster attributes name this width.
    ghost paid: { Self → ℕ → List Run → Type 0 };

    /// Returns a canvas that shows the background everywhere. It does not allocate.
    fn new(alloc: Global, background: [u8; 4]) -> Self
        ensures shown { (column row : ℕ) → shown result column row ≡ background }
        ensures top { top result ≡ 0 }
        ensures released { released result ≡ 0 }
        ensures work { work result ≡ no_work }
        ensures paid { paid result 0 [] };

    /// Returns the first row of the band.
    fn top(&self) -> usize
        ensures { result ≡ top self.now };

    /// Returns how many rows from the top were released.
    fn released(&self) -> usize
        ensures { result ≡ released self.now };

    /// Returns how many columns of the band can be drawn on without an allocation.
    fn held(&self) -> usize
        ensures { result ≡ held self.now };

    /// States a width that the picture has at least, as raster attributes do.
    ///
    /// It does not allocate.
    fn expect_width(&mut self, width: usize)
        ensures shown { (column row : ℕ) → shown self.new column row ≡ shown self.old column row }
        ensures top { top self.new ≡ top self.old }
        ensures held { held self.new ≡ held self.old }
        ensures released { released self.new ≡ released self.old }
        ensures paid { (named : ℕ) (runs : List Run) → paid self.old named runs
            → paid self.new (max named width) runs };

    /// Draws a sixel over the columns from `from` up to before `to` of the band.
    fn draw(&mut self, from: usize, to: usize, bits: u8, color: [u8; 4]) -> Result<(), AllocError>
        requires ordered { from < to }
        requires within { to ≤ side_limit }
        requires above_bottom { top self.old + 6 ≤ side_limit }
        requires six { bits < 64 }
        requires visible { is_tag color ≡ true }
        ensures drawn { OnOk result ((column row : ℕ) → shown self.new column row
            ≡ (if covers from to (top self.old) bits column row then color
            else shown self.old column row)) }
        ensures top { OnOk result (top self.new ≡ top self.old) }
        ensures released { OnOk result (released self.new ≡ released self.old) }
        ensures paid { OnOk result ((named : ℕ) (runs : List Run) → paid self.old named runs
            → paid self.new named (run from to (top self.old) bits ∷ runs)) };

    /// Draws a sixel of one column, for which there is memory.
    fn column(&mut self, at: usize, bits: u8, color: [u8; 4])
        requires held { at < held self.old }
        requires within { at < side_limit }
        requires above_bottom { top self.old + 6 ≤ side_limit }
        requires six { bits < 64 }
        requires visible { is_tag color ≡ true }
        ensures drawn { (column row : ℕ) → shown self.new column row
            ≡ (if covers at (at + 1) (top self.old) bits column row then color
            else shown self.old column row) }
        ensures top { top self.new ≡ top self.old }
        ensures held { held self.old ≤ held self.new }
        ensures released { released self.new ≡ released self.old }
        ensures paid { (named : ℕ) (runs : List Run) → paid self.old named runs
            → paid self.new named (run at (at + 1) (top self.old) bits ∷ runs) };

    /// Draws `len` sixels of one column each, from `from` on: the others of the eight are blank.
    fn draw_eight(
        &mut self,
        from: usize,
        len: usize,
        sixels: [u8; 8],
        color: [u8; 4],
    ) -> Result<(), AllocError>
        requires some { 0 < len }
        requires few { len ≤ 8 }
        requires within { from + len ≤ side_limit }
        requires above_bottom { top self.old + 6 ≤ side_limit }
        requires six { (j : ℕ) → slice_index_or sixels j 0 < 64 }
        requires visible { is_tag color ≡ true }
        requires blank { (j : ℕ) → len ≤ j → slice_index_or sixels j 0 ≡ 0 }
        ensures drawn { OnOk result ((column row : ℕ) → shown self.new column row
            ≡ (if covers_eight from sixels (top self.old) column row then color
            else shown self.old column row)) }
        ensures top { OnOk result (top self.new ≡ top self.old) }
        ensures released { OnOk result (released self.new ≡ released self.old) }
        ensures paid { OnOk result ((named : ℕ) (runs : List Run) → paid self.old named runs
            → paid self.new named (with_sixels from (take len sixels) (top self.old) runs)) }
    {
        'drawn: for j in 0..len {
            self.draw(from + j, from + j + 1, sixels[j], color)?;
        }
        Ok(())
    }

    /// Moves the band six rows down. It does not allocate.
    fn new_line(&mut self)
        requires { top self.old + 6 < 2 ^ 64 }
        ensures shown { (column row : ℕ) → shown self.new column row ≡ shown self.old column row }
        ensures top { top self.new ≡ top self.old + 6 }
        ensures released { released self.new ≡ released self.old }
        ensures paid { (named : ℕ) (runs : List Run) → paid self.old named runs
            → paid self.new named runs };

    /// Returns the bytes of the picture of this size, and leaves the canvas without it.
    ///
    /// Rows that were released are not among them.
    fn take_picture(&mut self, width: usize, height: usize) -> Result<Vec<u8>, AllocError>
        requires narrow { width ≤ side_limit }
        requires few { height ≤ side_limit }
        requires small { width * height ≤ area_limit }
        ensures ok { IfOk result (λ bytes. bytes.items
            ≡ picture (λ column row. shown self.old column (released self.old + row)) width
            (height - released self.old)) }
        ensures len { IfOk result (λ bytes.
            length bytes.items ≡ 4 * (width * (height - released self.old))) };
}

//! A tag: the one color that a tile of a row shows, whatever is stored there.
ghost use Rattle.std.specs.Prelude.{◌≡◌};
ghost use Rattle.sixel_canvas.specs.inside.Tags.{is_tag};

/// The columns of a tile, which have one tag in each row.
pub const TILE: usize = 128;

/// The shortest run, in columns, that may be tagged.
pub const WIDE: usize = 256;

/// The color of a tile that has no tag.
pub const NO_TAG: [u8; 4] = [0; 4];

/// Whether a color is visible, as that of a tag is.
pub fn is_visible(color: [u8; 4]) -> bool
    ensures { result ≡ is_tag color }
{
    color[3] > 0
}

//! Squared distances of colors: sums of the squared differences of their channels.

ghost use Rattle.std.specs.{Int.abs_diff, Prelude.{◌≡◌, ◌*◌, ◌<◌, ◌≤◌}};
ghost use Rattle.sixel_palette.specs.Palette.{distance, no_entry};
ghost use Rattle.sixel_palette.specs.inside.Codes.{color_of, code_count};

/// The squared distance of two colors.
#[tactic(auto, unfolding(crate::specs::Palette::distance, crate::specs::Palette::square_gap))]
pub fn distance(a: [u8; 3], b: [u8; 3]) -> u32
    ensures value { result ≡ distance a b }
    ensures small { result < no_entry }
{
    let red = wrapped_gap(u32::from(a[0]), u32::from(b[0]));
    let green = wrapped_gap(u32::from(a[1]), u32::from(b[1]));
    let blue = wrapped_gap(u32::from(a[2]), u32::from(b[2]));
    red + green + blue
}

/// The squared distance of a code's color to another one, without a branch.
#[inline(always)]
pub fn distance_to(code: u32, color: [u8; 3]) -> u32
    requires { code < code_count }
    ensures value { result ≡ distance color (color_of code) }
    ensures small { result < no_entry }
{
    let red = wrapped_gap(u32::from(color[0]), code / 65536);
    let green = wrapped_gap(u32::from(color[1]), code / 256 % 256);
    let blue = wrapped_gap(u32::from(color[2]), code % 256);
    red + green + blue
}

/// The square of the difference of two channels, by arithmetic that wraps.
#[inline(always)]
pub fn wrapped_gap(a: u32, b: u32) -> u32
    requires first { a < 256 }
    requires second { b < 256 }
    ensures value { result ≡ abs_diff a b * abs_diff a b }
    ensures small { result ≤ 65025 }
{
    let gap = b.wrapping_sub(a);
    gap.wrapping_mul(gap)
}

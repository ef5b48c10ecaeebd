//! Sums over pixels: how many there are, and the sum of each channel.

ghost use Rattle.std.specs.Prelude.{◌≡◌, ◌+◌, ◌*◌, ◌/◌, ◌<◌, ◌≤◌, ℕ};
ghost use Rattle.sixel_base.specs.Limits.{area_limit};
ghost use Rattle.sixel_palette.specs.{ColorSums.{share, mean_or, mean_percent}, GainCut.fine_mean};
ghost use Rattle.sixel_palette.specs.{GainCut.{gain, mean_gap}, Lloyd.mean_bytes};
ghost use Rattle.sixel_palette.specs.{Refined.IsRegisterColor, inside.Codes.{code_count, color_of}};

use crate::palette::colors::code_of;
use crate::palette::register_color::percent_color;

/// The number of some pixels and the sums of their channels.
#[derive(Clone, Copy)]
pub struct ColorSums {
    pub count: u64,
    pub red: u64,
    pub green: u64,
    pub blue: u64,
    ghost small: { count ≤ area_limit },
    ghost reds: { red ≤ 255 * count },
    ghost greens: { green ≤ 255 * count },
    ghost blues: { blue ≤ 255 * count },
}

impl ColorSums {
    ghost use Rattle.sixel_palette.specs.inside.Sums.{total};

    /// The sums of no pixel.
    pub fn none() -> ColorSums
        ensures count { result.count ≡ 0 }
        ensures sums { (k : ℕ) → total result k ≡ 0 }
    {
        ColorSums {
            count: 0,
            red: 0,
            green: 0,
            blue: 0,
        }
    }

    /// The sums of `count` pixels of one color.
    pub fn of(color: [u8; 3], count: u32) -> ColorSums
        requires { count ≤ area_limit }
        ensures count { result.count ≡ count }
        ensures sums { (k : ℕ) → total result k ≡ count * share k color }
    {
        let count = u64::from(count);
        ColorSums {
            count,
            red: count * u64::from(color[0]),
            green: count * u64::from(color[1]),
            blue: count * u64::from(color[2]),
        }
    }

    /// The sums of these pixels and of others.
    #[inline(always)]
    pub fn plus(self, more: ColorSums) -> ColorSums
        requires { self.count + more.count ≤ area_limit }
        ensures count { result.count ≡ self.count + more.count }
        ensures sums { (k : ℕ) → total result k ≡ total self k + total more k }
    {
        ColorSums {
            count: self.count + more.count,
            red: self.red + more.red,
            green: self.green + more.green,
            blue: self.blue + more.blue,
        }
    }

    /// The code of the mean color, rounded down, or 0 if there is no pixel.
    #[tactic(auto, unfolding(crate::specs::Lloyd::mean_bytes))]
    pub fn mean_code(self) -> u32
        ensures small { result < code_count }
        ensures mean { color_of result ≡ mean_bytes (total self) }
    {
        let count = self.count.max(1);
        code_of([
            (self.red / count) as u8,
            (self.green / count) as u8,
            (self.blue / count) as u8,
        ])
    }

    /// The register color next to the mean, or `color` if there is no pixel.
    pub fn mean_or(self, color: [u8; 3]) -> [u8; 3]
        requires { IsRegisterColor color }
        ensures shown { IsRegisterColor result }
        ensures mean { result ≡ mean_or (total self) color }
    {
        if self.count == 0 {
            return color;
        }
        percent_color(
            mean_percent(self.red, self.count),
            mean_percent(self.green, self.count),
            mean_percent(self.blue, self.count),
        )
    }

    /// How much the summed squared error falls if `other` gets an entry of its own.
    ///
    /// Green counts twice, because eyes tell it apart best. It is in units of 1/16, and rounded
    /// down: a guide.
    #[tactic(auto, unfolding(crate::specs::GainCut::gain))]
    pub fn gain(self, other: ColorSums) -> u64
        ensures { result ≡ gain (total self) (total other) }
    {
        if self.count == 0 || other.count == 0 {
            return 0;
        }
        let weight = 16 * self.count * other.count / (self.count + other.count);
        let red = mean_gap(self.red, self.count, other.red, other.count);
        let green = mean_gap(self.green, self.count, other.green, other.count);
        let blue = mean_gap(self.blue, self.count, other.blue, other.count);
        scaled(red + 2 * green + blue, weight)
    }
}

/// The percentage next to a mean.
fn mean_percent(sum: u64, count: u64) -> u64
    requires some { 0 < count }
    requires small { count ≤ area_limit }
    requires mean { sum ≤ 255 * count }
    ensures value { result ≡ mean_percent sum count }
    ensures small { result ≤ 100 }
{
    (200 * sum + 255 * count) / (510 * count)
}

/// The squared difference of two means, in units of 1/65536.
fn mean_gap(sum: u64, count: u64, other_sum: u64, other_count: u64) -> u64
    requires some { 0 < count }
    requires small { count ≤ area_limit }
    requires mean { sum ≤ 255 * count }
    requires other_some { 0 < other_count }
    requires other_small { other_count ≤ area_limit }
    requires other_mean { other_sum ≤ 255 * other_count }
    ensures value { result ≡ mean_gap sum count other_sum other_count }
    ensures small { result ≤ 4261478400 }
{
    let gap = fine_mean(sum, count).abs_diff(fine_mean(other_sum, other_count));
    gap * gap
}

/// A mean in units of 1/256.
fn fine_mean(sum: u64, count: u64) -> u64
    requires some { 0 < count }
    requires small { count ≤ area_limit }
    requires mean { sum ≤ 255 * count }
    ensures value { result ≡ fine_mean sum count }
    ensures small { result ≤ 65280 }
{
    256 * sum / count
}

/// A squared distance in units of 1/65536 times a weight.
fn scaled(distance: u64, weight: u64) -> u64
    requires distance { distance ≤ 17045913600 }
    requires weight { weight ≤ 1073741824 }
    ensures { result ≡ distance * weight / 65536 }
{
    distance * weight / 65536
}

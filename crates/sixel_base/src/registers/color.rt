//! Colors as three bytes: from a code, by percentages, and by hue.

ghost use Rattle.std.specs.Prelude.{◌≡◌, ◌+◌, ◌*◌, ◌/◌, ◌%◌, ◌<◌, ◌≤◌, drop};
ghost use Rattle.std.specs.Int.{to_be_bytes, w32};
ghost use Rattle.sixel_base.specs.Color as spec;

/// The color of a code `0xrrggbb`.
pub fn from_code(code: u32) -> [u8; 3]
    ensures { result ≡ drop 1 (to_be_bytes w32 code) }
{
    let [_, red, green, blue] = code.to_be_bytes();
    [red, green, blue]
}

/// The color of three percentages, each taken as 100 if it is more.
pub fn rgb(red: u32, green: u32, blue: u32) -> [u8; 3]
    ensures { result ≡ spec.rgb red green blue }
{
    [byte_of(red), byte_of(green), byte_of(blue)]
}

// A percentage of 255, rounded half up.
fn byte_of(percent: u32) -> u8
    ensures { result ≡ spec.byte_of percent }
{
    ((percent.min(100) * 255 + 50) / 100) as u8
}

/// The color of a hue in degrees, a lightness and a saturation in percent.
///
/// Blue is at 0 degrees. A percentage above 100 counts as 100. Without saturation it is a gray.
pub fn hls(hue: u32, lightness: u32, saturation: u32) -> [u8; 3]
    ensures { result ≡ spec.hls hue lightness saturation }
{
    if saturation == 0 {
        return rgb(lightness, lightness, lightness);
    }
    let ends = ends_of(lightness.min(100), saturation.min(100));
    let turned = (hue % 360 + 240) % 360;
    [
        channel(ends, turned + 120),
        channel(ends, turned),
        channel(ends, turned + 240),
    ]
}

// The ends between which each channel of a color lies, in ten-thousandths.
#[derive(Clone, Copy)]
struct Ends {
    low: u32,
    high: u32,
    ghost ordered: { low ≤ high },
    ghost limited: { high ≤ 10000 },
}

fn ends_of(lightness: u32, saturation: u32) -> Ends
    requires light { lightness ≤ 100 }
    requires saturated { saturation ≤ 100 }
    ensures low { result.low ≡ spec.low_end lightness saturation }
    ensures high { result.high ≡ spec.high_end lightness saturation }
{
    let high = high_end(lightness, saturation);
    Ends {
        low: 200 * lightness - high,
        high,
    }
}

fn high_end(lightness: u32, saturation: u32) -> u32
    requires light { lightness ≤ 100 }
    requires saturated { saturation ≤ 100 }
    ensures value { result ≡ spec.high_end lightness saturation }
    ensures above_middle { 100 * lightness ≤ result }
    ensures below_twice { result ≤ 200 * lightness }
    ensures limit { result ≤ 10000 }
{
    if lightness < 50 {
        lightness * (100 + saturation)
    } else {
        100 * lightness + 100 * saturation - lightness * saturation
    }
}

// A channel as a byte, at an angle in degrees.
fn channel(ends: Ends, angle: u32) -> u8
    ensures { result ≡ (255 * spec.channel_at ends.low ends.high (angle % 360) + 300000) / 600000 }
{
    ((255 * channel_at(ends, angle % 360) + 300_000) / 600_000) as u8
}

// Where a channel lies at an angle, in six-hundred-thousandths.
fn channel_at(ends: Ends, angle: u32) -> u32
    requires { angle < 360 }
    ensures value { result ≡ spec.channel_at ends.low ends.high angle }
    ensures limit { result ≤ 600000 }
{
    let span = ends.high - ends.low;
    match angle {
        0..60 => 60 * ends.low + span * angle,
        60..180 => 60 * ends.high,
        180..240 => 60 * ends.low + span * (240 - angle),
        _ => 60 * ends.low,
    }
}

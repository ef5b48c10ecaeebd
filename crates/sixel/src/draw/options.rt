//! The arguments of `draw`: options, each with its value, and then the names of files.

ghost use Rattle.std.specs.Prelude.{◌≡◌, Err, None, Ok, if◌then◌else◌};
ghost use Rattle.sixel.specs.Options.{Strength, counted, default_options, dither_with, is_strong};
ghost use Rattle.sixel.specs.Options.{kind_of, mapping_of, max_strength, of_file, stated_by};
ghost use Rattle.sixel.specs.Options.{standard_strength, told, with_option};
ghost use Rattle.sixel.specs.Words.{drawing_told, words_of};

use crate::draw::option_fault::OptionFault;
use crate::number::number_within;
use icy_sixel::encoder::{Amplitude, Dither, Mapping, Tolerance};

/// How `draw` encodes an image.
#[derive(Clone, Copy)]
pub struct DrawOptions {
    /// Where the palette comes from.
    pub palette: DrawPalette,
    /// How colors between those of the palette are shown.
    pub kind: DitherKind,
    /// The strength of the diffusion or the amplitude of the pattern, if an option states it.
    pub strength: Option<u8>,
    /// How far a pixel's entry may be from the nearest one.
    pub tolerance: Tolerance,
}

/// Where the palette of an image comes from.
#[derive(Clone, Copy)]
pub enum DrawPalette {
    /// No option states it: it is refined for the image, whose size bounds the colors.
    Standard,
    /// It is refined for the image, of at most this number of colors.
    Refined(u16),
    /// It is read from the palette file.
    File,
}

/// How colors between those of the palette are shown.
#[derive(Clone, Copy)]
pub enum DitherKind {
    /// They are not.
    Off,
    /// By error diffusion.
    Diffusion,
    /// By a fixed pattern.
    Ordered,
}

/// What the arguments after `draw` state.
#[derive(Clone, Copy)]
pub struct Drawing<'a> {
    pub options: DrawOptions,
    /// The value of the last `-p`, the path of the palette file.
    pub path: Option<&'a str>,
    /// The names of files.
    pub files: &'a [String],
}

/// Reads the arguments after `draw`: options, each with its value, and then names of files.
///
/// The first argument in the place of an option that does not begin with `-` is the name of a file,
/// and so are all after it.
pub fn read_drawing(words: &[String]) -> Result<Drawing<'_>, OptionFault<'_>>
    ensures { drawing_told result ≡ stated_by default_options None (words_of words.now) }
{
    let mut options = DrawOptions::standard();
    let mut path = None;
    let mut rest = words;
    'options: while let [name, value, after @ ..] = rest {
        if !name.starts_with('-') {
            break;
        }
        options = options.with(name, value)?;
        if name.as_str() == "-p" {
            path = Some(value.as_str());
        }
        rest = after;
    }
    match rest {
        [name] if name.starts_with('-') => Err(OptionFault::of_last(name)),
        files => Ok(Drawing {
            options: options.validated()?,
            path,
            files,
        }),
    }
}

impl DrawOptions {
    /// The options without an argument.
    fn standard() -> Self
        ensures { result ≡ default_options }
    {
        Self {
            palette: DrawPalette::Standard,
            kind: DitherKind::Diffusion,
            strength: None,
            tolerance: Tolerance::Auto,
        }
    }

    /// How pixels get their palette entries.
    pub fn mapping(self) -> Mapping
        ensures { result ≡ mapping_of self }
    {
        Mapping {
            dither: self.dither(),
            tolerance: self.tolerance,
        }
    }

    /// Which color a pixel's entry is chosen for.
    fn dither(self) -> Dither
        ensures { result ≡ dither_with self.palette self.strength self.kind }
    {
        match self.kind {
            DitherKind::Off => Dither::Off,
            DitherKind::Diffusion => Dither::Diffusion {
                strength: self.strength.unwrap_or(self.palette.strength()),
            },
            DitherKind::Ordered => Dither::Ordered {
                amplitude: match self.strength {
                    Some(levels) => Amplitude::Levels(levels),
                    None => Amplitude::Auto,
                },
            },
        }
    }

    /// The options with that of this name changed.
    fn with<'a>(self, name: &'a str, value: &'a str) -> Result<Self, OptionFault<'a>>
        ensures { told result ≡ with_option self name.now value.now }
    {
        match name {
            "-c" => Ok(Self {
                palette: self.palette.refined(value)?,
                ..self
            }),
            "-p" => Ok(Self {
                palette: self.palette.of_file()?,
                ..self
            }),
            "-d" => Ok(Self {
                kind: read_kind(value)?,
                ..self
            }),
            "-s" => match number_within(value, 1, 255) {
                Some(strength) => Ok(Self {
                    strength: Some(strength as u8),
                    ..self
                }),
                None => Err(OptionFault::Strength),
            },
            "-t" => match number_within(value, 0, MAX_DISTANCE) {
                Some(distance) => Ok(Self {
                    tolerance: Tolerance::Squared(distance as u32),
                    ..self
                }),
                None => Err(OptionFault::Tolerance(value)),
            },
            _ => Err(OptionFault::Unknown(name)),
        }
    }

    /// These options, unless their strength is none of their kind of dithering.
    fn validated<'a>(self) -> Result<Self, OptionFault<'a>>
        ensures { told result
            ≡ (if is_strong self self.strength then Err Strength else Ok self) }
    {
        match self.strength {
            Some(strength) if strength > self.kind.max_strength() => Err(OptionFault::Strength),
            _ => Ok(self),
        }
    }
}

impl DrawPalette {
    /// The refined palette that a value of `-c` states, which contradicts `-p`.
    fn refined(self, value: &str) -> Result<Self, OptionFault<'_>>
        ensures { told result ≡ counted self value.now }
    {
        match (self, number_within(value, 0, 65535)) {
            (Self::File, _) => Err(OptionFault::Palettes),
            (_, Some(max_colors)) => Ok(Self::Refined(max_colors as u16)),
            (_, None) => Err(OptionFault::Colors(value)),
        }
    }

    /// The palette of a file, which contradicts `-c`.
    fn of_file<'a>(self) -> Result<Self, OptionFault<'a>>
        ensures { told result ≡ of_file self }
    {
        match self {
            Self::Standard | Self::File => Ok(Self::File),
            Self::Refined(_) => Err(OptionFault::Palettes),
        }
    }

    /// The eighths of an error that are passed on if no option states them.
    fn strength(self) -> u8
        ensures { result ≡ standard_strength self }
    {
        match self {
            Self::Standard | Self::Refined(_) => 7,
            Self::File => 8,
        }
    }
}

impl DitherKind {
    /// The greatest value of `-s` for it.
    fn max_strength(self) -> u8
        ensures { result ≡ max_strength self }
    {
        match self {
            Self::Off => 0,
            Self::Diffusion => 8,
            Self::Ordered => 255,
        }
    }
}

/// The kind of dithering of this name.
fn read_kind(name: &str) -> Result<DitherKind, OptionFault<'_>>
    ensures { told result ≡ kind_of name.now }
{
    match name {
        "none" => Ok(DitherKind::Off),
        "diffusion" => Ok(DitherKind::Diffusion),
        "ordered" => Ok(DitherKind::Ordered),
        _ => Err(OptionFault::Dither(name)),
    }
}

/// The squared distance of black and white.
const MAX_DISTANCE: usize = 3 * 255 * 255;

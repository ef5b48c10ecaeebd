//! What is wrong with an option of `draw`.

ghost use Rattle.std.specs.Prelude.{◌≡◌};
ghost use Rattle.sixel.specs.Options.{last_wrong, wrong_of};

use thiserror::Error;

/// Why the arguments of `draw` ask for no work.
#[derive(Clone, Copy, Debug, Drop, Error)]
pub enum OptionFault<'a> {
    /// There is no option of this name.
    #[error("{0}: unknown option")]
    Unknown(&'a str),
    /// The option of this name is the last argument, without a value.
    #[error("{0}: a value is missing")]
    NoValue(&'a str),
    /// The value of `-c` is not a number below 65536.
    #[error("{0}: not a number of colors")]
    Colors(&'a str),
    /// The value of `-d` is not a kind of dithering.
    #[error("{0}: not none, ordered or diffusion")]
    Dither(&'a str),
    /// The value of `-s` is none of this kind of dithering.
    #[error("-s: not 1 to 8 for diffusion or 1 to 255 for ordered")]
    Strength,
    /// The value of `-t` is not a squared distance of two colors.
    #[error("{0}: not a squared distance of at most 195075")]
    Tolerance(&'a str),
    /// `-c` and `-p` are both there.
    #[error("-c and -p contradict each other")]
    Palettes,
}

impl<'a> OptionFault<'a> {
    /// The fault of a last argument in an option's place, which has no value.
    pub fn of_last(name: &'a str) -> Self
        ensures { wrong_of result ≡ last_wrong name.now }
    {
        match name {
            "-c" | "-p" | "-d" | "-s" | "-t" => Self::NoValue(name),
            _ => Self::Unknown(name),
        }
    }
}

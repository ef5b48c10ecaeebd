//! Texts about the program itself, which need no input.

ghost use Rattle.std.specs.Prelude.{◌≡◌, IfSome, IfNone, ◌∷◌, []};
ghost use Rattle.sixel.specs.declared.notice.Notice.TheVariants.{Help, Version};
ghost use Rattle.sixel.specs.declared.notice.TheConstants.{HELP, VERSION};
ghost use Rattle.sixel.specs.Words.{IsNoticeFor, words_of};

/// A text about the program.
#[derive(Clone, Copy)]
pub enum Notice {
    /// What the program does, by its arguments.
    Help,
    /// Its name and its version.
    Version,
}

impl Notice {
    /// The notice that the arguments after the program's own name ask for, if they do.
    pub fn read(arguments: &[String]) -> Option<Self>
        ensures asked { IfSome result (IsNoticeFor (words_of arguments.now)) }
        ensures other { IfNone result ((notice : Notice)
            → ¬ IsNoticeFor (words_of arguments.now) notice) }
    {
        match arguments {
            [argument] => Self::named(argument),
            _ => None,
        }
    }

    /// The notice that one argument asks for.
    fn named(argument: &str) -> Option<Self>
        ensures asked { IfSome result (IsNoticeFor (argument.now ∷ [])) }
        ensures other { IfNone result ((notice : Notice)
            → ¬ IsNoticeFor (argument.now ∷ []) notice) }
    {
        match argument {
            "--help" => Some(Self::Help),
            "--version" => Some(Self::Version),
            _ => None,
        }
    }

    /// The text, which ends with a line end.
    pub fn text(self) -> &'static str
        ensures help { self ≡ Help → result.now ≡ HELP.now }
        ensures version { self ≡ Version → result.now ≡ VERSION.now }
    {
        match self {
            Self::Help => HELP,
            Self::Version => VERSION,
        }
    }
}

/// The text of [`Notice::Version`].
const VERSION: &str = "sixel 0.7.0\n";

/// The text of [`Notice::Help`].
const HELP: &str = "\
usage: sixel payload | decode | pam | frames N | encode W H K
       sixel draw [OPTION VALUE ..] [FILE ..]

  payload       decode a payload, the data of a DCS sequence after its q
  decode        decode the first DCS sequence, or all bytes as a payload
  pam           the same, and write a PAM file
  frames N      decode DCS sequences one after another, in chunks of N bytes
  encode W H K  encode raw RGBA of W x H pixels in at most K colors
  draw          encode PAM, PPM or PGM files, each in a palette of its own
    -c COLORS     of at most COLORS colors; by default pixels / 16, from 16 to 256
    -p FILE       in the palette of the pixels of a PAM, PPM or PGM file
    -d DITHER     none, ordered or diffusion; diffusion by default
    -s STRENGTH   of diffusion 1 to 8, by default 7, with -p 8; of ordered 1 to 255
    -t TOLERANCE  squared distance for keeping a neighbor's entry, 0 to 195075

Reads standard input, or the files, and writes standard output. sixel(1) has the details.
";

//! The two forms of SIXEL output.

/// Which SIXEL output of an image is returned.
///
/// A decoder returns the same image from both.
#[derive(Debug, Clone, Copy, PartialEq, Eq)]
pub enum TextForm {
    /// Each palette entry of a band has a pass of its own, to the right edge.
    Plain,
    /// The same pixels in fewer bytes, or the plain output if that is shorter.
    Compact,
}

//! The law that the bytes of a payload divide into tokens in one way.

ghost use Rattle.std.specs.Prelude.{◌≡◌, ℕ, List};
ghost use Rattle.sixel_base.specs.{Bytes.front, History.{History, IsHistory, history_of}};

/// States that a payload has exactly one history of sixels and commands.
///
/// It is the one that reading its front byte by byte gives. The front are the bytes before the
/// first terminator without the ignored controls.
pub fn one_history()
    ensures some { (bytes : List ℕ) → IsHistory (front bytes) (history_of (front bytes)) }
    ensures only { (bytes : List ℕ) (g h : History) → IsHistory bytes g → IsHistory bytes h
        → g ≡ h }
{}

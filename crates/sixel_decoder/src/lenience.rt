//! Commands whose faults are ignored if the image is lenient.

ghost use Rattle.std.specs.Prelude.{◌≡◌};
ghost use Rattle.sixel_decoder.specs.inside.Lenient.{tolerated_count, tolerated_result};

use sixel_base::Result;

/// Returns the result of a command, whose fault may be ignored and is counted then.
#[inline(always)]
pub fn tolerate(lenient: bool, outcome: Result<()>, ignored: &mut u64) -> Result<()>
    ensures result { result ≡ tolerated_result lenient outcome }
    ensures count { ignored.new ≡ tolerated_count lenient outcome ignored.old }
{
    match outcome {
        Ok(()) => Ok(()),
        Err(error) => {
            if lenient && error.is_fault() {
                *ignored = ignored.saturating_add(1);
                Ok(())
            } else {
                Err(error)
            }
        }
    }
}

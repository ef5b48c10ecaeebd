//! The call that returns the version of the library.

ghost use Rattle.std.specs.Prelude.{◌≡◌};
ghost use Rattle.icysixel.specs.Version.{version_number};

/// Returns the version, 0.7.0, as one number.
///
/// It is 65536 times the major number, 256 times the minor one, and the patch.
#[unsafe(no_mangle)]
pub extern "C" fn icysixel_version() -> u32
    ensures { result ≡ version_number 0 7 0 }
{
    0x00_07_00
}

//! The version.
ghost use Rattle.std.specs.Prelude.{◌≡◌};
ghost use Rattle.fax_c.specs.Texts as Spec;

use crate::caller_text::put_text;

/// The version as a number: ten thousand times the first part, a hundred times the second, and the
/// third.
#[unsafe(no_mangle)]
pub extern "C" fn faxpages_version() -> u32
    ensures { result ≡ Spec.version_number }
{
    11_500
}

/// Writes the version where it has room, and returns how many bytes it has.
#[unsafe(no_mangle)]
pub extern "C" fn faxpages_version_text(text: &mut [u8]) -> usize
    ensures { Spec.IsTextPut Spec.version text.old result text.new }
{
    put_text(b"1.15.0", text)
}

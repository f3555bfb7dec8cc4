//! Texts in memory of the caller.
ghost use Rattle.std.specs.Prelude.{◌≡◌, length};
ghost use Rattle.fax_c.specs.Texts as Spec;

/// Writes a text where it has room, and returns how many bytes it has.
pub(crate) fn put_text(text: &[u8], out: &mut [u8]) -> usize
    ensures { Spec.IsTextPut text.now out.old result out.new }
{
    if text.len() <= out.len() {
        out[..text.len()].copy_from_slice(text);
    }
    text.len()
}

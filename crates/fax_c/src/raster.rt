//! Rasters: rows of packed bytes, each so many bytes after the one above it.
ghost use Rattle.std.specs.Prelude.{◌≡◌, ◌<◌, ◌-◌, ◌≤◌, ◌++◌, false, length, take, drop, true};
ghost use Rattle.std.specs.Prelude.{◌+◌, replicate, Some};
ghost use Rattle.fax_rows.specs.Coded as Coded;
ghost use Rattle.fax_c.specs.Raster as Spec;
ghost use Rattle.fax_c.specs.code.CallSteps as Code;

use fax_rows::Row;

/// How many bytes a row of so many pels has.
pub(crate) fn packed_len(width: u32) -> usize
    ensures { result ≡ Coded.packed_len width }
{
    (width as usize + 7) / 8
}

/// Makes all bytes zeros.
fn clear(bytes: &mut [u8])
    ensures { bytes.new ≡ replicate (length bytes.old) 0 }
{
    for i in 0..bytes.len() {
        bytes[i] = 0;
    }
}

/// Writes zeros from a place to another.
pub(crate) fn put_zeros_to(out: &mut [u8], at: usize, to: usize)
    requires order { at ≤ to }
    requires within { to ≤ length out.old }
    ensures { out.new ≡ take at out.old ++ replicate (to - at) 0 ++ drop to out.old }
{
    clear(&mut out[at..to]);
}

/// Writes a row's bytes at a place that has room for them, and returns where they end.
#[tactic(auto, using(crate::proofs::PackedLenLemmas::has_packed_len))]
pub(crate) fn put_packed(row: &Row, out: &mut [u8], at: usize) -> usize
    requires { at + Coded.packed_len (length row.now) ≤ length out.old }
    ensures { Code.IsPutAt (Coded.packed_row row.now) out.old at (Some result) out.new }
{
    let to = at + packed_len(row.width());
    row.to_packed(&mut out[at..to]);
    to
}

/// Writes a row's bytes at a place, and zeros after them up to the stride, which have room there,
/// and returns where they end.
pub(crate) fn put_in_stride(row: &Row, stride: usize, out: &mut [u8], at: usize) -> usize
    requires short { Coded.packed_len (length row.now) ≤ stride }
    requires room { at + stride ≤ length out.old }
    ensures { Code.IsPutAt (Spec.padded_row stride row.now) out.old at (Some result) out.new }
{
    let end = put_packed(row, out, at);
    let to = at + stride;
    put_zeros_to(out, end, to);
    to
}

/// Writes a row's bytes at a place, and zeros after them up to the stride, where they have room,
/// and returns where they end.
pub(crate) fn put_padded(row: &Row, stride: usize, out: &mut [u8], at: usize) -> Option<usize>
    requires { at ≤ length out.old }
    ensures { Code.IsPutAt (Spec.padded_row stride row.now) out.old at result out.new }
{
    let size = packed_len(row.width()).max(stride);
    if out.len() - at < size {
        return None;
    }
    Some(put_in_stride(row, size, out, at))
}

/// Whether so many bytes hold a raster of so many rows.
pub(crate) fn holds_raster(len: usize, width: u32, rows: u32, stride: usize) -> bool
    requires { 0 < rows }
    ensures some { result ≡ true → Spec.HoldsRaster len width rows stride }
    ensures none { result ≡ false → Spec.HoldsRaster len width rows stride → ⊥ }
{
    let Some(last) = (rows as usize - 1).checked_mul(stride) else {
        return false;
    };
    let Some(end) = last.checked_add(packed_len(width)) else {
        return false;
    };
    end <= len
}

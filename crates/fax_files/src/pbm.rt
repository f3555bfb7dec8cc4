//! Raw PBM, one image after another (the netpbm format, P4): read as slices of the input, and
//! written.

ghost use Rattle.std.specs.Prelude.{◌≡◌, ℕ, ◌*◌, ◌<◌, ◌++◌, List, length};
ghost use Rattle.std.specs.Prelude.{true, false, Some, None, IsTrue, IfOk, IfErr, OnOk, OnErr};
ghost use Rattle.std.specs.Prelude.{IfSome};
ghost use Rattle.std.specs.Option.{IfNone};
ghost use Rattle.fax_files.specs.Pbm as Pbm;
ghost use Rattle.fax_files.specs.code.Pbm as Spec;
ghost use Rattle.fax_files.specs.views.Pbm as View;
ghost use Rattle.fax_rows.specs.Coded as Packed;

use fax_bits::Memory;
use fax_rows::Row;
use itoa::Buffer;
use std::marker::Model;
use thiserror::Error;

/// A number above each limit, which stands for all larger ones.
const ABOVE_LIMITS: u32 = 1_000_001;

/// Why no image is read.
#[derive(Clone, Copy, Debug, PartialEq, Eq, Error)]
pub enum PbmFault {
    /// The bytes do not begin with the header of a raw PBM.
    #[error("the header is not one of a raw PBM")]
    BadHeader,
    /// The width is not 1 to 65,535, or the height not 1 to 1,000,000.
    #[error("the image is out of limits")]
    OutOfLimits,
    /// There are fewer bytes than the rows take.
    #[error("the image has fewer bytes than its rows")]
    ShortRaster,
}

impl PbmFault {
    ghost use Rattle.fax_files.specs.Pbm.{pbm_fault_name};

    /// The fault's name.
    pub fn name(self) -> &'static str
        ensures { result.now ≡ pbm_fault_name self }
    {
        match self {
            PbmFault::BadHeader => "BadHeader",
            PbmFault::OutOfLimits => "OutOfLimits",
            PbmFault::ShortRaster => "ShortRaster",
        }
    }
}

/// A blank, TAB, LF, VT, FF or CR.
fn is_white_space(byte: u8) -> bool
    ensures { result ≡ Pbm.is_white_space byte }
{
    byte == b' ' || (9 <= byte && byte <= 13)
}

/// A LF or CR, which ends a comment.
fn is_line_end(byte: u8) -> bool
    ensures { result ≡ Spec.is_line_end byte }
{
    byte == b'\n' || byte == b'\r'
}

/// A decimal digit.
fn is_digit(byte: u8) -> bool
    ensures { result ≡ Spec.is_digit byte }
{
    b'0' <= byte && byte <= b'9'
}

/// White space, or the `#` of a comment.
fn starts_white_space(byte: u8) -> bool
    ensures { result ≡ Spec.starts_white_space byte }
{
    byte == b'#' || is_white_space(byte)
}

/// What stands after white space and comments, if anything does.
fn skip_white_space(bytes: &[u8]) -> Option<&[u8]>
    ensures some { IfSome result (λ rest. Spec.skip_white_space false bytes.now ≡ Some rest.now) }
    ensures none { IfNone result (Spec.skip_white_space false bytes.now ≡ None) }
{
    let mut in_comment = false;
    for (i, byte) in bytes.iter().enumerate() {
        if in_comment {
            in_comment = !is_line_end(*byte);
        } else if starts_white_space(*byte) {
            in_comment = *byte == b'#';
        } else {
            return Some(&bytes[i..]);
        }
    }
    None
}

/// What stands after a gap, which is white space or a comment or more of them.
fn after_gap(bytes: &[u8]) -> Option<&[u8]>
    ensures some { IfSome result (λ rest. Spec.after_gap bytes.now ≡ Some rest.now) }
    ensures none { IfNone result (Spec.after_gap bytes.now ≡ None) }
{
    if bytes.is_empty() || !starts_white_space(bytes[0]) {
        return None;
    }
    skip_white_space(bytes)
}

/// The number that the digits ahead spell, or `ABOVE_LIMITS` where it is larger, and what stands
/// after it.
fn number(bytes: &[u8]) -> Option<(u32, &[u8])>
    ensures number { IfSome result (λ found. found.0 ≡ Spec.capped_from 0 bytes.now) }
    ensures after { IfSome result (λ found. found.1.now ≡ Spec.after_digits bytes.now) }
    ensures some { IfSome result (λ _. Spec.has_digit bytes.now ≡ true) }
    ensures none { IfNone result (Spec.has_digit bytes.now ≡ false) }
{
    if bytes.is_empty() || !is_digit(bytes[0]) {
        return None;
    }
    let mut number = 0;
    for (i, byte) in bytes.iter().enumerate() {
        if !is_digit(*byte) {
            return Some((number, &bytes[i..]));
        }
        number = (10 * number + u32::from(*byte - b'0')).min(ABOVE_LIMITS);
    }
    Some((number, &bytes[bytes.len()..]))
}

/// An image's header, and what stands after it. A number above its limit is a number above it.
#[derive(Drop)]
struct Head<'a> {
    width: u32,
    height: u32,
    after: &'a [u8],
}

/// The header at the start of the bytes.
fn read_head(bytes: &[u8]) -> Option<Head<'_>>
    ensures some { IfSome result (λ head.
        Spec.IsHeadRead bytes.now head.width head.height head.after.now) }
    ensures none { IfNone result ((width height : ℕ) (rest : List ℕ)
        → Spec.IsHeadRead bytes.now width height rest → ⊥) }
{
    if !bytes.starts_with(b"P4") {
        return None;
    }
    let at_width = after_gap(&bytes[2..])?;
    let (width, after_width) = number(at_width)?;
    let at_height = after_gap(after_width)?;
    let (height, after_height) = number(at_height)?;
    if after_height.is_empty() || !is_white_space(after_height[0]) {
        return None;
    }
    Some(Head {
        width,
        height,
        after: &after_height[1..],
    })
}

/// The bytes of a row of this width.
fn row_len(width: u32) -> usize
    ensures { result ≡ Packed.packed_len width }
{
    (width as usize).div_ceil(8)
}

/// An image within the limits: its width, how many rows it has, and their bytes in the input, each
/// row's from a byte of its own on.
// Its width and height are within the limits and fit its bytes by its type, so that `row` asks for
// nothing but a row that is there.
#[derive(Clone, Copy, Debug, PartialEq, Eq)]
pub struct PbmImage<'a> {
    pub width: u32,
    pub rows: u32,
    pub raster: &'a [u8],
    ghost within: { IsTrue (Pbm.is_within_limits width rows) },
    ghost whole: { length raster.now ≡ Spec.raster_len width rows },
}

impl<'a> PbmImage<'a> {
    ghost use Rattle.std.specs.Prelude.{take, drop};

    /// The bytes of row `i`, from 0 at the top: eight pels in a byte, the leftmost in its highest
    /// bit, where 1 is black.
    pub fn row(&self, i: u32) -> &'a [u8]
        requires { i < self.now.rows }
        ensures bytes { result.now
            ≡ take (Packed.packed_len self.now.width)
            (drop (i * Packed.packed_len self.now.width) self.now.raster.now) }
        ensures len { length result.now ≡ Packed.packed_len self.now.width }
    {
        let len = row_len(self.width);
        let start = i as usize * len;
        &self.raster[start..start + len]
    }
}

/// The numbers are an image's width and height within the limits.
fn is_within_limits(width: u32, height: u32) -> bool
    ensures { result ≡ Pbm.is_within_limits width height }
{
    (1..=65_535).contains(&width) && (1..=1_000_000).contains(&height)
}

/// The image at the start of the bytes, and what stands after it.
fn read_image(bytes: &[u8]) -> Result<(PbmImage<'_>, &[u8]), PbmFault>
    ensures ok { IfOk result (λ found. Pbm.IsImage bytes.now
        (View.image_of found.0.width found.0.rows found.0.raster.now) found.1.now) }
    ensures raster { IfOk result (λ found. Pbm.IsHead bytes.now found.0.width found.0.rows
        (found.0.raster.now ++ found.1.now)) }
    ensures err { IfErr result (Pbm.IsImageFault bytes.now) }
{
    let Some(head) = read_head(bytes) else {
        return Err(PbmFault::BadHeader);
    };
    if !is_within_limits(head.width, head.height) {
        return Err(PbmFault::OutOfLimits);
    }
    let len = (head.height as usize).saturating_mul(row_len(head.width));
    if head.after.len() < len {
        return Err(PbmFault::ShortRaster);
    }
    let image = PbmImage {
        width: head.width,
        rows: head.height,
        raster: &head.after[..len],
    };
    Ok((image, &head.after[len..]))
}

/// Reads image after image. Contracts see the remaining bytes, and the fault that was returned.
#[derive(Drop)]
pub struct PbmReader<'a> {
    remaining: &'a [u8],
    fault: Option<PbmFault>,
}

impl<'a> Model for PbmReader<'a> {
    ghost use Rattle.fax_files.specs.views.Pbm.{PbmState};

    ghost Value = { PbmState };

    ghost view = { λ r. record { remaining = r.remaining.now; fault = r.fault } };
}

impl<'a> PbmReader<'a> {
    ghost use Rattle.fax_files.specs.views.Pbm.{image_of, HasNoImageLeft, IsFaultAnswered};
    ghost use Rattle.fax_files.specs.views.Pbm.{IsImageRead};

    /// A reader of the images in these bytes.
    pub fn new(bytes: &'a [u8]) -> Self
        ensures { result ≡ record { remaining = bytes.now; fault = None } }
    {
        PbmReader {
            remaining: bytes,
            fault: None,
        }
    }

    /// The bytes that are left.
    pub fn remaining(&self) -> &'a [u8]
        ensures { result.now ≡ self.now.remaining }
    {
        self.remaining
    }

    /// The image at the start of the remaining bytes, which then begin after it, or none where no
    /// bytes are left.
    ///
    /// # Errors
    ///
    /// The image's fault, which is returned again from then on.
    pub fn next_image(&mut self) -> Result<Option<PbmImage<'a>>, PbmFault>
        ensures image { IfOk result (λ found. IfSome found (λ image. IsImageRead self.old
            (image_of image.width image.rows image.raster.now) self.new)) }

        // The raster is that part of the input.
        ensures raster { IfOk result (λ found. IfSome found (λ image. Pbm.IsHead self.old.remaining
            image.width image.rows (image.raster.now ++ self.new.remaining))) }
        ensures end { IfOk result (λ found. IfNone found (HasNoImageLeft self.old self.new)) }
        ensures fault { IfErr result (IsFaultAnswered self.old self.new) }
    {
        if let Some(fault) = self.fault {
            return Err(fault);
        }
        if self.remaining.is_empty() {
            return Ok(None);
        }
        match read_image(self.remaining) {
            Ok((image, after)) => {
                self.remaining = after;
                Ok(Some(image))
            }
            Err(fault) => {
                self.fault = Some(fault);
                Err(fault)
            }
        }
    }
}

/// Appends an image's header: `P4`, its width and its height, in decimals without leading zeros.
///
/// # Errors
///
/// `Memory` where a growth was refused; the bytes are then as they were.
pub fn put_pbm_head(out: &mut Vec<u8>, width: u32, rows: u32) -> Result<(), Memory>
    ensures ok { OnOk result (out.new.items ≡ out.old.items ++ View.head_bytes width rows) }
    ensures err { OnErr result (out.new.items ≡ out.old.items) }
{
    let mut width_digits = Buffer::new();
    let mut rows_digits = Buffer::new();
    let width = width_digits.format(width).as_bytes();
    let rows = rows_digits.format(rows).as_bytes();
    out.reserve(5 + width.len() + rows.len())
        .map_err(|_| Memory)?;
    out.extend_from_slice(b"P4\n").map_err(|_| Memory)?;
    out.extend_from_slice(width).map_err(|_| Memory)?;
    out.extend_from_slice(b" ").map_err(|_| Memory)?;
    out.extend_from_slice(rows).map_err(|_| Memory)?;
    out.extend_from_slice(b"\n").map_err(|_| Memory)
}

/// Appends the bytes of a row: eight pels in a byte, the leftmost in its highest bit, where 1 is
/// black and the bits after the last pel are 0.
///
/// # Errors
///
/// `Memory` where a growth was refused; the bytes are then as they were.
pub fn put_pbm_row(out: &mut Vec<u8>, row: &Row) -> Result<(), Memory>
    ensures ok { OnOk result (out.new.items ≡ out.old.items ++ Packed.packed_row row.now) }
    ensures err { OnErr result (out.new.items ≡ out.old.items) }
{
    let start = out.len();
    let len = row_len(row.width());
    out.resize(start + len, 0).map_err(|_| Memory)?;
    if !row.is_white() {
        row.to_packed(&mut out[start..]);
    }
    Ok(())
}

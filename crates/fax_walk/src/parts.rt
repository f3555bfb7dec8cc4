//! The bytes of an output, of which white rows are not held.
ghost use Rattle.std.specs.Prelude.{◌≡◌, ◌+◌, ◌*◌, ◌<◌, ◌≤◌, ◌++◌, [], length, replicate, OnOk};
ghost use Rattle.std.specs.Prelude.{OnErr, IfOk, IfSome, IfNone, flat_map};
ghost use Rattle.fax_files.specs.Directory.{max_file};
ghost use Rattle.fax_files.specs.views.Pbm.{head_bytes};
ghost use Rattle.fax_rows.specs.Coded.{packed_len, packed_row};
ghost use Rattle.fax_page.specs.Lines.{white_row};
ghost use Rattle.fax_walk.specs.views.SparseBytes.{part_bytes};

use fax_bits::Memory;
use fax_files::{put_pbm_head, put_pbm_row};
use fax_rows::Row;
use std::alloc::Global;
use std::marker::Model;

/// White rows of fewer bytes are held like others: a gap takes memory too.
const LEAST_GAP: usize = 64;

/// Pushes so many zeros.
fn push_zeros(bytes: &mut Vec<u8>, zeros: usize) -> Result<(), Memory>
    requires { length bytes.old.items + zeros ≤ max_file }
    ensures ok { OnOk result (bytes.new.items ≡ bytes.old.items ++ replicate zeros 0) }
    ensures err { OnErr result (bytes.new.items ≡ bytes.old.items) }
{
    let len = bytes.len() + zeros;
    bytes.resize(len, 0).map_err(|_| Memory)
}

/// Zeros that are not held, after so many bytes that are.
#[derive(Clone, Copy)]
struct ZeroRun {
    held: usize,
    zeros: usize,
}

/// The bytes of an output. White rows of an image are counted, and not held. Contracts see all of
/// the bytes.
#[derive(Drop)]
pub struct SparseBytes {
    held: Vec<u8>,
    gaps: Vec<ZeroRun>,
    /// How many of the held bytes stand before the last gap.
    placed: usize,
    /// How many zeros the gaps have.
    zeros: usize,
}

impl Model for SparseBytes {
    ghost use Rattle.std.specs.Prelude.{ℕ, List};
    ghost use Rattle.fax_walk.specs.code.SparseBytes.{AreParts, spread};

    ghost Value = { List ℕ };

    ghost view = { λ parts. spread parts.gaps.items parts.held.items };

    ghost invariant = { λ parts. AreParts parts.held.items parts.gaps.items parts.placed
        parts.zeros };
}

impl SparseBytes {
    /// No bytes.
    pub(crate) fn new(alloc: Global) -> Self
        ensures { result ≡ [] }
    {
        SparseBytes::of_bytes(alloc, Vec::new(alloc))
    }

    /// These bytes, all of them held.
    pub(crate) fn of_bytes(alloc: Global, bytes: Vec<u8>) -> Self
        ensures { result ≡ bytes.items }
    {
        SparseBytes {
            held: bytes,
            gaps: Vec::new(alloc),
            placed: 0,
            zeros: 0,
        }
    }

    /// How many bytes there are.
    pub fn len(&self) -> usize
        ensures { result ≡ length self.now }
    {
        self.held.len() + self.zeros
    }

    /// All parts, in order.
    pub fn parts(&self) -> SparseParts<'_>
        ensures { result ≡ self.now }
    {
        SparseParts {
            held: &self.held,
            gaps: &self.gaps,
        }
    }

    /// Appends an image's header.
    pub(crate) fn put_head(&mut self, width: u32, rows: u32) -> Result<(), Memory>
        requires { length self.old ≤ max_file }
        ensures { OnOk result (self.new ≡ self.old ++ head_bytes width rows) }
    {
        put_pbm_head(&mut self.held, width, rows)
    }

    /// Appends zeros, which are not held, to bytes that are some already.
    fn put_zeros(&mut self, zeros: usize) -> Result<(), Memory>
        requires origin { 1 ≤ length self.old }
        requires room { length self.old + zeros ≤ max_file }
        ensures { OnOk result (self.new ≡ self.old ++ replicate zeros 0) }
    {
        let held = self.held.len() - self.placed;
        if held == 0 {
            let last = self.gaps.len() - 1;
            self.gaps[last].zeros += zeros;
            self.zeros += zeros;
            return Ok(());
        }
        self.gaps.push(ZeroRun { held, zeros }).map_err(|_| Memory)?;
        self.placed += held;
        self.zeros += zeros;
        Ok(())
    }

    /// Appends a row of an image, eight pels in a byte.
    #[inline(always)]
    pub(crate) fn put_row(&mut self, row: &Row) -> Result<(), Memory>
        requires { length self.old + packed_len (length row.now) ≤ max_file }
        ensures { OnOk result (self.new ≡ self.old ++ packed_row row.now) }
    {
        fax_rows::laws::packing_undoes_unpacking();
        let len = (row.width() as usize).div_ceil(8);
        if len >= LEAST_GAP && !self.held.is_empty() && row.is_white() {
            return self.put_zeros(len);
        }
        put_pbm_row(&mut self.held, row)
    }

    /// Appends so many white rows of an image of this width. Many of them are not held.
    pub(crate) fn put_white_rows(&mut self, width: u32, count: u32) -> Result<(), Memory>
        requires { length self.old + count * packed_len width ≤ max_file }
        ensures { OnOk result (self.new ≡ self.old
            ++ flat_map packed_row (replicate count (white_row width))) }
    {
        fax_rows::laws::white_rows_are_written();
        let zeros = count as usize * (width as usize).div_ceil(8);
        if zeros >= LEAST_GAP && !self.held.is_empty() {
            return self.put_zeros(zeros);
        }
        push_zeros(&mut self.held, zeros)
    }

    /// All bytes.
    pub(crate) fn into_bytes(self, alloc: Global) -> Result<Vec<u8>, Memory>
        ensures { IfOk result (λ bytes. bytes.items ≡ self) }
    {
        if self.gaps.is_empty() {
            return Ok(self.held);
        }
        let mut bytes = Vec::new(alloc);
        bytes.reserve(self.len()).map_err(|_| Memory)?;
        let mut remaining = self.parts();
        while let Some(part) = remaining.next_part() {
            bytes.extend_from_slice(part.held).map_err(|_| Memory)?;
            bytes
                .resize(bytes.len() + part.zeros, 0)
                .map_err(|_| Memory)?;
        }
        Ok(bytes)
    }
}

/// A part of an output: some bytes, and zeros after them.
#[derive(Clone, Copy)]
pub struct Part<'a> {
    /// Bytes, one or more.
    pub held: &'a [u8],
    /// How many zeros stand after the bytes.
    pub zeros: usize,
}

/// The parts of an output that are left. Contracts see their bytes.
#[derive(Drop)]
pub struct SparseParts<'a> {
    held: &'a [u8],
    gaps: &'a [ZeroRun],
}

impl<'a> Model for SparseParts<'a> {
    ghost use Rattle.std.specs.Prelude.{ℕ, List};
    ghost use Rattle.fax_walk.specs.code.SparseBytes.{AreLeft, spread};

    ghost Value = { List ℕ };

    ghost view = { λ remaining. spread remaining.gaps.now remaining.held.now };

    ghost invariant = { λ remaining. AreLeft remaining.held.now remaining.gaps.now };
}

impl<'a> SparseParts<'a> {
    /// The next part, or none where all parts were returned.
    pub fn next_part(&mut self) -> Option<Part<'a>>
        ensures part { IfSome result (λ part. self.old ≡ part_bytes part ++ self.new) }
        ensures some { IfSome result (λ part. 0 < length part.held.now) }
        ensures end { IfNone result (self.old ≡ []) }
        ensures unchanged { IfNone result (self.new ≡ self.old) }
    {
        let Some((gap, others)) = self.gaps.split_first() else {
            if self.held.is_empty() {
                return None;
            }
            let held = self.held;
            self.held = &held[held.len()..];
            return Some(Part { held, zeros: 0 });
        };
        let held = &self.held[..gap.held];
        self.held = &self.held[gap.held..];
        self.gaps = others;
        Some(Part {
            held,
            zeros: gap.zeros,
        })
    }
}

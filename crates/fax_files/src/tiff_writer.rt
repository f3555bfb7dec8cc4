//! TIFF files, written page by page.

ghost use Rattle.std.specs.Prelude.{◌≡◌, ◌+◌, ◌<◌, ◌≤◌, length, false, IfOk, OnOk, OnErr, Err, ◌↔◌};
ghost use Rattle.std.specs.Prelude.{None};
ghost use Rattle.fax_files.specs.views.Page.{IsPageForm};
ghost use Rattle.fax_files.specs.Directory.{max_file};
ghost use Rattle.fax_files.specs.Layout.{directory_offset, page_bytes, page_of, to_link};
ghost use Rattle.fax_files.specs.views.Writing as Spec;

use crate::totals::put_totals;
use crate::written::{
    MAX_FILE, StripsAt, append, page_end, page_layout, page_tail, set_link, strips_end,
    to_next_offset,
};
use crate::{BadRows, PageForm};
use fax_bits::Memory;
use std::alloc::Global;
use std::marker::Model;
use thiserror::Error;

/// Why a page was not added to a file.
#[derive(Clone, Copy, Debug, PartialEq, Eq, Error)]
pub enum WriteFault {
    /// A growth was refused.
    #[error("out of memory")]
    Memory,
    /// The file would have more than 268,435,456 bytes.
    #[error("the output is too large")]
    OutputTooLarge,
}

/// A page as it stands in a file.
#[derive(Drop)]
pub struct PageBytes {
    /// Its strips, its directory and what belongs to that.
    pub bytes: Vec<u8>,
    /// Where in the file its directory begins.
    pub directory: u32,
    /// Where in the file the offset of the next page's directory stands, which is 0.
    pub link: u32,
}

/// The bytes of page `number`, from 0, of `total` of this form, of which these are the bytes of
/// each strip, as they stand from byte `start` of a file on.
///
/// # Errors
///
/// `OutputTooLarge` where the file would have more than 268,435,456 bytes, `Memory` where a growth
/// was refused.
pub fn write_page(
    alloc: Global,
    form: &PageForm,
    strips: &[Vec<u8>],
    start: u32,
    number: u16,
    total: u16,
) -> Result<PageBytes, WriteFault>
    requires header { 8 ≤ start }
    requires limit { start ≤ max_file }
    requires limits { IsPageForm form.now }
    requires exchanged { form.now.exchanged ≡ false }
    requires strips { length strips.now ≡ form.now.strips }
    ensures bytes { IfOk result (λ page. page.bytes.items
        ≡ page_bytes start total number (page_of form.now (Spec.contents strips.now))) }
    ensures directory { IfOk result (λ page. page.directory
        ≡ directory_offset start (Spec.contents strips.now)) }
    ensures link { IfOk result (λ page. page.link ≡ page.directory + to_link None) }
    ensures within { IfOk result (λ page. start + length page.bytes.items ≤ max_file) }
    ensures too_large { (result ≡ Err WriteFault.OutputTooLarge) ↔ (max_file
        < start
        + length (page_bytes start total number (page_of form.now (Spec.contents strips.now)))) }
{
    let Some(end) = strips_end(start, strips) else {
        return Err(WriteFault::OutputTooLarge);
    };
    if page_end(end + end % 2, form.strips, None) > u64::from(MAX_FILE) {
        return Err(WriteFault::OutputTooLarge);
    }
    let at = page_layout(form.strips, start, end, number, total, None);
    let placed = StripsAt { strips, start, end };
    let Ok(tail) = page_tail(alloc, form, placed, &at) else {
        return Err(WriteFault::Memory);
    };
    let mut bytes = Vec::new(alloc);
    let Ok(()) = append(&mut bytes, strips, &tail) else {
        return Err(WriteFault::Memory);
    };
    Ok(PageBytes {
        bytes,
        directory: at.directory,
        link: at.directory + to_next_offset(None),
    })
}

/// Writes a TIFF file page by page. Contracts see its bytes, the place of its last link, of how
/// many pages it is to be at most, and how many were added.
#[derive(Drop)]
pub struct TiffWriter {
    alloc: Global,
    bytes: Vec<u8>,
    /// Where the offset of the next page's directory goes.
    link: u32,
    total: u16,
    added: u16,
}

impl Model for TiffWriter {
    ghost use Rattle.fax_files.specs.views.Writing.{Writing};
    ghost use Rattle.fax_files.specs.code.Writing.{IsWriting};

    ghost Value = { Writing };

    ghost view = { λ w. record {
      written = record { bytes = w.bytes.items; link = w.link };
      total = w.total;
      added = w.added;
    } };

    ghost invariant = { λ w. IsWriting record {
      written = record { bytes = w.bytes.items; link = w.link };
      total = w.total;
      added = w.added;
    } };
}

impl TiffWriter {
    ghost use Rattle.std.specs.Prelude.{List};
    ghost use Rattle.fax_files.specs.Layout.{WrittenPage, file_of};
    ghost use Rattle.fax_files.specs.views.PagesSoFar.{HasAdded};
    ghost use Rattle.fax_files.specs.views.Writing.{empty_file};

    /// A file of at most this many pages, before the first is added.
    ///
    /// # Errors
    ///
    /// `Memory` where a growth was refused.
    pub fn new(alloc: Global, pages: u16) -> Result<Self, Memory>
        requires { 1 ≤ pages }
        ensures { IfOk result (λ w. w ≡ record { written = empty_file; total = pages; added = 0 }) }
    {
        let head = [b'I', b'I', 42, 0, 0, 0, 0, 0];
        let Ok(bytes) = Vec::from_slice(alloc, &head) else {
            return Err(Memory);
        };
        Ok(TiffWriter {
            alloc,
            bytes,
            link: 4,
            total: pages,
            added: 0,
        })
    }

    /// Adds a page of this form, of which these are the bytes of each strip.
    ///
    /// # Errors
    ///
    /// `OutputTooLarge` where the file would have more than 268,435,456 bytes, `Memory` where a
    /// growth was refused. The file is then as it was.
    pub fn add_page(&mut self, form: &PageForm, strips: &[Vec<u8>]) -> Result<(), WriteFault>
        requires fewer { self.old.added < self.old.total }
        requires limits { IsPageForm form.now }
        requires exchanged { form.now.exchanged ≡ false }
        requires strips { length strips.now ≡ form.now.strips }
        ensures ok { OnOk result (self.new
            ≡ Spec.with_one_more self.old (Spec.given_page form.now strips.now None)) }
        ensures err { OnErr result (self.new ≡ self.old) }
        ensures too_large { (result ≡ Err WriteFault.OutputTooLarge)
            ↔ (max_file < Spec.length_with self.old (Spec.given_page form.now strips.now None)) }
    {
        self.add_page_with(form, strips, None)
    }

    /// Adds a page of this form, of which these are the bytes of each strip, and which says these
    /// bad rows, if any are given.
    ///
    /// # Errors
    ///
    /// As `add_page`.
    pub fn add_page_with(
        &mut self,
        form: &PageForm,
        strips: &[Vec<u8>],
        bad: Option<BadRows>,
    ) -> Result<(), WriteFault>
        requires fewer { self.old.added < self.old.total }
        requires limits { IsPageForm form.now }
        requires exchanged { form.now.exchanged ≡ false }
        requires strips { length strips.now ≡ form.now.strips }
        ensures ok { OnOk result (self.new
            ≡ Spec.with_one_more self.old (Spec.given_page form.now strips.now bad)) }
        ensures err { OnErr result (self.new ≡ self.old) }
        ensures too_large { (result ≡ Err WriteFault.OutputTooLarge)
            ↔ (max_file < Spec.length_with self.old (Spec.given_page form.now strips.now bad)) }
    {
        // The page's tail is made first, memory is reserved once for strips and tail, and only then
        // is anything appended. The link to the page is set last.
        let start = self.bytes.len() as u32;
        let Some(end) = strips_end(start, strips) else {
            return Err(WriteFault::OutputTooLarge);
        };
        let page_end = page_end(end + end % 2, form.strips, bad);
        if page_end > u64::from(MAX_FILE) {
            return Err(WriteFault::OutputTooLarge);
        }
        let at = page_layout(form.strips, start, end, self.added, self.total, bad);
        let placed = StripsAt { strips, start, end };
        let Ok(tail) = page_tail(self.alloc, form, placed, &at) else {
            return Err(WriteFault::Memory);
        };
        if self
            .bytes
            .reserve((page_end as usize) - (start as usize))
            .is_err()
        {
            return Err(WriteFault::Memory);
        }
        if append(&mut self.bytes, strips, &tail).is_err() {
            self.bytes.truncate(start as usize);
            return Err(WriteFault::Memory);
        }
        set_link(&mut self.bytes, self.link as usize, at.directory);
        self.link = at.directory + to_next_offset(bad);
        self.added += 1;
        Ok(())
    }

    /// How many pages were added.
    pub fn added(&self) -> u16
        ensures { result ≡ self.now.added }
    {
        self.added
    }

    /// The bytes of the file of the pages that were added, each of which says how many these are,
    /// whatever number of pages the file was started for. Where none was added it is the header
    /// alone, which is no TIFF file.
    pub fn finish(self) -> Vec<u8>
        ensures file { (pages : List WrittenPage) → HasAdded self.total pages self
            → result.items ≡ file_of pages }
        ensures all { self.added ≡ self.total → result.items ≡ self.written.bytes }
    {
        let mut bytes = self.bytes;
        put_totals(&mut bytes, self.added);
        bytes
    }
}
